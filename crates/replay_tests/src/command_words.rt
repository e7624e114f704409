//! The words of the command and the settings that they ask for.
//!
//! A table is one text with a row a line: what the words ask for, a colon and a space, and the words, of which each but the last ends at a
//! bar. Where the last word is empty, it ends at a bar too.
use crate::cases::rows_of;
use nb_base::Mode;
use neigh_words::{Command, Settings, SettingsFail, settings};
use std::alloc::{AllocError, Global};
use std::test::Fail;

/// What stands before the words of a table's rows.
#[derive(Clone, Copy)]
enum Asked {
    /// The script's name. There is no capture, and the window is 50.
    Script,
    /// The capture's name. The script is `s`, and the window 50.
    Capture,
    /// The window, and the script's name. There is no capture.
    Window,
    /// The number of buckets.
    Buckets,
    /// The number of a generated input.
    Number,
}

/// Words that name a script.
const SCRIPTS: &str = "\
s: --script|s
s: --script=s
: --script||
: --script=
-x: --script=-x
-: --script=-
--: --script=--
a=b: --script=a=b
a b: --script|a b
";

/// Words that name a capture too.
const CAPTURES: &str = "\
c: --script|s|--capture|c
-: --capture=-|--script|s
: --script=s|--capture||
";

/// Words with a mode, a window or one bucket.
const WINDOWS: &str = "\
50 s: --script|s|--mode|inline
50 s: --mode=inline|--script|s
1 s: --script|s|--window|1
60000 s: --window|60000|--script|s
60 s: --window=0000000060|--script=s
50 s: --script|s|--buckets|1
50 s: --buckets=0000000001|--script=s
7 inline: --buckets|1|--window=7|--mode|inline|--script|inline
";

/// Words with several buckets.
const BUCKETS: &str = "\
64: --script|s|--buckets|64
32: --buckets=0000000032|--script|s
2: --script=s|--buckets=2|--capture=c
16: --script=s|--buckets=16|--mode=inline
";

/// Words that ask for a generated input.
const NUMBERS: &str = "\
1: --generate|1
0: --generate=0
7: --generate|00000000000000000007
18446744073709551615: --generate=18446744073709551615
9999999999: --generate|9999999999
";

/// Words that aren't of the command, and ask for nothing. The second row has no words.
const OUTSIDE: &str = "\
s

--script
--mode|inline
--script|s|t
|--script|s
--script|s|--script|t
--script=s|--script=s
--script|s|--window|50|--window=50
--script|s|--mode|inline|--mode|inline
--script|s|--buckets=1|--buckets|1
--script|-
--script|--
--script|s|--
--|--script|s
-|--script|s
--script|-x
--script|--mode|inline
--scr|s
--SCRIPT|s
-script|s
--help
--script|s|-h
--script|s|--version
--script|s|--capture
--capture|c
--script|s|--capture=c|--capture=c
--script|s|--mode|threads
--script|s|--mode=
--script|s|--window|0
--script|s|--window|60001
--script|s|--window|4294967346
--script|s|--window|00000000050
--script|s|--window=
--script|s|--window=-5
--script|s|--window|5s
--script|s|--buckets|0
--script|s|--buckets|3
--script|s|--buckets|65
--script|s|--buckets|128
--script|s|--buckets|4294967297
--generate
--generate=
--generate|1|--window|5
--window=5|--generate=1
--script|s|--generate|1
--generate|1|--capture|c
--generate|1|--mode|inline
--generate|1|--buckets|1
--generate|1|--generate|1
--generate|18446744073709551616
--generate|000000000000000000001
--generate=+1
--generate=-1
--generate|0x1
--generate|1|2
";

/// The words of a row.
fn words_of(alloc: Global, row: &str) -> Result<Vec<String>, AllocError> {
    let mut words = Vec::new(alloc);
    for word in row.split_terminator('|') {
        words.push(String::from_str(alloc, word)?)?;
    }
    Ok(words)
}

fn names_capture(settings: &Settings, capture: Option<&str>) -> bool {
    match &settings.capture {
        Some(name) => capture == Some(name.as_str()),
        None => capture.is_none(),
    }
}

/// Whether the settings are those of one bucket, with this script and capture.
fn names(settings: &Settings, script: &str, capture: Option<&str>) -> bool {
    settings.script.as_str() == script
        && names_capture(settings, capture)
        && settings.mode == Mode::Inline
        && settings.buckets == 1
}

fn is_number(text: &str, number: u64) -> bool {
    text.parse().ok() == Some(number)
}

/// Whether the settings are those of this window and script, without a capture.
fn has_window(settings: &Settings, row: &str) -> bool {
    match row.split_once(' ') {
        Some((window, script)) => {
            names(settings, script, None) && is_number(window, u64::from(settings.window))
        }
        None => false,
    }
}

/// Whether the settings are what stands before a row's words.
fn gives(settings: &Settings, asked: Asked, front: &str) -> bool {
    match asked {
        Asked::Script => names(settings, front, None) && settings.window == 50,
        Asked::Capture => names(settings, "s", Some(front)) && settings.window == 50,
        Asked::Window => has_window(settings, front),
        Asked::Buckets => is_number(front, u64::from(settings.buckets)),
        Asked::Number => false,
    }
}

/// Whether the words ask for what stands before them.
fn ask_for(alloc: Global, asked: Asked, front: &str, words: &str) -> Result<bool, AllocError> {
    match settings(alloc, &words_of(alloc, words)?) {
        Ok(Command::Replay(settings)) => Ok(gives(&settings, asked, front)),
        Ok(Command::Generate(number)) => {
            Ok(matches!(asked, Asked::Number) && is_number(front, number))
        }
        Err(_) => Ok(false),
    }
}

/// The first row whose words ask for something else, or that is no row.
fn first_other(
    alloc: Global,
    asked: Asked,
    rows: &'static str,
) -> Result<Option<&'static str>, AllocError> {
    for row in rows.lines() {
        let Some((front, words)) = row.split_once(": ") else {
            return Ok(Some(row));
        };
        if !ask_for(alloc, asked, front, words)? {
            return Ok(Some(row));
        }
    }
    Ok(None)
}

#[test]
fn words_of_the_command_name_their_script(rt: HostRuntime) -> Result<(), Fail> {
    assert_eq!(rt; rows_of(SCRIPTS), 9);
    assert_eq!(rt; first_other(rt.alloc(), Asked::Script, SCRIPTS)?, None);
    Ok(())
}

#[test]
fn words_of_the_command_name_their_capture(rt: HostRuntime) -> Result<(), Fail> {
    assert_eq!(rt; rows_of(CAPTURES), 3);
    assert_eq!(rt; first_other(rt.alloc(), Asked::Capture, CAPTURES)?, None);
    Ok(())
}

#[test]
fn words_of_the_command_give_their_window(rt: HostRuntime) -> Result<(), Fail> {
    assert_eq!(rt; rows_of(WINDOWS), 8);
    assert_eq!(rt; first_other(rt.alloc(), Asked::Window, WINDOWS)?, None);
    Ok(())
}

#[test]
fn words_of_the_command_give_their_buckets(rt: HostRuntime) -> Result<(), Fail> {
    assert_eq!(rt; rows_of(BUCKETS), 4);
    assert_eq!(rt; first_other(rt.alloc(), Asked::Buckets, BUCKETS)?, None);
    Ok(())
}

#[test]
fn words_of_the_command_give_their_number(rt: HostRuntime) -> Result<(), Fail> {
    assert_eq!(rt; rows_of(NUMBERS), 5);
    assert_eq!(rt; first_other(rt.alloc(), Asked::Number, NUMBERS)?, None);
    Ok(())
}

/// Whether the words aren't of the command.
fn are_outside(alloc: Global, words: &str) -> Result<bool, AllocError> {
    let words = words_of(alloc, words)?;
    Ok(matches!(settings(alloc, &words), Err(SettingsFail::Usage)))
}

/// The first words that are the command's.
fn first_taken(alloc: Global, rows: &'static str) -> Result<Option<&'static str>, AllocError> {
    for words in rows.lines() {
        if !are_outside(alloc, words)? {
            return Ok(Some(words));
        }
    }
    Ok(None)
}

#[test]
fn other_words_are_outside_the_command(rt: HostRuntime) -> Result<(), Fail> {
    assert_eq!(rt; rows_of(OUTSIDE), 56);
    assert_eq!(rt; first_taken(rt.alloc(), OUTSIDE)?, None);
    Ok(())
}
