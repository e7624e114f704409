//! What the command's words ask for.
ghost use Rattle.std.specs.Prelude.{◌≡◌, ◌≢◌, true, false, is_none, map, Some, None, Ok, Err, IfOk, IfErr, IfSome, IsTrue, codes, string_bytes};
ghost use Rattle.std.specs.Char.{is_ascii_digit};
ghost use Rattle.std.specs.List.{list_all, list_any};
ghost use Rattle.std.specs.Option.{option_map};
ghost use Rattle.clap.specs.Matches.{found_of};
ghost use Rattle.clap.specs.Simple.{app_of};
ghost use Rattle.clap.specs.Values.{kind_of};
ghost use Rattle.clap.specs.Walk.{first_of, rows_of, rule_of};
ghost use Rattle.nb_base.specs.Buckets.{is_bucket_count};
ghost use Rattle.nb_base.specs.Buckets as buckets;
ghost use Rattle.neigh_words.specs.Settings.{asked_by, asked_in, given, is_taken, neigh_command, wanted, wanted_by, wanted_in};
ghost use Rattle.neigh_words.specs.Settings as of;
ghost use Rattle.neigh_words.specs.Window.{is_window};

use crate::options::{Command, Settings, SettingsFail};
use clap::error::ErrorKind;
use clap::{Arg, ArgAction, ArgMatches, Error};
use nb_base::{Mode, read_number};
use std::alloc::{AllocError, Global};

/// What the command's words ask for: `--script FILE [--capture FILE] [--mode inline] [--window MS] [--buckets N]`, a replay, or `--generate NUMBER` alone, a run
/// of the input that is generated from the number. Each option stands at most once and in any order, its value as the next word or behind `=`.
/// MS is 1 to 60,000 and N is 1, 2, 4, 8, 16, 32 or 64, each 1 to 10 decimal digits; NUMBER is 1 to 20 decimal digits, below 2^64. A value that begins with
/// `-` stands behind `=`, and no word is `-` or `--`. The words are those behind the program's own name.
///
/// Without their options there is no capture, the mode is inline, the window 50 ms and the number of buckets 1.
///
/// # Errors
///
/// `Usage` only where the words aren't of the command, and there always, unless memory runs out before that is known, which is `Memory`.
pub fn settings(alloc: Global, words: &[String]) -> Result<Command, SettingsFail>
    ensures found { IfOk result (λ command. wanted (map string_bytes words.now) ≡ Some (wanted_by command)) }
    ensures usage { result ≡ Err SettingsFail.Usage → wanted (map string_bytes words.now) ≡ None }
{
    if has_dashes(words) {
        return Err(SettingsFail::Usage);
    }
    let matches = matches(alloc, words)?;
    command_in(alloc, &matches)
}

fn has_dashes(words: &[String]) -> bool
    ensures { result ≡ list_any (λ word. of.is_dashes (string_bytes word)) words.now }
{
    words.iter().any(|word| is_dashes(word.as_str()))
}

// What `clap` makes of the words.
fn matches<'a>(alloc: Global, words: &'a [String]) -> Result<ArgMatches<'a>, SettingsFail>
    ensures taken { IfOk result (λ _. is_taken (map string_bytes words.entry.now) ≡ true) }
    ensures rows { IfOk result (λ matches. rows_of (found_of matches) ≡ given (map string_bytes words.entry.now)) }
    ensures usage { result ≡ Err SettingsFail.Usage → is_taken (map string_bytes words.entry.now) ≡ false }
{
    let Ok(command) = command(alloc) else {
        return Err(SettingsFail::Memory);
    };
    match command.try_get_matches_from(words) {
        Ok(matches) => Ok(matches),
        Err(error) => Err(cause(&error)),
    }
}

fn cause(error: &Error) -> SettingsFail
    ensures usage { result ≡ SettingsFail.Usage → kind_of error.now ≢ ErrorKind.OutOfMemory }
    ensures memory { result ≡ SettingsFail.Memory → kind_of error.now ≡ ErrorKind.OutOfMemory }
{
    match error.kind() {
        ErrorKind::OutOfMemory => SettingsFail::Memory,
        _ => SettingsFail::Usage,
    }
}

// The command as `clap` is told of it.
fn command<'a>(alloc: Global) -> Result<clap::Command<'a>, AllocError>
    ensures { IfOk result (λ command. app_of command ≡ neigh_command) }
{
    let command = clap::Command::new(alloc, "neigh")
        .no_binary_name(true)
        .disable_help_flag(true)
        .disable_version_flag(true);
    command
        .arg(option(alloc, "script"))?
        .arg(option(alloc, "capture"))?
        .arg(option(alloc, "mode"))?
        .arg(option(alloc, "window"))?
        .arg(option(alloc, "buckets"))?
        .arg(option(alloc, "generate"))
}

// An option with one value.
fn option<'a>(alloc: Global, name: &'a str) -> Arg<'a>
    ensures rule { rule_of result ≡ of.option_named name.now }
    ensures local { result.global ≡ false }
{
    Arg::new(alloc, name).long(name).action(ArgAction::Set)
}

// What the options' values ask for.
#[tactic(auto, unfolding(crate::specs::Settings::wanted_in))]
fn command_in(alloc: Global, matches: &ArgMatches<'_>) -> Result<Command, SettingsFail>
    ensures found { IfOk result (λ command. wanted_in (rows_of (found_of matches.now)) ≡ Some (wanted_by command)) }
    ensures usage { result ≡ Err SettingsFail.Usage → wanted_in (rows_of (found_of matches.now)) ≡ None }
{
    match value_of(matches, "generate") {
        Some(text) => generation(matches, text),
        None => Ok(Command::Replay(settings_in(alloc, matches)?)),
    }
}

// A number to generate from, which stands alone.
fn generation(matches: &ArgMatches<'_>, text: &str) -> Result<Command, SettingsFail>
    ensures found { IfOk result (λ command. of.wanted_with (Some text.now) (rows_of (found_of matches.now)) ≡ Some (wanted_by command)) }
    ensures usage { result ≡ Err SettingsFail.Usage → of.wanted_with (Some text.now) (rows_of (found_of matches.now)) ≡ None }
{
    if !is_alone(matches) {
        return Err(SettingsFail::Usage);
    }
    match read_generated(text) {
        Some(number) => Ok(Command::Generate(number)),
        None => Err(SettingsFail::Usage),
    }
}

// Whether no option of a replay is given.
fn is_alone(matches: &ArgMatches<'_>) -> bool
    ensures { result ≡ of.is_alone (rows_of (found_of matches.now)) }
{
    is_left_out(matches, "script")
        && is_left_out(matches, "capture")
        && is_left_out(matches, "mode")
        && is_left_out(matches, "window")
        && is_left_out(matches, "buckets")
}

fn is_left_out(matches: &ArgMatches<'_>, name: &str) -> bool
    ensures { result ≡ is_none (first_of name.now (rows_of (found_of matches.now))) }
{
    value_of(matches, name).is_none()
}

// The settings that the options' values ask for.
#[tactic(auto, unfolding(crate::specs::Settings::asked_in))]
fn settings_in(alloc: Global, matches: &ArgMatches<'_>) -> Result<Settings, SettingsFail>
    ensures found { IfOk result (λ settings. asked_in (rows_of (found_of matches.now)) ≡ Some (asked_by settings)) }
    ensures usage { result ≡ Err SettingsFail.Usage → asked_in (rows_of (found_of matches.now)) ≡ None }
{
    let Some(script) = value_of(matches, "script") else {
        return Err(SettingsFail::Usage);
    };
    let Some(mode) = mode_in(matches) else {
        return Err(SettingsFail::Usage);
    };
    let Some(window) = window_in(matches) else {
        return Err(SettingsFail::Usage);
    };
    let Some(buckets) = buckets_in(matches) else {
        return Err(SettingsFail::Usage);
    };
    let Ok(script) = String::from_str(alloc, script) else {
        return Err(SettingsFail::Memory);
    };
    let Ok(capture) = capture_in(alloc, matches) else {
        return Err(SettingsFail::Memory);
    };
    Ok(Settings {
        script,
        capture,
        mode,
        window,
        buckets,
    })
}

fn capture_in(alloc: Global, matches: &ArgMatches<'_>) -> Result<Option<String>, AllocError>
    ensures { IfOk result (λ capture. option_map string_bytes capture ≡ first_of (codes "capture") (rows_of (found_of matches.now))) }
{
    match value_of(matches, "capture") {
        Some(name) => Ok(Some(String::from_str(alloc, name)?)),
        None => Ok(None),
    }
}

fn mode_in(matches: &ArgMatches<'_>) -> Option<Mode>
    ensures value { result ≡ of.read_or Mode.Inline of.mode_of (first_of (codes "mode") (rows_of (found_of matches.now))) }
    ensures inline { IfSome result (λ mode. mode ≡ Mode.Inline) }
{
    match value_of(matches, "mode") {
        Some(text) => read_mode(text),
        None => Some(Mode::Inline),
    }
}

fn window_in(matches: &ArgMatches<'_>) -> Option<u32>
    ensures value { result ≡ of.read_or 50 of.window_of (first_of (codes "window") (rows_of (found_of matches.now))) }
    ensures fits { IfSome result (λ n. IsTrue (is_window n)) }
{
    match value_of(matches, "window") {
        Some(text) => read_window(text),
        None => Some(50),
    }
}

fn buckets_in(matches: &ArgMatches<'_>) -> Option<u32>
    ensures value { result ≡ of.read_or 1 of.buckets_of (first_of (codes "buckets") (rows_of (found_of matches.now))) }
    ensures fits { IfSome result (λ n. IsTrue (is_bucket_count n)) }
{
    match value_of(matches, "buckets") {
        Some(text) => read_buckets(text),
        None => Some(1),
    }
}

// The value of an option, where it is given.
fn value_of<'a>(matches: &ArgMatches<'a>, name: &str) -> Option<&'a str>
    ensures { option_map (λ text. text.now) result ≡ first_of name.now (rows_of (found_of matches.now)) }
{
    matches.get_str(name)
}

fn read_mode(text: &str) -> Option<Mode>
    ensures value { result ≡ of.mode_of text.now }
    ensures inline { IfSome result (λ mode. mode ≡ Mode.Inline) }
{
    if text == "inline" {
        Some(Mode::Inline)
    } else {
        None
    }
}

fn read_window(text: &str) -> Option<u32>
    ensures value { result ≡ of.window_of text.now }
    ensures fits { IfSome result (λ n. IsTrue (is_window n)) }
{
    let number = read_number(text.as_bytes())?;
    if 1 <= number && number <= 60_000 {
        Some(number as u32)
    } else {
        None
    }
}

fn read_buckets(text: &str) -> Option<u32>
    ensures value { result ≡ of.buckets_of text.now }
    ensures fits { IfSome result (λ n. IsTrue (is_bucket_count n)) }
{
    let number = read_number(text.as_bytes())?;
    if is_bucket_count(number) {
        Some(number as u32)
    } else {
        None
    }
}

fn is_bucket_count(number: u64) -> bool
    ensures { result ≡ buckets.is_bucket_count number }
{
    matches!(number, 1 | 2 | 4 | 8 | 16 | 32 | 64)
}

fn read_generated(text: &str) -> Option<u64>
    ensures { result ≡ of.generated_of text.now }
{
    if is_long_number(text.as_bytes()) {
        text.parse().ok()
    } else {
        None
    }
}

fn is_long_number(text: &[u8]) -> bool
    ensures { result ≡ of.is_long_number text.now }
{
    1 <= text.len() && text.len() <= 20 && has_digits(text)
}

fn has_digits(text: &[u8]) -> bool
    ensures { result ≡ list_all is_ascii_digit text.now }
{
    text.iter().all(|byte| byte.is_ascii_digit())
}

fn is_dashes(word: &str) -> bool
    ensures { result ≡ of.is_dashes word.now }
{
    word == "-" || word == "--"
}
