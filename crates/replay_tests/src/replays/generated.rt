//! Words that ask for a generated run beside something else. Whole runs are those of the program `generated_runs`.
use crate::cases::rows_of;
use crate::command::{Ending, HOST, USAGE, ends, joined, script_alone};
use std::alloc::{AllocError, Global};
use std::test::Fail;

/// Words that aren't of the command, those of a call on a line.
const REFUSED_WORDS: &str = "\
--generate 1 --window 5
--generate 18446744073709551616
--generate 1 --script s
--generate 1 --generate 1
";

const REFUSED: Ending<'static> = Ending {
    status: 2,
    out: "",
    err: USAGE,
};

/// Whether the words aren't of the command.
fn are_refused(rt: &HostRuntime, alloc: Global, words: &str) -> Result<bool, AllocError> {
    let inputs = script_alone(alloc, joined(alloc, HOST, "")?, &[])?;
    ends(rt, alloc, words, inputs, &REFUSED)
}

/// The first words that are the command's.
fn first_taken(
    rt: &HostRuntime,
    alloc: Global,
    rows: &'static str,
) -> Result<Option<&'static str>, AllocError> {
    for words in rows.lines() {
        if !are_refused(rt, alloc, words)? {
            return Ok(Some(words));
        }
    }
    Ok(None)
}

#[test]
fn generate_stands_alone(rt: HostRuntime) -> Result<(), Fail> {
    assert_eq!(rt; rows_of(REFUSED_WORDS), 4);
    assert_eq!(rt; first_taken(&rt, rt.alloc(), REFUSED_WORDS)?, None);
    Ok(())
}
