//! Files that can't be read, reports that can't be written, and a capture that is too long.
use crate::captures::capture_of;
use crate::cases::{Call, call_of, rows_of};
use crate::command::{
    BESIDE, Ending, HOST, TEN_BYTES, ending_of, ends, ends_into, script_and_capture,
};
use nb_io::MemorySink;
use std::alloc::Global;
use std::test::Fail;

/// Calls over the script `s` and an empty capture `c`, one a line: the status, the number of the call of the inputs that is to fail, or 0,
/// the words, a bar, and what is written to standard error. Opening and reading the script are the first three calls of the inputs.
const FAILING: &str = "\
3 1 --capture c --script s|neigh: cannot read s
3 2 --capture c --script s|neigh: cannot read s
3 4 --capture c --script s|neigh: cannot read c
3 5 --capture c --script s|neigh: cannot read c
3 6 --capture c --script s|neigh: cannot read c
3 0 --capture d --script s|neigh: cannot read d
4 0 --capture s --script s|neigh: capture refused: 2 at 0
";

/// A row's call, and its line of standard error.
fn row_of(row: &'static str) -> Option<(Call, &'static str)> {
    let (call, line) = row.split_once('|')?;
    Some((call_of(call)?, line))
}

fn ends_so(rt: &HostRuntime, alloc: Global, call: &Call, line: &str) -> Result<bool, Fail> {
    let inputs = script_and_capture(alloc, HOST, capture_of(alloc, "")?, &[call.fails])?;
    let written = format!(in alloc; "{line}\n")?;
    let ending = ending_of(call.status, &written);
    Ok(ends(rt, alloc, call.words, inputs, &ending)?)
}

/// The first row whose call ends otherwise, or that is no row.
fn first_other_end(
    rt: &HostRuntime,
    alloc: Global,
    rows: &'static str,
) -> Result<Option<&'static str>, Fail> {
    for row in rows.lines() {
        let Some((call, line)) = row_of(row) else {
            return Ok(Some(row));
        };
        if !ends_so(rt, alloc, &call, line)? {
            return Ok(Some(row));
        }
    }
    Ok(None)
}

#[test]
fn failing_files_and_other_names(rt: HostRuntime) -> Result<(), Fail> {
    assert_eq!(rt; rows_of(FAILING), 7);
    assert_eq!(rt; first_other_end(&rt, rt.alloc(), FAILING)?, None);
    Ok(())
}

/// A sink that takes ten bytes and then fails has the report's first ten.
#[test]
fn failing_sink(rt: HostRuntime) -> Result<(), Fail> {
    let alloc = rt.alloc();
    let inputs = script_and_capture(alloc, HOST, capture_of(alloc, "0 \n")?, &[])?;
    let out = MemorySink::new(alloc, 4_096, 10, &[2])?;
    assert!(rt; ends_into(&rt, alloc, BESIDE, inputs, out, &TEN_BYTES)?);
    Ok(())
}

const TOO_LONG: Ending<'static> = Ending {
    status: 8,
    out: "",
    err: "neigh: too long: c\n",
};

/// A capture of one byte more than 64 MiB.
#[test]
fn too_long_capture(rt: HostRuntime) -> Result<(), Fail> {
    let alloc = rt.alloc();
    let inputs = script_and_capture(alloc, HOST, vec![in alloc; 0; 67_108_865]?, &[])?;
    assert!(rt; ends(&rt, alloc, BESIDE, inputs, &TOO_LONG)?);
    Ok(())
}
