//! Scripts with their whole reports, worked out by hand from the rules of the entry machine, the bucket and the report.
//!
//! Each table is cut as `cases.rt` says. A case has its script without the host line, and its report without the first two lines. What
//! stands for the call is the number of senders, as `senders 2`, or the sizes of packets of zeros to one address at moment 0, as
//! `sizes 500 1`, which come behind the script's lines.
mod adding;
mod changing;
mod confirming;
mod forced_passes;
mod ordering;
mod removing;
mod retiming;
mod sizes;
mod sweeps;
mod thresholds;
mod timers;
mod waiting;

use crate::cases::{Case, HEAD, case_of, count_of};
use crate::command::{HOST, NAMED, joined, replays, script_alone};
use std::alloc::{AllocError, Global};
use std::fmt::Write;
use std::test::Fail;

/// The report's first line, with its senders, the host's, and the rest.
fn whole_report(alloc: Global, senders: &str, rest: &str) -> Result<String, AllocError> {
    let mut text = String::new(alloc);
    writeln!(text, "neigh 1 mode inline buckets 1 {senders} window 50")?;
    text.push_str(HOST)?;
    text.push_str(rest)?;
    Ok(text)
}

/// Whether the call replays the script, whose host line is left out, to the report, whose first two lines are.
fn replays_script(
    rt: &HostRuntime,
    alloc: Global,
    script: &str,
    senders: &str,
    report: &str,
) -> Result<bool, AllocError> {
    let inputs = script_alone(alloc, joined(alloc, HOST, script)?, &[])?;
    let report = whole_report(alloc, senders, report)?;
    replays(rt, alloc, NAMED, inputs, &report)
}

/// A line that sends so many zeros to one address.
fn push_packet(text: &mut String, len: u32) -> Result<(), AllocError> {
    text.push_str("@0 send 1 10.0.0.1 ")?;
    for _ in 0..len {
        text.push_str("00")?;
    }
    text.push_str("\n")
}

/// The script's lines, and then packets of these sizes, if these are numbers.
fn script_of(alloc: Global, parameters: &str, sizes: &str) -> Result<Option<String>, AllocError> {
    let mut text = String::from_str(alloc, parameters)?;
    for size in sizes.split_ascii_whitespace() {
        let Ok(len) = size.parse() else {
            return Ok(None);
        };
        push_packet(&mut text, len)?;
    }
    Ok(Some(text))
}

/// Whether the packets of these sizes, behind the script's lines, are replayed to the report.
fn replays_packets(
    rt: &HostRuntime,
    alloc: Global,
    parameters: &str,
    sizes: &str,
    report: &str,
) -> Result<bool, AllocError> {
    match script_of(alloc, parameters, sizes)? {
        Some(script) => replays_script(rt, alloc, &script, "senders 1", report),
        None => Ok(false),
    }
}

/// Whether the case is replayed to its report.
fn gives_report(rt: &HostRuntime, alloc: Global, case: &Case) -> Result<bool, AllocError> {
    match case.call.strip_prefix("sizes ") {
        Some(sizes) => replays_packets(rt, alloc, case.script, sizes, case.report),
        None => replays_script(rt, alloc, case.script, case.call, case.report),
    }
}

/// The first case that isn't replayed to its report, or the whole text of one that is no case.
fn first_other_report(
    rt: &HostRuntime,
    alloc: Global,
    table: &'static str,
) -> Result<Option<&'static str>, AllocError> {
    for text in table.split(HEAD).skip(1) {
        let Some(case) = case_of(text) else {
            return Ok(Some(text));
        };
        if !gives_report(rt, alloc, &case)? {
            return Ok(Some(case.name));
        }
    }
    Ok(None)
}

/// The first case that is wrong, unless the table has another number of cases.
fn first_wrong(
    rt: &HostRuntime,
    alloc: Global,
    table: &'static str,
    cases: usize,
) -> Result<Option<&'static str>, AllocError> {
    if count_of(table) == cases {
        first_other_report(rt, alloc, table)
    } else {
        Ok(Some("the number of cases"))
    }
}

#[test]
fn packets_and_timers(rt: HostRuntime) -> Result<(), Fail> {
    let alloc = rt.alloc();
    assert_eq!(rt; first_wrong(&rt, alloc, waiting::table(), 10)?, None);
    assert_eq!(rt; first_wrong(&rt, alloc, sizes::table(), 3)?, None);
    assert_eq!(rt; first_wrong(&rt, alloc, timers::table(), 10)?, None);
    assert_eq!(rt; first_wrong(&rt, alloc, confirming::table(), 9)?, None);
    assert_eq!(rt; first_wrong(&rt, alloc, retiming::table(), 6)?, None);
    Ok(())
}

#[test]
fn operations_by_hand_and_several_senders(rt: HostRuntime) -> Result<(), Fail> {
    let alloc = rt.alloc();
    assert_eq!(rt; first_wrong(&rt, alloc, adding::table(), 8)?, None);
    assert_eq!(rt; first_wrong(&rt, alloc, changing::table(), 8)?, None);
    assert_eq!(rt; first_wrong(&rt, alloc, removing::table(), 8)?, None);
    assert_eq!(rt; first_wrong(&rt, alloc, ordering::table(), 9)?, None);
    Ok(())
}

#[test]
fn thresholds_forced_passes_and_sweeps(rt: HostRuntime) -> Result<(), Fail> {
    let alloc = rt.alloc();
    assert_eq!(rt; first_wrong(&rt, alloc, thresholds::table(), 8)?, None);
    assert_eq!(rt; first_wrong(&rt, alloc, forced_passes::table(), 9)?, None);
    assert_eq!(rt; first_wrong(&rt, alloc, sweeps::table(), 7)?, None);
    Ok(())
}
