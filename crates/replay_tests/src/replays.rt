//! Replays of captures beside scripts, and of scripts over several buckets: whole reports, the host's line for single frames, files that
//! are refused, and calls that fail.
//!
//! Each table of whole reports is cut as `cases.rt` says, and what stands for the call is its words.
mod bucket_thresholds;
mod buckets;
mod discovery;
mod discovery_frames;
mod failing_files;
mod frames;
mod full_proxy_queue;
mod generated;
mod hosts;
mod keys;
mod line_bounds;
mod morning;
mod proxies;
mod refused_captures;
mod whole_table;

use crate::captures::{capture_of, one_frame};
use crate::cases::{Case, HEAD, case_of, count_of, rows_of};
use crate::command::{BESIDE, replays, report_of, script_and_capture};
use nb_io::MemorySink;
use std::alloc::Global;
use std::test::Fail;

/// Whether the call answers exactly this report.
fn gives_report(rt: &HostRuntime, alloc: Global, case: &Case) -> Result<bool, Fail> {
    let capture = capture_of(alloc, case.records)?;
    let inputs = script_and_capture(alloc, case.script, capture, &[])?;
    Ok(replays(rt, alloc, case.call, inputs, case.report)?)
}

/// The first case that doesn't give its report, or the whole text of one that is no case.
fn first_other_report(
    rt: &HostRuntime,
    alloc: Global,
    table: &'static str,
) -> Result<Option<&'static str>, Fail> {
    for text in table.split(HEAD).skip(1) {
        let Some(case) = case_of(text) else {
            return Ok(Some(text));
        };
        if !gives_report(rt, alloc, &case)? {
            return Ok(Some(case.name));
        }
    }
    Ok(None)
}

/// The first case that is wrong, unless the table has another number of cases.
fn first_wrong(
    rt: &HostRuntime,
    alloc: Global,
    table: &'static str,
    cases: usize,
) -> Result<Option<&'static str>, Fail> {
    if count_of(table) == cases {
        first_other_report(rt, alloc, table)
    } else {
        Ok(Some("the number of cases"))
    }
}

/// Whether one of the report's lines is this.
fn has_line(report: &MemorySink, line: &str) -> bool {
    match str::from_utf8(report.bytes()) {
        Ok(text) => text.lines().any(|it| it == line),
        Err(_) => false,
    }
}

/// Whether the report of the script beside a capture of this one frame has the line.
fn says_of_frame(
    rt: &HostRuntime,
    alloc: Global,
    script: &str,
    digits: &str,
    line: &str,
) -> Result<bool, Fail> {
    let inputs = script_and_capture(alloc, script, one_frame(alloc, digits)?, &[])?;
    let report = report_of(rt, alloc, BESIDE, inputs, 16_384)?;
    Ok(report.is_some_and(|report| has_line(&report, line)))
}

/// The first row of a line of the host's journal, a bar and a frame, whose frame doesn't give that line, or that is no row.
fn first_wrong_frame<'a>(
    rt: &HostRuntime,
    alloc: Global,
    script: &str,
    rows: &'a str,
) -> Result<Option<&'a str>, Fail> {
    for row in rows.lines() {
        let Some((line, digits)) = row.split_once('|') else {
            return Ok(Some(row));
        };
        if !says_of_frame(rt, alloc, script, digits, line)? {
            return Ok(Some(row));
        }
    }
    Ok(None)
}

#[test]
fn hosts_and_their_frames(rt: HostRuntime) -> Result<(), Fail> {
    let alloc = rt.alloc();
    assert_eq!(rt; first_wrong(&rt, alloc, hosts::table(), 9)?, None);
    assert_eq!(rt; rows_of(frames::rows()), 57);
    let wrong = first_wrong_frame(&rt, alloc, frames::script(), frames::rows())?;
    assert_eq!(rt; wrong, None);
    Ok(())
}

#[test]
fn neighbour_discovery_and_its_frames(rt: HostRuntime) -> Result<(), Fail> {
    let alloc = rt.alloc();
    assert_eq!(rt; first_wrong(&rt, alloc, keys::table(), 6)?, None);
    assert_eq!(rt; first_wrong(&rt, alloc, discovery::table(), 12)?, None);
    assert_eq!(rt; first_wrong(&rt, alloc, proxies::table(), 9)?, None);
    assert_eq!(rt; rows_of(discovery_frames::rows()), 69);
    let wrong = first_wrong_frame(
        &rt,
        alloc,
        discovery_frames::script(),
        discovery_frames::rows(),
    )?;
    assert_eq!(rt; wrong, None);
    Ok(())
}

#[test]
fn several_buckets(rt: HostRuntime) -> Result<(), Fail> {
    let alloc = rt.alloc();
    assert_eq!(rt; first_wrong(&rt, alloc, buckets::table(), 6)?, None);
    Ok(())
}

#[test]
fn thresholds_over_several_buckets(rt: HostRuntime) -> Result<(), Fail> {
    let alloc = rt.alloc();
    assert_eq!(rt;
        first_wrong(&rt, alloc, bucket_thresholds::table(), 6)?,
        None
    );
    Ok(())
}

#[test]
fn lines_that_see_the_whole_table(rt: HostRuntime) -> Result<(), Fail> {
    let alloc = rt.alloc();
    assert_eq!(rt; first_wrong(&rt, alloc, whole_table::table(), 8)?, None);
    Ok(())
}
