//! Plans whose line bound is just below its limit, and just at it.
ghost use Rattle.std.specs.Prelude.{◌≤◌, length, IfOk};
ghost use Rattle.pcap_records.specs.Capture.{AreBounded};
ghost use Rattle.neigh_script.specs.Limits as limits;
ghost use Rattle.neigh_plan.specs.Inline.{IsEnterable};

use crate::captures::{FILE_HEADER, bytes_of, put_record};
use crate::command::{BESIDE, Ending, ends, script_and_capture};
use nb_base::Plan;
use neigh_plan::{line_bound, plan};
use neigh_script::Script;
use pcap_records::Capture;
use std::alloc::Global;
use std::test::Fail;

const REPLY: &str =
    "020000000002001122334455080600010800060400020011223344550a0000070200000000020a000002";

/// A host that asks as often as may be, so each operation counts for thirty lines of the bound.
const PATIENT_HOST: &str =
    "host dev eth0 lladdr 02:00:00:00:00:02 inet 10.0.0.2\nparam mcast_solicit 10\nparam ucast_solicit 10\n";

/// A capture of 139,810 replies, all at the first moment but the last. The records count for thirty lines each. When the last comes before
/// the third sweep, the bound is one less than 2^22, and from then on it is 2^22.
fn replies(alloc: Global, last: u32) -> Result<Vec<u8>, Fail> {
    let frame = bytes_of(alloc, REPLY)?;
    let mut file = FILE_HEADER.to_vec(alloc)?;
    for _ in 0..139_809 {
        put_record(&mut file, 0, &frame)?;
    }
    put_record(&mut file, last, &frame)?;
    Ok(file)
}

fn records_of(alloc: Global, capture: &[u8]) -> Result<Capture, Fail>
    ensures bounded { IfOk result (AreBounded (length capture.now)) }
{
    match pcap_records::read(alloc, capture) {
        Ok(records) => Ok(records),
        Err(_) => Err("a capture".into()),
    }
}

fn script_of(alloc: Global, text: &str) -> Result<Script, Fail>
    ensures within { IfOk result limits.IsWithinLimits }
    ensures few { IfOk result (λ script. length script.items ≤ 131_072) }
{
    match neigh_script::read(alloc, text.as_bytes()) {
        Ok(script) => Ok(script),
        Err(_) => Err("a script".into()),
    }
}

/// The plan of a script and a capture.
fn plan_beside(alloc: Global, text: &str, capture: &[u8]) -> Result<Plan, Fail>
    ensures { IfOk result IsEnterable }
{
    let records = records_of(alloc, capture)?;
    let script = script_of(alloc, text)?;
    let plan = plan(alloc, &records, capture, &script, 50, 1)?;
    Ok(plan)
}

const TOO_LARGE: Ending<'static> = Ending {
    status: 7,
    out: "",
    err: "neigh: too large\n",
};

/// The line bound of the host's plan beside the capture.
fn bound_of(alloc: Global, capture: &[u8]) -> Result<u64, Fail> {
    Ok(line_bound(&plan_beside(alloc, PATIENT_HOST, capture)?))
}

#[test]
fn line_bounds_at_their_limit(rt: HostRuntime) -> Result<(), Fail> {
    let alloc = rt.alloc();
    let capture = replies(alloc, 89_999)?;
    assert_eq!(rt; bound_of(alloc, &capture)?, 4_194_303);
    let capture = replies(alloc, 90_000)?;
    assert_eq!(rt; bound_of(alloc, &capture)?, 4_194_304);
    let inputs = script_and_capture(alloc, PATIENT_HOST, capture, &[])?;
    assert!(rt; ends(&rt, alloc, BESIDE, inputs, &TOO_LARGE)?);
    Ok(())
}
