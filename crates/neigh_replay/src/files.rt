//! From the names of files to the plan of what they hold.
ghost use Rattle.std.specs.Prelude.{◌≡◌, ℕ, ◌≤◌, List, [], unwrap_or, length, IfOk, IsTrue, MatchResult, string_bytes};
ghost use Rattle.std.specs.Option.{option_map};
ghost use Rattle.nb_base.specs.Buckets.{is_bucket_count};
ghost use Rattle.pcap_records.specs.Capture.{AreBounded};
ghost use Rattle.neigh_script.specs.Limits as limits;
ghost use Rattle.neigh_replay.specs.Replay.{files_call};
ghost use Rattle.neigh_replay.specs.Verdict.{HasRecords};
ghost use Rattle.neigh_replay.specs.Failures.{IsReadAs, FailsToRead, IsCaptureRead, FailsToReadCapture, RefusesCapture, IsScriptOf, RefusesScript, IsFilesPlan, Refuses};

use crate::failure::{Failure, File};
use nb_base::{Bytes, Items, Plan};
use nb_io::{Inputs, ReadFail, read_all};
use neigh_plan::plan;
use neigh_script::{Script, ScriptFail};
use pcap_records::{Capture, CaptureFail};
use std::alloc::Global;

/// The most bytes of a script: 8 MiB.
const SCRIPT_LIMIT: usize = 8_388_608;

/// The most bytes of a capture: 64 MiB.
const CAPTURE_LIMIT: usize = 67_108_864;

/// What the file holds, of at most `limit` bytes.
fn read_file<I: Inputs>(
    alloc: Global,
    inputs: &mut I,
    name: &str,
    limit: usize,
    file: File,
) -> Result<Bytes, Failure>
    ensures read { MatchResult result (IsReadAs (I.held inputs.old) name.now limit)
        (FailsToRead (files_call (I.held inputs.old) (I.faults inputs.old) (I.faults inputs.new)) name.now limit file) }
    ensures held { (other : List ℕ) → I.held inputs.new other ≡ I.held inputs.old other }
    ensures later { (other : List ℕ) → I.faults inputs.old other ≤ I.faults inputs.new other }
{
    match read_all(alloc, inputs, name, limit) {
        Ok(bytes) => Ok(bytes),
        Err(ReadFail::ReadFault) => Err(Failure::ReadFault(file)),
        Err(ReadFail::TooLong) => Err(Failure::TooLong(file)),
        Err(ReadFail::Memory) => Err(Failure::Memory),
    }
}

/// What the script holds.
pub(crate) fn read_script<I: Inputs>(
    alloc: Global,
    inputs: &mut I,
    name: &str,
) -> Result<Bytes, Failure>
    ensures read { MatchResult result (IsReadAs (I.held inputs.old) name.now 8_388_608)
        (FailsToRead (files_call (I.held inputs.old) (I.faults inputs.old) (I.faults inputs.new)) name.now 8_388_608 File.Script) }
    ensures held { (other : List ℕ) → I.held inputs.new other ≡ I.held inputs.old other }
    ensures later { (other : List ℕ) → I.faults inputs.old other ≤ I.faults inputs.new other }
{
    read_file(alloc, inputs, name, SCRIPT_LIMIT, File::Script)
}

/// What the capture holds, where one is asked for.
pub(crate) fn read_capture<I: Inputs>(
    alloc: Global,
    inputs: &mut I,
    name: &Option<String>,
) -> Result<Option<Bytes>, Failure>
    ensures { MatchResult result (IsCaptureRead (I.held inputs.old) (option_map string_bytes name.now))
        (FailsToReadCapture (files_call (I.held inputs.old) (I.faults inputs.old) (I.faults inputs.new)) (option_map string_bytes name.now)) }
{
    match name {
        None => Ok(None),
        Some(name) => {
            let bytes = read_file(alloc, inputs, name.as_str(), CAPTURE_LIMIT, File::Capture)?;
            Ok(Some(bytes))
        }
    }
}

/// The records of a capture, or none without one.
fn records_of(alloc: Global, capture: &Option<Bytes>) -> Result<Capture, Failure>
    ensures records { MatchResult result (HasRecords capture.now) (RefusesCapture capture.now) }
    ensures bounded { IfOk result (AreBounded (length (unwrap_or capture.now []))) }
{
    match capture {
        None => Ok(Items::new(alloc)),
        Some(bytes) => match pcap_records::read(alloc, bytes.as_slice()) {
            Ok(records) => Ok(records),
            Err(CaptureFail::Memory) => Err(Failure::Memory),
            Err(fail) => Err(Failure::CaptureRefused(fail)),
        },
    }
}

fn script_of(alloc: Global, text: &Bytes) -> Result<Script, Failure>
    ensures script { MatchResult result (IsScriptOf text.now) (RefusesScript text.now) }
    ensures within { IfOk result limits.IsWithinLimits }
    ensures few { IfOk result (λ script. length script.items ≤ 131_072) }
{
    match neigh_script::read(alloc, text.as_slice()) {
        Ok(script) => Ok(script),
        Err(ScriptFail::Refused { line, why }) => Err(Failure::ScriptRefused { line, why }),
        Err(ScriptFail::Memory) => Err(Failure::Memory),
    }
}

/// The bytes of a capture, or none without one.
fn bytes_of(capture: &Option<Bytes>) -> &[u8]
    ensures { result.now ≡ unwrap_or capture.now [] }
{
    match capture {
        Some(bytes) => bytes.as_slice(),
        None => &[],
    }
}

/// The plan of a script's text, and of a capture where there is one, with a window and a number of buckets. The capture is checked before the script.
pub(crate) fn plan_of(
    alloc: Global,
    window: u32,
    buckets: u32,
    text: &Bytes,
    capture: &Option<Bytes>,
) -> Result<Plan, Failure>
    requires { IsTrue (is_bucket_count buckets) }
    ensures { MatchResult result (IsFilesPlan window buckets text.now capture.now) (Refuses window buckets text.now capture.now) }
{
    let records = records_of(alloc, capture)?;
    let script = script_of(alloc, text)?;
    let plan = plan(alloc, &records, bytes_of(capture), &script, window, buckets)?;
    Ok(plan)
}
