//! The run of an input that is generated from a number.
ghost use Rattle.std.specs.Prelude.{◌≡◌, List, length, Ok, IfOk};
ghost use Rattle.pcap_records.specs.declared.capture.Frame.{Frame};
ghost use Rattle.pcap_records.specs.Capture.{AreBounded};
ghost use Rattle.pcap_records.specs.Records.{frames_of};
ghost use Rattle.pcap_records.specs.Writing.{IsCaptureOf};
ghost use Rattle.neigh_script.specs.Lines as lines;
ghost use Rattle.neigh_script.specs.declared.script.Script.{Script};
ghost use Rattle.neigh_replay.specs.Replay.{sink_call};
ghost use Rattle.neigh_replay.specs.Generated.{generated_plan, IsSummary, IsGeneratedRun};

use crate::inline::replay_inline;
use crate::status::{say_no_memory, say_write_fault};
use generated_input::generate;
use nb_base::{Bytes, Plan};
use nb_io::{Sink, WriteFault, write_all};
use neigh_plan::plan;
use neigh_report::summary;
use neigh_script::ScriptFail;
use pcap_records::{Capture, CaptureFail};
use std::alloc::{AllocError, Global};

/// The length of its windows, in milliseconds.
const WINDOW: u32 = 50;

/// The records of a capture that holds frames, which is never refused.
fn records_in(alloc: Global, bytes: &[u8]) -> Result<Capture, AllocError>
    requires { (frames : List Frame) × IsCaptureOf bytes.now frames }
    ensures held { IfOk result (λ records. (frames : List Frame) → IsCaptureOf bytes.now frames → frames_of bytes.now records ≡ frames) }
    ensures bounded { IfOk result (AreBounded (length bytes.now)) }
{
    match pcap_records::read(alloc, bytes) {
        Ok(records) => Ok(records),
        Err(CaptureFail::Memory) => Err(AllocError),
        Err(_) => unreachable!(),
    }
}

/// The script that a text says, which is never refused.
fn script_in(alloc: Global, text: &[u8]) -> Result<neigh_script::Script, AllocError>
    requires { (script : Script) × (lines.script_of text.now ≡ Ok script) }
    ensures { IfOk result (λ script. lines.script_of text.now ≡ Ok script) }
{
    match neigh_script::read(alloc, text) {
        Ok(script) => Ok(script),
        Err(ScriptFail::Memory) => Err(AllocError),
        Err(ScriptFail::Refused { .. }) => unreachable!(),
    }
}

/// The plan of the files that are generated from a number, as they are read.
fn plan_from(alloc: Global, number: u64) -> Result<Plan, AllocError>
    ensures { IfOk result (λ plan. plan ≡ generated_plan number) }
{
    let (capture, text) = generate(alloc, number)?;
    let records = records_in(alloc, capture.as_slice())?;
    let script = script_in(alloc, text.as_slice())?;
    plan(alloc, &records, capture.as_slice(), &script, WINDOW, 1)
}

/// The summary of a number.
fn summary_from(alloc: Global, number: u64) -> Result<Bytes, AllocError>
    ensures { IfOk result (IsSummary number) }
{
    let plan = plan_from(alloc, number)?;
    let run = replay_inline(alloc, plan)?;
    summary(alloc, number, &run)
}

/// Generates the input of a number, replays it by one thread over one bucket, with windows of 50 ms, writes its summary, and answers the
/// status: 0, or 1 for want of memory, or 6 where the output can't be written.
pub fn run_generated<K: Sink, E: Sink>(alloc: Global, number: u64, out: &mut K, err: &mut E) -> u8
    ensures { IsGeneratedRun number
        (sink_call (K.taken out.old) (K.taken out.new) (K.faults out.old) (K.faults out.new))
        (sink_call (E.taken err.old) (E.taken err.new) (E.faults err.old) (E.faults err.new)) result }
{
    let Ok(text) = summary_from(alloc, number) else {
        say_no_memory(err);
        return 1;
    };
    match write_all(out, text.as_slice()) {
        Ok(()) => 0,
        Err(WriteFault) => {
            say_write_fault(err);
            6
        }
    }
}
