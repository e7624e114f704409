//! From what is asked for to the report.
ghost use Rattle.std.specs.Prelude.{IsTrue, MatchResult};
ghost use Rattle.nb_base.specs.Buckets.{is_bucket_count};
ghost use Rattle.neigh_plan.specs.Inline.{IsEnterable};
ghost use Rattle.neigh_replay.specs.Verdict.{Report};
ghost use Rattle.neigh_replay.specs.Replay.{GivesTold, files_call, sink_call, inline_by};
ghost use Rattle.neigh_replay.specs.Failures.{IsPlansReport, RefusesPlan, IsReportOf, Refuses, Explains, WritesReport, Fails};

use crate::failure::Failure;
use crate::files::{plan_of, read_capture, read_script};
use crate::inline::replay_inline;
use nb_base::{Bytes, Plan};
use nb_io::{Inputs, Sink, write_all};
use neigh_plan::line_bound;
use neigh_report::text;
use neigh_words::Settings;
use std::alloc::Global;

/// The line bound of a plan that is too large: 2^22.
const LINE_LIMIT: u64 = 4_194_304;

/// Replays in the mode `inline` what the settings ask for, and writes the report.
pub(crate) fn replay<I: Inputs, K: Sink>(
    alloc: Global,
    settings: &Settings,
    inputs: &mut I,
    out: &mut K,
) -> Result<(), Failure>
    ensures { MatchResult result
        (λ _. WritesReport (inline_by settings.now) (files_call (I.held inputs.old) (I.faults inputs.old) (I.faults inputs.new)) (sink_call (K.taken out.old) (K.taken out.new) (K.faults out.old) (K.faults out.new)))
        (Fails (inline_by settings.now) (files_call (I.held inputs.old) (I.faults inputs.old) (I.faults inputs.new)) (sink_call (K.taken out.old) (K.taken out.new) (K.faults out.old) (K.faults out.new))) }
{
    let report = report_of(alloc, settings, inputs)?;
    match write_all(out, report.as_slice()) {
        Ok(()) => Ok(()),
        Err(_) => Err(Failure::WriteFault),
    }
}

/// The report of what the settings ask for in the mode `inline`. The script is read before the capture.
fn report_of<I: Inputs>(
    alloc: Global,
    settings: &Settings,
    inputs: &mut I,
) -> Result<Bytes, Failure>
    ensures { MatchResult result
        (λ report. GivesTold (inline_by settings.now) (files_call (I.held inputs.old) (I.faults inputs.old) (I.faults inputs.new)) (Report report))
        (Explains (inline_by settings.now) (files_call (I.held inputs.old) (I.faults inputs.old) (I.faults inputs.new))) }
{
    let text = read_script(alloc, inputs, settings.script.as_str())?;
    let capture = read_capture(alloc, inputs, &settings.capture)?;
    report_of_files(alloc, settings.window, settings.buckets, &text, &capture)
}

/// The report of a script's text, and of a capture where there is one, with a window and a number of buckets.
fn report_of_files(
    alloc: Global,
    window: u32,
    buckets: u32,
    text: &Bytes,
    capture: &Option<Bytes>,
) -> Result<Bytes, Failure>
    requires { IsTrue (is_bucket_count buckets) }
    ensures { MatchResult result (IsReportOf window buckets text.now capture.now) (Refuses window buckets text.now capture.now) }
{
    let plan = plan_of(alloc, window, buckets, text, capture)?;
    report_of_plan(alloc, plan)
}

/// The report of a plan whose line bound is below 2^22.
fn report_of_plan(alloc: Global, plan: Plan) -> Result<Bytes, Failure>
    requires { IsEnterable plan }
    ensures { MatchResult result (IsPlansReport plan) (RefusesPlan plan) }
{
    if line_bound(&plan) >= LINE_LIMIT {
        return Err(Failure::TooLarge);
    }
    let run = replay_inline(alloc, plan)?;
    let report = text(alloc, &run)?;
    Ok(report)
}
