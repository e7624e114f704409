//! What became of a run's packets.
ghost use Rattle.std.specs.Prelude.{◌≡◌, ◌<◌, ◌≤◌, ◌+◌, ◌^◌, ◌++◌, [], false, length, string_bytes, IfOk, OnOk};
ghost use Rattle.std.specs.List.{flat_map, list_any, AllByRecursion};
ghost use Rattle.text_codes.specs.Lines.{line_text};
ghost use Rattle.nb_base.specs.Params.{InRange};
ghost use Rattle.nb_journal.specs.Steps.{IsShort, IsStepped};
ghost use Rattle.neigh_run.specs.Inline.{IsInlineRun};
ghost use Rattle.neigh_run.specs.Fates.{HasOneFateEach, CountFates};
ghost use Rattle.neigh_run.specs.Merged.{packet_count, is_sending};
ghost use Rattle.neigh_run.specs.Entries.{entries_after};
ghost use Rattle.neigh_run.specs.Report as report_of;
ghost use Rattle.neigh_report.specs.Left as left;

use crate::behind::{Behind, put_fold};
use crate::counts::{Fates, count_all_fast, count_dropped, count_sent, count_waiting};
use crate::head::write_fates;
use journal_fold::Fold;
use nb_base::{Journal, Line, Plan};
use neigh_run::Run;
use nud_machine::{Act, Acts};
use std::alloc::{AllocError, Global};

/// The fold, which took no lines yet, takes a journal's lines. Their acts come behind the others.
fn take_lines(
    alloc: Global,
    plan: &Plan,
    lines: &[Line],
    fold: &mut Fold,
    room: &mut Acts,
    acts: &mut Vec<Act>,
) -> Result<(), AllocError>
    requires none { fold.old.lines ≡ [] }
    requires params { fold.old.params ≡ plan.now.params }
    requires few { IsShort lines.now }
    requires steps { IsStepped plan.now.params lines.now }
    ensures lines { OnOk result (fold.new.lines ≡ lines.now) }
    ensures params { OnOk result (fold.new.params ≡ plan.now.params) }
    ensures acts { OnOk result (acts.new.items ≡ acts.old.items ++ report_of.journal_acts plan.now [] lines.now) }
{
    for line in lines {
        fold.append_with_acts(alloc, line, room, acts)?;
    }
    Ok(())
}

/// Takes a journal's lines. Their acts come behind the others.
fn take_journal(
    alloc: Global,
    plan: &Plan,
    lines: &[Line],
    acts: &mut Vec<Act>,
) -> Result<Fold, AllocError>
    requires params { InRange plan.now.params }
    requires few { IsShort lines.now }
    requires steps { IsStepped plan.now.params lines.now }
    ensures lines { IfOk result (λ fold. fold.lines ≡ lines.now) }
    ensures params { IfOk result (λ fold. fold.params ≡ plan.now.params) }
    ensures acts { OnOk result (acts.new.items ≡ acts.old.items ++ report_of.journal_acts plan.now [] lines.now) }
{
    let mut fold = Fold::new(alloc, &plan.params)?;
    let mut room = Acts::new(alloc)?;
    take_lines(alloc, plan, lines, &mut fold, &mut room, acts)?;
    Ok(fold)
}

/// Takes a bucket's journal. Its fold and its acts come behind the others.
fn take_one_bucket(
    alloc: Global,
    plan: &Plan,
    lines: &[Line],
    behind: &mut Behind,
) -> Result<(), AllocError>
    requires params { InRange plan.now.params }
    requires few { IsShort lines.now }
    requires steps { IsStepped plan.now.params lines.now }
    ensures acts { OnOk result (behind.new.acts.items ≡ behind.old.acts.items ++ report_of.journal_acts plan.now [] lines.now) }
    ensures entries { OnOk result (left.entries plan.now.host behind.new.folds.items ≡ left.entries plan.now.host behind.old.folds.items ++ entries_after plan.now.host plan.now.params lines.now) }
    ensures waits { OnOk result (left.waits behind.new.folds.items ≡ left.waits behind.old.folds.items ++ report_of.waiting_after plan.now lines.now) }
    ensures few { AllByRecursion left.IsShortFold behind.old.folds.items → OnOk result (AllByRecursion left.IsShortFold behind.new.folds.items) }
{
    let fold = take_journal(alloc, plan, lines, &mut behind.acts)?;
    put_fold(&mut behind.folds, fold)?;
    Ok(())
}

/// Takes the journals of all buckets.
pub fn take_buckets(alloc: Global, plan: &Plan, journals: &[Journal]) -> Result<Behind, AllocError>
    requires params { InRange plan.now.params }
    requires few { AllByRecursion IsShort journals.now }
    requires steps { AllByRecursion (IsStepped plan.now.params) journals.now }
    ensures acts { IfOk result (λ behind. behind.acts.items ≡ flat_map (report_of.journal_acts plan.now []) journals.now) }
    ensures entries { IfOk result (λ behind. left.entries plan.now.host behind.folds.items ≡ flat_map (entries_after plan.now.host plan.now.params) journals.now) }
    ensures waits { IfOk result (λ behind. left.waits behind.folds.items ≡ flat_map (report_of.waiting_after plan.now) journals.now) }
    ensures few { IfOk result (λ behind. AllByRecursion left.IsShortFold behind.folds.items) }
{
    let mut behind = Behind {
        folds: Vec::new(alloc),
        acts: Vec::new(alloc),
    };
    for number in 0..journals.len() {
        take_one_bucket(alloc, plan, journals[number].as_slice(), &mut behind)?;
    }
    Ok(behind)
}

/// Writes how many of the run's packets went out, went out fast, were dropped, and wait.
pub fn write_run_fates(report: &mut String, run: &Run, behind: &Behind) -> Result<(), AllocError>
    requires acts { behind.now.acts.items ≡ report_of.all_acts run.now }
    requires waits { left.waits behind.now.folds.items ≡ flat_map (report_of.waiting_after run.now.plan) run.now.journals }
    requires short { AllByRecursion left.IsShortFold behind.now.folds.items }
    ensures { OnOk result (string_bytes report.new ≡ string_bytes report.old ++ line_text (report_of.fates_words run.now)) }
{
    let sent = count_sent(&behind.acts) as u128;
    let fast = count_all_fast(run.logs.as_slice());
    let dropped = count_dropped(&behind.acts) as u128;
    let waiting = count_waiting(&behind.folds);
    write_fates(report, sent, fast, dropped, waiting)
}

/// What became of the packets of a run, which are fewer than 2^32. Each packet of an inline run has exactly one fate: it went out at one line, or was dropped
/// at one line by a cause, or waits at the end. Where participant 0 sends none, the numbers count these fates, and are together the packets of the plan.
/// As for the text, the plan's parameters are in their ranges, each journal has fewer than 2^32 lines, and the machine can step over each of them.
///
/// # Errors
/// Want of memory.
pub fn fates(alloc: Global, run: &Run) -> Result<Fates, AllocError>
    requires params { InRange run.now.plan.params }
    requires few { AllByRecursion IsShort run.now.journals }
    requires steps { AllByRecursion (IsStepped run.now.plan.params) run.now.journals }
    requires packets { report_of.sent_count run.now + report_of.fast_count run.now + report_of.dropped_count run.now + report_of.waiting_count run.now < 2 ^ 32 }
    ensures sent { IfOk result (λ fates. fates.sent ≡ report_of.sent_count run.now) }
    ensures fast { IfOk result (λ fates. fates.fast ≡ report_of.fast_count run.now) }
    ensures dropped { IfOk result (λ fates. fates.dropped ≡ report_of.dropped_count run.now) }
    ensures waiting { IfOk result (λ fates. fates.waiting ≡ report_of.waiting_count run.now) }
    ensures all { 0 < run.now.plan.buckets → list_any is_sending run.now.plan.control ≡ false → IsInlineRun run.now.plan run.now
        → IfOk result (λ fates. fates.sent + fates.fast + fates.dropped + fates.waiting ≡ packet_count run.now.plan) }
    // Each packet of an inline run has exactly one fate, and the four numbers count these.
    ensures one { 0 < run.now.plan.buckets → length run.now.plan.senders ≤ 16 → IsInlineRun run.now.plan run.now → IfOk result (λ _. HasOneFateEach run.now) }
    ensures counted { 0 < run.now.plan.buckets → length run.now.plan.senders ≤ 16 → list_any is_sending run.now.plan.control ≡ false → IsInlineRun run.now.plan run.now
        → IfOk result (λ fates. CountFates run.now fates.sent fates.fast fates.dropped fates.waiting) }
{
    let behind = take_buckets(alloc, &run.plan, run.journals.as_slice())?;
    let sent = count_sent(&behind.acts);
    let fast = count_all_fast(run.logs.as_slice());
    let dropped = count_dropped(&behind.acts);
    let waiting = count_waiting(&behind.folds);
    Ok(Fates {
        sent: sent as u32,
        fast: fast as u32,
        dropped: dropped as u32,
        waiting: waiting as u32,
    })
}
