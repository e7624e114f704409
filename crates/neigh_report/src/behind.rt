//! What is left behind the journals: the acts of their lines, and the entries and packets in the end.
ghost use Rattle.std.specs.Prelude.{◌≡◌, ◌<◌, ◌^◌, ◌++◌, ◌∷◌, [], length, string_bytes, IfOk, OnOk};
ghost use Rattle.std.specs.List.{flat_map, AllByRecursion};
ghost use Rattle.text_codes.specs.Lines.{text_of};
ghost use Rattle.nb_base.specs.declared.host.Host.{Host};
ghost use Rattle.nb_base.specs.Params.{InRange};
ghost use Rattle.nb_journal.specs.Lawful.{EachLine};
ghost use Rattle.nb_journal.specs.Steps.{IsShort, IsStep, IsStepped};
ghost use Rattle.neigh_run.specs.Entries.{entries_after};
ghost use Rattle.neigh_run.specs.Report as report_of;
ghost use Rattle.neigh_report.specs.Left as left;

use crate::below::write_and_take;
use crate::journal_lines::write_bucket;
use journal_fold::Fold;
use nb_base::{Journal, Line, Plan};
use nud_machine::{Act, Acts};
use std::alloc::{AllocError, Global};

/// The fold over each journal, and all acts of their lines.
#[derive(Drop)]
pub struct Behind {
    pub folds: Vec<Fold>,
    pub acts: Vec<Act>,
}

/// Writes the lines of a journal, each with its reply and what stands below it. The fold, which took no lines yet, takes them.
fn write_lines(
    alloc: Global,
    report: &mut String,
    plan: &Plan,
    lines: &[Line],
    fold: &mut Fold,
    room: &mut Acts,
    acts: &mut Vec<Act>,
) -> Result<(), AllocError>
    requires none { fold.old.lines ≡ [] }
    requires params { fold.old.params ≡ plan.now.params }
    requires few { length lines.now < 2 ^ 32 }
    requires steps { EachLine (IsStep plan.now.params) lines.now }
    ensures written { OnOk result (string_bytes report.new ≡ string_bytes report.old ++ text_of (report_of.journal_lines plan.now [] lines.now)) }
    ensures lines { OnOk result (fold.new.lines ≡ lines.now) }
    ensures params { OnOk result (fold.new.params ≡ plan.now.params) }
    ensures acts { OnOk result (acts.new.items ≡ acts.old.items ++ report_of.journal_acts plan.now [] lines.now) }
{
    for line in lines {
        write_and_take(alloc, report, plan, fold, line, room, acts)?;
    }
    Ok(())
}

/// Writes the lines of a journal, each with its reply and what stands below it.
pub fn write_journal(
    alloc: Global,
    report: &mut String,
    plan: &Plan,
    lines: &[Line],
    acts: &mut Vec<Act>,
) -> Result<Fold, AllocError>
    requires params { InRange plan.now.params }
    requires few { length lines.now < 2 ^ 32 }
    requires steps { EachLine (IsStep plan.now.params) lines.now }
    ensures written { OnOk result (string_bytes report.new ≡ string_bytes report.old ++ text_of (report_of.journal_lines plan.now [] lines.now)) }
    ensures lines { IfOk result (λ fold. fold.lines ≡ lines.now) }
    ensures params { IfOk result (λ fold. fold.params ≡ plan.now.params) }
    ensures acts { OnOk result (acts.new.items ≡ acts.old.items ++ report_of.journal_acts plan.now [] lines.now) }
{
    let mut fold = Fold::new(alloc, &plan.params)?;
    let mut room = Acts::new(alloc)?;
    write_lines(alloc, report, plan, lines, &mut fold, &mut room, acts)?;
    Ok(fold)
}

/// Puts the fold over a journal behind the others.
pub fn put_fold(folds: &mut Vec<Fold>, fold: Fold) -> Result<(), AllocError>
    ensures entries { (host : Host) → OnOk result (left.entries host folds.new.items ≡ left.entries host folds.old.items ++ entries_after host fold.params fold.lines) }
    ensures waits { OnOk result (left.waits folds.new.items ≡ left.waits folds.old.items ++ left.waits_behind fold) }
    ensures few { AllByRecursion left.IsShortFold folds.old.items → left.IsShortFold fold → OnOk result (AllByRecursion left.IsShortFold folds.new.items) }
{
    folds.push(fold)?;
    Ok(())
}

/// Writes a bucket's journal. Its fold and its acts come behind the others.
fn write_one_bucket(
    alloc: Global,
    report: &mut String,
    plan: &Plan,
    number: usize,
    lines: &[Line],
    behind: &mut Behind,
) -> Result<(), AllocError>
    requires params { InRange plan.now.params }
    requires few { length lines.now < 2 ^ 32 }
    requires steps { EachLine (IsStep plan.now.params) lines.now }
    ensures written { OnOk result (string_bytes report.new ≡ string_bytes report.old ++ text_of (left.bucket_of_journal plan.now number lines.now)) }
    ensures acts { OnOk result (behind.new.acts.items ≡ behind.old.acts.items ++ report_of.journal_acts plan.now [] lines.now) }
    ensures entries { OnOk result (left.entries plan.now.host behind.new.folds.items ≡ left.entries plan.now.host behind.old.folds.items ++ entries_after plan.now.host plan.now.params lines.now) }
    ensures waits { OnOk result (left.waits behind.new.folds.items ≡ left.waits behind.old.folds.items ++ report_of.waiting_after plan.now lines.now) }
    ensures few { AllByRecursion left.IsShortFold behind.old.folds.items → OnOk result (AllByRecursion left.IsShortFold behind.new.folds.items) }
{
    write_bucket(report, number, lines.len())?;
    let fold = write_journal(alloc, report, plan, lines, &mut behind.acts)?;
    put_fold(&mut behind.folds, fold)?;
    Ok(())
}

/// Writes the journals of all buckets.
pub fn write_buckets(
    alloc: Global,
    report: &mut String,
    plan: &Plan,
    journals: &[Journal],
) -> Result<Behind, AllocError>
    requires params { InRange plan.now.params }
    requires few { AllByRecursion IsShort journals.now }
    requires steps { AllByRecursion (IsStepped plan.now.params) journals.now }
    ensures written { OnOk result (string_bytes report.new ≡ string_bytes report.old ++ text_of (report_of.bucket_lines plan.now 0 journals.now)) }
    ensures acts { IfOk result (λ behind. behind.acts.items ≡ flat_map (report_of.journal_acts plan.now []) journals.now) }
    ensures entries { IfOk result (λ behind. left.entries plan.now.host behind.folds.items ≡ flat_map (entries_after plan.now.host plan.now.params) journals.now) }
    ensures waits { IfOk result (λ behind. left.waits behind.folds.items ≡ flat_map (report_of.waiting_after plan.now) journals.now) }
    ensures few { IfOk result (λ behind. AllByRecursion left.IsShortFold behind.folds.items) }
{
    let mut behind = Behind {
        folds: Vec::new(alloc),
        acts: Vec::new(alloc),
    };
    for number in 0..journals.len() {
        write_one_bucket(
            alloc,
            report,
            plan,
            number,
            journals[number].as_slice(),
            &mut behind,
        )?;
    }
    Ok(behind)
}
