//! The ten parts of a report, one behind the other.
ghost use Rattle.std.specs.Prelude.{◌≡◌, ◌++◌, ◌∷◌, [], codes, length, string_bytes, IfOk, OnOk};
ghost use Rattle.std.specs.List.{AllByRecursion, flat_map};
ghost use Rattle.text_codes.specs.Lines.{text_of, line_text};
ghost use Rattle.nb_base.specs.Params.{InRange};
ghost use Rattle.nb_journal.specs.Steps.{IsShort, IsStepped};
ghost use Rattle.neigh_run.specs.Report as report_of;
ghost use Rattle.neigh_report.specs.Left as left;

use crate::behind::{Behind, write_buckets};
use crate::below::write_entries;
use crate::counts::count_present;
use crate::head::{write_count, write_end, write_head, write_host, write_marks};
use crate::host_journal::write_host_journal;
use crate::logs::write_logs;
use crate::proxies::write_proxies;
use crate::tally::write_run_fates;
use journal_fold::Fold;
use nb_base::{Bytes, Host, Items};
use neigh_run::Run;
use std::alloc::{AllocError, Global};

/// The present entries of all buckets.
fn write_all_entries(report: &mut String, host: &Host, folds: &[Fold]) -> Result<(), AllocError>
    ensures { OnOk result (string_bytes report.new ≡ string_bytes report.old ++ text_of (left.entries host.now folds.now)) }
{
    for number in 0..folds.len() {
        write_entries(report, host, &folds[number])?;
    }
    Ok(())
}

fn write_table(report: &mut String, host: &Host, folds: &[Fold]) -> Result<(), AllocError>
    ensures { OnOk result (string_bytes report.new ≡ string_bytes report.old ++ text_of (report_of.counted (codes "table" ∷ []) (left.entries host.now folds.now))) }
{
    write_count(report, "table", count_present(folds))?;
    write_all_entries(report, host, folds)
}

/// What stands before the counts: the head, the host, and what was done.
fn write_top(alloc: Global, report: &mut String, run: &Run) -> Result<Behind, AllocError>
    requires params { InRange run.now.plan.params }
    requires few { AllByRecursion IsShort run.now.journals }
    requires steps { AllByRecursion (IsStepped run.now.plan.params) run.now.journals }
    ensures written { OnOk result (string_bytes report.new ≡ string_bytes report.old ++ text_of (left.top run.now)) }
    ensures acts { IfOk result (λ behind. behind.acts.items ≡ report_of.all_acts run.now) }
    ensures entries { IfOk result (λ behind. left.entries run.now.plan.host behind.folds.items ≡ report_of.table run.now) }
    ensures waits { IfOk result (λ behind. left.waits behind.folds.items ≡ flat_map (report_of.waiting_after run.now.plan) run.now.journals) }
    ensures short { IfOk result (λ behind. AllByRecursion left.IsShortFold behind.folds.items) }
{
    write_head(report, run)?;
    write_host(report, &run.plan.host)?;
    let behind = write_buckets(alloc, report, &run.plan, run.journals.as_slice())?;
    write_host_journal(report, run.host_lines.as_slice())?;
    write_logs(report, run.plan.senders.as_slice(), run.logs.as_slice())?;
    write_marks(report, run.marks.as_slice())?;
    Ok(behind)
}

/// The counts, the table, the proxies and the last line.
fn write_bottom(
    alloc: Global,
    report: &mut String,
    run: &Run,
    behind: &Behind,
) -> Result<(), AllocError>
    requires acts { behind.now.acts.items ≡ report_of.all_acts run.now }
    requires entries { left.entries run.now.plan.host behind.now.folds.items ≡ report_of.table run.now }
    requires waits { left.waits behind.now.folds.items ≡ flat_map (report_of.waiting_after run.now.plan) run.now.journals }
    requires short { AllByRecursion left.IsShortFold behind.now.folds.items }
    ensures { OnOk result (string_bytes report.new ≡ string_bytes report.old ++ text_of (left.bottom run.now)) }
{
    write_run_fates(report, run, behind)?;
    write_table(report, &run.plan.host, &behind.folds)?;
    write_proxies(alloc, report, &run.plan)?;
    write_end(report)
}

/// The report of a run, whose lines all end with LF. The plan's parameters are in their ranges, each journal has fewer than 2^32 lines, and the machine can step over each of them.
///
/// # Errors
/// Want of memory.
pub fn text(alloc: Global, run: &Run) -> Result<Bytes, AllocError>
    requires params { InRange run.now.plan.params }
    requires few { AllByRecursion IsShort run.now.journals }
    requires steps { AllByRecursion (IsStepped run.now.plan.params) run.now.journals }
    ensures { IfOk result (λ text. text ≡ report_of.report_text run.now) }
{
    let mut report = String::new(alloc);
    let behind = write_top(alloc, &mut report, run)?;
    write_bottom(alloc, &mut report, run, &behind)?;
    Ok(Items::from_vec(report.into_bytes()))
}
