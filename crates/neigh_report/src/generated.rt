//! What the run of a generated input comes to, in four lines.
ghost use Rattle.std.specs.Prelude.{◌≡◌, ◌++◌, length, string_bytes, IfOk, OnOk};
ghost use Rattle.std.specs.List.{AllByRecursion};
ghost use Rattle.text_codes.specs.Lines.{line_text};
ghost use Rattle.nb_base.specs.Params.{InRange};
ghost use Rattle.nb_journal.specs.Steps.{IsShort, IsStepped};
ghost use Rattle.neigh_run.specs.Inline.{journal_at};
ghost use Rattle.neigh_report.specs.Summary.{generated_words, summary_text};

use crate::counts::count_present;
use crate::head::{write_count, write_end};
use crate::tally::{take_buckets, write_run_fates};
use nb_base::{Bytes, Items, Journal};
use neigh_run::Run;
use std::alloc::{AllocError, Global};
use std::fmt::Write;

/// How many lines the first bucket has.
fn first_length(journals: &[Journal]) -> usize
    ensures { result ≡ length (journal_at journals.now 0) }
{
    match journals.first() {
        Some(journal) => journal.len(),
        None => 0,
    }
}

#[tactic(auto, unfolding(text_codes::specs::Lines::line_text))]
fn write_generated(report: &mut String, number: u64, lines: usize) -> Result<(), AllocError>
    ensures { OnOk result (string_bytes report.new ≡ string_bytes report.old ++ line_text (generated_words number lines)) }
{
    writeln!(
        report,
        "generated {number} records 10000 sends 20000 lines {lines}"
    )?;
    Ok(())
}

/// The summary of the run of the input that was generated from a number, four lines that end with LF: how much there was of it and how many lines
/// its one bucket has, what became of the packets, how many entries are present in the end, and `end`. The run is such a one as `text` takes.
///
/// # Errors
/// Want of memory.
pub fn summary(alloc: Global, number: u64, run: &Run) -> Result<Bytes, AllocError>
    requires params { InRange run.now.plan.params }
    requires few { AllByRecursion IsShort run.now.journals }
    requires steps { AllByRecursion (IsStepped run.now.plan.params) run.now.journals }
    ensures { IfOk result (λ text. text ≡ summary_text number run.now) }
{
    let behind = take_buckets(alloc, &run.plan, run.journals.as_slice())?;
    let mut text = String::new(alloc);
    write_generated(&mut text, number, first_length(run.journals.as_slice()))?;
    write_run_fates(&mut text, run, &behind)?;
    write_count(&mut text, "table", count_present(&behind.folds))?;
    write_end(&mut text)?;
    Ok(Items::from_vec(text.into_bytes()))
}
