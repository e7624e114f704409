//! One line of a journal, with its reply and what stands below it.
ghost use Rattle.std.specs.Prelude.{◌≡◌, ◌<◌, ◌^◌, ◌++◌, ◌∷◌, [], map, length, string_bytes, unwrap_or, IfOk, OnOk};
ghost use Rattle.text_codes.specs.Lines.{text_of};
ghost use Rattle.nb_journal.specs.Accounts.{acts_at};
ghost use Rattle.nb_journal.specs.Steps.{IsStep, state_in};
ghost use Rattle.nb_journal.specs.Keys as keys_of;
ghost use Rattle.neigh_run.specs.Entries.{entry_if_present, entries_after};
ghost use Rattle.neigh_run.specs.Report as report_of;
ghost use Rattle.neigh_report.specs.Left as left;

use crate::entries::{write_entry, write_listed};
use crate::journal_lines::{write_acts, write_line};
use journal_fold::Fold;
use nb_base::{Host, Key, Line, Op, Plan};
use nb_journal::{Kept, key_of};
use nud_machine::{Act, Acts, Entry};
use std::alloc::{AllocError, Global};

fn write_listed_key(
    report: &mut String,
    host: &Host,
    key: &Key,
    entry: &Entry,
) -> Result<(), AllocError>
    ensures { OnOk result (string_bytes report.new ≡ string_bytes report.old ++ text_of (map left.listed (entry_if_present host.now key.now entry.now))) }
{
    if entry.present {
        write_listed(report, host, key, entry)?;
    }
    Ok(())
}

fn write_listed_keys(
    report: &mut String,
    host: &Host,
    known: &[Key],
    kept: &[Kept],
) -> Result<(), AllocError>
    requires { length kept.now ≡ length known.now }
    ensures { OnOk result (string_bytes report.new ≡ string_bytes report.old ++ text_of (map left.listed (left.rows host.now known.now (map state_in kept.now)))) }
{
    for rank in 0..known.len() {
        write_listed_key(report, host, &known[rank], &kept[rank].entry)?;
    }
    Ok(())
}

/// The present entries, below the line that lists them.
fn write_listing(report: &mut String, host: &Host, fold: &Fold) -> Result<(), AllocError>
    ensures { OnOk result (string_bytes report.new ≡ string_bytes report.old ++ text_of (map left.listed (entries_after host.now fold.now.params fold.now.lines))) }
{
    write_listed_keys(report, host, fold.keys(), fold.kept())
}

fn write_key(report: &mut String, host: &Host, key: &Key, entry: &Entry) -> Result<(), AllocError>
    ensures { OnOk result (string_bytes report.new ≡ string_bytes report.old ++ text_of (entry_if_present host.now key.now entry.now)) }
{
    if entry.present {
        write_entry(report, host, key, entry)?;
    }
    Ok(())
}

fn write_keys(
    report: &mut String,
    host: &Host,
    known: &[Key],
    kept: &[Kept],
) -> Result<(), AllocError>
    requires { length kept.now ≡ length known.now }
    ensures { OnOk result (string_bytes report.new ≡ string_bytes report.old ++ text_of (left.rows host.now known.now (map state_in kept.now))) }
{
    for rank in 0..known.len() {
        write_key(report, host, &known[rank], &kept[rank].entry)?;
    }
    Ok(())
}

/// The present entries.
pub fn write_entries(report: &mut String, host: &Host, fold: &Fold) -> Result<(), AllocError>
    ensures { OnOk result (string_bytes report.new ≡ string_bytes report.old ++ text_of (entries_after host.now fold.now.params fold.now.lines)) }
{
    write_keys(report, host, fold.keys(), fold.kept())
}

/// What a look lists.
fn look_of(alloc: Global, host: &Host, fold: &Fold, op: &Op) -> Result<String, AllocError>
    ensures { IfOk result (λ look. string_bytes look ≡ text_of (left.look host.now fold.now.params fold.now.lines op.now)) }
{
    let mut look = String::new(alloc);
    if let Op::Show = op {
        write_listing(&mut look, host, fold)?;
    }
    Ok(look)
}

/// The key that a line names. The acts of a line that names none are drops, which tell no key.
fn named(op: &Op) -> Key
    ensures { result ≡ left.named op.now }
{
    key_of(op).unwrap_or(Key::V4(0))
}

/// The acts of every other line.
fn write_acts_below(
    below: &mut String,
    plan: &Plan,
    op: &Op,
    acts: &[Act],
) -> Result<(), AllocError>
    ensures { OnOk result (string_bytes below.new ≡ string_bytes below.old ++ text_of (left.acts_below plan.now op.now acts.now)) }
{
    match op {
        Op::Show => Ok(()),
        _ => write_acts(below, plan, &named(op), acts),
    }
}

/// A line behind those that were taken, with its reply and what stands below it. The fold takes it, and its acts come behind the others.
pub fn write_and_take(
    alloc: Global,
    report: &mut String,
    plan: &Plan,
    fold: &mut Fold,
    line: &Line,
    room: &mut Acts,
    acts: &mut Vec<Act>,
) -> Result<(), AllocError>
    requires params { fold.old.params ≡ plan.now.params }
    requires few { length fold.old.lines < 2 ^ 32 }
    requires step { IsStep plan.now.params fold.old.lines line.now }
    ensures written { OnOk result (string_bytes report.new ≡ string_bytes report.old ++ text_of (report_of.line_words plan.now fold.old.lines line.now ∷ report_of.all_below plan.now fold.old.lines line.now)) }
    ensures lines { OnOk result (fold.new.lines ≡ fold.old.lines ++ line.now ∷ []) }
    ensures params { fold.new.params ≡ plan.now.params }
    ensures acts { OnOk result (acts.new.items ≡ acts.old.items ++ acts_at plan.now.params fold.old.lines line.now) }
{
    let place = fold.lines().len();
    let mut below = look_of(alloc, &plan.host, fold, &line.op)?;
    let mut own = Vec::new(alloc);
    let reply = fold.append_with_acts(alloc, line, room, &mut own)?;
    write_acts_below(&mut below, plan, &line.op, &own)?;
    write_line(report, plan.buckets, place, line, reply)?;
    report.push_str(&below)?;
    acts.extend_from_slice(&own)
}
