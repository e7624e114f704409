//! The lines of a journal and their acts.
ghost use Rattle.std.specs.Prelude.{◌≡◌, ◌++◌, ◌∷◌, [], map, take, string_bytes, codes, decimal, OnOk};
ghost use Rattle.text_codes.specs.Lines.{line_text, text_of};
ghost use Rattle.neigh_run.specs.Spelling as spelling;
ghost use Rattle.neigh_run.specs.Spelling.{id_word, op_words, reply_part};
ghost use Rattle.text_codes.specs.HexText.{hex_text};
ghost use Rattle.neigh_run.specs.Frames as frames;
ghost use Rattle.neigh_run.specs.Report as report_of;

use crate::frames::write_sent_frame;
use crate::solicitations::{write_group_solicitation, write_unicast_solicitation};
use crate::spelling::cause_word;
use crate::words::{add_answer, add_id, add_op};
use nb_base::{Host, Key, Line, Mac, OpId, Plan, Reply};
use nud_machine::{Act, Cause};
use std::alloc::AllocError;
use std::fmt::Write;

/// A bucket's number, and how many lines its journal has.
#[tactic(auto, unfolding(text_codes::specs::Lines::line_text))]
pub fn write_bucket(report: &mut String, number: usize, lines: usize) -> Result<(), AllocError>
    ensures { OnOk result (string_bytes report.new ≡ string_bytes report.old ++ line_text (codes "bucket" ∷ decimal number ∷ codes "lines" ∷ decimal lines ∷ [])) }
{
    writeln!(report, "bucket {number} lines {lines}")?;
    Ok(())
}

/// A line at its place, with its reply.
fn write_line_words(
    report: &mut String,
    place: usize,
    line: &Line,
    reply: Option<Reply>,
) -> Result<(), AllocError>
    ensures { OnOk result (string_bytes report.new ≡ string_bytes report.old ++ line_text (decimal place ∷ decimal line.now.at ∷ id_word line.now.id ∷ (op_words line.now.op ++ codes "->" ∷ reply_part reply))) }
{
    write!(report, "{place} {}", line.at)?;
    add_id(report, line.id)?;
    add_op(report, &line.op)?;
    add_answer(report, reply)?;
    writeln!(report)?;
    Ok(())
}

#[tactic(auto, unfolding(text_codes::specs::Lines::line_text))]
fn write_number_seen(report: &mut String, seen: u32) -> Result<(), AllocError>
    ensures { OnOk result (string_bytes report.new ≡ string_bytes report.old ++ line_text (report_of.set_in (codes "seen" ∷ decimal seen ∷ []))) }
{
    writeln!(report, "  seen {seen}")?;
    Ok(())
}

/// What a line saw of the whole table, where that has two or more buckets.
fn write_seen(report: &mut String, buckets: u32, seen: Option<u32>) -> Result<(), AllocError>
    ensures { OnOk result (string_bytes report.new ≡ string_bytes report.old ++ text_of (report_of.seen_lines buckets seen)) }
{
    match seen {
        Some(seen) if buckets >= 2 => write_number_seen(report, seen),
        _ => Ok(()),
    }
}

/// A line at its place, with its reply, and what it saw below it.
pub fn write_line(
    report: &mut String,
    buckets: u32,
    place: usize,
    line: &Line,
    reply: Option<Reply>,
) -> Result<(), AllocError>
    ensures { OnOk result (string_bytes report.new ≡ string_bytes report.old ++ text_of ((decimal place ∷ decimal line.now.at ∷ id_word line.now.id ∷ (op_words line.now.op ++ codes "->" ∷ reply_part reply)) ∷ report_of.seen_lines buckets line.now.seen)) }
{
    write_line_words(report, place, line, reply)?;
    write_seen(report, buckets, line.seen)
}

#[tactic(auto, unfolding(text_codes::specs::Lines::line_text))]
fn write_transmit(report: &mut String, plan: &Plan, id: OpId, mac: &Mac) -> Result<(), AllocError>
    ensures { OnOk result (string_bytes report.new ≡ string_bytes report.old ++ line_text (report_of.set_in (codes "tx" ∷ decimal id.0 ∷ hex_text (frames.sent_frame plan.now id mac.now) ∷ []))) }
{
    write!(report, "  tx {id} ")?;
    write_sent_frame(report, plan, id, mac)?;
    writeln!(report)?;
    Ok(())
}

#[tactic(auto, unfolding(text_codes::specs::Lines::line_text))]
fn write_wait(report: &mut String, id: OpId) -> Result<(), AllocError>
    ensures { OnOk result (string_bytes report.new ≡ string_bytes report.old ++ line_text (report_of.set_in (codes "wait" ∷ decimal id.0 ∷ []))) }
{
    writeln!(report, "  wait {id}")?;
    Ok(())
}

#[tactic(auto, unfolding(text_codes::specs::Lines::line_text))]
fn write_drop(report: &mut String, id: OpId, cause: Cause) -> Result<(), AllocError>
    ensures { OnOk result (string_bytes report.new ≡ string_bytes report.old ++ line_text (report_of.set_in (codes "drop" ∷ decimal id.0 ∷ spelling.cause_word cause ∷ []))) }
{
    let word = cause_word(cause);
    writeln!(report, "  drop {id} {word}")?;
    Ok(())
}

#[tactic(auto, unfolding(text_codes::specs::Lines::line_text))]
fn write_solicit_group(report: &mut String, host: &Host, key: &Key) -> Result<(), AllocError>
    ensures { OnOk result (string_bytes report.new ≡ string_bytes report.old ++ line_text (report_of.set_in (codes "solicit" ∷ hex_text (frames.group_solicitation host.now key.now) ∷ []))) }
{
    report.push_str("  solicit ")?;
    write_group_solicitation(report, host, key)?;
    writeln!(report)?;
    Ok(())
}

#[tactic(auto, unfolding(text_codes::specs::Lines::line_text))]
fn write_solicit_unicast(
    report: &mut String,
    host: &Host,
    key: &Key,
    mac: &Mac,
) -> Result<(), AllocError>
    ensures { OnOk result (string_bytes report.new ≡ string_bytes report.old ++ line_text (report_of.set_in (codes "solicit" ∷ hex_text (frames.unicast_solicitation host.now key.now mac.now) ∷ []))) }
{
    report.push_str("  solicit ")?;
    write_unicast_solicitation(report, host, key, mac)?;
    writeln!(report)?;
    Ok(())
}

/// An act of a key's entry.
fn write_act(report: &mut String, plan: &Plan, key: &Key, act: &Act) -> Result<(), AllocError>
    ensures { OnOk result (string_bytes report.new ≡ string_bytes report.old ++ line_text (report_of.act_line plan.now key.now act.now)) }
{
    match act {
        Act::Transmit(id, mac) => write_transmit(report, plan, *id, mac),
        Act::Wait(id) => write_wait(report, *id),
        Act::Drop(id, cause) => write_drop(report, *id, *cause),
        Act::SolicitGroup => write_solicit_group(report, &plan.host, key),
        Act::SolicitUnicast(mac) => write_solicit_unicast(report, &plan.host, key, mac),
    }
}

/// The acts of a key's entry, in their order.
pub fn write_acts(
    report: &mut String,
    plan: &Plan,
    key: &Key,
    acts: &[Act],
) -> Result<(), AllocError>
    ensures { OnOk result (string_bytes report.new ≡ string_bytes report.old ++ text_of (map (report_of.act_line plan.now key.now) acts.now)) }
{
    for act in acts {
        write_act(report, plan, key, act)?;
    }
    Ok(())
}
