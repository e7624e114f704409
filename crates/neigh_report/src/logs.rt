//! The senders' logs.
ghost use Rattle.std.specs.Prelude.{◌≡◌, ◌+◌, ◌++◌, ◌∷◌, [], map, take, drop, length, string_bytes, codes, decimal, OnOk};
ghost use Rattle.text_codes.specs.Lines.{line_text, text_of};
ghost use Rattle.text_codes.specs.HexText.{hex_text};
ghost use Rattle.neigh_run.specs.Report as report_of;
ghost use Rattle.neigh_report.specs.Spaced.{spaced, why_words};

use crate::words::{add_reply, write_hex};
use nb_base::{Items, Log, Moment, Outcome, Reply, SendItem, Why};
use std::alloc::AllocError;
use std::fmt::Write;

fn add_fast(
    report: &mut String,
    number: u64,
    header: &[u8],
    payload: &[u8],
) -> Result<(), AllocError>
    ensures { OnOk result (string_bytes report.new ≡ string_bytes report.old ++ spaced (codes "fast" ∷ decimal number ∷ hex_text (header.now ++ payload.now) ∷ [])) }
{
    write!(report, " fast {number} ")?;
    write_hex(report, header)?;
    write_hex(report, payload)
}

fn add_tries(report: &mut String, tries: &[(u64, u64)]) -> Result<(), AllocError>
    ensures { OnOk result (string_bytes report.new ≡ string_bytes report.old ++ spaced (map report_of.try_word tries.now)) }
{
    for numbers in tries {
        let (before, after) = *numbers;
        write!(report, " {before}/{after}")?;
    }
    Ok(())
}

fn add_suspect(report: &mut String, number: u64) -> Result<(), AllocError>
    ensures { OnOk result (string_bytes report.new ≡ string_bytes report.old ++ spaced (codes "suspect" ∷ decimal number ∷ [])) }
{
    write!(report, " suspect {number}")?;
    Ok(())
}

fn add_again(report: &mut String, tries: &[(u64, u64)]) -> Result<(), AllocError>
    ensures { OnOk result (string_bytes report.new ≡ string_bytes report.old ++ spaced (codes "again" ∷ map report_of.try_word tries.now)) }
{
    report.push_str(" again")?;
    add_tries(report, tries)
}

fn add_why(report: &mut String, why: &Why) -> Result<(), AllocError>
    ensures { OnOk result (string_bytes report.new ≡ string_bytes report.old ++ spaced (why_words why.now)) }
{
    match why {
        Why::Inline => report.push_str(" inline"),
        Why::First => report.push_str(" first"),
        Why::Suspect { number } => add_suspect(report, *number),
        Why::Again { tries } => add_again(report, tries),
    }
}

#[tactic(auto, using(crate::proofs::Outcomes::slow_words))]
fn add_slow(
    report: &mut String,
    item: &SendItem,
    why: &Why,
    place: u32,
    reply: Reply,
) -> Result<(), AllocError>
    ensures { OnOk result (string_bytes report.new ≡ string_bytes report.old ++ spaced (report_of.outcome_words item.now (Outcome.Slow why.now place reply))) }
{
    add_why(report, why)?;
    write!(report, " {place}")?;
    add_reply(report, reply)?;
    Ok(())
}

fn add_outcome(report: &mut String, item: &SendItem, outcome: &Outcome) -> Result<(), AllocError>
    ensures { OnOk result (string_bytes report.new ≡ string_bytes report.old ++ spaced (report_of.outcome_words item.now outcome.now)) }
{
    match outcome {
        Outcome::Fast { number, header } => {
            add_fast(report, *number, header, item.payload.as_slice())
        }
        Outcome::Slow { why, place, reply } => add_slow(report, item, why, *place, *reply),
    }
}

fn write_packet(
    report: &mut String,
    n: usize,
    item: &SendItem,
    outcome: &Outcome,
) -> Result<(), AllocError>
    ensures { OnOk result (string_bytes report.new ≡ string_bytes report.old ++ line_text (decimal n ∷ decimal item.now.at ∷ report_of.outcome_words item.now outcome.now)) }
{
    write!(report, "{n} {}", item.at)?;
    add_outcome(report, item, outcome)?;
    writeln!(report)?;
    Ok(())
}

/// A sender's packets with their outcomes.
fn write_packets(report: &mut String, items: &[SendItem], log: &[Outcome]) -> Result<(), AllocError>
    ensures { OnOk result (string_bytes report.new ≡ string_bytes report.old ++ text_of (report_of.log_lines 1 items.now log.now)) }
{
    let packets = items.len().min(log.len());
    for place in 0..packets {
        let item = &items[place];
        let outcome = &log[place];
        write_packet(report, place + 1, item, outcome)?;
    }
    Ok(())
}

#[tactic(auto, unfolding(text_codes::specs::Lines::line_text))]
fn write_sender(report: &mut String, number: usize, items: usize) -> Result<(), AllocError>
    ensures { OnOk result (string_bytes report.new ≡ string_bytes report.old ++ line_text (codes "sender" ∷ decimal number ∷ codes "items" ∷ decimal items ∷ [])) }
{
    writeln!(report, "sender {number} items {items}")?;
    Ok(())
}

fn write_log(
    report: &mut String,
    number: usize,
    items: &[SendItem],
    log: &[Outcome],
) -> Result<(), AllocError>
    ensures { OnOk result (string_bytes report.new ≡ string_bytes report.old ++ text_of ((codes "sender" ∷ decimal number ∷ codes "items" ∷ decimal (length items.now) ∷ []) ∷ report_of.log_lines 1 items.now log.now)) }
{
    write_sender(report, number, items.len())?;
    write_packets(report, items, log)
}

/// Each sender's number of packets, and its log.
pub fn write_logs(
    report: &mut String,
    senders: &[Items<SendItem>],
    logs: &[Log],
) -> Result<(), AllocError>
    ensures { OnOk result (string_bytes report.new ≡ string_bytes report.old ++ text_of (report_of.sender_lines 1 senders.now logs.now)) }
{
    let both = senders.len().min(logs.len());
    for place in 0..both {
        let items = &senders[place];
        let log = &logs[place];
        write_log(report, place + 1, items.as_slice(), log.as_slice())?;
    }
    Ok(())
}
