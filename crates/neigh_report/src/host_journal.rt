//! The host's journal.
ghost use Rattle.std.specs.Prelude.{◌≡◌, ◌++◌, ◌∷◌, [], map, take, string_bytes, codes, decimal, OnOk};
ghost use Rattle.std.specs.List.{flat_map};
ghost use Rattle.text_codes.specs.Lines.{line_text, text_of};
ghost use Rattle.text_codes.specs.HexText.{hex_text};
ghost use Rattle.neigh_run.specs.Spelling.{placed_words};
ghost use Rattle.neigh_run.specs.Report as report_of;
ghost use Rattle.neigh_report.specs.Spaced.{spaced};

use crate::head::write_count;
use crate::words::{add_class, add_placed, add_reply, write_hex};
use nb_base::{Bytes, Class, HostLine, Moment, Placed, Reply};
use std::alloc::AllocError;
use std::fmt::Write;

fn add_queued(report: &mut String, queued: Option<bool>) -> Result<(), AllocError>
    ensures { OnOk result (string_bytes report.new ≡ string_bytes report.old ++ spaced (report_of.queued_words queued)) }
{
    match queued {
        None => Ok(()),
        Some(true) => report.push_str(" proxied"),
        Some(false) => report.push_str(" proxyfull"),
    }
}

fn add_frame(report: &mut String, frame: &[u8]) -> Result<(), AllocError>
    ensures { OnOk result (string_bytes report.new ≡ string_bytes report.old ++ spaced (codes "tx" ∷ hex_text frame.now ∷ [])) }
{
    report.push_str(" tx ")?;
    write_hex(report, frame)
}

fn add_tx(report: &mut String, tx: &Option<Bytes>) -> Result<(), AllocError>
    ensures { OnOk result (string_bytes report.new ≡ string_bytes report.old ++ spaced (report_of.tx_words tx.now)) }
{
    match tx {
        None => Ok(()),
        Some(frame) => add_frame(report, frame.as_slice()),
    }
}

fn add_op_part(report: &mut String, op: &Option<Placed>) -> Result<(), AllocError>
    ensures { OnOk result (string_bytes report.new ≡ string_bytes report.old ++ spaced (report_of.op_part op.now)) }
{
    match op {
        None => Ok(()),
        Some(placed) => add_placed(report, placed),
    }
}

fn add_each_placed(report: &mut String, ops: &[Placed]) -> Result<(), AllocError>
    ensures { OnOk result (string_bytes report.new ≡ string_bytes report.old ++ spaced (flat_map placed_words ops.now)) }
{
    for placed in ops {
        add_placed(report, placed)?;
    }
    Ok(())
}

fn write_frame(
    report: &mut String,
    n: u32,
    at: Moment,
    class: Class,
    queued: Option<bool>,
    tx: &Option<Bytes>,
    op: &Option<Placed>,
) -> Result<(), AllocError>
    ensures { OnOk result (string_bytes report.new ≡ string_bytes report.old ++ line_text (report_of.host_line_words (HostLine.Frame n at class queued tx.now op.now))) }
{
    write!(report, "{n} {at} frame")?;
    add_class(report, class)?;
    add_queued(report, queued)?;
    add_tx(report, tx)?;
    add_op_part(report, op)?;
    writeln!(report)?;
    Ok(())
}

fn write_neigh(report: &mut String, n: u32, at: Moment, ops: &[Placed]) -> Result<(), AllocError>
    ensures { OnOk result (string_bytes report.new ≡ string_bytes report.old ++ line_text (report_of.host_line_words (HostLine.Neigh n at ops.now))) }
{
    write!(report, "{n} {at} neigh")?;
    add_each_placed(report, ops)?;
    writeln!(report)?;
    Ok(())
}

fn write_proxy(report: &mut String, n: u32, at: Moment, reply: Reply) -> Result<(), AllocError>
    ensures { OnOk result (string_bytes report.new ≡ string_bytes report.old ++ line_text (report_of.host_line_words (HostLine.Proxy n at reply))) }
{
    write!(report, "{n} {at} proxy")?;
    add_reply(report, reply)?;
    writeln!(report)?;
    Ok(())
}

#[tactic(auto, unfolding(text_codes::specs::Lines::line_text))]
fn write_answer(report: &mut String, due: Moment, frame: &[u8]) -> Result<(), AllocError>
    ensures { OnOk result (string_bytes report.new ≡ string_bytes report.old ++ line_text (report_of.host_line_words (HostLine.Answer due frame.now))) }
{
    write!(report, "- {due} answer ")?;
    write_hex(report, frame)?;
    writeln!(report)?;
    Ok(())
}

fn write_host_line(report: &mut String, line: &HostLine) -> Result<(), AllocError>
    ensures { OnOk result (string_bytes report.new ≡ string_bytes report.old ++ line_text (report_of.host_line_words line.now)) }
{
    match line {
        HostLine::Frame {
            n,
            at,
            class,
            queued,
            tx,
            op,
        } => write_frame(report, *n, *at, *class, *queued, tx, op),
        HostLine::Neigh { n, at, ops } => write_neigh(report, *n, *at, ops.as_slice()),
        HostLine::Proxy { n, at, reply } => write_proxy(report, *n, *at, *reply),
        HostLine::Answer { due, frame } => write_answer(report, *due, frame.as_slice()),
    }
}

fn write_each_line(report: &mut String, lines: &[HostLine]) -> Result<(), AllocError>
    ensures { OnOk result (string_bytes report.new ≡ string_bytes report.old ++ text_of (map report_of.host_line_words lines.now)) }
{
    for line in lines {
        write_host_line(report, line)?;
    }
    Ok(())
}

/// What the host did, in the order of what happened.
#[tactic(auto, unfolding(text_codes::specs::Lines::line_text))]
pub fn write_host_journal(report: &mut String, lines: &[HostLine]) -> Result<(), AllocError>
    ensures { OnOk result (string_bytes report.new ≡ string_bytes report.old ++ text_of (report_of.counted (codes "host" ∷ codes "lines" ∷ []) (map report_of.host_line_words lines.now))) }
{
    write_count(report, "host lines", lines.len() as u128)?;
    write_each_line(report, lines)
}
