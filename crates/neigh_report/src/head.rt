//! The lines of a report that stand alone.
ghost use Rattle.std.specs.Prelude.{◌≡◌, ◌++◌, ◌∷◌, [], map, take, length, string_bytes, codes, decimal, OnOk};
ghost use Rattle.std.specs.List.{flat_map};
ghost use Rattle.text_codes.specs.Lines.{line_text, text_of};
ghost use Rattle.neigh_run.specs.Spelling.{host_words};
ghost use Rattle.neigh_run.specs.Report as report_of;
ghost use Rattle.neigh_report.specs.Spaced.{spaced};

use crate::spelling::mode_word;
use nb_base::{Host, Key, Mark, Moment};
use neigh_run::Run;
use std::alloc::AllocError;
use std::fmt::Write;

fn add_size(report: &mut String, name: &str, size: u128) -> Result<(), AllocError>
    ensures { OnOk result (string_bytes report.new ≡ string_bytes report.old ++ spaced (name.now ∷ decimal size ∷ [])) }
{
    write!(report, " {name} {size}")?;
    Ok(())
}

/// The format's number, the mode and the plan's sizes.
pub fn write_head(report: &mut String, run: &Run) -> Result<(), AllocError>
    ensures { OnOk result (string_bytes report.new ≡ string_bytes report.old ++ line_text (report_of.head_words run.now)) }
{
    let mode = mode_word(run.mode);
    write!(report, "neigh 1 mode {mode}")?;
    add_size(report, "buckets", run.plan.buckets as u128)?;
    add_size(report, "senders", run.plan.senders.len() as u128)?;
    add_size(report, "window", run.plan.window as u128)?;
    writeln!(report)?;
    Ok(())
}

#[tactic(auto, unfolding(text_codes::specs::Lines::line_text))]
pub fn write_host(report: &mut String, host: &Host) -> Result<(), AllocError>
    ensures { OnOk result (string_bytes report.new ≡ string_bytes report.old ++ line_text (host_words host.now)) }
{
    write!(report, "host dev {} lladdr {}", host.dev, host.mac)?;
    if let Some(address) = host.ip4 {
        write!(report, " inet {}", Key::V4(address))?;
    }
    if let Some(address) = host.ip6 {
        write!(report, " inet6 {}", Key::V6(address))?;
    }
    writeln!(report)?;
    Ok(())
}

/// A line that ends with the number of those that follow.
#[tactic(auto, unfolding(text_codes::specs::Lines::line_text))]
pub fn write_count(report: &mut String, front: &str, count: u128) -> Result<(), AllocError>
    ensures { OnOk result (string_bytes report.new ≡ string_bytes report.old ++ line_text (front.now ∷ decimal count ∷ [])) }
{
    writeln!(report, "{front} {count}")?;
    Ok(())
}

fn write_start(report: &mut String, start: Option<Moment>) -> Result<(), AllocError>
    ensures { OnOk result (string_bytes report.new ≡ string_bytes report.old ++ codes "mark" ++ spaced (report_of.start_word start ∷ [])) }
{
    match start {
        None => report.push_str("mark end"),
        Some(start) => write_start_at(report, start),
    }
}

fn write_start_at(report: &mut String, start: Moment) -> Result<(), AllocError>
    ensures { OnOk result (string_bytes report.new ≡ string_bytes report.old ++ codes "mark" ++ spaced (decimal start ∷ [])) }
{
    write!(report, "mark {start}")?;
    Ok(())
}

fn add_lengths(report: &mut String, lengths: &[u32]) -> Result<(), AllocError>
    ensures { OnOk result (string_bytes report.new ≡ string_bytes report.old ++ spaced (map decimal lengths.now)) }
{
    for length in lengths {
        write!(report, " {length}")?;
    }
    Ok(())
}

fn write_mark(report: &mut String, mark: &Mark) -> Result<(), AllocError>
    ensures { OnOk result (string_bytes report.new ≡ string_bytes report.old ++ line_text (report_of.mark_words mark.now)) }
{
    write_start(report, mark.start)?;
    add_lengths(report, mark.lengths.as_slice())?;
    writeln!(report)?;
    Ok(())
}

fn write_each_mark(report: &mut String, marks: &[Mark]) -> Result<(), AllocError>
    ensures { OnOk result (string_bytes report.new ≡ string_bytes report.old ++ text_of (map report_of.mark_words marks.now)) }
{
    for mark in marks {
        write_mark(report, mark)?;
    }
    Ok(())
}

/// The marks of a run in threads mode.
pub fn write_marks(report: &mut String, marks: &[Mark]) -> Result<(), AllocError>
    ensures { OnOk result (string_bytes report.new ≡ string_bytes report.old ++ text_of (report_of.counted (codes "marks" ∷ []) (map report_of.mark_words marks.now))) }
{
    write_count(report, "marks", marks.len() as u128)?;
    write_each_mark(report, marks)
}

/// How many packets went out by their bucket, went out fast, were dropped, and wait at the end.
pub fn write_fates(
    report: &mut String,
    sent: u128,
    fast: u128,
    dropped: u128,
    waiting: u128,
) -> Result<(), AllocError>
    ensures { OnOk result (string_bytes report.new ≡ string_bytes report.old ++ line_text (codes "fates" ∷ codes "sent" ∷ decimal sent ∷ codes "fast" ∷ decimal fast ∷ codes "dropped" ∷ decimal dropped ∷ codes "waiting" ∷ decimal waiting ∷ [])) }
{
    report.push_str("fates")?;
    add_size(report, "sent", sent)?;
    add_size(report, "fast", fast)?;
    add_size(report, "dropped", dropped)?;
    add_size(report, "waiting", waiting)?;
    writeln!(report)?;
    Ok(())
}

#[tactic(auto, unfolding(text_codes::specs::Lines::line_text))]
pub fn write_end(report: &mut String) -> Result<(), AllocError>
    ensures { OnOk result (string_bytes report.new ≡ string_bytes report.old ++ line_text (codes "end" ∷ [])) }
{
    report.push_str("end\n")
}
