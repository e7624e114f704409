//! The statuses of failures and their lines on standard error.
ghost use Rattle.std.specs.Prelude.{◌≡◌, ◌≢◌, ◌++◌, ◌∷◌, [], IfOk, unwrap_or, codes, decimal, string_bytes};
ghost use Rattle.pcap_records.specs.Fail.{code_of, place_of};
ghost use Rattle.neigh_script.specs.Why.{number_of};
ghost use Rattle.neigh_replay.specs.Replay.{inline_by};
ghost use Rattle.neigh_replay.specs.Status.{Says, memory_line, write_line, usage_line};
ghost use Rattle.neigh_replay.specs.Failures.{line_for, name_in, status_for};

use crate::failure::{Failure, File};
use nb_io::{Sink, WriteFault, write_all};
use neigh_script::ScriptWhy;
use neigh_words::Settings;
use pcap_records::CaptureFail;
use std::alloc::{AllocError, Global};
use std::fmt::Write;

/// The status of a failure.
pub fn status_of(failure: Failure) -> u8
    ensures { result ≡ status_for failure }
{
    match failure {
        Failure::Memory => 1,
        Failure::ReadFault(_) => 3,
        Failure::CaptureRefused(_) => 4,
        Failure::ScriptRefused { .. } => 5,
        Failure::WriteFault => 6,
        Failure::TooLarge => 7,
        Failure::TooLong(_) => 8,
    }
}

/// The name of a file that is asked for.
fn name_of(settings: &Settings, file: File) -> &str
    ensures { result.now ≡ unwrap_or (name_in (inline_by settings.now) file) [] }
{
    match file {
        File::Script => settings.script.as_str(),
        File::Capture => match &settings.capture {
            Some(name) => name.as_str(),
            None => "",
        },
    }
}

/// The line of a failure.
#[tactic(auto, unfolding(crate::specs::Status::memory_line, crate::specs::Status::read_line, crate::specs::Status::write_line, crate::specs::Verdict::line_of))]
fn line_of(alloc: Global, failure: Failure, settings: &Settings) -> Result<String, AllocError>
    ensures { IfOk result (λ line. string_bytes line ≡ line_for (inline_by settings.now) failure) }
{
    match failure {
        Failure::Memory => String::from_str(alloc, "neigh: no memory\n"),
        Failure::ReadFault(file) => {
            named_line(alloc, "neigh: cannot read ", name_of(settings, file))
        }
        Failure::WriteFault => String::from_str(alloc, "neigh: cannot write\n"),
        Failure::TooLong(file) => named_line(alloc, "neigh: too long: ", name_of(settings, file)),
        Failure::CaptureRefused(fail) => capture_line(alloc, fail),
        Failure::ScriptRefused { line, why } => script_line(alloc, line, why),
        Failure::TooLarge => String::from_str(alloc, "neigh: too large\n"),
    }
}

fn named_line(alloc: Global, front: &str, name: &str) -> Result<String, AllocError>
    ensures { IfOk result (λ line. string_bytes line ≡ front.now ++ (name.now ++ 10 ∷ [])) }
{
    let mut line = String::from_str(alloc, front)?;
    line.push_str(name)?;
    line.push('\n')?;
    Ok(line)
}

fn capture_line(alloc: Global, fail: CaptureFail) -> Result<String, AllocError>
    ensures { IfOk result (λ text. string_bytes text ≡ codes "neigh: capture refused: " ++ (decimal (code_of fail) ++ (codes " at " ++ (decimal (place_of fail) ++ 10 ∷ [])))) }
{
    let code = fail.code();
    let place = fail.place();
    let mut text = String::new(alloc);
    writeln!(text, "neigh: capture refused: {code} at {place}")?;
    Ok(text)
}

fn script_line(alloc: Global, line: u32, why: ScriptWhy) -> Result<String, AllocError>
    ensures { IfOk result (λ text. string_bytes text ≡ codes "neigh: script refused: " ++ (decimal (number_of why) ++ (codes " at line " ++ (decimal line ++ 10 ∷ [])))) }
{
    let number = why.number();
    let mut text = String::new(alloc);
    writeln!(text, "neigh: script refused: {number} at line {line}")?;
    Ok(text)
}

/// Writes a line, or a part of it where the sink fails.
pub fn say<E: Sink>(err: &mut E, line: &[u8])
    ensures { Says (E.taken err.old) (E.taken err.new) (E.faults err.old) (E.faults err.new) line.now }
{
    match write_all(err, line) {
        Ok(()) => {}
        Err(WriteFault) => {}
    }
}

/// Says that no memory was left.
#[tactic(auto, unfolding(crate::specs::Status::memory_line))]
pub fn say_no_memory<E: Sink>(err: &mut E)
    ensures { Says (E.taken err.old) (E.taken err.new) (E.faults err.old) (E.faults err.new) memory_line }
{
    say(err, b"neigh: no memory\n");
}

/// Says what the command is.
#[tactic(auto, unfolding(crate::specs::Status::usage_line))]
pub fn say_usage<E: Sink>(err: &mut E)
    ensures { Says (E.taken err.old) (E.taken err.new) (E.faults err.old) (E.faults err.new) usage_line }
{
    say(
        err,
        b"neigh: usage: neigh --script FILE [--capture FILE] [--mode inline|threads] [--window MS] [--buckets N] | neigh --generate NUMBER\n",
    );
}

/// Says that the output can't be written.
#[tactic(auto, unfolding(crate::specs::Status::write_line))]
pub fn say_write_fault<E: Sink>(err: &mut E)
    ensures { Says (E.taken err.old) (E.taken err.new) (E.faults err.old) (E.faults err.new) write_line }
{
    say(err, b"neigh: cannot write\n");
}

/// Says why nothing or a part was written, and answers what it said. Where a line finds no memory, that is what is said; the line of a failed write needs none.
pub fn tell<E: Sink>(alloc: Global, failure: Failure, settings: &Settings, err: &mut E) -> Failure
    ensures same { result ≢ Failure.Memory → result ≡ failure }
    ensures kept { failure ≡ Failure.WriteFault → result ≡ Failure.WriteFault }
    ensures said { Says (E.taken err.old) (E.taken err.new) (E.faults err.old) (E.faults err.new) (line_for (inline_by settings.now) result) }
{
    if failure == Failure::WriteFault {
        say_write_fault(err);
        return Failure::WriteFault;
    }
    match line_of(alloc, failure, settings) {
        Ok(line) => {
            say(err, line.as_bytes());
            failure
        }
        Err(_) => {
            say_no_memory(err);
            Failure::Memory
        }
    }
}
