//! Whether a journal is lawful: a test of each line behind those before it, and of the sweeps.
ghost use Rattle.std.specs.Prelude.{◌≡◌, ◌↔◌, ◌≤◌, ◌^◌, ◌<◌, ◌&&◌, [], take, IfOk, IfSome, IsTrue, is_some, true, length, nat_le, nat_lt};
ghost use Rattle.std.specs.List.{list_all};
ghost use Rattle.nb_base.specs.Params.{InRange};
ghost use Rattle.nud_machine.specs.Asked.{greatest};
ghost use Rattle.nb_journal.specs.Lawful as lawful;
ghost use Rattle.nb_journal.specs.Lawful.{EachLine, IsLawful};
ghost use Rattle.nb_journal.specs.Steps.{IsStep, is_line_of_run};
ghost use Rattle.nb_journal.specs.Keys.{may_be_asked};
ghost use Rattle.journal_check.specs.Evaluated.{is_of_run};
ghost use Rattle.journal_check.specs.Evaluated as test;

use crate::forcing::{base_of, full_fits, pass_fits, seen_fits};
use crate::sweeping::{sweep_fits, sweeps_stand};
use crate::timing::{due_fits, last_moment, none_before, stamp_fits, timer_fits};
use nb_base::{Line, Moment, Params};
use nb_journal::is_line_of_run;
use std::alloc::{AllocError, Global};

fn are_lines_of_run(lines: &[Line]) -> bool
    ensures { result ≡ list_all is_line_of_run lines.now }
{
    lines.iter().all(|line| is_line_of_run(line))
}

/// Whether a line fits behind the past by its moment, its id, its timer and the dues.
fn fits_in_time(
    alloc: Global,
    params: &Params,
    past: &[Line],
    line: &Line,
) -> Result<bool, AllocError>
    requires params { InRange params.now }
    requires now { line.now.at ≤ greatest }
    requires steps { EachLine (IsStep params.now) past.now }
    ensures { IfOk result (λ fits. fits ≡ test.time_test params.now past.now line.now) }
{
    if !stamp_fits(past, line) {
        return Ok(false);
    }
    if !timer_fits(alloc, params, past, line)? {
        return Ok(false);
    }
    due_fits(alloc, params, past, line)
}

/// Whether it fits by the sweeps, by what it saw, the forced passes and `full`.
fn fits_in_number(
    alloc: Global,
    params: &Params,
    past: &[Line],
    line: &Line,
) -> Result<bool, AllocError>
    requires params { InRange params.now }
    requires steps { EachLine (IsStep params.now) past.now }
    requires asked { IsTrue (may_be_asked line.now.op) }
    ensures { IfOk result (λ fits. fits ≡ test.number_test params.now past.now line.now) }
{
    if !sweep_fits(params, past, line) {
        return Ok(false);
    }
    if !seen_fits(alloc, params, past, line)? {
        return Ok(false);
    }
    if !pass_fits(alloc, params, past, line)? {
        return Ok(false);
    }
    full_fits(alloc, params, past, line)
}

fn fits(alloc: Global, params: &Params, past: &[Line], line: &Line) -> Result<bool, AllocError>
    requires params { InRange params.now }
    requires now { line.now.at ≤ greatest }
    requires steps { EachLine (IsStep params.now) past.now }
    requires asked { IsTrue (may_be_asked line.now.op) }
    ensures { IfOk result (λ fits. fits ≡ test.fit_test params.now past.now line.now) }
{
    if !fits_in_time(alloc, params, past, line)? {
        return Ok(false);
    }
    fits_in_number(alloc, params, past, line)
}

/// Whether each line fits behind those before it.
fn all_fit(alloc: Global, params: &Params, lines: &[Line]) -> Result<bool, AllocError>
    requires params { InRange params.now }
    requires lines { IsTrue (list_all is_line_of_run lines.now) }
    ensures fits { IfOk result (λ fit. fit ≡ test.all_fit params.now [] lines.now) }
    ensures steps { IfOk result (λ fit. fit ≡ true → EachLine (IsStep params.now) lines.now) }
{
    for place in 0..lines.len() {
        if !fits(alloc, params, &lines[..place], &lines[place])? {
            return Ok(false);
        }
    }
    Ok(true)
}

/// Whether no collect line stands at the end, the moments are at most the clock, and no due is.
fn ends_by(
    alloc: Global,
    params: &Params,
    lines: &[Line],
    clock: Moment,
) -> Result<bool, AllocError>
    requires params { InRange params.now }
    requires clock { clock ≤ greatest }
    requires steps { EachLine (IsStep params.now) lines.now }
    ensures { IfOk result (λ ends. ends ≡ test.ends_by params.now lines.now clock) }
{
    if base_of(lines).len() != lines.len() || clock < last_moment(lines) {
        return Ok(false);
    }
    none_before(alloc, params, lines, clock.after(1))
}

/// Whether the journal of lines of a run is lawful at the clock.
fn decide(alloc: Global, params: &Params, lines: &[Line], clock: Moment) -> Result<bool, AllocError>
    requires params { InRange params.now }
    requires clock { clock ≤ greatest }
    requires lines { IsTrue (list_all is_line_of_run lines.now) }
    ensures { IfOk result (λ decided. IsTrue decided ↔ test.PassesTests params.now lines.now clock) }
{
    if !all_fit(alloc, params, lines)? {
        return Ok(false);
    }
    if !ends_by(alloc, params, lines, clock)? {
        return Ok(false);
    }
    Ok(sweeps_stand(params, lines, clock))
}

/// Whether the lines are of a run.
fn are_of_run(lines: &[Line], clock: Moment) -> bool
    ensures { result ≡ is_of_run lines.now clock }
{
    clock.millis() <= Moment::GREATEST
        && lines.len() <= u32::MAX as usize
        && are_lines_of_run(lines)
}

/// Whether a journal is lawful at a clock, by its definition: every state, count and due is reckoned anew at each line.
/// `None` exactly where the lines or the clock aren't of a run: a moment lies behind 30 days, an operation may not be
/// asked for, or there are 2^32 lines or more.
pub fn is_lawful(
    alloc: Global,
    params: &Params,
    lines: &[Line],
    clock: Moment,
) -> Result<Option<bool>, AllocError>
    requires { InRange params.now }
    ensures of_run { IfOk result (λ decided. is_some decided ≡ is_of_run lines.now clock) }
    ensures lawful { IfOk result (λ decided. IfSome decided (λ lawful. IsTrue lawful ↔ IsLawful params.now lines.now clock)) }
{
    if !are_of_run(lines, clock) {
        return Ok(None);
    }
    let decided = decide(alloc, params, lines, clock)?;
    Ok(Some(decided))
}
