//! Moments, and the timers that stand in their turn.
ghost use Rattle.std.specs.Prelude.{◌≡◌, ◌+◌, ◌<◌, ◌≤◌, ◌^◌, IfOk, length};
ghost use Rattle.std.specs.List.{list_all};
ghost use Rattle.nb_base.specs.Params.{InRange};
ghost use Rattle.nud_machine.specs.Asked.{greatest};
ghost use Rattle.nb_journal.specs.Fold as fold;
ghost use Rattle.nb_journal.specs.Keys as naming;
ghost use Rattle.nb_journal.specs.Lawful as lawful;
ghost use Rattle.nb_journal.specs.Lawful.{EachLine, due_of};
ghost use Rattle.nb_journal.specs.Steps.{IsStep};
ghost use Rattle.journal_check.specs.Evaluated as test;

use crate::states::{due_behind, keys_behind, place_among};
use nb_base::{Key, Line, Moment, Op, Params};
use nb_journal::is_own;
use std::alloc::{AllocError, Global};

/// The moment of the last line, or 0.
pub fn last_moment(lines: &[Line]) -> Moment
    ensures { result ≡ lawful.last_moment lines.now }
{
    match lines {
        [] => Moment(0),
        [.., last] => last.at,
    }
}

/// Whether the line's moment doesn't fall, and it has an id exactly where it is an own line.
pub fn stamp_fits(past: &[Line], line: &Line) -> bool
    ensures { result ≡ test.stamp_test past.now line.now }
{
    let id_fits = if is_own(&line.op) {
        line.id.is_some()
    } else {
        line.id.is_none()
    };
    last_moment(past) <= line.at && id_fits
}

fn is_from(moment: Moment, due: Option<Moment>) -> bool
    ensures { result ≡ test.is_from moment due }
{
    match due {
        None => true,
        Some(at) => moment <= at,
    }
}

/// Whether a due is there, at the moment.
pub fn is_at(due: Option<Moment>, moment: Moment) -> bool
    ensures { result ≡ test.is_at due moment }
{
    match due {
        None => false,
        Some(at) => at == moment,
    }
}

/// Whether none of the keys has a due before the moment.
fn none_of_before(
    alloc: Global,
    params: &Params,
    lines: &[Line],
    keys: &[Key],
    moment: Moment,
) -> Result<bool, AllocError>
    requires params { InRange params.now }
    requires steps { EachLine (IsStep params.now) lines.now }
    ensures { IfOk result (λ none. none ≡ list_all (λ key. test.is_from moment (due_of params.now lines.now key)) keys.now) }
{
    for key in keys {
        if !is_from(moment, due_behind(alloc, params, lines, key)?) {
            return Ok(false);
        }
    }
    Ok(true)
}

/// Whether no known key has a due before the moment.
pub fn none_before(
    alloc: Global,
    params: &Params,
    lines: &[Line],
    moment: Moment,
) -> Result<bool, AllocError>
    requires params { InRange params.now }
    requires steps { EachLine (IsStep params.now) lines.now }
    ensures { IfOk result (λ none. none ≡ test.none_before params.now lines.now moment) }
{
    let keys = keys_behind(alloc, lines)?;
    none_of_before(alloc, params, lines, &keys, moment)
}

/// Whether a key whose due is at the moment doesn't stand before another of this rank.
fn yields(rank: usize, moment: Moment, due: Option<Moment>, other_rank: usize) -> bool
    ensures { result ≡ test.yields rank moment due other_rank }
{
    !is_at(due, moment) || rank <= other_rank
}

/// Whether none of the keys with this due has a lesser rank.
fn none_of_first(
    alloc: Global,
    params: &Params,
    lines: &[Line],
    keys: &[Key],
    rank: usize,
    moment: Moment,
    known: &[Key],
) -> Result<bool, AllocError>
    requires params { InRange params.now }
    requires steps { EachLine (IsStep params.now) lines.now }
    ensures { IfOk result (λ first. first ≡ list_all (λ other. test.yields rank moment (due_of params.now lines.now other) (naming.place_among known.now other)) keys.now) }
{
    for other in keys {
        let due = due_behind(alloc, params, lines, other)?;
        if !yields(rank, moment, due, place_among(known, other)) {
            return Ok(false);
        }
    }
    Ok(true)
}

/// Whether the key's timer is the next.
fn next_due(
    alloc: Global,
    params: &Params,
    lines: &[Line],
    key: &Key,
    moment: Moment,
) -> Result<bool, AllocError>
    requires params { InRange params.now }
    requires steps { EachLine (IsStep params.now) lines.now }
    ensures { IfOk result (λ next. next ≡ test.next_due params.now lines.now key.now moment) }
{
    if !is_at(due_behind(alloc, params, lines, key)?, moment) {
        return Ok(false);
    }
    if !none_before(alloc, params, lines, moment)? {
        return Ok(false);
    }
    let known = keys_behind(alloc, lines)?;
    let rank = place_among(&known, key);
    none_of_first(alloc, params, lines, &known, rank, moment, &known)
}

/// Whether a timer's line stands in its turn.
pub fn timer_fits(
    alloc: Global,
    params: &Params,
    past: &[Line],
    line: &Line,
) -> Result<bool, AllocError>
    requires params { InRange params.now }
    requires steps { EachLine (IsStep params.now) past.now }
    ensures { IfOk result (λ fits. fits ≡ test.timer_test params.now past.now line.now.at line.now.op) }
{
    match line.op {
        Op::Timer { key } => next_due(alloc, params, past, &key, line.at),
        _ => Ok(true),
    }
}

/// Whether nothing is due any more before every other line.
pub fn due_fits(
    alloc: Global,
    params: &Params,
    past: &[Line],
    line: &Line,
) -> Result<bool, AllocError>
    requires params { InRange params.now }
    requires now { line.now.at ≤ greatest }
    requires steps { EachLine (IsStep params.now) past.now }
    ensures { IfOk result (λ fits. fits ≡ test.due_test params.now past.now line.now.at line.now.op) }
{
    match line.op {
        Op::Timer { .. } => Ok(true),
        _ => none_before(alloc, params, past, line.at.after(1)),
    }
}
