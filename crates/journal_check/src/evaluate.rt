//! Plain evaluation of a small journal: what it says of a key, and what an operation is answered. All is reckoned anew at
//! each call, so it is slow.
ghost use Rattle.std.specs.Prelude.{◌≡◌, ◌↔◌, [], take, IfOk, IsTrue, true};
ghost use Rattle.nb_base.specs.Params.{InRange};
ghost use Rattle.nb_journal.specs.Fold as fold;
ghost use Rattle.nb_journal.specs.Lawful.{EachLine, due_of};
ghost use Rattle.journal_check.specs.Evaluated.{IsEvaluable};
ghost use Rattle.nb_journal.specs.Steps.{IsStep, is_line_of_run, state_in};
ghost use Rattle.journal_check.specs.Evaluated as spec;

use crate::replies::reply_to;
use crate::states::{due_behind, state_behind};
use crate::timing::is_at;
use nb_base::{Key, Line, Op, Params, Reply};
use nb_journal::{Kept, is_line_of_run};
use std::alloc::{AllocError, Global};

/// Whether a timer's line stands at its key's due.
fn is_at_due(alloc: Global, params: &Params, past: &[Line], line: &Line) -> Result<bool, AllocError>
    requires params { InRange params.now }
    requires steps { EachLine (IsStep params.now) past.now }
    ensures { IfOk result (λ at_due. at_due ≡ spec.at_due_test params.now past.now line.now.at line.now.op) }
{
    match line.op {
        Op::Timer { key } => Ok(is_at(due_behind(alloc, params, past, &key)?, line.at)),
        _ => Ok(true),
    }
}

/// Whether the machine can step over a line behind the past.
fn is_step(alloc: Global, params: &Params, past: &[Line], line: &Line) -> Result<bool, AllocError>
    requires params { InRange params.now }
    requires steps { EachLine (IsStep params.now) past.now }
    ensures { IfOk result (λ step. step ≡ spec.step_test params.now past.now line.now) }
{
    if !is_line_of_run(line) {
        return Ok(false);
    }
    is_at_due(alloc, params, past, line)
}

/// Whether the machine can step over all lines.
fn are_steps(alloc: Global, params: &Params, lines: &[Line]) -> Result<bool, AllocError>
    requires { InRange params.now }
    ensures { IfOk result (λ steps. steps ≡ spec.all_steps params.now [] lines.now) }
{
    for place in 0..lines.len() {
        if !is_step(alloc, params, &lines[..place], &lines[place])? {
            return Ok(false);
        }
    }
    Ok(true)
}

/// Whether the lines can be evaluated: each is a line of a run, a timer's line stands at its key's due, and there are fewer
/// than 2^32.
pub fn is_evaluable(alloc: Global, params: &Params, lines: &[Line]) -> Result<bool, AllocError>
    requires { InRange params.now }
    ensures { IfOk result (λ evaluable. IsTrue evaluable ↔ IsEvaluable params.now lines.now) }
{
    if lines.len() > u32::MAX as usize {
        return Ok(false);
    }
    let evaluable = are_steps(alloc, params, lines)?;
    Ok(evaluable)
}

/// A key's entry and the packets that wait for it, behind the lines.
pub fn state_at(
    alloc: Global,
    params: &Params,
    lines: &[Line],
    key: &Key,
) -> Result<Kept, AllocError>
    requires params { InRange params.now }
    requires evaluable { IsEvaluable params.now lines.now }
    ensures { IfOk result (λ kept. state_in kept ≡ fold.state_of params.now lines.now key.now) }
{
    state_behind(alloc, params, lines, key)
}

/// What a line behind the past is answered: `None` exactly where it is none of an operation.
pub fn reply_at(
    alloc: Global,
    params: &Params,
    past: &[Line],
    line: &Line,
) -> Result<Option<Reply>, AllocError>
    requires params { InRange params.now }
    requires evaluable { IsEvaluable params.now past.now }
    requires line { IsTrue (is_line_of_run line.now) }
    ensures { IfOk result (λ answer. answer ≡ fold.reply_of params.now past.now line.now) }
{
    reply_to(alloc, params, past, line)
}
