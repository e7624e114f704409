//! What an operation's line is answered.
ghost use Rattle.std.specs.Prelude.{◌≡◌, ◌<◌, ◌≤◌, ◌^◌, IfOk, IsTrue, length, None};
ghost use Rattle.nb_base.specs.declared.line.Reply.TheVariants.{Counted};
ghost use Rattle.nb_base.specs.Params.{InRange};
ghost use Rattle.nb_journal.specs.Keys as naming;
ghost use Rattle.nb_journal.specs.Fold as spec;
ghost use Rattle.nb_journal.specs.Lawful.{EachLine};
ghost use Rattle.nb_journal.specs.Steps.{IsKept, IsStep, effect_named, is_line_of_run, state_in};

use crate::states::{loose_count, present_count, state_behind};
use nb_base::{Key, Line, Op, Params, Reply};
use nb_journal::{Effect, Kept, effect_of, is_own, key_of, reply_after};
use nud_machine::{Act, Acts};
use std::alloc::{AllocError, Global};

/// Nothing, the refusal, or what came of the event.
fn reply_to_effect(op: &Op, acts: &[Act], effect: &Effect) -> Option<Reply>
    requires { length acts.now ≤ 66 }
    ensures { result ≡ spec.reply_to_effect op.now acts.now (effect_named effect.now) }
{
    match *effect {
        Effect::Passes => None,
        Effect::Refuses(reply) => Some(reply),
        Effect::Brings(_) => Some(reply_after(op, acts)),
    }
}

/// The reply to an operation that meets what is kept of a key.
fn reply_of_kept(
    params: &Params,
    line: &Line,
    key: &Key,
    kept: &mut Kept,
    acts: &mut Acts,
) -> Option<Reply>
    requires params { InRange params.now }
    requires kept { IsKept params.now kept.old }
    requires line { IsTrue (is_line_of_run line.now) }
    requires own { IsTrue (naming.is_own line.now.op) }
    ensures { result ≡ spec.reply_to_effect line.now.op (spec.change params.now line.now key.now (state_in kept.old)).acts (spec.effect params.now line.now (state_in kept.old) line.now.op) }
{
    let effect = effect_of(params, line, kept);
    kept.go_on(params, line, key, acts);
    reply_to_effect(&line.op, acts.as_slice(), &effect)
}

/// The reply to an operation that names a key and didn't find the table full.
fn reply_for(
    alloc: Global,
    params: &Params,
    past: &[Line],
    line: &Line,
    key: &Key,
) -> Result<Option<Reply>, AllocError>
    requires params { InRange params.now }
    requires steps { EachLine (IsStep params.now) past.now }
    requires line { IsTrue (is_line_of_run line.now) }
    requires own { IsTrue (naming.is_own line.now.op) }
    ensures { IfOk result (λ reply. reply ≡ spec.reply_for params.now past.now line.now key.now None) }
{
    let mut kept = state_behind(alloc, params, past, key)?;
    let mut acts = Acts::new(alloc)?;
    Ok(reply_of_kept(params, line, key, &mut kept, &mut acts))
}

/// The reply to an operation that names a key.
fn reply_of_key(
    alloc: Global,
    params: &Params,
    past: &[Line],
    line: &Line,
    key: &Key,
) -> Result<Option<Reply>, AllocError>
    requires params { InRange params.now }
    requires steps { EachLine (IsStep params.now) past.now }
    requires line { IsTrue (is_line_of_run line.now) }
    requires own { IsTrue (naming.is_own line.now.op) }
    ensures { IfOk result (λ reply. reply ≡ spec.reply_for params.now past.now line.now key.now line.now.full) }
{
    match line.full {
        Some(seen) => Ok(Some(Reply::Full { seen })),
        None => reply_for(alloc, params, past, line, key),
    }
}

fn counted(count: usize) -> Reply
    requires { count < 2 ^ 32 }
    ensures { result ≡ Counted count }
{
    Reply::Counted(count as u32)
}

/// The reply to a line behind the past, where it is an own line.
#[tactic(auto, unfolding(nb_journal::specs::Fold::reply_of))]
pub fn reply_to(
    alloc: Global,
    params: &Params,
    past: &[Line],
    line: &Line,
) -> Result<Option<Reply>, AllocError>
    requires params { InRange params.now }
    requires few { length past.now < 2 ^ 32 }
    requires steps { EachLine (IsStep params.now) past.now }
    requires line { IsTrue (is_line_of_run line.now) }
    ensures { IfOk result (λ reply. reply ≡ spec.reply_of params.now past.now line.now) }
{
    if !is_own(&line.op) {
        return Ok(None);
    }
    match line.op {
        Op::Show => Ok(Some(counted(present_count(alloc, params, past)?))),
        Op::Flush => Ok(Some(counted(loose_count(alloc, params, past)?))),
        _ => match key_of(&line.op) {
            Some(key) => reply_of_key(alloc, params, past, line, &key),
            None => Ok(None),
        },
    }
}
