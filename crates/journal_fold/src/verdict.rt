//! What is known of a line's reply before its acts.
ghost use Rattle.std.specs.Prelude.{◌≡◌, ◌<◌, ◌≤◌, List, ◌^◌, length, true, is_some, Some};
ghost use Rattle.nb_base.specs.declared.line.Line.{Line};
ghost use Rattle.nb_base.specs.declared.params.Params.{Params};
ghost use Rattle.nb_base.specs.declared.line.Reply.TheVariants.{Counted};
ghost use Rattle.nb_journal.specs.Accounts.{acts_at};
ghost use Rattle.nb_journal.specs.Steps.{effect_named};
ghost use Rattle.nb_journal.specs.Fold as rules;
ghost use Rattle.nb_journal.specs.Keys as keys_of;
ghost use Rattle.journal_fold.specs.Verdicts as verdicts;

use nb_base::{Line, Reply};
use nb_journal::{Effect, reply_after};
use nud_machine::Act;

/// A reply that is known before the line's acts, or one that they tell.
#[derive(Clone, Copy)]
pub enum Verdict {
    Told(Option<Reply>),
    ByActs,
}

/// An effect that brings no event tells the reply.
pub fn verdict_by(effect: Effect) -> Verdict
    ensures { result ≡ verdicts.verdict_by (effect_named effect) }
{
    match effect {
        Effect::Passes => Verdict::Told(None),
        Effect::Refuses(reply) => Verdict::Told(Some(reply)),
        Effect::Brings(_) => Verdict::ByActs,
    }
}

pub fn counted(count: usize) -> Verdict
    requires { count < 2 ^ 32 }
    ensures { result ≡ Verdict.Told (Some (Counted count)) }
{
    Verdict::Told(Some(Reply::Counted(count as u32)))
}

/// The reply, once the acts of a line that names a key are known.
pub fn reply_by(verdict: Verdict, line: &Line, acts: &[Act]) -> Option<Reply>
    requires { length acts.now ≤ 66 }
    ensures { (p : Params) (past : List Line) → verdicts.IsVerdict p past line.now verdict → (is_some (keys_of.key_of line.now.op) ≡ true → acts.now ≡ acts_at p past line.now) → result ≡ rules.reply_of p past line.now }
{
    match verdict {
        Verdict::Told(reply) => reply,
        Verdict::ByActs => Some(reply_after(&line.op, acts)),
    }
}
