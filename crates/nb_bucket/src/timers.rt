//! The timers of a bucket: a key's node in the wheel is its rank.
ghost use Rattle.std.specs.Prelude.{◌≡◌, ◌+◌, ◌<◌, ◌≤◌, ◌^◌, ◌∷◌, ◌++◌, [], true, false, Some, None, IfSome, IfNone, length, slice_get, slice_set};
ghost use Rattle.std.specs.List.{AllByRecursion};
ghost use Rattle.nb_base.specs.declared.key.Key.{Key};
ghost use Rattle.nb_base.specs.Params.{InRange};
ghost use Rattle.nb_journal.specs.Fold as rules;
ghost use Rattle.nb_journal.specs.Keys as keys_of;
ghost use Rattle.nb_journal.specs.Lawful.{due_of, NothingDue, NothingOverdue};
ghost use Rattle.nb_journal.specs.Steps.{IsStep};
ghost use Rattle.journal_fold.specs.Present.{HoldsPresent};
ghost use Rattle.nb_bucket.specs.Bucket.{most_lines};
ghost use Rattle.nb_bucket.specs.Counting.{shown, IsCensusOf, CountsLine};
ghost use Rattle.nb_bucket.specs.Dues.{AreArmed, IsNextTimer, ArmsOne, ClearsOne, ClearsGone};
ghost use Rattle.nb_bucket.specs.Making as making;

use crate::counting;
use journal_fold::Fold;
use nb_base::{Key, Line, Moment, Op, Reply};
use nb_census::Census;
use nb_journal::key_of;
use nud_machine::Acts;
use timer_wheel::Wheel;

/// The line of the next timer that is due up to the moment.
pub fn next_timer(fold: &Fold, timers: &Wheel, until: Moment) -> Option<Line>
    requires armed { AreArmed fold.now.params fold.now.lines timers.now }
    ensures none { IfNone result (NothingDue fold.now.params fold.now.lines until) }
    ensures next { IfSome result (IsNextTimer fold.now.params fold.now.lines) }
    ensures due { IfSome result (λ line. line.at ≤ until) }
{
    let (at, node) = timers.next()?;
    if at > until {
        return None;
    }
    let key = fold.keys()[node as usize];
    Some(Line {
        at,
        id: None,
        op: Op::Timer { key },
        seen: None,
        full: None,
    })
}

/// The due of the entry whose key has the rank.
fn due_at(fold: &Fold, rank: usize) -> Option<Moment>
    requires { rank < length (rules.known_keys fold.now.lines) }
    ensures { (key : Key) → slice_get (rules.known_keys fold.now.lines) rank ≡ Some key → result ≡ due_of fold.now.params fold.now.lines key }
{
    fold.kept()[rank].entry.due
}

/// Sets a node's due, or takes it away.
fn set_due(timers: &mut Wheel, node: u32, due: Option<Moment>)
    requires node { node < length timers.old.dues }
    requires ahead { IfSome due (λ at. timers.old.now ≤ at) }
    ensures { timers.new ≡ record { now = timers.old.now; dues = slice_set timers.old.dues node due } }
{
    match due {
        Some(at) => timers.arm(node, at),
        None => {
            timers.cancel(node);
        }
    }
}

/// Gives the timer of a key the due of its entry.
fn arm_one(timers: &mut Wheel, fold: &Fold, key: &Key)
    requires few { length fold.now.lines < 2 ^ 32 }
    requires nodes { length (rules.known_keys fold.now.lines) ≤ length timers.old.dues }
    requires ahead { NothingOverdue fold.now.params fold.now.lines timers.old.now }
    ensures { ArmsOne fold.now.params fold.now.lines key.now timers.old timers.new }
{
    if let Some(rank) = fold.rank_of(key) {
        set_due(timers, rank as u32, due_at(fold, rank));
    }
}

/// Cancels a node that is to have no due.
fn clear_one(timers: &mut Wheel, node: u32, due: Option<Moment>)
    requires { node < length timers.old.dues }
    ensures { ClearsOne node due timers.old timers.new }
{
    if due.is_none() {
        timers.cancel(node);
    }
}

/// Cancels the timers of those of the ranks whose keys' entries have no due.
fn clear_gone(timers: &mut Wheel, fold: &Fold, ranks: &[u32])
    requires known { AllByRecursion (λ rank. rank < length (rules.known_keys fold.now.lines)) ranks.now }
    requires nodes { length (rules.known_keys fold.now.lines) ≤ length timers.old.dues }
    ensures { ClearsGone fold.now.params fold.now.lines ranks.now timers.old timers.new }
{
    for rank in ranks {
        clear_one(timers, *rank, due_at(fold, *rank as usize));
    }
}

/// Brings the timer of the key that the line names up to the fold's last line.
fn follow(timers: &mut Wheel, fold: &Fold, line: &Line)
    requires few { length fold.now.lines < 2 ^ 32 }
    requires nodes { length (rules.known_keys fold.now.lines) ≤ length timers.old.dues }
    requires ahead { NothingOverdue fold.now.params fold.now.lines timers.old.now }
    ensures now { timers.new.now ≡ timers.old.now }
    ensures nodes { length timers.new.dues ≡ length timers.old.dues }
    ensures named { (key : Key) → keys_of.key_of line.now.op ≡ Some key → ArmsOne fold.now.params fold.now.lines key timers.old timers.new }
{
    if let Some(key) = key_of(&line.op) {
        arm_one(timers, fold, &key);
    }
}

/// Appends a line that names a key; the census counts it, and the timers follow it.
pub fn append<C: Census>(
    fold: &mut Fold,
    timers: &mut Wheel,
    census: &mut C,
    line: &Line,
    acts: &mut Acts,
) -> Option<Reply>
    requires params { InRange fold.old.params }
    requires one { making.goes_to_each line.now.op ≡ false }
    requires step { IsStep fold.old.params fold.old.lines line.now }
    requires few { length fold.old.lines < most_lines }
    requires room { 0 < fold.old.room }
    requires place { fold.old.has_place ≡ true }
    requires armed { AreArmed fold.old.params fold.old.lines timers.old }
    requires passed { timers.old.now ≤ line.now.at }
    requires nodes { length (rules.known_keys (fold.old.lines ++ line.now ∷ [])) ≤ length timers.old.dues }
    requires census { IsCensusOf fold.old.params fold.old.lines (shown C.name C.share C.changes C.looks C.others census.old) }
    ensures lines { fold.new.lines ≡ fold.old.lines ++ line.now ∷ [] }
    ensures params { fold.new.params ≡ fold.old.params }
    ensures room { fold.old.room ≤ fold.new.room + 1 }
    ensures place { keys_of.made_known line.now.op ≡ None → fold.new.has_place ≡ true }
    ensures armed { AreArmed fold.new.params fold.new.lines timers.new }
    ensures now { timers.new.now ≡ timers.old.now }
    ensures nodes { length timers.new.dues ≡ length timers.old.dues }
    ensures reply { result ≡ rules.reply_of fold.old.params fold.old.lines line.now }
    ensures counted { CountsLine (rules.present_count fold.old.params fold.old.lines) (rules.present_count fold.new.params fold.new.lines) (shown C.name C.share C.changes C.looks C.others census.old) (shown C.name C.share C.changes C.looks C.others census.new) }
{
    let reply = counting::append(fold, census, line, acts);
    follow(timers, fold, line);
    reply
}

/// Appends a line that names no key, over the ranks of the present ones alone; the census counts it, and the timers follow it.
pub fn append_over<C: Census>(
    fold: &mut Fold,
    timers: &mut Wheel,
    census: &mut C,
    line: &Line,
    ranks: &[u32],
    acts: &mut Acts,
) -> Option<Reply>
    requires params { InRange fold.old.params }
    requires step { IsStep fold.old.params fold.old.lines line.now }
    requires few { length fold.old.lines < most_lines }
    requires names { keys_of.key_of line.now.op ≡ None }
    requires room { 0 < fold.old.room }
    requires ranks { HoldsPresent fold.old.params fold.old.lines ranks.now }
    requires armed { AreArmed fold.old.params fold.old.lines timers.old }
    requires passed { timers.old.now ≤ line.now.at }
    requires census { IsCensusOf fold.old.params fold.old.lines (shown C.name C.share C.changes C.looks C.others census.old) }
    ensures lines { fold.new.lines ≡ fold.old.lines ++ line.now ∷ [] }
    ensures params { fold.new.params ≡ fold.old.params }
    ensures armed { AreArmed fold.new.params fold.new.lines timers.new }
    ensures now { timers.new.now ≡ timers.old.now }
    ensures reply { result ≡ rules.reply_of fold.old.params fold.old.lines line.now }
    ensures counted { CountsLine (rules.present_count fold.old.params fold.old.lines) (rules.present_count fold.new.params fold.new.lines) (shown C.name C.share C.changes C.looks C.others census.old) (shown C.name C.share C.changes C.looks C.others census.new) }
{
    let reply = counting::append_over(fold, census, line, ranks, acts);
    clear_gone(timers, fold, ranks);
    reply
}
