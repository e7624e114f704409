//! How an operation's lines are written, once there is room for them.
ghost use Rattle.std.specs.Prelude.{◌≡◌, ◌+◌, ◌-◌, ◌<◌, ◌≤◌, ◌∷◌, ◌++◌, [], true, false, Some, None, IsTrue, is_some, nat_le, ◌&&◌, if◌then◌else◌, map, length, vec_capacity};
ghost use Rattle.nb_base.specs.Params.{InRange};
ghost use Rattle.nud_machine.specs.Asked.{greatest};
ghost use Rattle.nb_journal.specs.Keys as keys_of;
ghost use Rattle.nb_journal.specs.Fold as rules;
ghost use Rattle.nb_journal.specs.Lawful as lawful;
ghost use Rattle.nb_journal.specs.Steps.{IsStep, is_line_of_run};
ghost use Rattle.nb_bucket.specs.Bucket.{most_lines, brought, IsReplyTo};
ghost use Rattle.nb_bucket.specs.Counting.{shown, IsCensusOf, CountsLine, CountsCollects, CountsBrought};
ghost use Rattle.nb_bucket.specs.Dues.{AreArmed};
ghost use Rattle.nb_bucket.specs.Entering.{IsReadyToWrite};
ghost use Rattle.nb_bucket.specs.Making.{HoldsOrder};
ghost use Rattle.nb_bucket.specs.Making as making;

use crate::order::{drop_named, drop_ranks, list_ranks, push_made};
use crate::timers::{append, append_over};
use journal_fold::Fold;
use nb_base::{Key, Line, Moment, Op, Params, Reply};
use nb_census::Census;
use nud_machine::Acts;
use slot_links::Links;
use timer_wheel::Wheel;

/// The line by which a forced pass removes a key.
fn collect_line(at: Moment, key: Key) -> Line
    ensures { result ≡ lawful.collect_line at key }
{
    Line {
        at,
        id: None,
        op: Op::Collect { key },
        seen: None,
        full: None,
    }
}

/// Writes the lines by which a forced pass removes keys, in their order. Takes no memory: there has to be room for these lines
/// and one more.
fn write_collects<C: Census>(
    fold: &mut Fold,
    order: &mut Links,
    timers: &mut Wheel,
    census: &mut C,
    victims: &[Key],
    at: Moment,
    acts: &mut Acts,
)
    requires now { at ≤ greatest }
    requires few { length fold.old.lines + length victims.now ≤ most_lines }
    requires room { length victims.now < fold.old.room }
    requires place { fold.old.has_place ≡ true }
    requires order { HoldsOrder fold.old.params fold.old.lines order.old }
    requires params { InRange fold.old.params }
    requires armed { AreArmed fold.old.params fold.old.lines timers.old }
    requires passed { timers.old.now ≤ at }
    requires census { IsCensusOf fold.old.params fold.old.lines (shown C.name C.share C.changes C.looks C.others census.old) }
    ensures lines { fold.new.lines ≡ fold.old.lines ++ map (lawful.collect_line at) victims.now }
    ensures params { fold.new.params ≡ fold.old.params }
    ensures room { 0 < fold.new.room }
    ensures place { fold.new.has_place ≡ true }
    ensures order { HoldsOrder fold.new.params fold.new.lines order.new }
    ensures nodes { order.new.nodes ≡ order.old.nodes }
    ensures known { length (rules.known_keys fold.new.lines) ≡ length (rules.known_keys fold.old.lines) }
    ensures armed { AreArmed fold.new.params fold.new.lines timers.new }
    ensures passed { timers.new.now ≡ timers.old.now }
    ensures timers { length timers.new.dues ≡ length timers.old.dues }
    ensures counted { CountsCollects fold.old.params fold.old.lines (map (lawful.collect_line at) victims.now) (shown C.name C.share C.changes C.looks C.others census.old) (shown C.name C.share C.changes C.looks C.others census.new) }
{
    for key in victims {
        let line = collect_line(at, *key);
        append(fold, timers, census, &line, acts);
        drop_named(order, fold, &line);
    }
}

/// The number of entries in the way of making one, where they are too many: those that the line saw, less its collect lines.
fn full_of(params: &Params, line: &Line, collects: u32) -> Option<u32>
    ensures { result ≡ (if is_some line.now.seen && nat_le params.now.gc_thresh3 (rules.seen_of line.now - collects) then Some (rules.seen_of line.now - collects) else None) }
{
    let left = line.seen?.saturating_sub(collects);
    if params.gc_thresh3 <= left {
        Some(left)
    } else {
        None
    }
}

/// The key for which a line makes an entry, unless it found too many.
fn made_unless(made: Option<Key>, full: Option<u32>) -> Option<Key>
    ensures { result ≡ (if is_some full then None else made) }
{
    match full {
        Some(_) => None,
        None => made,
    }
}

/// Writes a line that names a key.
fn write_one<C: Census>(
    fold: &mut Fold,
    order: &mut Links,
    timers: &mut Wheel,
    census: &mut C,
    line: &Line,
    made: Option<Key>,
    acts: &mut Acts,
) -> Option<Reply>
    requires own { keys_of.is_own line.now.op ≡ true }
    requires one { making.goes_to_each line.now.op ≡ false }
    requires step { IsStep fold.old.params fold.old.lines line.now }
    requires few { length fold.old.lines < most_lines }
    requires room { 0 < fold.old.room }
    requires place { fold.old.has_place ≡ true }
    requires order { HoldsOrder fold.old.params fold.old.lines order.old }
    requires made { made ≡ lawful.making fold.old.params (lawful.base_of fold.old.lines) line.now }
    requires bare { made ≡ None → lawful.base_of fold.old.lines ≡ fold.old.lines }
    requires node { length (rules.known_keys fold.old.lines) < order.old.nodes }
    requires params { InRange fold.old.params }
    requires armed { AreArmed fold.old.params fold.old.lines timers.old }
    requires passed { timers.old.now ≤ line.now.at }
    requires timer { length (rules.known_keys fold.old.lines) < length timers.old.dues }
    requires census { IsCensusOf fold.old.params fold.old.lines (shown C.name C.share C.changes C.looks C.others census.old) }
    ensures lines { fold.new.lines ≡ fold.old.lines ++ line.now ∷ [] }
    ensures params { fold.new.params ≡ fold.old.params }
    ensures order { HoldsOrder fold.new.params fold.new.lines order.new }
    ensures nodes { order.new.nodes ≡ order.old.nodes }
    ensures reply { result ≡ rules.reply_of fold.old.params fold.old.lines line.now }
    ensures armed { AreArmed fold.new.params fold.new.lines timers.new }
    ensures passed { timers.new.now ≡ timers.old.now }
    ensures counted { CountsLine (rules.present_count fold.old.params fold.old.lines) (rules.present_count fold.new.params fold.new.lines) (shown C.name C.share C.changes C.looks C.others census.old) (shown C.name C.share C.changes C.looks C.others census.new) }
{
    let reply = append(fold, timers, census, line, acts);
    drop_named(order, fold, line);
    push_made(order, fold, made_unless(made, line.full));
    reply
}

/// Writes a line that goes to all present keys: it can remove their entries. There has to be room for their ranks.
pub fn write_each<C: Census>(
    fold: &mut Fold,
    order: &mut Links,
    ranks: &mut Vec<u32>,
    timers: &mut Wheel,
    census: &mut C,
    line: &Line,
    acts: &mut Acts,
) -> Option<Reply>
    requires names { keys_of.key_of line.now.op ≡ None }
    requires step { IsStep fold.old.params fold.old.lines line.now }
    requires few { length fold.old.lines < most_lines }
    requires room { 0 < fold.old.room }
    requires order { HoldsOrder fold.old.params fold.old.lines order.old }
    requires ranks { order.old.nodes ≤ vec_capacity ranks.old }
    requires params { InRange fold.old.params }
    requires armed { AreArmed fold.old.params fold.old.lines timers.old }
    requires passed { timers.old.now ≤ line.now.at }
    requires census { IsCensusOf fold.old.params fold.old.lines (shown C.name C.share C.changes C.looks C.others census.old) }
    ensures lines { fold.new.lines ≡ fold.old.lines ++ line.now ∷ [] }
    ensures params { fold.new.params ≡ fold.old.params }
    ensures order { HoldsOrder fold.new.params fold.new.lines order.new }
    ensures nodes { order.new.nodes ≡ order.old.nodes }
    ensures ranks { vec_capacity ranks.old ≤ vec_capacity ranks.new }
    ensures reply { result ≡ rules.reply_of fold.old.params fold.old.lines line.now }
    ensures armed { AreArmed fold.new.params fold.new.lines timers.new }
    ensures passed { timers.new.now ≡ timers.old.now }
    ensures counted { CountsLine (rules.present_count fold.old.params fold.old.lines) (rules.present_count fold.new.params fold.new.lines) (shown C.name C.share C.changes C.looks C.others census.old) (shown C.name C.share C.changes C.looks C.others census.new) }
{
    list_ranks(ranks, order);
    let reply = append_over(fold, timers, census, line, ranks, acts);
    drop_ranks(order, fold, ranks);
    reply
}

/// Whether the operation goes to all present keys.
fn goes_to_each(op: &Op) -> bool
    ensures { result ≡ making.goes_to_each op.now }
{
    matches!(op, Op::Show | Op::Flush | Op::Sweep)
}

/// Writes the operation's line.
fn write_line<C: Census>(
    fold: &mut Fold,
    order: &mut Links,
    ranks: &mut Vec<u32>,
    timers: &mut Wheel,
    census: &mut C,
    line: &Line,
    made: Option<Key>,
    acts: &mut Acts,
) -> Option<Reply>
    requires own { keys_of.is_own line.now.op ≡ true }
    requires step { IsStep fold.old.params fold.old.lines line.now }
    requires few { length fold.old.lines < most_lines }
    requires room { 0 < fold.old.room }
    requires place { fold.old.has_place ≡ true }
    requires order { HoldsOrder fold.old.params fold.old.lines order.old }
    requires made { made ≡ lawful.making fold.old.params (lawful.base_of fold.old.lines) line.now }
    requires bare { made ≡ None → lawful.base_of fold.old.lines ≡ fold.old.lines }
    requires node { length (rules.known_keys fold.old.lines) < order.old.nodes }
    requires ranks { order.old.nodes ≤ vec_capacity ranks.old }
    requires params { InRange fold.old.params }
    requires armed { AreArmed fold.old.params fold.old.lines timers.old }
    requires passed { timers.old.now ≤ line.now.at }
    requires timer { length (rules.known_keys fold.old.lines) < length timers.old.dues }
    requires census { IsCensusOf fold.old.params fold.old.lines (shown C.name C.share C.changes C.looks C.others census.old) }
    ensures lines { fold.new.lines ≡ fold.old.lines ++ line.now ∷ [] }
    ensures params { fold.new.params ≡ fold.old.params }
    ensures order { HoldsOrder fold.new.params fold.new.lines order.new }
    ensures nodes { order.new.nodes ≡ order.old.nodes }
    ensures ranks { vec_capacity ranks.old ≤ vec_capacity ranks.new }
    ensures reply { result ≡ rules.reply_of fold.old.params fold.old.lines line.now }
    ensures armed { AreArmed fold.new.params fold.new.lines timers.new }
    ensures passed { timers.new.now ≡ timers.old.now }
    ensures counted { CountsLine (rules.present_count fold.old.params fold.old.lines) (rules.present_count fold.new.params fold.new.lines) (shown C.name C.share C.changes C.looks C.others census.old) (shown C.name C.share C.changes C.looks C.others census.new) }
{
    if goes_to_each(&line.op) {
        write_each(fold, order, ranks, timers, census, line, acts)
    } else {
        write_one(fold, order, timers, census, line, made, acts)
    }
}

/// Writes the operation's line, and answers it.
fn write_own<C: Census>(
    fold: &mut Fold,
    order: &mut Links,
    ranks: &mut Vec<u32>,
    timers: &mut Wheel,
    census: &mut C,
    line: &Line,
    made: Option<Key>,
    acts: &mut Acts,
) -> Reply
    requires own { keys_of.is_own line.now.op ≡ true }
    requires step { IsTrue (is_line_of_run line.now) }
    requires few { length fold.old.lines < most_lines }
    requires room { 0 < fold.old.room }
    requires place { fold.old.has_place ≡ true }
    requires order { HoldsOrder fold.old.params fold.old.lines order.old }
    requires made { made ≡ lawful.making fold.old.params (lawful.base_of fold.old.lines) line.now }
    requires bare { made ≡ None → lawful.base_of fold.old.lines ≡ fold.old.lines }
    requires node { length (rules.known_keys fold.old.lines) < order.old.nodes }
    requires ranks { order.old.nodes ≤ vec_capacity ranks.old }
    requires params { InRange fold.old.params }
    requires armed { AreArmed fold.old.params fold.old.lines timers.old }
    requires passed { timers.old.now ≤ line.now.at }
    requires timer { length (rules.known_keys fold.old.lines) < length timers.old.dues }
    requires census { IsCensusOf fold.old.params fold.old.lines (shown C.name C.share C.changes C.looks C.others census.old) }
    ensures lines { fold.new.lines ≡ fold.old.lines ++ line.now ∷ [] }
    ensures params { fold.new.params ≡ fold.old.params }
    ensures order { HoldsOrder fold.new.params fold.new.lines order.new }
    ensures nodes { order.new.nodes ≡ order.old.nodes }
    ensures ranks { vec_capacity ranks.old ≤ vec_capacity ranks.new }
    ensures reply { rules.reply_of fold.old.params fold.old.lines line.now ≡ Some result }
    ensures armed { AreArmed fold.new.params fold.new.lines timers.new }
    ensures passed { timers.new.now ≡ timers.old.now }
    ensures counted { CountsLine (rules.present_count fold.old.params fold.old.lines) (rules.present_count fold.new.params fold.new.lines) (shown C.name C.share C.changes C.looks C.others census.old) (shown C.name C.share C.changes C.looks C.others census.new) }
{
    match write_line(fold, order, ranks, timers, census, line, made, acts) {
        Some(reply) => reply,
        None => unreachable!(),
    }
}

/// Writes the lines that an operation brings at once: the forced pass before it, which takes the victims, and its own line, with the
/// number of entries in its way. Answers it.
pub fn write<C: Census>(
    fold: &mut Fold,
    order: &mut Links,
    ranks: &mut Vec<u32>,
    timers: &mut Wheel,
    census: &mut C,
    line: Line,
    made: Option<Key>,
    victims: &[Key],
    acts: &mut Acts,
) -> Reply
    requires ready { IsReadyToWrite fold.old order.old line made victims.now }
    requires ranks { order.old.nodes ≤ vec_capacity ranks.old }
    requires params { InRange fold.old.params }
    requires armed { AreArmed fold.old.params fold.old.lines timers.old }
    requires passed { timers.old.now ≤ line.at }
    requires timer { length (rules.known_keys fold.old.lines) < length timers.old.dues }
    requires census { IsCensusOf fold.old.params fold.old.lines (shown C.name C.share C.changes C.looks C.others census.old) }
    ensures lines { fold.new.lines ≡ fold.old.lines ++ brought fold.old.params fold.old.lines line }
    ensures params { fold.new.params ≡ fold.old.params }
    ensures order { HoldsOrder fold.new.params fold.new.lines order.new }
    ensures nodes { order.new.nodes ≡ order.old.nodes }
    ensures ranks { vec_capacity ranks.old ≤ vec_capacity ranks.new }
    ensures reply { IsReplyTo fold.old.params fold.old.lines line result }
    ensures armed { AreArmed fold.new.params fold.new.lines timers.new }
    ensures passed { timers.new.now ≡ timers.old.now }
    ensures counted { CountsBrought fold.old.params fold.old.lines (lawful.collects fold.old.params fold.old.lines line) fold.new.lines (shown C.name C.share C.changes C.looks C.others census.old) (shown C.name C.share C.changes C.looks C.others census.new) }
{
    write_collects(fold, order, timers, census, victims, line.at, acts);
    let full = full_of(fold.params(), &line, victims.len() as u32);
    let line = Line { full, ..line };
    write_own(fold, order, ranks, timers, census, &line, made, acts)
}
