//! Making an entry, and the forced pass before it.
ghost use Rattle.std.specs.Prelude.{◌≡◌, ◌-◌, ◌<◌, ◌≤◌, ◌&&◌, ◌∷◌, ◌++◌, [], true, is_some, IsTrue, if◌then◌else◌, length, vec_len, vec_capacity};
ghost use Rattle.nud_machine.specs.Asked.{greatest};
ghost use Rattle.nb_journal.specs.Fold as rules;
ghost use Rattle.nb_journal.specs.Keys.{may_be_asked};
ghost use Rattle.nb_journal.specs.Keys as keys_of;
ghost use Rattle.nb_journal.specs.Lawful as lawful;
ghost use Rattle.nb_bucket.specs.Counting.{shown, LooksFor};
ghost use Rattle.nb_bucket.specs.Entering.{victims_of};
ghost use Rattle.nb_bucket.specs.Making.{HoldsOrder, key_at};
ghost use Rattle.nb_bucket.specs.Planned.{IsPlanned};

use crate::counting::look_for;
use crate::order::{is_present, kept_at, push_reserved};
use journal_fold::Fold;
use nb_base::{Key, Line, Moment};
use nb_census::Census;
use nb_journal::{Effect, is_collectable, is_own, is_pass_due, key_of};
use slot_links::Links;

/// The key for which the line would make an entry.
fn making(fold: &Fold, line: &Line) -> Option<Key>
    requires { IsTrue (may_be_asked line.now.op) }
    ensures { result ≡ lawful.making fold.now.params fold.now.lines line.now }
{
    let key = key_of(&line.op)?;
    let brings = matches!(fold.effect_of(line, &key), Effect::Brings(_));
    if is_own(&line.op) && !is_present(fold, &key) && brings {
        Some(key)
    } else {
        None
    }
}

/// Whether a forced pass is due before the line, which looks exactly where it is to make an entry.
fn has_pass(fold: &Fold, line: &Line, last: Moment) -> bool
    requires { last ≤ greatest }
    ensures { result ≡ (is_some line.now.seen && lawful.is_pass_due fold.now.params (rules.seen_of line.now) last line.now.at) }
{
    match line.seen {
        Some(seen) => is_pass_due(fold.params(), seen, last, line.at),
        None => false,
    }
}

/// The moment of the last forced pass, behind a line that has one or hasn't.
pub fn pass_after(pass: bool, at: Moment, last: Moment) -> Moment
    ensures { result ≡ (if pass then at else last) }
{
    if pass { at } else { last }
}

/// Puts the key of the rank behind the others, where a forced pass may take its entry. Answers how many of so many it leaves.
fn take_at(victims: &mut Vec<Key>, fold: &Fold, rank: u32, at: Moment, left: u32) -> u32
    requires known { rank < length (rules.known_keys fold.now.lines) }
    requires room { vec_len victims.old < vec_capacity victims.old }
    requires some { 0 < left }
    ensures victims { victims.new.items ≡ (if lawful.is_collectable at (rules.state_of fold.now.params fold.now.lines (key_at fold.now.lines rank)) then victims.old.items ++ key_at fold.now.lines rank ∷ [] else victims.old.items) }
    ensures left { result ≡ (if lawful.is_collectable at (rules.state_of fold.now.params fold.now.lines (key_at fold.now.lines rank)) then left - 1 else left) }
    ensures room { vec_capacity victims.old ≤ vec_capacity victims.new }
{
    if !is_collectable(at, kept_at(fold, rank)) {
        return left;
    }
    push_reserved(victims, fold.keys()[rank as usize]);
    left - 1
}

/// Finds the keys that a forced pass takes, in the order of making, until fewer than the threshold are left of those that were
/// seen. There has to be room for all keys.
fn find_victims(victims: &mut Vec<Key>, fold: &Fold, order: &Links, seen: u32, at: Moment)
    requires room { order.now.nodes ≤ vec_capacity victims.old }
    requires order { HoldsOrder fold.now.params fold.now.lines order.now }
    ensures found { victims.new.items ≡ victims_of fold.now.params fold.now.lines seen at (lawful.making_order fold.now.params fold.now.lines) }
    ensures room { vec_capacity victims.old ≤ vec_capacity victims.new }
{
    let threshold = fold.params().gc_thresh2;
    let mut left = seen;
    victims.clear();
    let mut next = order.first(0);
    while let Some(rank) = next {
        if left < threshold {
            return;
        }
        left = take_at(victims, fold, rank, at, left);
        next = order.next(rank);
    }
}

/// Finds the keys whose entries the forced pass before the line takes: none where it has no pass.
fn find_asked(victims: &mut Vec<Key>, fold: &Fold, order: &Links, pass: bool, line: &Line)
    requires room { order.now.nodes ≤ vec_capacity victims.old }
    requires order { HoldsOrder fold.now.params fold.now.lines order.now }
    requires pass { pass ≡ lawful.has_pass fold.now.params fold.now.lines line.now }
    ensures found { victims.new.items ≡ lawful.asked_of_pass fold.now.params fold.now.lines line.now }
    ensures room { vec_capacity victims.old ≤ vec_capacity victims.new }
{
    if pass {
        find_victims(victims, fold, order, line.seen.unwrap_or(0), line.at);
    } else {
        victims.clear();
    }
}

/// An operation on its way into the journal.
#[derive(Clone, Copy)]
pub struct Planned {
    /// What its line saw of the whole table, where it is to make an entry.
    pub seen: Option<u32>,
    /// The key for which it is to make an entry.
    pub made: Option<Key>,
    /// Whether a forced pass is due before it.
    pub pass: bool,
}

/// Plans an operation's line, which looks at the census where it is to make an entry, and finds the keys whose entries the forced
/// pass before it takes. There has to be room for all keys.
pub fn plan<C: Census>(
    victims: &mut Vec<Key>,
    fold: &Fold,
    order: &Links,
    census: &mut C,
    last: Moment,
    bare: Line,
) -> Planned
    requires own { keys_of.is_own bare.op ≡ true }
    requires asked { IsTrue (may_be_asked bare.op) }
    requires room { order.now.nodes ≤ vec_capacity victims.old }
    requires order { HoldsOrder fold.now.params fold.now.lines order.now }
    requires last { last ≡ lawful.last_pass fold.now.params fold.now.lines }
    requires early { last ≤ greatest }
    ensures planned { IsPlanned fold.now.params fold.now.lines bare result victims.new.items }
    ensures room { vec_capacity victims.old ≤ vec_capacity victims.new }
    ensures looked { LooksFor (shown C.name C.share C.changes C.looks C.others census.old) (shown C.name C.share C.changes C.looks C.others census.new) result.seen }
{
    let made = making(fold, &bare);
    let seen = look_for(census, made.is_some());
    let line = Line { seen, ..bare };
    let pass = has_pass(fold, &line, last);
    find_asked(victims, fold, order, pass, &line);
    Planned { seen, made, pass }
}
