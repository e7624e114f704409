//! The order of making: the ranks of the present keys, in one linked list.
ghost use Rattle.std.specs.Prelude.{◌≡◌, ◌<◌, ◌≤◌, ◌∷◌, ◌++◌, [], true, None, eqb, IfSome, filter, is_some, if◌then◌else◌, length, vec_len, vec_capacity};
ghost use Rattle.std.specs.List.{AllByRecursion, IsDistinct};
ghost use Rattle.nb_journal.specs.Fold as rules;
ghost use Rattle.nb_journal.specs.Keys.{has_key};
ghost use Rattle.nb_journal.specs.Keys as keys_of;
ghost use Rattle.nb_journal.specs.Steps.{IsKept, state_in};
ghost use Rattle.slot_links.specs.Lists.{list_at, holder, take_out};
ghost use Rattle.nb_bucket.specs.Bucket.{most_lines};
ghost use Rattle.nb_bucket.specs.Making as making;

use journal_fold::Fold;
use nb_base::{Key, Line};
use nb_journal::{Kept, key_of};
use slot_links::Links;

/// Whether the key's entry is present.
pub fn is_present(fold: &Fold, key: &Key) -> bool
    ensures { result ≡ rules.is_present fold.now.params fold.now.lines key.now }
{
    match fold.find(key) {
        None => false,
        Some(kept) => kept.entry.present,
    }
}

/// Puts a value behind the others, for which there is room.
pub fn push_reserved<T: Copy>(values: &mut Vec<T>, value: T)
    requires { vec_len values.old < vec_capacity values.old }
    ensures items { values.new.items ≡ values.old.items ++ value ∷ [] }
    ensures room { vec_capacity values.old ≤ vec_capacity values.new }
{
    match values.push(value) {
        Ok(()) => {}
        Err(_) => unreachable!(),
    }
}

/// The entry of the key of a rank, with the packets that wait.
pub fn kept_at(fold: &Fold, rank: u32) -> &Kept
    requires { rank < length (rules.known_keys fold.now.lines) }
    ensures state { state_in result.now ≡ rules.state_of fold.now.params fold.now.lines (making.key_at fold.now.lines rank) }
    ensures kept { IsKept fold.now.params result.now }
{
    &fold.kept()[rank as usize]
}

/// Takes the rank out of the order, where its entry isn't present.
fn drop_rank(order: &mut Links, fold: &Fold, rank: u32)
    requires known { rank < length (rules.known_keys fold.now.lines) }
    requires node { rank < order.old.nodes }
    ensures lists { order.new.lists ≡ (if making.present_at fold.now.params fold.now.lines rank then order.old.lists else take_out order.old.lists rank) }
    ensures nodes { order.new.nodes ≡ order.old.nodes }
{
    if !kept_at(fold, rank).entry.present {
        order.unlink(rank);
    }
}

/// Takes those of the order's ranks out of it whose entries aren't present.
pub fn drop_ranks(order: &mut Links, fold: &Fold, ranks: &[u32])
    requires list { order.old.lists ≡ ranks.now ∷ [] }
    requires known { AllByRecursion (λ rank. rank < length (rules.known_keys fold.now.lines)) ranks.now }
    requires nodes { length (rules.known_keys fold.now.lines) ≤ order.old.nodes }
    ensures lists { order.new.lists ≡ filter (making.present_at fold.now.params fold.now.lines) ranks.now ∷ [] }
    ensures nodes { order.new.nodes ≡ order.old.nodes }
{
    for rank in ranks {
        drop_rank(order, fold, *rank);
    }
}

/// Takes the key that the line names out of the order, where its entry isn't present.
pub fn drop_named(order: &mut Links, fold: &Fold, line: &Line)
    requires few { length fold.now.lines ≤ most_lines }
    requires nodes { length (rules.known_keys fold.now.lines) ≤ order.old.nodes }
    ensures lists { order.new.lists ≡ making.dropped fold.now.params fold.now.lines (keys_of.key_of line.now.op) order.old.lists }
    ensures nodes { order.new.nodes ≡ order.old.nodes }
{
    let Some(key) = key_of(&line.op) else {
        return;
    };
    if let Some(rank) = fold.rank_of(&key) {
        drop_rank(order, fold, rank as u32);
    }
}

/// Puts the key for which the line made an entry at the end of the order.
pub fn push_made(order: &mut Links, fold: &Fold, made: Option<Key>)
    requires few { length fold.now.lines ≤ most_lines }
    requires list { 0 < length order.old.lists }
    requires nodes { length (rules.known_keys fold.now.lines) ≤ order.old.nodes }
    requires known { IfSome made (λ key. has_key (rules.known_keys fold.now.lines) key ≡ true) }
    requires apart { IfSome made (λ key. holder order.old.lists (rules.rank_of fold.now.lines key) ≡ None) }
    ensures lists { order.new.lists ≡ making.pushed fold.now.lines made order.old.lists }
    ensures nodes { order.new.nodes ≡ order.old.nodes }
{
    let Some(key) = made else {
        return;
    };
    match fold.rank_of(&key) {
        Some(rank) => order.push_back(0, rank as u32),
        None => unreachable!(),
    }
}

/// Lists the ranks of the order, from its front. There has to be room for all.
pub fn list_ranks(ranks: &mut Vec<u32>, order: &Links)
    requires list { 0 < length order.now.lists }
    requires room { length (list_at order.now.lists 0) ≤ vec_capacity ranks.old }
    ensures ranks { ranks.new.items ≡ list_at order.now.lists 0 }
    ensures once { IsDistinct eqb ranks.new.items }
    ensures room { vec_capacity ranks.old ≤ vec_capacity ranks.new }
{
    ranks.clear();
    let mut next = order.first(0);
    while let Some(rank) = next {
        push_reserved(ranks, rank);
        next = order.next(rank);
    }
}
