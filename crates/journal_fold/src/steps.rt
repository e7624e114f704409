//! What a line does to the keys.
ghost use Rattle.std.specs.Prelude.{◌≡◌, ◌++◌, ◌∷◌, [], None, Some, map, set, slice_get, vec_len, vec_capacity};
ghost use Rattle.std.specs.List.{AllByRecursion};
ghost use Rattle.nb_base.specs.Params.{InRange};
ghost use Rattle.nb_journal.specs.Accounts.{acts_at};
ghost use Rattle.nb_journal.specs.Steps.{IsKept, IsStep, state_in};
ghost use Rattle.nb_journal.specs.Fold as rules;
ghost use Rattle.nb_journal.specs.Keys as keys_of;
ghost use Rattle.journal_fold.specs.Kept.{AreKept, number_present};
ghost use Rattle.journal_fold.specs.Hearing.{Hears};
ghost use Rattle.journal_fold.specs.Present.{HoldsPresent};

use crate::hearing::Hearer;
use crate::known::find_rank;
use indexmap::IndexSet;
use nb_base::{Key, Line, Op, Params};
use nb_journal::Kept;
use nud_machine::Acts;

/// What a line does to the key of the rank.
fn go_on_at(
    kept: &mut Vec<Kept>,
    present: &mut usize,
    params: &Params,
    past: &[Line],
    line: &Line,
    rank: usize,
    key: &Key,
    acts: &mut Acts,
)
    requires params { InRange params.now }
    requires step { IsStep params.now past.now line.now }
    requires state { slice_get (map state_in kept.old.items) rank ≡ Some (rules.state_of params.now past.now key.now) }
    requires each { AllByRecursion (IsKept params.now) kept.old.items }
    requires present { present.old ≡ number_present kept.old.items }
    ensures states { map state_in kept.new.items ≡ set (map state_in kept.old.items) rank (rules.state_of params.now (past.now ++ line.now ∷ []) key.now) }
    ensures each { AllByRecursion (IsKept params.now) kept.new.items }
    ensures present { present.new ≡ number_present kept.new.items }
    ensures acts { acts.new ≡ rules.acts_of params.now past.now line.now key.now }
    ensures len { vec_len kept.new ≡ vec_len kept.old }
    ensures capacity { vec_capacity kept.new ≡ vec_capacity kept.old }
{
    let one = &mut kept[rank];
    *present -= usize::from(one.entry.present);
    one.go_on(params, line, key, acts);
    *present += usize::from(one.entry.present);
}

/// What a line does to the key that it names.
pub fn go_on_named(
    keys: &IndexSet<Key>,
    kept: &mut Vec<Kept>,
    present: &mut usize,
    params: &Params,
    past: &[Line],
    line: &Line,
    key: &Key,
    acts: &mut Acts,
)
    requires params { InRange params.now }
    requires step { IsStep params.now past.now line.now }
    requires names { keys_of.key_of line.now.op ≡ Some key.now }
    requires keys { keys.now.keys ≡ rules.known_keys (past.now ++ line.now ∷ []) }
    requires kept { AreKept params.now past.now keys.now.keys kept.old.items }
    requires present { present.old ≡ number_present kept.old.items }
    ensures kept { AreKept params.now (past.now ++ line.now ∷ []) keys.now.keys kept.new.items }
    ensures present { present.new ≡ number_present kept.new.items }
    ensures acts { acts.new ≡ acts_at params.now past.now line.now }
    ensures len { vec_len kept.new ≡ vec_len kept.old }
    ensures capacity { vec_capacity kept.new ≡ vec_capacity kept.old }
{
    match find_rank(keys, key) {
        Some(rank) => go_on_at(kept, present, params, past, line, rank, key, acts),
        None => acts.clear(),
    }
}

/// What a line that names no key does to each, by rank. The hearer hears the acts.
pub fn go_on_each<H: Hearer>(
    keys: &[Key],
    kept: &mut Vec<Kept>,
    present: &mut usize,
    params: &Params,
    past: &[Line],
    line: &Line,
    room: &mut Acts,
    hearer: &mut H,
)
    requires params { InRange params.now }
    requires step { IsStep params.now past.now line.now }
    requires keys { keys.now ≡ rules.known_keys (past.now ++ line.now ∷ []) }
    requires kept { AreKept params.now past.now keys.now kept.old.items }
    requires present { present.old ≡ number_present kept.old.items }
    ensures kept { AreKept params.now (past.now ++ line.now ∷ []) keys.now kept.new.items }
    ensures present { present.new ≡ number_present kept.new.items }
    ensures heard { Hears (H.heard hearer.old) (H.room hearer.old) (H.heard hearer.new) (H.room hearer.new) (acts_at params.now past.now line.now) }
    ensures len { vec_len kept.new ≡ vec_len kept.old }
    ensures capacity { vec_capacity kept.new ≡ vec_capacity kept.old }
{
    if let Op::Show = line.op {
        return;
    }
    for (rank, key) in keys.iter().enumerate() {
        go_on_at(kept, present, params, past, line, rank, key, room);
        hearer.hear(room.as_slice());
    }
}

/// What a line that names no key does to those of the ranks, which hold all present ones.
pub fn go_on_ranks(
    keys: &[Key],
    kept: &mut Vec<Kept>,
    present: &mut usize,
    params: &Params,
    past: &[Line],
    line: &Line,
    ranks: &[u32],
    room: &mut Acts,
)
    requires params { InRange params.now }
    requires step { IsStep params.now past.now line.now }
    requires names { keys_of.key_of line.now.op ≡ None }
    requires keys { keys.now ≡ rules.known_keys past.now }
    requires kept { AreKept params.now past.now keys.now kept.old.items }
    requires present { present.old ≡ number_present kept.old.items }
    requires ranks { HoldsPresent params.now past.now ranks.now }
    ensures kept { AreKept params.now (past.now ++ line.now ∷ []) keys.now kept.new.items }
    ensures present { present.new ≡ number_present kept.new.items }
    ensures len { vec_len kept.new ≡ vec_len kept.old }
    ensures capacity { vec_capacity kept.new ≡ vec_capacity kept.old }
{
    for rank in ranks {
        let rank = *rank as usize;
        go_on_at(kept, present, params, past, line, rank, &keys[rank], room);
    }
}
