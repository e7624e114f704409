//! The known keys by rank, and one more.
ghost use Rattle.std.specs.Prelude.{◌≡◌, ◌<◌, ◌++◌, ◌∷◌, [], List, None, Some, IfSome, OnOk, true, is_some, slice_get, vec_len, vec_capacity};
ghost use Rattle.indexmap.specs.IndexSet.{spare};
ghost use Rattle.nb_base.specs.declared.line.Line.{Line};
ghost use Rattle.nb_base.specs.declared.params.Params.{Params};
ghost use Rattle.nud_machine.specs.State.{absent};
ghost use Rattle.nb_journal.specs.Keys.{has_key};
ghost use Rattle.nb_journal.specs.Steps.{state_in};
ghost use Rattle.nb_journal.specs.Fold as rules;
ghost use Rattle.nb_journal.specs.Keys as keys_of;
ghost use Rattle.journal_fold.specs.Kept.{AreKept, IsReady, number_present};

use indexmap::IndexSet;
use nb_base::{Key, Line, Params};
use nb_journal::{Kept, made_known};
use std::alloc::{AllocError, Global};

/// The key's rank; `None` exactly where it isn't there.
pub fn find_rank(keys: &IndexSet<Key>, key: &Key) -> Option<usize>
    ensures there { IfSome result (λ rank. slice_get keys.now.keys rank ≡ Some key.now) }
    ensures known { is_some result ≡ has_key keys.now.keys key.now }
{
    keys.get_index_of(key)
}

/// Makes room for one key more, and its parts. A refusal leaves the keys and their entries as before.
pub fn reserve_key(
    alloc: Global,
    keys: &mut IndexSet<Key>,
    kept: &mut Vec<Kept>,
    next: &mut Option<Kept>,
) -> Result<(), AllocError>
    ensures keys { keys.new.keys ≡ keys.old.keys }
    ensures kept { kept.new.items ≡ kept.old.items }
    ensures next { (p : Params) → IfSome next.old (IsReady p) → IfSome next.new (IsReady p) }
    ensures spare { OnOk result (0 < spare keys.new) }
    ensures room { OnOk result (vec_len kept.new < vec_capacity kept.new) }
    ensures there { OnOk result (is_some next.new ≡ true) }
{
    keys.reserve(1)?;
    kept.reserve(1)?;
    if next.is_none() {
        *next = Some(Kept::absent(alloc)?);
    }
    Ok(())
}

/// Puts what lies ready behind the others, for which there is room.
fn put_next(kept: &mut Vec<Kept>, next: &mut Option<Kept>)
    requires there { is_some next.old ≡ true }
    requires room { vec_len kept.old < vec_capacity kept.old }
    ensures kept { IfSome next.old (λ one. kept.new.items ≡ kept.old.items ++ one ∷ []) }
    ensures next { next.new ≡ None }
{
    match next.take() {
        Some(one) => match kept.push(one) {
            Ok(()) => {}
            Err(_) => unreachable!(),
        },
        None => unreachable!(),
    }
}

/// The key goes behind the others, unless it is there: with the parts that lie ready, without an entry.
fn add_key(keys: &mut IndexSet<Key>, kept: &mut Vec<Kept>, next: &mut Option<Kept>, key: Key)
    requires there { is_some next.old ≡ true }
    requires room { vec_len kept.old < vec_capacity kept.old }
    requires spare { 0 < spare keys.old }
    ensures keys { keys.new.keys ≡ rules.with_key keys.old.keys (Some key) }
    ensures kept { (p : Params) (past : List Line) → keys.old.keys ≡ rules.known_keys past → IfSome next.old (IsReady p) → AreKept p past keys.old.keys kept.old.items → AreKept p past keys.new.keys kept.new.items }
    ensures present { IfSome next.old (λ one. state_in one ≡ absent) → number_present kept.new.items ≡ number_present kept.old.items }
    ensures next { (p : Params) → IfSome next.old (IsReady p) → IfSome next.new (IsReady p) }
{
    match keys.insert(key) {
        Ok(true) => put_next(kept, next),
        Ok(false) => {}
        Err(_) => unreachable!(),
    }
}

/// The key that the line makes known goes behind the others, unless it is there.
pub fn make_known(
    keys: &mut IndexSet<Key>,
    kept: &mut Vec<Kept>,
    next: &mut Option<Kept>,
    params: &Params,
    past: &[Line],
    line: &Line,
)
    requires there { is_some next.old ≡ true }
    requires room { vec_len kept.old < vec_capacity kept.old }
    requires spare { 0 < spare keys.old }
    requires next { IfSome next.old (IsReady params.now) }
    requires keys { keys.old.keys ≡ rules.known_keys past.now }
    requires kept { AreKept params.now past.now keys.old.keys kept.old.items }
    ensures next { IfSome next.new (IsReady params.now) }
    ensures keys { keys.new.keys ≡ rules.known_keys (past.now ++ line.now ∷ []) }
    ensures kept { AreKept params.now past.now keys.new.keys kept.new.items }
    ensures present { number_present kept.new.items ≡ number_present kept.old.items }
    ensures same { keys_of.made_known line.now.op ≡ None → (next.new ≡ next.old) × (keys.new ≡ keys.old) × (kept.new ≡ kept.old) }
{
    match made_known(&line.op) {
        Some(key) => add_key(keys, kept, next, key),
        None => {}
    }
}
