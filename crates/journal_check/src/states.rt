//! What lines mean for keys: states, known keys and counts, each reckoned anew.
ghost use Rattle.std.specs.Prelude.{◌≡◌, ◌<◌, ◌^◌, IfOk, OnOk, map, filter, length};
ghost use Rattle.nb_base.specs.Params.{InRange};
ghost use Rattle.nb_journal.specs.Keys as naming;
ghost use Rattle.nb_journal.specs.Fold as fold;
ghost use Rattle.nb_journal.specs.Lawful.{EachLine, due_of};
ghost use Rattle.nb_journal.specs.Steps.{IsKept, IsStep, state_in};
ghost use Rattle.nb_journal.specs.Keys.{has_key};

use nb_base::{Key, Line, Moment, Params};
use nb_journal::{Kept, is_key, is_loose, made_known};
use nud_machine::Acts;
use std::alloc::{AllocError, Global};

/// The state of a key behind lines that the machine can step over.
pub fn state_behind(
    alloc: Global,
    params: &Params,
    lines: &[Line],
    key: &Key,
) -> Result<Kept, AllocError>
    requires params { InRange params.now }
    requires steps { EachLine (IsStep params.now) lines.now }
    ensures kept { IfOk result (IsKept params.now) }
    ensures state { IfOk result (λ kept. state_in kept ≡ fold.state_of params.now lines.now key.now) }
{
    let mut kept = Kept::absent(alloc)?;
    let mut acts = Acts::new(alloc)?;
    for line in lines {
        kept.go_on(params, line, key, &mut acts);
    }
    Ok(kept)
}

/// Whether a key's entry is present behind the lines.
pub fn is_present(
    alloc: Global,
    params: &Params,
    lines: &[Line],
    key: &Key,
) -> Result<bool, AllocError>
    requires params { InRange params.now }
    requires steps { EachLine (IsStep params.now) lines.now }
    ensures { IfOk result (λ present. present ≡ fold.is_present params.now lines.now key.now) }
{
    let kept = state_behind(alloc, params, lines, key)?;
    Ok(kept.entry.present)
}

/// A key's due behind the lines.
pub fn due_behind(
    alloc: Global,
    params: &Params,
    lines: &[Line],
    key: &Key,
) -> Result<Option<Moment>, AllocError>
    requires params { InRange params.now }
    requires steps { EachLine (IsStep params.now) lines.now }
    ensures { IfOk result (λ due. due ≡ due_of params.now lines.now key.now) }
{
    let kept = state_behind(alloc, params, lines, key)?;
    Ok(kept.entry.due)
}

fn is_known(keys: &[Key], key: &Key) -> bool
    ensures { result ≡ has_key keys.now key.now }
{
    keys.iter().any(|other| is_key(other, key))
}

/// The key behind the others, unless it is there.
fn add_key(keys: &mut Vec<Key>, new: Option<Key>) -> Result<(), AllocError>
    ensures { OnOk result (keys.new.items ≡ fold.with_key keys.old.items new) }
{
    if let Some(key) = new
        && !is_known(keys, &key)
    {
        keys.push(key)?;
    }
    Ok(())
}

/// The keys that the lines make known, by rank.
pub fn keys_behind(alloc: Global, lines: &[Line]) -> Result<Vec<Key>, AllocError>
    ensures { IfOk result (λ keys. keys.items ≡ fold.known_keys lines.now) }
{
    let mut keys = Vec::new(alloc);
    for line in lines {
        add_key(&mut keys, made_known(&line.op))?;
    }
    Ok(keys)
}

/// The key's place among the keys, or their number where it isn't there.
pub fn place_among(keys: &[Key], key: &Key) -> usize
    ensures { result ≡ naming.place_among keys.now key.now }
{
    for (place, other) in keys.iter().enumerate() {
        if is_key(other, key) {
            return place;
        }
    }
    keys.len()
}

/// How many of the keys have a present entry behind the lines.
fn count_present(
    alloc: Global,
    params: &Params,
    lines: &[Line],
    keys: &[Key],
) -> Result<usize, AllocError>
    requires params { InRange params.now }
    requires steps { EachLine (IsStep params.now) lines.now }
    ensures { IfOk result (λ count. count ≡ length (filter (fold.is_present params.now lines.now) keys.now)) }
{
    let mut count = 0;
    for key in keys {
        if is_present(alloc, params, lines, key)? {
            count += 1;
        }
    }
    Ok(count)
}

/// How many entries are present behind the lines.
#[tactic(auto, unfolding(nb_journal::specs::Fold::present_count))]
pub fn present_count(alloc: Global, params: &Params, lines: &[Line]) -> Result<usize, AllocError>
    requires params { InRange params.now }
    requires steps { EachLine (IsStep params.now) lines.now }
    ensures { IfOk result (λ count. count ≡ fold.present_count params.now lines.now) }
{
    let keys = keys_behind(alloc, lines)?;
    count_present(alloc, params, lines, &keys)
}

/// How many of the keys have a present entry that is neither PERMANENT nor NOARP.
fn count_loose(
    alloc: Global,
    params: &Params,
    lines: &[Line],
    keys: &[Key],
) -> Result<usize, AllocError>
    requires params { InRange params.now }
    requires steps { EachLine (IsStep params.now) lines.now }
    ensures { IfOk result (λ count. count ≡ length (filter (λ key. fold.is_loose (fold.state_of params.now lines.now key)) keys.now)) }
{
    let mut count = 0;
    for key in keys {
        let kept = state_behind(alloc, params, lines, key)?;
        if is_loose(&kept) {
            count += 1;
        }
    }
    Ok(count)
}

/// How many present entries are neither PERMANENT nor NOARP.
pub fn loose_count(alloc: Global, params: &Params, lines: &[Line]) -> Result<usize, AllocError>
    requires params { InRange params.now }
    requires steps { EachLine (IsStep params.now) lines.now }
    ensures { IfOk result (λ count. count ≡ length (filter (λ key. fold.is_loose (fold.state_of params.now lines.now key)) (fold.known_keys lines.now))) }
{
    let keys = keys_behind(alloc, lines)?;
    count_loose(alloc, params, lines, &keys)
}
