//! What a line changes of what is shown of the keys.
ghost use Rattle.std.specs.Prelude.{◌≡◌, ◌<◌, ◌++◌, length, map, IfOk, OnOk, IsTrue, vec_len, vec_capacity};
ghost use Rattle.std.specs.List.{AllByRecursion};
ghost use Rattle.nb_journal.specs.Keys.{may_be_asked};
ghost use Rattle.nb_journal.specs.Steps.{IsKept, state_in};
ghost use Rattle.journal_fold.specs.Touched as spec;
ghost use Rattle.journal_fold.specs.Removing as removing;

use nb_base::{Items, Key, Line, Mac, Nud, Params};
use nb_journal::{Effect, Kept, effect_of};
use nud_machine::same_mac;
use std::alloc::{AllocError, Global};

/// What is shown of a present entry.
#[derive(Clone, Copy, Debug, PartialEq, Eq)]
pub struct Shown {
    /// The link address, where it is known.
    pub mac: Option<Mac>,
    pub nud: Nud,
    pub router: bool,
}

/// A key, with what is shown of it now: nothing where its entry was removed.
#[derive(Clone, Copy, Debug, PartialEq, Eq)]
pub struct Touch {
    pub key: Key,
    pub shown: Option<Shown>,
}

/// The keys of which a line changes what is shown, by rank.
pub type Touched = Items<Touch>;

/// What is shown of an entry.
pub fn shown_of(kept: &Kept) -> Option<Shown>
    ensures { result ≡ spec.shown_of (state_in kept.now) }
{
    let entry = kept.entry;
    if entry.present {
        Some(Shown {
            mac: entry.mac,
            nud: entry.nud,
            router: entry.router,
        })
    } else {
        None
    }
}

fn same_shown(a: Option<Shown>, b: Option<Shown>) -> bool
    ensures { result ≡ spec.same_shown a b }
{
    match (a, b) {
        (None, None) => true,
        (Some(a), Some(b)) => {
            same_mac(a.mac, b.mac) && a.nud.bits() == b.nud.bits() && a.router == b.router
        }
        _ => false,
    }
}

/// Puts the key with what is shown of it now behind the others, where that changed. There is room for it.
pub fn put_touch(touched: &mut Vec<Touch>, key: &Key, before: Option<Shown>, now: Option<Shown>)
    requires { vec_len touched.old < vec_capacity touched.old }
    ensures { touched.new.items ≡ touched.old.items ++ spec.touch_of key.now before now }
{
    if same_shown(before, now) {
        return;
    }
    let one = Touch {
        key: *key,
        shown: now,
    };
    match touched.push(one) {
        Ok(()) => {}
        Err(_) => unreachable!(),
    }
}

/// Puts the key behind the others, where the line removes its entry.
fn push_gone(
    touched: &mut Vec<Touch>,
    params: &Params,
    line: &Line,
    key: &Key,
    kept: &Kept,
) -> Result<(), AllocError>
    requires asked { IsTrue (may_be_asked line.now.op) }
    requires kept { IsKept params.now kept.now }
    ensures { OnOk result (touched.new.items ≡ touched.old.items ++ removing.gone params.now line.now key.now (state_in kept.now)) }
{
    if let Effect::Brings(_) = effect_of(params, line, kept) {
        touched.push(Touch {
            key: *key,
            shown: None,
        })?;
    }
    Ok(())
}

/// The keys whose entries a line removes that names none, by rank.
pub fn gone(
    alloc: Global,
    params: &Params,
    line: &Line,
    keys: &[Key],
    kept: &[Kept],
) -> Result<Vec<Touch>, AllocError>
    requires asked { IsTrue (may_be_asked line.now.op) }
    requires both { length kept.now ≡ length keys.now }
    requires each { AllByRecursion (IsKept params.now) kept.now }
    ensures { IfOk result (λ touched. touched.items ≡ removing.gone_rows params.now line.now keys.now (map state_in kept.now)) }
{
    let mut touched = Vec::new(alloc);
    for rank in 0..keys.len() {
        push_gone(&mut touched, params, line, &keys[rank], &kept[rank])?;
    }
    Ok(touched)
}
