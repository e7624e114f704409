//! What is heard or given of an address, and the rule that decides what it does.
ghost use Rattle.std.specs.Prelude.{◌≡◌, ◌≤◌, Some};
ghost use Rattle.nb_base.specs.declared.nud.Nud.TheVariants.{Stale};
ghost use Rattle.nb_base.specs.Params.{InRange};
ghost use Rattle.nud_machine.specs.Asked.{greatest};
ghost use Rattle.nud_machine.specs.Kept.{manner_of, news_of, rule_named};
ghost use Rattle.nud_machine.specs.State as state;
ghost use Rattle.nud_machine.specs.Step as spec;
ghost use Rattle.nud_machine.specs.Update as spec_update;

use crate::Entry;
use nb_base::{Mac, Moment, Nud, Params};

/// An address that was heard or given, the state that it brings, and how it is meant.
#[derive(Clone, Copy, Debug, PartialEq, Eq)]
pub struct News {
    pub mac: Option<Mac>,
    pub nud: Nud,
    /// It may replace another address.
    pub overrides: bool,
    /// Where it may not, a connected entry becomes STALE.
    pub weak: bool,
    /// It is set by hand.
    pub admin: bool,
}

/// The rules of an update, in their order: the first that applies decides.
#[derive(Clone, Copy, Debug, PartialEq, Eq)]
pub enum Rule {
    /// The entry was set by hand and the news weren't.
    SetByHand,
    /// There is no address at all.
    NoAddress,
    /// The address is another one, and may not replace the entry's.
    MayNotReplace,
    /// The address is the entry's, and the state isn't bettered.
    NothingNew,
    IsTaken,
}

/// Whether both are one address, or neither is any. Takes no memory.
pub fn same_mac(a: Option<Mac>, b: Option<Mac>) -> bool
    ensures { result ≡ state.same_mac a b }
{
    match (a, b) {
        (None, None) => true,
        (Some(a), Some(b)) => a.0 == b.0,
        _ => false,
    }
}

pub fn same_nud(a: Nud, b: Nud) -> bool
    ensures { result ≡ state.same_nud a b }
{
    a.bits() == b.bits()
}

/// Whether an entry in the state is changed by hand alone: PERMANENT or NOARP. Takes no memory.
pub fn is_fixed(nud: Nud) -> bool
    ensures { result ≡ spec_update.is_fixed nud }
{
    matches!(nud, Nud::Permanent | Nud::Noarp)
}

fn differs(given: Option<Mac>, own: Option<Mac>) -> bool
    ensures { result ≡ spec_update.differs given own }
{
    given.is_some() && !same_mac(given, own)
}

/// The state that what was heard brings.
fn heard_as(solicited: bool) -> Nud
    ensures { result ≡ spec.heard_as solicited }
{
    if solicited {
        Nud::Reachable
    } else {
        Nud::Stale
    }
}

impl News {
    /// An ARP packet, which may replace an address once the lock time since the last change has passed.
    pub fn arp(entry: &Entry, params: &Params, at: Moment, mac: Mac, solicited: bool) -> News
        requires params { InRange params.now }
        requires updated { entry.now.updated ≤ greatest }
        ensures { result ≡ news_of (Some mac) (spec.heard_as solicited) (spec.arp_manner params.now at entry.now) }
    {
        News {
            mac: Some(mac),
            nud: heard_as(solicited),
            overrides: at > entry.updated.after(params.locktime),
            weak: false,
            admin: false,
        }
    }

    /// A solicitation of the neighbour.
    pub fn ns(mac: Mac) -> News
        ensures { result ≡ news_of (Some mac) Stale spec.ns_manner }
    {
        News {
            mac: Some(mac),
            nud: Nud::Stale,
            overrides: true,
            weak: false,
            admin: false,
        }
    }

    /// An advertisement.
    pub fn na(mac: Option<Mac>, solicited: bool, overrides: bool) -> News
        ensures { result ≡ news_of mac (spec.heard_as solicited) (spec.na_manner overrides) }
    {
        News {
            mac,
            nud: heard_as(solicited),
            overrides,
            weak: true,
            admin: false,
        }
    }

    /// Set by hand.
    pub fn admin(mac: Option<Mac>, nud: Nud) -> News
        ensures { result ≡ news_of mac nud spec.admin_manner }
    {
        News {
            mac,
            nud,
            overrides: true,
            weak: false,
            admin: true,
        }
    }

    /// The first rule that applies.
    pub fn rule_for(&self, entry: &Entry) -> Rule
        ensures { rule_named result ≡ spec_update.rule_for entry.now self.now.mac self.now.nud (manner_of self.now) }
    {
        let is_valid = entry.nud.is_valid();
        let differs = differs(self.mac, entry.mac);
        if is_fixed(entry.nud) && !self.admin {
            Rule::SetByHand
        } else if self.mac.is_none() && !is_valid {
            Rule::NoAddress
        } else if is_valid && differs && !self.overrides {
            Rule::MayNotReplace
        } else if is_valid && !differs && same_nud(self.nud, Nud::Stale) && !self.admin {
            Rule::NothingNew
        } else {
            Rule::IsTaken
        }
    }

    /// The address given, or else the entry's own.
    pub fn meant(&self, entry: &Entry) -> Option<Mac>
        ensures { result ≡ spec_update.meant self.now.mac entry.now.mac }
    {
        match self.mac {
            None => entry.mac,
            Some(mac) => Some(mac),
        }
    }
}
