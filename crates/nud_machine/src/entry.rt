//! A neighbour's entry.
ghost use Rattle.std.specs.Prelude.{◌≡◌};
ghost use Rattle.nud_machine.specs.State.{absent_entry, made_entry, entry_failed, IsSoundEntry};

use nb_base::{Mac, Moment, Nud};

/// A neighbour's entry, apart from the packets that wait for it.
#[derive(Clone, Copy, Debug, PartialEq, Eq)]
pub struct Entry {
    pub present: bool,
    pub nud: Nud,
    /// The link address, where it is known.
    pub mac: Option<Mac>,
    /// When the neighbour was last known to be reachable.
    pub confirmed: Option<Moment>,
    /// When the state or the address last changed.
    pub updated: Moment,
    /// When a packet was last sent to it.
    pub used: Moment,
    /// How many probes were sent in this state.
    pub probes: u32,
    /// When the timer fires.
    pub due: Option<Moment>,
    /// Whether the neighbour said that it is a router.
    pub router: bool,
}

impl Entry {
    /// No entry.
    pub fn absent() -> Entry
        ensures value { result ≡ absent_entry }
        ensures sound { IsSoundEntry result }
    {
        Entry {
            present: false,
            nud: Nud::None,
            mac: None,
            confirmed: None,
            updated: Moment(0),
            used: Moment(0),
            probes: 0,
            due: None,
            router: false,
        }
    }

    /// An entry that is made at this moment, before anything happens to it.
    pub fn made(at: Moment) -> Entry
        ensures value { result ≡ made_entry at }
        ensures sound { IsSoundEntry result }
    {
        Entry {
            present: true,
            updated: at,
            used: at,
            ..Entry::absent()
        }
    }

    /// The entry enters FAILED without address and due.
    pub(crate) fn fail(&mut self)
        ensures { self.new ≡ entry_failed self.old }
    {
        self.nud = Nud::Failed;
        self.mac = None;
        self.due = None;
    }
}
