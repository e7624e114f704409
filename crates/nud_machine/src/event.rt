use nb_base::{Mac, Nud, OpId};

/// What happens to a present entry.
#[derive(Clone, Copy, Debug, PartialEq, Eq)]
pub enum Event {
    /// A packet is to be sent, which counts for so many bytes where it waits.
    Send {
        id: OpId,
        size: u32,
    },
    /// An ARP packet of the neighbour was heard; a reply to the host is solicited.
    Arp {
        mac: Mac,
        solicited: bool,
    },
    /// A solicitation of the neighbour was heard, with its link address.
    Ns {
        mac: Mac,
    },
    /// An advertisement was heard, with its three flags.
    Na {
        mac: Option<Mac>,
        router: bool,
        solicited: bool,
        overrides: bool,
    },
    /// The entry is set by hand.
    Admin {
        mac: Option<Mac>,
        nud: Nud,
    },
    /// An upper layer heard from the neighbour.
    Confirm,
    /// The timer fires, at the entry's due.
    Timer,
    /// The entry is removed.
    Remove,
}
