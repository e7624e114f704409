//! What is asked of a bucket.
use crate::{Key, Mac, Nud};

/// An operation. `Timer`, `Sweep` and `Collect` are a bucket's own; every other one is entered by a participant.
#[derive(Clone, Copy, Debug, PartialEq, Eq)]
pub enum Op {
    /// A packet to the key, with the length of its payload in bytes.
    Send {
        key: Key,
        len: u32,
    },
    /// An ARP packet that was heard (RFC 826). `make` holds for a request for the host's address, `solicited` for a reply to the host.
    Arp {
        key: Key,
        mac: Mac,
        make: bool,
        solicited: bool,
    },
    /// A neighbour solicitation that was heard (RFC 4861 section 7.2.3).
    Ns {
        key: Key,
        mac: Mac,
    },
    /// A neighbour advertisement that was heard (RFC 4861 section 7.2.5).
    Na {
        key: Key,
        mac: Option<Mac>,
        router: bool,
        solicited: bool,
        overrides: bool,
    },
    /// `ip neigh add`
    Add {
        key: Key,
        mac: Option<Mac>,
        nud: Nud,
    },
    /// `ip neigh change`
    Change {
        key: Key,
        mac: Option<Mac>,
        nud: Nud,
    },
    /// `ip neigh replace`
    Replace {
        key: Key,
        mac: Option<Mac>,
        nud: Nud,
    },
    /// `ip neigh del`
    Del {
        key: Key,
    },
    /// A confirmation by an upper layer (RFC 4861 section 7.3.1).
    Confirm {
        key: Key,
    },
    /// `ip neigh show`
    Show,
    /// `ip neigh flush`
    Flush,
    /// The key's timer fires.
    Timer {
        key: Key,
    },
    /// The periodic removal of entries that have long been unused.
    Sweep,
    /// The forced removal of one entry.
    Collect {
        key: Key,
    },
}
