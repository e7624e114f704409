//! What the host did at each item of participant 0, and the marks of a run in threads mode.
use crate::{Bytes, Items, Lengths, Moment, Reply};

/// How a captured frame was read.
#[derive(Clone, Copy, Debug, PartialEq, Eq)]
pub enum Class {
    /// Under 14 bytes.
    Short,
    /// Sent by the host itself.
    Own,
    /// To neither the host nor a group.
    Foreign,
    /// Of ARP's type, and no ARP packet.
    BadArp,
    Arp,
    /// A neighbour discovery message that fails the check of this number, 1 to 9.
    NdBad(u8),
    Nd,
    Other,
}

/// A bucket, a place in its journal, and the reply there.
#[derive(Clone, Copy, Debug, PartialEq, Eq)]
pub struct Placed {
    pub bucket: u32,
    pub place: u32,
    pub reply: Reply,
}

/// A line of the host's journal. `n` is the item's number.
#[derive(Debug, Drop)]
pub enum HostLine {
    /// `queued` is true where a proxy request was queued, and false where the queue was full.
    Frame {
        n: u32,
        at: Moment,
        class: Class,
        queued: Option<bool>,
        tx: Option<Bytes>,
        op: Option<Placed>,
    },
    Neigh {
        n: u32,
        at: Moment,
        ops: Items<Placed>,
    },
    Proxy {
        n: u32,
        at: Moment,
        reply: Reply,
    },
    Answer {
        due: Moment,
        frame: Bytes,
    },
}

/// The lengths of the journals before a window, which begins at `start`, or at the end.
#[derive(Debug, Drop)]
pub struct Mark {
    pub start: Option<Moment>,
    pub lengths: Lengths,
}
