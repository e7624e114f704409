//! A bucket's journal and the replies in it.
use crate::{Items, Moment, Op, OpId};

/// One line of a bucket's journal.
#[derive(Clone, Copy, Debug, PartialEq, Eq)]
pub struct Line {
    pub at: Moment,
    /// The operation's number, where it is a participant's.
    pub id: Option<OpId>,
    pub op: Op,
    /// How many entries of the whole table a sweep saw, or a line that was to make an entry.
    pub seen: Option<u32>,
    /// How many of those that it saw stood in the way of making an entry.
    pub full: Option<u32>,
}

/// What is answered to an operation.
#[derive(Clone, Copy, Debug, PartialEq, Eq)]
pub enum Reply {
    /// The packet was sent.
    Sent,
    /// The packet waits, and so many that waited longest were dropped for it.
    Waits { dropped: u32 },
    /// The packet was dropped, since no probe may be sent.
    NoProbes,
    /// The table has `seen` entries, and none was made.
    Full { seen: u32 },
    Done,
    Exists,
    Missing,
    NoAddress,
    Ignored,
    Counted(u32),
}

/// A bucket's lines, in their order.
pub type Journal = Items<Line>;

/// A journal for each bucket.
pub type Journals = Items<Journal>;

/// One number for each bucket.
pub type Lengths = Items<u32>;
