//! What became of a sender's packets.
use crate::{Items, Reply};

/// Why a packet went by the bucket's lock.
#[derive(Clone, Copy, Debug, PartialEq, Eq)]
pub enum Why {
    /// Every packet of an inline run does.
    Inline,
    /// The sender has sent nothing to this key yet.
    First,
    /// The header that was read isn't usable.
    Suspect { number: u64 },
    /// No try read a whole header. Each try has its two numbers.
    Again { tries: [(u64, u64); 4] },
}

/// A packet's outcome.
#[derive(Clone, Copy, Debug, PartialEq, Eq)]
pub enum Outcome {
    /// It went out behind the header with this number, without the bucket's lock.
    Fast { number: u64, header: [u8; 14] },
    /// It is the line at this place of its bucket's journal.
    Slow { why: Why, place: u32, reply: Reply },
}

/// A sender's outcomes, in the order of its packets.
pub type Log = Items<Outcome>;
