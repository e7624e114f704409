//! What a run is to do.
use crate::{Host, Items, Key, Moment, Op, Params};

/// A list of bytes.
pub type Bytes = Items<u8>;

/// How a run goes: by one thread, or by one for each participant.
#[derive(Clone, Copy, Debug, PartialEq, Eq)]
pub enum Mode {
    Inline,
    Threads,
}

/// An item of participant 0: a captured frame, or a line of the script.
#[derive(Debug, Drop)]
pub enum ControlItem {
    Frame { at: Moment, bytes: Bytes },
    Neigh { at: Moment, op: Op },
    Proxy { at: Moment, key: Key, add: bool },
}

/// A packet of a sender.
#[derive(Debug, Drop)]
pub struct SendItem {
    pub at: Moment,
    pub key: Key,
    pub payload: Bytes,
}

/// The items of each participant, each list by moment. Senders are counted from 1, and so are the items of a list.
/// The window is in milliseconds.
#[derive(Debug, Drop)]
pub struct Plan {
    pub host: Host,
    pub params: Params,
    pub buckets: u32,
    pub window: u32,
    pub control: Items<ControlItem>,
    pub senders: Items<Items<SendItem>>,
}
