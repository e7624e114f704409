//! What a capture holds.
use nb_base::{Bytes, Items, Moment};

/// A record of a capture: its moment, in milliseconds since the first record, and where its captured bytes lie within the file, as a first byte and a number of bytes.
#[derive(Clone, Copy, Debug, PartialEq, Eq)]
pub struct Rec {
    pub at: Moment,
    pub start: usize,
    pub len: usize,
}

/// The records of a file in its order.
pub type Capture = Items<Rec>;

/// A record with its captured bytes, as it is to be written.
#[derive(Debug, Drop)]
pub struct Frame {
    pub at: Moment,
    pub bytes: Bytes,
}
