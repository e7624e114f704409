//! What one bucket did to a counter. No value of this is ever made: it stands in contracts and proofs alone.
use std::collections::LinkedList;

/// One bucket's part: its number, its changes, each a tick and the share behind it, and its looks, each a tick and a value.
pub struct Part {
    pub bucket: u64,
    pub changes: LinkedList<(u64, u64)>,
    pub looks: LinkedList<(u64, u64)>,
}
