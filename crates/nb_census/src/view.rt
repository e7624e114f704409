//! What a token of a headcount knows. No value of this is ever made: it stands in contracts and proofs alone.
use change_order::Part;
use std::collections::LinkedList;

/// What a token knows: the maker's token how many seats it has made, and each token the parts that it has.
pub struct View {
    pub made: Option<u64>,
    pub parts: LinkedList<Part>,
}
