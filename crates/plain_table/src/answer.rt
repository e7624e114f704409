//! What a bucket answers.
use nb_base::{Moment, OpId, Placed};

/// What was answered to an operation: its number and its moment, its bucket, its place in that bucket's journal, and the reply.
#[derive(Clone, Copy, Debug, PartialEq, Eq)]
pub struct Answer {
    pub id: OpId,
    pub at: Moment,
    pub placed: Placed,
}
