//! One bucket of a neighbour table: its journal, kept lawful, with the entries that the journal leaves. Its calls count at a census
//! of all buckets' entries.
#![tactic(auto)]

mod bucket;
mod counting;
mod fail;
mod order;
mod passing;
mod room;
mod timers;
mod writing;

pub use bucket::Bucket;
pub use fail::BucketFail;
pub use nb_journal::MOST_LINES;
