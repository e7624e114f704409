//! The table of one thread: its buckets, called one after the other, each of whose lines sees the whole table.
#![tactic(auto)]

mod answer;
pub mod laws;
mod table;

pub use answer::Answer;
pub use table::PlainTable;
