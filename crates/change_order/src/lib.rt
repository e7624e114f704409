//! One order of the changes of many counters, in which each look has its place: definitions and laws, with no counter.
//!
//! Each bucket of a table counts its entries. Where each change and each look of a bucket has a tick, the number of all buckets'
//! changes before it, the looks of all buckets fit one order of all changes.
#![tactic(auto)]

mod laws;
mod part;

pub use laws::{calls_give_one_order, counts_give_one_order, journals_grow_line_by_line};
pub use part::Part;
