//! What the lines of a bucket's journal say of counts: the number of present entries behind each line that changes it, and what the
//! lines saw that looked at the whole table. Definitions and laws, with no bucket.
#![tactic(auto)]

mod laws;

pub use laws::{calls_join, counts_grow_by_calls};
