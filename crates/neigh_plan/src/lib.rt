//! The plan of a script and a capture: each participant's items, their operations in the order in which one thread enters them, and how many
//! lines these can come to.
#![tactic(auto)]

mod bound;
mod merging;
mod planning;

pub use bound::line_bound;
pub use merging::merged_lines;
pub use planning::plan;
