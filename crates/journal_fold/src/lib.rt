//! The fold over a journal: the keys that its lines make known, each with its entry and the packets that wait, line by line.
#![tactic(auto)]

mod counts;
mod fold;
mod hearing;
mod known;
mod steps;
mod touched;
mod verdict;

pub use fold::Fold;
pub use touched::{Shown, Touch, Touched};
