//! Doubly linked lists of numbered nodes, by index over one vector.
#![tactic(auto)]

mod links;
mod places;

pub use links::Links;
