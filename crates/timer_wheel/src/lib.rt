//! Timers of numbered nodes, in a wheel of eleven levels of 64 slots.
//!
//! Each level stands for a digit of base 64. A node stands at the highest digit in which its due differs from the present moment, in the
//! slot of its due's digit there, so the least due is in the first slot that has a node. The least is kept at hand, and looked for there only
//! where its own node is armed again or taken off.
#![tactic(auto)]

mod armed;
mod marks;
mod slots;
mod wheel;

pub use wheel::Wheel;
