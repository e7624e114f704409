//! The running cell of a cached header: one writer, and readers that never wait, over three atomic words.
#![tactic(auto)]

mod cell;
mod hold;
mod laws;
mod rule;
mod store;
mod tries;
mod view;

pub use cell::{Cell, Obtained, Pass, Writer};
pub use hold::Hold;
pub use laws::steps_of_the_lock;
pub use store::{OpenStepGate, StepGate};
pub use view::{Reading, View};
