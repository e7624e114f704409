//! The outside: inputs by name, sinks and gates, each with a count of its faults.
#![tactic(auto)]

mod failing;
mod files;
mod gate;
mod inputs;
mod memory;
mod memory_sink;
mod out;
mod sink;

pub use files::FileInputs;
pub use gate::{Gate, OpenGate};
pub use inputs::{Inputs, ReadFail, read_all};
pub use memory::{MemoryFile, MemoryInputs};
pub use memory_sink::MemorySink;
pub use out::OutSink;
pub use sink::{Sink, WriteFault, write_all};

/// A call that the outside refused.
#[derive(Clone, Copy, Debug, PartialEq, Eq)]
pub struct Failed;
