//! The first form of the cell of a cached header: one writer, and readers that wait for one another, over three words that are read and exchanged whole. No crate stands on it; tests hold `hh_cell` against it.
#![tactic(auto)]

mod cell;
mod rule;

pub use cell::{Cell, Pass, Writer};
