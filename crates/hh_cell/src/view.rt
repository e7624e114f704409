//! What a token of a cell knows. No value of these is ever made: they stand in proofs alone.
use hh_core::{Known, ReaderPhase, Try, WriterPhase};
use std::collections::LinkedList;

/// A reader as its token knows it.
pub struct Reading {
    pub number: u64,
    pub phase: ReaderPhase,
    pub known: LinkedList<Known>,
    pub floor: u64,
    pub tries: LinkedList<Try>,
}

/// What a token knows: the writer's what was published, how far a publication is, and how many readers there are; and the reader that it is, or the one that was given up to the writer.
pub struct View {
    pub writes: bool,
    pub published: LinkedList<(u64, u64)>,
    pub phase: WriterPhase,
    pub readers: u64,
    pub reader: Option<Reading>,
}
