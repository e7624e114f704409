//! A reader's hold of a cell.
ghost use Rattle.std.specs.Prelude.{◌≡◌};
ghost use Rattle.std.specs.Arc.{arc_value};
ghost use Rattle.std.specs.List.Sorted.{IsNonDecreasing};
ghost use Rattle.hh_core.specs.Safe.{both_numbers};
ghost use Rattle.hh_cell.specs.Obtaining.{Obtains};

use crate::cell::{Cell, Obtained, Pass};
use std::alloc::Global;
use std::sync::Arc;

/// A cell with a pass of it.
#[derive(Drop)]
pub struct Hold {
    pub cell: Arc<Cell, Global>,
    pub pass: Pass,
    ghost same: { pass.cell ≡ arc_value cell },
}

impl Hold {
    /// Reads the record, by at most four tries. The numbers of all the pass's tries, in order, never
    /// fall. Takes no memory, and never waits.
    pub fn obtain(&mut self) -> Obtained
        ensures obtains { Obtains self.old.pass self.new.pass result }
        ensures rises { IsNonDecreasing (both_numbers self.new.pass.seen.tries) }
        ensures cell { self.new.cell ≡ self.old.cell }
    {
        let Hold { cell, pass } = self;
        cell.obtain(pass)
    }
}
