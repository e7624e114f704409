//! The acts of one step.
ghost use Rattle.std.specs.Prelude.{◌≡◌, ◌<◌, ◌≤◌, [], ◌∷◌, ◌++◌, length, IfOk};

use crate::Act;
use std::alloc::{AllocError, Global};
use std::marker::Model;

/// The acts of one step in their order, at most 66. Contracts see the list.
#[derive(Debug, Drop)]
pub struct Acts {
    acts: Vec<Act>,
}

impl Model for Acts {
    ghost use Rattle.std.specs.Prelude.{◌≤◌, List, vec_len, vec_capacity};
    ghost use Rattle.nud_machine.specs.declared.act.Act.{Act};

    ghost Value = { List Act };

    ghost view = { λ a. a.acts.items };

    ghost invariant = { λ a. (66 ≤ vec_capacity a.acts) × (vec_len a.acts ≤ 66) };
}

impl Acts {
    /// The most acts of one step: a full queue of 64 packets, and two more.
    pub const MOST: usize = 66;

    /// No acts, with room for the most that a step has. Only this call takes memory.
    pub fn new(alloc: Global) -> Result<Acts, AllocError>
        ensures { IfOk result (λ acts. acts ≡ []) }
    {
        let acts = Vec::with_capacity(alloc, Acts::MOST)?;
        Ok(Acts { acts })
    }

    /// The acts in their order.
    pub fn as_slice(&self) -> &[Act]
        ensures acts { result.now ≡ self.now }
        ensures few { length result.now ≤ 66 }
    {
        self.acts.as_slice()
    }

    /// Takes all acts out. Takes no memory.
    pub fn clear(&mut self)
        ensures { self.new ≡ [] }
    {
        self.acts.clear();
    }

    /// Puts an act behind the others, of which there are fewer than 66. Takes no memory.
    pub fn push(&mut self, act: Act)
        requires { length self.old < 66 }
        ensures { self.new ≡ self.old ++ act ∷ [] }
    {
        match self.acts.push(act) {
            Ok(()) => {}
            Err(_) => unreachable!(),
        }
    }
}
