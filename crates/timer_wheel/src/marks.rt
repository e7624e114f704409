//! Which slots have a node: a bit for each, in a word for each level.
ghost use Rattle.std.specs.Prelude.{◌≡◌, ℕ, ◌<◌, replicate, IfOk};
ghost use Rattle.std.specs.Option.{MatchOption};
ghost use Rattle.timer_wheel.specs.Marked.{mark_of, Marks, IsFirst};

use std::alloc::{AllocError, Global};
use std::marker::Model;

/// A mark for each of 704 slots.
#[derive(Debug, Drop)]
pub struct SlotMarks {
    words: Vec<u64>,
}

impl Model for SlotMarks {
    ghost use Rattle.std.specs.Prelude.{◌≡◌, ℕ, List, vec_len};

    ghost Value = { List ℕ };

    ghost view = { λ m. m.words.items };

    ghost invariant = { λ m. vec_len m.words ≡ 11 };
}

impl SlotMarks {
    /// No slot is marked.
    pub fn new(alloc: Global) -> Result<SlotMarks, AllocError>
        ensures { IfOk result (λ m. m ≡ replicate 11 0) }
    {
        Ok(SlotMarks {
            words: vec![in alloc; 0; 11]?,
        })
    }

    /// Marks a slot.
    pub fn set(&mut self, slot: u32)
        requires { slot < 704 }
        ensures { Marks self.old self.new slot 1 }
    {
        let level = (slot / 64) as usize;
        self.words[level] |= 1 << (slot % 64);
    }

    /// Takes the mark off a slot.
    pub fn clear(&mut self, slot: u32)
        requires { slot < 704 }
        ensures { Marks self.old self.new slot 0 }
    {
        let level = (slot / 64) as usize;
        self.words[level] &= !(1 << (slot % 64));
    }

    /// The first slot that is marked.
    pub fn first(&self) -> Option<u32>
        ensures { MatchOption result ((slot : ℕ) → slot < 704 → mark_of self.now slot ≡ 0) (IsFirst self.now) }
    {
        for level in 0..11u32 {
            let word = self.words[level as usize];
            if word != 0 {
                return Some(64 * level + word.trailing_zeros());
            }
        }
        None
    }
}
