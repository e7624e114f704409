//! A reader: where its try stands, and what it has seen.
ghost use Rattle.std.specs.Prelude.{◌≡◌, ◌+◌, ℕ, OnOk};
ghost use Rattle.hh_core.specs.Step.{ends_try};

use std::alloc::AllocError;

/// What a reader has loaded of a try.
#[derive(Clone, Copy, Debug, PartialEq, Eq)]
pub enum ReaderPhase {
    /// Nothing: it rests.
    Rest,
    /// The number.
    HasFirst(u64),
    /// The number and the first word.
    HasA(u64, u64),
    /// The number and both words.
    HasB(u64, u64, u64),
}

/// The two numbers that a try has loaded. It is good where the first is even and the second equals it.
pub type Try = (u64, u64);

/// A published pair behind its number, as a good try has read it.
pub type Known = (u64, (u64, u64));

/// A reader of the lock.
#[derive(Debug, Drop)]
pub struct Reader {
    pub phase: ReaderPhase,
    pub known: Vec<Known>,
    pub floor: u64,
    pub tries: Vec<Try>,
}

impl Reader {
    ghost use Rattle.hh_core.specs.Shown.{reader_state, HasRoom};
    ghost use Rattle.hh_core.specs.declared.reader.ReaderPhase.TheVariants.{HasB};

    /// The try that has these in hand ends with the second load of the number.
    pub fn end_try(&mut self, first: u64, words: (u64, u64), second: u64)
        requires { HasRoom 1 self.old }
        ensures ended { reader_state self.new ≡ ends_try second (HasB first words.0 words.1) (reader_state self.old) }
        ensures room { (n : ℕ) → HasRoom (n + 1) self.old → HasRoom n self.new }
    {
        self.phase = ReaderPhase::Rest;
        self.tries.push_reserved((first, second));
        if first % 2 == 0 && second == first {
            self.known.push_reserved((first / 2, words));
            self.floor = first / 2;
        }
    }

    /// Makes room for so many further tries. Without memory the room that there was stays.
    pub fn reserve(&mut self, more: usize) -> Result<(), AllocError>
        ensures same { reader_state self.new ≡ reader_state self.old }
        ensures room { OnOk result (HasRoom more self.new) }
        ensures kept { (n : ℕ) → HasRoom n self.old → HasRoom n self.new }
    {
        self.known.reserve(more)?;
        self.tries.reserve(more)?;
        Ok(())
    }
}
