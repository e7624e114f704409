//! Calls that are to fail, by their numbers.
ghost use Rattle.std.specs.Prelude.{◌≡◌, ℕ, IfOk};
ghost use Rattle.nb_io.specs.Faults.{next_call, fails_at};

use std::alloc::{AllocError, Global};

/// The numbers of the calls that are to fail, counted from 1, and how many calls were made.
#[derive(Debug, Drop)]
pub struct FailingCalls {
    fails: Vec<u32>,
    made: u64,
}

impl FailingCalls {
    /// No call was made yet.
    pub fn new(alloc: Global, fails: &[u32]) -> Result<FailingCalls, AllocError>
        ensures fails { IfOk result (λ calls. calls.fails.items ≡ fails.now) }
        ensures made { IfOk result (λ calls. calls.made ≡ 0) }
    {
        Ok(FailingCalls {
            fails: Vec::from_slice(alloc, fails)?,
            made: 0,
        })
    }

    /// Counts one more call, and tells whether it is to fail.
    pub fn fails_next(&mut self) -> bool
        ensures value { result ≡ fails_at self.old.fails.items (next_call self.old.made) }
        ensures made { self.new.made ≡ next_call self.old.made }
        ensures fails { self.new.fails.items ≡ self.old.fails.items }
    {
        self.made = self.made.saturating_add(1);
        let call = self.made;
        self.fails.iter().any(|fail| u64::from(*fail) == call)
    }
}
