//! Moments and the numbers of operations.
ghost use Rattle.std.specs.Prelude.{◌≡◌, ◌+◌, ◌*◌, ◌<◌, ◌^◌, Some, decimal};
ghost use Rattle.nb_base.specs.Ids.{op_id};

use std::fmt;
use std::marker::Model;

/// Milliseconds since the first record. Contracts see the number.
#[derive(Clone, Copy, Debug, PartialEq, Eq, PartialOrd, Ord)]
pub struct Moment(pub u64);

impl Model for Moment {
    ghost use Rattle.std.specs.Prelude.{ℕ};

    ghost Value = { ℕ };

    ghost view = { λ m. m.0 };

    ghost inverse = { λ n. record { 0 = n } };
}

impl Moment {
    /// The last moment of a run: 30 days.
    pub const GREATEST: u64 = 2_592_000_000;

    /// The number of milliseconds.
    pub fn millis(self) -> u64
        ensures { result ≡ self }
    {
        self.0
    }

    /// The moment so many milliseconds later.
    pub fn after(self, millis: u32) -> Moment
        requires { self + millis < 2 ^ 64 }
        ensures { result ≡ self + millis }
    {
        Moment(self.0 + u64::from(millis))
    }
}

/// The number of milliseconds in decimal.
impl fmt::Display for Moment {
    ghost output = { λ m. Some (decimal m) };

    fn fmt<W: fmt::Write>(&self, f: &mut fmt::Formatter<W>) -> fmt::Result {
        let millis = self.0;
        write!(f, "{millis}")
    }
}

/// An operation's number: `32 * n + p` for item `n`, from 1 on, of participant `p`, 0 to 16.
#[derive(Clone, Copy, Debug, PartialEq, Eq)]
pub struct OpId(pub u64);

impl OpId {
    /// The number of an item, counted from 1, of a participant.
    pub fn new(item: u64, participant: u32) -> OpId
        requires { 32 * item + participant < 2 ^ 64 }
        ensures { result ≡ op_id item participant }
    {
        OpId(32 * item + u64::from(participant))
    }
}

/// The number in decimal.
impl fmt::Display for OpId {
    ghost output = { λ id. Some (decimal id.0) };

    fn fmt<W: fmt::Write>(&self, f: &mut fmt::Formatter<W>) -> fmt::Result {
        let number = self.0;
        write!(f, "{number}")
    }
}
