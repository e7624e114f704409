//! Numbers that are drawn one after the other.
ghost use Rattle.std.specs.Prelude.{◌≡◌, ◌≤◌};
ghost use Rattle.generated_input.specs.Draws.{next_state, drawn};
ghost use Rattle.generated_input.specs.Draws as of;

/// Knuth's multiplier for 64 bits, of MMIX.
const MULTIPLIER: u64 = 6_364_136_223_846_793_005;

/// Its increment.
const INCREMENT: u64 = 1_442_695_040_888_963_407;

/// How many neighbours there are.
const NEIGHBOURS: u64 = 200;

/// A linear congruential generator of 64 bits, of whose states the upper 31 bits are drawn.
#[derive(Clone, Copy, Debug, PartialEq, Eq)]
pub(crate) struct Draws {
    pub state: u64,
}

impl Draws {
    /// The next number.
    #[tactic(auto, using(crate::proofs::States::next_wrapped))]
    pub(crate) fn next(&mut self) -> u64
        ensures state { self.new.state ≡ next_state self.old.state }
        ensures value { result ≡ drawn (next_state self.old.state) }
    {
        self.state = self.state.wrapping_mul(MULTIPLIER).wrapping_add(INCREMENT);
        self.state / (1 << 33)
    }

    /// One of the neighbours, 1 to 200, by the next number.
    pub(crate) fn neighbour(&mut self) -> u8
        ensures state { self.new.state ≡ next_state self.old.state }
        ensures value { result ≡ of.neighbour (drawn (next_state self.old.state)) }
        ensures least { 1 ≤ result }
        ensures most { result ≤ 200 }
    {
        (self.next() % NEIGHBOURS + 1) as u8
    }
}
