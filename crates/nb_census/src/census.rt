//! What a bucket asks of a counter of the present entries of all buckets.
ghost use Rattle.std.specs.Prelude.{◌≡◌, ℕ, ◌+◌, ◌-◌, ◌^◌, ◌<◌, ◌≤◌, List, length, Option, IfSome};
ghost use Rattle.change_order.specs.Ticks.{IsNext};
ghost use Rattle.nb_census.specs.Shown.{SeatName};

/// A counter of the present entries of all buckets, as one bucket has it. Each bucket has a share of the sum, and changes it; at a
/// look it learns the sum.
///
/// A change is a pair of a tick and the share behind it, a look a pair of a tick and a value. A tick is the number of changes that the
/// counter had before that step, of all buckets together. No call takes memory, and none waits.
pub trait Census {
    // Which seat of which headcount this is, where it is one. No call changes it.
    ghost name: { Self → Option SeatName };

    // The number of the bucket's present entries.
    ghost share: { Self → ℕ };

    ghost changes: { Self → List (ℕ × ℕ) };

    ghost looks: { Self → List (ℕ × ℕ) };

    // The sum of the other buckets' shares, where it is told; the sum of all is then told too. No call changes it.
    ghost others: { Self → Option ℕ };

    /// The share rises by `by`, which is one change.
    fn grow(&mut self, by: u32)
        requires some { 1 ≤ by }
        requires few { length (changes self.old) < 2 ^ 22 }
        requires room { share self.old + by ≤ 2 ^ 22 }
        ensures name { name self.new ≡ name self.old }
        ensures share { share self.new ≡ share self.old + by }
        ensures change { IsNext (changes self.old) (changes self.new) (changes self.old) (looks self.old) (share self.old + by) }
        ensures looks { looks self.new ≡ looks self.old }
        ensures others { others self.new ≡ others self.old };

    /// The share falls by `by`, which is one change.
    fn shrink(&mut self, by: u32)
        requires some { 1 ≤ by }
        requires few { length (changes self.old) < 2 ^ 22 }
        requires most { by ≤ share self.old }
        ensures name { name self.new ≡ name self.old }
        ensures share { share self.new ≡ share self.old - by }
        ensures change { IsNext (changes self.old) (changes self.new) (changes self.old) (looks self.old) (share self.old - by) }
        ensures looks { looks self.new ≡ looks self.old }
        ensures others { others self.new ≡ others self.old };

    /// The sum of all shares at this step: at least the bucket's own, and exactly the sum where it is told.
    fn look(&mut self) -> u32
        ensures name { name self.new ≡ name self.old }
        ensures share { share self.new ≡ share self.old }
        ensures changes { changes self.new ≡ changes self.old }
        ensures look { IsNext (looks self.old) (looks self.new) (changes self.old) (looks self.old) result }
        ensures others { others self.new ≡ others self.old }
        ensures least { share self.old ≤ result }
        ensures told { IfSome (others self.old) (λ n. result ≡ share self.old + n) };
}
