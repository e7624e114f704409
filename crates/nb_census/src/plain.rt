//! A census that one bucket has alone, where one bucket is called at a time.
ghost use Rattle.std.specs.Prelude.{◌≡◌, ◌+◌, ◌-◌, ◌^◌, ◌<◌, ◌≤◌, ◌++◌, [], ◌∷◌, length};

use crate::census::Census;
use crate::proof_pairs::ProofPairs;
use std::marker::Model;

/// A census that tells what the other buckets hold, and so the sum. It is made for one call of one bucket, and its ticks count its own
/// changes.
#[derive(Drop)]
pub struct PlainCensus {
    share: u32,
    total: u32,
    made: u32,
    changes: ProofPairs<u64, u64>,
    looks: ProofPairs<u64, u64>,
}

impl Model for PlainCensus {
    ghost use Rattle.nb_census.specs.Shown.{PlainShown};

    ghost Value = { PlainShown };

    ghost use Rattle.nb_census.specs.Plain.{plain_shown, IsPlain};

    ghost view = { plain_shown };

    ghost invariant = { IsPlain };
}

impl PlainCensus {
    /// A census of a bucket's share in this total, with no change and no look.
    pub fn new(share: u32, total: u32) -> PlainCensus
        requires share { share ≤ 2 ^ 22 }
        requires within { share ≤ total }
        requires others { total ≤ share + 2 ^ 28 }
        ensures { result ≡ record { share = share; others = total - share; changes = []; looks = [] } }
    {
        PlainCensus {
            share,
            total,
            made: 0,
            changes: ProofPairs::new(),
            looks: ProofPairs::new(),
        }
    }

    /// One more change, behind which the share is what it is now.
    fn note_change(&mut self)
        requires { length self.old.changes < 2 ^ 22 }
        ensures { self.new ≡ record self.old { changes = self.old.changes ++ (length self.old.changes, self.old.share) ∷ [] } }
    {
        let tick = u64::from(self.made);
        let behind = u64::from(self.share);
        self.changes = self.changes.and(&tick, &behind);
        self.made += 1;
    }
}

impl Census for PlainCensus {
    ghost use Rattle.std.specs.Prelude.{◌≡◌, ◌+◌, ◌-◌, ◌^◌, ◌<◌, ◌≤◌, ◌++◌, [], ◌∷◌, length, None, Some, IfSome};
    ghost use Rattle.change_order.specs.Ticks.{IsNext};

    ghost name = { λ _. None };

    ghost share = { λ s. s.share };

    ghost changes = { λ s. s.changes };

    ghost looks = { λ s. s.looks };

    ghost others = { λ s. Some s.others };

    fn grow(&mut self, by: u32)
        requires some { 1 ≤ by }
        requires few { length self.old.changes < 2 ^ 22 }
        requires room { self.old.share + by ≤ 2 ^ 22 }
        ensures exactly { self.new ≡ record self.old { share = self.old.share + by; changes = self.old.changes ++ (length self.old.changes, self.old.share + by) ∷ [] } }
        ensures change { IsNext self.old.changes self.new.changes self.old.changes self.old.looks (self.old.share + by) }
    {
        self.share += by;
        self.total += by;
        self.note_change();
    }

    fn shrink(&mut self, by: u32)
        requires some { 1 ≤ by }
        requires few { length self.old.changes < 2 ^ 22 }
        requires most { by ≤ self.old.share }
        ensures exactly { self.new ≡ record self.old { share = self.old.share - by; changes = self.old.changes ++ (length self.old.changes, self.old.share - by) ∷ [] } }
        ensures change { IsNext self.old.changes self.new.changes self.old.changes self.old.looks (self.old.share - by) }
    {
        self.share -= by;
        self.total -= by;
        self.note_change();
    }

    fn look(&mut self) -> u32
        ensures exactly { self.new ≡ record self.old { looks = self.old.looks ++ (length self.old.changes, result) ∷ [] } }
        ensures look { IsNext self.old.looks self.new.looks self.old.changes self.old.looks result }
        ensures sum { result ≡ self.old.share + self.old.others }
    {
        let now = u64::from(self.made);
        let value = u64::from(self.total);
        self.looks = self.looks.and(&now, &value);
        self.total
    }
}
