//! A headcount over all buckets, with a seat for each.
ghost use Rattle.std.specs.Prelude.{◌≡◌, ◌+◌, ◌<◌, ◌≤◌, List, map, IfOk};
ghost use Rattle.std.specs.List.{AllZip};
ghost use Rattle.change_order.specs.Ticks.{share_of};
ghost use Rattle.change_order.specs.Counted.{AreCounted};
ghost use Rattle.change_order.specs.Orders.{JournalCounts, HasCounts, HaveOneOrder};
ghost use Rattle.nb_census.specs.Shown.{fresh_seat, fresh_seats, part_of_seat, AreSeatsOf};

use crate::census::Census;
use crate::view::View;
use crate::word::Word;
use atomic_table::Seat;
use std::alloc::{AllocError, Global};
use std::marker::Model;
use std::sync::Arc;

/// One bucket's seat at a headcount. It counts in the headcount's one word, each change and each look in one atomic step.
#[derive(Drop)]
pub struct SeatCensus {
    word: Arc<Word, Global>,
    seat: Seat<(), View>,
}

impl Model for SeatCensus {
    ghost use Rattle.nb_census.specs.Shown.{SeatShown};

    ghost Value = { SeatShown };

    ghost use Rattle.nb_census.specs.Tokens.{seat_shown, IsSeatToken};

    ghost view = { seat_shown };

    ghost invariant = { IsSeatToken };
}

/// The seats of all buckets, in order of number.
pub type Seats = Vec<SeatCensus>;

/// A counter of the present entries of all buckets, in one word. It gathers the seats at the end.
#[derive(Drop)]
pub struct Headcount {
    word: Arc<Word, Global>,
    seat: Seat<(), View>,
}

impl Model for Headcount {
    ghost use Rattle.nb_census.specs.Shown.{HeadcountShown};

    ghost Value = { HeadcountShown };

    ghost use Rattle.nb_census.specs.Tokens.{headcount_shown, IsMakerToken};

    ghost view = { headcount_shown };

    ghost invariant = { IsMakerToken };
}

/// What all seats of a headcount did: each bucket's changes and looks, in order of number. It keeps no list when it runs; contracts see
/// the lists.
#[derive(Drop)]
pub struct Counts {
    seat: Seat<(), View>,
}

impl Model for Counts {
    ghost use Rattle.std.specs.Prelude.{List};
    ghost use Rattle.change_order.specs.declared.part.Part.{Part};

    ghost Value = { List Part };

    ghost use Rattle.nb_census.specs.Tokens.{counts_shown};

    ghost view = { counts_shown };
}

impl Census for SeatCensus {
    ghost use Rattle.std.specs.Prelude.{None, Some};
    ghost use Rattle.change_order.specs.Ticks.{share_of};

    ghost name = { λ s. Some (record { headcount = s.headcount; bucket = s.bucket }) };

    ghost share = { λ s. share_of s.changes };

    ghost changes = { λ s. s.changes };

    ghost looks = { λ s. s.looks };

    ghost others = { λ _. None };

    fn grow(&mut self, by: u32) {
        self.word.change(&mut self.seat, (1 << 32) + u64::from(by));
    }

    fn shrink(&mut self, by: u32) {
        self.word.change(&mut self.seat, (1 << 32) - u64::from(by));
    }

    fn look(&mut self) -> u32 {
        self.word.look(&mut self.seat)
    }
}

impl Headcount {
    /// A headcount of no seat.
    fn empty(alloc: Global) -> Result<Headcount, AllocError>
        ensures { IfOk result (λ h. h.buckets ≡ 0) }
    {
        let (word, seat) = Word::new(alloc)?;
        let word = Arc::new(alloc, word)?;
        Ok(Headcount { word, seat })
    }

    /// The seat of the next bucket.
    fn make(&mut self) -> Result<SeatCensus, AllocError>
        requires { self.old.buckets < 64 }
        ensures id { self.new.id ≡ self.old.id }
        ensures made { IfOk result (λ s. (self.new.buckets ≡ self.old.buckets + 1) × (s ≡ fresh_seat self.old.id self.old.buckets)) }
    {
        let word = Arc::try_clone(&self.word)?;
        let seat = word.make(&mut self.seat);
        Ok(SeatCensus { word, seat })
    }

    /// A headcount with a seat for each of this many buckets, in order of number. No seat has a share, a change or a look yet. Only
    /// want of memory is an error.
    pub fn new(alloc: Global, buckets: u32) -> Result<(Headcount, Seats), AllocError>
        requires { buckets ≤ 64 }
        ensures { IfOk result (λ r. (r.0.buckets ≡ buckets) × (r.1.items ≡ fresh_seats r.0.id buckets)) }
    {
        let mut headcount = Headcount::empty(alloc)?;
        let mut seats = Vec::new(alloc);
        for _bucket in 0..buckets {
            seats.push(headcount.make()?)?;
        }
        Ok((headcount, seats))
    }

    /// Gathers all seats of this headcount, in order of number. Journals that have their changes and looks fit one order of all
    /// changes. Takes no memory, and never waits.
    pub fn gather(self, seats: Seats) -> Counts
        requires { AreSeatsOf self seats.items }
        ensures same { result ≡ map part_of_seat seats.items }
        ensures counted { AreCounted result }
        ensures ordered { (journals : List JournalCounts) → AllZip HasCounts result journals → HaveOneOrder journals }
    {
        let Headcount { word, mut seat } = self;
        let mut rest = seats;
        while let Some(last) = rest.pop() {
            let SeatCensus {
                word: _,
                seat: other,
            } = last;
            word.take(&mut seat, other);
        }
        word.look_at_all(&mut seat);
        Counts { seat }
    }
}
