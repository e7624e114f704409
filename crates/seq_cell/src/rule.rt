//! The rule of a cell, and the kinds of step that keep it.
ghost use Rattle.hh_cell.specs.Views.{spent, takes_in, who_stays, who_goes};
ghost use Rattle.seq_cell.specs.Held.{unopened, Held, Opened, Published, Tried, Looked};

use atomic_table::{Join, Split};
use crossbeam_utils::atomic::seq_cell::{Pass, RuledSeqCell};
use crossbeam_utils::rule::{Outcome, Protocol};
use hh_cell::View;

/// The three words: twice the last record's number, and that record's two words.
pub type Words = RuledSeqCell<[u64; 3], View, Rule, 3>;

/// What a thread has of the three words.
pub type Token = Pass<[u64; 3], View>;

/// The rule: once there is a record, the words and all views show one safe state of the sequence lock, in which the writer rests.
pub struct Rule;

impl Protocol<[u64; 3], View> for Rule {
    ghost holds = { Held };

    ghost first = { unopened };
}

/// The first record is stored.
pub struct Opens;

impl Outcome<[u64; 3], View> for Opens {
    ghost then = { Opened };
}

/// One more record is stored.
pub struct Publishes;

impl Outcome<[u64; 3], View> for Publishes {
    ghost then = { Published };
}

/// A reader makes a try.
pub struct Tries;

impl Outcome<[u64; 3], View> for Tries {
    ghost then = { Tried };
}

/// The writer looks at what it took in.
pub struct Looks;

impl Outcome<[u64; 3], View> for Looks {
    ghost then = { Looked };
}

/// The writer hands out a reader that is past what was published.
pub struct Leaves;

impl Split<View> for Leaves {
    ghost left = { who_stays };

    ghost right = { who_goes };
}

/// A reader goes to a token that has made no step.
pub struct Cuts;

impl Split<View> for Cuts {
    ghost left = { λ v. spent };

    ghost right = { λ v. takes_in spent v };
}

/// The writer takes in a reader.
pub struct Lodges;

impl Join<View> for Lodges {
    ghost both = { takes_in };

    ghost spent = { spent };
}
