//! One try of a reader.
ghost use Rattle.std.specs.Prelude.{◌≡◌, [], Some, IfSome};
ghost use Rattle.hh_core.specs.declared.reader.ReaderPhase.TheVariants.{Rest, HasB};
ghost use Rattle.hh_core.specs.Step.{ends_try, is_good};
ghost use Rattle.hh_cell.specs.Views.{reads, phase_in};
ghost use Rattle.hh_cell.specs.Kept.{TryTells};

use crate::rule::{LoadsA, LoadsB, LoadsFirst, LoadsSecond, Rule};
use crate::view::View;
use atomic_table::{Seat, Shared};

/// What one try has loaded: the number, both words, and the number again.
#[derive(Clone, Copy, Debug)]
pub struct Loaded {
    pub first: u64,
    pub a: u64,
    pub b: u64,
    pub second: u64,
}

/// Makes one try.
pub fn one_try(shared: &Shared<(), View, (u64, u64), Rule>, seat: &mut Seat<(), View>) -> Loaded
    requires table { (seat.old.table_id ≡ shared.now.table_id) × (shared.now.table_id.words ≡ 3) }
    requires reader { (phase_in seat.old.me.0 ≡ Some Rest) × (seat.old.me.1 ≡ []) }
    ensures table { seat.new.table_id ≡ seat.old.table_id }
    ensures view { seat.new.me ≡ (reads (ends_try result.second (HasB result.first result.a result.b)) seat.old.me.0, []) }
    ensures tells { IfSome seat.old.me.0.reader (λ r. TryTells r.floor r.tries result.first result.a result.b result.second) }
{
    let first = shared.load::<LoadsFirst>(seat, 0);
    let a = shared.load::<LoadsA>(seat, 1);
    let b = shared.load::<LoadsB>(seat, 2);
    let second = shared.load::<LoadsSecond>(seat, 0);
    Loaded {
        first,
        a,
        b,
        second,
    }
}

/// Whether a try is good: its number was even, and the same at both loads.
pub fn was_good(first: u64, second: u64) -> bool
    ensures { result ≡ is_good (first, second) }
{
    first % 2 == 0 && second == first
}
