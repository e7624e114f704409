//! The writer's four stores.
ghost use Rattle.std.specs.Prelude.{◌≡◌, ◌+◌, ◌<◌, ◌^◌, true, [], length};
ghost use Rattle.hh_core.specs.declared.step.WriterPhase.TheVariants.{Idle};
ghost use Rattle.hh_cell.specs.Views.{ended};
ghost use Rattle.hh_cell.specs.Kept.{IsSpelled};

use crate::rule::{Begins, Ends, PairName, Rule, StoresA, StoresB};
use crate::view::View;
use atomic_table::{Seat, Shared};

/// Is called between the steps of a publication.
pub trait StepGate {
    /// Behind step `k`, from 1 to 3.
    fn between(&mut self, k: u32);
}

/// A gate that does nothing.
#[derive(Clone, Copy, Debug)]
pub struct OpenStepGate;

impl StepGate for OpenStepGate {
    fn between(&mut self, _k: u32) {}
}

/// Publishes a pair behind the one of number `last`.
pub fn write<N: PairName, S: StepGate>(
    shared: &Shared<(), View, (u64, u64), Rule>,
    seat: &mut Seat<(), View>,
    last: u64,
    pair: &(u64, u64),
    gate: &mut S,
)
    requires table { (seat.old.table_id ≡ shared.now.table_id) × (shared.now.table_id.words ≡ 3) }
    requires writer { (seat.old.me.0.writes ≡ true) × (seat.old.me.0.phase ≡ Idle) × (seat.old.me.1 ≡ []) }
    requires room { (length seat.old.me.0.published ≡ last + 1) × (last + 1 < 2 ^ 62) }
    requires pair { (pair.now ≡ N.pair) × IsSpelled pair.now }
    ensures table { seat.new.table_id ≡ seat.old.table_id }
    ensures view { seat.new.me ≡ (ended pair.now seat.old.me.0, []) }
{
    shared.store::<Begins<N>>(seat, 0, 2 * last + 1);
    gate.between(1);
    shared.store::<StoresA<N>>(seat, 1, pair.0);
    gate.between(2);
    shared.store::<StoresB<N>>(seat, 2, pair.1);
    gate.between(3);
    shared.store::<Ends<N>>(seat, 0, 2 * last + 2)
}
