//! The rule of a stamp word, and the kinds of step that keep it.
ghost use Rattle.std.specs.Prelude.{◌≡◌, ◌<◌, ◌∷◌, [], true, IfSome, IsSome, None, Some};
ghost use Rattle.std.specs.Option.{option_map};
ghost use Rattle.nb_base.specs.Ids.{participant_of};
ghost use Rattle.bucket_stamps.specs.Views.{first_view, spent, one_more, comes_in, takes_in, who_stays, who_goes, writes, writes_by, turned, participant_in};
ghost use Rattle.bucket_stamps.specs.Kept.{Kept, LookTells};

use crate::view::{HasCell, View};
use atomic_table::{Join, Play, Seat, Shared, Split, TableRule};
use nb_base::{Key, Line, Moment};
use std::marker::{Brand, PhantomData};

/// The rule: each participant stands once, and what stands there agrees with the stamper's history.
pub struct Rule;

impl TableRule<(), View, ()> for Rule {
    ghost holds = { λ _ s. Kept s.views };

    ghost first = { λ _. first_view };
}

/// The stamper takes in a stamp.
pub struct Lodges;

impl Join<View> for Lodges {
    ghost both = { takes_in };

    ghost spent = { spent };
}

/// The stamper looks at what it took in.
pub struct Looks;

impl Play<(), View> for Looks {
    ghost then = { λ st m n w. (w ≡ m) × IfSome m.0.part (LookTells m.0) };
}

/// The stamper hands the stamp out again, which has seen all that was written.
pub struct Leaves;

impl Split<View> for Leaves {
    ghost left = { who_stays };

    ghost right = { who_goes };
}

/// The stamper of a bucket without lines hands out the stamp of one more participant.
pub struct HandsOut;

impl Split<View> for HandsOut {
    ghost left = { one_more };

    ghost right = { comes_in };
}

/// The line that is written and the cells of the keys that become known by it, for the proof alone: a store carries no more than a
/// number, so each call picks its own.
pub trait LineName {
    ghost use Rattle.std.specs.Prelude.{List, Option};
    ghost use Rattle.nb_base.specs.declared.key.Key.{Key};
    ghost use Rattle.nb_base.specs.declared.line.Line.{Line};
    ghost use Rattle.atomic_table.specs.Seated.{TableId};

    ghost line: { Option Line };

    ghost cells: { List (Key × TableId) };
}

impl LineName for Brand {
    ghost line = { None };

    ghost cells = { [] };
}

/// A line is written.
pub struct Writes<N> {
    name: PhantomData<N>,
}

impl<N: LineName> Play<(), View> for Writes<N> {
    ghost then = { λ st m n w. w ≡ (writes_by N.line N.cells m.0, m.1) };
}

/// The moment of a turn, and whether it was answered Ok, for the proof alone.
pub trait TurnName {
    ghost use Rattle.std.specs.Prelude.{ℕ, Bool};

    ghost at: { ℕ };

    ghost ok: { Bool };
}

impl TurnName for Brand {
    ghost at = { 0 };

    ghost ok = { true };
}

/// A turn ends.
pub struct Turns<N> {
    name: PhantomData<N>,
}

impl<N: TurnName> Play<(), View> for Turns<N> {
    ghost then = { λ st m n w. w ≡ (turned N.at N.ok m.0, m.1) };
}

/// Writes a line of the lodged participant, or of none.
pub fn write_line<N: LineName>(
    shared: &Shared<(), View, (), Rule>,
    seat: &mut Seat<(), View>,
    line: &Line,
)
    requires table { (seat.old.table_id ≡ shared.now.table_id) × (0 < shared.now.table_id.words) }
    requires named { (N.line ≡ Some line.now) × (N.cells ≡ []) }
    requires stamper { (seat.old.me.0.stamper ≡ true) × IsSome seat.old.me.0.part }
    requires own { IfSome line.now.id (λ id. participant_in seat.old.me.0 ≡ Some (participant_of id)) }
    ensures table { seat.new.table_id ≡ seat.old.table_id }
    ensures view { seat.new.me ≡ (writes line.now [] seat.old.me.0, seat.old.me.1) }
{
    shared.store::<Writes<N>>(seat, 0, number_of(line))
}

/// Writes a line by which a key becomes known, with the key's cell.
pub fn write_first_line<N: LineName, C: HasCell>(
    shared: &Shared<(), View, (), Rule>,
    seat: &mut Seat<(), View>,
    line: &Line,
    key: &Key,
    cell: &C,
)
    requires table { (seat.old.table_id ≡ shared.now.table_id) × (0 < shared.now.table_id.words) }
    requires named { (N.line ≡ Some line.now) × (N.cells ≡ (key.now, C.cell_of cell.now) ∷ []) }
    requires stamper { (seat.old.me.0.stamper ≡ true) × IsSome seat.old.me.0.part }
    requires own { IfSome line.now.id (λ id. participant_in seat.old.me.0 ≡ Some (participant_of id)) }
    ensures table { seat.new.table_id ≡ seat.old.table_id }
    ensures view { seat.new.me ≡ (writes line.now ((key.now, C.cell_of cell.now) ∷ []) seat.old.me.0, seat.old.me.1) }
{
    shared.store::<Writes<N>>(seat, 0, number_of(line))
}

/// Ends a turn of the lodged participant.
pub fn write_turn<N: TurnName>(
    shared: &Shared<(), View, (), Rule>,
    seat: &mut Seat<(), View>,
    at: Moment,
    ok: bool,
)
    requires table { (seat.old.table_id ≡ shared.now.table_id) × (0 < shared.now.table_id.words) }
    requires named { (at ≡ N.at) × (ok ≡ N.ok) }
    requires stamper { (seat.old.me.0.stamper ≡ true) × IsSome seat.old.me.0.part }
    ensures table { seat.new.table_id ≡ seat.old.table_id }
    ensures view { seat.new.me ≡ (turned at ok seat.old.me.0, seat.old.me.1) }
{
    shared.store::<Turns<N>>(seat, 0, 0)
}

/// What is stored for a line: its id, or 0.
fn number_of(line: &Line) -> u64 {
    match line.id {
        Some(id) => id.0,
        None => 0,
    }
}
