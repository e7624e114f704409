//! What a token of a stamp word knows. No value of these is ever made: they stand in contracts and proofs alone.
use atomic_table::Badge;
use nb_base::{Key, Line, Moment, OpId};
use std::collections::LinkedList;
use std::marker::Model;

/// The identity of a header cell. Contracts see the name that tells it from every other one.
pub struct CellId {
    badge: Badge<()>,
}

impl Model for CellId {
    ghost use Rattle.atomic_table.specs.Seated.{TableId};

    ghost Value = { TableId };

    ghost view = { λ c. c.badge.table_id };
}

/// What has the identity of a cell.
pub trait HasCell {
    ghost use Rattle.atomic_table.specs.Seated.{TableId};

    ghost cell_of: { Self → TableId };
}

/// A call that was answered Ok, or that was refused and left a line: whose it was, the moment that it was given, whether it was
/// answered Ok, and the journal's length behind it.
pub struct Turn {
    pub participant: u32,
    pub at: Moment,
    pub ok: bool,
    pub length: u32,
}

/// What was written: the lines, the turns, and the cells of the keys in the order in which these became known.
pub struct History {
    pub lines: LinkedList<Line>,
    pub turns: LinkedList<Turn>,
    pub cells: LinkedList<(Key, CellId)>,
}

/// A participant's part: its own lines, each by its place and id, and the history that it has seen.
pub struct Part {
    pub participant: u32,
    pub pairs: LinkedList<(u32, OpId)>,
    pub seen: History,
}

/// What a token knows: the stamper's the history and how many participants there are; and a stamp's, or the stamper's where a stamp is
/// lodged, the participant's part.
pub struct View {
    pub stamper: bool,
    pub participants: u32,
    pub history: History,
    pub part: Option<Part>,
}
