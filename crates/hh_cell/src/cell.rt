//! The cell with its tokens.
ghost use Rattle.std.specs.Prelude.{◌≡◌, ◌+◌, ◌-◌, ◌<◌, ◌^◌, [], ◌∷◌, ◌++◌, length, None, Some, IfOk, IfErr};
ghost use Rattle.std.specs.Option.{unwrap_or};
ghost use Rattle.std.specs.List.Sorted.{IsNonDecreasing};
ghost use Rattle.hh_core.specs.Safe.{both_numbers};
ghost use Rattle.hh_cell.specs.Shown.{nothing_seen, Reads, Failed, AgreesWith};
ghost use Rattle.hh_cell.specs.Obtaining.{Obtains, ObtainedOf};

use crate::rule::{Leaves, Lodges, Looks, Rule};
use crate::store::{OpenStepGate, StepGate, write};
use crate::tries::{one_try, was_good};
use crate::view::View;
use atomic_table::{Seat, Table};
use hh_core::Try;
use nb_base::Record;
use std::alloc::{AllocError, Global};
use std::marker::{Brand, Model};
use std::mem;

/// A cell that threads share. Contracts see it as the name that tells it from every other cell.
#[derive(Drop)]
pub struct Cell {
    table: Table<(), View, (u64, u64), Rule, Global>,
}

impl Model for Cell {
    ghost use Rattle.std.specs.Prelude.{◌≡◌};
    ghost use Rattle.atomic_table.specs.Seated.{TableId};

    ghost Value = { TableId };

    ghost view = { λ c. c.table.shared.table_id };

    ghost invariant = { λ c. c.table.shared.table_id.words ≡ 3 };
}

/// The one writer's token of a cell: what was published, and what was lodged last.
#[derive(Drop)]
pub struct Writer {
    seat: Seat<(), View>,
    last: u64,
}

impl Model for Writer {
    ghost use Rattle.hh_cell.specs.Shown.{WriterShown};

    ghost Value = { WriterShown };

    ghost use Rattle.hh_cell.specs.Tokens.{writer_shown, IsWriterToken};

    ghost view = { writer_shown };

    ghost invariant = { IsWriterToken };
}

/// A reader's token of a cell: its floor, and what it has seen.
#[derive(Drop)]
pub struct Pass {
    seat: Seat<(), View>,
}

impl Model for Pass {
    ghost use Rattle.hh_cell.specs.Shown.{PassShown};

    ghost Value = { PassShown };

    ghost use Rattle.hh_cell.specs.Tokens.{pass_shown, IsPassToken};

    ghost view = { pass_shown };

    ghost invariant = { IsPassToken };
}

/// What a reader obtains.
#[derive(Clone, Copy, Debug, PartialEq, Eq)]
pub enum Obtained {
    /// A record that may be used, with its number.
    Fresh { number: u64, header: [u8; 14] },
    /// The record of this number may not be used.
    Suspect { number: u64 },
    /// All four tries failed, with these pairs of numbers.
    Again { tries: [Try; 4] },
}

impl Obtained {
    /// What a good try gives that read this record.
    pub fn of_record(number: u64, found: Record) -> Obtained
        ensures { ObtainedOf number found result }
    {
        let header = found.header;
        if found.usable {
            Obtained::Fresh { number, header }
        } else {
            Obtained::Suspect { number }
        }
    }
}

impl Cell {
    /// A cell whose first record, of number 0, this is.
    pub fn new(alloc: Global, first: Record) -> Result<(Cell, Writer), AllocError>
        ensures { IfOk result (λ r. r.1 ≡ record { cell = r.0; published = first ∷ []; lodged = None }) }
    {
        let pair = first.words();
        let (table, seat) = Table::of_words(alloc, &[0, pair.0, pair.1], &pair)?;
        Ok((Cell { table }, Writer { seat, last: 0 }))
    }

    /// Publishes a record: the list of the published ones grows by it. Takes no memory, and never waits.
    pub fn publish(&self, writer: &mut Writer, next: Record)
        requires cell { writer.old.cell ≡ self.now }
        requires room { length writer.old.published < 2 ^ 62 }
        ensures { writer.new ≡ record writer.old { published = writer.old.published ++ next ∷ [] } }
    {
        self.publish_with(writer, next, &mut OpenStepGate);
    }

    /// Publishes a record as `publish` does, in four stores: the number becomes odd, the first word, the
    /// second word, the number becomes even. The gate is called behind each of the first three. Takes no
    /// memory, and never waits.
    pub fn publish_with<S: StepGate>(&self, writer: &mut Writer, next: Record, gate: &mut S)
        requires cell { writer.old.cell ≡ self.now }
        requires room { length writer.old.published < 2 ^ 62 }
        ensures { writer.new ≡ record writer.old { published = writer.old.published ++ next ∷ [] } }
    {
        let pair = next.words();
        let table = &self.table;
        write::<Brand, S>(&table.shared, &mut writer.seat, writer.last, &pair, gate);
        writer.last += 1;
    }

    /// A pass whose floor is the last record's number. It goes on as the reader that was lodged last, with
    /// what that has seen; where none is lodged it is a reader that has seen nothing. Takes no memory, and
    /// never waits.
    pub fn leave(&self, writer: &mut Writer) -> Pass
        requires { writer.old.cell ≡ self.now }
        ensures writer { writer.new ≡ record writer.old { lodged = None } }
        ensures pass { result ≡ record { cell = self.now; floor = length writer.old.published - 1; seen = unwrap_or writer.old.lodged nothing_seen } }
    {
        let table = &self.table;
        let seat = table.shared.split_seat::<Leaves>(&mut writer.seat);
        Pass { seat }
    }

    /// Gives a pass up to the writer, who keeps what it has seen in place of what was lodged before. Each
    /// record that the pass knows is the published one of its number, and neither its floor nor the
    /// numbers of its tries go past the last one. Takes no memory, and never waits.
    pub fn lodge(&self, writer: &mut Writer, pass: Pass)
        requires writer { writer.old.cell ≡ self.now }
        requires pass { pass.cell ≡ self.now }
        ensures writer { writer.new ≡ record writer.old { lodged = Some pass.seen } }
        ensures agrees { AgreesWith writer.old.published pass }
    {
        let Pass { seat } = pass;
        let table = &self.table;
        table.shared.join_seat::<Lodges>(&mut writer.seat, seat);
        table.shared.load::<Looks>(&mut writer.seat, 0);
    }

    /// Brings a pass up to all that was published: its floor becomes the last record's number, and what it
    /// has seen stays and agrees with what was published. What was lodged before is gone. Takes no memory,
    /// and never waits.
    pub fn meet(&self, writer: &mut Writer, pass: &mut Pass)
        requires writer { writer.old.cell ≡ self.now }
        requires pass { pass.old.cell ≡ self.now }
        ensures writer { writer.new ≡ record writer.old { lodged = None } }
        ensures pass { pass.new ≡ record pass.old { floor = length writer.old.published - 1 } }
        ensures agrees { AgreesWith writer.old.published pass.old }
    {
        let spare = self.leave(writer);
        let old = mem::replace(pass, spare);
        self.lodge(writer, old);
        *pass = self.leave(writer);
    }

    /// One try: the record with its number, or the numbers that it has loaded.
    fn try_once(&self, pass: &mut Pass) -> Result<(u64, Record), Try>
        requires { pass.old.cell ≡ self.now }
        ensures read { IfOk result (λ r. Reads pass.old pass.new [] r.0 r.1) }
        ensures failed { IfErr result (λ t. Failed pass.old pass.new (t ∷ [])) }
        ensures rises { IsNonDecreasing (both_numbers pass.new.seen.tries) }
    {
        let table = &self.table;
        let loaded = one_try(&table.shared, &mut pass.seat);
        if !was_good(loaded.first, loaded.second) {
            return Err((loaded.first, loaded.second));
        }
        let Some(found) = Record::of_words(loaded.a, loaded.b) else {
            unreachable!()
        };
        Ok((loaded.first / 2, found))
    }

    /// Reads the record, by at most four tries, and stops at the first good one. A try loads the number,
    /// both words and the number again; it is good where the number was even and is the same, and then the
    /// record's number is half of it and becomes the pass's floor. The numbers of all the pass's tries, in
    /// order, never fall. Takes no memory, and never waits.
    pub fn obtain(&self, pass: &mut Pass) -> Obtained
        requires { pass.old.cell ≡ self.now }
        ensures obtains { Obtains pass.old pass.new result }
        ensures rises { IsNonDecreasing (both_numbers pass.new.seen.tries) }
    {
        let mut tries = [(0, 0); 4];
        for place in 0..4 {
            match self.try_once(pass) {
                Ok((number, found)) => return Obtained::of_record(number, found),
                Err(failed) => tries[place] = failed,
            }
        }
        Obtained::Again { tries }
    }
}
