//! The cell with its tokens.
ghost use Rattle.std.specs.Prelude.{◌≡◌, ◌+◌, ◌-◌, ◌<◌, ◌^◌, true, [], ◌∷◌, ◌++◌, length, None, Some, IfOk};
ghost use Rattle.std.specs.Option.{unwrap_or};
ghost use Rattle.std.specs.List.Sorted.{IsNonDecreasing};
ghost use Rattle.crossbeam_utils.specs.Seq.{cell_view};
ghost use Rattle.hh_core.specs.declared.step.WriterPhase.TheVariants.{Idle};
ghost use Rattle.hh_core.specs.Safe.{both_numbers};
ghost use Rattle.hh_cell.specs.Views.{ended};
ghost use Rattle.hh_cell.specs.Kept.{IsSpelled};
ghost use Rattle.hh_cell.specs.Shown.{nothing_seen, Reads, AgreesWith};
ghost use Rattle.seq_cell.specs.Obtaining.{ObtainsAtOnce};

use crate::rule::{Cuts, Leaves, Lodges, Looks, Opens, Publishes, Token, Tries, Words};
use hh_cell::Obtained;
use nb_base::Record;
use std::alloc::{AllocError, Global};
use std::marker::Model;
use std::sync::Wait;

/// A cell that threads share. Contracts see it as the name that tells it from every other cell.
#[derive(Drop)]
pub struct Cell {
    words: Words,
}

impl Model for Cell {
    ghost use Rattle.atomic_table.specs.Seated.{TableId};

    ghost Value = { TableId };

    ghost view = { λ c. c.words.table.shared.table_id };
}

/// The one writer's token of a cell: what was published, and what was lodged last.
#[derive(Drop)]
pub struct Writer {
    token: Token,
    last: u64,
}

impl Model for Writer {
    ghost use Rattle.hh_cell.specs.Shown.{WriterShown};

    ghost Value = { WriterShown };

    ghost use Rattle.seq_cell.specs.Tokens.{writer_shown, IsWriterToken};

    ghost view = { writer_shown };

    ghost invariant = { IsWriterToken };
}

/// A reader's token of a cell: its floor, and what it has seen.
#[derive(Drop)]
pub struct Pass {
    token: Token,
}

impl Model for Pass {
    ghost use Rattle.hh_cell.specs.Shown.{PassShown};

    ghost Value = { PassShown };

    ghost use Rattle.seq_cell.specs.Tokens.{pass_shown, IsPassToken};

    ghost view = { pass_shown };

    ghost invariant = { IsPassToken };
}

impl Cell {
    /// A cell whose first record, of number 0, this is.
    pub fn new<R: Wait>(rt: &R, alloc: Global, first: Record) -> Result<(Cell, Writer), AllocError>
        ensures { IfOk result (λ r. r.1 ≡ record { cell = r.0; published = first ∷ []; lodged = None }) }
    {
        let pair = first.words();
        let (words, mut token) = Words::ruled(alloc, [0, 0, 0])?;
        words.swap_as::<Opens, R>(rt, &mut token, [0, pair.0, pair.1]);
        Ok((Cell { words }, Writer { token, last: 0 }))
    }

    /// Publishes a record, in one step: the list of the published ones grows by it. Takes no memory.
    pub fn publish<R: Wait>(&self, rt: &R, writer: &mut Writer, next: Record)
        requires cell { writer.old.cell ≡ self.now }
        requires room { length writer.old.published < 2 ^ 62 }
        ensures { writer.new ≡ record writer.old { published = writer.old.published ++ next ∷ [] } }
    {
        let pair = next.words();
        let words = &self.words;
        write(rt, words, &mut writer.token, writer.last, &pair);
        writer.last += 1;
    }

    /// A pass whose floor is the last record's number. It goes on as the reader that was lodged last, with
    /// what that has seen; where none is lodged it is a reader that has seen nothing. Takes no memory, and
    /// never waits.
    pub fn leave(&self, writer: &mut Writer) -> Pass
        requires { writer.old.cell ≡ self.now }
        ensures writer { writer.new ≡ record writer.old { lodged = None } }
        ensures pass { result ≡ record { cell = self.now; floor = length writer.old.published - 1; seen = unwrap_or writer.old.lodged nothing_seen } }
    {
        let words = &self.words;
        let token = words.split_pass::<Leaves>(&mut writer.token);
        Pass { token }
    }

    /// Gives a pass up to the writer, who keeps what it has seen in place of what was lodged before. Each
    /// record that the pass knows is the published one of its number, and neither its floor nor the
    /// numbers of its tries go past the last one. Takes no memory.
    pub fn lodge<R: Wait>(&self, rt: &R, writer: &mut Writer, pass: Pass)
        requires writer { writer.old.cell ≡ self.now }
        requires pass { pass.cell ≡ self.now }
        ensures writer { writer.new ≡ record writer.old { lodged = Some pass.seen } }
        ensures agrees { AgreesWith writer.old.published pass }
    {
        let Pass { mut token } = pass;
        let words = &self.words;
        let whole = words.split_pass::<Cuts>(&mut token);
        words.join_pass::<Lodges>(&mut writer.token, whole);
        words.load_as::<Looks, R>(rt, &mut writer.token);
    }

    /// Reads the record by one try, which is one step and is good: the number that it loads, twice the
    /// record's, is even, and the same at both of its loads. The record's number becomes the pass's floor.
    /// The numbers of all the pass's tries, in order, never fall. Takes no memory.
    pub fn obtain<R: Wait>(&self, rt: &R, pass: &mut Pass) -> Obtained
        requires { pass.old.cell ≡ self.now }
        ensures obtains { ObtainsAtOnce pass.old pass.new result }
        ensures rises { IsNonDecreasing (both_numbers pass.new.seen.tries) }
    {
        let (number, found) = self.load(rt, pass);
        Obtained::of_record(number, found)
    }

    /// One try: the record with its number.
    fn load<R: Wait>(&self, rt: &R, pass: &mut Pass) -> (u64, Record)
        requires { pass.old.cell ≡ self.now }
        ensures read { Reads pass.old pass.new [] result.0 result.1 }
        ensures rises { IsNonDecreasing (both_numbers pass.new.seen.tries) }
    {
        let words = &self.words;
        let loaded = words.load_as::<Tries, R>(rt, &mut pass.token);
        let Some(found) = Record::of_words(loaded[1], loaded[2]) else {
            unreachable!()
        };
        (loaded[0] / 2, found)
    }
}

/// Publishes a pair behind the one of number `last`.
fn write<R: Wait>(rt: &R, words: &Words, token: &mut Token, last: u64, pair: &(u64, u64))
    requires table { token.old.table_id ≡ words.now.table.shared.table_id }
    requires writer { ((cell_view token.old).writes ≡ true) × ((cell_view token.old).phase ≡ Idle) }
    requires room { (length (cell_view token.old).published ≡ last + 1) × (last + 1 < 2 ^ 62) }
    requires pair { IsSpelled pair.now }
    ensures table { token.new.table_id ≡ token.old.table_id }
    ensures view { cell_view token.new ≡ ended pair.now (cell_view token.old) }
{
    words.swap_as::<Publishes, R>(rt, token, [2 * last + 2, pair.0, pair.1]);
}
