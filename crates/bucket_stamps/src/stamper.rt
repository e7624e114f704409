//! The stamper of a bucket, and the stamps of its participants.
ghost use Rattle.std.specs.Prelude.{◌≡◌, ◌+◌, ◌≤◌, [], ◌∷◌, None, Some, IfOk, IfSome, IsSome, All, length, ◌++◌, true, false};
ghost use Rattle.bucket_stamps.specs.Own.{pairs_from, AreTurnsOf, IsSettled, IsLineOf};
ghost use Rattle.bucket_stamps.specs.Views.{newcomer, met};
ghost use Rattle.bucket_stamps.specs.Shown.{StamperShown, StampShown, stamp_of, part_of, history_of, Agrees, SeesMore, AreEveryones, Ends, lodging, freed, after_line, after_plain, after_lines, after_turn, after_call, stamp_after, turn_behind, new_stamps, new_stamper, IsOfLodged};

use crate::rule::{
    HandsOut, Leaves, Lodges, Looks, Rule, write_first_line, write_line, write_turn,
};
use crate::view::{HasCell, View};
use atomic_table::{Badge, Seat, Table};
use nb_base::{Key, Line, Moment};
use std::alloc::{AllocError, Global};
use std::marker::{Brand, Model};
use std::mem;

/// The seat that a bucket keeps on its stamp word. Contracts see its identity, how many participants there are, what was written (the
/// lines, the turns, and the cells of the keys that became known), and the part of the stamp that is lodged, if any. While none is, each
/// line belongs to a turn.
#[derive(Drop)]
pub struct Stamper {
    table: Table<(), View, (), Rule, Global>,
    seat: Seat<(), View>,
}

impl Model for Stamper {
    ghost use Rattle.bucket_stamps.specs.Shown.{StamperShown};

    ghost Value = { StamperShown };

    ghost use Rattle.bucket_stamps.specs.Tokens.{stamper_shown, IsStamperToken};

    ghost view = { stamper_shown };

    ghost invariant = { IsStamperToken };
}

/// A participant's token of one bucket. Contracts see the bucket's identity, the participant, the places and ids of its own lines, and
/// what it has seen: the first lines, the first turns, and the cells of the keys that are known in these lines.
#[derive(Drop)]
pub struct Stamp {
    badge: Badge<View>,
}

impl Model for Stamp {
    ghost use Rattle.bucket_stamps.specs.Shown.{StampShown};

    ghost Value = { StampShown };

    ghost use Rattle.bucket_stamps.specs.Tokens.{stamp_shown, IsStampToken};

    ghost view = { stamp_shown };

    ghost invariant = { IsStampToken };
}

impl Stamper {
    /// The stamper of a bucket without lines, with one stamp for each participant, in order. Only want of memory is an error.
    pub fn new(alloc: Global, participants: u32) -> Result<(Stamper, Vec<Stamp>), AllocError>
        requires { participants ≤ 17 }
        ensures stamper { IfOk result (λ r. r.0 ≡ new_stamper r.0.id participants) }
        ensures stamps { IfOk result (λ r. r.1.items ≡ new_stamps r.0.id participants) }
    {
        let mut stamper = Stamper::alone(alloc)?;
        let mut stamps = Vec::with_capacity(alloc, participants as usize)?;
        for _ in 0..participants {
            stamps.push(stamper.hand_out())?;
        }
        Ok((stamper, stamps))
    }

    /// The stamper of a bucket without participants.
    fn alone(alloc: Global) -> Result<Stamper, AllocError>
        ensures { IfOk result (λ s. s ≡ new_stamper s.id 0) }
    {
        let (table, seat) = Table::of_words(alloc, &[0], &())?;
        Ok(Stamper { table, seat })
    }

    /// The stamp of one more participant.
    fn hand_out(&mut self) -> Stamp
        requires { self.old ≡ new_stamper self.old.id self.old.participants }
        ensures stamper { self.new ≡ record self.old { participants = self.old.participants + 1 } }
        ensures stamp { result ≡ stamp_of self.old.id (newcomer self.old.participants) }
    {
        let table = &self.table;
        let seat = table.shared.split_seat::<HandsOut>(&mut self.seat);
        Stamp {
            badge: seat.into_badge(),
        }
    }

    /// Takes a stamp of this bucket in, which agrees with what was written. Takes no memory.
    pub fn lodge(&mut self, stamp: Stamp)
        requires id { stamp.id ≡ self.old.id }
        requires free { self.old.lodged ≡ None }
        ensures stamper { self.new ≡ lodging (part_of stamp) self.old }
        ensures agrees { Agrees self.old stamp }
        ensures settled { IsSettled self.old.lines self.old.turns }
        ensures order { AreTurnsOf self.old.lines self.old.turns }
    {
        let Stamp { badge } = stamp;
        let table = &self.table;
        table
            .shared
            .join_seat::<Lodges>(&mut self.seat, badge.into_seat::<()>());
        table.shared.load::<Looks>(&mut self.seat, 0);
    }

    /// Hands the lodged stamp out again, which has seen all that was written. Takes no memory.
    pub fn leave(&mut self) -> Stamp
        requires lodged { IsSome self.old.lodged }
        requires settled { IsSettled self.old.lines self.old.turns }
        ensures stamper { self.new ≡ freed self.old }
        ensures stamp { IfSome self.old.lodged (λ m. result ≡ stamp_of self.old.id (met (history_of self.old) m)) }
    {
        let table = &self.table;
        let seat = table.shared.split_seat::<Leaves>(&mut self.seat);
        Stamp {
            badge: seat.into_badge(),
        }
    }

    /// Writes a line of the lodged participant, or a line without an id. Takes no memory.
    #[tactic(auto, using(crate::proofs::Owning::order_line))]
    pub fn line(&mut self, line: &Line)
        requires lodged { IsSome self.old.lodged }
        requires own { IsOfLodged self.old line.now }
        ensures { self.new ≡ after_plain line.now self.old }
    {
        let table = &self.table;
        write_line::<Brand>(&table.shared, &mut self.seat, line);
    }

    /// Writes lines in the same way. Takes no memory.
    pub fn lines(&mut self, lines: &[Line])
        requires lodged { IsSome self.old.lodged }
        requires own { All (IsOfLodged self.old) lines.now }
        ensures { self.new ≡ after_lines lines.now self.old }
    {
        for line in lines {
            self.line(line);
        }
    }

    /// The same for a line by which a key becomes known, with the key's cell.
    #[tactic(auto, using(crate::proofs::Owning::order_line))]
    pub fn first_line<C: HasCell>(&mut self, line: &Line, key: &Key, cell: &C)
        requires lodged { IsSome self.old.lodged }
        requires own { IsOfLodged self.old line.now }
        ensures { self.new ≡ after_line line.now ((key.now, C.cell_of cell.now) ∷ []) self.old }
    {
        let table = &self.table;
        write_first_line::<Brand, C>(&table.shared, &mut self.seat, line, key, cell);
    }

    /// Ends a turn of the lodged participant, which was given this moment, behind its lines. Takes no memory.
    pub fn turn(&mut self, at: Moment, ok: bool)
        requires lodged { IsSome self.old.lodged }
        ensures { self.new ≡ after_turn at ok self.old }
    {
        let table = &self.table;
        write_turn::<Brand>(&table.shared, &mut self.seat, at, ok);
    }

    /// Writes a call's lines and its turn.
    fn write(&mut self, lines: &[Line], at: Moment, ok: bool)
        requires lodged { IsSome self.old.lodged }
        requires own { All (IsOfLodged self.old) lines.now }
        ensures { self.new ≡ after_turn at ok (after_lines lines.now self.old) }
    {
        self.lines(lines);
        self.turn(at, ok);
    }

    /// The stamp sees all that was written, without a line or a turn. Takes no memory.
    pub fn meet(&mut self, stamp: &mut Stamp)
        requires id { stamp.old.id ≡ self.old.id }
        requires free { self.old.lodged ≡ None }
        ensures stamper { self.new ≡ self.old }
        ensures stamp { stamp.new ≡ stamp_of self.old.id (met (history_of self.old) (part_of stamp.old)) }
        ensures more { SeesMore stamp.old stamp.new [] [] }
        ensures agrees { Agrees self.old stamp.old }
    {
        let seen = mem::replace(&mut stamp.badge, Badge::blank());
        self.lodge(Stamp { badge: seen });
        let Stamp { badge } = self.leave();
        stamp.badge = badge;
    }

    /// Writes the lines that a call of the stamp's participant made, given this moment, and its turn. A call that was refused has left a
    /// line; without one it is no turn, and only meets its stamp. Takes no memory.
    pub fn call(&mut self, stamp: &mut Stamp, lines: &[Line], at: Moment, ok: bool)
        requires id { stamp.old.id ≡ self.old.id }
        requires free { self.old.lodged ≡ None }
        requires own { All (IsLineOf stamp.old.participant) lines.now }
        requires left { ok ≡ false → 1 ≤ length lines.now }
        ensures stamper { self.new ≡ after_call stamp.old.participant lines.now [] at ok self.old }
        ensures stamp { stamp.new ≡ stamp_after self.new stamp.old (pairs_from stamp.old.participant (length self.old.lines) lines.now) }
        ensures more { SeesMore stamp.old stamp.new lines.now (turn_behind stamp.old.participant at ok self.new.lines ∷ []) }
    {
        let badge = mem::replace(&mut stamp.badge, Badge::blank());
        self.lodge(Stamp { badge });
        self.write(lines, at, ok);
        let Stamp { badge } = self.leave();
        stamp.badge = badge;
    }

    /// The same for a call that was answered Ok and by whose last line a key became known, with the key's cell. Takes no memory.
    pub fn first_call<C: HasCell>(
        &mut self,
        stamp: &mut Stamp,
        before: &[Line],
        last: &Line,
        key: &Key,
        cell: &C,
        at: Moment,
    )
        requires id { stamp.old.id ≡ self.old.id }
        requires free { self.old.lodged ≡ None }
        requires before { All (IsLineOf stamp.old.participant) before.now }
        requires last { IsLineOf stamp.old.participant last.now }
        ensures stamper { self.new ≡ after_call stamp.old.participant (before.now ++ last.now ∷ []) ((key.now, C.cell_of cell.now) ∷ []) at true self.old }
        ensures stamp { stamp.new ≡ stamp_after self.new stamp.old (pairs_from stamp.old.participant (length self.old.lines) (before.now ++ last.now ∷ [])) }
        ensures more { SeesMore stamp.old stamp.new (before.now ++ last.now ∷ []) (turn_behind stamp.old.participant at true self.new.lines ∷ []) }
    {
        let badge = mem::replace(&mut stamp.badge, Badge::blank());
        self.lodge(Stamp { badge });
        self.lines(before);
        self.first_line(last, key, cell);
        self.turn(at, true);
        let Stamp { badge } = self.leave();
        stamp.badge = badge;
    }

    /// Gives a stamp up for good: it agrees with what was written. Takes no memory.
    fn gather(&mut self, stamp: Stamp)
        requires id { stamp.id ≡ self.old.id }
        requires free { self.old.lodged ≡ None }
        ensures stamper { self.new ≡ self.old }
        ensures agrees { Agrees self.old stamp }
    {
        self.lodge(stamp);
        self.leave();
    }

    /// Every participant's stamp is given up. Takes no memory.
    pub fn give_up_all(mut self, mut stamps: Vec<Stamp>)
        requires free { self.lodged ≡ None }
        requires ids { All (λ s. s.id ≡ self.id) stamps.items }
        requires everyone { AreEveryones self.participants stamps.items }
        ensures { Ends self stamps.items }
    {
        while let Some(stamp) = stamps.pop() {
            self.gather(stamp);
        }
    }
}
