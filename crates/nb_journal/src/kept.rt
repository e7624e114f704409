//! A key's entry with the packets that wait for it, from line to line.
ghost use Rattle.std.specs.Prelude.{◌≡◌, ◌≤◌, [], ◌∷◌, IfOk, IsTrue, if◌then◌else◌};
ghost use Rattle.nud_machine.specs.declared.act.Act.TheVariants.{Drop};
ghost use Rattle.nud_machine.specs.declared.act.Cause.TheVariants.{TableFull};
ghost use Rattle.nb_base.specs.declared.params.Params.{Params};
ghost use Rattle.nb_base.specs.Params.{InRange};
ghost use Rattle.nud_machine.specs.Asked.{greatest, NamesSettable, BringsSized, FiresAtDue};
ghost use Rattle.nud_machine.specs.State as machine;
ghost use Rattle.nud_machine.specs.Step as machine_step;
ghost use Rattle.nb_journal.specs.Fold as fold;
ghost use Rattle.nb_journal.specs.Keys as keys;
ghost use Rattle.nb_journal.specs.Steps as spec;
ghost use Rattle.nb_journal.specs.Steps.{IsKept, state_in, is_line_of_run, IsTimersDue, IsTimersMoment};

use crate::effects::{Effect, effect_of, id_of};
use crate::naming::{is_key, key_of};
use nb_base::{Key, Line, Moment, Op, Params};
use nb_queues::WaitQueue;
use nud_machine::{Act, Acts, Cause, Entry, Event, step};
use std::alloc::{AllocError, Global};

/// A key's entry, and the packets that wait for it.
#[derive(Drop)]
pub struct Kept {
    pub entry: Entry,
    pub waiting: WaitQueue,
}

/// Whether a line can do something to the key.
fn concerns(line: &Line, key: &Key) -> bool
    ensures { result ≡ spec.concerns line.now key.now (keys.key_of line.now.op) }
{
    match key_of(&line.op) {
        None => true,
        Some(named) => is_key(&named, key) && line.full.is_none(),
    }
}

/// Whether the line sends to the key and found the table full.
fn is_turned_away(line: &Line, key: &Key) -> bool
    ensures { result ≡ spec.is_turned_away line.now key.now line.now.op }
{
    match line.op {
        Op::Send { key: named, .. } => is_key(&named, key) && line.full.is_some(),
        _ => false,
    }
}

/// The acts of a line that does nothing to the key's entry: a packet that found the table full is dropped.
fn turn_away(line: &Line, key: &Key, acts: &mut Acts)
    ensures { acts.new ≡ (if spec.is_turned_away line.now key.now line.now.op then Drop (fold.id_of line.now) TableFull ∷ [] else []) }
{
    acts.clear();
    if is_turned_away(line, key) {
        acts.push(Act::Drop(id_of(line), Cause::TableFull));
    }
}

impl Kept {
    /// No entry, and no packet.
    pub fn absent(alloc: Global) -> Result<Kept, AllocError>
        ensures kept { (p : Params) → IfOk result (IsKept p) }
        ensures absent { IfOk result (λ kept. state_in kept ≡ machine.absent) }
    {
        Ok(Kept {
            entry: Entry::absent(),
            waiting: WaitQueue::new(alloc)?,
        })
    }

    /// An event meets the entry, which is made first where it is absent.
    pub fn meet(&mut self, params: &Params, at: Moment, event: &Event, acts: &mut Acts)
        requires params { InRange params.now }
        requires now { at ≤ greatest }
        requires kept { IsKept params.now self.old }
        requires settable { NamesSettable event.now }
        requires sized { BringsSized event.now }
        requires due { FiresAtDue event.now at (if self.old.entry.present then self.old.entry else machine.made_entry at) }
        ensures kept { IsKept params.now self.new }
        ensures met { record { state = state_in self.new; acts = acts.new } ≡ machine_step.step params.now at (if self.old.entry.present then state_in self.old else machine.made at) event.now }
    {
        if !self.entry.present {
            self.entry = Entry::made(at);
        }
        step(&mut self.entry, params, at, event, &mut self.waiting, acts);
    }

    /// What a line's effect does, if it brings an event.
    fn take_effect(&mut self, params: &Params, line: &Line, acts: &mut Acts)
        requires params { InRange params.now }
        requires kept { IsKept params.now self.old }
        requires line { IsTrue (is_line_of_run line.now) }
        requires due { IsTimersMoment line.now.at (state_in self.old) line.now.op }
        ensures kept { IsKept params.now self.new }
        ensures met { record { state = state_in self.new; acts = acts.new } ≡ fold.meet params.now line.now (state_in self.old) (fold.effect params.now line.now (state_in self.old) line.now.op) }
    {
        match effect_of(params, line, self) {
            Effect::Passes | Effect::Refuses(_) => acts.clear(),
            Effect::Brings(event) => self.meet(params, line.at, &event, acts),
        }
    }

    /// What a line does to the key's entry, and the acts on the way. Takes no memory.
    pub fn go_on(&mut self, params: &Params, line: &Line, key: &Key, acts: &mut Acts)
        requires params { InRange params.now }
        requires kept { IsKept params.now self.old }
        requires line { IsTrue (is_line_of_run line.now) }
        requires due { IsTimersDue key.now line.now.at (state_in self.old) line.now.op }
        ensures kept { IsKept params.now self.new }
        ensures changed { record { state = state_in self.new; acts = acts.new } ≡ fold.change params.now line.now key.now (state_in self.old) }
    {
        if concerns(line, key) {
            self.take_effect(params, line, acts);
        } else {
            turn_away(line, key, acts);
        }
    }
}
