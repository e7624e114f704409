//! The lock with its writer and its readers.
ghost use Rattle.std.specs.Prelude.{◌≡◌, ◌+◌, ◌<◌, ◌≤◌, ◌^◌, ℕ, length};

use crate::reader::{Known, Reader, ReaderPhase, Try};
use crate::readers::{
    end_try, fresh_readers, phase_at, reader_at, reserve_all, set_floor, set_phase,
};
use crate::step::{Step, WriterPhase};
use std::alloc::{AllocError, Global};
use std::marker::Model;

/// The sequence lock: its number and words, what was published, and the readers.
#[derive(Debug, Drop)]
pub struct Core {
    number: u64,
    a: u64,
    b: u64,
    published: Vec<(u64, u64)>,
    writer: WriterPhase,
    readers: Vec<Reader>,
    spare: usize,
}

impl Model for Core {
    ghost use Rattle.hh_core.specs.Shown.{Shown};

    ghost Value = { Shown };

    ghost use Rattle.hh_core.specs.Lock.{shown_by, IsLock};

    ghost view = { shown_by };

    ghost invariant = { IsLock };
}

/// The step isn't allowed in this state.
#[derive(Clone, Copy, Debug, PartialEq, Eq)]
pub struct NotEnabled;

/// Why a list of steps wasn't taken to its end.
#[derive(Clone, Copy, Debug, PartialEq, Eq)]
pub enum Stop {
    /// The step of this place, counted from 0, isn't allowed.
    NotEnabled(usize),
    /// There is no memory for the steps.
    Memory,
}

impl Core {
    ghost use Rattle.std.specs.Prelude.{is_ok, slice_get, Option, Ok, Err, None, Some, IfOk, OnOk, OnErr};
    ghost use Rattle.std.specs.Option.{option_map, option_copied};
    ghost use Rattle.hh_core.specs.declared.lock.Stop.TheVariants as stop;
    ghost use Rattle.hh_core.specs.State.{at_first, phase_of};
    ghost use Rattle.hh_core.specs.Step.{run, first_refused};
    ghost use Rattle.hh_core.specs.Safe.{IsSafe};
    ghost use Rattle.hh_core.specs.declared.step.Step.TheVariants as step;
    ghost use Rattle.hh_core.specs.Shown.{Takes};

    /// A lock whose first pair is published, with so many readers that have seen nothing.
    pub fn new(alloc: Global, first: (u64, u64), readers: u32) -> Result<Core, AllocError>
        ensures first { IfOk result (λ core. core.state ≡ at_first first readers) }
        ensures safe { IfOk result (λ core. IsSafe core.state) }
    {
        let mut published = Vec::new(alloc);
        published.push(first)?;
        let readers = fresh_readers(alloc, readers)?;
        Ok(Core {
            number: 0,
            a: first.0,
            b: first.1,
            published,
            writer: WriterPhase::Idle,
            readers,
            spare: 0,
        })
    }

    /// The number: odd while the writer is at work, and rising.
    pub fn number(&self) -> u64
        ensures { result ≡ self.now.state.number }
    {
        self.number
    }

    /// The two words as they are stored.
    pub fn words(&self) -> (u64, u64)
        ensures { result ≡ (self.now.state.a, self.now.state.b) }
    {
        (self.a, self.b)
    }

    /// What was published, in order.
    pub fn published(&self) -> &[(u64, u64)]
        ensures { result.now ≡ self.now.state.published }
    {
        self.published.as_slice()
    }

    /// What the writer has done of a publication.
    pub fn writer(&self) -> WriterPhase
        ensures { result ≡ self.now.state.writer }
    {
        self.writer
    }

    /// For how many further steps there is memory.
    pub fn spare(&self) -> usize
        ensures { result ≡ self.now.spare }
    {
        self.spare
    }

    /// A reader's phase, or `None` exactly where there is no such reader.
    pub fn phase(&self, reader: u32) -> Option<ReaderPhase>
        ensures { result ≡ phase_of self.now.state.readers reader }
    {
        phase_at(&self.readers, reader)
    }

    /// A reader's floor: no later good try has a lesser number.
    pub fn floor(&self, reader: u32) -> Option<u64>
        ensures { result ≡ option_map (λ r. r.floor) (slice_get self.now.state.readers reader) }
    {
        reader_at(&self.readers, reader).map(|found| found.floor)
    }

    /// The pairs that a reader's good tries have read, with their numbers, in order.
    pub fn known(&self, reader: u32) -> Option<&[Known]>
        ensures { option_copied result ≡ option_map (λ r. r.known) (slice_get self.now.state.readers reader) }
    {
        reader_at(&self.readers, reader).map(|found| found.known.as_slice())
    }

    /// The numbers of a reader's tries, in order.
    pub fn tries(&self, reader: u32) -> Option<&[Try]>
        ensures { option_copied result ≡ option_map (λ r. r.tries) (slice_get self.now.state.readers reader) }
    {
        reader_at(&self.readers, reader).map(|found| found.tries.as_slice())
    }

    /// Makes room for so many further steps. Without memory the lock stays as it was.
    pub fn reserve(&mut self, more: u32) -> Result<(), AllocError>
        ensures ok { OnOk result (more ≤ self.new.spare) }
        ensures state { self.new.state ≡ self.old.state }
        ensures kept { self.old.spare ≤ self.new.spare }
        ensures err { OnErr result (self.new ≡ self.old) }
    {
        self.grow(more as usize)
    }

    fn grow(&mut self, more: usize) -> Result<(), AllocError>
        ensures ok { OnOk result (more ≤ self.new.spare) }
        ensures state { self.new.state ≡ self.old.state }
        ensures kept { self.old.spare ≤ self.new.spare }
        ensures err { OnErr result (self.new ≡ self.old) }
        ensures safe { IsSafe self.new.state }
    {
        if more <= self.spare {
            return Ok(());
        }
        self.published.reserve(more)?;
        reserve_all(&mut self.readers, more)?;
        self.spare = more;
        Ok(())
    }

    fn begin(&mut self, x: u64, y: u64) -> Result<(), NotEnabled>
        requires { length self.old.state.published < 2 ^ 62 }
        ensures { Takes (step.Begin x y) self.old self.new (is_ok result) }
    {
        let WriterPhase::Idle = self.writer else {
            return Err(NotEnabled);
        };
        self.number += 1;
        self.writer = WriterPhase::Begun(x, y);
        Ok(())
    }

    fn store_a(&mut self) -> Result<(), NotEnabled>
        ensures { Takes step.StoreA self.old self.new (is_ok result) }
    {
        let WriterPhase::Begun(x, y) = self.writer else {
            return Err(NotEnabled);
        };
        self.a = x;
        self.writer = WriterPhase::WroteA(x, y);
        Ok(())
    }

    fn store_b(&mut self) -> Result<(), NotEnabled>
        ensures { Takes step.StoreB self.old self.new (is_ok result) }
    {
        let WriterPhase::WroteA(x, y) = self.writer else {
            return Err(NotEnabled);
        };
        self.b = y;
        self.writer = WriterPhase::WroteB(x, y);
        Ok(())
    }

    fn end(&mut self) -> Result<(), NotEnabled>
        requires published { length self.old.state.published < 2 ^ 62 }
        requires spare { 0 < self.old.spare }
        ensures { Takes step.End self.old self.new (is_ok result) }
    {
        let WriterPhase::WroteB(x, y) = self.writer else {
            return Err(NotEnabled);
        };
        self.number += 1;
        self.published.push_reserved((x, y));
        self.writer = WriterPhase::Idle;
        self.spare -= 1;
        Ok(())
    }

    fn first(&mut self, reader: u32) -> Result<(), NotEnabled>
        ensures { Takes (step.First reader) self.old self.new (is_ok result) }
    {
        let Some(ReaderPhase::Rest) = phase_at(&self.readers, reader) else {
            return Err(NotEnabled);
        };
        set_phase(
            &mut self.readers,
            reader,
            ReaderPhase::HasFirst(self.number),
        );
        Ok(())
    }

    fn load_a(&mut self, reader: u32) -> Result<(), NotEnabled>
        ensures { Takes (step.LoadA reader) self.old self.new (is_ok result) }
    {
        let Some(ReaderPhase::HasFirst(first)) = phase_at(&self.readers, reader) else {
            return Err(NotEnabled);
        };
        set_phase(&mut self.readers, reader, ReaderPhase::HasA(first, self.a));
        Ok(())
    }

    fn load_b(&mut self, reader: u32) -> Result<(), NotEnabled>
        ensures { Takes (step.LoadB reader) self.old self.new (is_ok result) }
    {
        let Some(ReaderPhase::HasA(first, x)) = phase_at(&self.readers, reader) else {
            return Err(NotEnabled);
        };
        set_phase(
            &mut self.readers,
            reader,
            ReaderPhase::HasB(first, x, self.b),
        );
        Ok(())
    }

    fn second(&mut self, reader: u32) -> Result<(), NotEnabled>
        requires { 0 < self.old.spare }
        ensures { Takes (step.Second reader) self.old self.new (is_ok result) }
    {
        let Some(ReaderPhase::HasB(first, x, y)) = phase_at(&self.readers, reader) else {
            return Err(NotEnabled);
        };
        end_try(&mut self.readers, reader, first, (x, y), self.number);
        self.spare -= 1;
        Ok(())
    }

    fn meet(&mut self, reader: u32) -> Result<(), NotEnabled>
        ensures { Takes (step.Meet reader) self.old self.new (is_ok result) }
    {
        let Some(ReaderPhase::Rest) = phase_at(&self.readers, reader) else {
            return Err(NotEnabled);
        };
        let WriterPhase::Idle = self.writer else {
            return Err(NotEnabled);
        };
        let last = self.published.len() as u64 - 1;
        set_floor(&mut self.readers, reader, last);
        Ok(())
    }

    /// Takes one step, exactly where it is allowed. Takes no memory.
    pub fn apply(&mut self, step: Step) -> Result<(), NotEnabled>
        requires spare { 0 < self.old.spare }
        requires published { length self.old.state.published < 2 ^ 62 }
        ensures { Takes step self.old self.new (is_ok result) }
    {
        match step {
            Step::Begin(x, y) => self.begin(x, y),
            Step::StoreA => self.store_a(),
            Step::StoreB => self.store_b(),
            Step::End => self.end(),
            Step::First(reader) => self.first(reader),
            Step::LoadA(reader) => self.load_a(reader),
            Step::LoadB(reader) => self.load_b(reader),
            Step::Second(reader) => self.second(reader),
            Step::Meet(reader) => self.meet(reader),
        }
    }

    /// Takes the steps one after another, and stops at the first that isn't allowed, with the state
    /// before it. Without memory for them it takes none. Each step uses at most one of the spare
    /// steps that there were before.
    pub fn run(&mut self, steps: &[Step]) -> Result<(), Stop>
        requires { length self.old.state.published + length steps.now < 2 ^ 62 }
        ensures ok { OnOk result ((first_refused steps.now self.old.state ≡ None) × (self.new.state ≡ run steps.now self.old.state)) }
        ensures stop { (place : ℕ) → result ≡ Err (stop.NotEnabled place) → (first_refused steps.now self.old.state ≡ Some place) × (self.new.state ≡ run steps.now self.old.state) }
        ensures memory { result ≡ Err stop.Memory → self.new ≡ self.old }
        ensures spare { self.old.spare ≤ self.new.spare + length steps.now }
        ensures safe { IsSafe self.new.state }
    {
        if self.grow(steps.len()).is_err() {
            return Err(Stop::Memory);
        }
        for (place, step) in steps.iter().enumerate() {
            if self.apply(*step).is_err() {
                return Err(Stop::NotEnabled(place));
            }
        }
        Ok(())
    }
}
