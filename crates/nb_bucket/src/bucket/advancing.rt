//! How a bucket goes on by time.
ghost use Rattle.std.specs.Prelude.{◌≡◌, ◌+◌, ◌<◌, ◌≤◌, true, false, IfOk, IfErr, OnOk, OnErr};
ghost use Rattle.nud_machine.specs.Asked.{greatest};
ghost use Rattle.nb_journal.specs.Lawful.{NothingDue, IsLawful};
ghost use Rattle.nb_bucket.specs.Bucket.{HasCause, ComesNext};
ghost use Rattle.nb_bucket.specs.Counting.{shown, IsCensusOf, CountsAlong};
ghost use Rattle.nb_bucket.specs.Keeps.{IsNextSweep};
ghost use Rattle.nb_bucket.specs.Going.{GoesOneOn, GoesAlong};

use super::Bucket;
use crate::BucketFail;
use crate::counting::look;
use crate::room::check_room;
use crate::timers::{append, next_timer};
use crate::writing::write_each;
use nb_base::{Line, Moment, Op};
use nb_census::Census;
use std::alloc::Global;

impl Bucket {
    /// Writes the line of the next timer that is due up to the moment, if there is one. No sweep is to stand before the moment.
    fn push_timer<C: Census>(
        &mut self,
        alloc: Global,
        census: &mut C,
        until: Moment,
        next: Moment,
    ) -> Result<bool, BucketFail>
        requires now { until ≤ greatest }
        requires until { until ≤ next }
        requires next { IsNextSweep self.old.params self.old.lines self.old.clock next }
        requires census { IsCensusOf self.old.params self.old.lines (shown C.name C.share C.changes C.looks C.others census.old) }
        ensures pushed { IfOk result (λ more. more ≡ true → GoesOneOn self.old self.new until) }
        ensures next { IfOk result (λ more. more ≡ true → IsNextSweep self.new.params self.new.lines self.new.clock next) }
        ensures same { IfOk result (λ more. more ≡ false → self.new ≡ self.old) }
        ensures none { IfOk result (λ more. more ≡ false → NothingDue self.new.params self.new.lines until) }
        ensures lawful { IfOk result (λ more. more ≡ false → self.new.clock ≤ until → until < next → IsLawful self.new.params self.new.lines until) }
        ensures unchanged { IfErr result (λ fail. self.new ≡ self.old) }
        ensures refused { IfErr result (HasCause self.old (ComesNext self.old.params self.old.lines until)) }
        ensures counted { CountsAlong self.old.params self.old.lines self.new.lines (shown C.name C.share C.changes C.looks C.others census.old) (shown C.name C.share C.changes C.looks C.others census.new) }
    {
        let Some(line) = next_timer(&self.fold, &self.timers, until) else {
            return Ok(false);
        };
        check_room(self.fold.lines().len() as u32, 1, self.limit)?;
        self.fold.reserve(alloc, 1)?;
        self.timers.advance(line.at);
        append(
            &mut self.fold,
            &mut self.timers,
            census,
            &line,
            &mut self.acts,
        );
        self.clock = line.at;
        Ok(true)
    }

    /// Writes the lines of all timers that are due up to the moment. No sweep is to stand before the moment.
    fn push_timers<C: Census>(
        &mut self,
        alloc: Global,
        census: &mut C,
        until: Moment,
        next: Moment,
    ) -> Result<(), BucketFail>
        requires now { until ≤ greatest }
        requires until { until ≤ next }
        requires next { IsNextSweep self.old.params self.old.lines self.old.clock next }
        requires census { IsCensusOf self.old.params self.old.lines (shown C.name C.share C.changes C.looks C.others census.old) }
        ensures along { GoesAlong self.old self.new until }
        ensures next { OnOk result (IsNextSweep self.new.params self.new.lines self.new.clock next) }
        ensures none { OnOk result (NothingDue self.new.params self.new.lines until) }
        ensures lawful { OnOk result (self.old.clock ≤ until → until < next → IsLawful self.new.params self.new.lines until) }
        ensures refused { IfErr result (HasCause self.new (ComesNext self.new.params self.new.lines until)) }
        ensures counted { CountsAlong self.old.params self.old.lines self.new.lines (shown C.name C.share C.changes C.looks C.others census.old) (shown C.name C.share C.changes C.looks C.others census.new) }
    {
        while self.push_timer(alloc, census, until, next)? {}
        Ok(())
    }

    /// Writes the line of a sweep, up to which no timer is due any more, with what it sees. Answers the next sweep's moment.
    fn push_sweep<C: Census>(
        &mut self,
        alloc: Global,
        census: &mut C,
        next: Moment,
    ) -> Result<Moment, BucketFail>
        requires now { next ≤ greatest }
        requires next { IsNextSweep self.old.params self.old.lines self.old.clock next }
        requires none { NothingDue self.old.params self.old.lines next }
        requires census { IsCensusOf self.old.params self.old.lines (shown C.name C.share C.changes C.looks C.others census.old) }
        ensures pushed { OnOk result (GoesOneOn self.old self.new next) }
        ensures next { IfOk result (IsNextSweep self.new.params self.new.lines self.new.clock) }
        ensures later { IfOk result (λ later. next < later) }
        ensures unchanged { OnErr result (self.new ≡ self.old) }
        ensures refused { IfErr result (HasCause self.old (ComesNext self.old.params self.old.lines next)) }
        ensures counted { CountsAlong self.old.params self.old.lines self.new.lines (shown C.name C.share C.changes C.looks C.others census.old) (shown C.name C.share C.changes C.looks C.others census.new) }
    {
        check_room(self.fold.lines().len() as u32, 1, self.limit)?;
        self.fold.reserve(alloc, 1)?;
        let line = Line {
            at: next,
            id: None,
            op: Op::Sweep,
            seen: Some(look(census)),
            full: None,
        };
        self.timers.advance(next);
        write_each(
            &mut self.fold,
            &mut self.order,
            &mut self.ranks,
            &mut self.timers,
            census,
            &line,
            &mut self.acts,
        );
        self.clock = next;
        self.next_sweep = next.after(self.fold.params().gc_interval);
        Ok(self.next_sweep)
    }

    /// Writes all lines that come by time up to the next sweep's, and that one. Answers the moment of the sweep after it.
    fn pass_sweep<C: Census>(
        &mut self,
        alloc: Global,
        census: &mut C,
        next: Moment,
    ) -> Result<Moment, BucketFail>
        requires now { next ≤ greatest }
        requires next { IsNextSweep self.old.params self.old.lines self.old.clock next }
        requires census { IsCensusOf self.old.params self.old.lines (shown C.name C.share C.changes C.looks C.others census.old) }
        ensures along { GoesAlong self.old self.new next }
        ensures next { IfOk result (IsNextSweep self.new.params self.new.lines self.new.clock) }
        ensures later { IfOk result (λ later. next < later) }
        ensures refused { IfErr result (HasCause self.new (ComesNext self.new.params self.new.lines next)) }
        ensures counted { CountsAlong self.old.params self.old.lines self.new.lines (shown C.name C.share C.changes C.looks C.others census.old) (shown C.name C.share C.changes C.looks C.others census.new) }
    {
        self.push_timers(alloc, census, next, next)?;
        self.push_sweep(alloc, census, next)
    }

    /// The moment of the next sweep.
    fn next_sweep(&self) -> Moment
        ensures { IsNextSweep self.now.params self.now.lines self.now.clock result }
    {
        self.next_sweep
    }

    /// Writes all lines that come by time up to the moment, which isn't before the clock. The clock becomes that of the last line.
    pub(super) fn run_to<C: Census>(
        &mut self,
        alloc: Global,
        census: &mut C,
        to: Moment,
    ) -> Result<(), BucketFail>
        requires now { to ≤ greatest }
        requires clock { self.old.clock ≤ to }
        requires census { IsCensusOf self.old.params self.old.lines (shown C.name C.share C.changes C.looks C.others census.old) }
        ensures along { GoesAlong self.old self.new to }
        ensures lawful { OnOk result (IsLawful self.new.params self.new.lines to) }
        ensures refused { IfErr result (HasCause self.new (ComesNext self.new.params self.new.lines to)) }
        ensures counted { CountsAlong self.old.params self.old.lines self.new.lines (shown C.name C.share C.changes C.looks C.others census.old) (shown C.name C.share C.changes C.looks C.others census.new) }
    {
        let mut next = self.next_sweep();
        while next <= to {
            next = self.pass_sweep(alloc, census, next)?;
        }
        self.push_timers(alloc, census, to, next)
    }

    /// Sets the clock to a moment at which the journal is lawful.
    pub(super) fn settle(&mut self, to: Moment)
        requires now { to ≤ greatest }
        requires clock { self.old.clock ≤ to }
        requires lawful { IsLawful self.old.params self.old.lines to }
        ensures { self.new ≡ record self.old { clock = to } }
    {
        self.timers.advance(to);
        self.clock = to;
    }
}
