//! How an operation is entered.
ghost use Rattle.std.specs.Prelude.{◌≡◌, ◌≤◌, true, IfOk, IfErr, OnOk, OnErr};
ghost use Rattle.nud_machine.specs.Asked.{greatest};
ghost use Rattle.nb_journal.specs.Keys.{may_be_asked};
ghost use Rattle.nb_journal.specs.Keys as keys_of;
ghost use Rattle.nb_journal.specs.Lawful.{IsLawful};
ghost use Rattle.nb_bucket.specs.Bucket.{HasCause, EntersNext};
ghost use Rattle.nb_bucket.specs.Counting.{shown, IsCensusOf, CountsAlong, CountsRefused};
ghost use Rattle.nb_bucket.specs.Entering.{IsEntered};

use super::Bucket;
use crate::BucketFail;
use crate::passing::{pass_after, plan};
use crate::room::{check_room, make_room};
use crate::writing::write;
use nb_base::{Line, Moment, Op, OpId, Reply};
use nb_census::Census;
use std::alloc::Global;

impl Bucket {
    /// Enters an operation at a moment at which the journal is lawful. A refusal leaves the journal as before.
    pub(super) fn enter_at<C: Census>(
        &mut self,
        alloc: Global,
        census: &mut C,
        at: Moment,
        id: OpId,
        op: Op,
    ) -> Result<(u32, Reply), BucketFail>
        requires now { at ≤ greatest }
        requires clock { self.old.clock ≤ at }
        requires lawful { IsLawful self.old.params self.old.lines at }
        requires own { keys_of.is_own op ≡ true }
        requires asked { may_be_asked op ≡ true }
        requires census { IsCensusOf self.old.params self.old.lines (shown C.name C.share C.changes C.looks C.others census.old) }
        ensures entered { IfOk result (λ x. IsEntered self.old self.new at id op x.0 x.1) }
        ensures unchanged { OnErr result (self.new ≡ self.old) }
        ensures refused { IfErr result (HasCause self.old (EntersNext self.old.params self.old.lines at id op (C.others census.old))) }
        ensures counted { OnOk result (CountsAlong self.old.params self.old.lines self.new.lines (shown C.name C.share C.changes C.looks C.others census.old) (shown C.name C.share C.changes C.looks C.others census.new)) }
        ensures refused_counted { OnErr result (CountsRefused self.old.params self.old.lines self.new.lines (shown C.name C.share C.changes C.looks C.others census.old) (shown C.name C.share C.changes C.looks C.others census.new)) }
    {
        let bare = Line {
            at,
            id: Some(id),
            op,
            seen: None,
            full: None,
        };
        let planned = plan(
            &mut self.victims,
            &self.fold,
            &self.order,
            census,
            self.last_pass,
            bare,
        );
        let line = Line {
            at,
            id: Some(id),
            op,
            seen: planned.seen,
            full: None,
        };
        let has = self.fold.lines().len() as u32;
        let collects = self.victims.len() as u32;
        check_room(has, collects + 1, self.limit)?;
        make_room(
            alloc,
            &mut self.fold,
            &mut self.order,
            &mut self.ranks,
            &mut self.victims,
            &mut self.timers,
        )?;
        self.timers.advance(at);
        let reply = write(
            &mut self.fold,
            &mut self.order,
            &mut self.ranks,
            &mut self.timers,
            census,
            line,
            planned.made,
            &self.victims,
            &mut self.acts,
        );
        self.last_pass = pass_after(planned.pass, at, self.last_pass);
        self.clock = at;
        Ok((has + collects, reply))
    }
}
