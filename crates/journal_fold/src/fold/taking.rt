//! Taking lines, with what they change of what is shown.
ghost use Rattle.std.specs.Prelude.{◌≡◌, ◌<◌, ◌^◌, ◌++◌, ◌∷◌, [], true, None, Some, IfOk, OnOk, OnErr, length};
ghost use Rattle.nb_journal.specs.Steps.{IsStep};
ghost use Rattle.nb_journal.specs.Fold as rules;
ghost use Rattle.nb_journal.specs.Keys as keys_of;
ghost use Rattle.journal_fold.specs.Touched.{touched_by};
ghost use Rattle.journal_fold.specs.Touched as spec;

use super::Fold;
use crate::touched::{Shown, Touched, gone, put_touch, shown_of};
use nb_base::{Items, Key, Line};
use nb_journal::key_of;
use nud_machine::Acts;
use std::alloc::{AllocError, Global};

impl Fold {
    /// What is shown of a key.
    fn shown(&self, key: &Key) -> Option<Shown>
        ensures { result ≡ spec.shown_of (rules.state_of self.now.params self.now.lines key.now) }
    {
        match self.find(key) {
            Some(kept) => shown_of(kept),
            None => None,
        }
    }

    /// What a line that names a key changes of what is shown of it.
    fn take_named(
        &mut self,
        alloc: Global,
        line: &Line,
        key: &Key,
        acts: &mut Acts,
    ) -> Result<Touched, AllocError>
        requires few { length self.old.lines < 2 ^ 32 }
        requires step { IsStep self.old.params self.old.lines line.now }
        requires names { keys_of.key_of line.now.op ≡ Some key.now }
        requires room { 0 < self.old.room }
        requires place { self.old.has_place ≡ true }
        ensures touched { IfOk result (λ touched. touched ≡ touched_by self.old.params self.old.lines line.now) }
        ensures lines { OnOk result (self.new.lines ≡ self.old.lines ++ line.now ∷ []) }
        ensures refused { OnErr result (self.new.lines ≡ self.old.lines) }
        ensures params { self.new.params ≡ self.old.params }
    {
        let mut touched = Vec::with_capacity(alloc, 1)?;
        let before = self.shown(key);
        let _reply = self.append(line, acts);
        put_touch(&mut touched, key, before, self.shown(key));
        Ok(Items::from_vec(touched))
    }

    /// The keys whose entries a line removes that names none.
    fn take_each(
        &mut self,
        alloc: Global,
        line: &Line,
        acts: &mut Acts,
    ) -> Result<Touched, AllocError>
        requires few { length self.old.lines < 2 ^ 32 }
        requires step { IsStep self.old.params self.old.lines line.now }
        requires names { keys_of.key_of line.now.op ≡ None }
        requires room { 0 < self.old.room }
        requires place { self.old.has_place ≡ true }
        ensures touched { IfOk result (λ touched. touched ≡ touched_by self.old.params self.old.lines line.now) }
        ensures lines { OnOk result (self.new.lines ≡ self.old.lines ++ line.now ∷ []) }
        ensures refused { OnErr result (self.new.lines ≡ self.old.lines) }
        ensures params { self.new.params ≡ self.old.params }
    {
        let touched = gone(alloc, &self.params, line, self.keys.as_slice(), &self.kept)?;
        let _reply = self.append(line, acts);
        Ok(Items::from_vec(touched))
    }

    /// Appends a line as `append` does, with the memory that it needs, and answers the keys of which it changes what is shown, by rank,
    /// with what is shown of them now. A refusal, which only want of memory brings, leaves the lines as before.
    pub fn take(&mut self, alloc: Global, line: &Line) -> Result<Touched, AllocError>
        requires few { length self.old.lines < 2 ^ 32 }
        requires step { IsStep self.old.params self.old.lines line.now }
        ensures touched { IfOk result (λ touched. touched ≡ touched_by self.old.params self.old.lines line.now) }
        ensures lines { OnOk result (self.new.lines ≡ self.old.lines ++ line.now ∷ []) }
        ensures refused { OnErr result (self.new.lines ≡ self.old.lines) }
        ensures params { self.new.params ≡ self.old.params }
    {
        let mut acts = Acts::new(alloc)?;
        self.reserve(alloc, 1)?;
        match key_of(&line.op) {
            Some(key) => self.take_named(alloc, line, &key, &mut acts),
            None => self.take_each(alloc, line, &mut acts),
        }
    }
}
