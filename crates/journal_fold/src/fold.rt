//! The keys of a journal with their entries, kept up with its lines.
ghost use Rattle.std.specs.Prelude.{◌≡◌, ◌<◌, ◌≤◌, ◌+◌, ◌-◌, ◌^◌, ◌++◌, ◌∷◌, [], true, None, Some, IfSome, IfOk, OnOk, OnErr, IsTrue, is_some, map, length, vec_len, vec_capacity};
ghost use Rattle.std.specs.List.{AllByRecursion};
ghost use Rattle.nb_base.specs.Params.{InRange};
ghost use Rattle.nb_journal.specs.Accounts.{acts_at};
ghost use Rattle.nb_journal.specs.Steps.{IsKept, IsStep, state_in, effect_named};
ghost use Rattle.nb_journal.specs.Keys.{has_key, may_be_asked};
ghost use Rattle.nb_journal.specs.Fold as rules;
ghost use Rattle.nb_journal.specs.Keys as keys_of;
ghost use Rattle.journal_fold.specs.Verdicts.{IsVerdict};
ghost use Rattle.journal_fold.specs.Hearing.{Hears};

mod over;
mod taking;

use crate::counts::{count_loose, count_waiting};
use crate::hearing::{Hearer, Nobody};
use crate::known::{find_rank, make_known, reserve_key};
use crate::steps::{go_on_each, go_on_named};
use crate::verdict::{Verdict, counted, reply_by, verdict_by};
use indexmap::IndexSet;
use nb_base::{Key, Line, Op, Params, Reply};
use nb_journal::{Effect, Kept, effect_of, is_own, key_of};
use nud_machine::{Act, Acts};
use std::alloc::{AllocError, Global};
use std::marker::Model;

/// Puts the line behind the others, for which there is room.
fn push_line(lines: &mut Vec<Line>, line: Line)
    requires { vec_len lines.old < vec_capacity lines.old }
    ensures lines { lines.new.items ≡ lines.old.items ++ line ∷ [] }
    ensures room { vec_capacity lines.old - vec_len lines.old ≤ vec_capacity lines.new - vec_len lines.new + 1 }
{
    match lines.push(line) {
        Ok(()) => {}
        Err(_) => unreachable!(),
    }
}

/// A journal's lines, and what they leave: the known keys by rank, each with its entry and its waiting packets, and how many entries
/// are present. Contracts see the lines. A line that names a key goes to that key alone; a sweep and a flush go over all known keys.
#[derive(Drop)]
pub struct Fold {
    params: Params,
    lines: Vec<Line>,
    keys: IndexSet<Key>,
    kept: Vec<Kept>,
    next: Option<Kept>,
    /// The entry of every key that isn't known.
    blank: Kept,
    present: usize,
}

impl Model for Fold {
    ghost use Rattle.journal_fold.specs.Taken.{Taken};
    ghost use Rattle.journal_fold.specs.Keeps.{taken_by, IsFold};

    ghost Value = { Taken };

    ghost view = { taken_by };

    ghost invariant = { IsFold };
}

impl Fold {
    /// The fold over no lines. Takes the memory of a key's parts.
    pub fn new(alloc: Global, params: &Params) -> Result<Fold, AllocError>
        requires { InRange params.now }
        ensures params { IfOk result (λ f. f.params ≡ params.now) }
        ensures lines { IfOk result (λ f. f.lines ≡ []) }
    {
        let next = Kept::absent(alloc)?;
        let blank = Kept::absent(alloc)?;
        Ok(Fold {
            params: *params,
            lines: Vec::new(alloc),
            keys: IndexSet::new(alloc),
            kept: Vec::new(alloc),
            next: Some(next),
            blank,
            present: 0,
        })
    }

    /// The parameters.
    pub fn params(&self) -> &Params
        ensures params { result.now ≡ self.now.params }
        ensures in_range { InRange self.now.params }
    {
        &self.params
    }

    /// The lines that were taken.
    pub fn lines(&self) -> &[Line]
        ensures { result.now ≡ self.now.lines }
    {
        &self.lines
    }

    /// The keys that the lines make known, by rank.
    pub fn keys(&self) -> &[Key]
        ensures { result.now ≡ rules.known_keys self.now.lines }
    {
        self.keys.as_slice()
    }

    /// Their entries with the packets that wait, by rank.
    pub fn kept(&self) -> &[Kept]
        ensures states { map state_in result.now ≡ map (rules.state_of self.now.params self.now.lines) (rules.known_keys self.now.lines) }
        ensures kept { AllByRecursion (IsKept self.now.params) result.now }
    {
        &self.kept
    }

    /// A key's entry with the packets that wait for it; `None` exactly where the key isn't known.
    pub fn find(&self, key: &Key) -> Option<&Kept>
        ensures known { is_some result ≡ has_key (rules.known_keys self.now.lines) key.now }
        ensures state { IfSome result (λ kept. state_in kept.now ≡ rules.state_of self.now.params self.now.lines key.now) }
        ensures kept { IfSome result (λ kept. IsKept self.now.params kept.now) }
    {
        let rank = find_rank(&self.keys, key)?;
        Some(&self.kept[rank])
    }

    /// The key's rank, its place in the order in which the keys became known; `None` exactly where it isn't known.
    pub fn rank_of(&self, key: &Key) -> Option<usize>
        ensures known { is_some result ≡ has_key (rules.known_keys self.now.lines) key.now }
        ensures rank { IfSome result (λ rank. rank ≡ rules.rank_of self.now.lines key.now) }
    {
        let rank = find_rank(&self.keys, key)?;
        Some(rank)
    }

    /// How many entries are present.
    pub fn present(&self) -> usize
        ensures { result ≡ rules.present_count self.now.params self.now.lines }
    {
        self.present
    }

    /// What the line's operation comes to for the key.
    pub fn effect_of(&self, line: &Line, key: &Key) -> Effect
        requires { IsTrue (may_be_asked line.now.op) }
        ensures { effect_named result ≡ rules.effect self.now.params line.now (rules.state_of self.now.params self.now.lines key.now) line.now.op }
    {
        match self.find(key) {
            Some(kept) => effect_of(&self.params, line, kept),
            None => effect_of(&self.params, line, &self.blank),
        }
    }

    /// The reply to a line that names the key, as far as it is known before its acts.
    fn verdict_for(&self, line: &Line, key: &Key) -> Verdict
        requires own { keys_of.is_own line.now.op ≡ true }
        requires names { keys_of.key_of line.now.op ≡ Some key.now }
        requires asked { IsTrue (may_be_asked line.now.op) }
        ensures { IsVerdict self.now.params self.now.lines line.now result }
    {
        match line.full {
            Some(seen) => Verdict::Told(Some(Reply::Full { seen })),
            None => verdict_by(self.effect_of(line, key)),
        }
    }

    /// The reply to a line, as far as it is known before its acts.
    fn verdict(&self, line: &Line) -> Verdict
        requires few { length self.now.lines < 2 ^ 32 }
        requires asked { IsTrue (may_be_asked line.now.op) }
        ensures { IsVerdict self.now.params self.now.lines line.now result }
    {
        if !is_own(&line.op) {
            return Verdict::Told(None);
        }
        match line.op {
            Op::Show => counted(self.present),
            Op::Flush => counted(count_loose(&self.kept)),
            _ => match key_of(&line.op) {
                Some(key) => self.verdict_for(line, &key),
                None => Verdict::Told(None),
            },
        }
    }

    /// Makes room for so many lines, and for the parts of one more key. A refusal leaves all as before.
    pub fn reserve(&mut self, alloc: Global, lines: usize) -> Result<(), AllocError>
        ensures same { self.new.lines ≡ self.old.lines }
        ensures params { self.new.params ≡ self.old.params }
        ensures room { OnOk result (lines ≤ self.new.room) }
        ensures place { OnOk result (self.new.has_place ≡ true) }
    {
        self.lines.reserve(lines)?;
        reserve_key(alloc, &mut self.keys, &mut self.kept, &mut self.next)
    }

    /// The key that the line makes known goes behind the others, and the line's step on the key that it names.
    fn step_named(&mut self, line: &Line, key: &Key, acts: &mut Acts)
        requires step { IsStep self.old.params self.old.lines line.now }
        requires names { keys_of.key_of line.now.op ≡ Some key.now }
        requires room { 0 < self.old.room }
        requires place { self.old.has_place ≡ true }
        ensures lines { self.new.lines ≡ self.old.lines ++ line.now ∷ [] }
        ensures params { self.new.params ≡ self.old.params }
        ensures room { self.old.room ≤ self.new.room + 1 }
        ensures place { keys_of.made_known line.now.op ≡ None → self.new.has_place ≡ true }
        ensures acts { acts.new ≡ acts_at self.old.params self.old.lines line.now }
    {
        make_known(
            &mut self.keys,
            &mut self.kept,
            &mut self.next,
            &self.params,
            &self.lines,
            line,
        );
        go_on_named(
            &self.keys,
            &mut self.kept,
            &mut self.present,
            &self.params,
            &self.lines,
            line,
            key,
            acts,
        );
        push_line(&mut self.lines, *line);
    }

    /// The line's step on each key, where it names none. The hearer hears the acts.
    fn step_each<H: Hearer>(&mut self, line: &Line, room: &mut Acts, hearer: &mut H)
        requires step { IsStep self.old.params self.old.lines line.now }
        requires names { keys_of.key_of line.now.op ≡ None }
        requires room { 0 < self.old.room }
        ensures lines { self.new.lines ≡ self.old.lines ++ line.now ∷ [] }
        ensures params { self.new.params ≡ self.old.params }
        ensures room { self.old.room ≤ self.new.room + 1 }
        ensures place { self.new.has_place ≡ self.old.has_place }
        ensures heard { Hears (H.heard hearer.old) (H.room hearer.old) (H.heard hearer.new) (H.room hearer.new) (acts_at self.old.params self.old.lines line.now) }
    {
        go_on_each(
            self.keys.as_slice(),
            &mut self.kept,
            &mut self.present,
            &self.params,
            &self.lines,
            line,
            room,
            hearer,
        );
        push_line(&mut self.lines, *line);
    }

    /// The step of a line and its reply. The hearer hears its acts, by rank of their keys; `acts` becomes the acts of a line that names
    /// a key.
    fn step<H: Hearer>(&mut self, line: &Line, acts: &mut Acts, hearer: &mut H) -> Option<Reply>
        requires few { length self.old.lines < 2 ^ 32 }
        requires step { IsStep self.old.params self.old.lines line.now }
        requires room { 0 < self.old.room }
        requires place { self.old.has_place ≡ true }
        ensures reply { result ≡ rules.reply_of self.old.params self.old.lines line.now }
        ensures lines { self.new.lines ≡ self.old.lines ++ line.now ∷ [] }
        ensures params { self.new.params ≡ self.old.params }
        ensures room { self.old.room ≤ self.new.room + 1 }
        ensures place { keys_of.made_known line.now.op ≡ None → self.new.has_place ≡ true }
        ensures acts { is_some (keys_of.key_of line.now.op) ≡ true → acts.new ≡ acts_at self.old.params self.old.lines line.now }
        ensures few { is_some (keys_of.key_of line.now.op) ≡ true → length (acts_at self.old.params self.old.lines line.now) ≤ 66 }
        ensures heard { Hears (H.heard hearer.old) (H.room hearer.old) (H.heard hearer.new) (H.room hearer.new) (acts_at self.old.params self.old.lines line.now) }
    {
        let verdict = self.verdict(line);
        match key_of(&line.op) {
            Some(key) => {
                self.step_named(line, &key, acts);
                hearer.hear(acts.as_slice());
            }
            None => self.step_each(line, acts, hearer),
        }
        reply_by(verdict, line, acts.as_slice())
    }

    /// Appends a line to the others, and answers its reply where it is an own line. `acts` becomes the acts of a line that names a
    /// key, and is left with no meaning by every other. Takes no memory: room for the line, and for one key more, has to be there.
    pub fn append(&mut self, line: &Line, acts: &mut Acts) -> Option<Reply>
        requires few { length self.old.lines < 2 ^ 32 }
        requires step { IsStep self.old.params self.old.lines line.now }
        requires room { 0 < self.old.room }
        requires place { self.old.has_place ≡ true }
        ensures reply { result ≡ rules.reply_of self.old.params self.old.lines line.now }
        ensures lines { self.new.lines ≡ self.old.lines ++ line.now ∷ [] }
        ensures params { self.new.params ≡ self.old.params }
        ensures room { self.old.room ≤ self.new.room + 1 }
        ensures place { keys_of.made_known line.now.op ≡ None → self.new.has_place ≡ true }
        ensures acts { is_some (keys_of.key_of line.now.op) ≡ true → acts.new ≡ acts_at self.old.params self.old.lines line.now }
    {
        self.step(line, acts, &mut Nobody)
    }

    /// How many acts a line has at most.
    fn most_acts(&self, line: &Line) -> usize
        requires { length self.now.lines < 2 ^ 32 }
        ensures named { is_some (keys_of.key_of line.now.op) ≡ true → result ≡ 66 }
        ensures each { keys_of.key_of line.now.op ≡ None → length (acts_at self.now.params self.now.lines line.now) ≤ result }
    {
        match key_of(&line.op) {
            Some(_) => Acts::MOST,
            None => count_waiting(&self.kept),
        }
    }

    /// Appends a line as `append` does, with the memory that it needs, and puts its acts behind the others, by rank of their keys.
    /// A refusal, which only want of memory brings, leaves the lines and the acts as before.
    pub fn append_with_acts(
        &mut self,
        alloc: Global,
        line: &Line,
        room: &mut Acts,
        acts: &mut Vec<Act>,
    ) -> Result<Option<Reply>, AllocError>
        requires few { length self.old.lines < 2 ^ 32 }
        requires step { IsStep self.old.params self.old.lines line.now }
        ensures reply { IfOk result (λ reply. reply ≡ rules.reply_of self.old.params self.old.lines line.now) }
        ensures lines { OnOk result (self.new.lines ≡ self.old.lines ++ line.now ∷ []) }
        ensures refused { OnErr result (self.new.lines ≡ self.old.lines) }
        ensures params { self.new.params ≡ self.old.params }
        ensures acts { OnOk result (acts.new.items ≡ acts.old.items ++ acts_at self.old.params self.old.lines line.now) }
        ensures no_acts { OnErr result (acts.new.items ≡ acts.old.items) }
    {
        acts.reserve(self.most_acts(line))?;
        self.reserve(alloc, 1)?;
        Ok(self.step(line, room, acts))
    }
}
