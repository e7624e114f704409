//! Taking a line that names no key, over the entries that are present.
ghost use Rattle.std.specs.Prelude.{◌≡◌, ◌+◌, ◌<◌, ◌≤◌, ◌^◌, ◌++◌, ◌∷◌, [], true, None, length};
ghost use Rattle.nb_journal.specs.Steps.{IsStep};
ghost use Rattle.nb_journal.specs.Fold as rules;
ghost use Rattle.nb_journal.specs.Keys as keys_of;
ghost use Rattle.journal_fold.specs.Present.{HoldsPresent};
ghost use Rattle.journal_fold.specs.Removing as removing;

use super::{Fold, push_line};
use crate::steps::go_on_ranks;
use nb_base::{Line, Op, Reply};
use nud_machine::Acts;

/// The reply to a line that names no key, by how many entries were present before it, and are now.
fn reply_to_each(op: &Op, was: usize, now: usize) -> Option<Reply>
    requires few { was < 2 ^ 32 }
    requires fewer { now ≤ was }
    ensures { result ≡ removing.reply_to_each op.now was now }
{
    match op {
        Op::Show => Some(Reply::Counted(was as u32)),
        Op::Flush => Some(Reply::Counted((was - now) as u32)),
        _ => None,
    }
}

impl Fold {
    /// The line's step on the keys of the ranks, where it names none.
    fn step_ranks(&mut self, line: &Line, ranks: &[u32], room: &mut Acts)
        requires step { IsStep self.old.params self.old.lines line.now }
        requires names { keys_of.key_of line.now.op ≡ None }
        requires room { 0 < self.old.room }
        requires ranks { HoldsPresent self.old.params self.old.lines ranks.now }
        ensures lines { self.new.lines ≡ self.old.lines ++ line.now ∷ [] }
        ensures params { self.new.params ≡ self.old.params }
        ensures room { self.old.room ≤ self.new.room + 1 }
        ensures place { self.new.has_place ≡ self.old.has_place }
    {
        go_on_ranks(
            self.keys.as_slice(),
            &mut self.kept,
            &mut self.present,
            &self.params,
            &self.lines,
            line,
            ranks,
            room,
        );
        push_line(&mut self.lines, *line);
    }

    /// Appends a line that names no key as `append` does, and goes over the keys of the ranks alone: different ones, which have to
    /// hold that of each present key. Takes no memory: room for the line has to be there.
    pub fn append_over(&mut self, line: &Line, ranks: &[u32], acts: &mut Acts) -> Option<Reply>
        requires few { length self.old.lines < 2 ^ 32 }
        requires step { IsStep self.old.params self.old.lines line.now }
        requires names { keys_of.key_of line.now.op ≡ None }
        requires room { 0 < self.old.room }
        requires ranks { HoldsPresent self.old.params self.old.lines ranks.now }
        ensures reply { result ≡ rules.reply_of self.old.params self.old.lines line.now }
        ensures lines { self.new.lines ≡ self.old.lines ++ line.now ∷ [] }
        ensures params { self.new.params ≡ self.old.params }
        ensures room { self.old.room ≤ self.new.room + 1 }
        ensures place { self.new.has_place ≡ self.old.has_place }
    {
        let was = self.present();
        self.step_ranks(line, ranks, acts);
        reply_to_each(&line.op, was, self.present())
    }
}
