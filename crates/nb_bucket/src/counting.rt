//! How a bucket counts at a census.
ghost use Rattle.std.specs.Prelude.{◌≡◌, ◌+◌, ◌<◌, ◌≤◌, ◌∷◌, ◌++◌, [], true, None, is_some, length};
ghost use Rattle.nb_journal.specs.Fold as rules;
ghost use Rattle.nb_journal.specs.Keys as keys_of;
ghost use Rattle.nb_journal.specs.Steps.{IsStep};
ghost use Rattle.journal_fold.specs.Present.{HoldsPresent};
ghost use Rattle.nb_bucket.specs.Bucket.{most_lines};
ghost use Rattle.nb_bucket.specs.Counting.{shown, IsCensusOf, CountsLine, LooksOnce, LooksFor};

use journal_fold::Fold;
use nb_base::{Line, Reply};
use nb_census::Census;
use nud_machine::Acts;

/// The census learns that so many entries are present now, where so many were present before.
fn count_present<C: Census>(census: &mut C, was: u32, now: u32)
    requires share { C.share census.old ≡ was }
    requires few { length (C.changes census.old) < most_lines }
    requires most { now ≤ most_lines }
    ensures { CountsLine was now (shown C.name C.share C.changes C.looks C.others census.old) (shown C.name C.share C.changes C.looks C.others census.new) }
{
    if was < now {
        census.grow(now - was);
    } else if now < was {
        census.shrink(was - now);
    }
}

/// What a line sees of the whole table.
pub fn look<C: Census>(census: &mut C) -> u32
    ensures { LooksOnce (shown C.name C.share C.changes C.looks C.others census.old) (shown C.name C.share C.changes C.looks C.others census.new) result }
{
    census.look()
}

/// What a line sees of the whole table, where it looks.
pub fn look_for<C: Census>(census: &mut C, looks: bool) -> Option<u32>
    ensures there { is_some result ≡ looks }
    ensures looked { LooksFor (shown C.name C.share C.changes C.looks C.others census.old) (shown C.name C.share C.changes C.looks C.others census.new) result }
{
    if looks { Some(look(census)) } else { None }
}

/// Appends a line, and the census counts it.
pub fn append<C: Census>(
    fold: &mut Fold,
    census: &mut C,
    line: &Line,
    acts: &mut Acts,
) -> Option<Reply>
    requires step { IsStep fold.old.params fold.old.lines line.now }
    requires few { length fold.old.lines < most_lines }
    requires room { 0 < fold.old.room }
    requires place { fold.old.has_place ≡ true }
    requires census { IsCensusOf fold.old.params fold.old.lines (shown C.name C.share C.changes C.looks C.others census.old) }
    ensures lines { fold.new.lines ≡ fold.old.lines ++ line.now ∷ [] }
    ensures params { fold.new.params ≡ fold.old.params }
    ensures room { fold.old.room ≤ fold.new.room + 1 }
    ensures place { keys_of.made_known line.now.op ≡ None → fold.new.has_place ≡ true }
    ensures reply { result ≡ rules.reply_of fold.old.params fold.old.lines line.now }
    ensures counted { CountsLine (rules.present_count fold.old.params fold.old.lines) (rules.present_count fold.new.params fold.new.lines) (shown C.name C.share C.changes C.looks C.others census.old) (shown C.name C.share C.changes C.looks C.others census.new) }
{
    let was = fold.present() as u32;
    let reply = fold.append(line, acts);
    count_present(census, was, fold.present() as u32);
    reply
}

/// Appends a line that names no key, over the ranks of the present ones alone, and the census counts it.
pub fn append_over<C: Census>(
    fold: &mut Fold,
    census: &mut C,
    line: &Line,
    ranks: &[u32],
    acts: &mut Acts,
) -> Option<Reply>
    requires step { IsStep fold.old.params fold.old.lines line.now }
    requires few { length fold.old.lines < most_lines }
    requires names { keys_of.key_of line.now.op ≡ None }
    requires room { 0 < fold.old.room }
    requires ranks { HoldsPresent fold.old.params fold.old.lines ranks.now }
    requires census { IsCensusOf fold.old.params fold.old.lines (shown C.name C.share C.changes C.looks C.others census.old) }
    ensures lines { fold.new.lines ≡ fold.old.lines ++ line.now ∷ [] }
    ensures params { fold.new.params ≡ fold.old.params }
    ensures reply { result ≡ rules.reply_of fold.old.params fold.old.lines line.now }
    ensures counted { CountsLine (rules.present_count fold.old.params fold.old.lines) (rules.present_count fold.new.params fold.new.lines) (shown C.name C.share C.changes C.looks C.others census.old) (shown C.name C.share C.changes C.looks C.others census.new) }
{
    let was = fold.present() as u32;
    let reply = fold.append_over(line, ranks, acts);
    count_present(census, was, fold.present() as u32);
    reply
}
