//! Room for an operation's lines.
ghost use Rattle.std.specs.Prelude.{◌≡◌, ◌+◌, ◌<◌, ◌≤◌, true, IfErr, OnOk, OnErr, length, vec_capacity};
ghost use Rattle.nb_journal.specs.Fold as rules;
ghost use Rattle.nb_bucket.specs.Bucket.{most_lines};
ghost use Rattle.nb_bucket.specs.Dues.{AreArmed};
ghost use Rattle.nb_bucket.specs.Making.{HoldsOrder};

use crate::BucketFail;
use journal_fold::Fold;
use nb_base::Key;
use slot_links::Links;
use std::alloc::{AllocError, Global};
use timer_wheel::Wheel;

/// Whether a journal of `has` lines has room for so many more.
pub fn check_room(has: u32, needs: u32, limit: u32) -> Result<(), BucketFail>
    requires { has ≤ limit }
    ensures room { OnOk result (has + needs ≤ limit) }
    ensures full { IfErr result (λ fail. fail ≡ BucketFail.JournalFull has needs) }
    ensures too_many { OnErr result (limit < has + needs) }
{
    if needs > limit - has {
        Err(BucketFail::JournalFull { has, needs })
    } else {
        Ok(())
    }
}

/// Makes room for all that an operation's lines take: the lines by which its forced pass removes the victims and its own, and one
/// key more, with its node, its timer and a place among the ranks and the victims. A refusal leaves what they hold as before.
pub fn make_room(
    alloc: Global,
    fold: &mut Fold,
    order: &mut Links,
    ranks: &mut Vec<u32>,
    victims: &mut Vec<Key>,
    timers: &mut Wheel,
) -> Result<(), AllocError>
    requires few { length fold.old.lines ≤ most_lines }
    requires taken { length victims.old.items ≤ most_lines }
    requires order { HoldsOrder fold.old.params fold.old.lines order.old }
    requires ranks { order.old.nodes ≤ vec_capacity ranks.old }
    requires victims { order.old.nodes ≤ vec_capacity victims.old }
    requires armed { AreArmed fold.old.params fold.old.lines timers.old }
    ensures lines { fold.new.lines ≡ fold.old.lines }
    ensures params { fold.new.params ≡ fold.old.params }
    ensures taken { victims.new.items ≡ victims.old.items }
    ensures order { HoldsOrder fold.old.params fold.old.lines order.new }
    ensures ranks { order.new.nodes ≤ vec_capacity ranks.new }
    ensures victims { order.new.nodes ≤ vec_capacity victims.new }
    ensures armed { AreArmed fold.old.params fold.old.lines timers.new }
    ensures passed { timers.new.now ≡ timers.old.now }
    ensures room { OnOk result (length victims.old.items < fold.new.room) }
    ensures place { OnOk result (fold.new.has_place ≡ true) }
    ensures node { OnOk result (length (rules.known_keys fold.old.lines) < order.new.nodes) }
    ensures timer { OnOk result (length (rules.known_keys fold.old.lines) < length timers.new.dues) }
{
    fold.reserve(alloc, victims.len() + 1)?;
    let nodes = fold.keys().len() + 1;
    victims.reserve(nodes)?;
    ranks.reserve(nodes)?;
    order.reserve(nodes as u32)?;
    timers.reserve(nodes as u32)?;
    Ok(())
}
