//! The due of each node, and the slots of those that are armed.
ghost use Rattle.std.specs.Prelude.{◌≡◌, ℕ, ◌<◌, ◌≤◌, ◌-◌, ◌++◌, [], None, Some, length, replicate, slice_set, slice_get, is_some, true, IfSome, ltb, if◌then◌else◌, IfOk, OnOk, OnErr};
ghost use Rattle.std.specs.Option.{MatchOption, unwrap_or};
ghost use Rattle.timer_wheel.specs.Map.{due_of, NoneArmed, IsLeast};
ghost use Rattle.timer_wheel.specs.Places.{slot_of};
ghost use Rattle.timer_wheel.specs.Kept.{Keeps, rank_of, IsLeastOf};
ghost use Rattle.slot_links.specs.Lists.{StandOnce, has, list_at};

use crate::slots::Slots;
use nb_base::Moment;
use std::alloc::{AllocError, Global};
use std::marker::Model;

/// Timers of numbered nodes, whose least is looked for. Contracts see a moment that no due is below, and each usable node's due, where it is
/// armed.
#[derive(Debug, Drop)]
pub struct Armed {
    moment: u64,
    dues: Vec<Option<u64>>,
    slots: Slots,
}

impl Model for Armed {
    ghost use Rattle.timer_wheel.specs.Map.{Timers};
    ghost use Rattle.timer_wheel.specs.Kept.{Keeps};

    ghost Value = { Timers };

    ghost view = { λ w. record { now = w.moment; dues = w.dues.items } };

    ghost invariant = { λ w. Keeps w.moment w.dues.items w.slots };
}

/// Adds so many nodes that aren't armed. Without memory none.
fn add_unarmed(dues: &mut Vec<Option<u64>>, more: usize) -> Result<(), AllocError>
    ensures ok { OnOk result (dues.new.items ≡ dues.old.items ++ replicate more None) }
    ensures err { OnErr result (dues.new.items ≡ dues.old.items) }
{
    dues.reserve(more)?;
    for _ in 0..more {
        dues.push_reserved(None);
    }
    Ok(())
}

/// The slot of a due.
fn slot_of(now: u64, due: u64) -> u32
    ensures slot { result ≡ slot_of now due }
    ensures within { result < 704 }
{
    let mut here = now;
    let mut there = due;
    for level in 0..10u32 {
        if here / 64 == there / 64 {
            return 64 * level + (there % 64) as u32;
        }
        here /= 64;
        there /= 64;
    }
    640 + (there % 64) as u32
}

impl Armed {
    /// No node, at moment 0.
    #[tactic(auto, using(crate::proofs::Timing::keeps_first))]
    pub fn new(alloc: Global) -> Result<Armed, AllocError>
        ensures { IfOk result (λ w. w ≡ record { now = 0; dues = [] }) }
    {
        Ok(Armed {
            moment: 0,
            dues: Vec::new(alloc),
            slots: Slots::new(alloc)?,
        })
    }

    /// Makes the nodes below `nodes` usable; further ones aren't armed. Without memory all stays as it was.
    pub fn reserve(&mut self, nodes: u32) -> Result<(), AllocError>
        ensures ok { OnOk result (self.new ≡ record { now = self.old.now; dues = self.old.dues ++ replicate (nodes - length self.old.dues) None }) }
        ensures err { OnErr result (self.new ≡ self.old) }
    {
        self.slots.reserve(nodes)?;
        let more = (nodes as usize).saturating_sub(self.dues.len());
        add_unarmed(&mut self.dues, more)
    }

    /// How many nodes are usable.
    pub fn nodes(&self) -> u32
        ensures { result ≡ length self.now.dues }
    {
        self.dues.len() as u32
    }

    /// The moment that no due is below.
    pub fn now(&self) -> Moment
        ensures moment { result ≡ self.now.now }
        ensures ahead { (node due : ℕ) → due_of self.now.dues node ≡ Some due → result ≤ due }
    {
        Moment(self.moment)
    }

    /// Sets a node's due, in place of an earlier one. Takes no memory.
    pub fn arm(&mut self, node: u32, due: Moment)
        requires node { node < length self.old.dues }
        requires due { self.old.now ≤ due }
        ensures { self.new ≡ record { now = self.old.now; dues = slice_set self.old.dues node (Some due) } }
    {
        self.slots.take(node);
        self.slots.put(slot_of(self.moment, due.0), node);
        self.dues[node as usize] = Some(due.0);
    }

    /// Takes a node's due away: false exactly where it isn't armed. Takes no memory.
    #[tactic(auto, using(crate::proofs::Timing::was_armed))]
    pub fn cancel(&mut self, node: u32) -> bool
        requires { node < length self.old.dues }
        ensures was { result ≡ is_some (due_of self.old.dues node) }
        ensures dues { self.new ≡ record { now = self.old.now; dues = slice_set self.old.dues node None } }
    {
        let slot = self.slots.take(node);
        self.dues[node as usize] = None;
        slot.is_some()
    }

    /// The due that a node has, or 0.
    fn due_at(&self, node: u32) -> u64
        requires { node < length self.now.dues }
        ensures { result ≡ unwrap_or (due_of self.now.dues node) 0 }
    {
        self.dues[node as usize].unwrap_or(0)
    }

    /// Time goes on to a moment that no due is below: the nodes of that moment's slot go to their new ones. Takes no memory.
    pub fn advance(&mut self, to: u64)
        requires later { self.old.now ≤ to }
        requires none { (node due : ℕ) → due_of self.old.dues node ≡ Some due → to ≤ due }
        ensures { self.new ≡ record { now = to; dues = self.old.dues } }
    {
        spread(&mut self.slots, &self.dues, self.moment, to);
        self.moment = to;
    }

    /// The least due, and among the nodes that have it the least: `None` exactly where nothing is armed. Takes no memory. It is looked for in
    /// the first slot that has a node.
    pub fn least(&self) -> Option<(Moment, u32)>
        ensures least { MatchOption result (NoneArmed self.now.dues) (λ r. IsLeast self.now.dues r.0 r.1) }
        ensures ahead { IfSome result (λ r. self.now.now ≤ r.0) }
    {
        let slot = self.slots.first_slot()?;
        let first = self.slots.first(slot)?;
        let node = least_in(&self.slots, &self.dues, slot, first);
        Some((Moment(self.due_at(node)), node))
    }
}

/// A node's due, or 0, and behind it the node, as one number.
fn rank(dues: &[Option<u64>], node: u32) -> u128
    requires { node < length dues.now }
    ensures { result ≡ rank_of dues.now node }
{
    let due = dues[node as usize].unwrap_or(0);
    u128::from(due) * (1 << 32) + u128::from(node)
}

/// The one of two nodes that has the lesser rank.
fn lesser(dues: &[Option<u64>], node: u32, other: u32) -> u32
    requires { (node < length dues.now) × (other < length dues.now) }
    ensures { result ≡ (if ltb (rank_of dues.now node) (rank_of dues.now other) then node else other) }
{
    if rank(dues, node) < rank(dues, other) {
        node
    } else {
        other
    }
}

/// The node of a slot that has the least rank, by a walk from the front of the slot's list.
fn least_in(slots: &Slots, dues: &[Option<u64>], slot: u32, first: u32) -> u32
    requires slot { slot < 704 }
    requires once { StandOnce slots.now }
    requires within { (node : ℕ) → has node (list_at slots.now.lists slot) ≡ true → node < length dues.now }
    requires first { slice_get (list_at slots.now.lists slot) 0 ≡ Some first }
    ensures { IsLeastOf dues.now (list_at slots.now.lists slot) result }
{
    let mut least = first;
    let mut at = slots.next(first);
    while let Some(node) = at {
        least = lesser(dues, node, least);
        at = slots.next(node);
    }
    least
}

/// Puts each node of a moment's slot into its slot from that moment on. At the lowest level all stay.
fn spread(slots: &mut Slots, dues: &[Option<u64>], now: u64, to: u64)
    requires keeps { Keeps now dues.now slots.old }
    requires later { now ≤ to }
    requires none { (node due : ℕ) → due_of dues.now node ≡ Some due → to ≤ due }
    ensures { Keeps to dues.now slots.new }
{
    let slot = slot_of(now, to);
    if slot < 64 {
        return;
    }
    while let Some(node) = slots.first(slot) {
        slots.take(node);
        let due = dues[node as usize].unwrap_or(0);
        slots.put(slot_of(to, due), node);
    }
}
