//! The slots: a list of nodes for each, and a mark on those that have one.
ghost use Rattle.std.specs.Prelude.{◌≡◌, ℕ, ◌<◌, ◌≤◌, max, [], None, replicate, slice_get, IfOk, OnOk, OnErr, length};
ghost use Rattle.std.specs.Option.{MatchOption};
ghost use Rattle.slot_links.specs.Lists.{Linked, StandOnce, list_at, holder, next_of, put_back, take_out};
ghost use Rattle.timer_wheel.specs.Kept.{IsFirstSlot};

use crate::marks::SlotMarks;
use slot_links::Links;
use std::alloc::{AllocError, Global};
use std::marker::Model;

/// How many slots there are: eleven levels of 64.
const SLOTS: u32 = 704;

/// The nodes of each slot. Contracts see the lists, and how many nodes are usable.
#[derive(Debug, Drop)]
pub struct Slots {
    links: Links,
    marks: SlotMarks,
}

impl Model for Slots {
    ghost use Rattle.slot_links.specs.Lists.{Linked};
    ghost use Rattle.timer_wheel.specs.Kept.{AreMarked};

    ghost Value = { Linked };

    ghost view = { λ s. s.links };

    ghost invariant = { λ s. AreMarked s.links.lists s.marks };
}

impl Slots {
    /// Empty slots, and no nodes.
    #[tactic(auto, using(crate::proofs::Slotted::marked_first))]
    pub fn new(alloc: Global) -> Result<Slots, AllocError>
        ensures made { IfOk result (λ s. s ≡ record { lists = replicate 704 []; nodes = 0 }) }
        ensures once { IfOk result StandOnce }
    {
        Ok(Slots {
            links: Links::new(alloc, SLOTS)?,
            marks: SlotMarks::new(alloc)?,
        })
    }

    /// Makes the nodes below `nodes` usable.
    pub fn reserve(&mut self, nodes: u32) -> Result<(), AllocError>
        ensures lists { self.new.lists ≡ self.old.lists }
        ensures ok { OnOk result (self.new.nodes ≡ max nodes self.old.nodes) }
        ensures err { OnErr result (self.new ≡ self.old) }
    {
        self.links.reserve(nodes)
    }

    /// Puts a node that stands nowhere into a slot.
    #[tactic(auto, using(crate::proofs::Slotted::put_marked))]
    pub fn put(&mut self, slot: u32, node: u32)
        requires slot { slot < 704 }
        requires node { node < self.old.nodes }
        requires none { holder self.old.lists node ≡ None }
        ensures { self.new ≡ record { lists = put_back self.old.lists slot node; nodes = self.old.nodes } }
    {
        self.links.push_back(slot, node);
        self.marks.set(slot);
    }

    /// Takes a node out of its slot, if it stands in one, which is answered.
    #[tactic(auto, using(crate::proofs::Slotted::take_nothing))]
    pub fn take(&mut self, node: u32) -> Option<u32>
        requires node { node < self.old.nodes }
        requires once { StandOnce self.old }
        ensures slot { result ≡ holder self.old.lists node }
        ensures lists { self.new ≡ record { lists = take_out self.old.lists node; nodes = self.old.nodes } }
    {
        let slot = self.links.list_of(node)?;
        self.links.unlink(node);
        if self.links.first(slot).is_none() {
            self.marks.clear(slot);
        }
        Some(slot)
    }

    /// The first slot that has a node.
    #[tactic(auto, using(crate::proofs::Slotted::first_slot_of))]
    pub fn first_slot(&self) -> Option<u32>
        ensures { MatchOption result ((slot : ℕ) → slot < 704 → list_at self.now.lists slot ≡ []) (IsFirstSlot self.now.lists) }
    {
        self.marks.first()
    }

    /// The node at the front of a slot's list.
    pub fn first(&self, slot: u32) -> Option<u32>
        requires { slot < 704 }
        ensures { result ≡ slice_get (list_at self.now.lists slot) 0 }
    {
        self.links.first(slot)
    }

    /// The node behind this one in its slot's list.
    pub fn next(&self, node: u32) -> Option<u32>
        requires { node < self.now.nodes }
        ensures { result ≡ next_of self.now.lists node }
    {
        self.links.next(node)
    }
}
