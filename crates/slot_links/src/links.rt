//! Linked lists of numbered nodes.
ghost use Rattle.std.specs.Prelude.{◌≡◌, ◌+◌, ◌<◌, ◌≤◌, ◌^◌, ℕ, length};

use crate::places::{Place, append, extend, node_of, remove};
use std::alloc::{AllocError, Global};
use std::marker::Model;

/// Doubly linked lists of node numbers, each node in at most one list. Contracts see the lists by
/// their numbers, each from its front, and how many nodes there are.
#[derive(Debug, Drop)]
pub struct Links {
    lists: u32,
    nodes: u32,
    places: Vec<Place>,
}

impl Model for Links {
    ghost use Rattle.slot_links.specs.Lists.{Linked};

    ghost Value = { Linked };

    ghost use Rattle.slot_links.specs.Shown.{linked_in, HoldsLists};

    ghost view = { linked_in };

    ghost invariant = { HoldsLists };
}

impl Links {
    ghost use Rattle.std.specs.Prelude.{[], None, Some, max, is_some, slice_get, replicate, IfOk, IfSome, OnOk, OnErr};
    ghost use Rattle.slot_links.specs.Lists.{list_at, holder, next_of, put_back, take_out, StandsIn, StandOnce};

    /// So many empty lists, and no nodes. From here on each node stands in at most one list, and there
    /// once.
    pub fn new(alloc: Global, lists: u32) -> Result<Links, AllocError>
        ensures made { IfOk result (λ links. links ≡ record { lists = replicate lists []; nodes = 0 }) }
        ensures once { IfOk result (λ links. StandOnce links) }
    {
        let mut places = Vec::new(alloc);
        extend(&mut places, lists as usize)?;
        Ok(Links {
            lists,
            nodes: 0,
            places,
        })
    }

    /// Makes the nodes below `nodes` usable; further ones are in no list. No other call on the lists
    /// takes memory. Without memory all stays as it was.
    pub fn reserve(&mut self, nodes: u32) -> Result<(), AllocError>
        ensures lists { self.new.lists ≡ self.old.lists }
        ensures ok { OnOk result (self.new.nodes ≡ max nodes self.old.nodes) }
        ensures err { OnErr result (self.new ≡ self.old) }
    {
        if self.nodes < nodes {
            extend(&mut self.places, self.lists as usize + nodes as usize)?;
            self.nodes = nodes;
        }
        Ok(())
    }

    /// How many lists there are.
    pub fn lists(&self) -> u32
        ensures { result ≡ length self.now.lists }
    {
        self.lists
    }

    /// How many nodes are usable. Each stands in at most one list, and there once.
    pub fn nodes(&self) -> u32
        ensures nodes { result ≡ self.now.nodes }
        ensures once { StandOnce self.now }
    {
        self.nodes
    }

    /// Puts a node that is in no list at the end of a list. Takes no memory.
    pub fn push_back(&mut self, list: u32, node: u32)
        requires list { list < length self.old.lists }
        requires node { node < self.old.nodes }
        requires none { holder self.old.lists node ≡ None }
        ensures { self.new ≡ record { lists = put_back self.old.lists list node; nodes = self.old.nodes } }
    {
        let at = self.lists as usize + node as usize;
        append(&mut self.places, list, at);
    }

    /// Takes a node out of its list, wherever it stands there: false exactly where it is in none, and
    /// then all stays. Takes no memory.
    pub fn unlink(&mut self, node: u32) -> bool
        requires { node < self.old.nodes }
        ensures found { result ≡ is_some (holder self.old.lists node) }
        ensures lists { self.new ≡ record { lists = take_out self.old.lists node; nodes = self.old.nodes } }
    {
        let at = self.lists as usize + node as usize;
        if self.places[at].list.is_none() {
            return false;
        }
        remove(&mut self.places, at);
        true
    }

    /// The node at the front of a list, which is the list that has it: `None` exactly where the list is
    /// empty. A walk from here meets each node once. Takes no memory.
    pub fn first(&self, list: u32) -> Option<u32>
        requires { list < length self.now.lists }
        ensures front { result ≡ slice_get (list_at self.now.lists list) 0 }
        ensures stands { IfSome result (StandsIn self.now (Some list)) }
        ensures once { StandOnce self.now }
    {
        node_of(self.lists, self.places[list as usize].next)
    }

    /// The node right behind this one in its list, which has both: `None` exactly where this one stands
    /// last or is in no list. Takes no memory.
    pub fn next(&self, node: u32) -> Option<u32>
        requires { node < self.now.nodes }
        ensures behind { result ≡ next_of self.now.lists node }
        ensures stands { IfSome result (StandsIn self.now (holder self.now.lists node)) }
    {
        let place = self.places[self.lists as usize + node as usize];
        if place.list.is_none() {
            return None;
        }
        node_of(self.lists, place.next)
    }

    /// The list that the node is in: `None` exactly where it is in none. Takes no memory.
    pub fn list_of(&self, node: u32) -> Option<u32>
        requires { node < self.now.nodes }
        ensures { result ≡ holder self.now.lists node }
    {
        self.places[self.lists as usize + node as usize].list
    }
}
