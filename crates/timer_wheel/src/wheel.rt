//! The wheel: the armed nodes, with the least of them at hand.
ghost use Rattle.std.specs.Prelude.{◌≡◌, ℕ, ◌<◌, ◌≤◌, ◌-◌, ◌++◌, [], None, Some, length, replicate, slice_set, is_some, if◌then◌else◌, IfSome, IfOk, OnOk, OnErr};
ghost use Rattle.std.specs.Option.{MatchOption};
ghost use Rattle.timer_wheel.specs.Map.{due_of, NoneArmed, IsLeast};
ghost use Rattle.timer_wheel.specs.Kept.{is_earlier};

use crate::armed::Armed;
use nb_base::Moment;
use std::alloc::{AllocError, Global};
use std::marker::Model;

/// Timers of numbered nodes, as a finite map with its least. Contracts see a moment that no due is below, and each usable node's due,
/// where it is armed.
#[derive(Debug, Drop)]
pub struct Wheel {
    armed: Armed,
    /// The least due with its node, where a node is armed: it is looked for anew only where its node is armed again or cancelled.
    least: Option<(Moment, u32)>,
}

impl Model for Wheel {
    ghost use Rattle.timer_wheel.specs.Map.{Timers};
    ghost use Rattle.timer_wheel.specs.Kept.{KnowsLeast};

    ghost Value = { Timers };

    ghost view = { λ w. w.armed };

    ghost invariant = { λ w. KnowsLeast w.armed w.least };
}

impl Wheel {
    /// No node, at moment 0.
    pub fn new(alloc: Global) -> Result<Wheel, AllocError>
        ensures { IfOk result (λ w. w ≡ record { now = 0; dues = [] }) }
    {
        Ok(Wheel {
            armed: Armed::new(alloc)?,
            least: None,
        })
    }

    /// Makes the nodes below `nodes` usable; further ones aren't armed. Without memory all stays as it was.
    pub fn reserve(&mut self, nodes: u32) -> Result<(), AllocError>
        ensures ok { OnOk result (self.new ≡ record { now = self.old.now; dues = self.old.dues ++ replicate (nodes - length self.old.dues) None }) }
        ensures err { OnErr result (self.new ≡ self.old) }
    {
        self.armed.reserve(nodes)
    }

    /// How many nodes are usable.
    pub fn nodes(&self) -> u32
        ensures { result ≡ length self.now.dues }
    {
        self.armed.nodes()
    }

    /// The moment that no due is below.
    pub fn now(&self) -> Moment
        ensures moment { result ≡ self.now.now }
        ensures ahead { (node due : ℕ) → due_of self.now.dues node ≡ Some due → result ≤ due }
    {
        self.armed.now()
    }

    /// Sets a node's due, in place of an earlier one. Takes no memory.
    pub fn arm(&mut self, node: u32, due: Moment)
        requires node { node < length self.old.dues }
        requires due { self.old.now ≤ due }
        ensures { self.new ≡ record { now = self.old.now; dues = slice_set self.old.dues node (Some due) } }
    {
        self.armed.arm(node, due);
        self.least = match self.least {
            Some((at, least)) if least != node => Some(earlier((at, least), (due, node))),
            _ => self.armed.least(),
        };
    }

    /// Takes a node's due away: false exactly where it isn't armed. Takes no memory.
    pub fn cancel(&mut self, node: u32) -> bool
        requires { node < length self.old.dues }
        ensures was { result ≡ is_some (due_of self.old.dues node) }
        ensures dues { self.new ≡ record { now = self.old.now; dues = slice_set self.old.dues node None } }
    {
        let was = self.armed.cancel(node);
        if self.least.is_some_and(|(_, least)| least == node) {
            self.least = self.armed.least();
        }
        was
    }

    /// Time goes on to a moment that no due is below. Takes no memory.
    pub fn advance(&mut self, to: Moment)
        requires later { self.old.now ≤ to }
        requires none { (node due : ℕ) → due_of self.old.dues node ≡ Some due → to ≤ due }
        ensures { self.new ≡ record { now = to; dues = self.old.dues } }
    {
        self.armed.advance(to.0);
    }

    /// The least due, and among the nodes that have it the least: `None` exactly where nothing is armed. Takes no memory.
    pub fn next(&self) -> Option<(Moment, u32)>
        ensures least { MatchOption result (NoneArmed self.now.dues) (λ r. IsLeast self.now.dues r.0 r.1) }
        ensures ahead { IfSome result (λ r. self.now.now ≤ r.0) }
    {
        self.least
    }

    /// Takes the least off, and time goes on to its due. Takes no memory.
    pub fn take_next(&mut self) -> Option<(Moment, u32)>
        ensures least { MatchOption result (NoneArmed self.old.dues) (λ r. IsLeast self.old.dues r.0 r.1) }
        ensures left { MatchOption result (self.new ≡ self.old) (λ r. self.new ≡ record { now = r.0; dues = slice_set self.old.dues r.1 None }) }
    {
        let (due, node) = self.next()?;
        self.advance(due);
        self.cancel(node);
        Some((due, node))
    }
}

/// The one of two armed nodes that comes first: by its due, and at equal dues by its number.
fn earlier(one: (Moment, u32), other: (Moment, u32)) -> (Moment, u32)
    ensures { result ≡ (if is_earlier one other then one else other) }
{
    if one.0.0 < other.0.0 || one.0.0 == other.0.0 && one.1 < other.1 {
        one
    } else {
        other
    }
}
