//! Steps of an entry, one after the other, and what each leaves: texts with a row a line, in five columns between bars.
//!
//! 1. When it is, in milliseconds, and the event: `send` with an id and how many bytes it counts for, `admin` with an address and a
//!    state, `arp` with the address that a reply to the host has, `confirm`, or `timer`.
//! 2. The entry that it leaves: its state, its address, when it was last confirmed and last changed, its probes, and its due.
//! 3. to 5. The three acts of the step: `group` and `unicast` with an address for solicitations, `transmit` with an id and an address,
//!    `wait` with an id, and `drop` with an id and `full` or `unresolved`.
//!
//! Addresses are `a` and `b`; `-` stands where there is none.
use crate::rows::{at_bar, cut, mac_of, nud_of, number};
use nb_base::{Moment, OpId};
use nud_machine::{Act, Cause, Entry, Event};

pub fn arp_at_locktime_and_past_it() -> &'static str {
    "\
0 admin a stale|stale a - 0 0 -|-|-|-
1000 arp b|stale a - 0 0 -|-|-|-
1001 arp b|reachable b 1001 1001 0 31001|-|-|-
"
}

pub fn unresolved_after_three_probes() -> &'static str {
    "\
0 send 33 257|incomplete - - 0 1 1000|group|wait 33|-
0 send 65 257|incomplete - - 0 1 1000|wait 65|-|-
0 send 97 257|incomplete - - 0 1 1000|wait 97|-|-
0 send 129 257|incomplete - - 0 1 1000|drop 33 full|wait 129|-
1000 timer|incomplete - - 0 2 2000|group|-|-
2000 timer|incomplete - - 0 3 3000|group|-|-
3000 timer|failed - - 3000 3 -|drop 65 unresolved|drop 97 unresolved|drop 129 unresolved
"
}

pub fn bytes_push_out_two() -> &'static str {
    "\
0 send 33 756|incomplete - - 0 1 1000|group|wait 33|-
0 send 65 756|incomplete - - 0 1 1000|wait 65|-|-
0 send 97 1756|incomplete - - 0 1 1000|drop 33 full|drop 65 full|wait 97
"
}

pub fn large_packet_waits_alone() -> &'static str {
    "\
0 send 33 1756|incomplete - - 0 1 1000|group|wait 33|-
0 send 65 257|incomplete - - 0 1 1000|drop 33 full|wait 65|-
"
}

pub fn reachable_turns_stale() -> &'static str {
    "\
0 admin a reachable|reachable a 0 0 0 30000|-|-|-
30000 timer|reachable a 0 0 0 30010|-|-|-
30010 timer|stale a 0 30010 0 -|-|-|-
"
}

pub fn delay_then_unicast_probe() -> &'static str {
    "\
0 admin a stale|stale a - 0 0 -|-|-|-
0 send 33 257|delay a - 0 0 5000|transmit 33 a|-|-
5000 timer|probe a - 5000 1 6000|unicast a|-|-
5500 arp a|reachable a 5500 5500 0 35500|-|-|-
"
}

pub fn confirm_in_delay() -> &'static str {
    "\
0 admin a stale|stale a - 0 0 -|-|-|-
0 send 33 257|delay a - 0 0 5000|transmit 33 a|-|-
4000 confirm|delay a 4000 0 0 5000|-|-|-
5000 timer|reachable a 4000 5000 0 34000|-|-|-
"
}

pub fn delay_without_unicast_probes() -> &'static str {
    "\
0 admin a stale|stale a - 0 0 -|-|-|-
0 send 33 257|delay a - 0 0 5000|transmit 33 a|-|-
5000 timer|failed - - 5000 0 -|-|-|-
"
}

/// A step, and what it leaves of an entry to which packets were sent at 0.
#[derive(Clone, Copy)]
pub struct Step {
    pub at: Moment,
    pub event: Event,
    pub left: Entry,
    /// The three acts that the row has, and none behind them.
    pub acts: [Option<Act>; 4],
}

/// The moment that the word has, or none for `-`.
fn moment_of(word: &str) -> Option<Option<Moment>> {
    if word == "-" {
        return Some(None);
    }
    Some(Some(Moment(number(word)?)))
}

fn send_of(text: &str) -> Option<Event> {
    let (id, size) = cut(text)?;
    Some(Event::Send {
        id: OpId(number(id)?),
        size: size.parse().ok()?,
    })
}

fn admin_of(text: &str) -> Option<Event> {
    let (mac, nud) = cut(text)?;
    Some(Event::Admin {
        mac: mac_of(mac)?,
        nud: nud_of(nud)?,
    })
}

fn arp_of(word: &str) -> Option<Event> {
    let mac = mac_of(word)??;
    Some(Event::Arp {
        mac,
        solicited: true,
    })
}

/// An event of which something is said.
fn told_event(word: &str, beside: &str) -> Option<Event> {
    if word == "send" {
        send_of(beside)
    } else if word == "admin" {
        admin_of(beside)
    } else if word == "arp" {
        arp_of(beside)
    } else {
        None
    }
}

fn event_of(text: &str) -> Option<Event> {
    if text == "timer" {
        return Some(Event::Timer);
    }
    if text == "confirm" {
        return Some(Event::Confirm);
    }
    let (word, beside) = cut(text)?;
    told_event(word, beside)
}

/// An entry of these words.
fn entry(
    nud: &str,
    mac: &str,
    confirmed: &str,
    updated: &str,
    probes: &str,
    due: &str,
) -> Option<Entry> {
    Some(Entry {
        present: true,
        nud: nud_of(nud)?,
        mac: mac_of(mac)?,
        confirmed: moment_of(confirmed)?,
        updated: Moment(number(updated)?),
        used: Moment(0),
        probes: probes.parse().ok()?,
        due: moment_of(due)?,
        router: false,
    })
}

fn entry_of(text: &str) -> Option<Entry> {
    let (nud, rest) = cut(text)?;
    let (mac, rest) = cut(rest)?;
    let (confirmed, rest) = cut(rest)?;
    let (updated, rest) = cut(rest)?;
    let (probes, due) = cut(rest)?;
    entry(nud, mac, confirmed, updated, probes, due)
}

fn cause_of(word: &str) -> Option<Cause> {
    if word == "full" {
        Some(Cause::QueueFull)
    } else if word == "unresolved" {
        Some(Cause::Unresolved)
    } else {
        None
    }
}

fn transmit_of(text: &str) -> Option<Act> {
    let (id, mac) = cut(text)?;
    Some(Act::Transmit(OpId(number(id)?), mac_of(mac)??))
}

fn drop_of(text: &str) -> Option<Act> {
    let (id, cause) = cut(text)?;
    Some(Act::Drop(OpId(number(id)?), cause_of(cause)?))
}

/// An act of which something is said.
fn told_act(word: &str, beside: &str) -> Option<Act> {
    if word == "wait" {
        Some(Act::Wait(OpId(number(beside)?)))
    } else if word == "unicast" {
        Some(Act::SolicitUnicast(mac_of(beside)??))
    } else if word == "transmit" {
        transmit_of(beside)
    } else if word == "drop" {
        drop_of(beside)
    } else {
        None
    }
}

/// The act that the text says, or none for `-`.
fn act_of(text: &str) -> Option<Option<Act>> {
    if text == "-" {
        return Some(None);
    }
    if text == "group" {
        return Some(Some(Act::SolicitGroup));
    }
    let (word, beside) = cut(text)?;
    Some(Some(told_act(word, beside)?))
}

fn acts_of(text: &str) -> Option<[Option<Act>; 4]> {
    let (first, rest) = at_bar(text)?;
    let (second, third) = at_bar(rest)?;
    Some([act_of(first)?, act_of(second)?, act_of(third)?, None])
}

/// A step of these columns.
fn step_between(when: &str, left: &str, acts: &str) -> Option<Step> {
    let (at, event) = cut(when)?;
    Some(Step {
        at: Moment(number(at)?),
        event: event_of(event)?,
        left: entry_of(left)?,
        acts: acts_of(acts)?,
    })
}

/// The step that the row says.
pub fn step_of(row: &str) -> Option<Step> {
    let (when, rest) = at_bar(row)?;
    let (left, acts) = at_bar(rest)?;
    step_between(when, left, acts)
}
