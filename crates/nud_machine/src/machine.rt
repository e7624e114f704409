//! One step of an entry's machine.
ghost use Rattle.std.specs.Prelude.{◌≡◌, ◌≤◌, [], List, IsTrue};
ghost use Rattle.nb_base.specs.Params.{InRange};
ghost use Rattle.nb_queues.specs.Queue.{Packet};
ghost use Rattle.nud_machine.specs.declared.act.Act.{Act};
ghost use Rattle.nud_machine.specs.Asked.{greatest, IsInRun, NamesSettable, BringsSized, FiresAtDue};
ghost use Rattle.nud_machine.specs.Kept.{state_of, stepped};
ghost use Rattle.nud_machine.specs.State.{HasRoom, IsSound, waits_in};
ghost use Rattle.nud_machine.specs.Step as spec;

use crate::news::{News, same_mac, same_nud};
use crate::packets::drop_all;
use crate::sending::send;
use crate::timer::fire;
use crate::updating::{advertise, update};
use crate::{Acts, Cause, Entry, Event};
use nb_base::{Moment, Params};
use nb_queues::WaitQueue;

/// What the event does, but for the moment of the last change.
#[tactic(auto, using(crate::proofs::Room::few_wait))]
fn apply(
    entry: &mut Entry,
    params: &Params,
    at: Moment,
    event: &Event,
    waiting: &mut WaitQueue,
    acts: &mut Acts,
)
    requires params { InRange params.now }
    requires now { at ≤ greatest }
    requires moments { IsInRun entry.old }
    requires waits { waits_in entry.old.nud waiting.old }
    requires sized { BringsSized event.now }
    requires room { HasRoom params.now waiting.old }
    requires none { acts.old ≡ [] }
    ensures step { stepped entry.new waiting.new acts.new ≡ spec.move params.now at (state_of entry.old waiting.old) event.now }
{
    match *event {
        Event::Send { id, size } => send(entry, params, at, (id, size), waiting, acts),
        Event::Arp { mac, solicited } => {
            let news = News::arp(entry, params, at, mac, solicited);
            let _rule = update(entry, params, at, &news, waiting, acts);
        }
        Event::Ns { mac } => {
            let _rule = update(entry, params, at, &News::ns(mac), waiting, acts);
        }
        Event::Na {
            mac,
            router,
            solicited,
            overrides,
        } => {
            let news = News::na(mac, solicited, overrides);
            advertise(entry, params, at, &news, router, waiting, acts);
        }
        Event::Admin { mac, nud } => {
            let _rule = update(entry, params, at, &News::admin(mac, nud), waiting, acts);
        }
        Event::Confirm => {
            if entry.nud.is_valid() {
                entry.confirmed = Some(at);
            }
        }
        Event::Timer => fire(entry, params, at, waiting, acts),
        Event::Remove => {
            *entry = Entry::absent();
            drop_all(Cause::Removed, waiting, acts);
        }
    }
}

/// An entry that is present and whose state or address changed was updated now.
fn stamp(entry: &mut Entry, before: &Entry, at: Moment)
    ensures { (packets : List Packet) (acts : List Act) → stepped entry.new packets acts ≡ spec.stamp at before.now (stepped entry.old packets acts) }
{
    if entry.present && !(same_nud(entry.nud, before.nud) && same_mac(entry.mac, before.mac)) {
        entry.updated = at;
    }
}

/// The event, and then the moment of the last change.
fn run(
    entry: &mut Entry,
    params: &Params,
    at: Moment,
    event: &Event,
    waiting: &mut WaitQueue,
    acts: &mut Acts,
)
    requires params { InRange params.now }
    requires now { at ≤ greatest }
    requires moments { IsInRun entry.old }
    requires sized { BringsSized event.now }
    requires sound { IsSound params.now (state_of entry.old waiting.old) }
    ensures step { stepped entry.new waiting.new acts.new ≡ spec.step params.now at (state_of entry.old waiting.old) event.now }
{
    let before = *entry;
    acts.clear();
    apply(entry, params, at, event, waiting, acts);
    stamp(entry, &before, at);
}

/// One step of a present entry: what the event does to it and to the packets that wait for it, and the
/// acts that it brings, which replace those of the step before. It takes no memory (RFC 4861 section
/// 7.3 and appendix C; Linux, net/core/neighbour.c).
///
/// What waits is at most `unres_qlen_bytes` bytes, or a packet that waits alone; each packet counts for 257 to
/// 1,756. The moment and those of the entry other than its due are
/// at most 30 days; a timer fires at the entry's due; by hand an entry becomes PERMANENT, NOARP,
/// REACHABLE or STALE.
pub fn step(
    entry: &mut Entry,
    params: &Params,
    at: Moment,
    event: &Event,
    waiting: &mut WaitQueue,
    acts: &mut Acts,
)
    requires params { InRange params.now }
    requires now { at ≤ greatest }
    requires moments { IsInRun entry.old }
    requires present { IsTrue entry.old.present }
    requires settable { NamesSettable event.now }
    requires sized { BringsSized event.now }
    requires due { FiresAtDue event.now at entry.old }
    requires sound { IsSound params.now (state_of entry.old waiting.old) }
    ensures step { stepped entry.new waiting.new acts.new ≡ spec.step params.now at (state_of entry.old waiting.old) event.now }
    ensures sound { IsSound params.now (state_of entry.new waiting.new) }
    ensures moments { IsInRun entry.new }
{
    run(entry, params, at, event, waiting, acts);
}
