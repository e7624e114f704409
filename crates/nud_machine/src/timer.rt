//! What a timer does to an entry at its due.
ghost use Rattle.std.specs.Prelude.{◌≡◌, ◌≤◌, List, [], option_to_list, IfSome};
ghost use Rattle.nb_queues.specs.Queue.{Packet};
ghost use Rattle.nb_base.specs.Params.{InRange};
ghost use Rattle.nud_machine.specs.Asked.{greatest, IsInRun};
ghost use Rattle.nud_machine.specs.State.{HasRoom};
ghost use Rattle.nud_machine.specs.Kept.{state_of, stepped};
ghost use Rattle.nud_machine.specs.Timer as spec;

use crate::packets::drop_all;
use crate::{Act, Acts, Cause, Entry};
use nb_base::{Mac, Moment, Nud, Params};
use nb_queues::WaitQueue;

/// The least number of milliseconds from a timer to the next one.
const LEAST: u32 = 10;

/// Whether the moment is at most so many milliseconds after what happened, if it did.
fn is_within(at: Moment, since: Option<Moment>, millis: u32) -> bool
    requires { IfSome since (λ then_at. then_at ≤ greatest) }
    ensures { result ≡ spec.is_within at since millis }
{
    match since {
        None => false,
        Some(since) => at <= since.after(millis),
    }
}

/// The end of a confirmation, at least ten milliseconds from now.
fn next_due(at: Moment, confirmed: Option<Moment>, millis: u32) -> Option<Moment>
    requires confirmed { IfSome confirmed (λ then_at. then_at ≤ greatest) }
    requires now { at ≤ greatest }
    ensures { result ≡ spec.next_due at confirmed millis }
{
    let least = at.after(LEAST);
    match confirmed {
        None => Some(least),
        Some(confirmed) => {
            let end = confirmed.after(millis).millis();
            Some(Moment(end.max(least.millis())))
        }
    }
}

/// A solicitation to the address that is known.
fn unicast(mac: Option<Mac>) -> Option<Act>
    ensures { option_to_list result ≡ spec.unicast mac }
{
    match mac {
        None => None,
        Some(mac) => Some(Act::SolicitUnicast(mac)),
    }
}

/// One more solicitation, or where the limit is reached the end: what waits is dropped.
#[tactic(auto, using(crate::proofs::Room::few_wait))]
fn probe(
    entry: &mut Entry,
    params: &Params,
    at: Moment,
    limit: u32,
    solicitation: Option<Act>,
    waiting: &mut WaitQueue,
    acts: &mut Acts,
)
    requires now { at ≤ greatest }
    requires params { InRange params.now }
    requires room { HasRoom params.now waiting.old }
    requires none { acts.old ≡ [] }
    ensures step { stepped entry.new waiting.new acts.new
        ≡ spec.probes params.now at limit (state_of entry.old waiting.old) entry.old (option_to_list solicitation) }
{
    if entry.probes >= limit {
        entry.fail();
        drop_all(Cause::Unresolved, waiting, acts);
    } else {
        entry.probes += 1;
        entry.due = Some(at.after(params.retrans_time));
        if let Some(act) = solicitation {
            acts.push(act);
        }
    }
}

/// A confirmation that still holds runs on; a used entry is doubted in DELAY, an unused one becomes STALE.
fn end_reachable(entry: &mut Entry, params: &Params, at: Moment)
    requires now { at ≤ greatest }
    requires moments { IsInRun entry.old }
    ensures { (packets : List Packet) → stepped entry.new packets [] ≡ spec.ends_reachable params.now at (state_of entry.old packets) }
{
    if is_within(at, entry.confirmed, params.base_reachable_time) {
        entry.due = next_due(at, entry.confirmed, params.base_reachable_time);
    } else if at <= entry.used.after(params.delay_first_probe_time) {
        entry.nud = Nud::Delay;
        entry.due = Some(at.after(params.delay_first_probe_time));
    } else {
        entry.nud = Nud::Stale;
        entry.due = None;
    }
}

/// A confirmation in time makes the entry REACHABLE; otherwise the probes begin.
fn end_delay(
    entry: &mut Entry,
    params: &Params,
    at: Moment,
    waiting: &mut WaitQueue,
    acts: &mut Acts,
)
    requires now { at ≤ greatest }
    requires moments { IsInRun entry.old }
    requires params { InRange params.now }
    requires room { HasRoom params.now waiting.old }
    requires none { acts.old ≡ [] }
    ensures step { stepped entry.new waiting.new acts.new ≡ spec.ends_delay params.now at (state_of entry.old waiting.old) }
{
    if is_within(at, entry.confirmed, params.delay_first_probe_time) {
        entry.nud = Nud::Reachable;
        entry.due = next_due(at, entry.confirmed, params.base_reachable_time);
    } else {
        entry.nud = Nud::Probe;
        entry.probes = 0;
        let solicitation = unicast(entry.mac);
        let limit = params.ucast_solicit;
        probe(entry, params, at, limit, solicitation, waiting, acts);
    }
}

/// What a timer does, by the entry's state.
pub fn fire(
    entry: &mut Entry,
    params: &Params,
    at: Moment,
    waiting: &mut WaitQueue,
    acts: &mut Acts,
)
    requires now { at ≤ greatest }
    requires moments { IsInRun entry.old }
    requires params { InRange params.now }
    requires room { HasRoom params.now waiting.old }
    requires none { acts.old ≡ [] }
    ensures step { stepped entry.new waiting.new acts.new ≡ spec.fire params.now at (state_of entry.old waiting.old) }
{
    match entry.nud {
        Nud::Reachable => end_reachable(entry, params, at),
        Nud::Delay => end_delay(entry, params, at, waiting, acts),
        Nud::Incomplete => {
            let solicitation = Some(Act::SolicitGroup);
            let limit = params.mcast_solicit;
            probe(entry, params, at, limit, solicitation, waiting, acts);
        }
        Nud::Probe => {
            let solicitation = unicast(entry.mac);
            let limit = params.ucast_solicit;
            probe(entry, params, at, limit, solicitation, waiting, acts);
        }
        Nud::None | Nud::Stale | Nud::Failed | Nud::Noarp | Nud::Permanent => {}
    }
}
