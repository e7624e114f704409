//! What a packet does to an entry.
ghost use Rattle.std.specs.Prelude.{◌≡◌, ◌≤◌, [], IsTrue};
ghost use Rattle.nb_base.specs.Params.{InRange};
ghost use Rattle.nud_machine.specs.declared.entry.Entry.{Entry};
ghost use Rattle.nud_machine.specs.Asked.{greatest};
ghost use Rattle.nud_machine.specs.Kept.{state_of, stepped};
ghost use Rattle.nud_machine.specs.Send as spec;
ghost use Rattle.nud_machine.specs.State.{HasRoom, is_size, waits_in};

use crate::packets::{make_room, transmit};
use crate::{Act, Acts, Cause, Entry};
use nb_base::{Moment, Nud, OpId, Params};
use nb_queues::WaitQueue;

/// The first packet to an address that isn't known waits, and a solicitation goes out, if one may.
fn begin(
    entry: &mut Entry,
    params: &Params,
    at: Moment,
    packet: (OpId, u32),
    waiting: &mut WaitQueue,
    acts: &mut Acts,
)
    requires now { at ≤ greatest }
    requires size { IsTrue (is_size packet.1) }
    requires none_waits { waiting.old ≡ [] }
    requires none { acts.old ≡ [] }
    ensures step { stepped entry.new waiting.new acts.new ≡ spec.begins params.now at packet (state_of entry.old waiting.old) }
{
    let (id, size) = packet;
    if params.mcast_solicit == 0 {
        entry.fail();
        acts.push(Act::Drop(id, Cause::NoProbes));
    } else {
        entry.nud = Nud::Incomplete;
        entry.probes = 1;
        entry.due = Some(at.after(params.retrans_time));
        acts.push(Act::SolicitGroup);
        acts.push(Act::Wait(id));
        waiting.push(id, size);
    }
}

/// A further packet waits behind those for which there is still room; the others are dropped.
#[tactic(auto, using(crate::proofs::Room::few_wait, crate::proofs::Room::few_left))]
fn join(params: &Params, packet: (OpId, u32), waiting: &mut WaitQueue, acts: &mut Acts)
    requires params { InRange params.now }
    requires size { IsTrue (is_size packet.1) }
    requires room { HasRoom params.now waiting.old }
    requires none { acts.old ≡ [] }
    ensures step { (entry : Entry) → stepped entry waiting.new acts.new ≡ spec.joins params.now packet entry waiting.old }
{
    make_room(params, packet.1, waiting, acts);
    acts.push(Act::Wait(packet.0));
    waiting.push(packet.0, packet.1);
}

/// A packet to the entry: it goes out, waits or is dropped, by the entry's state.
pub fn send(
    entry: &mut Entry,
    params: &Params,
    at: Moment,
    packet: (OpId, u32),
    waiting: &mut WaitQueue,
    acts: &mut Acts,
)
    requires params { InRange params.now }
    requires now { at ≤ greatest }
    requires size { IsTrue (is_size packet.1) }
    requires waits { waits_in entry.old.nud waiting.old }
    requires room { HasRoom params.now waiting.old }
    requires none { acts.old ≡ [] }
    ensures step { stepped entry.new waiting.new acts.new ≡ spec.send params.now at packet (state_of entry.old waiting.old) }
{
    entry.used = at;
    match entry.nud {
        Nud::None | Nud::Failed => begin(entry, params, at, packet, waiting, acts),
        Nud::Incomplete => join(params, packet, waiting, acts),
        Nud::Stale => {
            entry.nud = Nud::Delay;
            entry.due = Some(at.after(params.delay_first_probe_time));
            transmit(entry.mac, packet, acts);
        }
        Nud::Permanent | Nud::Noarp | Nud::Reachable | Nud::Delay | Nud::Probe => {
            transmit(entry.mac, packet, acts);
        }
    }
}
