//! What becomes of packets.
ghost use Rattle.std.specs.Prelude.{◌≡◌, ◌+◌, ◌≤◌, ◌<◌, [], ◌∷◌, ◌++◌, length, option_to_list, IfNone};
ghost use Rattle.nb_queues.specs.Queue.{largest};
ghost use Rattle.nud_machine.specs.declared.act.Cause.TheVariants.{QueueFull};
ghost use Rattle.nud_machine.specs.Send.{pushed_out, left_waiting};
ghost use Rattle.nud_machine.specs.State.{transmits, drops};

use crate::{Act, Acts, Cause};
use nb_base::{Mac, OpId, Params};
use nb_queues::WaitQueue;

/// The packet goes out to the address.
pub fn transmit(mac: Option<Mac>, packet: (OpId, u32), acts: &mut Acts)
    requires { length acts.old < 66 }
    ensures { acts.new ≡ acts.old ++ transmits mac (packet ∷ []) }
{
    if let Some(mac) = mac {
        acts.push(Act::Transmit(packet.0, mac));
    }
}

/// The packets that wait go out to the address, the oldest first.
#[tactic(auto, using(crate::proofs::Leaving::transmits_more, std::proofs::lemmas::Grind::common_steps))]
pub fn transmit_all(mac: Option<Mac>, waiting: &mut WaitQueue, acts: &mut Acts)
    requires few { length acts.old + length waiting.old ≤ 66 }
    ensures acts { acts.new ≡ acts.old ++ transmits mac waiting.old }
    ensures waiting { waiting.new ≡ [] }
{
    while let Some(packet) = waiting.pop() {
        transmit(mac, packet, acts);
    }
}

/// The packets that wait are dropped, the oldest first.
pub fn drop_all(cause: Cause, waiting: &mut WaitQueue, acts: &mut Acts)
    requires few { length acts.old + length waiting.old ≤ 66 }
    ensures acts { acts.new ≡ acts.old ++ drops cause waiting.old }
    ensures waiting { waiting.new ≡ [] }
{
    while let Some(packet) = waiting.pop() {
        acts.push(Act::Drop(packet.0, cause));
    }
}

/// Takes off the packet that waited longest, where one waits and there are too many bytes for a further
/// packet of that size.
#[tactic(auto, using(crate::proofs::Room::all_left, crate::proofs::Room::none_out))]
fn push_out(params: &Params, size: u32, waiting: &mut WaitQueue) -> Option<(OpId, u32)>
    requires small { size ≤ largest }
    ensures out { pushed_out params.now size waiting.old ≡ option_to_list result ++ pushed_out params.now size waiting.new }
    ensures left { left_waiting params.now size waiting.old ≡ left_waiting params.now size waiting.new }
    ensures packets { option_to_list result ++ waiting.new ≡ waiting.old }
    ensures none { IfNone result (left_waiting params.now size waiting.new ≡ waiting.new) }
    ensures none_out { IfNone result (pushed_out params.now size waiting.new ≡ []) }
{
    if waiting.total() + size > params.unres_qlen_bytes {
        waiting.pop()
    } else {
        None
    }
}

/// The packets that waited longest are dropped, while one waits and there are too many bytes for a further
/// packet of that size.
pub fn make_room(params: &Params, size: u32, waiting: &mut WaitQueue, acts: &mut Acts)
    requires small { size ≤ largest }
    requires few { length acts.old + length waiting.old ≤ 66 }
    ensures few { length acts.new + length waiting.new ≤ length acts.old + length waiting.old }
    ensures acts { acts.new ≡ acts.old ++ drops QueueFull (pushed_out params.now size waiting.old) }
    ensures waiting { waiting.new ≡ left_waiting params.now size waiting.old }
{
    while let Some(packet) = push_out(params, size, waiting) {
        acts.push(Act::Drop(packet.0, Cause::QueueFull));
    }
}
