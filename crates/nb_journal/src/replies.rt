//! What an operation is answered by its acts.
ghost use Rattle.std.specs.Prelude.{◌≡◌, ◌≤◌, filter, length};
ghost use Rattle.std.specs.List.{list_any};
ghost use Rattle.nb_journal.specs.Fold as spec;

use nb_base::{Op, Reply};
use nud_machine::{Act, Cause};

fn is_transmit(act: &Act) -> bool
    ensures { result ≡ spec.is_transmit act.now }
{
    matches!(act, Act::Transmit(..))
}

fn is_no_probes(act: &Act) -> bool
    ensures { result ≡ spec.is_no_probes act.now }
{
    matches!(act, Act::Drop(_, Cause::NoProbes))
}

/// Whether a packet goes out.
fn transmits(acts: &[Act]) -> bool
    ensures { result ≡ list_any spec.is_transmit acts.now }
{
    acts.iter().any(|act| is_transmit(act))
}

/// Whether a packet is dropped since no probe may be sent.
fn lacks_probes(acts: &[Act]) -> bool
    ensures { result ≡ list_any spec.is_no_probes acts.now }
{
    acts.iter().any(|act| is_no_probes(act))
}

fn is_queue_full(act: &Act) -> bool
    ensures { result ≡ spec.is_queue_full act.now }
{
    matches!(act, Act::Drop(_, Cause::QueueFull))
}

/// How many packets were dropped for a further one.
fn pushed_out(acts: &[Act]) -> u32
    requires { length acts.now ≤ 66 }
    ensures { result ≡ length (filter spec.is_queue_full acts.now) }
{
    acts.iter().filter(|act| is_queue_full(act)).count() as u32
}

/// What became of a packet.
fn reply_to_send(acts: &[Act]) -> Reply
    requires { length acts.now ≤ 66 }
    ensures { result ≡ spec.reply_to_send acts.now }
{
    if transmits(acts) {
        Reply::Sent
    } else if lacks_probes(acts) {
        Reply::NoProbes
    } else {
        Reply::Waits {
            dropped: pushed_out(acts),
        }
    }
}

/// A send is answered by what became of its packet, every other event by `Done`. There are no more acts than one step has.
pub fn reply_after(op: &Op, acts: &[Act]) -> Reply
    requires { length acts.now ≤ 66 }
    ensures { result ≡ spec.reply_after op.now acts.now }
{
    match *op {
        Op::Send { .. } => reply_to_send(acts),
        _ => Reply::Done,
    }
}
