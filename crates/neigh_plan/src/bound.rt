//! How many lines each journal of a plan can get.
ghost use Rattle.std.specs.Prelude.{◌≡◌, ℕ, ◌<◌, ◌≤◌, ◌^◌, map, flat_map, length};
ghost use Rattle.std.specs.Option.{option_to_list};
ghost use Rattle.nb_base.specs.Params.{InRange};
ghost use Rattle.nud_machine.specs.Asked.{greatest};
ghost use Rattle.nb_journal.specs.Accounts as accounts;
ghost use Rattle.neigh_run.specs.Control.{HostState, host_start};
ghost use Rattle.neigh_run.specs.Merged.{control_op, control_ops, senders_ops};
ghost use Rattle.neigh_run.specs.Plan.{IsWithinLimits, AreSendLists, control_at, send_at};
ghost use Rattle.neigh_plan.specs.Inline.{greatest_of, last_item_at, plan_bound};

use crate::merging::{moment_of, operation_of};
use nb_base::{ControlItem, Items, Params, Plan, SendItem};

/// How many operations an item has. It is the same in every state of the host.
fn count_of(plan: &Plan, item: &ControlItem) -> u64
    ensures count { (state : HostState) (n : ℕ) → result ≡ length (option_to_list (control_op plan.now state n item.now)) }
    ensures one { result ≤ 1 }
{
    match operation_of(plan, item) {
        Some(_) => 1,
        None => 0,
    }
}

/// The number of participant 0's operations.
fn given_count(plan: &Plan, items: &[ControlItem]) -> u64
    ensures count { result ≡ length (control_ops plan.now host_start 1 items.now) }
    ensures few { result ≤ length items.now }
{
    let mut count = 0;
    for item in items {
        count += count_of(plan, item);
    }
    count
}

/// The number of the senders' packets.
fn sent_count(senders: &[Items<SendItem>]) -> u64
    requires lists { AreSendLists senders.now }
    requires few { length senders.now ≤ 16 }
    ensures count { result ≡ length (senders_ops 1 senders.now) }
    ensures few { result ≤ 2_097_152 }
{
    let mut count = 0;
    for items in senders {
        count += items.len() as u64;
    }
    count
}

/// The greatest moment of participant 0's items, or 0.
#[tactic(auto, using(crate::proofs::Bounds::greatest_more))]
fn last_given_at(items: &[ControlItem]) -> u64
    ensures { result ≡ greatest_of (map control_at items.now) }
{
    let mut last = 0;
    for item in items {
        last = moment_of(item).millis().max(last);
    }
    last
}

/// The greatest moment of a sender's packets, or 0.
#[tactic(auto, using(crate::proofs::Bounds::greatest_more))]
fn last_packet_at(items: &[SendItem]) -> u64
    ensures { result ≡ greatest_of (map send_at items.now) }
{
    let mut last = 0;
    for item in items {
        last = item.at.millis().max(last);
    }
    last
}

/// The greatest moment of all packets, or 0.
#[tactic(auto, using(crate::proofs::Bounds::greatest_of_lists))]
fn last_sent_at(senders: &[Items<SendItem>]) -> u64
    ensures { result ≡ greatest_of (flat_map (map send_at) senders.now) }
{
    let mut last = 0;
    for items in senders {
        last = last_packet_at(items.as_slice()).max(last);
    }
    last
}

/// The most lines with so many operations up to a moment.
#[tactic(auto, using(crate::proofs::Bounds::line_product, crate::proofs::Bounds::sweeps_upto))]
fn bound_of(params: &Params, operations: u64, moment: u64) -> u64
    requires params { InRange params.now }
    requires few { operations < 2 ^ 32 }
    requires moment { moment ≤ greatest }
    ensures { result ≡ accounts.line_bound params.now operations moment }
{
    let lines_each = u64::from(params.mcast_solicit) + u64::from(params.ucast_solicit) + 10;
    let sweeps = moment / u64::from(params.gc_interval);
    operations * lines_each + sweeps + 1
}

/// The plan's line bound, below which each of its journals stays: so many lines for each of its operations as it has probes, and ten more; a sweep
/// for each interval up to its last item; and one. Each participant's items are within the limits of a plan, and no later than the greatest moment.
#[tactic(auto, using(crate::proofs::Bounds::bound_counted))]
pub fn line_bound(plan: &Plan) -> u64
    requires params { InRange plan.now.params }
    requires within { IsWithinLimits plan.now }
    requires moments { last_item_at plan.now ≤ greatest }
    ensures { result ≡ plan_bound plan.now }
{
    let given = given_count(plan, plan.control.as_slice());
    let sent = sent_count(plan.senders.as_slice());
    let last_given = last_given_at(plan.control.as_slice());
    let last_sent = last_sent_at(plan.senders.as_slice());
    bound_of(&plan.params, given + sent, last_given.max(last_sent))
}
