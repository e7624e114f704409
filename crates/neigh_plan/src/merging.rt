//! The operations of a plan in the order in which an inline run enters them, as lines.
ghost use Rattle.std.specs.Prelude.{◌≡◌, ℕ, ◌+◌, ◌<◌, ◌≤◌, ◌^◌, [], ◌∷◌, ◌++◌, map, length, IfOk, OnOk, IfSome, MatchOption, nat_le};
ghost use Rattle.neigh_run.specs.Control.{HostState, host_start, turn};
ghost use Rattle.neigh_run.specs.Merged.{id_for, control_op, control_ops, sender_ops, merged};
ghost use Rattle.neigh_run.specs.Plan.{IsSendList, IsPacket, IsWithinLimits, control_at};
ghost use Rattle.nb_base.specs.declared.op.Op.TheVariants as op;
ghost use Rattle.neigh_plan.specs.Merging as merging;
ghost use Rattle.neigh_plan.specs.Merging.{lines_of, insert_lines, AreByMoment};
ghost use Rattle.std.specs.Option.{option_to_list};
ghost use Rattle.std.specs.List.{AllByRecursion};

use heard_frames::operation;
use nb_base::{ControlItem, Items, Line, Moment, Op, OpId, Plan, SendItem};
use std::alloc::{AllocError, Global};

/// Two lists of lines, each by moment, of which the lines are taken by moment.
#[derive(Clone, Copy, Debug)]
struct Merging<'a> {
    left: &'a [Line],
    right: &'a [Line],
}

impl<'a> Merging<'a> {
    #[tactic(auto, using(crate::proofs::Merges::rest_by_moment))]
    /// The next line. At equal moments those on the left go first.
    fn next(&mut self) -> Option<Line>
        requires { AreByMoment self.old.right.now }
        ensures value { MatchOption result ((self.old.left.now ≡ []) × (self.old.right.now ≡ [])) (λ line. insert_lines self.old.left.now self.old.right.now ≡ line ∷ insert_lines self.new.left.now self.new.right.now) }
        ensures sorted { AreByMoment self.new.right.now }
        ensures shorter { IfSome result (λ _. length self.new.left.now + length self.new.right.now < length self.old.left.now + length self.old.right.now) }
    {
        let Some((other, behind)) = self.right.split_first() else {
            return self.next_left();
        };
        let Some((first, rest)) = self.left.split_first() else {
            self.right = behind;
            return Some(*other);
        };
        if goes_first(first, other) {
            self.left = rest;
            Some(*first)
        } else {
            self.right = behind;
            Some(*other)
        }
    }

    #[tactic(auto, using(crate::proofs::Merges::next_left_alone))]
    /// The next line, where none is left on the right.
    fn next_left(&mut self) -> Option<Line>
        requires { self.old.right.now ≡ [] }
        ensures value { MatchOption result ((self.old.left.now ≡ []) × (self.old.right.now ≡ [])) (λ line. insert_lines self.old.left.now self.old.right.now ≡ line ∷ insert_lines self.new.left.now self.new.right.now) }
        ensures right { self.new.right.now ≡ [] }
        ensures shorter { IfSome result (λ _. length self.new.left.now + length self.new.right.now < length self.old.left.now + length self.old.right.now) }
    {
        let (first, rest) = self.left.split_first()?;
        self.left = rest;
        Some(*first)
    }
}

fn goes_first(line: &Line, other: &Line) -> bool
    ensures { result ≡ nat_le line.now.at other.now.at }
{
    line.at <= other.at
}

#[tactic(auto, using(crate::proofs::Merges::nothing_left))]
fn merge(alloc: Global, left: &[Line], right: &[Line]) -> Result<Items<Line>, AllocError>
    requires { AreByMoment right.now }
    ensures { IfOk result (λ lines. lines ≡ insert_lines left.now right.now) }
{
    let mut merging = Merging { left, right };
    let mut lines = Items::new(alloc);
    while let Some(line) = merging.next() {
        lines.push(line)?;
    }
    Ok(lines)
}

/// The number of a participant's item: items are counted from 1.
fn id_of(participant: u32, place: usize) -> OpId
    requires participant { participant ≤ 16 }
    requires place { place < 393216 }
    ensures { result ≡ id_for participant (place + 1) }
{
    OpId(32 * (place as u64 + 1) + u64::from(participant))
}

fn line_of(at: Moment, id: OpId, op: Op) -> Line
    ensures { result ≡ merging.line_of (record { at = at; id = id; op = op }) }
{
    Line {
        at,
        id: Some(id),
        op,
        seen: None,
        full: None,
    }
}

/// The operation that sends a packet.
fn sending(item: &SendItem) -> Op
    requires { IsPacket item.now }
    ensures { result ≡ op.Send item.now.key (length item.now.payload) }
{
    Op::Send {
        key: item.key,
        len: item.payload.len() as u32,
    }
}

#[tactic(auto, using(crate::proofs::Participants::sender_ops_more, crate::proofs::Participants::packet_at))]
fn sender_lines(
    alloc: Global,
    participant: u32,
    items: &[SendItem],
) -> Result<Items<Line>, AllocError>
    requires participant { participant ≤ 16 }
    requires few { length items.now ≤ 131072 }
    requires packets { AllByRecursion IsPacket items.now }
    ensures { IfOk result (λ lines. lines ≡ lines_of (sender_ops participant 1 items.now)) }
{
    let mut lines = Items::new(alloc);
    for (place, item) in items.iter().enumerate() {
        lines.push(line_of(item.at, id_of(participant, place), sending(item)))?;
    }
    Ok(lines)
}

/// The operation of an item of participant 0, where it has one. It is the same in every state of the host.
pub(crate) fn operation_of(plan: &Plan, item: &ControlItem) -> Option<Op>
    ensures { (state : HostState) (n : ℕ) → (turn plan.now state n item.now).operation ≡ result }
{
    match item {
        ControlItem::Frame { bytes, .. } => operation(&plan.host, bytes.as_slice()),
        ControlItem::Neigh { op, .. } => Some(*op),
        ControlItem::Proxy { .. } => None,
    }
}

/// The moment of an item of participant 0.
pub(crate) fn moment_of(item: &ControlItem) -> Moment
    ensures { result ≡ control_at item.now }
{
    match item {
        ControlItem::Frame { at, .. } => *at,
        ControlItem::Neigh { at, .. } => *at,
        ControlItem::Proxy { at, .. } => *at,
    }
}

/// Appends the operation's line, where the item has one.
fn take_control(
    lines: &mut Items<Line>,
    plan: &Plan,
    place: usize,
    item: &ControlItem,
) -> Result<(), AllocError>
    requires { place < 393216 }
    ensures { (state : HostState) → OnOk result (lines.new ≡ lines.old ++ lines_of (option_to_list (control_op plan.now state (place + 1) item.now))) }
{
    match operation_of(plan, item) {
        Some(op) => lines.push(line_of(moment_of(item), id_of(0, place), op)),
        None => Ok(()),
    }
}

#[tactic(auto, using(crate::proofs::Participants::control_ops_more))]
fn control_lines(
    alloc: Global,
    plan: &Plan,
    items: &[ControlItem],
) -> Result<Items<Line>, AllocError>
    requires { length items.now ≤ 393216 }
    ensures { IfOk result (λ lines. lines ≡ lines_of (control_ops plan.now host_start 1 items.now)) }
{
    let mut lines = Items::new(alloc);
    for (place, item) in items.iter().enumerate() {
        take_control(&mut lines, plan, place, item)?;
    }
    Ok(lines)
}

/// Merges the sender's packets in, behind the lines of their own moments.
#[tactic(auto, using(crate::proofs::Participants::rises_sender_lines))]
fn merge_sender(
    alloc: Global,
    lines: &Items<Line>,
    participant: u32,
    items: &Items<SendItem>,
) -> Result<Items<Line>, AllocError>
    requires participant { participant ≤ 16 }
    requires list { IsSendList items.now }
    ensures { IfOk result (λ merged. merged ≡ insert_lines lines.now (lines_of (sender_ops participant 1 items.now))) }
{
    let own = sender_lines(alloc, participant, items.as_slice())?;
    merge(alloc, lines.as_slice(), own.as_slice())
}

/// The operations of a plan in merged order: by moment, and at equal moments participant 0's first, then the senders' by number. A sender's
/// operation carries its packet's length, 1 to 1,500 bytes.
/// It goes over the lines so far once for each sender.
#[tactic(auto, using(crate::proofs::Participants::list_at, crate::proofs::Participants::merged_more, crate::proofs::Participants::merged_first, crate::proofs::Participants::merged_last, crate::proofs::Participants::merged_short))]
pub fn merged_lines(alloc: Global, plan: &Plan) -> Result<Items<Line>, AllocError>
    requires { IsWithinLimits plan.now }
    ensures value { IfOk result (λ lines. lines ≡ lines_of (merged plan.now)) }
    ensures few { IfOk result (λ lines. length lines < 2 ^ 31) }
{
    let mut lines = control_lines(alloc, plan, plan.control.as_slice())?;
    let senders = plan.senders.as_slice();
    for (before, items) in senders.iter().enumerate() {
        lines = merge_sender(alloc, &lines, before as u32 + 1, items)?;
    }
    Ok(lines)
}
