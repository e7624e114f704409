//! From a script and a capture to their plan.
ghost use Rattle.std.specs.Prelude.{◌≡◌, ◌+◌, ◌<◌, ◌≤◌, ◌++◌, ◌∷◌, [], ◌||◌, nat_le, length, take, drop, OnOk, IfOk, IfSome, MatchOption};
ghost use Rattle.neigh_script.specs.Context.{at_of};
ghost use Rattle.pcap_records.specs.Capture.{AreBounded};
ghost use Rattle.neigh_run.specs.Plan.{control_of, control_items, sent_by, sends_of, senders_from, IsScriptWithinLimits, IsWithinLimits};
ghost use Rattle.neigh_plan.specs.Files.{frame_of, plan_of_files};
ghost use Rattle.neigh_plan.specs.Planning.{is_sent, step_items, frames_of, insert_items, AreFit, StepFits};

use nb_base::{Bytes, ControlItem, Items, Plan, SendItem};
use neigh_script::{Script, ScriptItem};
use pcap_records::{Capture, Rec};
use std::alloc::{AllocError, Global};

fn copy_bytes(alloc: Global, bytes: &[u8]) -> Result<Bytes, AllocError>
    ensures { IfOk result (λ copy. copy ≡ bytes.now) }
{
    Ok(Items::from_vec(bytes.to_vec(alloc)?))
}

/// What comes next of participant 0: a line of the script, which may be none of its, or a record.
#[derive(Clone, Copy)]
enum Step<'a> {
    Line(&'a ScriptItem),
    Record(Rec),
}

/// What is left of a script and of a capture with these bytes.
#[derive(Clone, Copy)]
struct Files<'a> {
    bytes: &'a [u8],
    lines: &'a [ScriptItem],
    records: &'a [Rec],
}

impl<'a> Files<'a> {
    /// What comes next. At equal moments lines go before records.
    #[tactic(auto, using(crate::proofs::Items::fit_behind, crate::proofs::Items::fit_first, crate::proofs::Items::fit_none))]
    fn next(&mut self) -> Option<Step<'a>>
        requires { AreFit (length self.old.bytes.now) 0 self.old.records.now }
        ensures value { MatchOption result ((self.old.lines.now ≡ []) × (self.old.records.now ≡ [])) (λ step. insert_items (control_items self.old.lines.now) (frames_of self.old.bytes.now self.old.records.now) ≡ step_items self.old.bytes.now step ++ insert_items (control_items self.new.lines.now) (frames_of self.old.bytes.now self.new.records.now)) }
        ensures same { self.new.bytes.now ≡ self.old.bytes.now }
        ensures step { IfSome result (StepFits (length self.old.bytes.now)) }
        ensures fit { AreFit (length self.old.bytes.now) 0 self.new.records.now }
        ensures shorter { IfSome result (λ _. length self.new.lines.now + length self.new.records.now < length self.old.lines.now + length self.old.records.now) }
    {
        let Some((rec, later)) = self.records.split_first() else {
            return self.next_line();
        };
        let Some((line, behind)) = self.lines.split_first() else {
            self.records = later;
            return Some(Step::Record(*rec));
        };
        if goes_first(line, rec) {
            self.lines = behind;
            Some(Step::Line(line))
        } else {
            self.records = later;
            Some(Step::Record(*rec))
        }
    }

    /// The next line, where no record is left.
    #[tactic(auto, using(crate::proofs::Items::next_line_alone))]
    fn next_line(&mut self) -> Option<Step<'a>>
        requires { self.old.records.now ≡ [] }
        ensures value { MatchOption result ((self.old.lines.now ≡ []) × (self.old.records.now ≡ [])) (λ step. insert_items (control_items self.old.lines.now) (frames_of self.old.bytes.now self.old.records.now) ≡ step_items self.old.bytes.now step ++ insert_items (control_items self.new.lines.now) (frames_of self.old.bytes.now self.new.records.now)) }
        ensures same { self.new.bytes.now ≡ self.old.bytes.now }
        ensures step { IfSome result (StepFits (length self.old.bytes.now)) }
        ensures records { self.new.records.now ≡ [] }
        ensures shorter { IfSome result (λ _. length self.new.lines.now + length self.new.records.now < length self.old.lines.now + length self.old.records.now) }
    {
        let (line, behind) = self.lines.split_first()?;
        self.lines = behind;
        Some(Step::Line(line))
    }
}

/// A line that sends is none of participant 0's, and goes first at any moment.
fn goes_first(line: &ScriptItem, rec: &Rec) -> bool
    ensures { result ≡ (is_sent line.now || nat_le (at_of line.now) rec.now.at) }
{
    match line {
        ScriptItem::Neigh { at, .. } => *at <= rec.at,
        ScriptItem::Proxy { at, .. } => *at <= rec.at,
        ScriptItem::Send { .. } => true,
    }
}

/// So many bytes from a place on.
fn piece(bytes: &[u8], start: usize, len: usize) -> &[u8]
    requires { start + len ≤ length bytes.now }
    ensures { result.now ≡ take len (drop start bytes.now) }
{
    &bytes[start..][..len]
}

/// A record's frame, with a copy of its bytes.
fn frame(alloc: Global, bytes: &[u8], rec: &Rec) -> Result<ControlItem, AllocError>
    requires { rec.now.start + rec.now.len ≤ length bytes.now }
    ensures { IfOk result (λ item. item ≡ frame_of bytes.now rec.now) }
{
    let captured = piece(bytes, rec.start, rec.len);
    Ok(ControlItem::Frame {
        at: rec.at,
        bytes: copy_bytes(alloc, captured)?,
    })
}

/// Appends the item, where it is one of participant 0.
fn take_control(items: &mut Items<ControlItem>, item: &ScriptItem) -> Result<(), AllocError>
    ensures { OnOk result (items.new ≡ items.old ++ control_of item.now) }
{
    match item {
        ScriptItem::Neigh { at, op } => items.push(ControlItem::Neigh { at: *at, op: *op }),
        ScriptItem::Proxy { at, key, add } => items.push(ControlItem::Proxy {
            at: *at,
            key: *key,
            add: *add,
        }),
        ScriptItem::Send { .. } => Ok(()),
    }
}

/// Appends the items of a step.
fn take_step(
    alloc: Global,
    items: &mut Items<ControlItem>,
    bytes: &[u8],
    step: &Step<'_>,
) -> Result<(), AllocError>
    requires { StepFits (length bytes.now) step.now }
    ensures { OnOk result (items.new ≡ items.old ++ step_items bytes.now step.now) }
{
    match step {
        Step::Line(line) => take_control(items, line),
        Step::Record(rec) => items.push(frame(alloc, bytes, rec)?),
    }
}

#[tactic(auto, using(crate::proofs::Items::step_more, crate::proofs::Items::nothing_left))]
fn control_of_files(
    alloc: Global,
    bytes: &[u8],
    records: &[Rec],
    script: &[ScriptItem],
) -> Result<Items<ControlItem>, AllocError>
    requires { AreFit (length bytes.now) 0 records.now }
    ensures { IfOk result (λ items. items ≡ insert_items (control_items script.now) (frames_of bytes.now records.now)) }
{
    let mut files = Files {
        bytes,
        lines: script,
        records,
    };
    let mut items = Items::new(alloc);
    while let Some(step) = files.next() {
        take_step(alloc, &mut items, bytes, &step)?;
    }
    Ok(items)
}

/// Appends the packet, where the item is one of this sender.
fn take_send(
    alloc: Global,
    items: &mut Items<SendItem>,
    number: u32,
    item: &ScriptItem,
) -> Result<(), AllocError>
    ensures { OnOk result (items.new ≡ items.old ++ sent_by number item.now) }
{
    match item {
        ScriptItem::Send {
            at,
            sender,
            key,
            payload,
        } => {
            if *sender == number {
                let payload = copy_bytes(alloc, payload.as_slice())?;
                items.push(SendItem {
                    at: *at,
                    key: *key,
                    payload,
                })
            } else {
                Ok(())
            }
        }
        _ => Ok(()),
    }
}

fn packets_of(
    alloc: Global,
    number: u32,
    script: &[ScriptItem],
) -> Result<Items<SendItem>, AllocError>
    ensures { IfOk result (λ items. items ≡ sends_of number script.now) }
{
    let mut items = Items::new(alloc);
    for item in script {
        take_send(alloc, &mut items, number, item)?;
    }
    Ok(items)
}

#[tactic(auto, using(crate::proofs::Planned::senders_from_more))]
fn senders_of(
    alloc: Global,
    count: u32,
    script: &[ScriptItem],
) -> Result<Items<Items<SendItem>>, AllocError>
    ensures { IfOk result (λ senders. senders ≡ senders_from 1 count script.now) }
{
    let mut senders = Items::new(alloc);
    for before in 0..count {
        senders.push(packets_of(alloc, before + 1, script)?)?;
    }
    Ok(senders)
}

/// The plan of a script and of a capture of the file with these bytes, or of no capture: participant 0's items are the script's lines of `neigh` and `confirm`
/// and the capture's records, by moment, at equal moments the lines first; each sender's are its own packets, in the order of their lines.
/// It goes over the script and the records once for participant 0, and over the script once for each sender. Each captured frame is copied once.
#[tactic(auto, unfolding(neigh_run::specs::Plan::plan_of), using(crate::proofs::Items::bounded_fit, crate::proofs::Items::plan_of_files_is))]
pub fn plan(
    alloc: Global,
    capture: &Capture,
    bytes: &[u8],
    script: &Script,
    window: u32,
    buckets: u32,
) -> Result<Plan, AllocError>
    requires { AreBounded (length bytes.now) capture.now }
    ensures value { IfOk result (λ plan. plan ≡ plan_of_files bytes.now capture.now script.now window buckets) }
    ensures within { IsScriptWithinLimits script.now → IfOk result IsWithinLimits }
{
    Ok(Plan {
        host: script.host,
        params: script.params,
        buckets,
        window,
        control: control_of_files(alloc, bytes, capture.as_slice(), script.items.as_slice())?,
        senders: senders_of(alloc, script.senders, script.items.as_slice())?,
    })
}
