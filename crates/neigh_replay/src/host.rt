//! What the host does at participant 0's items: frames that it hears, operations, proxy entries, and answers to proxied requests at their dues.
ghost use Rattle.std.specs.Prelude.{◌≡◌, ◌<◌, ◌≤◌, take, drop, IfOk, OnOk};
ghost use Rattle.nb_base.specs.declared.op.Op.{Op};
ghost use Rattle.nb_base.specs.declared.plan.ControlItem.TheVariants as control;
ghost use Rattle.std.specs.Option.{option_map};
ghost use Rattle.nb_base.specs.Params.{InRange};
ghost use Rattle.nud_machine.specs.Asked.{greatest};
ghost use Rattle.neigh_run.specs.Control.{host_start, control_at, first_of, is_queued, with_request};
ghost use Rattle.neigh_run.specs.Plan.{IsWithinLimits};
ghost use Rattle.neigh_plan.specs.Inline.{last_item_at};
ghost use Rattle.neigh_replay.specs.Hosting as by;
ghost use Rattle.neigh_replay.specs.Hosting.{IsReady, state_in, table_in, at_point, after_due, after_own, after, lines_by};

use heard_frames::{answer, hear};
use nb_base::{Bytes, ControlItem, HostLine, Items, Key, Moment, Op, Placed, Plan};
use nb_journal::key_of;
use nb_queues::{ProxyRequest, ProxyTable};
use plain_table::Answer;
use std::alloc::{AllocError, Global};

/// How many buckets an operation goes to: its key's alone, or all.
fn bucket_count_of(plan: &Plan, op: &Op) -> usize
    ensures { result ≡ by.bucket_count_of plan.now.buckets op.now }
{
    match key_of(op) {
        Some(_) => 1,
        None => plan.buckets as usize,
    }
}

/// The first answers, of which there are no more than the answers.
fn split(answers: &[Answer], count: usize) -> (&[Answer], &[Answer])
    ensures front { result.0.now ≡ take count answers.now }
    ensures rest { result.1.now ≡ drop count answers.now }
{
    answers.split_at(count.min(answers.len()))
}

fn first_place(answers: &[Answer]) -> Option<Placed>
    ensures { result ≡ first_of (by.places answers.now) }
{
    let answer = answers.first()?;
    Some(answer.placed)
}

fn places(alloc: Global, answers: &[Answer]) -> Result<Items<Placed>, AllocError>
    ensures { IfOk result (λ all. all ≡ by.places answers.now) }
{
    let mut all = Items::new(alloc);
    for answer in answers {
        all.push(answer.placed)?;
    }
    Ok(all)
}

/// The host behind some of participant 0's items: its proxied addresses with the requests that wait, the answers that are left, and what it did.
#[derive(Drop)]
struct Walk<'a> {
    proxies: ProxyTable,
    answers: &'a [Answer],
    lines: Items<HostLine>,
}

impl<'a> Walk<'a> {
    /// Takes the next answers, one of each bucket that the operation goes to.
    fn take_answers(&mut self, plan: &Plan, op: &Op) -> &'a [Answer]
        ensures answers { result.now ≡ take (by.bucket_count_of plan.now.buckets op.now) self.old.answers.now }
        ensures rest { self.new.answers.now ≡ drop (by.bucket_count_of plan.now.buckets op.now) self.old.answers.now }
        ensures proxies { self.new.proxies ≡ self.old.proxies }
        ensures lines { self.new.lines ≡ self.old.lines }
    {
        let (answers, rest) = split(self.answers, bucket_count_of(plan, op));
        self.answers = rest;
        answers
    }

    /// Answers the requests that are due by a moment, each at its due.
    fn answer_due(&mut self, alloc: Global, plan: &Plan, at: Moment) -> Result<(), AllocError>
        ensures { OnOk result (at_point self.new.proxies self.new.answers.now self.new.lines ≡ after_due plan.now at (at_point self.old.proxies self.old.answers.now self.old.lines)) }
    {
        while let Some(job) = self.proxies.due(at) {
            let frame = answer(alloc, &plan.host, &job.request)?;
            self.lines.push(HostLine::Answer {
                due: job.due,
                frame,
            })?;
        }
        Ok(())
    }

    /// Queues a proxied request, where there is one, and answers whether there was room for it.
    fn queue(&mut self, plan: &Plan, at: Moment, request: Option<ProxyRequest>) -> Option<bool>
        requires moment { at ≤ greatest }
        requires ready { IsReady plan.now at self.old.proxies }
        ensures value { result ≡ option_map (λ asked. is_queued plan.now (state_in self.old.proxies)) request }
        ensures proxies { self.new.proxies ≡ table_in self.old.proxies (with_request plan.now (state_in self.old.proxies) at request) }
        ensures ready { IsReady plan.now at self.new.proxies }
        ensures answers { self.new.answers.now ≡ self.old.answers.now }
        ensures lines { self.new.lines ≡ self.old.lines }
    {
        match request {
            Some(request) => Some(self.proxies.enqueue(at, request).is_ok()),
            None => None,
        }
    }

    /// Where a frame's operation stands, where it has one.
    fn placed_for(&mut self, plan: &Plan, op: Option<Op>) -> Option<Placed>
        ensures value { result ≡ first_of (by.places_by plan.now.buckets op self.old.answers.now) }
        ensures answers { self.new.answers.now ≡ by.rest_by plan.now.buckets op self.old.answers.now }
        ensures proxies { self.new.proxies ≡ self.old.proxies }
        ensures lines { self.new.lines ≡ self.old.lines }
    {
        match op {
            Some(op) => first_place(self.take_answers(plan, &op)),
            None => None,
        }
    }

    /// Hears a frame: replies, and queues a proxied request.
    fn take_frame(
        &mut self,
        alloc: Global,
        plan: &Plan,
        n: u32,
        at: Moment,
        bytes: &Bytes,
    ) -> Result<(), AllocError>
        requires moment { at ≤ greatest }
        requires ready { IsReady plan.now at self.old.proxies }
        ensures taken { OnOk result (at_point self.new.proxies self.new.answers.now self.new.lines ≡ after_own plan.now n (control.Frame at bytes.now) (at_point self.old.proxies self.old.answers.now self.old.lines)) }
        ensures ready { OnOk result (IsReady plan.now at self.new.proxies) }
    {
        let heard = hear(alloc, &plan.host, &self.proxies, bytes.as_slice())?;
        let queued = self.queue(plan, at, heard.request);
        let op = self.placed_for(plan, heard.op);
        self.lines.push(HostLine::Frame {
            n,
            at,
            class: heard.class,
            queued,
            tx: heard.reply,
            op,
        })
    }

    /// An operation on the table.
    fn take_operation(
        &mut self,
        alloc: Global,
        plan: &Plan,
        n: u32,
        at: Moment,
        op: &Op,
    ) -> Result<(), AllocError>
        ensures { OnOk result (at_point self.new.proxies self.new.answers.now self.new.lines ≡ after_own plan.now n (control.Neigh at op.now) (at_point self.old.proxies self.old.answers.now self.old.lines)) }
    {
        let ops = places(alloc, self.take_answers(plan, op))?;
        self.lines.push(HostLine::Neigh { n, at, ops })
    }

    /// Adds or deletes a proxy entry.
    fn take_proxy(&mut self, n: u32, at: Moment, key: Key, add: bool) -> Result<(), AllocError>
        ensures taken { (plan : Plan) → OnOk result (at_point self.new.proxies self.new.answers.now self.new.lines ≡ after_own plan n (control.Proxy at key add) (at_point self.old.proxies self.old.answers.now self.old.lines)) }
    {
        let reply = if add {
            self.proxies.add(key)?
        } else {
            self.proxies.del(&key)
        };
        self.lines.push(HostLine::Proxy { n, at, reply })
    }

    /// One item: what is due by its moment is answered first.
    fn take_item(
        &mut self,
        alloc: Global,
        plan: &Plan,
        n: u32,
        item: &ControlItem,
    ) -> Result<(), AllocError>
        requires moment { control_at item.now ≤ greatest }
        requires ready { IsReady plan.now (control_at item.now) self.old.proxies }
        ensures taken { OnOk result (at_point self.new.proxies self.new.answers.now self.new.lines ≡ after plan.now n item.now (at_point self.old.proxies self.old.answers.now self.old.lines)) }
        ensures ready { OnOk result (IsReady plan.now (control_at item.now) self.new.proxies) }
    {
        match item {
            ControlItem::Frame { at, bytes } => {
                self.answer_due(alloc, plan, *at)?;
                self.take_frame(alloc, plan, n, *at, bytes)
            }
            ControlItem::Neigh { at, op } => {
                self.answer_due(alloc, plan, *at)?;
                self.take_operation(alloc, plan, n, *at, op)
            }
            ControlItem::Proxy { at, key, add } => {
                self.answer_due(alloc, plan, *at)?;
                self.take_proxy(n, *at, *key, *add)
            }
        }
    }
}

/// What the host does at participant 0's items, over the answers to their operations.
pub(crate) fn host_lines_of(
    alloc: Global,
    plan: &Plan,
    answers: &[Answer],
) -> Result<Items<HostLine>, AllocError>
    requires params { InRange plan.now.params }
    requires within { IsWithinLimits plan.now }
    requires moments { last_item_at plan.now ≤ greatest }
    ensures { IfOk result (λ lines. lines ≡ lines_by plan.now host_start 1 plan.now.control answers.now) }
{
    let proxies = ProxyTable::new(alloc, &plan.params)?;
    let mut walk = Walk {
        proxies,
        answers,
        lines: Items::new(alloc),
    };
    let items = plan.control.as_slice();
    for (before, item) in items.iter().enumerate() {
        walk.take_item(alloc, plan, before as u32 + 1, item)?;
    }
    let Walk { lines, .. } = walk;
    Ok(lines)
}
