//! The addresses that the host answers for, and the requests for them that wait.
ghost use Rattle.std.specs.Prelude.{◌≡◌, ◌+◌, ◌<◌, ◌≤◌, ◌^◌, [], ◌∷◌, ◌++◌, length, false, None, if◌then◌else◌, option_to_list, IfOk, IfSome, IsErr, OnOk, OnErr, IsTrue, ◌↔◌};
ghost use Rattle.std.specs.List.{IsDistinct};
ghost use Rattle.nb_base.specs.declared.line.Reply.TheVariants as reply;
ghost use Rattle.nb_queues.specs.SameKey.{has_key, with_key, without_key, is_key};
ghost use Rattle.nb_queues.specs.Proxies.{are_due_by, none_due};

use crate::{ProxyFull, ProxyJob, ProxyRequest};
use circular_buffer::HeapCircularBuffer;
use indexmap::IndexSet;
use nb_base::{Key, Moment, Params, Reply};
use std::alloc::{AllocError, Global};
use std::marker::Model;

fn add_reply(is_new: bool) -> Reply
    ensures { result ≡ (if is_new then reply.Done else reply.Exists) }
{
    if is_new { Reply::Done } else { Reply::Exists }
}

fn delete_reply(was_there: bool) -> Reply
    ensures { result ≡ (if was_there then reply.Done else reply.Missing) }
{
    if was_there {
        Reply::Done
    } else {
        Reply::Missing
    }
}

/// The addresses that a host answers for, and the requests for them that wait for their answers (arp(7), `proxy_delay` and `proxy_qlen`).
/// Contracts see both as lists: different keys in order of adding, and jobs of which none is due before one that waits longer.
#[derive(Drop)]
pub struct ProxyTable {
    keys: IndexSet<Key>,
    jobs: HeapCircularBuffer<ProxyJob>,
    delay: u32,
}

impl Model for ProxyTable {
    ghost use Rattle.std.specs.Prelude.{◌≤◌, length, IsTrue};
    ghost use Rattle.nb_queues.specs.Proxies.{Proxies, are_in_order};

    ghost Value = { Proxies };

    ghost view = { λ t. record { keys = t.keys.keys; jobs = t.jobs.items; delay = t.delay; most = t.jobs.capacity } };

    ghost invariant = { λ t. IsTrue (are_in_order t.jobs.items) × (length t.jobs.items ≤ t.jobs.capacity) };
}

impl ProxyTable {
    /// A table without addresses and jobs. Takes the memory of `proxy_qlen` jobs.
    pub fn new(alloc: Global, params: &Params) -> Result<ProxyTable, AllocError>
        ensures { IfOk result (λ t. t ≡ record { keys = []; jobs = []; delay = params.now.proxy_delay; most = params.now.proxy_qlen }) }
    {
        let jobs = HeapCircularBuffer::with_capacity(alloc, params.proxy_qlen as usize)?;
        Ok(ProxyTable {
            keys: IndexSet::new(alloc),
            jobs,
            delay: params.proxy_delay,
        })
    }

    /// Adds an address behind the others: `Exists` exactly where it is there. Without memory for it the table stays as it was.
    pub fn add(&mut self, key: Key) -> Result<Reply, AllocError>
        ensures reply { IfOk result (λ r. r ≡ (if has_key self.old.keys key then reply.Exists else reply.Done)) }
        ensures ok { OnOk result (self.new ≡ record self.old { keys = with_key self.old.keys key }) }
        ensures err { OnErr result (self.new ≡ self.old) }
        ensures absent { OnErr result (has_key self.old.keys key ≡ false) }
    {
        let is_new = self.keys.insert(key)?;
        Ok(add_reply(is_new))
    }

    /// Deletes an address: `Missing` exactly where it isn't there. The others keep their order, and the jobs that wait stay, also those for it.
    /// Takes no memory.
    pub fn del(&mut self, key: &Key) -> Reply
        ensures reply { result ≡ (if has_key self.old.keys key.now then reply.Done else reply.Missing) }
        ensures keys { self.new ≡ record self.old { keys = without_key self.old.keys key.now } }
    {
        let was_there = self.keys.shift_remove(key);
        delete_reply(was_there)
    }

    /// Whether the host answers for an address. Takes no memory.
    pub fn has(&self, key: &Key) -> bool
        ensures { result ≡ has_key self.now.keys key.now }
    {
        self.keys.contains(key)
    }

    /// The addresses, in order of adding.
    pub fn keys(&self) -> &[Key]
        ensures keys { result.now ≡ self.now.keys }
        ensures different { IsDistinct is_key result.now }
    {
        self.keys.as_slice()
    }

    /// Puts a request behind the others, due `proxy_delay` later: `ProxyFull` exactly where `proxy_qlen` jobs wait, and then nothing changes.
    /// Moments come in order, so no job that waits is due later. Takes no memory.
    pub fn enqueue(&mut self, at: Moment, request: ProxyRequest) -> Result<(), ProxyFull>
        requires fits { at + self.old.delay < 2 ^ 64 }
        requires order { IsTrue (are_due_by (at + self.old.delay) self.old.jobs) }
        ensures full { IsErr result ↔ (length self.old.jobs ≡ self.old.most) }
        ensures ok { OnOk result (self.new ≡ record self.old { jobs = self.old.jobs ++ record { due = at + self.old.delay; request = request } ∷ [] }) }
        ensures err { OnErr result (self.new ≡ self.old) }
    {
        let due = at.after(self.delay);
        match self.jobs.try_push_back(ProxyJob { due, request }) {
            Ok(()) => Ok(()),
            Err(_) => Err(ProxyFull),
        }
    }

    /// Takes off the first job, where it is due by a moment: `None` exactly where none of the jobs is. Takes no memory.
    pub fn due(&mut self, at: Moment) -> Option<ProxyJob>
        ensures jobs { option_to_list result ++ self.new.jobs ≡ self.old.jobs }
        ensures others { self.new ≡ record self.old { jobs = self.new.jobs } }
        ensures due { IfSome result (λ job. job.due ≤ at) }
        ensures none { (result ≡ None) ↔ IsTrue (none_due at self.old.jobs) }
    {
        let due = self.jobs.front()?.due;
        if due <= at {
            self.jobs.pop_front()
        } else {
            None
        }
    }
}
