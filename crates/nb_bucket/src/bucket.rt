//! A bucket and its calls.
ghost use Rattle.std.specs.Prelude.{◌≡◌, ◌≤◌, [], true, is_some, max, IfOk, IfErr, IfSome, OnOk, OnErr, length};
ghost use Rattle.nb_base.specs.Params.{InRange};
ghost use Rattle.nud_machine.specs.Asked.{greatest};
ghost use Rattle.nb_journal.specs.Keys.{may_be_asked, has_key};
ghost use Rattle.nb_journal.specs.Fold.{state_of, known_keys, present_count};
ghost use Rattle.nb_journal.specs.Keys as keys_of;
ghost use Rattle.nb_journal.specs.Lawful.{IsLawful};
ghost use Rattle.nb_bucket.specs.Bucket.{most_lines, GoesOn, Enters, Refuses, ComesNext, EntersNext, Stands};
ghost use Rattle.nb_bucket.specs.Counting.{shown, IsCensusOf, CountsAlong, CountsRefused};

mod advancing;
mod entering;

use crate::BucketFail;
use journal_fold::Fold;
use nb_base::{Host, Key, Line, Moment, Op, OpId, Params, Reply};
use nb_census::Census;
use nud_machine::{Acts, Entry};
use slot_links::Links;
use std::alloc::{AllocError, Global};
use std::marker::Model;
use timer_wheel::Wheel;

/// One bucket of a neighbour table: its journal, and the entries that the journal leaves. Contracts see the journal, with the
/// clock up to which the bucket has gone on, the parameters, and the most lines that the journal may have.
#[derive(Drop)]
pub struct Bucket {
    fold: Fold,
    limit: u32,
    clock: Moment,
    next_sweep: Moment,
    /// One list: the ranks of the present keys in the order of making.
    order: Links,
    /// The ranks that the last sweep or flush went over.
    ranks: Vec<u32>,
    /// The keys that the last forced pass took; it has room for as many as the order has nodes.
    victims: Vec<Key>,
    last_pass: Moment,
    acts: Acts,
    /// A node for each known key, its rank, with the due of the key's entry.
    timers: Wheel,
}

impl Model for Bucket {
    ghost use Rattle.nb_bucket.specs.Bucket.{Journal};

    ghost Value = { Journal };

    ghost use Rattle.nb_bucket.specs.Keeps.{journal_of, IsBucket};

    ghost view = { journal_of };

    ghost invariant = { IsBucket };
}

impl Bucket {
    /// The bucket with no lines and the clock 0. Its journal may have up to `limit` lines, at most 2^22. Only want of memory is an
    /// error.
    pub fn new(
        alloc: Global,
        params: &Params,
        _host: &Host,
        limit: u32,
    ) -> Result<Bucket, AllocError>
        requires params { InRange params.now }
        requires limit { limit ≤ most_lines }
        ensures made { IfOk result (λ b. b ≡ record { params = params.now; limit = limit; lines = []; clock = 0 }) }
    {
        Ok(Bucket {
            fold: Fold::new(alloc, params)?,
            limit,
            clock: Moment(0),
            next_sweep: Moment(u64::from(params.gc_interval)),
            order: Links::new(alloc, 1)?,
            ranks: Vec::new(alloc),
            victims: Vec::new(alloc),
            last_pass: Moment(0),
            acts: Acts::new(alloc)?,
            timers: Wheel::new(alloc)?,
        })
    }

    /// The journal's lines.
    pub fn lines(&self) -> &[Line]
        ensures lines { result.now ≡ self.now.lines }
        ensures few { length self.now.lines ≤ self.now.limit }
        ensures limit { self.now.limit ≤ most_lines }
        ensures stands { Stands self.now.params self.now.lines self.now.clock }
    {
        self.fold.lines()
    }

    /// A key's entry, where the key is known.
    pub fn entry(&self, key: &Key) -> Option<&Entry>
        ensures known { is_some result ≡ has_key (known_keys self.now.lines) key.now }
        ensures entry { IfSome result (λ entry. entry.now ≡ (state_of self.now.params self.now.lines key.now).entry) }
    {
        match self.fold.find(key) {
            None => None,
            Some(kept) => Some(&kept.entry),
        }
    }

    /// How many entries are present.
    pub fn present(&self) -> u32
        ensures count { result ≡ present_count self.now.params self.now.lines }
        ensures few { result ≤ most_lines }
    {
        self.fold.present() as u32
    }

    /// The moment up to which the bucket has gone on.
    pub fn clock(&self) -> Moment
        ensures clock { result ≡ self.now.clock }
        ensures stands { Stands self.now.params self.now.lines self.now.clock }
    {
        self.clock
    }

    /// Enters an operation behind the timers and sweeps up to its moment, or up to the clock where that is later. Answers the place
    /// of its line, from 0, and its reply. A refused call leaves the timers and sweeps on its way, and no line of the operation.
    ///
    /// Each line counts at the census: it changes the share where it changes the number of present entries, and a sweep and a line
    /// that is to make an entry look at the sum first. A refused call may have looked for a line that it didn't write.
    pub fn enter<C: Census>(
        &mut self,
        alloc: Global,
        census: &mut C,
        at: Moment,
        id: OpId,
        op: Op,
    ) -> Result<(u32, Reply), BucketFail>
        requires now { at ≤ greatest }
        requires own { keys_of.is_own op ≡ true }
        requires asked { may_be_asked op ≡ true }
        requires census { IsCensusOf self.old.params self.old.lines (shown C.name C.share C.changes C.looks C.others census.old) }
        ensures entered { IfOk result (λ x. Enters self.old self.new at id op x.0 x.1) }
        ensures refused { IfErr result (Refuses self.old self.new (max at self.old.clock) (EntersNext self.old.params self.new.lines (max at self.old.clock) id op (C.others census.old))) }
        ensures counted { OnOk result (CountsAlong self.old.params self.old.lines self.new.lines (shown C.name C.share C.changes C.looks C.others census.old) (shown C.name C.share C.changes C.looks C.others census.new)) }
        ensures refused_counted { OnErr result (CountsRefused self.old.params self.old.lines self.new.lines (shown C.name C.share C.changes C.looks C.others census.old) (shown C.name C.share C.changes C.looks C.others census.new)) }
    {
        let at = later(at, self.clock);
        self.run_to(alloc, census, at)?;
        self.enter_at(alloc, census, at, id, op)
    }

    /// Goes on by timers and sweeps up to the moment, or stays at the clock where that is later. A refused call leaves the lines
    /// on its way. Each line counts at the census, as those of `enter` do.
    pub fn advance<C: Census>(
        &mut self,
        alloc: Global,
        census: &mut C,
        to: Moment,
    ) -> Result<(), BucketFail>
        requires now { to ≤ greatest }
        requires census { IsCensusOf self.old.params self.old.lines (shown C.name C.share C.changes C.looks C.others census.old) }
        ensures goes_on { GoesOn self.old self.new }
        ensures clock { OnOk result (self.new.clock ≡ max to self.old.clock) }
        ensures lawful { OnOk result (IsLawful self.new.params self.new.lines self.new.clock) }
        ensures refused { IfErr result (Refuses self.old self.new (max to self.old.clock) (ComesNext self.old.params self.new.lines (max to self.old.clock))) }
        ensures counted { CountsAlong self.old.params self.old.lines self.new.lines (shown C.name C.share C.changes C.looks C.others census.old) (shown C.name C.share C.changes C.looks C.others census.new) }
    {
        let to = later(to, self.clock);
        self.run_to(alloc, census, to)?;
        self.settle(to);
        Ok(())
    }
}

/// The later of two moments.
fn later(a: Moment, b: Moment) -> Moment
    ensures { result ≡ max a b }
{
    if a < b { b } else { a }
}
