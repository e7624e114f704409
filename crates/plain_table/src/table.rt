//! The table and its calls.
ghost use Rattle.std.specs.Prelude.{◌≡◌, ◌<◌, ◌≤◌, IsTrue, length, replicate, IfOk, OnOk};
ghost use Rattle.std.specs.List.{AllByRecursion};
ghost use Rattle.nb_base.specs.Params.{InRange};
ghost use Rattle.nb_base.specs.Buckets.{is_bucket_count};
ghost use Rattle.nb_journal.specs.Accounts.{most_lines};
ghost use Rattle.plain_table.specs.Calls.{calls_on, buckets_called};
ghost use Rattle.plain_table.specs.Table.{bucket_at, present_in_all, params_of, new_journal, IsNew, AreCalled};
ghost use Rattle.plain_table.specs.Entering.{IsTask, AreByMoment, AreInBound};

mod calling;

use crate::Answer;
use nb_base::{Host, Items, Line, Params};
use nb_bucket::{Bucket, MOST_LINES};
use std::alloc::{AllocError, Global};
use std::marker::Model;

/// The buckets of a table, which one thread calls one after the other. Contracts see the buckets, in order of their numbers.
///
/// Beside them it keeps how many entries are present in all of them, so a call costs the same for every number of buckets, but for
/// that of an operation that names no key: it goes to each bucket.
#[derive(Drop)]
pub struct PlainTable {
    buckets: Vec<Bucket>,
    present: u32,
}

impl Model for PlainTable {
    ghost use Rattle.std.specs.Prelude.{List};
    ghost use Rattle.nb_bucket.specs.Bucket.{Journal};
    ghost use Rattle.plain_table.specs.Kept.{IsTable};

    ghost Value = { List Journal };

    ghost view = { λ t. t.buckets.items };

    ghost invariant = { IsTable };
}

impl PlainTable {
    /// A table of 1, 2, 4, 8, 16, 32 or 64 buckets without a line. Each journal may have up to 2^22 lines. Only want of memory is an
    /// error.
    pub fn new(
        alloc: Global,
        params: &Params,
        host: &Host,
        buckets: u32,
    ) -> Result<PlainTable, AllocError>
        requires params { InRange params.now }
        requires buckets { IsTrue (is_bucket_count buckets) }
        ensures buckets { IfOk result (λ table. length table ≡ buckets) }
        ensures params { IfOk result (λ table. params_of table ≡ params.now) }
        ensures new { IfOk result IsNew }
    {
        let buckets = new_buckets(alloc, params, host, buckets)?;
        Ok(PlainTable {
            buckets,
            present: 0,
        })
    }

    /// How many buckets the table has.
    pub fn buckets(&self) -> u32
        ensures { result ≡ length self.now }
    {
        self.buckets.len() as u32
    }

    /// How many entries are present in all buckets.
    pub fn present(&self) -> u32
        ensures { result ≡ present_in_all self.now }
    {
        self.present
    }

    /// The lines of a bucket's journal.
    pub fn lines(&self, bucket: u32) -> &[Line]
        requires { bucket < length self.now }
        ensures value { result.now ≡ (bucket_at self.now bucket).lines }
        ensures few { length result.now ≤ most_lines }
    {
        self.buckets[bucket as usize].lines()
    }

    /// Enters the operations of lines by moment into a new table, one after the other: one that names a key into the key's bucket, and
    /// any other into each bucket, in order of number. Their line bound is below 2^22. Answers what the buckets answer, in this order.
    ///
    /// # Errors
    /// Want of memory. Some of the operations may stand in the table then.
    pub fn enter_all(&mut self, alloc: Global, lines: &[Line]) -> Result<Items<Answer>, AllocError>
        requires buckets { IsTrue (is_bucket_count (length self.old)) }
        requires params { InRange (params_of self.old) }
        requires new { IsNew self.old }
        requires tasks { AllByRecursion IsTask lines.now }
        requires by_moment { AreByMoment lines.now }
        requires room { AreInBound (params_of self.old) lines.now }
        ensures buckets { length self.new ≡ length self.old }
        ensures called { IfOk result (λ answers. AreCalled (params_of self.old) (buckets_called (calls_on (length self.old) lines.now)) (calls_on (length self.old) lines.now) answers self.new) }
    {
        let mut answers = Items::new(alloc);
        for line in lines {
            self.enter(alloc, line, &mut answers)?;
        }
        Ok(answers)
    }
}

/// So many buckets without a line.
fn new_buckets(
    alloc: Global,
    params: &Params,
    host: &Host,
    count: u32,
) -> Result<Vec<Bucket>, AllocError>
    requires params { InRange params.now }
    ensures made { IfOk result (λ buckets. buckets.items ≡ replicate count (new_journal params.now)) }
{
    let mut buckets = Vec::new(alloc);
    for _number in 0..count {
        buckets.push(Bucket::new(alloc, params, host, MOST_LINES)?)?;
    }
    Ok(buckets)
}
