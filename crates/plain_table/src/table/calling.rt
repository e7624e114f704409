//! An operation's calls, one bucket after the other.
ghost use Rattle.std.specs.Prelude.{◌≡◌, ◌+◌, ◌-◌, ◌^◌, ◌<◌, ◌≤◌, IsTrue, None, [], ◌∷◌, length, IfOk, OnOk};
ghost use Rattle.nb_base.specs.Buckets.{is_bucket_count};
ghost use Rattle.nb_journal.specs.Keys as keys_of;
ghost use Rattle.neigh_run.specs.Inline.{entered_line};
ghost use Rattle.plain_table.specs.Calls.{call_to, calls_for};
ghost use Rattle.plain_table.specs.Table.{bucket_at, present_in};
ghost use Rattle.plain_table.specs.Entering.{IsTask};
ghost use Rattle.plain_table.specs.Calling.{HasRoom, HaveRoom, EntersAmong, CallsOne, CallsEach};

use crate::Answer;
use crate::table::PlainTable;
use nb_base::{Items, Line, Placed, Reply, bucket_of};
use nb_bucket::{Bucket, BucketFail};
use nb_census::PlainCensus;
use nb_journal::{id_of, key_of};
use std::alloc::{AllocError, Global};

impl PlainTable {
    /// Enters a line's operation into each bucket that it goes to, in order of number, and appends what they answer.
    pub(crate) fn enter(
        &mut self,
        alloc: Global,
        line: &Line,
        answers: &mut Items<Answer>,
    ) -> Result<(), AllocError>
        requires buckets { IsTrue (is_bucket_count (length self.old)) }
        requires task { IsTask line.now }
        requires room { HaveRoom line.now self.old }
        ensures buckets { length self.new ≡ length self.old }
        ensures called { OnOk result (CallsEach (calls_for (length self.old) (entered_line line.now)) self.old self.new answers.old answers.new) }
    {
        match key_of(&line.op) {
            Some(key) => self.call(alloc, bucket_of(&key, self.buckets()), line, answers),
            None => self.call_all(alloc, line, answers),
        }
    }

    /// Enters an operation that names no key into each bucket, in order of number, and appends what they answer.
    fn call_all(
        &mut self,
        alloc: Global,
        line: &Line,
        answers: &mut Items<Answer>,
    ) -> Result<(), AllocError>
        requires task { IsTask line.now }
        requires room { HaveRoom line.now self.old }
        requires no_key { keys_of.key_of line.now.op ≡ None }
        ensures buckets { length self.new ≡ length self.old }
        ensures called { OnOk result (CallsEach (calls_for (length self.old) (entered_line line.now)) self.old self.new answers.old answers.new) }
    {
        for number in 0..self.buckets() {
            self.call(alloc, number, line, answers)?;
        }
        Ok(())
    }

    /// Enters a line's operation into one bucket, and appends what it answers.
    fn call(
        &mut self,
        alloc: Global,
        number: u32,
        line: &Line,
        answers: &mut Items<Answer>,
    ) -> Result<(), AllocError>
        requires number { number < length self.old }
        requires task { IsTask line.now }
        requires room { HasRoom line.now (bucket_at self.old number) }
        ensures buckets { length self.new ≡ length self.old }
        ensures called { OnOk result (CallsOne (call_to (entered_line line.now) number) self.old self.new answers.old answers.new) }
    {
        let total = self.present;
        let bucket = &mut self.buckets[number as usize];
        let before = bucket.present();
        let entered = enter_among(alloc, bucket, total, line);
        self.present = total - before + bucket.present();
        let (place, reply) = entered?;
        answers.push(Answer {
            id: id_of(line),
            at: line.at,
            placed: Placed {
                bucket: number,
                place,
                reply,
            },
        })
    }
}

/// Enters a line's operation into a bucket of a table with so many present entries. A census tells the bucket how many the others
/// hold. The bucket has room for what comes next, since the line bound is below 2^22.
fn enter_among(
    alloc: Global,
    bucket: &mut Bucket,
    total: u32,
    line: &Line,
) -> Result<(u32, Reply), AllocError>
    requires task { IsTask line.now }
    requires room { HasRoom line.now bucket.old }
    requires within { present_in bucket.old ≤ total }
    requires others { total ≤ present_in bucket.old + 2 ^ 28 }
    ensures { IfOk result (λ x. EntersAmong (total - present_in bucket.old) (entered_line line.now) bucket.old bucket.new x.0 x.1) }
{
    let mut census = PlainCensus::new(bucket.present(), total);
    match bucket.enter(alloc, &mut census, line.at, id_of(line), line.op) {
        Ok(answered) => Ok(answered),
        Err(BucketFail::JournalFull { .. }) => unreachable!(),
        Err(BucketFail::Memory) => Err(AllocError),
    }
}
