ghost use Rattle.std.specs.Prelude.{◌≡◌, ◌+◌, ◌≤◌, ◌^◌, true};
ghost use Rattle.nb_base.specs.Params.{InRange};
ghost use Rattle.nud_machine.specs.Asked.{greatest};
ghost use Rattle.nb_journal.specs.Keys.{may_be_asked};
ghost use Rattle.nb_journal.specs.Keys as keys_of;

use crate::rows::{at_bar, cut, line_of, lines_of, reply_of, ten};
use nb_base::{Host, Line, Mac, Moment, Name, Nud, Params, Reply};
use nb_bucket::{Bucket, BucketFail};
use nb_census::PlainCensus;
use nb_journal::{is_line_of_run, is_own};
use std::alloc::Global;
use std::test::Fail;

fn host() -> Option<Host> {
    Some(Host {
        dev: Name::read(b"eth0")?,
        mac: Mac([2, 0, 0, 0, 0, 2]),
        ip4: Some(0x0a00_00fe),
        ip6: None,
    })
}

/// A bucket whose journal may have up to so many lines.
fn bucket(alloc: Global, params: &Params, limit: u32) -> Result<Bucket, Fail>
    requires params { InRange params.now }
    requires limit { limit ≤ 100 }
{
    let host = host().ok_or("a host")?;
    Ok(Bucket::new(alloc, params, &host, limit)?)
}

/// Whether the line is one of an operation that may be entered.
fn may_enter(line: &Line) -> bool
    ensures now { result ≡ true → line.now.at ≤ greatest }
    ensures asked { result ≡ true → may_be_asked line.now.op ≡ true }
    ensures own { result ≡ true → keys_of.is_own line.now.op ≡ true }
{
    is_own(&line.op) && is_line_of_run(line)
}

/// What the bucket answers to the line's operation where the other buckets have so many entries; `None` where it may not be entered.
fn entered(
    alloc: Global,
    bucket: &mut Bucket,
    others: u32,
    line: &Line,
) -> Option<Result<(u32, Reply), BucketFail>>
    requires { others ≤ 2 ^ 28 }
{
    let id = line.id?;
    let share = bucket.present();
    let mut census = PlainCensus::new(share, share + others);
    if may_enter(line) {
        Some(bucket.enter(alloc, &mut census, line.at, id, line.op))
    } else {
        None
    }
}

/// What the bucket answers where it goes on, and the other buckets have no entry; `None` where it may not go on.
fn advanced(alloc: Global, bucket: &mut Bucket, to: u64) -> Option<Result<(), BucketFail>> {
    if to > Moment::GREATEST {
        return None;
    }
    let share = bucket.present();
    let mut census = PlainCensus::new(share, share);
    Some(bucket.advance(alloc, &mut census, Moment(to)))
}

fn present(bucket: &Bucket) -> u32 {
    bucket.present()
}

fn clock(bucket: &Bucket) -> Moment {
    bucket.clock()
}

fn has_lines(bucket: &Bucket, lines: &[Line]) -> bool {
    bucket.lines() == lines
}

fn nud_in(bucket: &Bucket, n: u8) -> Option<Nud> {
    Some(bucket.entry(&ten(n))?.nud)
}

/// Whether the bucket has exactly the rows' lines.
fn has_rows(alloc: Global, bucket: &Bucket, rows: &str) -> Result<bool, Fail> {
    let lines = lines_of(alloc, rows)?;
    Ok(has_lines(bucket, &lines))
}

/// The refusal that the text says: how many lines there are, and how many are needed.
fn refusal_of(text: &str) -> Option<BucketFail> {
    let (has, needs) = cut(text)?;
    Some(BucketFail::JournalFull {
        has: has.parse().ok()?,
        needs: needs.parse().ok()?,
    })
}

fn place_and_reply(text: &str) -> Option<(u32, Reply)> {
    let (place, reply) = cut(text)?;
    Some((place.parse().ok()?, reply_of(reply)??))
}

/// Whether the text says this answer: a place and a reply, or a refusal behind `refused`.
fn says(text: &str, answer: Result<(u32, Reply), BucketFail>) -> bool {
    match answer {
        Ok(given) => place_and_reply(text) == Some(given),
        Err(why) => match text.strip_prefix("refused ") {
            Some(refusal) => refusal_of(refusal) == Some(why),
            None => false,
        },
    }
}

/// Whether the bucket answers the row's line as it says, where the other buckets have so many entries.
fn answers_so(alloc: Global, bucket: &mut Bucket, others: u32, row: &str) -> Result<bool, Fail>
    requires { others ≤ 2 ^ 28 }
{
    let (line, text) = at_bar(row).ok_or("a row")?;
    let line = line_of(line).ok_or("a line")?;
    match entered(alloc, bucket, others, &line) {
        Some(answer) => Ok(says(text, answer)),
        None => Ok(false),
    }
}

/// The first row whose line isn't answered as it says.
fn first_other_answer<'a>(
    alloc: Global,
    bucket: &mut Bucket,
    rows: &'a str,
) -> Result<Option<&'a str>, Fail> {
    for row in rows.lines() {
        if !answers_so(alloc, bucket, 0, row)? {
            return Ok(Some(row));
        }
    }
    Ok(None)
}

/// What a bucket is asked, and what it has then.
#[derive(Clone, Copy)]
struct Worked {
    /// Lines, each with a bar and the answer to it.
    asked: &'static str,
    /// How far the bucket goes on afterwards.
    to: Option<u64>,
    lines: &'static str,
    present: u32,
    clock: u64,
    /// The state of 10.0.0.13.
    thirteenth: Option<Nud>,
}

/// Whether the bucket goes on to the moment, where there is one.
fn goes_on(alloc: Global, bucket: &mut Bucket, to: Option<u64>) -> bool {
    match to {
        None => true,
        Some(to) => advanced(alloc, bucket, to) == Some(Ok(())),
    }
}

/// Whether the bucket has what it is to have.
fn has_all(alloc: Global, bucket: &Bucket, worked: &Worked) -> Result<bool, Fail> {
    let numbers = present(bucket) == worked.present && clock(bucket) == Moment(worked.clock);
    let state = nud_in(bucket, 13) == worked.thirteenth;
    Ok(has_rows(alloc, bucket, worked.lines)? && numbers && state)
}

/// The first thing that isn't as it is to be.
fn first_wrong_of(
    alloc: Global,
    bucket: &mut Bucket,
    worked: &Worked,
) -> Result<Option<&'static str>, Fail> {
    let other = first_other_answer(alloc, bucket, worked.asked)?;
    if other.is_some() {
        return Ok(other);
    }
    if !goes_on(alloc, bucket, worked.to) {
        return Ok(Some("goes on"));
    }
    if !has_all(alloc, bucket, worked)? {
        return Ok(Some("has all"));
    }
    Ok(None)
}

/// The first thing that isn't as it is to be, of a bucket whose journal may have up to so many lines.
fn first_wrong(
    alloc: Global,
    params: &Params,
    limit: u32,
    worked: &Worked,
) -> Result<Option<&'static str>, Fail>
    requires params { InRange params.now }
    requires limit { limit ≤ 100 }
{
    let mut bucket = bucket(alloc, params, limit)?;
    first_wrong_of(alloc, &mut bucket, worked)
}

const FULL_JOURNAL: Worked = Worked {
    asked: "\
0 33 send 1 1 - -|0 waits 0
5 65 send 1 1 - -|1 waits 0
5 97 show - - - -|refused 2 1
900 97 show - - - -|refused 2 1
5 97 send 2 1 - -|refused 2 1
7000 97 show - - - -|refused 2 1
",
    to: None,
    lines: "\
0 33 send 1 1 0 -
5 65 send 1 1 - -
",
    present: 1,
    clock: 5,
    thirteenth: None,
};

#[test]
fn a_full_journal(rt: HostRuntime) -> Result<(), Fail> {
    let wrong = first_wrong(rt.alloc(), &Params::DEFAULT, 2, &FULL_JOURNAL)?;
    assert_eq!(rt; wrong, None);
    Ok(())
}

/// A table that is full with three entries.
const SMALL: Params = Params {
    gc_thresh1: 1,
    gc_thresh2: 2,
    gc_thresh3: 3,
    ..Params::DEFAULT
};

const FORCED_PASS: Worked = Worked {
    asked: "\
0 33 send 11 1 - -|0 waits 0
0 65 send 12 1 - -|1 waits 0
0 97 send 13 1 - -|2 waits 0
0 129 send 14 1 - -|3 full 3
5001 161 send 14 1 - -|15 waits 0
5001 32 show - - - -|16 counted 2
",
    to: Some(6001),
    lines: "\
0 33 send 11 1 0 -
0 65 send 12 1 1 -
0 97 send 13 1 2 -
0 129 send 14 1 3 3
1000 - timer 11 - - -
1000 - timer 12 - - -
1000 - timer 13 - - -
2000 - timer 11 - - -
2000 - timer 12 - - -
2000 - timer 13 - - -
3000 - timer 11 - - -
3000 - timer 12 - - -
3000 - timer 13 - - -
5001 - collect 11 - - -
5001 - collect 12 - - -
5001 161 send 14 1 3 -
5001 32 show - - - -
6001 - timer 14 - - -
",
    present: 2,
    clock: 6001,
    thirteenth: Some(Nud::Failed),
};

#[test]
fn a_forced_pass(rt: HostRuntime) -> Result<(), Fail> {
    let wrong = first_wrong(rt.alloc(), &SMALL, 18, &FORCED_PASS)?;
    assert_eq!(rt; wrong, None);
    Ok(())
}

/// Whether the bucket answers the row's line as it says, where the other one has entries too.
fn answers_beside(
    alloc: Global,
    bucket: &mut Bucket,
    other: &Bucket,
    row: &str,
) -> Result<bool, Fail> {
    answers_so(alloc, bucket, other.present(), row)
}

/// Whether the row's bucket, the odd one where it begins with `odd`, answers its line as it says.
fn one_answers_so(
    alloc: Global,
    even: &mut Bucket,
    odd: &mut Bucket,
    row: &str,
) -> Result<bool, Fail> {
    let (which, rest) = cut(row).ok_or("a bucket")?;
    if which == "odd" {
        answers_beside(alloc, odd, even, rest)
    } else {
        answers_beside(alloc, even, odd, rest)
    }
}

/// The first row whose line isn't answered as it says.
fn first_other_of_two<'a>(
    alloc: Global,
    even: &mut Bucket,
    odd: &mut Bucket,
    rows: &'a str,
) -> Result<Option<&'a str>, Fail> {
    for row in rows.lines() {
        if !one_answers_so(alloc, even, odd, row)? {
            return Ok(Some(row));
        }
    }
    Ok(None)
}

/// At the lines of each bucket the other's entries count too.
const BOTH: &str = "\
odd 0 33 send 11 1 - -|0 waits 0
even 0 65 send 12 1 - -|0 waits 0
odd 0 97 send 13 1 - -|1 waits 0
even 0 129 send 14 1 - -|1 full 3
";

const EVEN_LINES: &str = "\
0 65 send 12 1 1 -
0 129 send 14 1 3 3
";

const ODD_LINES: &str = "\
0 33 send 11 1 0 -
0 97 send 13 1 2 -
";

/// What isn't as it is to be of the two.
fn first_wrong_of_two(
    alloc: Global,
    even: &mut Bucket,
    odd: &mut Bucket,
) -> Result<Option<&'static str>, Fail> {
    let other = first_other_of_two(alloc, even, odd, BOTH)?;
    if other.is_some() {
        return Ok(other);
    }
    if !has_rows(alloc, even, EVEN_LINES)? {
        return Ok(Some("even lines"));
    }
    if !has_rows(alloc, odd, ODD_LINES)? {
        return Ok(Some("odd lines"));
    }
    Ok(None)
}

fn small_bucket(alloc: Global) -> Result<Bucket, Fail> {
    bucket(alloc, &SMALL, 8)
}

/// What isn't as it is to be of the bucket and another one.
fn wrong_beside(alloc: Global, even: &mut Bucket) -> Result<Option<&'static str>, Fail> {
    let mut odd = small_bucket(alloc)?;
    first_wrong_of_two(alloc, even, &mut odd)
}

fn wrong_of_two(alloc: Global) -> Result<Option<&'static str>, Fail> {
    let mut even = small_bucket(alloc)?;
    wrong_beside(alloc, &mut even)
}

#[test]
fn thresholds_count_both_buckets(rt: HostRuntime) -> Result<(), Fail> {
    assert_eq!(rt; wrong_of_two(rt.alloc())?, None);
    Ok(())
}
