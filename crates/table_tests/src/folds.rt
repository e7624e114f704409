ghost use Rattle.std.specs.Prelude.{◌≡◌, ◌<◌, ◌^◌, length, true};
ghost use Rattle.nb_journal.specs.Steps.{IsAtDue, IsStep};

use crate::rows::{at_bar, cut, key_of, line_of, nud_of, reply_of, ten};
use journal_fold::{Fold, Shown, Touch};
use nb_base::{Key, Line, Nud, Op, OpId, Params, Reply};
use nb_journal::is_line_of_run;
use nud_machine::{Act, Acts, Cause};
use std::alloc::Global;
use std::test::Fail;

/// 800 bytes may wait: three packets of one byte.
const NARROW: Params = Params {
    unres_qlen_bytes: 800,
    ..Params::DEFAULT
};

/// Whether a timer's line stands at its key's due.
fn is_at_due(fold: &Fold, line: &Line) -> bool
    ensures { result ≡ true → IsAtDue fold.now.params fold.now.lines line.now.at line.now.op }
{
    match line.op {
        Op::Timer { key } => match fold.find(&key) {
            Some(kept) => kept.entry.due == Some(line.at),
            None => false,
        },
        _ => true,
    }
}

/// Whether the fold may take the line.
fn is_step(fold: &Fold, line: &Line) -> bool
    ensures { result ≡ true → IsStep fold.now.params fold.now.lines line.now }
{
    is_line_of_run(line) && is_at_due(fold, line)
}

/// Whether the fold may take the line, and has few.
fn is_next(fold: &Fold, line: &Line) -> bool
    ensures step { result ≡ true → IsStep fold.now.params fold.now.lines line.now }
    ensures few { result ≡ true → length fold.now.lines < 2 ^ 32 }
{
    fold.lines().len() < 100 && is_step(fold, line)
}

/// The reply to the line, which the fold takes; `None` where it may not.
fn taken(
    alloc: Global,
    fold: &mut Fold,
    line: &Line,
    acts: &mut Acts,
) -> Result<Option<Option<Reply>>, Fail> {
    if !is_next(fold, line) {
        return Ok(None);
    }
    fold.reserve(alloc, 1)?;
    Ok(Some(fold.append(line, acts)))
}

/// The reply to the line, which the fold takes, and its acts behind the others; `None` where it may not.
fn told(
    alloc: Global,
    fold: &mut Fold,
    line: &Line,
    room: &mut Acts,
    acts: &mut Vec<Act>,
) -> Result<Option<Option<Reply>>, Fail> {
    if !is_next(fold, line) {
        return Ok(None);
    }
    Ok(Some(fold.append_with_acts(alloc, line, room, acts)?))
}

/// The row's line and the reply to it.
fn line_and_reply(row: &str) -> Option<(Line, Option<Reply>)> {
    let (line, reply) = at_bar(row)?;
    Some((line_of(line)?, reply_of(reply)?))
}

fn fold(alloc: Global) -> Result<Fold, Fail> {
    Ok(Fold::new(alloc, &NARROW)?)
}

fn present(fold: &Fold) -> usize {
    fold.present()
}

fn has_keys(fold: &Fold, keys: &[Key]) -> bool {
    fold.keys() == keys
}

/// The key's state and how many packets wait for it.
fn known(fold: &Fold, key: Key) -> Option<(Nud, u32)> {
    fold.find(&key)
        .map(|kept| (kept.entry.nud, kept.waiting.len()))
}

/// The first row whose line isn't answered as it says.
fn first_other_reply<'a>(
    alloc: Global,
    fold: &mut Fold,
    rows: &'a str,
) -> Result<Option<&'a str>, Fail> {
    let mut acts = Acts::new(alloc)?;
    for row in rows.lines() {
        let (line, reply) = line_and_reply(row).ok_or("a row")?;
        if taken(alloc, fold, &line, &mut acts)? != Some(reply) {
            return Ok(Some(row));
        }
    }
    Ok(None)
}

const UNANSWERED: &str = "\
0 33 send 1 1 - -|waits 0
0 65 send 1 1 - -|waits 0
0 97 send 1 1 - -|waits 0
0 129 send 1 1 - -|waits 1
1000 - timer 1 - - -|-
2000 - timer 1 - - -|-
3000 - timer 1 - - -|-
4000 64 show - - - -|counted 1
";

/// Whether 10.0.0.1 is the one entry, and has failed.
fn has_failed_alone(fold: &Fold) -> bool {
    present(fold) == 1
        && has_keys(fold, &[ten(1)])
        && known(fold, ten(1)) == Some((Nud::Failed, 0))
        && known(fold, ten(2)).is_none()
}

#[test]
fn unanswered_probes(rt: HostRuntime) -> Result<(), Fail> {
    let mut fold = fold(rt.alloc())?;
    let wrong = first_other_reply(rt.alloc(), &mut fold, UNANSWERED)?;
    assert_eq!(rt; wrong, None);
    assert!(rt; has_failed_alone(&fold));
    Ok(())
}

/// The first row whose line isn't answered as it says. The acts of the lines go behind the others.
fn first_untold<'a>(
    alloc: Global,
    fold: &mut Fold,
    acts: &mut Vec<Act>,
    rows: &'a str,
) -> Result<Option<&'a str>, Fail> {
    let mut room = Acts::new(alloc)?;
    for row in rows.lines() {
        let (line, reply) = line_and_reply(row).ok_or("a row")?;
        if told(alloc, fold, &line, &mut room, acts)? != Some(reply) {
            return Ok(Some(row));
        }
    }
    Ok(None)
}

const FLUSHED: &str = "\
0 33 send 7 1 - -|waits 0
0 65 send 5 1 - -|waits 0
10 32 flush - - - -|counted 2
10 64 show - - - -|counted 0
";

const ACTS: [Act; 6] = [
    Act::SolicitGroup,
    Act::Wait(OpId(33)),
    Act::SolicitGroup,
    Act::Wait(OpId(65)),
    Act::Drop(OpId(33), Cause::Removed),
    Act::Drop(OpId(65), Cause::Removed),
];

#[test]
fn flush_goes_by_rank(rt: HostRuntime) -> Result<(), Fail> {
    let alloc = rt.alloc();
    let mut fold = fold(alloc)?;
    let mut acts = Vec::new(alloc);
    let wrong = first_untold(alloc, &mut fold, &mut acts, FLUSHED)?;
    assert_eq!(rt; (wrong, present(&fold)), (None, 0));
    assert_eq!(rt; acts.as_slice(), ACTS.as_slice());
    assert!(rt; has_keys(&fold, &[ten(7), ten(5)]));
    Ok(())
}

/// The keys of which the line changes what is shown, the first three; `None` where the fold may not take it.
fn touched(
    alloc: Global,
    fold: &mut Fold,
    line: &Line,
) -> Result<Option<[Option<Touch>; 3]>, Fail> {
    if !is_next(fold, line) {
        return Ok(None);
    }
    let touched = fold.take(alloc, line)?;
    Ok(Some([
        touched.get(0).copied(),
        touched.get(1).copied(),
        touched.get(2).copied(),
    ]))
}

/// A key without an address in a state, or without an entry; none for `-`.
fn touch_of(text: &str) -> Option<Option<Touch>> {
    if text == "-" {
        return Some(None);
    }
    let (key, word) = cut(text)?;
    let key = key_of(key)?;
    if word == "gone" {
        return Some(Some(Touch { key, shown: None }));
    }
    let shown = Some(Shown {
        mac: None,
        nud: nud_of(word)?,
        router: false,
    });
    Some(Some(Touch { key, shown }))
}

/// The keys that the text says.
fn keys_touched(text: &str) -> Option<[Option<Touch>; 3]> {
    let (first, second) = at_bar(text)?;
    Some([touch_of(first)?, touch_of(second)?, None])
}

/// Whether the row's line touches its keys.
fn touches_so(alloc: Global, fold: &mut Fold, row: &str) -> Result<bool, Fail> {
    let (line, text) = at_bar(row).ok_or("a row")?;
    let line = line_of(line).ok_or("a line")?;
    let keys = keys_touched(text).ok_or("keys")?;
    Ok(touched(alloc, fold, &line)? == Some(keys))
}

/// The first row whose line touches other keys.
fn first_other_touch<'a>(
    alloc: Global,
    fold: &mut Fold,
    rows: &'a str,
) -> Result<Option<&'a str>, Fail> {
    for row in rows.lines() {
        if !touches_so(alloc, fold, row)? {
            return Ok(Some(row));
        }
    }
    Ok(None)
}

const TOUCHING: &str = "\
0 33 send 7 1 - -|7 incomplete|-
0 65 send 5 1 - -|5 incomplete|-
0 97 send 7 1 - -|-|-
1000 - timer 7 - - -|-|-
1000 - timer 5 - - -|-|-
2000 - timer 7 - - -|-|-
2000 - timer 5 - - -|-|-
3000 - timer 7 - - -|7 failed|-
3000 - timer 5 - - -|5 failed|-
4000 129 send 5 1 - -|5 incomplete|-
4000 32 show - - - -|-|-
4000 64 flush - - - -|7 gone|5 gone
4000 96 del 7 - - -|-|-
";

#[test]
fn lines_touch_what_they_change(rt: HostRuntime) -> Result<(), Fail> {
    let mut fold = fold(rt.alloc())?;
    let wrong = first_other_touch(rt.alloc(), &mut fold, TOUCHING)?;
    assert_eq!(rt; wrong, None);
    assert_eq!(rt; present(&fold), 0);
    Ok(())
}
