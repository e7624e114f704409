//! Journals with what is found in them.
ghost use Rattle.nb_base.specs.Params.{InRange};

use crate::rows::{at_bar, cut, line_of, lines_of, mac_of, nud_of, reply_of, ten};
use journal_check::{is_evaluable, is_lawful, reply_at, state_at};
use nb_base::{Line, Mac, Moment, Nud, Params, Reply};
use nb_journal::is_line_of_run;
use std::alloc::{AllocError, Global};
use std::test::Fail;

/// A journal that is lawful at the clock, and what is to be found in it.
#[derive(Clone, Copy)]
pub struct Worked {
    pub lines: &'static str,
    pub clock: u64,
    /// Changes that each leave it unlawful: the place from which lines are left out, how many, a bar, and the lines that are put there, with a bar between them.
    pub damaged: &'static str,
    /// Places, each with the reply to the line there.
    pub answers: &'static str,
    /// Numbers of lines, each with the state and the address of 10.0.0.1 behind so many of them, or `-` where its entry isn't present.
    pub known: &'static str,
}

fn place_of(word: &str) -> Option<usize> {
    let place: u32 = word.parse().ok()?;
    Some(place as usize)
}

/// A place, and how many lines are left out from it on.
fn numbers_of(text: &str) -> Option<(usize, usize)> {
    let (place, gone) = cut(text)?;
    Some((place_of(place)?, place_of(gone)?))
}

/// Appends the lines that stand between bars.
fn put_lines(lines: &mut Vec<Line>, put: &str) -> Result<(), Fail> {
    if put.is_empty() {
        return Ok(());
    }
    let (first, second) = at_bar(put).unwrap_or((put, ""));
    lines.push(line_of(first).ok_or("a line")?)?;
    if !second.is_empty() {
        lines.push(line_of(second).ok_or("a line")?)?;
    }
    Ok(())
}

/// The lines before the place, and those behind as many as are left out there.
fn around(lines: &[Line], place: usize, gone: usize) -> Option<(&[Line], &[Line])> {
    let before = lines.get(..place)?;
    let behind = lines.get(place.saturating_add(gone)..)?;
    Some((before, behind))
}

/// The lines with those between them that stand between bars.
fn joined(alloc: Global, before: &[Line], put: &str, behind: &[Line]) -> Result<Vec<Line>, Fail> {
    let mut lines = Vec::from_slice(alloc, before)?;
    put_lines(&mut lines, put)?;
    lines.extend_from_slice(behind)?;
    Ok(lines)
}

/// The lines with the change.
fn edited(alloc: Global, lines: &[Line], edit: &str) -> Result<Vec<Line>, Fail> {
    let (numbers, put) = at_bar(edit).ok_or("a change")?;
    let (place, gone) = numbers_of(numbers).ok_or("a place")?;
    let (before, behind) = around(lines, place, gone).ok_or("lines")?;
    joined(alloc, before, put, behind)
}

/// The first change that doesn't leave the lines unlawful.
fn first_harmless<'a>(
    alloc: Global,
    params: &Params,
    lines: &[Line],
    clock: u64,
    damaged: &'a str,
) -> Result<Option<&'a str>, Fail>
    requires { InRange params.now }
{
    for edit in damaged.lines() {
        let after = edited(alloc, lines, edit)?;
        if is_lawful(alloc, params, &after, Moment(clock))? != Some(false) {
            return Ok(Some(edit));
        }
    }
    Ok(None)
}

/// The reply to the line behind the others, where those can be evaluated.
fn answer_behind(
    alloc: Global,
    params: &Params,
    past: &[Line],
    line: &Line,
) -> Result<Option<Reply>, AllocError>
    requires { InRange params.now }
{
    if is_evaluable(alloc, params, past)? && is_line_of_run(line) {
        reply_at(alloc, params, past, line)
    } else {
        Ok(None)
    }
}

/// The reply to the line at the place, where the lines before it can be evaluated.
pub fn answer(
    alloc: Global,
    params: &Params,
    lines: &[Line],
    place: usize,
) -> Result<Option<Reply>, Fail>
    requires { InRange params.now }
{
    let past = lines.get(..place).ok_or("lines")?;
    let line = lines.get(place).ok_or("a line")?;
    Ok(answer_behind(alloc, params, past, line)?)
}

fn place_and_reply(row: &str) -> Option<(usize, Option<Reply>)> {
    let (place, reply) = cut(row)?;
    Some((place_of(place)?, reply_of(reply)?))
}

/// The first place at which another reply is given.
fn first_other_answer<'a>(
    alloc: Global,
    params: &Params,
    lines: &[Line],
    answers: &'a str,
) -> Result<Option<&'a str>, Fail>
    requires { InRange params.now }
{
    for row in answers.lines() {
        let (place, reply) = place_and_reply(row).ok_or("an answer")?;
        if answer(alloc, params, lines, place)? != reply {
            return Ok(Some(row));
        }
    }
    Ok(None)
}

/// The state and the address of 10.0.0.1 behind the lines, where its entry is present.
fn known_behind(
    alloc: Global,
    params: &Params,
    lines: &[Line],
) -> Result<Option<(Nud, Option<Mac>)>, Fail>
    requires { InRange params.now }
{
    if !is_evaluable(alloc, params, lines)? {
        return Err("lines of a run".into());
    }
    let kept = state_at(alloc, params, lines, &ten(1))?;
    if kept.entry.present {
        Ok(Some((kept.entry.nud, kept.entry.mac)))
    } else {
        Ok(None)
    }
}

fn known_of(text: &str) -> Option<Option<(Nud, Option<Mac>)>> {
    if text == "-" {
        return Some(None);
    }
    let (nud, mac) = cut(text)?;
    Some(Some((nud_of(nud)?, mac_of(mac)?)))
}

/// A number of lines, and what is known behind them.
fn count_and_known(row: &str) -> Option<(usize, Option<(Nud, Option<Mac>)>)> {
    let (count, known) = cut(row)?;
    Some((place_of(count)?, known_of(known)?))
}

/// The first row that says what isn't known.
fn first_other_state<'a>(
    alloc: Global,
    params: &Params,
    lines: &[Line],
    rows: &'a str,
) -> Result<Option<&'a str>, Fail>
    requires { InRange params.now }
{
    for row in rows.lines() {
        let (count, known) = count_and_known(row).ok_or("a state")?;
        let past = lines.get(..count).ok_or("lines")?;
        if known_behind(alloc, params, past)? != known {
            return Ok(Some(row));
        }
    }
    Ok(None)
}

/// The first thing of the lines that isn't found in them.
fn first_wrong_of(
    alloc: Global,
    params: &Params,
    lines: &[Line],
    worked: &Worked,
) -> Result<Option<&'static str>, Fail>
    requires { InRange params.now }
{
    let harmless = first_harmless(alloc, params, lines, worked.clock, worked.damaged)?;
    if harmless.is_some() {
        return Ok(harmless);
    }
    let other = first_other_answer(alloc, params, lines, worked.answers)?;
    if other.is_some() {
        return Ok(other);
    }
    first_other_state(alloc, params, lines, worked.known)
}

/// The first thing of the journal that isn't found in it.
pub fn first_wrong(
    alloc: Global,
    params: &Params,
    worked: &Worked,
) -> Result<Option<&'static str>, Fail>
    requires { InRange params.now }
{
    let lines = lines_of(alloc, worked.lines)?;
    if is_lawful(alloc, params, &lines, Moment(worked.clock))? != Some(true) {
        return Ok(Some("lawful"));
    }
    first_wrong_of(alloc, params, &lines, worked)
}

/// Whether the rows are lawful at the clock, where they can be lines of a run.
pub fn are_lawful(
    alloc: Global,
    params: &Params,
    rows: &str,
    clock: u64,
) -> Result<Option<bool>, Fail>
    requires { InRange params.now }
{
    let lines = lines_of(alloc, rows)?;
    Ok(is_lawful(alloc, params, &lines, Moment(clock))?)
}
