//! Making lines, what they saw, the forced passes before them, and `full`.
ghost use Rattle.std.specs.Prelude.{◌≡◌, ◌<◌, ◌≤◌, ◌∷◌, ◌++◌, [], take, drop, if◌then◌else◌, is_some, filter, IfOk, ◌^◌, length, IsTrue};
ghost use Rattle.std.specs.Option.{option_to_list};
ghost use Rattle.nb_base.specs.Params.{InRange};
ghost use Rattle.nud_machine.specs.Asked.{greatest};
ghost use Rattle.nb_journal.specs.Fold as fold;
ghost use Rattle.nb_journal.specs.Keys.{may_be_asked};
ghost use Rattle.nb_journal.specs.Lawful as lawful;
ghost use Rattle.nb_journal.specs.Lawful.{EachLine};
ghost use Rattle.nb_journal.specs.Steps.{IsStep, effect_named};
ghost use Rattle.journal_check.specs.Evaluated as test;

use crate::states::{is_present, present_count, state_behind};
use crate::sweeping::is_bare;
use nb_base::{Key, Line, Moment, Op, Params};
use nb_journal::{
    Effect, effect_of, is_collect, is_collectable, is_key, is_own, is_pass_due, key_of,
};
use std::alloc::{AllocError, Global};

/// The lines without the collect lines at their end.
pub fn base_of(lines: &[Line]) -> &[Line]
    ensures value { result.now ≡ lawful.base_of lines.now }
    ensures within { length result.now ≤ length lines.now }
{
    let mut len = lines.len();
    while len > 0 && is_collect(&lines[len - 1].op) {
        len -= 1;
    }
    &lines[..len]
}

fn brings_event(effect: &Effect) -> bool
    ensures { result ≡ lawful.brings_event (effect_named effect.now) }
{
    matches!(effect, Effect::Brings(_))
}

/// Whether an own line would make an entry for the key behind the base.
fn makes(
    alloc: Global,
    params: &Params,
    base: &[Line],
    line: &Line,
    key: &Key,
) -> Result<bool, AllocError>
    requires params { InRange params.now }
    requires steps { EachLine (IsStep params.now) base.now }
    requires asked { IsTrue (may_be_asked line.now.op) }
    ensures { IfOk result (λ makes. makes ≡ test.makes params.now base.now line.now key.now) }
{
    let kept = state_behind(alloc, params, base, key)?;
    Ok(is_own(&line.op) && !kept.entry.present && brings_event(&effect_of(params, line, &kept)))
}

/// The key for which an own line would make an entry behind the base.
pub fn making(
    alloc: Global,
    params: &Params,
    base: &[Line],
    line: &Line,
) -> Result<Option<Key>, AllocError>
    requires params { InRange params.now }
    requires steps { EachLine (IsStep params.now) base.now }
    requires asked { IsTrue (may_be_asked line.now.op) }
    ensures { IfOk result (λ made. made ≡ lawful.making params.now base.now line.now) }
{
    match key_of(&line.op) {
        None => Ok(None),
        Some(key) => {
            if makes(alloc, params, base, line, &key)? {
                Ok(Some(key))
            } else {
                Ok(None)
            }
        }
    }
}

/// What a line saw, or 0 where it looked at nothing.
fn seen_of(line: &Line) -> u32
    ensures { result ≡ fold.seen_of line.now }
{
    line.seen.unwrap_or(0)
}

/// The moment of the last forced pass behind one line more.
fn pass_after(
    alloc: Global,
    params: &Params,
    last: Moment,
    past: &[Line],
    line: &Line,
) -> Result<Moment, AllocError>
    requires params { InRange params.now }
    requires last { last ≤ greatest }
    requires steps { EachLine (IsStep params.now) past.now }
    requires asked { IsTrue (may_be_asked line.now.op) }
    ensures { IfOk result (λ after. after ≡ lawful.pass_after params.now last past.now line.now) }
{
    let is_making = making(alloc, params, base_of(past), line)?.is_some();
    if is_making && is_pass_due(params, seen_of(line), last, line.at) {
        Ok(line.at)
    } else {
        Ok(last)
    }
}

/// Those of the keys whose entries are present behind the lines.
fn present_of(
    alloc: Global,
    params: &Params,
    lines: &[Line],
    keys: &[Key],
) -> Result<Vec<Key>, AllocError>
    requires params { InRange params.now }
    requires steps { EachLine (IsStep params.now) lines.now }
    ensures { IfOk result (λ present. present.items ≡ filter (fold.is_present params.now lines.now) keys.now) }
{
    let mut present = Vec::new(alloc);
    for key in keys {
        if is_present(alloc, params, lines, key)? {
            present.push(*key)?;
        }
    }
    Ok(present)
}

/// The key that a line makes, unless it found the table full.
fn made_last(
    alloc: Global,
    params: &Params,
    past: &[Line],
    line: &Line,
) -> Result<Option<Key>, AllocError>
    requires params { InRange params.now }
    requires steps { EachLine (IsStep params.now) past.now }
    requires asked { IsTrue (may_be_asked line.now.op) }
    ensures { IfOk result (λ made. option_to_list made ≡ (if is_some line.now.full then [] else option_to_list (lawful.making params.now (lawful.base_of past.now) line.now))) }
{
    if line.full.is_some() {
        return Ok(None);
    }
    making(alloc, params, base_of(past), line)
}

fn collects_key(key: &Key, op: &Op) -> bool
    ensures { result ≡ test.collects_key key.now op.now }
{
    match *op {
        Op::Collect { key: named } => is_key(&named, key),
        _ => false,
    }
}

/// Whether it is the line of a collect of the key, at the moment.
fn is_collect_of(at: Moment, key: &Key, line: &Line) -> bool
    ensures { result ≡ test.is_collect_of at key.now line.now }
{
    line.at == at && is_bare(line) && line.seen.is_none() && collects_key(key, &line.op)
}

/// The moment of the last forced pass, or 0.
fn last_pass(alloc: Global, params: &Params, lines: &[Line]) -> Result<Moment, AllocError>
    requires params { InRange params.now }
    requires steps { EachLine (IsStep params.now) lines.now }
    ensures value { IfOk result (λ last. last ≡ lawful.last_pass params.now lines.now) }
    ensures within { IfOk result (λ last. last ≤ greatest) }
{
    let mut last = Moment(0);
    for place in 0..lines.len() {
        last = pass_after(alloc, params, last, &lines[..place], &lines[place])?;
    }
    Ok(last)
}

/// The keys in the order of making behind one line more.
fn order_after(
    alloc: Global,
    params: &Params,
    keys: &[Key],
    past: &[Line],
    all: &[Line],
    line: &Line,
) -> Result<Vec<Key>, AllocError>
    requires params { InRange params.now }
    requires steps { EachLine (IsStep params.now) past.now }
    requires steps_all { EachLine (IsStep params.now) all.now }
    requires one_more { all.now ≡ past.now ++ line.now ∷ [] }
    requires asked { IsTrue (may_be_asked line.now.op) }
    ensures { IfOk result (λ order. order.items ≡ lawful.order_after params.now keys.now past.now line.now) }
{
    let mut order = present_of(alloc, params, all, keys)?;
    if let Some(made) = made_last(alloc, params, past, line)? {
        order.push(made)?;
    }
    Ok(order)
}

/// The present keys in the order in which they were last made.
fn making_order(alloc: Global, params: &Params, lines: &[Line]) -> Result<Vec<Key>, AllocError>
    requires params { InRange params.now }
    requires steps { EachLine (IsStep params.now) lines.now }
    ensures { IfOk result (λ order. order.items ≡ lawful.making_order params.now lines.now) }
{
    let mut order = Vec::new(alloc);
    for place in 0..lines.len() {
        order = order_after(
            alloc,
            params,
            &order,
            &lines[..place],
            &lines[..place + 1],
            &lines[place],
        )?;
    }
    Ok(order)
}

/// Whether a forced pass may take the key's entry.
fn may_take(
    alloc: Global,
    params: &Params,
    base: &[Line],
    key: &Key,
    at: Moment,
) -> Result<bool, AllocError>
    requires params { InRange params.now }
    requires steps { EachLine (IsStep params.now) base.now }
    ensures { IfOk result (λ may. may ≡ lawful.is_collectable at (fold.state_of params.now base.now key.now)) }
{
    let kept = state_behind(alloc, params, base, key)?;
    Ok(is_collectable(at, &kept))
}

/// Those of the keys that a pass takes, where so many entries were seen.
fn taken_of(
    alloc: Global,
    params: &Params,
    base: &[Line],
    keys: &[Key],
    seen: u32,
    at: Moment,
) -> Result<Vec<Key>, AllocError>
    requires params { InRange params.now }
    requires steps { EachLine (IsStep params.now) base.now }
    ensures { IfOk result (λ taken. taken.items ≡ lawful.collected params.now.gc_thresh2 seen (λ key. lawful.is_collectable at (fold.state_of params.now base.now key)) keys.now) }
{
    let mut taken = Vec::new(alloc);
    let mut left = seen;
    for key in keys {
        if left < params.gc_thresh2 {
            return Ok(taken);
        }
        if may_take(alloc, params, base, key, at)? {
            taken.push(*key)?;
            left -= 1;
        }
    }
    Ok(taken)
}

/// Whether the forced pass before a line is due.
fn has_pass(alloc: Global, params: &Params, base: &[Line], line: &Line) -> Result<bool, AllocError>
    requires params { InRange params.now }
    requires steps { EachLine (IsStep params.now) base.now }
    requires asked { IsTrue (may_be_asked line.now.op) }
    ensures { IfOk result (λ has. has ≡ lawful.has_pass params.now base.now line.now) }
{
    if making(alloc, params, base, line)?.is_none() {
        return Ok(false);
    }
    let last = last_pass(alloc, params, base)?;
    Ok(is_pass_due(params, seen_of(line), last, line.at))
}

/// The keys whose collect lines a line asks for.
fn asked_of_pass(
    alloc: Global,
    params: &Params,
    base: &[Line],
    line: &Line,
) -> Result<Vec<Key>, AllocError>
    requires params { InRange params.now }
    requires steps { EachLine (IsStep params.now) base.now }
    requires asked { IsTrue (may_be_asked line.now.op) }
    ensures { IfOk result (λ asked. asked.items ≡ lawful.asked_of_pass params.now base.now line.now) }
{
    if !has_pass(alloc, params, base, line)? {
        return Ok(Vec::new(alloc));
    }
    let order = making_order(alloc, params, base)?;
    taken_of(alloc, params, base, &order, seen_of(line), line.at)
}

/// Whether the lines are the collects of the keys.
fn are_collects(at: Moment, lines: &[Line], keys: &[Key]) -> bool
    ensures { result ≡ test.are_collects at lines.now keys.now }
{
    if lines.len() != keys.len() {
        return false;
    }
    for (place, line) in lines.iter().enumerate() {
        if !is_collect_of(at, &keys[place], line) {
            return false;
        }
    }
    true
}

/// Whether exactly its collect lines stand before an own line, and none before a timer and a sweep.
pub fn pass_fits(
    alloc: Global,
    params: &Params,
    past: &[Line],
    line: &Line,
) -> Result<bool, AllocError>
    requires params { InRange params.now }
    requires steps { EachLine (IsStep params.now) past.now }
    requires asked { IsTrue (may_be_asked line.now.op) }
    ensures { IfOk result (λ fits. fits ≡ test.pass_test params.now past.now line.now line.now.op) }
{
    let base = base_of(past);
    match line.op {
        Op::Timer { .. } | Op::Sweep => Ok(base.len() == past.len()),
        Op::Collect { .. } => Ok(true),
        _ => {
            let keys = asked_of_pass(alloc, params, base, line)?;
            Ok(are_collects(line.at, &past[base.len()..], &keys))
        }
    }
}

/// What a line saw, less its collect lines.
fn left_of_seen(past: &[Line], line: &Line) -> usize
    ensures { result ≡ lawful.left_of_seen past.now line.now }
{
    let collects = past.len() - base_of(past).len();
    (seen_of(line) as usize).saturating_sub(collects)
}

/// That number, where it is in the way of a making line.
fn full_of(
    alloc: Global,
    params: &Params,
    past: &[Line],
    line: &Line,
) -> Result<Option<usize>, AllocError>
    requires params { InRange params.now }
    requires steps { EachLine (IsStep params.now) past.now }
    requires asked { IsTrue (may_be_asked line.now.op) }
    ensures { IfOk result (λ full. full ≡ lawful.full_of params.now past.now line.now) }
{
    let is_making = making(alloc, params, base_of(past), line)?.is_some();
    let left = left_of_seen(past, line);
    if is_making && params.gc_thresh3 as usize <= left {
        Ok(Some(left))
    } else {
        Ok(None)
    }
}

fn same_number(a: Option<u32>, b: Option<usize>) -> bool
    ensures { result ≡ test.same_number a b }
{
    match (a, b) {
        (None, None) => true,
        (Some(a), Some(b)) => a as usize == b,
        _ => false,
    }
}

/// Whether `full` is there exactly on a making line that saw too many entries, with their number.
pub fn full_fits(
    alloc: Global,
    params: &Params,
    past: &[Line],
    line: &Line,
) -> Result<bool, AllocError>
    requires params { InRange params.now }
    requires steps { EachLine (IsStep params.now) past.now }
    requires asked { IsTrue (may_be_asked line.now.op) }
    ensures { IfOk result (λ fits. fits ≡ test.same_number line.now.full (lawful.full_of params.now past.now line.now)) }
{
    let full = full_of(alloc, params, past, line)?;
    Ok(same_number(line.full, full))
}

/// Whether a line looks at the whole table: a sweep's, or one that is to make an entry.
fn looks(alloc: Global, params: &Params, base: &[Line], line: &Line) -> Result<bool, AllocError>
    requires params { InRange params.now }
    requires steps { EachLine (IsStep params.now) base.now }
    requires asked { IsTrue (may_be_asked line.now.op) }
    ensures { IfOk result (λ looks. looks ≡ lawful.looks params.now base.now line.now) }
{
    let makes = making(alloc, params, base, line)?.is_some();
    Ok(matches!(line.op, Op::Sweep) || makes)
}

fn is_enough(present: usize, seen: Option<u32>) -> bool
    ensures { result ≡ test.is_enough present seen }
{
    match seen {
        None => true,
        Some(seen) => present <= seen as usize,
    }
}

fn same_answer(a: bool, b: bool) -> bool
    ensures { result ≡ test.same_answer a b }
{
    if a { b } else { !b }
}

/// Whether exactly a line that looks at the table has what it saw, at least the number present before it and its collect lines.
pub fn seen_fits(
    alloc: Global,
    params: &Params,
    past: &[Line],
    line: &Line,
) -> Result<bool, AllocError>
    requires params { InRange params.now }
    requires steps { EachLine (IsStep params.now) past.now }
    requires asked { IsTrue (may_be_asked line.now.op) }
    ensures { IfOk result (λ fits. fits ≡ test.seen_test params.now past.now line.now) }
{
    let base = base_of(past);
    let looks = looks(alloc, params, base, line)?;
    let present = present_count(alloc, params, base)?;
    Ok(same_answer(line.seen.is_some(), looks) && is_enough(present, line.seen))
}
