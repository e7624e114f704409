//! The lines of a script.
ghost use Rattle.std.specs.Prelude.{◌≡◌, ◌+◌, ◌≤◌, ◌<◌, ◌∷◌, IfOk, IsSomeAnd, length, max};
ghost use Rattle.neigh_script.specs.Context.{at_of, shows_in};
ghost use Rattle.neigh_script.specs.Limits.{IsHeadBehind, IsItemBehind, IsLineBehind, IsSaidWithin};
ghost use Rattle.std.specs.Str.Lines.{strip_carriage_return};
ghost use Rattle.std.specs.Str.{is_utf8};
ghost use Rattle.text_codes.specs.Lines.{lines_of, words_of};
ghost use Rattle.neigh_script.specs.Lines as lines;
ghost use Rattle.neigh_script.specs.Why.{LineAnswers, Answers};

use crate::context::Context;
use crate::fields::read_moment;
use crate::forms::{read_host, read_param, read_senders};
use crate::items::{read_confirm, read_neigh, read_send};
use crate::script::ScriptItem;
use crate::why::{LineFail, ScriptFail, ScriptWhy};
use crate::words::{Words, is_word};
use nb_base::{Host, Moment, cut};
use std::alloc::Global;
use std::str;

/// The most lines of a script.
const MOST_LINES: u32 = 131_072;

/// `host` and its words, once and above all items.
#[tactic(auto, unfolding(crate::specs::Lines::host_line))]
fn read_host_line(context: Context, words: &mut Words) -> Result<Context, ScriptWhy>
    ensures value { result ≡ lines.host_line context words.old }
    ensures kept { IfOk result (IsHeadBehind context) }
{
    if context.last.is_some() || context.host.is_some() {
        return Err(ScriptWhy::LateParam);
    }
    let host = read_host(words)?;
    Ok(Context {
        host: Some(host),
        ..context
    })
}

/// `senders` and its words, above all items.
#[tactic(auto, unfolding(crate::specs::Lines::senders_line))]
fn read_senders_line(context: Context, words: &mut Words) -> Result<Context, ScriptWhy>
    ensures value { result ≡ lines.senders_line context words.old }
    ensures kept { IfOk result (IsHeadBehind context) }
{
    if context.last.is_some() {
        return Err(ScriptWhy::LateParam);
    }
    let senders = read_senders(words)?;
    Ok(Context { senders, ..context })
}

/// `param` and its words, above all items.
#[tactic(auto, unfolding(crate::specs::Lines::param_line))]
fn read_param_line(context: Context, words: &mut Words) -> Result<Context, ScriptWhy>
    ensures value { result ≡ lines.param_line context words.old }
    ensures kept { IfOk result (IsHeadBehind context) }
{
    if context.last.is_some() {
        return Err(ScriptWhy::LateParam);
    }
    let params = read_param(context.params, words)?;
    Ok(Context { params, ..context })
}

/// A line of the script's head.
#[tactic(auto, unfolding(crate::specs::Lines::head_line))]
fn read_head(context: Context, first: &[u8], words: &mut Words) -> Result<Context, ScriptWhy>
    ensures value { result ≡ lines.head_line context first.now words.old }
    ensures kept { IfOk result (IsHeadBehind context) }
{
    if is_word(first, b"host") {
        read_host_line(context, words)
    } else if is_word(first, b"senders") {
        read_senders_line(context, words)
    } else if is_word(first, b"param") {
        read_param_line(context, words)
    } else {
        Err(ScriptWhy::UnknownWord)
    }
}

/// An item behind its moment.
#[tactic(auto, unfolding(crate::specs::Lines::item_form))]
fn read_item(
    alloc: Global,
    context: &Context,
    host: &Host,
    at: Moment,
    words: &mut Words,
) -> Result<ScriptItem, LineFail>
    ensures value { LineAnswers result (lines.item_form context.now host.now at words.old) }
    ensures few { IfOk result (λ item. context.now.shows + shows_in item ≤ max context.now.shows 32) }
    ensures within { IfOk result (λ item. (at_of item ≡ at) × IsSaidWithin host.now context.now.senders item) }
{
    let kind = words.field()?;
    if is_word(kind, b"neigh") {
        let item = read_neigh(context.shows, host, at, words)?;
        Ok(item)
    } else if is_word(kind, b"confirm") {
        let item = read_confirm(host, at, words)?;
        Ok(item)
    } else if is_word(kind, b"send") {
        read_send(alloc, context.senders, host, at, words)
    } else {
        Err(LineFail::Refused(ScriptWhy::UnknownWord))
    }
}

/// An item's line.
#[tactic(auto, unfolding(crate::specs::Lines::item_line))]
fn read_item_line(
    alloc: Global,
    context: &Context,
    first: &[u8],
    words: &mut Words,
) -> Result<ScriptItem, LineFail>
    ensures value { LineAnswers result (lines.item_line context.now context.now.host first.now words.old) }
    ensures few { IfOk result (λ item. context.now.shows + shows_in item ≤ max context.now.shows 32) }
    ensures kept { IfOk result (λ item. IsSomeAnd context.now.host (λ host. IsItemBehind context.now host item)) }
{
    match context.host {
        None => Err(LineFail::Refused(ScriptWhy::NoHost)),
        Some(host) => {
            let at = read_moment(context.last, first)?;
            read_item(alloc, context, &host, at, words)
        }
    }
}

fn begins_with(word: &[u8], sign: u8) -> bool
    ensures { result ≡ lines.begins_with sign word.now }
{
    match word {
        [first, ..] => *first == sign,
        [] => false,
    }
}

/// A line of words.
#[tactic(auto, unfolding(crate::specs::Lines::words_line))]
fn read_words(
    alloc: Global,
    context: Context,
    words: &mut Words,
) -> Result<(Context, Option<ScriptItem>), LineFail>
    ensures value { LineAnswers result (lines.words_line context words.old) }
    ensures kept { IfOk result (λ said. IsLineBehind context said.0 said.1) }
{
    let Some(first) = words.next() else {
        return Ok((context, None));
    };
    if begins_with(first, b'#') {
        return Ok((context, None));
    }
    if begins_with(first, b'@') {
        let item = read_item_line(alloc, &context, first, words)?;
        return Ok((context.behind(&item), Some(item)));
    }
    let next = read_head(context, first, words)?;
    Ok((next, None))
}

fn is_text(line: &[u8]) -> bool
    ensures { result ≡ is_utf8 line.now }
{
    str::from_utf8(line).is_ok()
}

/// The line of this number.
#[tactic(auto, unfolding(crate::specs::Lines::numbered_line))]
fn read_line(
    alloc: Global,
    number: u32,
    context: Context,
    line: &[u8],
) -> Result<(Context, Option<ScriptItem>), LineFail>
    ensures value { LineAnswers result (lines.numbered_line number context line.now) }
    ensures kept { IfOk result (λ said. IsLineBehind context said.0 said.1) }
    ensures within { IfOk result (λ _. number ≤ 131072) }
{
    if number > MOST_LINES {
        return Err(LineFail::Refused(ScriptWhy::TooMany));
    }
    if !is_text(line) {
        return Err(LineFail::Refused(ScriptWhy::BadUtf8));
    }
    let mut words = Words::of_line(line);
    read_words(alloc, context, &mut words)
}

/// The line of this number, or the refusal with it.
pub(crate) fn read_numbered(
    alloc: Global,
    number: u32,
    context: Context,
    line: &[u8],
) -> Result<(Context, Option<ScriptItem>), ScriptFail>
    ensures value { Answers result (lines.at_line number (lines.numbered_line number context line.now)) }
    ensures kept { IfOk result (λ said. IsLineBehind context said.0 said.1) }
    ensures within { IfOk result (λ _. number ≤ 131072) }
{
    match read_line(alloc, number, context, line) {
        Ok(said) => Ok(said),
        Err(LineFail::Refused(why)) => Err(ScriptFail::Refused { line: number, why }),
        Err(LineFail::Memory) => Err(ScriptFail::Memory),
    }
}

/// The line that a text begins with, and the text behind it.
pub(crate) fn cut_line(text: &[u8]) -> (&[u8], &[u8])
    requires { 0 < length text.now }
    ensures lines { lines_of text.now ≡ result.0.now ∷ lines_of result.1.now }
    ensures shorter { length result.1.now < length text.now }
{
    let (line, rest) = cut(text, b'\n');
    match rest {
        None => (line, &[]),
        Some(behind) => (without_return(line), behind),
    }
}

fn without_return(line: &[u8]) -> &[u8]
    ensures { result.now ≡ strip_carriage_return line.now }
{
    match line {
        [front @ .., b'\r'] => front,
        _ => line,
    }
}
