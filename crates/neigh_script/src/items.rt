//! The forms of a script's items, behind their moments.
ghost use Rattle.std.specs.Prelude.{◌≡◌, ◌+◌, ◌≤◌, ℕ, true, max, IfOk};
ghost use Rattle.nb_base.specs.Address as address;
ghost use Rattle.neigh_script.specs.Context.{at_of, shows_in};
ghost use Rattle.neigh_script.specs.Limits.{IsSaidWithin};
ghost use Rattle.neigh_script.specs.Forms as forms;
ghost use Rattle.neigh_script.specs.Why.{LineAnswers};

use crate::fields::{read_neighbour, read_payload, read_sender};
use crate::forms::end_with_device;
use crate::options::read_entry;
use crate::script::ScriptItem;
use crate::why::{LineFail, ScriptWhy};
use crate::words::{Words, is_word};
use nb_base::{Host, Key, Moment, Op};
use std::alloc::Global;

/// The most `show` lines of a script.
const MOST_SHOWS: u32 = 32;

/// `ADDR [dev NAME]`
#[tactic(auto, unfolding(crate::specs::Forms::key_form))]
fn read_key_alone(host: &Host, words: &mut Words) -> Result<Key, ScriptWhy>
    ensures value { result ≡ forms.key_form host.now words.old }
    ensures within { IfOk result (λ key. address.is_neighbour host.now key ≡ true) }
{
    let key = read_neighbour(host, words.field()?)?;
    end_with_device(host, words)?;
    Ok(key)
}

/// `ADDR OPTS`, or `proxy ADDR [dev NAME]`
#[tactic(auto, unfolding(crate::specs::Forms::add_form))]
fn read_add(host: &Host, at: Moment, words: &mut Words) -> Result<ScriptItem, ScriptWhy>
    ensures value { result ≡ forms.add_form host.now at words.old }
    ensures few { IfOk result (λ item. shows_in item ≡ 0) }
    ensures within { (senders : ℕ) → IfOk result (λ item. (at_of item ≡ at) × IsSaidWithin host.now senders item) }
{
    if words.take(b"proxy") {
        let key = read_key_alone(host, words)?;
        Ok(ScriptItem::Proxy { at, key, add: true })
    } else {
        let (key, mac, nud) = read_entry(host, words)?;
        let op = Op::Add { key, mac, nud };
        Ok(ScriptItem::Neigh { at, op })
    }
}

/// `ADDR OPTS`
#[tactic(auto, unfolding(crate::specs::Forms::change_form))]
fn read_change(host: &Host, at: Moment, words: &mut Words) -> Result<ScriptItem, ScriptWhy>
    ensures value { result ≡ forms.change_form host.now at words.old }
    ensures few { IfOk result (λ item. shows_in item ≡ 0) }
    ensures within { (senders : ℕ) → IfOk result (λ item. (at_of item ≡ at) × IsSaidWithin host.now senders item) }
{
    let (key, mac, nud) = read_entry(host, words)?;
    let op = Op::Change { key, mac, nud };
    Ok(ScriptItem::Neigh { at, op })
}

/// `ADDR OPTS`
#[tactic(auto, unfolding(crate::specs::Forms::replace_form))]
fn read_replace(host: &Host, at: Moment, words: &mut Words) -> Result<ScriptItem, ScriptWhy>
    ensures value { result ≡ forms.replace_form host.now at words.old }
    ensures few { IfOk result (λ item. shows_in item ≡ 0) }
    ensures within { (senders : ℕ) → IfOk result (λ item. (at_of item ≡ at) × IsSaidWithin host.now senders item) }
{
    let (key, mac, nud) = read_entry(host, words)?;
    let op = Op::Replace { key, mac, nud };
    Ok(ScriptItem::Neigh { at, op })
}

/// `ADDR [dev NAME]`, or `proxy ADDR [dev NAME]`
#[tactic(auto, unfolding(crate::specs::Forms::del_form))]
fn read_del(host: &Host, at: Moment, words: &mut Words) -> Result<ScriptItem, ScriptWhy>
    ensures value { result ≡ forms.del_form host.now at words.old }
    ensures few { IfOk result (λ item. shows_in item ≡ 0) }
    ensures within { (senders : ℕ) → IfOk result (λ item. (at_of item ≡ at) × IsSaidWithin host.now senders item) }
{
    if words.take(b"proxy") {
        let key = read_key_alone(host, words)?;
        Ok(ScriptItem::Proxy {
            at,
            key,
            add: false,
        })
    } else {
        let key = read_key_alone(host, words)?;
        let op = Op::Del { key };
        Ok(ScriptItem::Neigh { at, op })
    }
}

/// `[dev NAME]`, below this many `show` lines.
#[tactic(auto, unfolding(crate::specs::Forms::show_form))]
fn read_show(
    shows: u32,
    host: &Host,
    at: Moment,
    words: &mut Words,
) -> Result<ScriptItem, ScriptWhy>
    ensures value { result ≡ forms.show_form shows host.now at words.old }
    ensures few { IfOk result (λ item. shows + shows_in item ≤ 32) }
    ensures within { (senders : ℕ) → IfOk result (λ item. (at_of item ≡ at) × IsSaidWithin host.now senders item) }
{
    if shows >= MOST_SHOWS {
        return Err(ScriptWhy::TooMany);
    }
    end_with_device(host, words)?;
    Ok(ScriptItem::Neigh { at, op: Op::Show })
}

/// `[all] [dev NAME]`
#[tactic(auto, unfolding(crate::specs::Forms::flush_form))]
fn read_flush(host: &Host, at: Moment, words: &mut Words) -> Result<ScriptItem, ScriptWhy>
    ensures value { result ≡ forms.flush_form host.now at words.old }
    ensures few { IfOk result (λ item. shows_in item ≡ 0) }
    ensures within { (senders : ℕ) → IfOk result (λ item. (at_of item ≡ at) × IsSaidWithin host.now senders item) }
{
    words.take(b"all");
    end_with_device(host, words)?;
    Ok(ScriptItem::Neigh { at, op: Op::Flush })
}

/// A verb of `ip neigh` and what stands behind it.
#[tactic(auto, unfolding(crate::specs::Forms::neigh_form))]
pub(crate) fn read_neigh(
    shows: u32,
    host: &Host,
    at: Moment,
    words: &mut Words,
) -> Result<ScriptItem, ScriptWhy>
    ensures value { result ≡ forms.neigh_form shows host.now at words.old }
    ensures few { IfOk result (λ item. shows + shows_in item ≤ max shows 32) }
    ensures within { (senders : ℕ) → IfOk result (λ item. (at_of item ≡ at) × IsSaidWithin host.now senders item) }
{
    let verb = words.field()?;
    if is_word(verb, b"add") {
        read_add(host, at, words)
    } else if is_word(verb, b"change") {
        read_change(host, at, words)
    } else if is_word(verb, b"replace") {
        read_replace(host, at, words)
    } else if is_word(verb, b"del") {
        read_del(host, at, words)
    } else if is_word(verb, b"show") {
        read_show(shows, host, at, words)
    } else if is_word(verb, b"flush") {
        read_flush(host, at, words)
    } else {
        Err(ScriptWhy::UnknownWord)
    }
}

/// `ADDR`
#[tactic(auto, unfolding(crate::specs::Forms::confirm_form))]
pub(crate) fn read_confirm(
    host: &Host,
    at: Moment,
    words: &mut Words,
) -> Result<ScriptItem, ScriptWhy>
    ensures value { result ≡ forms.confirm_form host.now at words.old }
    ensures few { IfOk result (λ item. shows_in item ≡ 0) }
    ensures within { (senders : ℕ) → IfOk result (λ item. (at_of item ≡ at) × IsSaidWithin host.now senders item) }
{
    let key = read_neighbour(host, words.field()?)?;
    words.end()?;
    let op = Op::Confirm { key };
    Ok(ScriptItem::Neigh { at, op })
}

/// `K ADDR HEX`, of so many senders.
#[tactic(auto, unfolding(crate::specs::Forms::send_form))]
pub(crate) fn read_send(
    alloc: Global,
    senders: u32,
    host: &Host,
    at: Moment,
    words: &mut Words,
) -> Result<ScriptItem, LineFail>
    ensures value { LineAnswers result (forms.send_form senders host.now at words.old) }
    ensures few { IfOk result (λ item. shows_in item ≡ 0) }
    ensures within { IfOk result (λ item. (at_of item ≡ at) × IsSaidWithin host.now senders item) }
{
    let sender = read_sender(senders, words.field()?)?;
    let key = read_neighbour(host, words.field()?)?;
    let payload = read_payload(alloc, words.field()?)?;
    words.end()?;
    Ok(ScriptItem::Send {
        at,
        sender,
        key,
        payload,
    })
}
