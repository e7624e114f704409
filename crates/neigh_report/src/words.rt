//! Words behind the others of a line, each with a space before it.
ghost use Rattle.std.specs.Prelude.{◌≡◌, ◌++◌, ◌∷◌, [], map, take, string_bytes, codes, decimal, OnOk};
ghost use Rattle.nb_base.specs.Address.{key_text, mac_text};
ghost use Rattle.text_codes.specs.HexText.{hex_text};
ghost use Rattle.neigh_run.specs.Spelling as spelling;
ghost use Rattle.neigh_run.specs.Spelling.{mac_word, op_words, id_word, dropping_words, reply_words, reply_part, class_word, placed_words};
ghost use Rattle.neigh_report.specs.Spaced.{spaced};

use crate::spelling::{flag, state_word};
use nb_base::{Class, Key, Mac, Nud, Op, OpId, Placed, Reply, hex_digit};
use std::alloc::AllocError;
use std::fmt::Write;

/// Bytes in hexadecimal, without a space before them.
pub fn write_hex(report: &mut String, bytes: &[u8]) -> Result<(), AllocError>
    ensures { OnOk result (string_bytes report.new ≡ string_bytes report.old ++ hex_text bytes.now) }
{
    for byte in bytes {
        report.push(char::from(hex_digit(*byte / 16)))?;
        report.push(char::from(hex_digit(*byte % 16)))?;
    }
    Ok(())
}

/// An id, or `-` for a bucket's own line.
pub fn add_id(report: &mut String, id: Option<OpId>) -> Result<(), AllocError>
    ensures { OnOk result (string_bytes report.new ≡ string_bytes report.old ++ spaced (id_word id ∷ [])) }
{
    match id {
        None => report.push_str(" -"),
        Some(id) => add_number(report, id),
    }
}

fn add_number(report: &mut String, id: OpId) -> Result<(), AllocError>
    ensures { OnOk result (string_bytes report.new ≡ string_bytes report.old ++ spaced (decimal id.0 ∷ [])) }
{
    write!(report, " {id}")?;
    Ok(())
}

/// How many packets were dropped for the one that waits, where any were.
fn add_dropping(report: &mut String, dropped: u32) -> Result<(), AllocError>
    ensures { OnOk result (string_bytes report.new ≡ string_bytes report.old ++ spaced (dropping_words dropped)) }
{
    if dropped == 0 {
        return Ok(());
    }
    write!(report, " dropping {dropped}")?;
    Ok(())
}

fn add_waits(report: &mut String, dropped: u32) -> Result<(), AllocError>
    ensures { OnOk result (string_bytes report.new ≡ string_bytes report.old ++ spaced (reply_words (Reply.Waits dropped))) }
{
    report.push_str(" waits")?;
    add_dropping(report, dropped)
}

fn add_full(report: &mut String, seen: u32) -> Result<(), AllocError>
    ensures { OnOk result (string_bytes report.new ≡ string_bytes report.old ++ spaced (reply_words (Reply.Full seen))) }
{
    write!(report, " full {seen}")?;
    Ok(())
}

fn add_counted(report: &mut String, count: u32) -> Result<(), AllocError>
    ensures { OnOk result (string_bytes report.new ≡ string_bytes report.old ++ spaced (reply_words (Reply.Counted count))) }
{
    write!(report, " counted {count}")?;
    Ok(())
}

pub fn add_reply(report: &mut String, reply: Reply) -> Result<(), AllocError>
    ensures { OnOk result (string_bytes report.new ≡ string_bytes report.old ++ spaced (reply_words reply)) }
{
    match reply {
        Reply::Sent => report.push_str(" sent"),
        Reply::Waits { dropped } => add_waits(report, dropped),
        Reply::NoProbes => report.push_str(" noprobes"),
        Reply::Full { seen } => add_full(report, seen),
        Reply::Done => report.push_str(" done"),
        Reply::Exists => report.push_str(" exists"),
        Reply::Missing => report.push_str(" missing"),
        Reply::NoAddress => report.push_str(" noaddress"),
        Reply::Ignored => report.push_str(" ignored"),
        Reply::Counted(count) => add_counted(report, count),
    }
}

/// A reply, or `-` for a bucket's own line.
fn add_reply_part(report: &mut String, reply: Option<Reply>) -> Result<(), AllocError>
    ensures { OnOk result (string_bytes report.new ≡ string_bytes report.old ++ spaced (reply_part reply)) }
{
    match reply {
        None => report.push_str(" -"),
        Some(reply) => add_reply(report, reply),
    }
}

/// An arrow, and a reply, or `-` for a bucket's own line.
pub fn add_answer(report: &mut String, reply: Option<Reply>) -> Result<(), AllocError>
    ensures { OnOk result (string_bytes report.new ≡ string_bytes report.old ++ spaced (codes "->" ∷ reply_part reply)) }
{
    report.push_str(" ->")?;
    add_reply_part(report, reply)
}

fn add_nd_bad(report: &mut String, check: u8) -> Result<(), AllocError>
    ensures { OnOk result (string_bytes report.new ≡ string_bytes report.old ++ spaced (class_word (Class.NdBad check) ∷ [])) }
{
    write!(report, " ndbad{check}")?;
    Ok(())
}

pub fn add_class(report: &mut String, class: Class) -> Result<(), AllocError>
    ensures { OnOk result (string_bytes report.new ≡ string_bytes report.old ++ spaced (class_word class ∷ [])) }
{
    match class {
        Class::Short => report.push_str(" short"),
        Class::Own => report.push_str(" own"),
        Class::Foreign => report.push_str(" foreign"),
        Class::BadArp => report.push_str(" badarp"),
        Class::Arp => report.push_str(" arp"),
        Class::NdBad(check) => add_nd_bad(report, check),
        Class::Nd => report.push_str(" nd"),
        Class::Other => report.push_str(" other"),
    }
}

/// Where an operation stands, and its reply.
pub fn add_placed(report: &mut String, placed: &Placed) -> Result<(), AllocError>
    ensures { OnOk result (string_bytes report.new ≡ string_bytes report.old ++ spaced (placed_words placed.now)) }
{
    write!(report, " op {} {}", placed.bucket, placed.place)?;
    add_reply(report, placed.reply)
}

fn add_mac(report: &mut String, mac: Option<Mac>) -> Result<(), AllocError>
    ensures { OnOk result (string_bytes report.new ≡ string_bytes report.old ++ spaced (mac_word mac ∷ [])) }
{
    match mac {
        None => report.push_str(" -"),
        Some(mac) => add_address(report, mac),
    }
}

fn add_address(report: &mut String, mac: Mac) -> Result<(), AllocError>
    ensures { OnOk result (string_bytes report.new ≡ string_bytes report.old ++ spaced (mac_text mac ∷ [])) }
{
    write!(report, " {mac}")?;
    Ok(())
}

/// A verb and the key.
fn add_verb(report: &mut String, verb: &str, key: Key) -> Result<(), AllocError>
    ensures { OnOk result (string_bytes report.new ≡ string_bytes report.old ++ spaced (verb.now ∷ key_text key ∷ [])) }
{
    write!(report, " {verb} {key}")?;
    Ok(())
}

fn add_arp(
    report: &mut String,
    key: Key,
    mac: Mac,
    make: bool,
    solicited: bool,
) -> Result<(), AllocError>
    ensures { OnOk result (string_bytes report.new ≡ string_bytes report.old ++ spaced (op_words (Op.Arp key mac make solicited))) }
{
    add_verb(report, "arp", key)?;
    add_address(report, mac)?;
    report.push_str(if make { " make" } else { " keep" })?;
    report.push_str(if solicited { " reachable" } else { " stale" })
}

fn add_flags(
    report: &mut String,
    router: bool,
    solicited: bool,
    overrides: bool,
) -> Result<(), AllocError>
    ensures { OnOk result (string_bytes report.new ≡ string_bytes report.old ++ spaced ((spelling.flag router 114 ∷ spelling.flag solicited 115 ∷ spelling.flag overrides 111 ∷ []) ∷ [])) }
{
    report.push(' ')?;
    report.push(flag(router, 'r'))?;
    report.push(flag(solicited, 's'))?;
    report.push(flag(overrides, 'o'))
}

fn add_na(
    report: &mut String,
    key: Key,
    mac: Option<Mac>,
    router: bool,
    solicited: bool,
    overrides: bool,
) -> Result<(), AllocError>
    ensures { OnOk result (string_bytes report.new ≡ string_bytes report.old ++ spaced (op_words (Op.Na key mac router solicited overrides))) }
{
    add_verb(report, "na", key)?;
    add_mac(report, mac)?;
    add_flags(report, router, solicited, overrides)
}

/// An entry that is set by hand.
fn add_set(
    report: &mut String,
    verb: &str,
    key: Key,
    mac: Option<Mac>,
    nud: Nud,
) -> Result<(), AllocError>
    ensures { OnOk result (string_bytes report.new ≡ string_bytes report.old ++ spaced (verb.now ∷ key_text key ∷ mac_word mac ∷ spelling.state_word nud ∷ [])) }
{
    add_verb(report, verb, key)?;
    add_mac(report, mac)?;
    let state = state_word(nud);
    write!(report, " {state}")?;
    Ok(())
}

fn add_ns(report: &mut String, key: Key, mac: Mac) -> Result<(), AllocError>
    ensures { OnOk result (string_bytes report.new ≡ string_bytes report.old ++ spaced (op_words (Op.Ns key mac))) }
{
    add_verb(report, "ns", key)?;
    add_address(report, mac)
}

pub fn add_op(report: &mut String, op: &Op) -> Result<(), AllocError>
    ensures { OnOk result (string_bytes report.new ≡ string_bytes report.old ++ spaced (op_words op.now)) }
{
    match *op {
        Op::Send { key, .. } => add_verb(report, "send", key),
        Op::Arp {
            key,
            mac,
            make,
            solicited,
        } => add_arp(report, key, mac, make, solicited),
        Op::Ns { key, mac } => add_ns(report, key, mac),
        Op::Na {
            key,
            mac,
            router,
            solicited,
            overrides,
        } => add_na(report, key, mac, router, solicited, overrides),
        Op::Add { key, mac, nud } => add_set(report, "add", key, mac, nud),
        Op::Change { key, mac, nud } => add_set(report, "change", key, mac, nud),
        Op::Replace { key, mac, nud } => add_set(report, "replace", key, mac, nud),
        Op::Del { key } => add_verb(report, "del", key),
        Op::Confirm { key } => add_verb(report, "confirm", key),
        Op::Show => report.push_str(" show"),
        Op::Flush => report.push_str(" flush"),
        Op::Timer { key } => add_verb(report, "timer", key),
        Op::Sweep => report.push_str(" sweep"),
        Op::Collect { key } => add_verb(report, "collect", key),
    }
}
