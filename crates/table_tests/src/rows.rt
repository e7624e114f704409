//! Journals as text, a line a row.
use nb_base::{Key, Line, Mac, Moment, Nud, Op, OpId, Reply};
use std::alloc::Global;
use std::test::Fail;

pub const A: Mac = Mac([0x00, 0x11, 0x22, 0x33, 0x44, 0x55]);

pub const B: Mac = Mac([0x00, 0x11, 0x22, 0x33, 0x44, 0x66]);

/// 10.0.0.N
pub fn ten(n: u8) -> Key {
    Key::V4(0x0a00_0000 + u32::from(n))
}

/// The text's first word, and what stands behind the space.
pub fn cut(text: &str) -> Option<(&str, &str)> {
    text.split_once(' ')
}

/// The number that the word has.
pub fn number(word: &str) -> Option<u64> {
    word.parse().ok()
}

/// The key 10.0.0.N, of which the word has N.
pub fn key_of(word: &str) -> Option<Key> {
    Some(ten(word.parse().ok()?))
}

/// The number that the word has, or none for `-`.
fn count_of(word: &str) -> Option<Option<u32>> {
    if word == "-" {
        return Some(None);
    }
    Some(Some(word.parse().ok()?))
}

fn id_of(word: &str) -> Option<Option<OpId>> {
    if word == "-" {
        return Some(None);
    }
    Some(Some(OpId(number(word)?)))
}

pub fn nud_of(word: &str) -> Option<Nud> {
    if word == "incomplete" {
        Some(Nud::Incomplete)
    } else if word == "reachable" {
        Some(Nud::Reachable)
    } else if word == "stale" {
        Some(Nud::Stale)
    } else if word == "delay" {
        Some(Nud::Delay)
    } else if word == "probe" {
        Some(Nud::Probe)
    } else if word == "failed" {
        Some(Nud::Failed)
    } else if word == "permanent" {
        Some(Nud::Permanent)
    } else {
        None
    }
}

/// The link address that the word names, or none for `-`.
pub fn mac_of(word: &str) -> Option<Option<Mac>> {
    if word == "-" {
        Some(None)
    } else if word == "a" {
        Some(Some(A))
    } else if word == "b" {
        Some(Some(B))
    } else {
        None
    }
}

/// What is asked of the whole table.
fn table_op(word: &str) -> Option<Op> {
    if word == "show" {
        Some(Op::Show)
    } else if word == "flush" {
        Some(Op::Flush)
    } else if word == "sweep" {
        Some(Op::Sweep)
    } else {
        None
    }
}

/// What is asked of a key with nothing said beside it. An ARP packet is a reply to the host, of the key at B.
fn plain_op(word: &str, key: Key) -> Option<Op> {
    if word == "timer" {
        Some(Op::Timer { key })
    } else if word == "collect" {
        Some(Op::Collect { key })
    } else if word == "del" {
        Some(Op::Del { key })
    } else if word == "arp" {
        Some(Op::Arp {
            key,
            mac: B,
            make: false,
            solicited: true,
        })
    } else {
        None
    }
}

/// What is asked of a key: a packet of so many bytes, an addition of the address A in a state, or what says nothing beside the key.
fn key_op(word: &str, key: Key, beside: &str) -> Option<Op> {
    if word == "send" {
        let len = beside.parse().ok()?;
        Some(Op::Send { key, len })
    } else if word == "add" {
        let nud = nud_of(beside)?;
        let mac = Some(A);
        Some(Op::Add { key, mac, nud })
    } else {
        plain_op(word, key)
    }
}

fn op_of(word: &str, key: &str, beside: &str) -> Option<Op> {
    if key == "-" {
        table_op(word)
    } else {
        key_op(word, key_of(key)?, beside)
    }
}

/// The operation that the text's first three words say, and what stands behind them.
fn op_in(text: &str) -> Option<(Op, &str)> {
    let (word, rest) = cut(text)?;
    let (key, rest) = cut(rest)?;
    let (beside, rest) = cut(rest)?;
    Some((op_of(word, key, beside)?, rest))
}

/// A line of these words and this operation.
fn line(at: &str, id: &str, op: Op, seen: &str, full: &str) -> Option<Line> {
    Some(Line {
        at: Moment(number(at)?),
        id: id_of(id)?,
        op,
        seen: count_of(seen)?,
        full: count_of(full)?,
    })
}

/// A line, in seven words: its moment, its id, what is asked, the N of its key 10.0.0.N, what is said beside the key, what it saw, and
/// the number of entries that were in its way; `-` where there is none.
pub fn line_of(row: &str) -> Option<Line> {
    let (at, rest) = cut(row)?;
    let (id, rest) = cut(rest)?;
    let (op, rest) = op_in(rest)?;
    let (seen, full) = cut(rest)?;
    line(at, id, op, seen, full)
}

/// The lines of the rows.
pub fn lines_of(alloc: Global, rows: &str) -> Result<Vec<Line>, Fail> {
    let mut lines = Vec::new(alloc);
    for row in rows.lines() {
        lines.push(line_of(row).ok_or("a line")?)?;
    }
    Ok(lines)
}

fn counted_reply(word: &str, count: u32) -> Option<Reply> {
    if word == "waits" {
        Some(Reply::Waits { dropped: count })
    } else if word == "full" {
        Some(Reply::Full { seen: count })
    } else if word == "counted" {
        Some(Reply::Counted(count))
    } else {
        None
    }
}

/// The reply that the text says: `done`, or a word and a number; no reply for `-`.
pub fn reply_of(text: &str) -> Option<Option<Reply>> {
    if text == "-" {
        return Some(None);
    }
    if text == "done" {
        return Some(Some(Reply::Done));
    }
    let (word, count) = cut(text)?;
    Some(Some(counted_reply(word, count.parse().ok()?)?))
}

/// What stands before the first bar, and what behind it.
pub fn at_bar(row: &str) -> Option<(&str, &str)> {
    row.split_once('|')
}

/// How many rows the text has.
pub fn row_count(rows: &str) -> usize {
    rows.lines().count()
}
