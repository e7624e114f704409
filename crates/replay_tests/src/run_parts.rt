//! What the parts of a run are made of.
ghost use Rattle.std.specs.Prelude.{IfOk};
ghost use Rattle.nb_base.specs.Params.{InRange};

use nb_base::{
    Bytes, ControlItem, Host, Items, Key, Line, Mac, Mark, Moment, Name, Op, OpId, Outcome, Params,
    Placed, Plan, Reply, SendItem, Why,
};
use std::alloc::{AllocError, Global};

pub fn bytes(alloc: Global, bytes: &[u8]) -> Result<Bytes, AllocError> {
    Ok(Items::from_vec(Vec::from_slice(alloc, bytes)?))
}

pub fn host() -> Option<Host> {
    Some(Host {
        dev: Name::read(b"eth0")?,
        mac: Mac([0x02, 0, 0, 0, 0, 0x02]),
        ip4: Some(0x0a00_0002),
        ip6: None,
    })
}

pub fn own(at: u64, id: u64, op: Op) -> Line {
    Line {
        at: Moment(at),
        id: Some(OpId(id)),
        op,
        seen: None,
        full: None,
    }
}

pub fn bare(at: u64, op: Op) -> Line {
    Line {
        at: Moment(at),
        id: None,
        op,
        seen: None,
        full: None,
    }
}

/// The line, which saw so many entries.
pub fn saw(line: Line, seen: u32) -> Line {
    Line {
        seen: Some(seen),
        ..line
    }
}

/// The line, which saw so many entries, all of which stand in its way.
pub fn full(line: Line, seen: u32) -> Line {
    Line {
        seen: Some(seen),
        full: Some(seen),
        ..line
    }
}

/// A packet of two bytes.
pub fn packet_to(key: Key) -> Op {
    Op::Send { key, len: 2 }
}

fn packet(alloc: Global, at: u64, key: Key, payload: &[u8]) -> Result<SendItem, AllocError> {
    let payload = bytes(alloc, payload)?;
    Ok(SendItem {
        at: Moment(at),
        key,
        payload,
    })
}

/// Puts a packet at the end of its sender's.
pub fn push_packet(
    alloc: Global,
    packets: &mut Items<SendItem>,
    at: u64,
    key: Key,
    payload: &[u8],
) -> Result<(), AllocError> {
    packets.push(packet(alloc, at, key, payload)?)
}

/// A list of one.
pub fn one<T: Drop>(alloc: Global, item: T) -> Result<Items<T>, AllocError> {
    let mut items = Items::new(alloc);
    items.push(item)?;
    Ok(items)
}

pub fn plan(
    alloc: Global,
    host: Host,
    packets: Items<SendItem>,
    control: Items<ControlItem>,
) -> Result<Plan, AllocError>
    ensures { IfOk result (λ plan. InRange plan.params) }
{
    let mut senders = Items::new(alloc);
    senders.push(packets)?;
    Ok(Plan {
        host,
        params: Params::DEFAULT,
        buckets: 1,
        window: 50,
        control,
        senders,
    })
}

pub fn placed(place: u32) -> Placed {
    Placed {
        bucket: 0,
        place,
        reply: Reply::Done,
    }
}

pub fn slow(why: Why, place: u32, reply: Reply) -> Outcome {
    Outcome::Slow { why, place, reply }
}

pub fn mark(alloc: Global, start: Option<Moment>, length: u32) -> Result<Mark, AllocError> {
    let mut lengths = Items::new(alloc);
    lengths.push(length)?;
    Ok(Mark { start, lengths })
}
