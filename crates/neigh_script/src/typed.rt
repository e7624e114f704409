//! What every value of a type is. The functions do nothing: their contracts tell their callers.
ghost use Rattle.std.specs.Prelude.{◌≡◌, ◌<◌, ◌^◌, length, IfSome};
ghost use Rattle.text_codes.specs.HexText.{AreBytes};
ghost use Rattle.neigh_script.specs.Limits.{IsLink, IsTypedHost, IsTypedOp, IsTypedItem};

use crate::script::ScriptItem;
use nb_base::{Host, Mac, Op};

/// A host's link address has six bytes, its IP addresses 32 and 128 bits.
pub(crate) fn host_is_typed(host: &Host)
    ensures { IsTypedHost host.now }
{
    link_is_typed(&host.mac);
    ip4_is_typed(host.ip4);
    ip6_is_typed(host.ip6);
}

/// An item's link address has six bytes, and its payload consists of bytes.
pub(crate) fn item_is_typed(item: &ScriptItem)
    ensures { IsTypedItem item.now }
{
    match item {
        ScriptItem::Neigh { op, .. } => op_is_typed(*op),
        ScriptItem::Proxy { .. } => {}
        ScriptItem::Send { payload, .. } => are_bytes(payload.as_slice()),
    }
}

fn op_is_typed(op: Op)
    ensures { IsTypedOp op }
{
    match op {
        Op::Add { mac, .. } | Op::Change { mac, .. } | Op::Replace { mac, .. } => mac_is_typed(mac),
        _ => {}
    }
}

fn mac_is_typed(mac: Option<Mac>)
    ensures { IfSome mac IsLink }
{
    if let Some(mac) = mac {
        link_is_typed(&mac);
    }
}

fn link_is_typed(mac: &Mac)
    ensures { IsLink mac.now }
{
    are_six(&mac.0);
}

fn are_six(bytes: &[u8; 6])
    ensures six { length bytes.now ≡ 6 }
    ensures bytes { AreBytes bytes.now }
{
    are_bytes(bytes);
}

fn are_bytes(bytes: &[u8])
    ensures { AreBytes bytes.now }
{}

fn ip4_is_typed(address: Option<u32>)
    ensures { IfSome address (λ n. n < 2 ^ 32) }
{
    if let Some(address) = address {
        fits_32(address);
    }
}

fn ip6_is_typed(address: Option<u128>)
    ensures { IfSome address (λ n. n < 2 ^ 128) }
{
    if let Some(address) = address {
        fits_128(address);
    }
}

fn fits_32(number: u32)
    ensures { number < 2 ^ 32 }
{}

fn fits_128(number: u128)
    ensures { number < 2 ^ 128 }
{}
