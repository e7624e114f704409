//! What is learnt of neighbours.
ghost use Rattle.std.specs.Prelude.{◌≡◌};
ghost use Rattle.heard_frames.specs.Learning.{advert_op, arp_op, nd_op, op_in, solicit_op};

use crate::Content;
use crate::request::is_hosts;
use link_codec::Arp;
use nb_base::{Host, Key, Mac, Op, is_neighbour};
use nd_codec::Nd;

/// The operation that a frame brings.
pub(crate) fn op_in(host: &Host, content: &Content) -> Option<Op>
    ensures { result ≡ op_in host.now content.now }
{
    match *content {
        Content::Arp { dst, packet } => arp_op(host, dst, &packet),
        Content::Nd { message, .. } => nd_op(host, &message),
        _ => None,
    }
}

/// A request or a reply tells its sender's link address.
fn arp_op(host: &Host, dst: Mac, packet: &Arp) -> Option<Op>
    ensures { result ≡ arp_op host.now dst packet.now }
{
    let is_request = packet.op == 1;
    let is_reply = packet.op == 2;
    let key = Key::V4(packet.spa);
    if (is_request || is_reply) && is_neighbour(host, &key) {
        Some(Op::Arp {
            key,
            mac: packet.sha,
            make: is_request && is_hosts(host, &Key::V4(packet.tpa)),
            solicited: is_reply && dst == host.mac,
        })
    } else {
        None
    }
}

fn nd_op(host: &Host, message: &Nd) -> Option<Op>
    ensures { result ≡ nd_op host.now message.now }
{
    match *message {
        Nd::Solicit {
            source,
            target,
            lladdr,
            ..
        } => solicit_op(host, source, target, lladdr),
        Nd::Advert {
            target,
            router,
            solicited,
            overrides,
            lladdr,
            ..
        } => advert_op(host, target, router, solicited, overrides, lladdr),
    }
}

/// A solicitation for the host's address tells its source's link address.
fn solicit_op(host: &Host, source: u128, target: u128, lladdr: Option<Mac>) -> Option<Op>
    ensures { result ≡ solicit_op host.now source target lladdr }
{
    let mac = lladdr?;
    let key = Key::V6(source);
    if is_hosts(host, &Key::V6(target)) && is_neighbour(host, &key) {
        Some(Op::Ns { key, mac })
    } else {
        None
    }
}

/// An advertisement tells of its target.
fn advert_op(
    host: &Host,
    target: u128,
    router: bool,
    solicited: bool,
    overrides: bool,
    lladdr: Option<Mac>,
) -> Option<Op>
    ensures { result ≡ advert_op host.now target router solicited overrides lladdr }
{
    let key = Key::V6(target);
    if is_neighbour(host, &key) {
        Some(Op::Na {
            key,
            mac: lladdr,
            router,
            solicited,
            overrides,
        })
    } else {
        None
    }
}
