//! ARP packets of Ethernet and IPv4.
ghost use Rattle.std.specs.Prelude.{◌≡◌, ◌≤◌, ◌++◌, length, Some, IfSome};
ghost use Rattle.link_codec.specs.Arp.{BeginsWithArp, arp_bytes, arp_kind};

use crate::parts::{put, take_mac, take_u16, take_u32};
use nb_base::Mac;

/// How many bytes a packet has.
const PACKET_LEN: usize = 28;

/// Hardware type 1 (Ethernet), protocol type 0x0800 (IPv4), and the lengths 6 and 4 of their addresses.
const KIND: [u8; 6] = [0, 1, 8, 0, 6, 4];

/// An ARP packet (RFC 826) of Ethernet and IPv4. Protocol addresses are numbers whose most significant byte is the address's first one.
#[derive(Clone, Copy, Debug, PartialEq, Eq)]
pub struct Arp {
    /// The opcode: 1 is a request, 2 a reply.
    pub op: u16,
    /// The sender's hardware address.
    pub sha: Mac,
    /// The sender's protocol address.
    pub spa: u32,
    /// The target's hardware address.
    pub tha: Mac,
    /// The target's protocol address.
    pub tpa: u32,
}

/// The packet with which the bytes begin: 28 bytes of hardware type 1, protocol type 0x0800, lengths 6 and 4, any opcode (RFC 826).
/// Padding behind it is left unread. `None` exactly where the bytes begin with no such packet. Takes no memory.
pub fn read_arp(body: &[u8]) -> Option<Arp>
    ensures found { IfSome result (BeginsWithArp body.now) }
    ensures only { (arp : Arp) → BeginsWithArp body.now arp → result ≡ Some arp }
{
    if body.len() < PACKET_LEN {
        return None;
    }
    let (kind, fields) = body.split_at(6);
    if kind == KIND.as_slice() {
        Some(read_fields(fields))
    } else {
        None
    }
}

fn read_fields(fields: &[u8]) -> Arp
    requires { 22 ≤ length fields.now }
    ensures { BeginsWithArp (arp_kind ++ fields.now) result }
{
    let (op, behind_op) = take_u16(fields);
    let (sha, behind_sha) = take_mac(behind_op);
    let (spa, behind_spa) = take_u32(behind_sha);
    let (tha, behind_tha) = take_mac(behind_spa);
    let (tpa, _padding) = take_u32(behind_tha);
    Arp {
        op,
        sha,
        spa,
        tha,
        tpa,
    }
}

/// Fills the array with the packet's one spelling. Takes no memory.
pub fn write_arp(into: &mut [u8; 28], arp: &Arp)
    ensures { into.new ≡ arp_bytes arp.now }
{
    put(into, 0, &KIND);
    put(into, 6, &arp.op.to_be_bytes());
    put(into, 8, &arp.sha.0);
    put(into, 14, &arp.spa.to_be_bytes());
    put(into, 18, &arp.tha.0);
    put(into, 24, &arp.tpa.to_be_bytes());
}
