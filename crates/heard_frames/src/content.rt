//! What a frame holds for the host, and its class.
ghost use Rattle.std.specs.Prelude.{◌≡◌, length};
ghost use Rattle.heard_frames.specs.Content.{Holds, class_of};
ghost use Rattle.heard_frames.specs.Fields.{arp_content, arp_of, bad_content, body_content, content_of, frame_content, nd_content};
ghost use Rattle.nd_codec.specs.Message.{read_of};

use link_codec::{ARP_TYPE, Arp, EthView, IP6_TYPE, read_arp, read_eth};
use nb_base::{Class, Mac};
use nd_codec::{Nd, NdFail, read_nd};

/// What a frame holds for a host. Only `Arp` and `Nd` have an effect.
#[derive(Clone, Copy, Debug, PartialEq, Eq)]
pub enum Content {
    /// Fewer than the 14 bytes of an Ethernet header.
    Short,
    /// The host sent the frame itself.
    Own,
    /// It goes to neither the host nor a group.
    Foreign,
    /// Of ARP's type, and no ARP packet.
    BadArp,
    /// An ARP packet, with the frame's destination.
    Arp { dst: Mac, packet: Arp },
    /// A neighbour discovery packet that fails a check other than `NotIcmp`.
    NdBad(NdFail),
    /// A solicitation or an advertisement, with the frame's source.
    Nd { src: Mac, message: Nd },
    /// Of another type, or an IPv6 packet of another kind.
    Other,
}

impl Content {
    /// The frame's class. Takes no memory.
    pub fn class(&self) -> Class
        ensures { result ≡ class_of self.now }
    {
        match self {
            Content::Short => Class::Short,
            Content::Own => Class::Own,
            Content::Foreign => Class::Foreign,
            Content::BadArp => Class::BadArp,
            Content::Arp { .. } => Class::Arp,
            Content::NdBad(why) => Class::NdBad(why.number()),
            Content::Nd { .. } => Class::Nd,
            Content::Other => Class::Other,
        }
    }
}

/// What the bytes of a frame hold for the host with the link address `own`: the first that holds of fewer than 14 bytes, from the host itself,
/// to neither the host nor a group; then by the type an ARP packet (RFC 826), a neighbour discovery message (RFC 4861), or none of these. Takes no memory.
pub fn read_content(own: &Mac, bytes: &[u8]) -> Content
    ensures value { result ≡ content_of own.now bytes.now }
    ensures found { Holds own.now bytes.now result }
    ensures only { (content : Content) → Holds own.now bytes.now content → result ≡ content }
{
    match read_eth(bytes) {
        Some(view) => frame_content(own, &view),
        None => Content::Short,
    }
}

#[tactic(auto, unfolding(crate::specs::Fields::frame_content))]
fn frame_content(own: &Mac, view: &EthView<'_>) -> Content
    ensures { result ≡ frame_content own.now view.now.dst view.now.src view.now.ethertype view.now.body.now }
{
    if view.src == *own {
        Content::Own
    } else if view.dst != *own && !view.dst.is_group() {
        Content::Foreign
    } else {
        body_content(view)
    }
}

fn body_content(view: &EthView<'_>) -> Content
    ensures { result ≡ body_content view.now.dst view.now.src view.now.ethertype view.now.body.now }
{
    match view.ethertype {
        ARP_TYPE => arp_content(view.dst, view.body),
        IP6_TYPE => nd_content(view.src, view.body),
        _ => Content::Other,
    }
}

fn arp_content(dst: Mac, body: &[u8]) -> Content
    ensures { result ≡ arp_content dst (arp_of body.now) }
{
    match read_arp(body) {
        Some(packet) => Content::Arp { dst, packet },
        None => Content::BadArp,
    }
}

fn nd_content(src: Mac, body: &[u8]) -> Content
    ensures { result ≡ nd_content src (read_of body.now) }
{
    match read_nd(body) {
        Ok(message) => Content::Nd { src, message },
        Err(NdFail::NotIcmp) => Content::Other,
        Err(why) => Content::NdBad(why),
    }
}
