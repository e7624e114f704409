//! Requests for addresses.
ghost use Rattle.std.specs.Prelude.{◌≡◌};
ghost use Rattle.heard_frames.specs.Answers.{is_given, is_hosts, request_in, solicitor_mac};

use crate::Content;
use link_codec::group_mac;
use nb_base::{Host, Key, Mac};
use nb_queues::ProxyRequest;
use nd_codec::Nd;

/// All nodes of the link, ff02::1 (RFC 4291 section 2.7.1).
pub(crate) const ALL_NODES: u128 = 0xff02_0000_0000_0000_0000_0000_0000_0001;

impl Content {
    /// The request that the frame makes: an ARP request (opcode 1) is answered to its sender's link address; a solicitation to the one that it tells,
    /// or where it tells none to its frame's source, and from `::` to all nodes. Takes no memory.
    pub fn request(&self) -> Option<ProxyRequest>
        ensures { result ≡ request_in self.now }
    {
        match *self {
            Content::Arp { packet, .. } if packet.op == 1 => Some(ProxyRequest::Arp {
                mac: packet.sha,
                asker: packet.spa,
                target: packet.tpa,
            }),
            Content::Nd {
                src,
                message: Nd::Solicit {
                    source,
                    target,
                    lladdr,
                    ..
                },
            } => Some(ProxyRequest::Nd {
                mac: solicitor_mac(src, source, lladdr),
                asker: source,
                target,
            }),
            _ => None,
        }
    }
}

/// The link address to which the answer to a solicitation goes.
fn solicitor_mac(src: Mac, source: u128, lladdr: Option<Mac>) -> Mac
    ensures { result ≡ solicitor_mac src source lladdr }
{
    if source == 0 {
        group_mac(ALL_NODES)
    } else {
        lladdr.unwrap_or(src)
    }
}

/// Whether an address is the host's own.
pub(crate) fn is_hosts(host: &Host, key: &Key) -> bool
    ensures { result ≡ is_hosts host.now key.now }
{
    match *key {
        Key::V4(address) => is_given4(host.ip4, address),
        Key::V6(address) => is_given6(host.ip6, address),
    }
}

fn is_given4(own: Option<u32>, address: u32) -> bool
    ensures { result ≡ is_given own address }
{
    match own {
        Some(own) => own == address,
        None => false,
    }
}

fn is_given6(own: Option<u128>, address: u128) -> bool
    ensures { result ≡ is_given own address }
{
    match own {
        Some(own) => own == address,
        None => false,
    }
}
