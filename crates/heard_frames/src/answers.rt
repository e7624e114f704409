//! The frames that answer requests.
ghost use Rattle.std.specs.Prelude.{◌≡◌, ◌++◌, IfOk, OnOk};
ghost use Rattle.link_codec.specs.Ethernet.{eth_bytes};
ghost use Rattle.link_codec.specs.EtherTypes as types;
ghost use Rattle.link_codec.specs.Arp.{arp_bytes};
ghost use Rattle.heard_frames.specs.Answers.{advert_dest, advert_packet, answer_frame, reply_packet, reply_to};

use crate::request::{ALL_NODES, is_hosts};
use link_codec::{ARP_TYPE, Arp, IP6_TYPE, write_arp, write_eth};
use nb_base::{Bytes, Host, Items, Key, Mac};
use nb_queues::ProxyRequest;
use nd_codec::write_advert;
use std::alloc::{AllocError, Global};

/// The frame with which the host answers a request, for itself or as a proxy, without padding.
/// To an ARP request it is a reply of 42 bytes, which tells the address asked for at the host's link address (RFC 826).
/// To a solicitation it is an advertisement of 86 bytes from the host's own IPv6 address, with R clear and the host's link address as target option.
/// O is set where the target is the host's own address. It goes to the asker with S set; where that is `::`, it goes to all nodes with S clear
/// (RFC 4861 sections 7.2.4 and 7.2.8).
#[tactic(auto, unfolding(crate::specs::Answers::answer_frame))]
pub fn answer(alloc: Global, host: &Host, request: &ProxyRequest) -> Result<Bytes, AllocError>
    ensures { IfOk result (λ frame. frame ≡ answer_frame host.now request.now) }
{
    match *request {
        ProxyRequest::Arp { mac, asker, target } => {
            let packet = arp_reply(host, mac, asker, target);
            frame(alloc, &mac, host, ARP_TYPE, &packet)
        }
        ProxyRequest::Nd { mac, asker, target } => {
            let packet = advert(host, asker, target);
            frame(alloc, &mac, host, IP6_TYPE, &packet)
        }
    }
}

/// The reply to a request for the host's own address, and none to another one.
pub(crate) fn reply_to(
    alloc: Global,
    host: &Host,
    request: Option<ProxyRequest>,
) -> Result<Option<Bytes>, AllocError>
    ensures { IfOk result (λ reply. reply ≡ reply_to host.now request) }
{
    match request {
        Some(asked) if is_hosts(host, &asked.target()) => Ok(Some(answer(alloc, host, &asked)?)),
        _ => Ok(None),
    }
}

fn arp_reply(host: &Host, mac: Mac, asker: u32, target: u32) -> [u8; 28]
    ensures { result ≡ arp_bytes (reply_packet host.now mac asker target) }
{
    let mut packet = [0; 28];
    let reply = Arp {
        op: 2,
        sha: host.mac,
        spa: target,
        tha: mac,
        tpa: asker,
    };
    write_arp(&mut packet, &reply);
    packet
}

fn advert(host: &Host, asker: u128, target: u128) -> [u8; 72]
    ensures { result ≡ advert_packet host.now asker target }
{
    let mut packet = [0; 72];
    let source = host.ip6.unwrap_or(0);
    let own = is_hosts(host, &Key::V6(target));
    let solicited = asker != 0;
    write_advert(
        &mut packet,
        source,
        advert_dest(asker),
        target,
        solicited,
        own,
        &host.mac,
    );
    packet
}

fn advert_dest(asker: u128) -> u128
    ensures { result ≡ advert_dest asker }
{
    if asker == 0 { ALL_NODES } else { asker }
}

/// A frame from the host.
fn frame(
    alloc: Global,
    dst: &Mac,
    host: &Host,
    ethertype: u16,
    packet: &[u8],
) -> Result<Bytes, AllocError>
    ensures { IfOk result (λ frame. frame ≡ eth_bytes dst.now host.now.mac ethertype ++ packet.now) }
{
    let mut header = [0; 14];
    write_eth(&mut header, dst, &host.mac, ethertype);
    let mut bytes = header.to_vec(alloc)?;
    bytes.extend_from_slice(packet)?;
    Ok(Items::from_vec(bytes))
}
