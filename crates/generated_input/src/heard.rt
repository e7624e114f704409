//! The records of a generated capture.
ghost use Rattle.std.specs.Prelude.{◌≡◌, ◌<◌, IfOk, OnOk};
ghost use Rattle.generated_input.specs.Draws.{next_state, state_after, drawn};
ghost use Rattle.generated_input.specs.Heard as of;

use crate::draws::Draws;
use link_codec::{ARP_TYPE, Arp, EVERYONE, write_arp, write_eth};
use nb_base::{Bytes, Host, Items, Mac, Moment, Name};
use pcap_records::Frame;
use std::alloc::{AllocError, Global};

/// How many records there are.
pub(crate) const RECORDS: u64 = 10_000;

/// 10.0.0.2
const HOST_IP4: u32 = 0x0a00_0002;

/// 02:00:00:00:00:02
const HOST_MAC: Mac = Mac([2, 0, 0, 0, 0, 2]);

/// The host, at its device eth0.
pub(crate) fn host() -> Host
    ensures { result ≡ of.host }
{
    let Some(dev) = Name::read(b"eth0") else {
        unreachable!()
    };
    Host {
        dev,
        mac: HOST_MAC,
        ip4: Some(HOST_IP4),
        ip6: None,
    }
}

/// 10.0.1.d
pub(crate) fn neighbour_ip4(d: u8) -> u32
    ensures { result ≡ of.neighbour_ip4 d }
{
    0x0a00_0100 + u32::from(d)
}

/// 02:00:00:00:03:d
fn neighbour_mac(d: u8) -> Mac
    ensures { result ≡ of.neighbour_mac d }
{
    Mac([2, 0, 0, 0, 3, d])
}

/// The neighbour asks for the host's link address (RFC 826).
fn request(d: u8) -> Arp
    ensures { result ≡ of.request d }
{
    Arp {
        op: 1,
        sha: neighbour_mac(d),
        spa: neighbour_ip4(d),
        tha: Mac([0; 6]),
        tpa: HOST_IP4,
    }
}

/// The neighbour answers the host.
fn reply(d: u8) -> Arp
    ensures { result ≡ of.reply d }
{
    Arp {
        op: 2,
        sha: neighbour_mac(d),
        spa: neighbour_ip4(d),
        tha: HOST_MAC,
        tpa: HOST_IP4,
    }
}

/// A packet's frame, without padding.
fn frame_to(alloc: Global, dst: &Mac, arp: &Arp) -> Result<Bytes, AllocError>
    ensures { IfOk result (λ bytes. bytes ≡ of.frame_to dst.now arp.now) }
{
    let mut header = [0; 14];
    write_eth(&mut header, dst, &arp.sha, ARP_TYPE);
    let mut packet = [0; 28];
    write_arp(&mut packet, arp);
    let mut bytes = Vec::new(alloc);
    bytes.extend_from_slice(&header)?;
    bytes.extend_from_slice(&packet)?;
    Ok(Items::from_vec(bytes))
}

/// A request goes to everyone, and a reply to the host.
fn heard_bytes(alloc: Global, asks: bool, d: u8) -> Result<Bytes, AllocError>
    ensures { IfOk result (λ bytes. bytes ≡ of.heard_bytes asks d) }
{
    if asks {
        frame_to(alloc, &EVERYONE, &request(d))
    } else {
        frame_to(alloc, &HOST_MAC, &reply(d))
    }
}

/// The record at this place, counted from 0: the first draw says whose it is, and the second whether it is a request.
fn heard_at(alloc: Global, draws: &mut Draws, place: u64) -> Result<Frame, AllocError>
    requires { place < 10000 }
    ensures frame { IfOk result (λ frame. frame ≡ of.heard_by place (drawn (next_state draws.old.state)) (drawn (next_state (next_state draws.old.state)))) }
    ensures draws { draws.new.state ≡ next_state (next_state draws.old.state) }
{
    let neighbour = draws.neighbour();
    let asks = draws.next() % 4 == 0;
    Ok(Frame {
        at: Moment(10 * place),
        bytes: heard_bytes(alloc, asks, neighbour)?,
    })
}

/// All records.
#[tactic(auto, using(crate::proofs::Growing::none_heard, crate::proofs::Growing::heard_more, crate::proofs::States::none_drawn, crate::proofs::States::two_more))]
pub(crate) fn heard(alloc: Global, draws: &mut Draws) -> Result<Items<Frame>, AllocError>
    ensures frames { IfOk result (λ frames. frames ≡ of.heard 10000 draws.old.state) }
    ensures draws { OnOk result (draws.new.state ≡ state_after 20000 draws.old.state) }
{
    let mut frames = Items::new(alloc);
    for place in 0..RECORDS {
        frames.push(heard_at(alloc, draws, place)?)?;
    }
    Ok(frames)
}
