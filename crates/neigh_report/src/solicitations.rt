//! Frames of solicitations, written by their codecs.
ghost use Rattle.std.specs.Prelude.{◌≡◌, ◌++◌, string_bytes, unwrap_or, OnOk};
ghost use Rattle.text_codes.specs.HexText.{hex_text};
ghost use Rattle.link_codec.specs.Arp.{arp_bytes};
ghost use Rattle.nd_codec.specs.Spelling.{solicit_bytes};
ghost use Rattle.neigh_run.specs.Frames as frames;

use crate::frames::write_header;
use crate::words::write_hex;
use link_codec::{ARP_TYPE, Arp, EVERYONE, IP6_TYPE, group_mac, write_arp};
use nb_base::{Host, Key, Mac};
use nd_codec::{solicited_node, write_solicit};
use std::alloc::AllocError;

/// The host asks who has the address.
fn request_for(host: &Host, address: u32) -> Arp
    ensures { result ≡ frames.request_for host.now address }
{
    Arp {
        op: 1,
        sha: host.mac,
        spa: host.ip4.unwrap_or(0),
        tha: Mac([0; 6]),
        tpa: address,
    }
}

fn request_packet(host: &Host, address: u32) -> [u8; 28]
    ensures { result ≡ arp_bytes (frames.request_for host.now address) }
{
    let mut packet = [0; 28];
    write_arp(&mut packet, &request_for(host, address));
    packet
}

/// The frame in which an ARP request goes from the host to a link address.
fn write_request(
    report: &mut String,
    host: &Host,
    mac: &Mac,
    address: u32,
) -> Result<(), AllocError>
    ensures { OnOk result (string_bytes report.new ≡ string_bytes report.old ++ hex_text (frames.request_frame host.now mac.now address)) }
{
    let packet = request_packet(host, address);
    write_header(report, mac, &host.mac, ARP_TYPE)?;
    write_hex(report, &packet)
}

fn solicit_packet(host: &Host, destination: u128, address: u128) -> [u8; 72]
    ensures { result ≡ solicit_bytes (unwrap_or host.now.ip6 0) destination address host.now.mac }
{
    let source = host.ip6.unwrap_or(0);
    let mut packet = [0; 72];
    write_solicit(&mut packet, source, destination, address, &host.mac);
    packet
}

/// The frame in which a neighbour solicitation for the address goes from the host to an IPv6 destination at a link address.
fn write_neighbour_frame(
    report: &mut String,
    host: &Host,
    mac: &Mac,
    destination: u128,
    address: u128,
) -> Result<(), AllocError>
    ensures { OnOk result (string_bytes report.new ≡ string_bytes report.old ++ hex_text (frames.neighbour_frame host.now mac.now destination address)) }
{
    let packet = solicit_packet(host, destination, address);
    write_header(report, mac, &host.mac, IP6_TYPE)?;
    write_hex(report, &packet)
}

/// The frame that asks an address's solicited-node group for it.
fn write_to_its_group(report: &mut String, host: &Host, address: u128) -> Result<(), AllocError>
    ensures { OnOk result (string_bytes report.new ≡ string_bytes report.old ++ hex_text (frames.group_solicitation host.now (Key.V6 address))) }
{
    let group = solicited_node(address);
    write_neighbour_frame(report, host, &group_mac(group), group, address)
}

/// The frame that asks for a key among all that may have it.
pub fn write_group_solicitation(
    report: &mut String,
    host: &Host,
    key: &Key,
) -> Result<(), AllocError>
    ensures { OnOk result (string_bytes report.new ≡ string_bytes report.old ++ hex_text (frames.group_solicitation host.now key.now)) }
{
    match *key {
        Key::V4(address) => write_request(report, host, &EVERYONE, address),
        Key::V6(address) => write_to_its_group(report, host, address),
    }
}

/// The frame that asks for a key at the link address of its entry.
pub fn write_unicast_solicitation(
    report: &mut String,
    host: &Host,
    key: &Key,
    mac: &Mac,
) -> Result<(), AllocError>
    ensures { OnOk result (string_bytes report.new ≡ string_bytes report.old ++ hex_text (frames.unicast_solicitation host.now key.now mac.now)) }
{
    match *key {
        Key::V4(address) => write_request(report, host, mac, address),
        Key::V6(address) => write_neighbour_frame(report, host, mac, address, address),
    }
}
