//! Frames of packets, whose headers their codec writes.
ghost use Rattle.std.specs.Prelude.{◌≡◌, ◌++◌, string_bytes, OnOk};
ghost use Rattle.std.specs.Option.{option_copied};
ghost use Rattle.text_codes.specs.HexText.{hex_text};
ghost use Rattle.link_codec.specs.Ethernet.{eth_bytes};
ghost use Rattle.neigh_run.specs.Frames as frames;

use crate::words::write_hex;
use link_codec::{type_for, write_eth};
use nb_base::{Host, Mac, OpId, Plan, SendItem};
use std::alloc::AllocError;

/// The packet that an id names.
fn packet_of(plan: &Plan, id: OpId) -> Option<&SendItem>
    ensures { option_copied result ≡ frames.packet_of plan.now id }
{
    let sender = (id.0 % 32).saturating_sub(1);
    let item = (id.0 / 32).saturating_sub(1);
    let items = plan.senders.get(sender as usize)?;
    items.get(item as usize)
}

/// An Ethernet header.
pub fn write_header(
    report: &mut String,
    dst: &Mac,
    src: &Mac,
    ethertype: u16,
) -> Result<(), AllocError>
    ensures { OnOk result (string_bytes report.new ≡ string_bytes report.old ++ hex_text (eth_bytes dst.now src.now ethertype)) }
{
    let mut header = [0; 14];
    write_eth(&mut header, dst, src, ethertype);
    write_hex(report, &header)
}

/// The frame in which a packet goes from the host to a link address.
fn write_frame_to(
    report: &mut String,
    host: &Host,
    mac: &Mac,
    item: &SendItem,
) -> Result<(), AllocError>
    ensures { OnOk result (string_bytes report.new ≡ string_bytes report.old ++ hex_text (frames.frame_to host.now mac.now item.now)) }
{
    write_header(report, mac, &host.mac, type_for(&item.key))?;
    write_hex(report, item.payload.as_slice())
}

/// The frame of the packet that goes to the address.
pub fn write_sent_frame(
    report: &mut String,
    plan: &Plan,
    id: OpId,
    mac: &Mac,
) -> Result<(), AllocError>
    ensures { OnOk result (string_bytes report.new ≡ string_bytes report.old ++ hex_text (frames.sent_frame plan.now id mac.now)) }
{
    match packet_of(plan, id) {
        None => Ok(()),
        Some(item) => write_frame_to(report, &plan.host, mac, item),
    }
}
