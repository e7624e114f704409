//! The writing of a file.
ghost use Rattle.std.specs.Prelude.{◌≡◌, ◌≤◌, ◌++◌, length, OnOk, IfOk};
ghost use Rattle.byteorder.specs.Endian.{big_bytes};
ghost use Rattle.pcap_records.specs.Writing.{IsFrame, AreFrames, written_record_header, written_record, written, IsCaptureOf};

use crate::capture::Frame;
use nb_base::{Bytes, Items};
use std::alloc::{AllocError, Global};

/// The header of a big-endian file of microseconds, version 2.4, with a snapshot length of 262,144 and the link type of Ethernet.
const FILE_HEADER: [u8; 24] = [
    0xa1, 0xb2, 0xc3, 0xd4, 0, 2, 0, 4, 0, 0, 0, 0, 0, 0, 0, 0, 0, 4, 0, 0, 0, 0, 0, 1,
];

fn put_u32(out: &mut Vec<u8>, number: u32) -> Result<(), AllocError>
    ensures { OnOk result (out.new.items ≡ out.old.items ++ big_bytes 4 number) }
{
    out.extend_from_slice(&number.to_be_bytes())
}

fn put_record_header(out: &mut Vec<u8>, frame: &Frame) -> Result<(), AllocError>
    requires { IsFrame frame.now }
    ensures { OnOk result (out.new.items ≡ out.old.items ++ written_record_header frame.now) }
{
    let millis = frame.at.millis();
    let len = frame.bytes.len() as u32;
    put_u32(out, (millis / 1_000) as u32)?;
    put_u32(out, (millis % 1_000 * 1_000) as u32)?;
    put_u32(out, len)?;
    put_u32(out, len)?;
    Ok(())
}

/// A record: its header, and its bytes.
#[tactic(auto, unfolding(crate::specs::Writing::written_record))]
fn put_record(out: &mut Vec<u8>, frame: &Frame) -> Result<(), AllocError>
    requires { IsFrame frame.now }
    ensures { OnOk result (out.new.items ≡ out.old.items ++ written_record frame.now) }
{
    put_record_header(out, frame)?;
    out.extend_from_slice(frame.bytes.as_slice())?;
    Ok(())
}

#[tactic(auto, unfolding(crate::specs::Writing::written))]
fn write_records(alloc: Global, frames: &[Frame]) -> Result<Bytes, AllocError>
    requires { AreFrames frames.now }
    ensures { IfOk result (λ bytes. bytes ≡ written frames.now) }
{
    let mut out = Vec::new(alloc);
    out.extend_from_slice(&FILE_HEADER)?;
    for frame in frames {
        put_record(&mut out, frame)?;
    }
    Ok(Items::from_vec(out))
}

/// The frames as a big-endian file of microseconds, whose first record is stamped 0: `read` gives their moments and bytes.
/// A file holds at most 2^18 frames of at most 262,144 bytes; the first moment is 0, none falls, and none exceeds 30 days.
pub fn write(alloc: Global, frames: &[Frame]) -> Result<Bytes, AllocError>
    requires { AreFrames frames.now }
    ensures text { IfOk result (λ bytes. bytes ≡ written frames.now) }
    ensures again { IfOk result (λ bytes. IsCaptureOf bytes frames.now) }
{
    write_records(alloc, frames)
}
