//! The reading of a file.
ghost use Rattle.std.specs.Prelude.{◌≡◌, ◌≢◌, ◌+◌, ◌^◌, ◌≤◌, ◌<◌, List, length, drop, Ok, Err, IfOk, IfErr};
ghost use Rattle.pcap_records.specs.declared.capture.Rec.{Rec};
ghost use Rattle.pcap_records.specs.declared.fail.CaptureFail.{CaptureFail};
ghost use Rattle.pcap_records.specs.Capture.{IsCapture, AreBounded, IsRefusal, Answers};
ghost use Rattle.pcap_records.specs.Reading.{len_at, record_at, records_from, capture_of, start_clock};

use crate::capture::{Capture, Rec};
use crate::clock::Clock;
use crate::fail::CaptureFail;
use crate::form::Form;
use crate::header::{HEADER, read_header};
use nb_base::{Items, Moment};
use std::alloc::Global;

/// The bytes of a record's header.
const RECORD_HEADER: usize = 16;

/// The most records of a file.
const MOST_RECORDS: usize = 262_144;

/// The most captured bytes of a record.
const MOST_CAPTURED: u32 = 262_144;

/// The captured length of the record that begins the rest, once its header and its captured bytes are there.
#[tactic(auto, unfolding(crate::specs::Reading::len_at))]
fn read_len(form: Form, place: usize, rest: &[u8]) -> Result<usize, CaptureFail>
    ensures value { result ≡ len_at form place rest.now }
    ensures within { IfOk result (λ len. 16 + len ≤ length rest.now) }
{
    if rest.len() < RECORD_HEADER {
        return Err(CaptureFail::ShortRecord(place));
    }
    let len = form.order.u32_at(rest, 8);
    if len > MOST_CAPTURED {
        return Err(CaptureFail::HugeRecord(place, len));
    }
    let captured = len as usize;
    if rest.len() - RECORD_HEADER < captured {
        return Err(CaptureFail::ShortRecord(place));
    }
    Ok(captured)
}

/// The record that begins the rest, and the clock behind it.
#[tactic(auto, unfolding(crate::specs::Reading::record_at))]
fn read_record(
    form: Form,
    clock: Clock,
    place: usize,
    rest: &[u8],
) -> Result<(Rec, Clock), CaptureFail>
    requires { place + length rest.now < 2 ^ 64 }
    ensures value { result ≡ record_at form clock place rest.now }
    ensures within { IfOk result (λ one. 16 + one.0.len ≤ length rest.now) }
{
    let len = read_len(form, place, rest)?;
    let clock = clock.after(form.stamp(rest));
    if clock.last > Moment::GREATEST {
        return Err(CaptureFail::SpanTooLong(place));
    }
    let record = Rec {
        at: Moment(clock.last),
        start: place + RECORD_HEADER,
        len,
    };
    Ok((record, clock))
}

/// The bytes from a place on.
fn rest_from(bytes: &[u8], place: usize) -> &[u8]
    requires { place ≤ length bytes.now }
    ensures { result.now ≡ drop place bytes.now }
{
    &bytes[place..]
}

/// The records of all of these bytes, which stand behind a file's header.
fn read_records(alloc: Global, form: Form, bytes: &[u8]) -> Result<Capture, CaptureFail>
    requires { 24 + length bytes.now < 2 ^ 64 }
    ensures { Answers result (records_from form 262144 start_clock 24 bytes.now) }
{
    let mut records = Items::new(alloc);
    let mut clock = Clock::new();
    let mut place = HEADER;
    let mut rest = bytes;
    while !rest.is_empty() {
        if records.len() == MOST_RECORDS {
            return Err(CaptureFail::TooMany(place));
        }
        let (record, next) = read_record(form, clock, place, rest)?;
        place += RECORD_HEADER + record.len;
        rest = rest_from(rest, RECORD_HEADER + record.len);
        clock = next;
        records.push(record)?;
    }
    Ok(records)
}

#[tactic(auto, unfolding(crate::specs::Reading::capture_of))]
fn read_whole(alloc: Global, bytes: &[u8]) -> Result<Capture, CaptureFail>
    ensures { Answers result (capture_of bytes.now) }
{
    let form = read_header(bytes)?;
    read_records(alloc, form, rest_from(bytes, HEADER))
}

/// The records of a capture file, with the places of their captured bytes, of which none is copied: it goes over the records once.
/// The refusal is the first check that fails, in the order of the file's bytes (draft-ietf-opsawg-pcap; the limits are this project's own).
pub fn read(alloc: Global, bytes: &[u8]) -> Result<Capture, CaptureFail>
    // What is read is a capture with these records.
    ensures found { IfOk result (λ records. IsCapture bytes.now records) }
    // Its records lie within the file, in the order of their moments.
    ensures bounded { IfOk result (λ records. AreBounded (length bytes.now) records) }
    // A capture is read, with its records, unless memory runs out.
    ensures only { (records : List Rec) → IsCapture bytes.now records → Answers result (Ok records) }
    // A refusal other than want of memory is the file's.
    ensures refused { IfErr result (λ fail. fail ≢ CaptureFail.Memory → IsRefusal bytes.now fail) }
    // What has a refusal is refused so, unless memory runs out.
    ensures always { (fail : CaptureFail) → IsRefusal bytes.now fail → Answers result (Err fail) }
{
    read_whole(alloc, bytes)
}
