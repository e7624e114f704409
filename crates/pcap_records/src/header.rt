//! The header of a file.
ghost use Rattle.std.specs.Prelude.{◌≡◌, ◌≤◌, length, OnOk};
ghost use Rattle.pcap_records.specs.Reading.{checked, header_of};

use crate::fail::CaptureFail;
use crate::form::{Form, Order};

/// The bytes of a file's header.
pub(crate) const HEADER: usize = 24;

/// The link type of Ethernet.
const ETHERNET: u32 = 1;

/// The form that a whole header shows: its magic number, its version and its link type are checked in this order.
#[tactic(auto, unfolding(crate::specs::Reading::header_of))]
pub(crate) fn read_header(bytes: &[u8]) -> Result<Form, CaptureFail>
    ensures value { result ≡ header_of bytes.now }
    ensures whole { OnOk result (24 ≤ length bytes.now) }
{
    if bytes.len() < HEADER {
        return Err(CaptureFail::ShortHeader);
    }
    match Form::of_magic(bytes) {
        None => Err(CaptureFail::BadMagic(Order::Big.u32_at(bytes, 0))),
        Some(form) => check_version(form, bytes),
    }
}

#[tactic(auto, unfolding(crate::specs::Reading::checked))]
fn check_version(form: Form, header: &[u8]) -> Result<Form, CaptureFail>
    requires { 24 ≤ length header.now }
    ensures { result ≡ checked form header.now }
{
    let major = form.order.u16_at(header, 4);
    let minor = form.order.u16_at(header, 6);
    if !(major == 2 && minor == 4) {
        return Err(CaptureFail::BadVersion(major, minor));
    }
    let link = form.order.u32_at(header, 20);
    if link % 65_536 != ETHERNET {
        return Err(CaptureFail::BadLink(link));
    }
    Ok(form)
}
