//! Why a file isn't a capture.
ghost use Rattle.std.specs.Prelude.{◌≡◌};
ghost use Rattle.pcap_records.specs.Fail.{code_of, place_of};
ghost use Rattle.pcap_records.specs.declared.fail.CaptureFail.TheVariants.{Memory};

use std::alloc::{AllocError, AllocFailed};

/// The first check that a file fails, in the order of its bytes. A record's place is the one at which its header begins.
#[derive(Clone, Copy, Debug, PartialEq, Eq)]
pub enum CaptureFail {
    /// Fewer than 24 bytes.
    ShortHeader,
    /// The first four bytes, as a big-endian number, are no magic number in either order.
    BadMagic(u32),
    /// The version, major and minor, isn't 2.4.
    BadVersion(u16, u16),
    /// The low 16 bits of this link type aren't those of Ethernet.
    BadLink(u32),
    /// The file ends within the record at this place.
    ShortRecord(usize),
    /// The record at this place has so many captured bytes, more than 262,144.
    HugeRecord(usize, u32),
    /// Bytes stand at this place, behind 2^18 records.
    TooMany(usize),
    /// The moment of the record at this place exceeds 30 days.
    SpanTooLong(usize),
    /// Want of memory.
    Memory,
}

impl CaptureFail {
    /// The refusal's number, 1 to 9.
    pub fn code(self) -> u8
        ensures { result ≡ code_of self }
    {
        match self {
            CaptureFail::ShortHeader => 1,
            CaptureFail::BadMagic(_) => 2,
            CaptureFail::BadVersion(..) => 3,
            CaptureFail::BadLink(_) => 4,
            CaptureFail::ShortRecord(_) => 5,
            CaptureFail::HugeRecord(..) => 6,
            CaptureFail::TooMany(_) => 7,
            CaptureFail::SpanTooLong(_) => 8,
            CaptureFail::Memory => 9,
        }
    }

    /// Where the field stands that is wrong, or the record begins; 0 for want of memory.
    pub fn place(self) -> usize
        ensures { result ≡ place_of self }
    {
        match self {
            CaptureFail::ShortHeader | CaptureFail::BadMagic(_) | CaptureFail::Memory => 0,
            CaptureFail::BadVersion(..) => 4,
            CaptureFail::BadLink(_) => 20,
            CaptureFail::ShortRecord(place)
            | CaptureFail::HugeRecord(place, _)
            | CaptureFail::TooMany(place)
            | CaptureFail::SpanTooLong(place) => place,
        }
    }
}

impl From<AllocError> for CaptureFail {
    ghost from_gives = { λ _ e. e ≡ Memory };

    fn from(_e: AllocError) -> CaptureFail {
        CaptureFail::Memory
    }
}

impl<T: Drop> From<AllocFailed<T>> for CaptureFail {
    ghost from_gives = { λ _ e. e ≡ Memory };

    fn from(_e: AllocFailed<T>) -> CaptureFail {
        CaptureFail::Memory
    }
}
