//! What the first four bytes of a file show: the order of its numbers' bytes, and the unit of its fractions.
ghost use Rattle.std.specs.Prelude.{◌≡◌, ◌+◌, ◌≤◌, length, Some, None};
ghost use Rattle.pcap_records.specs.Form.{field, per_millisecond, stamp_of};
ghost use Rattle.pcap_records.specs.Reading.{form_of, unit_of};

use byteorder::{BigEndian, ByteOrder, LittleEndian};

/// The order in which the writer laid the bytes of a number.
#[derive(Clone, Copy, Debug, PartialEq, Eq)]
pub(crate) enum Order {
    /// The highest byte first.
    Big,
    /// The lowest byte first.
    Little,
}

/// What a stamp's fraction counts.
#[derive(Clone, Copy, Debug, PartialEq, Eq)]
pub(crate) enum Fraction {
    Microseconds,
    Nanoseconds,
}

/// The form of a file's numbers.
#[derive(Clone, Copy, Debug, PartialEq, Eq)]
pub(crate) struct Form {
    pub order: Order,
    pub unit: Fraction,
}

impl Order {
    /// The number in the two bytes from a place on.
    #[tactic(auto, unfolding(crate::specs::Form::field))]
    pub(crate) fn u16_at(self, bytes: &[u8], place: usize) -> u16
        requires { place + 2 ≤ length bytes.now }
        ensures { result ≡ field self 2 place bytes.now }
    {
        match self {
            Order::Big => BigEndian::read_u16(&bytes[place..]),
            Order::Little => LittleEndian::read_u16(&bytes[place..]),
        }
    }

    /// The number in the four bytes from a place on.
    #[tactic(auto, unfolding(crate::specs::Form::field))]
    pub(crate) fn u32_at(self, bytes: &[u8], place: usize) -> u32
        requires { place + 4 ≤ length bytes.now }
        ensures { result ≡ field self 4 place bytes.now }
    {
        match self {
            Order::Big => BigEndian::read_u32(&bytes[place..]),
            Order::Little => LittleEndian::read_u32(&bytes[place..]),
        }
    }
}

impl Fraction {
    /// The unit whose magic number this is.
    pub(crate) fn of_magic(number: u32) -> Option<Fraction>
        ensures { result ≡ unit_of number }
    {
        match number {
            0xa1b2_c3d4 => Some(Fraction::Microseconds),
            0xa1b2_3c4d => Some(Fraction::Nanoseconds),
            _ => None,
        }
    }

    /// How many make a millisecond.
    fn per_millisecond(self) -> u32
        ensures { result ≡ per_millisecond self }
    {
        match self {
            Fraction::Microseconds => 1_000,
            Fraction::Nanoseconds => 1_000_000,
        }
    }
}

impl Form {
    /// The form that the first four bytes show, `None` where they are no magic number.
    #[tactic(auto, unfolding(crate::specs::Reading::form_of))]
    pub(crate) fn of_magic(bytes: &[u8]) -> Option<Form>
        requires { 4 ≤ length bytes.now }
        ensures { result ≡ form_of bytes.now }
    {
        if let Some(unit) = Fraction::of_magic(Order::Big.u32_at(bytes, 0)) {
            return Some(Form {
                order: Order::Big,
                unit,
            });
        }
        let unit = Fraction::of_magic(Order::Little.u32_at(bytes, 0))?;
        Some(Form {
            order: Order::Little,
            unit,
        })
    }

    /// The stamp in a record's header, in milliseconds rounded down.
    #[tactic(auto, unfolding(crate::specs::Form::stamp_of))]
    pub(crate) fn stamp(self, header: &[u8]) -> u64
        requires { 16 ≤ length header.now }
        ensures { result ≡ stamp_of self header.now }
    {
        let seconds = u64::from(self.order.u32_at(header, 0));
        let fraction = self.order.u32_at(header, 4) / self.unit.per_millisecond();
        seconds * 1_000 + u64::from(fraction)
    }
}
