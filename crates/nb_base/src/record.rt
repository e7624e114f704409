//! What a header cell publishes, and the two numbers that it is kept as.
ghost use Rattle.std.specs.Prelude.{◌≡◌, ℕ, ◌/◌, ◌%◌, ◌^◌, ◌<◌, ◌≤◌, ◌++◌, ◌↔◌, length, take, Some, IfSome, IsSome};
ghost use Rattle.std.specs.Int.{w64, to_be_bytes};
ghost use Rattle.nb_base.specs.Usable.{usable_in};

/// What a neighbour's header cell publishes: the Ethernet header of packets to it (destination, source, type), usable or not.
#[derive(Clone, Copy, Debug, PartialEq, Eq)]
pub struct Record {
    pub usable: bool,
    pub header: [u8; 14],
}

impl Record {
    ghost use Rattle.nb_base.specs.declared.record.Record.{Record};
    ghost use Rattle.nb_base.specs.Words.{AreWords, record_bytes};

    /// The record as two numbers: its sixteen bytes are the header's fourteen, 1 or 0 for `usable`, and a zero, and each number has eight of them, the most significant first.
    /// Takes no memory.
    pub fn words(&self) -> (u64, u64)
        ensures spelled { AreWords result.0 result.1 self.now }
        ensures only { (a b : ℕ) → a < 2 ^ 64 → b < 2 ^ 64 → AreWords a b self.now → (result.0 ≡ a) × (result.1 ≡ b) }
    {
        let bytes = self.bytes();
        (word(&bytes[..8]), word(&bytes[8..]))
    }

    /// The record that these two numbers are, as `words` gives them. `None` exactly where the fifteenth byte is above 1 or the sixteenth isn't 0.
    /// Takes no memory.
    pub fn of_words(a: u64, b: u64) -> Option<Record>
        ensures found { IfSome result (AreWords a b) }
        ensures only { (r : Record) → AreWords a b r → result ≡ Some r }
        ensures some { IsSome result ↔ ((b / 256 % 256 ≤ 1) × (b % 256 ≡ 0)) }
    {
        let usable = usable_of(b)?;
        let header = header_of(a, b);
        Some(Record { usable, header })
    }

    fn bytes(&self) -> [u8; 16]
        ensures { result ≡ record_bytes self.now }
    {
        let mut bytes = [0; 16];
        bytes[..14].copy_from_slice(&self.header);
        bytes[14] = u8::from(self.usable);
        bytes
    }
}

/// The number whose bytes these are, the most significant first.
fn word(bytes: &[u8]) -> u64
    requires { length bytes.now ≡ 8 }
    ensures spelled { to_be_bytes w64 result ≡ bytes.now }
    ensures fits { result < 2 ^ 64 }
{
    let mut word = [0; 8];
    word.copy_from_slice(bytes);
    u64::from_be_bytes(word)
}

/// What the last two bytes of the second number say.
fn usable_of(b: u64) -> Option<bool>
    ensures { result ≡ usable_in b }
{
    match b % 0x1_0000 {
        0 => Some(false),
        0x100 => Some(true),
        _ => None,
    }
}

/// The first fourteen bytes of the two numbers.
fn header_of(a: u64, b: u64) -> [u8; 14]
    ensures { result ≡ to_be_bytes w64 a ++ take 6 (to_be_bytes w64 b) }
{
    let mut header = [0; 14];
    header[..8].copy_from_slice(&a.to_be_bytes());
    header[8..].copy_from_slice(&b.to_be_bytes()[..6]);
    header
}
