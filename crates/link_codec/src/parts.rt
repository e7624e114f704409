//! Addresses and numbers at the front of bytes, numbers with their most significant byte first.
ghost use Rattle.std.specs.Prelude.{◌≡◌, ℕ, ◌+◌, ◌<◌, ◌≤◌, ◌^◌, ◌++◌, length, take};
ghost use Rattle.std.specs.Int.{w16, w32, to_be_bytes};

use byteorder::{BigEndian, ByteOrder};
use nb_base::Mac;

/// The address in the first six bytes, and the bytes behind it.
pub(crate) fn take_mac(bytes: &[u8]) -> (Mac, &[u8])
    requires { 6 ≤ length bytes.now }
    ensures front { bytes.now ≡ result.0.0 ++ result.1.now }
    ensures size { length result.0.0 ≡ 6 }
    ensures rest { length result.1.now + 6 ≡ length bytes.now }
{
    let (front, rest) = bytes.split_at(6);
    let mut mac = [0; 6];
    mac.copy_from_slice(front);
    (Mac(mac), rest)
}

/// The number in the first two bytes, and the bytes behind it.
pub(crate) fn take_u16(bytes: &[u8]) -> (u16, &[u8])
    requires { 2 ≤ length bytes.now }
    ensures front { bytes.now ≡ to_be_bytes w16 result.0 ++ result.1.now }
    ensures fits { result.0 < 2 ^ 16 }
    ensures rest { length result.1.now + 2 ≡ length bytes.now }
{
    let (front, rest) = bytes.split_at(2);
    (BigEndian::read_u16(front), rest)
}

/// The number in the first four bytes, and the bytes behind it.
pub(crate) fn take_u32(bytes: &[u8]) -> (u32, &[u8])
    requires { 4 ≤ length bytes.now }
    ensures front { bytes.now ≡ to_be_bytes w32 result.0 ++ result.1.now }
    ensures fits { result.0 < 2 ^ 32 }
    ensures rest { length result.1.now + 4 ≡ length bytes.now }
{
    let (front, rest) = bytes.split_at(4);
    (BigEndian::read_u32(front), rest)
}

/// Writes the bytes from this place on. What stands before it stays.
pub(crate) fn put<const N: usize>(into: &mut [u8; N], from: usize, bytes: &[u8])
    requires { from + length bytes.now ≤ N }
    ensures { (end : ℕ) → end ≡ from + length bytes.now → take end into.new ≡ take from into.old ++ bytes.now }
{
    let all = &mut into[..];
    all[from..from + bytes.len()].copy_from_slice(bytes);
}
