//! The fields of a packet and of the message in it.
ghost use Rattle.std.specs.Prelude.{◌≡◌, ◌+◌, ◌<◌, ◌≤◌, ◌^◌, ◌==◌, length, drop};
ghost use Rattle.std.specs.Int.{bit_at};
ghost use Rattle.byteorder.specs.Endian.{big_number};
ghost use Rattle.nd_codec.specs.Packet.{payload_length_of, source_of, destination_of, message_of, checksum_in, target_of};
ghost use Rattle.nd_codec.specs.Packet as packets;

use byteorder::{BigEndian, ByteOrder};

#[tactic(auto, using(std::proofs::lemmas::List::take_rest))]
fn u16_at(bytes: &[u8], place: usize) -> u16
    requires { place + 2 ≤ length bytes.now }
    ensures { result ≡ big_number 2 (drop place bytes.now) }
{
    BigEndian::read_u16(&bytes[place..])
}

#[tactic(auto, using(std::proofs::lemmas::List::take_rest))]
fn u128_at(bytes: &[u8], place: usize) -> u128
    requires { place + 16 ≤ length bytes.now }
    ensures { result ≡ big_number 16 (drop place bytes.now) }
{
    BigEndian::read_u128(&bytes[place..])
}

#[tactic(auto, unfolding(crate::specs::Packet::payload_length_of))]
pub(crate) fn payload_length(packet: &[u8]) -> usize
    requires { 40 ≤ length packet.now }
    ensures value { result ≡ payload_length_of packet.now }
    ensures small { result < 2 ^ 16 }
{
    usize::from(u16_at(packet, 4))
}

#[tactic(auto, unfolding(crate::specs::Packet::source_of))]
pub(crate) fn source(packet: &[u8]) -> u128
    requires { 40 ≤ length packet.now }
    ensures { result ≡ source_of packet.now }
{
    u128_at(packet, 8)
}

#[tactic(auto, unfolding(crate::specs::Packet::destination_of))]
pub(crate) fn destination(packet: &[u8]) -> u128
    requires { 40 ≤ length packet.now }
    ensures { result ≡ destination_of packet.now }
{
    u128_at(packet, 24)
}

/// The payload; bytes past it are left unread.
#[tactic(auto, unfolding(crate::specs::Packet::message_of))]
pub(crate) fn message(packet: &[u8]) -> &[u8]
    requires { 40 + payload_length_of packet.now ≤ length packet.now }
    ensures value { result.now ≡ message_of packet.now }
    ensures len { length result.now ≡ payload_length_of packet.now }
    ensures small { length result.now < 2 ^ 16 }
{
    let end = 40 + payload_length(packet);
    &packet[40..end]
}

#[tactic(auto, unfolding(crate::specs::Packet::checksum_in))]
pub(crate) fn message_checksum(message: &[u8]) -> u16
    requires { 4 ≤ length message.now }
    ensures { result ≡ checksum_in message.now }
{
    u16_at(message, 2)
}

#[tactic(auto, unfolding(crate::specs::Packet::target_of))]
pub(crate) fn target(message: &[u8]) -> u128
    requires { 24 ≤ length message.now }
    ensures { result ≡ target_of message.now }
{
    u128_at(message, 8)
}

#[tactic(auto, using(std::proofs::lemmas::Nat::Bits::shr_and_one))]
fn has_bit(byte: u8, place: u32) -> bool
    requires { place < 8 }
    ensures { result ≡ (bit_at byte place == 1) }
{
    (byte >> place) & 1 == 1
}

pub(crate) fn router(message: &[u8]) -> bool
    requires { 24 ≤ length message.now }
    ensures { result ≡ packets.router_of message.now }
{
    has_bit(message[4], 7)
}

pub(crate) fn solicited(message: &[u8]) -> bool
    requires { 24 ≤ length message.now }
    ensures { result ≡ packets.solicited_of message.now }
{
    has_bit(message[4], 6)
}

pub(crate) fn overrides(message: &[u8]) -> bool
    requires { 24 ≤ length message.now }
    ensures { result ≡ packets.override_of message.now }
{
    has_bit(message[4], 5)
}

pub(crate) fn option_bytes(message: &[u8]) -> &[u8]
    requires { 24 ≤ length message.now }
    ensures { result.now ≡ packets.option_bytes_of message.now }
{
    let (_, options) = message.split_at(24);
    options
}
