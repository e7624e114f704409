//! IPv6 addresses of groups.
ghost use Rattle.std.specs.Prelude.{◌≡◌, true};
ghost use Rattle.nd_codec.specs.Packet as packets;

pub(crate) fn is_group(address: u128) -> bool
    ensures { result ≡ packets.is_group address }
{
    address >> 120 == 0xff
}

pub(crate) fn is_solicited_node(address: u128) -> bool
    ensures { result ≡ packets.is_solicited_node address }
{
    address >> 24 == 0xff02_0000_0000_0000_0000_0001_ff
}

/// The solicited-node address of an address: the group of all that may have it (RFC 4291 section 2.7.1). Takes no memory.
pub fn solicited_node(address: u128) -> u128
    ensures value { result ≡ packets.solicited_node address }
    ensures solicited { packets.is_solicited_node result ≡ true }
    ensures group { packets.is_group result ≡ true }
{
    0xff02_0000_0000_0000_0000_0001_ff00_0000 + address % (1 << 24)
}
