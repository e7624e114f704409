//! The types of Ethernet frames.
ghost use Rattle.std.specs.Prelude.{◌≡◌};
ghost use Rattle.link_codec.specs.EtherTypes as types;

use nb_base::Key;

/// IPv4 (RFC 894).
pub const IP4_TYPE: u16 = 0x0800;

/// ARP (RFC 826).
pub const ARP_TYPE: u16 = 0x0806;

/// IPv6 (RFC 2464 section 3).
pub const IP6_TYPE: u16 = 0x86dd;

/// The type of a packet to a key, that of the key's family.
pub fn type_for(key: &Key) -> u16
    ensures { result ≡ types.type_for key.now }
{
    match *key {
        Key::V4(_) => IP4_TYPE,
        Key::V6(_) => IP6_TYPE,
    }
}
