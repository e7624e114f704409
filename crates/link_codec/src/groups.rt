//! Link addresses of groups.
ghost use Rattle.std.specs.Prelude.{◌≡◌};
ghost use Rattle.link_codec.specs.Groups as groups;

use nb_base::Mac;

/// The address of all hosts on a link (IEEE 802.3 section 3.2.3).
pub const EVERYONE: Mac = Mac([0xff; 6]);

/// The Ethernet address of an IPv6 group: 33:33 and the group's low 32 bits (RFC 2464 section 7). Takes no memory.
pub fn group_mac(group: u128) -> Mac
    ensures { result ≡ groups.group_mac group }
{
    let [first, second, third, last] = ((group % (1 << 32)) as u32).to_be_bytes();
    Mac([0x33, 0x33, first, second, third, last])
}
