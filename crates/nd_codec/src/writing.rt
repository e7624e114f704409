//! Writing a packet.
ghost use Rattle.std.specs.Prelude.{◌≡◌, ◌≢◌, ◌≤◌, ◌&&◌, ◌++◌, false, Some, Ok, length, take, drop};
ghost use Rattle.byteorder.specs.Endian.{big_bytes};
ghost use Rattle.nd_codec.specs.Packet.{is_group};
ghost use Rattle.nd_codec.specs.Message.{read_of};
ghost use Rattle.nd_codec.specs.Spelling.{advert_bytes, flags_of, header_bytes, link_option, message_bytes, packet_bytes, solicit_bytes};
ghost use Rattle.nd_codec.specs.declared.message.Nd.TheVariants as nd;

use crate::checks::{ADVERT, ICMP6, SOLICIT};
use crate::sums::checksum;
use nb_base::Mac;

/// What a written message has beside its checksum. `option` is the type of its one option.
#[derive(Clone, Copy)]
struct Body {
    kind: u8,
    flags: u8,
    target: u128,
    option: u8,
    lladdr: Mac,
}

/// Fills the array with a neighbour solicitation for `target` (RFC 4861 section 4.3), an IPv6 packet from `source` to `dest`
/// with traffic class 0, flow label 0, hop limit 255 and the source's link address as its one option.
/// It is read again as written where `source` isn't `::` and `target` is no group. Takes no memory.
#[tactic(auto, unfolding(crate::specs::Spelling::solicit_bytes))]
pub fn write_solicit(into: &mut [u8; 72], source: u128, dest: u128, target: u128, lladdr: &Mac)
    ensures bytes { into.new ≡ solicit_bytes source dest target lladdr.now }
    ensures again { source ≢ 0 → is_group target ≡ false
        → read_of into.new ≡ Ok (nd.Solicit source dest target (Some lladdr.now)) }
{
    let body = Body {
        kind: SOLICIT,
        flags: 0,
        target,
        option: 1,
        lladdr: *lladdr,
    };
    write_packet(into, source, dest, &body);
}

/// Fills the array with a neighbour advertisement of `target` (RFC 4861 section 4.4), an IPv6 packet from `source` to `dest`
/// with traffic class 0, flow label 0, hop limit 255, a clear router flag and the target's link address as its one option.
/// It is read again as written where `target` is no group, and `dest` is none or `solicited` is false. Takes no memory.
#[tactic(auto, unfolding(crate::specs::Spelling::advert_bytes))]
pub fn write_advert(
    into: &mut [u8; 72],
    source: u128,
    dest: u128,
    target: u128,
    solicited: bool,
    overrides: bool,
    lladdr: &Mac,
)
    ensures bytes { into.new ≡ advert_bytes source dest target solicited overrides lladdr.now }
    ensures again { is_group target ≡ false → (solicited && is_group dest) ≡ false
        → read_of into.new ≡ Ok (nd.Advert source dest target false solicited overrides (Some lladdr.now)) }
{
    let body = Body {
        kind: ADVERT,
        flags: flags(solicited, overrides),
        target,
        option: 2,
        lladdr: *lladdr,
    };
    write_packet(into, source, dest, &body);
}

/// The flags S and O in their places, with R clear.
fn flags(solicited: bool, overrides: bool) -> u8
    ensures { result ≡ flags_of solicited overrides }
{
    let s = if solicited { 0x40 } else { 0 };
    let o = if overrides { 0x20 } else { 0 };
    s + o
}

/// The header, and the message with the checksum of itself with the checksum as zero.
fn write_packet(into: &mut [u8; 72], source: u128, dest: u128, body: &Body)
    ensures address { length body.now.lladdr.0 ≡ 6 }
    ensures bytes { into.new ≡ packet_bytes source dest body.now.kind body.now.flags body.now.target (link_option body.now.option body.now.lladdr) }
{
    let (header, message) = into.split_at_mut(40);
    write_header(header, source, dest);
    write_message(message, body);
    let sum = checksum(source, dest, message);
    put_checksum(message, sum);
}

/// The checksum goes into its two bytes.
fn put_checksum(message: &mut [u8], checksum: u16)
    requires { 4 ≤ length message.old }
    ensures { message.new ≡ take 2 message.old ++ (big_bytes 2 checksum ++ drop 4 message.old) }
{
    message[2..4].copy_from_slice(&checksum.to_be_bytes());
}

#[tactic(auto, unfolding(crate::specs::Spelling::header_bytes))]
fn write_header(into: &mut [u8], source: u128, dest: u128)
    requires { length into.old ≡ 40 }
    ensures { into.new ≡ header_bytes source dest 32 }
{
    let (start, addresses) = into.split_at_mut(8);
    start.copy_from_slice(&[0x60, 0, 0, 0, 0, 32, ICMP6, 255]);
    let (from, to) = addresses.split_at_mut(16);
    from.copy_from_slice(&source.to_be_bytes());
    to.copy_from_slice(&dest.to_be_bytes());
}

/// The message with a checksum of zero.
#[tactic(auto, unfolding(crate::specs::Spelling::message_bytes))]
fn write_message(into: &mut [u8], body: &Body)
    requires { length into.old ≡ 32 }
    ensures address { length body.now.lladdr.0 ≡ 6 }
    ensures bytes { into.new ≡ message_bytes body.now.kind 0 body.now.flags body.now.target (link_option body.now.option body.now.lladdr) }
{
    let (start, rest) = into.split_at_mut(8);
    start.copy_from_slice(&[body.kind, 0, 0, 0, body.flags, 0, 0, 0]);
    let (target, option) = rest.split_at_mut(16);
    target.copy_from_slice(&body.target.to_be_bytes());
    let (head, lladdr) = option.split_at_mut(2);
    head.copy_from_slice(&[body.option, 1]);
    lladdr.copy_from_slice(&body.lladdr.0);
}
