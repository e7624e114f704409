//! Reading a packet.
ghost use Rattle.std.specs.Prelude.{◌≡◌, false};
ghost use Rattle.nd_codec.specs.Checks.{HasMessage, has_other_options};
ghost use Rattle.nd_codec.specs.Message.{advert_of, nd_of, read_of, solicit_of};

use crate::checks::{
    SOLICIT, has_group_target, has_other_checksum, has_other_code, has_other_hop_limit,
    has_other_options, is_other, is_short, is_wrongly_solicited, is_wrongly_unspecified,
};
use crate::fields::{
    destination, message, option_bytes, overrides, router, solicited, source, target,
};
use crate::options::link_address;
use crate::{Nd, NdFail};

/// The neighbour solicitation or advertisement that an IPv6 packet is, or the first check that it fails (RFC 4861 sections 7.1.1 and 7.1.2).
/// The checks are made in the order of the variants of `NdFail`. Bytes past the payload length are left unread. Takes no memory.
pub fn read_nd(packet: &[u8]) -> Result<Nd, NdFail>
    ensures { result ≡ read_of packet.now }
{
    if is_short(packet) {
        return Err(NdFail::Short);
    }
    if is_other(packet) {
        return Err(NdFail::NotIcmp);
    }
    if has_other_hop_limit(packet) {
        return Err(NdFail::HopLimit);
    }
    if has_other_code(packet) {
        return Err(NdFail::Code);
    }
    if has_other_checksum(packet) {
        return Err(NdFail::Checksum);
    }
    if has_group_target(packet) {
        return Err(NdFail::Target);
    }
    if has_other_options(packet) {
        return Err(NdFail::ZeroOption);
    }
    if is_wrongly_unspecified(packet) {
        return Err(NdFail::Unspecified);
    }
    if is_wrongly_solicited(packet) {
        return Err(NdFail::SolicitedToGroup);
    }
    Ok(nd_in(packet))
}

#[tactic(auto, unfolding(crate::specs::Message::nd_of))]
fn nd_in(packet: &[u8]) -> Nd
    requires message { HasMessage packet.now }
    requires options { has_other_options packet.now ≡ false }
    ensures { result ≡ nd_of packet.now }
{
    if message(packet)[0] == SOLICIT {
        solicit_in(packet)
    } else {
        advert_in(packet)
    }
}

#[tactic(auto, unfolding(crate::specs::Message::solicit_of, crate::specs::Checks::has_other_options))]
fn solicit_in(packet: &[u8]) -> Nd
    requires message { HasMessage packet.now }
    requires options { has_other_options packet.now ≡ false }
    ensures { result ≡ solicit_of packet.now }
{
    let message = message(packet);
    Nd::Solicit {
        source: source(packet),
        dest: destination(packet),
        target: target(message),
        lladdr: link_address(1, option_bytes(message)),
    }
}

#[tactic(auto, unfolding(crate::specs::Message::advert_of, crate::specs::Checks::has_other_options))]
fn advert_in(packet: &[u8]) -> Nd
    requires message { HasMessage packet.now }
    requires options { has_other_options packet.now ≡ false }
    ensures { result ≡ advert_of packet.now }
{
    let message = message(packet);
    Nd::Advert {
        source: source(packet),
        dest: destination(packet),
        target: target(message),
        router: router(message),
        solicited: solicited(message),
        overrides: overrides(message),
        lladdr: link_address(2, option_bytes(message)),
    }
}
