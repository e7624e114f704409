//! The nine checks of a packet, each by itself.
ghost use Rattle.std.specs.Prelude.{◌≡◌, ◌<◌, ◌≤◌, length, false, true};
ghost use Rattle.nd_codec.specs.Packet.{next_header_of, payload_length_of};
ghost use Rattle.nd_codec.specs.Checks.{HasMessage, IsWhole};
ghost use Rattle.nd_codec.specs.Checks as checks;

use crate::addresses::{is_group, is_solicited_node};
use crate::fields::{
    destination, message, message_checksum, option_bytes, payload_length, solicited, source, target,
};
use crate::options::{are_options, has_option};
use crate::sums::checksum_cleared;

pub(crate) const ICMP6: u8 = 58;

pub(crate) const SOLICIT: u8 = 135;

pub(crate) const ADVERT: u8 = 136;

fn is_discovery(message: &[u8]) -> bool
    requires { 0 < length message.now }
    ensures { result ≡ checks.is_discovery message.now }
{
    message[0] == SOLICIT || message[0] == ADVERT
}

#[tactic(auto, unfolding(crate::specs::Checks::has_short_message))]
fn has_short_message(packet: &[u8]) -> bool
    requires { 40 ≤ length packet.now }
    ensures { result ≡ checks.has_short_message packet.now }
{
    let length = payload_length(packet);
    packet.len() < 40 + length || 0 < length && length < 24 && is_discovery(message(packet))
}

#[tactic(auto, unfolding(crate::specs::Checks::is_short))]
pub(crate) fn is_short(packet: &[u8]) -> bool
    ensures { result ≡ checks.is_short packet.now }
{
    packet.len() < 40 || packet[0] / 16 != 6 || packet[6] == ICMP6 && has_short_message(packet)
}

#[tactic(auto, unfolding(crate::specs::Checks::is_other))]
pub(crate) fn is_other(packet: &[u8]) -> bool
    requires { IsWhole packet.now }
    ensures { result ≡ checks.is_other packet.now }
{
    packet[6] != ICMP6 || payload_length(packet) == 0 || !is_discovery(message(packet))
}

#[tactic(auto, unfolding(crate::specs::Checks::has_other_hop_limit))]
pub(crate) fn has_other_hop_limit(packet: &[u8]) -> bool
    requires { HasMessage packet.now }
    ensures { result ≡ checks.has_other_hop_limit packet.now }
{
    packet[7] != 255
}

#[tactic(auto, unfolding(crate::specs::Checks::has_other_code))]
pub(crate) fn has_other_code(packet: &[u8]) -> bool
    requires { HasMessage packet.now }
    ensures { result ≡ checks.has_other_code packet.now }
{
    message(packet)[1] != 0
}

#[tactic(auto, unfolding(crate::specs::Checks::has_other_checksum))]
pub(crate) fn has_other_checksum(packet: &[u8]) -> bool
    requires { HasMessage packet.now }
    ensures { result ≡ checks.has_other_checksum packet.now }
{
    let message = message(packet);
    message_checksum(message) != checksum_cleared(source(packet), destination(packet), message)
}

#[tactic(auto, unfolding(crate::specs::Checks::has_group_target))]
pub(crate) fn has_group_target(packet: &[u8]) -> bool
    requires { HasMessage packet.now }
    ensures { result ≡ checks.has_group_target packet.now }
{
    is_group(target(message(packet)))
}

#[tactic(auto, unfolding(crate::specs::Checks::has_other_options))]
pub(crate) fn has_other_options(packet: &[u8]) -> bool
    requires { HasMessage packet.now }
    ensures { result ≡ checks.has_other_options packet.now }
{
    !are_options(option_bytes(message(packet)))
}

#[tactic(auto, unfolding(crate::specs::Checks::is_wrongly_unspecified, crate::specs::Checks::has_other_options))]
pub(crate) fn is_wrongly_unspecified(packet: &[u8]) -> bool
    requires message { HasMessage packet.now }
    requires options { checks.has_other_options packet.now ≡ false }
    ensures { result ≡ checks.is_wrongly_unspecified packet.now }
{
    let message = message(packet);
    message[0] == SOLICIT
        && source(packet) == 0
        && (!is_solicited_node(destination(packet)) || has_option(1, option_bytes(message)))
}

#[tactic(auto, unfolding(crate::specs::Checks::is_wrongly_solicited))]
pub(crate) fn is_wrongly_solicited(packet: &[u8]) -> bool
    requires { HasMessage packet.now }
    ensures { result ≡ checks.is_wrongly_solicited packet.now }
{
    let message = message(packet);
    message[0] == ADVERT && is_group(destination(packet)) && solicited(message)
}
