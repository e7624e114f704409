//! What a word is read as at its place.
ghost use Rattle.std.specs.Prelude.{◌≡◌, ◌∷◌, [], true, length, IfOk};
ghost use Rattle.std.specs.Int.{IsInRange};
ghost use Rattle.nb_base.specs.Name.{is_name};
ghost use Rattle.nb_base.specs.Address as address;
ghost use Rattle.neigh_script.specs.Parameter.{least, greatest};
ghost use Rattle.neigh_script.specs.Limits.{is_given_state};
ghost use Rattle.nb_base.specs.Parts.{hex_byte_of};
ghost use Rattle.text_codes.specs.HexText.{hex_bytes_of};
ghost use Rattle.neigh_script.specs.Fields as fields;
ghost use Rattle.neigh_script.specs.Why.{LineAnswers};

use crate::parameter::Parameter;
use crate::why::{LineFail, ScriptWhy};
use crate::words::is_word;
use nb_base::{
    Bytes, Host, Items, Key, Mac, Moment, Name, Nud, is_neighbour, read_hex_digit, read_key,
    read_mac, read_number,
};
use std::alloc::{AllocError, Global};

/// The longest payload of a packet, in bytes.
const MOST_PAYLOAD: usize = 1500;

/// The most senders.
const MOST_SENDERS: u64 = 16;

fn read_within(text: &[u8], least: u64, greatest: u64, why: ScriptWhy) -> Result<u64, ScriptWhy>
    ensures value { result ≡ fields.number_within least greatest why text.now }
    ensures within { IfOk result (IsInRange least greatest) }
{
    match read_number(text) {
        Some(number) if least <= number && number <= greatest => Ok(number),
        _ => Err(why),
    }
}

/// A moment that isn't below the one before.
pub(crate) fn read_moment(before: Option<Moment>, text: &[u8]) -> Result<Moment, ScriptWhy>
    ensures value { result ≡ fields.moment before text.now }
    ensures within { IfOk result (IsInRange (fields.earliest before) 2_592_000_000) }
{
    match text {
        [b'@', digits @ ..] => {
            let number = read_within(
                digits,
                earliest(before),
                Moment::GREATEST,
                ScriptWhy::BadMoment,
            )?;
            Ok(Moment(number))
        }
        _ => Err(ScriptWhy::BadMoment),
    }
}

fn earliest(before: Option<Moment>) -> u64
    ensures { result ≡ fields.earliest before }
{
    match before {
        None => 0,
        Some(at) => at.millis(),
    }
}

/// A device's name.
pub(crate) fn read_device_name(text: &[u8]) -> Result<Name, ScriptWhy>
    ensures value { result ≡ fields.device_name text.now }
    ensures within { IfOk result (λ name. is_name name ≡ true) }
{
    Name::read(text).ok_or(ScriptWhy::UnknownWord)
}

/// A link address.
pub(crate) fn read_link(text: &[u8]) -> Result<Mac, ScriptWhy>
    ensures { result ≡ fields.link text.now }
{
    read_mac(text).ok_or(ScriptWhy::BadLink)
}

/// An IPv4 address of the host.
#[tactic(auto, unfolding(crate::specs::Fields::own_ip4))]
pub(crate) fn read_own_ip4(text: &[u8]) -> Result<u32, ScriptWhy>
    ensures { result ≡ fields.own_ip4 text.now }
{
    match read_key(text) {
        Some(Key::V4(address)) => Ok(address),
        _ => Err(ScriptWhy::BadAddress),
    }
}

/// An IPv6 address of the host.
#[tactic(auto, unfolding(crate::specs::Fields::own_ip6))]
pub(crate) fn read_own_ip6(text: &[u8]) -> Result<u128, ScriptWhy>
    ensures { result ≡ fields.own_ip6 text.now }
{
    match read_key(text) {
        Some(Key::V6(address)) => Ok(address),
        _ => Err(ScriptWhy::BadAddress),
    }
}

/// An address that may be a neighbour's of the host.
pub(crate) fn read_neighbour(host: &Host, text: &[u8]) -> Result<Key, ScriptWhy>
    ensures value { result ≡ fields.neighbour host.now text.now }
    ensures within { IfOk result (λ key. address.is_neighbour host.now key ≡ true) }
{
    match read_key(text) {
        Some(key) if is_neighbour(host, &key) => Ok(key),
        _ => Err(ScriptWhy::BadAddress),
    }
}

/// The host's device.
pub(crate) fn read_own_device(host: &Host, text: &[u8]) -> Result<Name, ScriptWhy>
    ensures { result ≡ fields.own_device host.now text.now }
{
    let dev = host.dev;
    if is_word(text, dev.as_slice()) {
        Ok(dev)
    } else {
        Err(ScriptWhy::OtherDevice)
    }
}

/// A state that an entry may be given.
pub(crate) fn read_state(text: &[u8]) -> Result<Nud, ScriptWhy>
    ensures value { result ≡ fields.state text.now }
    ensures within { IfOk result (λ nud. is_given_state nud ≡ true) }
{
    if is_word(text, b"permanent") {
        Ok(Nud::Permanent)
    } else if is_word(text, b"noarp") {
        Ok(Nud::Noarp)
    } else if is_word(text, b"reachable") {
        Ok(Nud::Reachable)
    } else if is_word(text, b"stale") {
        Ok(Nud::Stale)
    } else {
        Err(ScriptWhy::BadState)
    }
}

/// How many senders there are.
pub(crate) fn read_sender_count(text: &[u8]) -> Result<u32, ScriptWhy>
    ensures value { result ≡ fields.sender_count text.now }
    ensures within { IfOk result (IsInRange 1 16) }
{
    let number = read_within(text, 1, MOST_SENDERS, ScriptWhy::BadSender)?;
    Ok(number as u32)
}

/// One of so many senders.
pub(crate) fn read_sender(senders: u32, text: &[u8]) -> Result<u32, ScriptWhy>
    ensures value { result ≡ fields.sender_of senders text.now }
    ensures within { IfOk result (IsInRange 1 senders) }
{
    let number = read_within(text, 1, u64::from(senders), ScriptWhy::BadSender)?;
    Ok(number as u32)
}

/// A parameter's name.
pub(crate) fn read_parameter(text: &[u8]) -> Result<Parameter, ScriptWhy>
    ensures { result ≡ fields.parameter text.now }
{
    Parameter::read(text).ok_or(ScriptWhy::UnknownWord)
}

/// A parameter's value.
pub(crate) fn read_value(parameter: Parameter, text: &[u8]) -> Result<u32, ScriptWhy>
    ensures value { result ≡ fields.value_of parameter text.now }
    ensures within { IfOk result (IsInRange (least parameter) (greatest parameter)) }
{
    let (least, greatest) = parameter.range();
    let number = read_within(
        text,
        u64::from(least),
        u64::from(greatest),
        ScriptWhy::ParamRange,
    )?;
    Ok(number as u32)
}

/// A payload of 1 to 1,500 bytes.
pub(crate) fn read_payload(alloc: Global, text: &[u8]) -> Result<Bytes, LineFail>
    ensures value { LineAnswers result (fields.payload text.now) }
    ensures within { IfOk result (λ bytes. IsInRange 1 1_500 (length bytes)) }
{
    match read_hex_bytes(alloc, text)? {
        Some(bytes) if 1 <= bytes.len() && bytes.len() <= MOST_PAYLOAD => Ok(bytes),
        _ => Err(LineFail::Refused(ScriptWhy::BadPayload)),
    }
}

#[tactic(auto, unfolding(text_codes::specs::HexText::hex_bytes_of))]
fn read_hex_bytes(alloc: Global, text: &[u8]) -> Result<Option<Bytes>, AllocError>
    ensures { IfOk result (λ bytes. bytes ≡ hex_bytes_of text.now) }
{
    let mut bytes = Vec::new(alloc);
    let mut rest = text;
    while let [high, low, more @ ..] = rest {
        let Some(byte) = read_hex_pair(*high, *low) else {
            return Ok(None);
        };
        bytes.push(byte)?;
        rest = more;
    }
    if rest.is_empty() {
        Ok(Some(Items::from_vec(bytes)))
    } else {
        Ok(None)
    }
}

fn read_hex_pair(high: u8, low: u8) -> Option<u8>
    ensures { result ≡ hex_byte_of (high ∷ low ∷ []) }
{
    let high = read_hex_digit(high)?;
    let low = read_hex_digit(low)?;
    Some(16 * high + low)
}
