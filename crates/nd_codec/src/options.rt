//! The options of a message, one behind the other.
ghost use Rattle.std.specs.Prelude.{◌≡◌, ℕ, ◌+◌, ◌*◌, ◌<◌, List, length, true, Some, is_some, IfSome};
ghost use Rattle.std.specs.Option.{option_map};
ghost use Rattle.nd_codec.specs.Options.{AreOptions, NdOption, has_kind, link_address_of, option_at, options_in, options_of, view};

use nb_base::Mac;

/// An option: its type, its length in units of 8 bytes, and the bytes behind these two.
#[derive(Clone, Copy)]
pub(crate) struct OptionView<'a> {
    pub(crate) kind: u8,
    pub(crate) units: u8,
    pub(crate) body: &'a [u8],
}

/// The option that the bytes begin with, and the bytes behind it.
#[tactic(auto, unfolding(crate::specs::Options::option_at))]
fn split_option(bytes: &[u8]) -> Option<(OptionView<'_>, &[u8])>
    ensures value { option_map (λ x. (view x.0, x.1.now)) result ≡ option_at bytes.now }
    ensures shorter { IfSome result (λ x. length x.1.now < length bytes.now) }
    ensures fills { IfSome result (λ x. length x.0.body.now + 2 ≡ 8 * x.0.units) }
{
    if bytes.len() < 2 {
        return None;
    }
    let kind = bytes[0];
    let units = bytes[1];
    let size = 8 * usize::from(units);
    if units == 0 || bytes.len() < size {
        return None;
    }
    let body = &bytes[2..size];
    let (_, behind) = bytes.split_at(size);
    Some((OptionView { kind, units, body }, behind))
}

/// Whether the bytes are options.
pub(crate) fn are_options(bytes: &[u8]) -> bool
    ensures { result ≡ is_some (options_in bytes.now) }
{
    let mut rest = bytes;
    while !rest.is_empty() {
        let Some((_, behind)) = split_option(rest) else {
            return false;
        };
        rest = behind;
    }
    true
}

/// Whether some option is of this type, whatever its length.
pub(crate) fn has_option(kind: u8, bytes: &[u8]) -> bool
    requires { is_some (options_in bytes.now) ≡ true }
    ensures { result ≡ has_kind kind (options_of bytes.now) }
{
    let mut rest = bytes;
    while let Some((option, behind)) = split_option(rest) {
        if option.kind == kind {
            return true;
        }
        rest = behind;
    }
    false
}

/// The link address in the first option of this type whose length is 1.
pub(crate) fn link_address(kind: u8, bytes: &[u8]) -> Option<Mac>
    requires { is_some (options_in bytes.now) ≡ true }
    ensures { result ≡ link_address_of kind (options_of bytes.now) }
{
    let mut rest = bytes;
    while let Some((option, behind)) = split_option(rest) {
        if option.kind == kind && option.units == 1 {
            return Some(mac_of(option.body));
        }
        rest = behind;
    }
    None
}

fn mac_of(body: &[u8]) -> Mac
    requires { length body.now ≡ 6 }
    ensures { result ≡ record { 0 = body.now } }
{
    let mut bytes = [0; 6];
    bytes.copy_from_slice(body);
    Mac(bytes)
}

/// A law of the options of a message (RFC 4861 section 4.6): what is read of bytes as options is what the bytes are by the grammar,
/// options one behind the other, each as long as it says, with nothing between or behind them. The function does nothing.
pub fn options_are_those_of_the_grammar()
    ensures found { (bytes : List ℕ) (options : List NdOption) → options_in bytes ≡ Some options → AreOptions bytes options }
    ensures only { (bytes : List ℕ) (options : List NdOption) → AreOptions bytes options → options_in bytes ≡ Some options }
{}
