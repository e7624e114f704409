//! What a neighbour discovery packet says, and why one can't be used.
ghost use Rattle.std.specs.Prelude.{◌≡◌};
ghost use Rattle.nd_codec.specs.Fail.{number_of};

use nb_base::Mac;

/// A neighbour solicitation (RFC 4861 section 4.3) or a neighbour advertisement (RFC 4861 section 4.4), with the source and the destination of its IPv6 header.
/// Addresses are numbers whose most significant byte is the address's first one.
#[derive(Clone, Copy, Debug, PartialEq, Eq)]
pub enum Nd {
    /// `lladdr` is the source's link address, if the packet tells it.
    Solicit {
        source: u128,
        dest: u128,
        target: u128,
        lladdr: Option<Mac>,
    },
    /// `lladdr` is the target's link address, if the packet tells it.
    Advert {
        source: u128,
        dest: u128,
        target: u128,
        router: bool,
        solicited: bool,
        overrides: bool,
        lladdr: Option<Mac>,
    },
}

/// The first check that a packet fails, in the order of the variants (RFC 4861 sections 7.1.1 and 7.1.2).
#[derive(Clone, Copy, Debug, PartialEq, Eq)]
pub enum NdFail {
    /// Fewer bytes than the IPv6 header, the payload that it names or a message of one of the two types has, or another version than 6.
    Short,
    /// No ICMPv6 message, or one of another type.
    NotIcmp,
    /// The hop limit isn't 255.
    HopLimit,
    /// The code isn't 0.
    Code,
    /// The checksum is another.
    Checksum,
    /// The target is a group.
    Target,
    /// An option has length 0 or ends past the message, or a single byte is left.
    ZeroOption,
    /// A solicitation from `::` isn't to a solicited-node address, or has a source link-layer address option.
    Unspecified,
    /// An advertisement to a group says that it was solicited.
    SolicitedToGroup,
}

impl NdFail {
    /// The number of the check, 1 to 9, in their order.
    pub fn number(self) -> u8
        ensures { result ≡ number_of self }
    {
        match self {
            NdFail::Short => 1,
            NdFail::NotIcmp => 2,
            NdFail::HopLimit => 3,
            NdFail::Code => 4,
            NdFail::Checksum => 5,
            NdFail::Target => 6,
            NdFail::ZeroOption => 7,
            NdFail::Unspecified => 8,
            NdFail::SolicitedToGroup => 9,
        }
    }
}
