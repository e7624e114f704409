//! The Ethernet header.
ghost use Rattle.std.specs.Prelude.{◌≡◌, ◌<◌, ◌↔◌, ℕ, List, length, IfSome, IsSomeAnd, IsNone};
ghost use Rattle.nb_base.specs.declared.mac.Mac.{Mac};
ghost use Rattle.link_codec.specs.Ethernet.{IsFrame, eth_bytes};

use crate::parts::{put, take_mac, take_u16};
use nb_base::Mac;

/// How many bytes the header has.
const HEADER_LEN: usize = 14;

/// A frame, taken apart into its header and what follows it.
#[derive(Clone, Copy, Debug, PartialEq, Eq)]
pub struct EthView<'a> {
    /// The destination.
    pub dst: Mac,
    /// The source.
    pub src: Mac,
    /// The type, such as 0x0806 for ARP.
    pub ethertype: u16,
    /// All bytes behind the header, padding included.
    pub body: &'a [u8],
}

/// The frame that the bytes are: six bytes of destination, six of source, two of type with the most significant first (RFC 894, IEEE 802.3), and the body.
/// `None` exactly where there are fewer than 14 bytes. Takes no memory.
pub fn read_eth(bytes: &[u8]) -> Option<EthView<'_>>
    ensures found { IfSome result (λ view. IsFrame bytes.now view.dst view.src view.ethertype view.body.now) }
    ensures only { (dst src : Mac) (ethertype : ℕ) (body : List ℕ) → IsFrame bytes.now dst src ethertype body
        → IsSomeAnd result (λ view. (view.dst ≡ dst) × (view.src ≡ src) × (view.ethertype ≡ ethertype) × (view.body.now ≡ body)) }
    ensures short { IsNone result ↔ (length bytes.now < 14) }
{
    if bytes.len() < HEADER_LEN {
        return None;
    }
    let (dst, behind_dst) = take_mac(bytes);
    let (src, behind_src) = take_mac(behind_dst);
    let (ethertype, body) = take_u16(behind_src);
    Some(EthView {
        dst,
        src,
        ethertype,
        body,
    })
}

/// Fills the array with the header of these two addresses and this type. Takes no memory.
pub fn write_eth(into: &mut [u8; 14], dst: &Mac, src: &Mac, ethertype: u16)
    ensures { into.new ≡ eth_bytes dst.now src.now ethertype }
{
    put(into, 0, &dst.0);
    put(into, 6, &src.0);
    put(into, 12, &ethertype.to_be_bytes());
}
