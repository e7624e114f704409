//! The checksum of ICMPv6.
ghost use Rattle.std.specs.Prelude.{◌≡◌, ◌+◌, ◌*◌, ◌^◌, ◌<◌, ◌≤◌, length};
ghost use Rattle.nd_codec.specs.Checksum.{checksum_of, cleared, ones_of, pseudo_header, word_sum};

/// The checksum of an ICMPv6 message that goes from `source` to `dest`, over a pseudo-header and the message as given, in one pass:
/// the complement of the ones' complement sum of their 16-bit words (RFC 1071; RFC 4443 section 2.3; RFC 8200 section 8.1).
/// A message whose checksum is wanted has zeros in its place. Takes no memory.
pub fn checksum(source: u128, dest: u128, message: &[u8]) -> u16
    requires { length message.now ≤ 65535 }
    ensures { result ≡ checksum_of source dest message.now }
{
    let sum = pseudo_header_sum(source, dest, message.len() as u32);
    0xffff - fold_carries(add_words(sum, message))
}

/// The checksum of a message with its own checksum, the two bytes at 2, taken as zero.
pub(crate) fn checksum_cleared(source: u128, dest: u128, message: &[u8]) -> u16
    requires long { 4 ≤ length message.now }
    requires short { length message.now ≤ 65535 }
    ensures { result ≡ checksum_of source dest (cleared message.now) }
{
    let sum = pseudo_header_sum(source, dest, message.len() as u32);
    let sum = add_words(sum, &message[..2]);
    0xffff - fold_carries(add_words(sum, &message[4..]))
}

fn pseudo_header_sum(source: u128, dest: u128, length: u32) -> u32
    ensures sum { result ≡ word_sum (pseudo_header source dest length) }
    ensures small { result ≤ 22 * 65535 }
{
    let sum = add_words(0, &source.to_be_bytes());
    let sum = add_words(sum, &dest.to_be_bytes());
    let sum = add_words(sum, &length.to_be_bytes());
    add_words(sum, &[0, 0, 0, 58])
}

/// Adds the 16-bit words of the bytes; a last byte that stands alone is the high one of its word.
fn add_words(sum: u32, bytes: &[u8]) -> u32
    requires { sum + 32768 * (length bytes.now + 1) < 2 ^ 32 }
    ensures sum { result ≡ sum + word_sum bytes.now }
    ensures small { 2 * result ≤ 2 * sum + 65535 * (length bytes.now + 1) }
{
    let mut sum = sum;
    let mut rest = bytes;
    while let [high, low, more @ ..] = rest {
        sum += u32::from(u16::from_be_bytes([*high, *low]));
        rest = more;
    }
    match rest {
        [high, ..] => sum + 256 * u32::from(*high),
        [] => sum,
    }
}

/// The ones' complement sum of words whose plain sum is given: carries are added at the low end.
fn fold_carries(sum: u32) -> u16
    ensures { result ≡ ones_of sum }
{
    let once = (sum & 0xffff) + (sum >> 16);
    let twice = (once & 0xffff) + (once >> 16);
    twice as u16
}
