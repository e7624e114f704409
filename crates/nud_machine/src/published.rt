//! What a bucket reads of an entry.
ghost use Rattle.std.specs.Prelude.{◌≡◌, ◌++◌, ◌&&◌, not, is_none};
ghost use Rattle.nb_base.specs.Nud.{in_timer, is_connected};
ghost use Rattle.nud_machine.specs.Record as spec;
ghost use Rattle.nud_machine.specs.State.{IsSoundEntry};

use crate::Entry;
use nb_base::{Host, Key, Moment, Record};

/// The Ethernet type of the key's family.
fn ether_type(key: &Key) -> [u8; 2]
    ensures { result ≡ spec.ether_type key.now }
{
    match *key {
        Key::V4(_) => [0x08, 0x00],
        Key::V6(_) => [0x86, 0xdd],
    }
}

/// Destination, source and type of packets.
#[tactic(auto, using(crate::proofs::Headers::header_is))]
fn header(target: &[u8; 6], source: &[u8; 6], kind: &[u8; 2]) -> [u8; 14]
    ensures { result ≡ target.now ++ source.now ++ kind.now }
{
    let [to0, to1, to2, to3, to4, to5] = *target;
    let [from0, from1, from2, from3, from4, from5] = *source;
    let [high, low] = *kind;
    [
        to0, to1, to2, to3, to4, to5, from0, from1, from2, from3, from4, from5, high, low,
    ]
}

/// What is published of the entry: usable exactly where it is present and connected, with the Ethernet
/// header of packets to its address (RFC 894, RFC 2464); otherwise a header of zeros. Takes no memory.
pub fn record(entry: &Entry, host: &Host, key: &Key) -> Record
    requires { IsSoundEntry entry.now }
    ensures value { result ≡ spec.record_of entry.now host.now key.now }
    ensures usable { result.usable ≡ (entry.now.present && is_connected entry.now.nud) }
{
    match entry.mac {
        Some(mac) if entry.present && entry.nud.is_connected() => Record {
            usable: true,
            header: header(&mac.0, &host.mac.0, &ether_type(key)),
        },
        _ => Record {
            usable: false,
            header: [0; 14],
        },
    }
}

/// When the entry's timer fires: `None` exactly where no timer runs in its state. Takes no memory.
pub fn due(entry: &Entry) -> Option<Moment>
    requires { IsSoundEntry entry.now }
    ensures value { result ≡ entry.now.due }
    ensures none { is_none result ≡ not (in_timer entry.now.nud) }
{
    entry.due
}
