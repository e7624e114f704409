//! Requests for addresses that the host answers for.
ghost use Rattle.std.specs.Prelude.{◌≡◌};
ghost use Rattle.nb_queues.specs.Proxies.{target_of};

use nb_base::{Key, Mac, Moment};

/// A request for the address `target`. The answer goes to the link address `mac`; `asker` is the protocol address of who asks, which is `::` where a solicitation's source is unspecified.
#[derive(Clone, Copy, Debug, PartialEq, Eq)]
pub enum ProxyRequest {
    /// By ARP (RFC 826).
    Arp { mac: Mac, asker: u32, target: u32 },
    /// By a neighbour solicitation (RFC 4861 section 7.2.3).
    Nd { mac: Mac, asker: u128, target: u128 },
}

impl ProxyRequest {
    /// The address that is asked for. Takes no memory.
    pub fn target(&self) -> Key
        ensures { result ≡ target_of self.now }
    {
        match *self {
            ProxyRequest::Arp { target, .. } => Key::V4(target),
            ProxyRequest::Nd { target, .. } => Key::V6(target),
        }
    }
}

/// A request for a proxied address, and the moment at which it is to be answered.
#[derive(Clone, Copy, Debug, PartialEq, Eq)]
pub struct ProxyJob {
    pub due: Moment,
    pub request: ProxyRequest,
}

/// As many requests wait as may.
#[derive(Clone, Copy, Debug, PartialEq, Eq)]
pub struct ProxyFull;
