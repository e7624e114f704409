//! What the host makes of a frame.
ghost use Rattle.std.specs.Prelude.{◌≡◌, Bool, false, IfOk};
ghost use Rattle.nb_base.specs.declared.key.Key.{Key};
ghost use Rattle.nb_queues.specs.SameKey.{has_key};
ghost use Rattle.heard_frames.specs.Answers as answers;
ghost use Rattle.heard_frames.specs.Heard.{IsHeard, heard_of};

use crate::answers::reply_to;
use crate::learning::op_in;
use crate::read_content;
use crate::request::is_hosts;
use nb_base::{Bytes, Class, Host, Key, Op};
use nb_queues::{ProxyRequest, ProxyTable};
use std::alloc::{AllocError, Global};

/// What the host makes of a frame.
#[derive(Debug, Drop)]
pub struct Heard {
    /// The frame's class.
    pub class: Class,
    /// The frame of a reply that goes out at once.
    pub reply: Option<Bytes>,
    /// The operation on the table.
    pub op: Option<Op>,
    /// A request for a proxied address, to be answered after a while.
    pub request: Option<ProxyRequest>,
}

/// The keys that the host answers for as a proxy.
pub trait Proxies {
    /// Whether a key is one of them.
    ghost is_proxied: { Self → Key → Bool };

    fn has(&self, key: &Key) -> bool
        ensures { result ≡ is_proxied self.now key.now };
}

/// A host that answers for itself alone.
#[derive(Clone, Copy, Debug)]
pub struct NoProxies;

impl Proxies for NoProxies {
    ghost is_proxied = { λ _ _. false };

    fn has(&self, _key: &Key) -> bool {
        false
    }
}

impl Proxies for ProxyTable {
    ghost is_proxied = { λ table key. has_key table.keys key };

    fn has(&self, key: &Key) -> bool {
        ProxyTable::has(self, key)
    }
}

/// What the host makes of a frame that it hears (RFC 826, "Packet Reception"; RFC 4861 sections 7.2.3 to 7.2.5 and 7.2.8).
/// Memory is taken for the reply alone. `Err` only where there is none for it.
#[tactic(auto, unfolding(crate::specs::Heard::heard_of))]
pub fn hear<P: Proxies>(
    alloc: Global,
    host: &Host,
    proxies: &P,
    bytes: &[u8],
) -> Result<Heard, AllocError>
    ensures value { IfOk result (λ heard. heard ≡ heard_of host.now (P.is_proxied proxies.now) bytes.now) }
    ensures found { IfOk result (IsHeard host.now (P.is_proxied proxies.now) bytes.now) }
    ensures only { (other : Heard) → IsHeard host.now (P.is_proxied proxies.now) bytes.now other → IfOk result (λ heard. heard ≡ other) }
{
    let content = read_content(&host.mac, bytes);
    let request = content.request();
    Ok(Heard {
        class: content.class(),
        reply: reply_to(alloc, host, request)?,
        op: op_in(host, &content),
        request: proxied(host, proxies, request),
    })
}

/// The operation on the table that a frame brings, which is that of `hear`, whichever keys are proxied. Takes no memory.
#[tactic(auto, unfolding(crate::specs::Heard::heard_of))]
pub fn operation(host: &Host, bytes: &[u8]) -> Option<Op>
    ensures value { (is_proxied : Key → Bool) → (heard_of host.now is_proxied bytes.now).op ≡ result }
    ensures only { (is_proxied : Key → Bool) (heard : Heard) → IsHeard host.now is_proxied bytes.now heard → heard.op ≡ result }
{
    let content = read_content(&host.mac, bytes);
    op_in(host, &content)
}

/// The request, where it is for another address that is proxied.
fn proxied<P: Proxies>(
    host: &Host,
    proxies: &P,
    request: Option<ProxyRequest>,
) -> Option<ProxyRequest>
    ensures { result ≡ answers.proxied host.now (P.is_proxied proxies.now) request }
{
    let asked = request?;
    let target = asked.target();
    if !is_hosts(host, &target) && proxies.has(&target) {
        Some(asked)
    } else {
        None
    }
}
