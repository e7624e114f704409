//! The parameters of a table.
/// The parameters of a table, named as in arp(7). Times are in milliseconds.
#[derive(Clone, Copy, Debug, PartialEq, Eq)]
pub struct Params {
    /// A sweep that sees fewer entries than this removes none.
    pub gc_thresh1: u32,
    /// From this number of entries on, making one may force a pass.
    pub gc_thresh2: u32,
    /// No entry is made from this number on.
    pub gc_thresh3: u32,
    /// Between sweeps.
    pub gc_interval: u32,
    /// How long an entry is unused before a sweep removes it.
    pub gc_stale_time: u32,
    /// How long an ARP packet doesn't change an address that was just set.
    pub locktime: u32,
    /// Between probes.
    pub retrans_time: u32,
    /// How long a confirmation holds.
    pub base_reachable_time: u32,
    /// How long DELAY waits for a confirmation.
    pub delay_first_probe_time: u32,
    /// Probes in INCOMPLETE.
    pub mcast_solicit: u32,
    /// Probes in PROBE.
    pub ucast_solicit: u32,
    /// How long a proxied request waits for its answer.
    pub proxy_delay: u32,
    /// How many proxied requests may wait.
    pub proxy_qlen: u32,
    /// How many bytes of packets may wait for an address; a single packet may always.
    pub unres_qlen_bytes: u32,
}

impl Params {
    /// The defaults of arp(7), but for the bytes that may wait, which are this project's own.
    pub const DEFAULT: Params = Params {
        gc_thresh1: 128,
        gc_thresh2: 512,
        gc_thresh3: 1024,
        gc_interval: 30_000,
        gc_stale_time: 60_000,
        locktime: 1_000,
        retrans_time: 1_000,
        base_reachable_time: 30_000,
        delay_first_probe_time: 5_000,
        mcast_solicit: 3,
        ucast_solicit: 3,
        proxy_delay: 800,
        proxy_qlen: 64,
        unres_qlen_bytes: 4_096,
    };
}

/// These defaults, which are in the ranges that every call with parameters asks for.
impl Default for Params {
    ghost use Rattle.std.specs.Prelude.{◌≡◌};
    ghost use Rattle.nb_base.specs.Params.{InRange, default_params};

    ghost is_default = { λ params. (params ≡ default_params) × InRange params };

    fn default() -> Params {
        Params::DEFAULT
    }
}
