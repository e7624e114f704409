//! The parameters by name.
ghost use Rattle.std.specs.Prelude.{◌≡◌};
ghost use Rattle.std.specs.Int.{IsInRange};
ghost use Rattle.nb_base.specs.Params.{InRange};
ghost use Rattle.neigh_script.specs.Parameter as of;

use crate::words::is_word;
use nb_base::Params;

/// A parameter of arp(7), or of this project.
#[derive(Clone, Copy, Debug, PartialEq, Eq)]
pub(crate) enum Parameter {
    GcThresh1,
    GcThresh2,
    GcThresh3,
    GcInterval,
    GcStaleTime,
    Locktime,
    RetransTime,
    BaseReachableTime,
    DelayFirstProbeTime,
    McastSolicit,
    UcastSolicit,
    ProxyDelay,
    ProxyQlen,
    UnresQlenBytes,
}

impl Parameter {
    /// The parameters in the order in which a script is written.
    pub const ALL: [Parameter; 14] = [
        Parameter::GcThresh1,
        Parameter::GcThresh2,
        Parameter::GcThresh3,
        Parameter::GcInterval,
        Parameter::GcStaleTime,
        Parameter::Locktime,
        Parameter::RetransTime,
        Parameter::BaseReachableTime,
        Parameter::DelayFirstProbeTime,
        Parameter::McastSolicit,
        Parameter::UcastSolicit,
        Parameter::ProxyDelay,
        Parameter::ProxyQlen,
        Parameter::UnresQlenBytes,
    ];

    /// The parameter's name.
    pub fn name(self) -> &'static str
        ensures { result.now ≡ of.parameter_name self }
    {
        match self {
            Parameter::GcThresh1 => "gc_thresh1",
            Parameter::GcThresh2 => "gc_thresh2",
            Parameter::GcThresh3 => "gc_thresh3",
            Parameter::GcInterval => "gc_interval",
            Parameter::GcStaleTime => "gc_stale_time",
            Parameter::Locktime => "locktime",
            Parameter::RetransTime => "retrans_time",
            Parameter::BaseReachableTime => "base_reachable_time",
            Parameter::DelayFirstProbeTime => "delay_first_probe_time",
            Parameter::McastSolicit => "mcast_solicit",
            Parameter::UcastSolicit => "ucast_solicit",
            Parameter::ProxyDelay => "proxy_delay",
            Parameter::ProxyQlen => "proxy_qlen",
            Parameter::UnresQlenBytes => "unres_qlen_bytes",
        }
    }

    /// The parameter of this name, or `None` exactly where there is none.
    #[tactic(auto, unfolding(crate::specs::Parameter::parameter_of))]
    pub fn read(text: &[u8]) -> Option<Parameter>
        ensures { result ≡ of.parameter_of text.now }
    {
        if is_word(text, b"gc_thresh1") {
            Some(Parameter::GcThresh1)
        } else if is_word(text, b"gc_thresh2") {
            Some(Parameter::GcThresh2)
        } else if is_word(text, b"gc_thresh3") {
            Some(Parameter::GcThresh3)
        } else if is_word(text, b"gc_interval") {
            Some(Parameter::GcInterval)
        } else if is_word(text, b"gc_stale_time") {
            Some(Parameter::GcStaleTime)
        } else if is_word(text, b"locktime") {
            Some(Parameter::Locktime)
        } else if is_word(text, b"retrans_time") {
            Some(Parameter::RetransTime)
        } else if is_word(text, b"base_reachable_time") {
            Some(Parameter::BaseReachableTime)
        } else if is_word(text, b"delay_first_probe_time") {
            Some(Parameter::DelayFirstProbeTime)
        } else if is_word(text, b"mcast_solicit") {
            Some(Parameter::McastSolicit)
        } else if is_word(text, b"ucast_solicit") {
            Some(Parameter::UcastSolicit)
        } else if is_word(text, b"proxy_delay") {
            Some(Parameter::ProxyDelay)
        } else if is_word(text, b"proxy_qlen") {
            Some(Parameter::ProxyQlen)
        } else if is_word(text, b"unres_qlen_bytes") {
            Some(Parameter::UnresQlenBytes)
        } else {
            None
        }
    }

    /// The least and the greatest value.
    pub fn range(self) -> (u32, u32)
        ensures { result ≡ (of.least self, of.greatest self) }
    {
        match self {
            Parameter::GcThresh1 | Parameter::GcThresh2 | Parameter::GcThresh3 => (1, 65_536),
            Parameter::GcInterval => (10_000, 10_000_000),
            Parameter::McastSolicit | Parameter::UcastSolicit => (0, 10),
            Parameter::ProxyQlen => (1, 1_024),
            Parameter::UnresQlenBytes => (256, 16_448),
            _ => (10, 10_000_000),
        }
    }

    /// The parameters with this one at the value.
    pub fn set(self, params: Params, value: u32) -> Params
        ensures value { result ≡ of.with_value self value params }
        ensures within { InRange params → IsInRange (of.least self) (of.greatest self) value → InRange result }
    {
        let mut params = params;
        match self {
            Parameter::GcThresh1 => params.gc_thresh1 = value,
            Parameter::GcThresh2 => params.gc_thresh2 = value,
            Parameter::GcThresh3 => params.gc_thresh3 = value,
            Parameter::GcInterval => params.gc_interval = value,
            Parameter::GcStaleTime => params.gc_stale_time = value,
            Parameter::Locktime => params.locktime = value,
            Parameter::RetransTime => params.retrans_time = value,
            Parameter::BaseReachableTime => params.base_reachable_time = value,
            Parameter::DelayFirstProbeTime => params.delay_first_probe_time = value,
            Parameter::McastSolicit => params.mcast_solicit = value,
            Parameter::UcastSolicit => params.ucast_solicit = value,
            Parameter::ProxyDelay => params.proxy_delay = value,
            Parameter::ProxyQlen => params.proxy_qlen = value,
            Parameter::UnresQlenBytes => params.unres_qlen_bytes = value,
        }
        params
    }
}
