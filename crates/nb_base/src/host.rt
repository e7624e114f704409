//! The host.
use crate::{Mac, Name};

/// The host's one device and its addresses. An IP address is a number whose most significant byte is the address's first one.
#[derive(Clone, Copy, Debug, PartialEq, Eq)]
pub struct Host {
    pub dev: Name,
    pub mac: Mac,
    pub ip4: Option<u32>,
    pub ip6: Option<u128>,
}
