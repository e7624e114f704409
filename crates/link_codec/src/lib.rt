//! Ethernet headers and ARP packets, read and written; the types of frames and the link addresses of groups.
#![tactic(auto)]

mod arp;
mod ethernet;
mod ethertypes;
mod groups;
mod parts;

pub use arp::{Arp, read_arp, write_arp};
pub use ethernet::{EthView, read_eth, write_eth};
pub use ethertypes::{ARP_TYPE, IP4_TYPE, IP6_TYPE, type_for};
pub use groups::{EVERYONE, group_mac};
