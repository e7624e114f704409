//! Neighbour discovery: solicitations and advertisements as IPv6 packets (RFC 4861).
#![tactic(auto)]

mod addresses;
mod checks;
mod fields;
mod message;
mod options;
mod reading;
mod sums;
mod writing;

pub use addresses::solicited_node;
pub use message::{Nd, NdFail};
pub use options::options_are_those_of_the_grammar;
pub use reading::read_nd;
pub use sums::checksum;
pub use writing::{write_advert, write_solicit};
