//! The types of the neighbour tables, and the texts of addresses.
#![tactic(auto)]

mod host;
mod host_line;
mod items;
mod key;
mod line;
mod mac;
mod name;
mod nud;
mod op;
mod outcome;
mod params;
mod parts;
mod plan;
mod record;
mod time;

pub use host::Host;
pub use host_line::{Class, HostLine, Mark, Placed};
pub use items::Items;
pub use key::{Key, bucket_of, is_neighbour, read_ip4, read_ip6, read_key, write_key};
pub use line::{Journal, Journals, Lengths, Line, Reply};
pub use mac::{Mac, hex_digit, read_mac, write_mac};
pub use name::Name;
pub use nud::Nud;
pub use op::Op;
pub use outcome::{Log, Outcome, Why};
pub use params::Params;
pub use parts::{cut, read_hex_digit, read_number};
pub use plan::{Bytes, ControlItem, Mode, Plan, SendItem};
pub use record::Record;
pub use time::{Moment, OpId};
