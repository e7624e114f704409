//! The text of a run's report.
#![tactic(auto)]

mod behind;
mod below;
mod counts;
mod entries;
mod frames;
mod generated;
mod head;
mod host_journal;
mod journal_lines;
mod logs;
mod proxies;
mod solicitations;
mod spelling;
mod tally;
mod whole;
mod words;

pub use counts::Fates;
pub use generated::summary;
pub use tally::fates;
pub use whole::text;
