//! A count of the present entries of all buckets.
//!
//! A bucket counts by a [`Census`]: its share grows and shrinks, and it looks at the sum of all shares. [`Headcount`] keeps the count
//! in one atomic word, with a [`SeatCensus`] for each bucket, and at the end the changes and looks of all seats stand in one order.
//! [`PlainCensus`] serves where one bucket is called at a time.
#![tactic(auto)]

mod census;
mod plain;
mod proof_pairs;
mod rule;
mod seat;
mod view;
mod word;

pub use census::Census;
pub use plain::PlainCensus;
pub use proof_pairs::ProofPairs;
pub use seat::{Counts, Headcount, SeatCensus, Seats};
