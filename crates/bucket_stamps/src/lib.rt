//! What each participant of a run has seen of a bucket's journal, and which of its lines are its own.
//!
//! A bucket that stands behind a lock is known from outside by what its callers hold. Each participant holds a [`Stamp`] of the bucket,
//! and the bucket holds the [`Stamper`]: a call of the bucket lodges its caller's stamp, writes the lines that it made, ends its turn
//! and hands the stamp out again. So the stamps show one history: all that a participant has seen still stands, its list of own lines
//! is exactly the journal's, and when all stamps are given up, this is known of all of them at once. Neither keeps any of these lists
//! when it runs: there is one atomic word, and a seat for each token.
#![tactic(auto)]

mod rule;
mod stamper;
mod view;

pub use stamper::{Stamp, Stamper};
pub use view::{CellId, HasCell, History, Part, Turn};
