//! What a bucket's journal means for each key, which journals are lawful, and what each line is answered: definitions and their
//! laws, with the few calls that every reader of a journal makes.
#![tactic(auto)]

mod effects;
mod kept;
pub mod laws;
mod naming;
mod replies;

pub use effects::{Effect, PASS_MILLIS, effect_of, id_of, is_collectable, is_loose, is_pass_due};
pub use kept::Kept;
pub use naming::{
    is_collect, is_key, is_line_of_run, is_own, is_timer, key_of, made_known, may_be_asked,
};
pub use replies::reply_after;

/// The most lines that a journal may have.
pub const MOST_LINES: u32 = 4_194_304;
