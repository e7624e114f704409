//! The machine of one neighbour's entry, after Linux and RFC 4861 section 7.3: its states, what happens to it and what it does then.
#![tactic(auto)]

mod act;
mod acts;
mod entry;
mod event;
mod laws;
mod machine;
mod news;
mod packets;
mod published;
mod sending;
mod timer;
mod updating;

pub use act::{Act, Cause};
pub use acts::Acts;
pub use entry::Entry;
pub use event::Event;
pub use laws::{
    every_failed_entry_has_nothing_left, every_new_due_is_ahead, every_step_keeps_sound,
    every_step_keeps_the_order, every_step_stays_in_run, every_timer_moves_the_due,
};
pub use machine::step;
pub use news::{is_fixed, same_mac};
pub use published::{due, record};
