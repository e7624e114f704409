//! The sequence lock round a cached header, as plain data: its steps, and what every order of them keeps.
#![tactic(auto)]

mod laws;
mod lock;
mod reader;
mod readers;
mod step;

pub use laws::{
    floors_rise, good_try, published_stays, resting_readers_agree, safe_at_first, safe_run,
    safe_step, safe_with_fresh_reader, tries_go_on, try_of_a_run,
};
pub use lock::{Core, NotEnabled, Stop};
pub use reader::{Known, ReaderPhase, Try};
pub use step::{Step, WriterPhase};
