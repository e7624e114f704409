//! A large capture and a large script, made from a number.
#![tactic(auto)]

mod draws;
mod files;
mod heard;
mod laws;
mod sent;

pub use files::generate;
pub use laws::generated_inputs_are_within_limits;
