//! The whole run of `neigh`: from the command's words and the files that they name to the report and the status.
#![tactic(auto)]

mod failure;
mod files;
mod generated;
mod host;
mod inline;
pub mod laws;
mod program;
mod replay;
mod status;
mod top;

pub use generated::run_generated;
pub use inline::replay_inline;
pub use program::{NoWords, answer, command_words};
pub use top::{run, run_inline};
