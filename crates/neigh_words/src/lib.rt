//! The words of the command `neigh`, and what they ask for.
#![tactic(auto)]

mod options;
mod words_of_command;

pub use options::{Command, Settings, SettingsFail};
pub use words_of_command::settings;
