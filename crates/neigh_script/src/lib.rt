//! Scripts of a host's neighbour table, in the words of ip-neighbour(8): read with the first refusal of the first failing line, and written.
#![tactic(auto)]

mod context;
mod fields;
mod forms;
mod items;
mod laws;
mod lines;
mod options;
mod parameter;
mod reading;
mod script;
mod typed;
mod why;
mod words;
mod writing;

pub use laws::texts_tell_scripts;
pub use reading::read;
pub use script::{Script, ScriptItem};
pub use why::{ScriptFail, ScriptWhy};
pub use writing::write;
