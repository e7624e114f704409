//! What a run is: the operations of a plan in their order, the one inline run of it, and the text of its report.
#![tactic(auto)]

pub mod laws;
mod run;

pub use run::Run;
