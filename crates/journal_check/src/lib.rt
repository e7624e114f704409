//! A plain evaluator of small journals: what they mean for a key, what an operation is answered, and whether they are lawful, by
//! their definitions. All is reckoned anew at each call, so it is slow.
#![tactic(auto)]

mod deciding;
mod evaluate;
mod forcing;
mod replies;
mod states;
mod sweeping;
mod timing;

pub use deciding::is_lawful;
pub use evaluate::{is_evaluable, reply_at, state_at};
