//! What the lines above a line fix for it.
ghost use Rattle.std.specs.Prelude.{◌≡◌, ◌+◌, ◌<◌, ◌^◌};
ghost use Rattle.neigh_script.specs.Context as of;

use crate::script::ScriptItem;
use nb_base::{Host, Moment, Params};

/// What the lines above a line fix for it: the host of the host line, how many senders there are, the parameters,
/// the moment of the last item line, and how many `show` lines stand above.
#[derive(Clone, Copy, Debug, PartialEq, Eq)]
pub(crate) struct Context {
    pub host: Option<Host>,
    pub senders: u32,
    pub params: Params,
    pub last: Option<Moment>,
    pub shows: u32,
}

impl Context {
    /// What is fixed above the first line.
    pub fn start() -> Context
        ensures { result ≡ of.start }
    {
        Context {
            host: None,
            senders: 1,
            params: Params::DEFAULT,
            last: None,
            shows: 0,
        }
    }

    /// What is fixed behind an item's line.
    pub fn behind(self, item: &ScriptItem) -> Context
        requires { self.shows + of.shows_in item.now < 2 ^ 32 }
        ensures { result ≡ of.behind self item.now }
    {
        Context {
            last: Some(item.at()),
            shows: self.shows + item.shows(),
            ..self
        }
    }
}
