//! What a script says.
ghost use Rattle.std.specs.Prelude.{◌≡◌};
ghost use Rattle.neigh_script.specs.Context as of;

use nb_base::{Bytes, Host, Items, Key, Moment, Op, Params};

/// An item of a script.
#[derive(Debug, Drop)]
pub enum ScriptItem {
    /// An operation on the table: `ip neigh`, or a confirmation by an upper layer.
    Neigh {
        at: Moment,
        op: Op,
    },
    /// A proxy entry is added or deleted.
    Proxy {
        at: Moment,
        key: Key,
        add: bool,
    },
    /// A packet of a sender, which is counted from 1.
    Send {
        at: Moment,
        sender: u32,
        key: Key,
        payload: Bytes,
    },
}

impl ScriptItem {
    /// The item's moment.
    pub fn at(&self) -> Moment
        ensures { result ≡ of.at_of self.now }
    {
        match self {
            ScriptItem::Neigh { at, .. }
            | ScriptItem::Proxy { at, .. }
            | ScriptItem::Send { at, .. } => *at,
        }
    }

    /// 1 for a `show` line, else 0.
    pub(crate) fn shows(&self) -> u32
        ensures { result ≡ of.shows_in self.now }
    {
        match self {
            ScriptItem::Neigh { op: Op::Show, .. } => 1,
            _ => 0,
        }
    }
}

/// A script: its host, how many senders there are, the parameters, and the items in the order of their lines.
#[derive(Debug, Drop)]
pub struct Script {
    pub host: Host,
    pub senders: u32,
    pub params: Params,
    pub items: Items<ScriptItem>,
}
