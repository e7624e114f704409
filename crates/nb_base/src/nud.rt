//! The states of a neighbour's entry.
ghost use Rattle.std.specs.Prelude.{◌≡◌};
ghost use Rattle.nb_base.specs.Nud as nud;

/// The state of an entry (RFC 4861 section 7.3.2; `NUD_*` of Linux).
#[derive(Clone, Copy, Debug, PartialEq, Eq)]
pub enum Nud {
    None,
    Incomplete,
    Reachable,
    Stale,
    Delay,
    Probe,
    Failed,
    Noarp,
    Permanent,
}

impl Nud {
    /// The state's bit of Linux, and 0 for none.
    pub fn bits(self) -> u8
        ensures { result ≡ nud.bits self }
    {
        match self {
            Nud::None => 0,
            Nud::Incomplete => 0x01,
            Nud::Reachable => 0x02,
            Nud::Stale => 0x04,
            Nud::Delay => 0x08,
            Nud::Probe => 0x10,
            Nud::Failed => 0x20,
            Nud::Noarp => 0x40,
            Nud::Permanent => 0x80,
        }
    }

    /// Whether packets are sent to the address without further ado.
    pub fn is_connected(self) -> bool
        ensures { result ≡ nud.is_connected self }
    {
        matches!(self, Nud::Permanent | Nud::Noarp | Nud::Reachable)
    }

    /// Whether the entry has an address.
    pub fn is_valid(self) -> bool
        ensures { result ≡ nud.is_valid self }
    {
        self.is_connected() || matches!(self, Nud::Probe | Nud::Stale | Nud::Delay)
    }

    /// Whether a timer runs.
    pub fn in_timer(self) -> bool
        ensures { result ≡ nud.in_timer self }
    {
        matches!(
            self,
            Nud::Incomplete | Nud::Reachable | Nud::Delay | Nud::Probe
        )
    }
}
