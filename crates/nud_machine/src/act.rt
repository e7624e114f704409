use nb_base::{Mac, OpId};

/// Why a packet was dropped.
#[derive(Clone, Copy, Debug, PartialEq, Eq)]
pub enum Cause {
    /// It had waited longest when there were too many bytes for a further packet.
    QueueFull,
    /// The address isn't known and no probe may be sent for it.
    NoProbes,
    /// The last probe went unanswered.
    Unresolved,
    /// The entry was removed.
    Removed,
    /// The table had no room for an entry.
    TableFull,
}

/// What an entry does at an event.
#[derive(Clone, Copy, Debug, PartialEq, Eq)]
pub enum Act {
    /// The packet goes out to the address.
    Transmit(OpId, Mac),
    /// The packet waits, behind the others.
    Wait(OpId),
    Drop(OpId, Cause),
    /// A solicitation to the broadcast address, or the neighbour's solicited-node group.
    SolicitGroup,
    /// A solicitation to the address that is known.
    SolicitUnicast(Mac),
}
