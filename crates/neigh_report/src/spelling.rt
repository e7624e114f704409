//! The single words of a report.
ghost use Rattle.std.specs.Prelude.{◌≡◌};
ghost use Rattle.neigh_run.specs.Spelling as spelling;

use nb_base::{Mode, Nud};
use nud_machine::Cause;

pub fn mode_word(mode: Mode) -> &'static str
    ensures { result.now ≡ spelling.mode_word mode }
{
    match mode {
        Mode::Inline => "inline",
        Mode::Threads => "threads",
    }
}

/// A state in an operation.
pub fn state_word(nud: Nud) -> &'static str
    ensures { result.now ≡ spelling.state_word nud }
{
    match nud {
        Nud::None => "none",
        Nud::Incomplete => "incomplete",
        Nud::Reachable => "reachable",
        Nud::Stale => "stale",
        Nud::Delay => "delay",
        Nud::Probe => "probe",
        Nud::Failed => "failed",
        Nud::Noarp => "noarp",
        Nud::Permanent => "permanent",
    }
}

/// A state of an entry.
pub fn state_name(nud: Nud) -> &'static str
    ensures { result.now ≡ spelling.state_name nud }
{
    match nud {
        Nud::None => "NONE",
        Nud::Incomplete => "INCOMPLETE",
        Nud::Reachable => "REACHABLE",
        Nud::Stale => "STALE",
        Nud::Delay => "DELAY",
        Nud::Probe => "PROBE",
        Nud::Failed => "FAILED",
        Nud::Noarp => "NOARP",
        Nud::Permanent => "PERMANENT",
    }
}

pub fn cause_word(cause: Cause) -> &'static str
    ensures { result.now ≡ spelling.cause_word cause }
{
    match cause {
        Cause::QueueFull => "queuefull",
        Cause::NoProbes => "noprobes",
        Cause::Unresolved => "unresolved",
        Cause::Removed => "removed",
        Cause::TableFull => "tablefull",
    }
}

/// A flag's letter, or `-` where it is clear.
pub fn flag(set: bool, letter: char) -> char
    ensures { result ≡ spelling.flag set letter }
{
    if set { letter } else { '-' }
}
