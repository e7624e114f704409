//! Why a text isn't a script.
ghost use Rattle.std.specs.Prelude.{◌≡◌};
ghost use Rattle.neigh_script.specs.Why.{number_of};
ghost use Rattle.neigh_script.specs.declared.why.LineFail.TheVariants as line_fail;

use std::alloc::{AllocError, AllocFailed};

/// What a line of a script fails.
#[derive(Clone, Copy, Debug, PartialEq, Eq)]
pub enum ScriptWhy {
    /// The line isn't UTF-8.
    BadUtf8,
    /// The moment isn't `@` and a number, exceeds 30 days, or lies below that of the item line before.
    BadMoment,
    /// No form allows the word there, or a word is missing, or a parameter or the host's device has no such name.
    UnknownWord,
    /// The address has no spelling, is of the wrong family for the host, or isn't a neighbour of the host.
    BadAddress,
    /// The link address has no spelling.
    BadLink,
    /// The state isn't `permanent`, `noarp`, `reachable` or `stale`.
    BadState,
    /// The payload isn't 1 to 1,500 bytes.
    BadPayload,
    /// The sender or the number of senders isn't a number in range.
    BadSender,
    /// The device isn't the host's.
    OtherDevice,
    /// The parameter's value isn't a number in range.
    ParamRange,
    /// No host line stands above the item line or the end.
    NoHost,
    /// The line's number exceeds 131,072, or it is the 33rd `show`.
    TooMany,
    /// A line of the script's head stands below an item line, or a second host line below the first.
    LateParam,
}

impl ScriptWhy {
    /// The refusal's number, 1 to 13.
    pub fn number(self) -> u8
        ensures { result ≡ number_of self }
    {
        match self {
            ScriptWhy::BadUtf8 => 1,
            ScriptWhy::BadMoment => 2,
            ScriptWhy::UnknownWord => 3,
            ScriptWhy::BadAddress => 4,
            ScriptWhy::BadLink => 5,
            ScriptWhy::BadState => 6,
            ScriptWhy::BadPayload => 7,
            ScriptWhy::BadSender => 8,
            ScriptWhy::OtherDevice => 9,
            ScriptWhy::ParamRange => 10,
            ScriptWhy::NoHost => 11,
            ScriptWhy::TooMany => 12,
            ScriptWhy::LateParam => 13,
        }
    }
}

/// Why a text isn't read.
#[derive(Clone, Copy, Debug, PartialEq, Eq)]
pub enum ScriptFail {
    /// The first line that fails a check, counted from 1, and the first check that it fails.
    Refused { line: u32, why: ScriptWhy },
    /// Want of memory.
    Memory,
}

impl From<AllocError> for ScriptFail {
    ghost use Rattle.neigh_script.specs.declared.why.ScriptFail.TheVariants.{Memory};

    ghost from_gives = { λ _ e. e ≡ Memory };

    fn from(_e: AllocError) -> ScriptFail {
        ScriptFail::Memory
    }
}

/// Why a line isn't read.
#[derive(Clone, Copy, Debug, PartialEq, Eq)]
pub(crate) enum LineFail {
    Refused(ScriptWhy),
    Memory,
}

impl From<ScriptWhy> for LineFail {
    ghost from_gives = { λ why e. e ≡ line_fail.Refused why };

    fn from(why: ScriptWhy) -> LineFail {
        LineFail::Refused(why)
    }
}

impl From<AllocError> for LineFail {
    ghost from_gives = { λ _ e. e ≡ line_fail.Memory };

    fn from(_e: AllocError) -> LineFail {
        LineFail::Memory
    }
}

impl<T: Drop> From<AllocFailed<T>> for LineFail {
    ghost from_gives = { λ _ e. e ≡ line_fail.Memory };

    fn from(_e: AllocFailed<T>) -> LineFail {
        LineFail::Memory
    }
}
