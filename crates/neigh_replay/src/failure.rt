//! Why no report, or not the whole, is written.
use neigh_script::ScriptWhy;
use pcap_records::CaptureFail;
use std::alloc::AllocError;

/// One of the files that are asked for.
#[derive(Clone, Copy, Debug, PartialEq, Eq)]
pub enum File {
    Script,
    Capture,
}

/// Why no report, or not the whole, was written.
#[derive(Clone, Copy, Debug, PartialEq, Eq)]
pub enum Failure {
    Memory,
    ReadFault(File),
    TooLong(File),
    CaptureRefused(CaptureFail),
    /// The script is refused at this line, counted from 1.
    ScriptRefused { line: u32, why: ScriptWhy },
    /// The plan's line bound is at least 2^22.
    TooLarge,
    WriteFault,
}

impl From<AllocError> for Failure {
    ghost use Rattle.std.specs.Prelude.{◌≡◌};
    ghost use Rattle.neigh_replay.specs.declared.failure.Failure.TheVariants.{Memory};

    ghost from_gives = { λ _ e. e ≡ Memory };

    fn from(_e: AllocError) -> Failure {
        Failure::Memory
    }
}
