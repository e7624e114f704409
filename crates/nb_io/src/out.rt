//! A sink over a writer of std.
ghost use Rattle.std.specs.Prelude.{◌≡◌, ℕ, ◌<◌, ◌≤◌, length, None, IfOk, OnOk, OnErr};
ghost use Rattle.std.specs.Io.KnownBytes.{WriteAppends};
ghost use Rattle.nb_io.specs.Faults.{risen, HasCause};

use crate::{Failed, Sink};
use std::io::Write;

/// A sink over standard output, standard error or any other writer of std. It doesn't tell what it
/// took.
#[derive(Drop)]
pub struct OutSink<W: Write + Drop> {
    inner: W,
    faults: u64,
}

impl<W: Write + Drop> OutSink<W> {
    /// A sink without faults.
    pub fn new(inner: W) -> OutSink<W>
        ensures inner { result.inner ≡ inner }
        ensures faults { result.faults ≡ 0 }
    {
        OutSink { inner, faults: 0 }
    }

    /// How many writes have failed; the count stays at 2^64 - 1.
    pub fn faults(&self) -> u64
        ensures { result ≡ self.now.faults }
    {
        self.faults
    }
}

impl<W: Write + Drop> Sink for OutSink<W> {
    ghost taken = { λ _. None };

    ghost faults = { λ s. s.faults };

    /// A write that took nothing, or that claims to have taken more than it was given, is a fault.
    /// Where the writer tells what it holds, that grows by what was taken and by nothing else.
    fn write(&mut self, bytes: &[u8]) -> Result<usize, Failed>
        requires { 0 < length bytes.now }
        ensures some { IfOk result (λ count. 0 < count) }
        ensures count { IfOk result (λ count. count ≤ length bytes.now) }
        ensures cause { HasCause self.old.faults self.new.faults result }
        ensures passed { WriteAppends (W.contents self.old.inner) (W.contents self.new.inner) result bytes.now }
        ensures kept { OnOk result (self.new.faults ≡ self.old.faults) }
        ensures raised { OnErr result (self.new.faults ≡ risen self.old.faults) }
    {
        match self.inner.write(bytes) {
            Ok(count) if count > 0 && count <= bytes.len() => Ok(count),
            _ => {
                self.faults = self.faults.saturating_add(1);
                Err(Failed)
            }
        }
    }
}
