//! Sinks, and whole writes to them.
ghost use Rattle.std.specs.Prelude.{◌≡◌, ℕ, ◌<◌, ◌≤◌, List, length, take, Option, is_some, IfOk, OnOk, OnErr};
ghost use Rattle.std.specs.Io.KnownBytes.{Appends, WriteAppends};
ghost use Rattle.nb_io.specs.Faults.{Rose, HasCause};

use crate::Failed;

/// What takes bytes in order. What it took is told to contracts or not; no call changes whether it is
/// told, and what was taken stays. It has one count of its faults, which never falls.
pub trait Sink {
    /// The bytes taken, where they are told.
    ghost taken: { Self → Option (List ℕ) };

    /// How many writes have failed; the count stays at 2^64 - 1.
    ghost faults: { Self → ℕ };

    /// Takes bytes from the front, at least one of them, and tells how many.
    ///
    /// `Failed` comes only where the count rose, and nothing was taken then.
    fn write(&mut self, bytes: &[u8]) -> Result<usize, Failed>
        requires { 0 < length bytes.now }
        ensures some { IfOk result (λ count. 0 < count) }
        ensures count { IfOk result (λ count. count ≤ length bytes.now) }
        ensures bytes { WriteAppends (taken self.old) (taken self.new) result bytes.now }
        ensures refused { OnErr result (taken self.new ≡ taken self.old) }
        ensures told { is_some (taken self.new) ≡ is_some (taken self.old) }
        ensures cause { HasCause (faults self.old) (faults self.new) result };
}

/// A write that the sink refused.
#[derive(Clone, Copy, Debug, PartialEq, Eq)]
pub struct WriteFault;

/// Writes all the bytes. It takes no memory.
///
/// `WriteFault` comes only where the sink's count rose, and a part of the bytes from their front was
/// written then, which may be empty.
pub fn write_all<K: Sink>(sink: &mut K, bytes: &[u8]) -> Result<(), WriteFault>
    ensures ok { OnOk result (Appends (K.taken sink.old) (K.taken sink.new) bytes.now) }
    ensures part { OnErr result ((n : ℕ) × Appends (K.taken sink.old) (K.taken sink.new) (take n bytes.now)) }
    ensures told { is_some (K.taken sink.new) ≡ is_some (K.taken sink.old) }
    ensures later { K.faults sink.old ≤ K.faults sink.new }
    ensures fault { OnErr result (Rose (K.faults sink.old) (K.faults sink.new)) }
{
    let mut written = 0;
    while written < bytes.len() {
        match sink.write(&bytes[written..]) {
            Ok(count) => written += count,
            Err(Failed) => return Err(WriteFault),
        }
    }
    Ok(())
}
