//! A sink in memory.
ghost use Rattle.std.specs.Prelude.{◌≡◌, ℕ, ◌<◌, ◌≤◌, ◌+◌, ◌++◌, length, take, vec_len, vec_capacity, [], Some, is_some, is_ok, not, IfOk, OnOk, OnErr};
ghost use Rattle.std.specs.Io.KnownBytes.{WriteAppends};
ghost use Rattle.nb_io.specs.Faults.{risen, HasCause};

use crate::failing::FailingCalls;
use crate::{Failed, Sink};
use std::alloc::{AllocError, Global};

/// A sink in memory with a room, a most that one call takes, and calls that are to fail. It tells
/// all. Its room is taken when it is made, so a write takes no memory.
#[derive(Debug, Drop)]
pub struct MemorySink {
    bytes: Vec<u8>,
    room: usize,
    most: usize,
    calls: FailingCalls,
    faults: u64,
    ghost takes_some: { 0 < most },
    ghost fits: { vec_len bytes ≤ room },
    ghost reserved: { room ≤ vec_capacity bytes },
}

impl MemorySink {
    ghost use Rattle.nb_io.specs.MemorySinks.{sink_bytes, sink_room, sink_most, sink_fails, sink_calls, sink_faults};

    /// A sink that has taken nothing and takes `room` bytes in all, at most `most` of them in one
    /// call. `fails` has the numbers of the writes that are to fail, counted from 1.
    pub fn new(alloc: Global, room: u32, most: u32, fails: &[u32]) -> Result<MemorySink, AllocError>
        requires { 0 < most }
        ensures bytes { IfOk result (λ sink. sink_bytes sink ≡ []) }
        ensures room { IfOk result (λ sink. sink_room sink ≡ room) }
        ensures most { IfOk result (λ sink. sink_most sink ≡ most) }
        ensures fails { IfOk result (λ sink. sink_fails sink ≡ fails.now) }
        ensures calls { IfOk result (λ sink. sink_calls sink ≡ 0) }
        ensures faults { IfOk result (λ sink. sink_faults sink ≡ 0) }
    {
        let room = room as usize;
        Ok(MemorySink {
            bytes: Vec::with_capacity(alloc, room)?,
            room,
            most: most as usize,
            calls: FailingCalls::new(alloc, fails)?,
            faults: 0,
        })
    }

    /// The bytes taken.
    pub fn bytes(&self) -> &[u8]
        ensures { result.now ≡ sink_bytes self.now }
    {
        &self.bytes
    }

    /// How many writes have failed; the count stays at 2^64 - 1.
    pub fn faults(&self) -> u64
        ensures { result ≡ sink_faults self.now }
    {
        self.faults
    }
}

impl Sink for MemorySink {
    ghost use Rattle.nb_io.specs.MemorySinks.{sink_bytes, sink_faults, write_fails, write_count, CountsWrite};

    ghost taken = { λ s. Some s.bytes.items };

    ghost faults = { λ s. s.faults };

    /// It fails exactly where the call's number is among those that are to fail or the room is full,
    /// and takes exactly the least of the bytes given, the most of one call, and the room left.
    fn write(&mut self, bytes: &[u8]) -> Result<usize, Failed>
        requires { 0 < length bytes.now }
        ensures some { IfOk result (λ count. 0 < count) }
        ensures count { IfOk result (λ count. count ≤ length bytes.now) }
        ensures bytes { WriteAppends (Some (sink_bytes self.old)) (Some (sink_bytes self.new)) result bytes.now }
        ensures refused { OnErr result (Some (sink_bytes self.new) ≡ Some (sink_bytes self.old)) }
        ensures told { is_some (Some (sink_bytes self.new)) ≡ is_some (Some (sink_bytes self.old)) }
        ensures cause { HasCause (sink_faults self.old) (sink_faults self.new) result }
        ensures succeeds { is_ok result ≡ not (write_fails self.old) }
        ensures takes { IfOk result (λ count. count ≡ write_count self.old bytes.now) }
        ensures kept { OnOk result (sink_faults self.new ≡ sink_faults self.old) }
        ensures raised { OnErr result (sink_faults self.new ≡ risen (sink_faults self.old)) }
        ensures call { CountsWrite self.old self.new }
    {
        let left = self.room - self.bytes.len();
        if self.calls.fails_next() || left == 0 {
            self.faults = self.faults.saturating_add(1);
            return Err(Failed);
        }
        let count = bytes.len().min(self.most).min(left);
        match self.bytes.extend_from_slice(&bytes[..count]) {
            Ok(()) => Ok(count),
            Err(AllocError) => Err(Failed),
        }
    }
}
