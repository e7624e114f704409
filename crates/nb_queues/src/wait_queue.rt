//! The packets that wait for an address.
ghost use Rattle.std.specs.Prelude.{◌≡◌, ◌*◌, ◌<◌, ◌≤◌, [], ◌∷◌, ◌++◌, length, option_to_list, IfOk, ◌↔◌};
ghost use Rattle.nb_queues.specs.Queue.{largest, total_size};

use circular_buffer::HeapCircularBuffer;
use nb_base::OpId;
use std::alloc::{AllocError, Global};
use std::marker::Model;

/// Packets that wait for a neighbour's address, at most 64, the oldest first (RFC 4861 section 7.2.2).
/// Contracts see the list of pairs of a packet's number and its size.
#[derive(Drop)]
pub struct WaitQueue {
    packets: HeapCircularBuffer<(OpId, u32)>,
    total: u32,
}

impl Model for WaitQueue {
    ghost use Rattle.std.specs.Prelude.{◌≡◌, ◌≤◌, length, List, IsTrue};
    ghost use Rattle.nb_queues.specs.Queue.{Packet, total_size, are_small};

    ghost Value = { List Packet };

    ghost view = { λ q. q.packets.items };

    ghost invariant = { λ q. (q.packets.capacity ≡ 64) × (length q.packets.items ≤ 64) × IsTrue (are_small q.packets.items) × (q.total ≡ total_size q.packets.items) };
}

impl WaitQueue {
    /// The most packets that wait.
    pub const MOST: u32 = 64;

    /// The size of the largest packet: 1,500 bytes, and 256 more.
    pub const LARGEST: u32 = 1_756;

    /// An empty queue. Only this call takes memory.
    pub fn new(alloc: Global) -> Result<WaitQueue, AllocError>
        ensures { IfOk result (λ q. q ≡ []) }
    {
        let packets = HeapCircularBuffer::with_capacity(alloc, WaitQueue::MOST as usize)?;
        Ok(WaitQueue { packets, total: 0 })
    }

    /// Puts a packet behind the others, of which there are fewer than 64. No packet is larger than the
    /// largest payload and 256 bytes.
    pub fn push(&mut self, id: OpId, size: u32)
        requires room { length self.old < 64 }
        requires small { size ≤ largest }
        ensures { self.new ≡ self.old ++ (id, size) ∷ [] }
    {
        let _none = self.packets.push_back((id, size));
        self.total += size;
    }

    /// Takes the oldest packet off: `None` exactly where none waits.
    pub fn pop(&mut self) -> Option<(OpId, u32)>
        ensures packets { option_to_list result ++ self.new ≡ self.old }
        ensures none { (result ≡ None) ↔ (self.old ≡ []) }
    {
        let oldest = self.packets.pop_front();
        if let Some((_id, size)) = oldest {
            self.total -= size;
        }
        oldest
    }

    /// How many packets wait.
    pub fn len(&self) -> u32
        ensures len { result ≡ length self.now }
        ensures within { result ≤ 64 }
    {
        self.packets.len() as u32
    }

    /// The sizes of the packets that wait, together.
    pub fn total(&self) -> u32
        ensures total { result ≡ total_size self.now }
        ensures within { result ≤ 64 * largest }
    {
        self.total
    }
}
