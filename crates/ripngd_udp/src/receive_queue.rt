//! The queue of datagrams that an interface has received and the router has not processed yet. A socket's buffer is small, so it is
//! emptied into this queue while the router works. Each interface has its own: a neighbor that floods one cannot fill another.

ghost use Rattle.std.specs.Prelude.{◌≡◌, ◌≤◌, ◌↔◌, [], MatchOption, IfOk, IfSome, IsTrue, is_ok, length, min, take};
ghost use Rattle.ripngd_udp.specs.Common.{Gives, HasRoom, Keeps, MayWait, bytes_of};

use ripngd_engine::{Received, Sender};
use std::alloc::{AllocError, Global};
use std::collections::VecDeque;

/// How many datagrams wait at most: more than a whole table from each of 16 neighbors takes.
const ROOM: usize = 16_384;

/// How many bytes they have together at most, 32 MiB: 16,384 datagrams of 2,048 bytes, longer than those of updates.
const ROOM_BYTES: usize = 32 << 20;

/// For how many datagrams that come later there is room that earlier ones have left: as many as come together at the pace of neighbors.
const SPARES: usize = 64;

/// How long the room of a datagram is at most that is kept for others, in bytes: longer than any of an update.
const SPARE_LEN: usize = 2_048;

/// A datagram of a neighbor.
#[derive(Drop)]
pub(crate) struct Datagram {
    pub(crate) sender: Sender,
    pub(crate) bytes: Vec<u8>,
}

/// The received datagrams of an interface, in order.
#[derive(Drop)]
pub(crate) struct ReceiveQueue {
    waiting: VecDeque<Datagram>,
    /// How many bytes they have together.
    held: usize,
    /// The room of datagrams that were given out, for those that come later.
    spares: Vec<Vec<u8>>,
    alloc: Global,
    ghost summed: { held ≡ bytes_of waiting.items },
    ghost room: { MayWait waiting.items },
}

/// Copies as many bytes as fit to the head of a buffer, and returns how many.
fn copy_into(buffer: &mut [u8], bytes: &[u8]) -> usize
    ensures len { result ≡ min (length bytes.now) (length buffer.new) }
    ensures bytes { take result buffer.new ≡ take result bytes.now }
{
    let len = bytes.len().min(buffer.len());
    buffer[..len].copy_from_slice(&bytes[..len]);
    len
}

impl ReceiveQueue {
    /// An empty queue.
    pub(crate) fn new(alloc: Global) -> ReceiveQueue {
        ReceiveQueue {
            waiting: VecDeque::new(alloc),
            held: 0,
            spares: Vec::new(alloc),
            alloc,
        }
    }

    /// Whether nothing waits.
    pub(crate) fn is_empty(&self) -> bool {
        self.waiting.is_empty()
    }

    /// Whether there is room for a datagram of `len` bytes.
    fn has_room(&self, len: usize) -> bool
        ensures { IsTrue result ↔ HasRoom self.now.waiting.items len }
    {
        self.waiting.len() < ROOM && len <= ROOM_BYTES - self.held
    }

    /// A copy of these bytes, in room that an earlier datagram has left, if there is any.
    fn copy_of(&mut self, bytes: &[u8]) -> Result<Vec<u8>, AllocError>
        ensures copy { IfOk result (λ copy. copy.items ≡ bytes.now) }
        ensures waiting { self.new.waiting ≡ self.old.waiting }
        ensures held { self.new.held ≡ self.old.held }
    {
        let mut copy = self.spares.pop().unwrap_or(Vec::new(self.alloc));
        copy.clear();
        copy.extend_from_slice(bytes)?;
        Ok(copy)
    }

    /// Adds a datagram of a neighbor at the end, and returns whether there was room and memory for it. If not, only this datagram is
    /// lost.
    pub(crate) fn keep(&mut self, sender: Sender, bytes: &[u8]) -> bool
        ensures kept { Keeps self.old.waiting.items self.new.waiting.items sender bytes.now result }
        ensures room { MayWait self.new.waiting.items }
    {
        self.has_room(bytes.len()) && self.push(sender, bytes).is_ok()
    }

    fn push(&mut self, sender: Sender, bytes: &[u8]) -> Result<(), AllocError>
        requires { HasRoom self.old.waiting.items (length bytes.now) }
        ensures { Keeps self.old.waiting.items self.new.waiting.items sender bytes.now (is_ok result) }
    {
        let len = bytes.len();
        let bytes = self.copy_of(bytes)?;
        self.waiting.push_back(Datagram { sender, bytes })?;
        self.held += len;
        Ok(())
    }

    /// Keeps the memory of a datagram that was given out, if another fits in it: to take memory anew for each costs more than to copy
    /// its bytes.
    fn spare(&mut self, room: Vec<u8>)
        ensures waiting { self.new.waiting ≡ self.old.waiting }
        ensures held { self.new.held ≡ self.old.held }
    {
        if self.spares.len() < SPARES && room.capacity() <= SPARE_LEN {
            let _ = self.spares.push(room);
        }
    }

    /// Takes out the first datagram: its bytes go into a buffer, as many as fit, and it is described as one that came to `iface`.
    pub(crate) fn next(&mut self, iface: usize, buffer: &mut [u8]) -> Option<Received>
        ensures first { MatchOption result ((self.old.waiting.items ≡ []) × (self.new.waiting.items ≡ []))
            (Gives iface self.old.waiting.items self.new.waiting.items buffer.new) }
        ensures interface { IfSome result (λ r. r.iface ≡ iface) }
        ensures within { IfSome result (λ r. r.len ≤ length buffer.new) }
    {
        let Datagram { sender, bytes } = self.waiting.pop_front()?;
        self.held -= bytes.len();
        let len = copy_into(buffer, bytes.as_slice());
        self.spare(bytes);
        Some(Received {
            iface,
            source: sender.addr,
            source_port: sender.port,
            hop_limit: sender.hop_limit,
            to_group: sender.to_group,
            len,
        })
    }
}
