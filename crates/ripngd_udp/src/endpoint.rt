//! The sockets of an interface, with its queues of received datagrams and of those that wait to be sent.

ghost use Rattle.std.specs.Prelude.{◌≡◌, ◌≤◌, IfErr, IfOk, IfSome, IsNone, length, map, true, vec_len};
ghost use Rattle.ripngd_udp.specs.Common.{no_queue, GivesNone, Grows, Judges, NamesSocketOf, is_command, is_taken};
ghost use Rattle.ripngd_udp.specs.Queues.{queues_of};

use crate::known::Known;
use crate::link_sockets::LinkSockets;
use crate::peer_table::PeerTable;
use crate::receive_queue::ReceiveQueue;
use crate::send_queue::SendQueue;
use crate::udp::{BindCause, UdpError};
use crate::waiting::Polled;
use prefix6::Addr6;
use ripng_wire::Command;
use ripngd_engine::{LinkFault, Place, Received};
use std::alloc::Global;
use std::io::{self, ErrorKind};
use std::net::Net;

/// How many datagrams are read from one socket before the next socket: more than its buffer holds.
const TAKEN_AT_ONCE: u32 = 512;

/// What a link of sockets counts. A count stays at the greatest `u64`.
#[derive(Clone, Copy, Debug, PartialEq, Eq)]
pub(crate) struct Counts {
    /// Datagrams that waited and then could not be sent, also because their peer was removed.
    pub(crate) failed_sends: u64,
    /// Datagrams of peers that were lost because the queue was full, or memory was refused, and Requests that were not answered.
    pub(crate) lost_arrivals: u64,
    /// Datagrams that came from a port of no peer.
    pub(crate) strangers: u64,
}

/// The sockets of an interface, and what waits there.
#[derive(Drop)]
pub(crate) struct Endpoint {
    pub(crate) sockets: LinkSockets,
    pub(crate) send_queue: SendQueue,
    receive_queue: ReceiveQueue,
    /// Who has sent Responses there.
    known: Known,
    /// Whether there may be something to read: the system said so, and no read has found it empty since.
    pub(crate) ready: bool,
}

/// Whether these bytes are those of a datagram with that command (RFC 2080, section 2.1).
fn is_command(bytes: &[u8], command: Command) -> bool
    ensures { result ≡ is_command bytes.now command }
{
    match bytes {
        [first, ..] => *first == command as u8,
        [] => false,
    }
}

/// The sockets at each place, in order.
///
/// # Errors
/// `Bind` with the first place whose sockets cannot be had, and why; or out of memory.
pub(crate) fn endpoints_at<N: Net>(
    net: &N,
    alloc: Global,
    waiting: &Polled,
    places: &[Place],
) -> Result<Vec<Endpoint>, UdpError>
    ensures count { IfOk result (λ endpoints. vec_len endpoints ≡ length places.now) }
    ensures queues { IfOk result (λ endpoints. queues_of endpoints.items ≡ map (λ p. no_queue) places.now) }
    ensures refused { IfErr result (NamesSocketOf places.now) }
{
    let mut endpoints = Vec::new(alloc);
    for place in places {
        let socket = place.socket;
        let sockets = match LinkSockets::open(net, alloc, waiting, endpoints.len(), socket) {
            Ok(sockets) => sockets,
            Err(error) => {
                let cause = BindCause::of(&error);
                return Err(UdpError::Bind { socket, cause });
            }
        };
        let known = Known::new(alloc).map_err(|_| UdpError::OutOfMemory)?;
        let endpoint = Endpoint {
            sockets,
            send_queue: SendQueue::new(alloc),
            receive_queue: ReceiveQueue::new(alloc),
            known,
            ready: false,
        };
        endpoints.push(endpoint).map_err(|_| UdpError::OutOfMemory)?;
    }
    Ok(endpoints)
}

impl Endpoint {
    /// Whether a datagram waits for the router.
    pub(crate) fn has_datagram(&self) -> bool {
        !self.receive_queue.is_empty()
    }

    /// Whether no datagram waits for the router, and the socket need not be read.
    pub(crate) fn is_quiet(&self) -> bool {
        self.receive_queue.is_empty() && !self.ready
    }

    /// A read gave no datagram: returns that there is no other now. The socket is empty, or is to be read again soon.
    ///
    /// # Errors
    /// The socket failed.
    fn leave(&mut self, error: &io::Error) -> Result<bool, LinkFault> {
        match error.kind() {
            ErrorKind::WouldBlock | ErrorKind::TimedOut => Ok(false),
            ErrorKind::Interrupted => {
                self.ready = true;
                Ok(false)
            }
            _ => Err(LinkFault),
        }
    }

    /// Reads one datagram into the queue, by way of a buffer, from the socket of a group or, without its number, from the other one.
    /// Returns whether to try for another. One that the queue cannot keep is lost, one that nobody can have sent is dropped; both are
    /// counted.
    ///
    /// # Errors
    /// The socket could not be read.
    fn take_one(
        &mut self,
        group: Option<usize>,
        peer_table: &PeerTable,
        buffer: &mut [u8],
        counts: &mut Counts,
    ) -> Result<bool, LinkFault>
        ensures { Grows counts.old counts.new }
    {
        let (hop_limit, read) = self.sockets.read(group, buffer);
        let (len, from) = match read {
            Ok(read) => read,
            Err(error) => return self.leave(&error),
        };
        let Some(sender) = peer_table.sender_at(from, hop_limit) else {
            counts.strangers = counts.strangers.saturating_add(1);
            return Ok(true);
        };
        if is_command(&buffer[..len], Command::Response) {
            self.known.note(sender.addr);
        }
        let kept = self.receive_queue.keep(sender, &buffer[..len]);
        if !kept {
            self.ready = true;
            counts.lost_arrivals = counts.lost_arrivals.saturating_add(1);
        }
        Ok(kept)
    }

    /// Reads what is there at one socket, but not without end.
    ///
    /// # Errors
    /// The socket could not be read.
    fn take_some(
        &mut self,
        group: Option<usize>,
        peer_table: &PeerTable,
        buffer: &mut [u8],
        counts: &mut Counts,
    ) -> Result<(), LinkFault>
        ensures { Grows counts.old counts.new }
    {
        for _ in 0..TAKEN_AT_ONCE {
            if !self.take_one(group, peer_table, buffer, counts)? {
                return Ok(());
            }
        }
        self.ready = true;
        Ok(())
    }

    /// Reads what is there, if a socket is ready, until the queue is full and one datagram was lost.
    ///
    /// # Errors
    /// The socket could not be read.
    pub(crate) fn take_all(
        &mut self,
        peer_table: &PeerTable,
        buffer: &mut [u8],
        counts: &mut Counts,
    ) -> Result<(), LinkFault>
        ensures { Grows counts.old counts.new }
    {
        if !self.ready {
            return Ok(());
        }
        self.ready = false;
        self.take_some(None, peer_table, buffer, counts)?;
        for number in 0..self.sockets.group_count() {
            self.take_some(Some(number), peer_table, buffer, counts)?;
        }
        Ok(())
    }

    /// Whether a datagram of an address is given to the router: any but a Request that is not answered.
    fn is_taken(&self, addr: Addr6, bytes: &[u8]) -> bool
        ensures { result ≡ is_taken self.now.send_queue.waiting.items self.now.known.addrs.items addr bytes.now }
    {
        !is_command(bytes, Command::Request)
            || self.send_queue.is_answered(self.known.has(addr), addr)
    }

    /// Takes out the first datagram that waits for the router, as one that came to `iface`. A Request that is not answered is lost
    /// instead, and counted.
    pub(crate) fn next(
        &mut self,
        iface: usize,
        buffer: &mut [u8],
        counts: &mut Counts,
    ) -> Option<Received>
        ensures gives { IfSome result (λ r. Judges self.old.send_queue.waiting.items self.old.known.addrs.items iface
            self.old.receive_queue.waiting.items self.new.receive_queue.waiting.items buffer.new r true) }
        ensures none { IsNone result → GivesNone self.old.send_queue.waiting.items self.old.known.addrs.items iface
            self.old.receive_queue.waiting.items self.new.receive_queue.waiting.items buffer.new
            counts.old.lost_arrivals counts.new.lost_arrivals }
        ensures interface { IfSome result (λ r. r.iface ≡ iface) }
        ensures within { IfSome result (λ r. r.len ≤ length buffer.new) }
        ensures counts { Grows counts.old counts.new }
        ensures waits { self.new.send_queue ≡ self.old.send_queue }
    {
        let received = self.receive_queue.next(iface, buffer)?;
        if self.is_taken(received.source, &buffer[..received.len]) {
            return Some(received);
        }
        counts.lost_arrivals = counts.lost_arrivals.saturating_add(1);
        None
    }
}
