//! The link that an engine sends and receives over.

ghost use Rattle.std.specs.Prelude.{◌≡◌, ℕ, ◌<◌, ◌≤◌, [], ◌∷◌, List, Option, length, is_ok, IfOk, IfSome};
ghost use Rattle.ripngd_engine.specs.Common.{Call, Handed, recv_call, Gains, no_queue, queue_at};

use prefix6::Addr6;
use router_core::Outgoing;
use thiserror::Error;

/// A datagram that a link has put into a buffer.
#[derive(Clone, Copy, Debug, PartialEq, Eq)]
pub struct Received {
    /// The number of the interface that it arrived at.
    pub iface: usize,
    /// The address that it came from.
    pub source: Addr6,
    /// The UDP port that it came from.
    pub source_port: u16,
    /// The hop limit it arrived with, 255 if no router forwarded it.
    pub hop_limit: u8,
    /// Whether it was sent to the group of all RIPng routers, FF02::9 (RFC 2080, section 2.5), and not to this router.
    pub to_group: bool,
    /// How many bytes it has; they are the first of the buffer.
    pub len: usize,
}

/// What waits to be sent on an interface.
#[derive(Clone, Copy, Debug, PartialEq, Eq)]
pub struct Queue {
    /// Datagrams.
    pub waiting: usize,
    /// Those of them that answer Requests; the others are parts of updates and Requests.
    pub answers: usize,
}

impl Queue {
    /// Nothing waits.
    pub const fn empty() -> Queue
        ensures { result ≡ no_queue }
    {
        Queue {
            waiting: 0,
            answers: 0,
        }
    }
}

/// A link could not be read, or could not send a datagram.
#[derive(Clone, Copy, Debug, PartialEq, Eq, Error)]
#[error("the link failed")]
pub struct LinkFault;

/// Interfaces, numbered from 0, that receive and send datagrams.
pub trait Link: Drop {
    ghost use Rattle.ripngd_engine.specs.declared.link.Queue.{Queue};

    // The calls of `recv` and `send` so far, failed or not, or `None` for a link whose past contracts do not see. From `Some` it
    // may become `None`, and nothing is promised from then on.
    ghost calls: { Self → Option (List Call) };

    // How many interfaces it has. No call changes it.
    ghost interface_count: { Self → ℕ };

    // What waits to be sent on each interface, in their order.
    ghost queues: { Self → List Queue };

    /// How many interfaces it has.
    fn interfaces(&self) -> usize
        ensures { result ≡ interface_count self.now };

    /// What waits to be sent on an interface; nothing where the link has no such interface.
    fn queue_at(&self, iface: usize) -> Queue
        ensures { result ≡ queue_at (queues self.now) iface };

    /// Receives the next datagram into the buffer. It may wait a little; `None` where no datagram came.
    ///
    /// # Errors
    /// The link could not be read. The caller may try again.
    fn recv(&mut self, buffer: &mut [u8]) -> Result<Option<Received>, LinkFault>
        ensures gained { Gains (calls self.old) (calls self.new) (recv_call result buffer.new ∷ []) }
        ensures interface { IfOk result (λ o. IfSome o (λ r. r.iface < interface_count self.old)) }
        ensures within { IfOk result (λ o. IfSome o (λ r. r.len ≤ length buffer.new)) }
        ensures same { interface_count self.new ≡ interface_count self.old };

    /// Sends a datagram on the interface that it names, at once or a little later, in the order of the calls.
    ///
    /// # Errors
    /// The datagram could not be sent. It is lost.
    fn send(&mut self, outgoing: &Outgoing) -> Result<(), LinkFault>
        ensures gained { Gains (calls self.old) (calls self.new) (Handed outgoing.now (is_ok result) ∷ []) }
        ensures same { interface_count self.new ≡ interface_count self.old };
}

/// A change of a link while a router runs over it, as of its peers. It receives and sends nothing, and the interfaces stay the same.
pub trait LinkChange<L: Link> {
    /// Makes the change.
    fn make(&mut self, link: &mut L)
        ensures calls { L.calls link.new ≡ L.calls link.old }
        ensures queues { L.queues link.new ≡ L.queues link.old }
        ensures same { L.interface_count link.new ≡ L.interface_count link.old };
}
