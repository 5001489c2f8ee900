//! What may happen in a network, what its routers send, and why an event is refused.

ghost use Rattle.std.specs.Prelude.{◌≡◌};
ghost use Rattle.ripng_world.specs.Common.{arrival_from, event_of, lab_error_name, refusal_of, router_of, OutOfMemory};

use prefix6::Addr6;
use route_table::Moment;
use router_core::{
    Arrival, Change, Destination, Listed, MAX_HOP_LIMIT, RIPNG_PORT, ReconfigureRefused,
};
use std::alloc::AllocError;

/// A datagram that was sent, by a router and its interface with these numbers.
#[derive(Drop)]
pub struct Sent {
    pub router: usize,
    pub iface: usize,
    pub to: Destination,
    pub bytes: Listed<u8>,
}

impl Sent {
    /// The datagram as it comes to an interface, from an address.
    pub fn arrival(&self, source: Addr6, iface: usize, now: Moment) -> Arrival<'_>
        ensures { result ≡ arrival_from source self.now iface now }
    {
        Arrival {
            now,
            iface,
            source,
            source_port: RIPNG_PORT,
            hop_limit: MAX_HOP_LIMIT,
            to_group: matches!(self.to, Destination::Group),
            bytes: self.bytes.as_slice(),
        }
    }
}

/// What may happen in a network. Its routers, the interfaces of each and all datagrams ever sent are numbered from 0. Each router
/// has a clock of its own: `now` is the moment by that.
#[derive(Drop)]
pub enum Event<'a> {
    /// A datagram that a router sent comes to an interface of the link that it was sent on. Any datagram ever sent may come, at
    /// any time and any number of times. One that never comes is lost.
    Deliver {
        datagram: usize,
        router: usize,
        iface: usize,
        now: Moment,
    },
    /// An outside host sends a datagram to a router. The event is refused for a Response that the router would accept.
    Stranger {
        router: usize,
        arrival: Arrival<'a>,
    },
    /// Time passes at a router. The word is a random number, for the times of the next updates.
    Tick {
        router: usize,
        now: Moment,
        word: u32,
    },
    /// A router restarts.
    Restart {
        router: usize,
        now: Moment,
    },
    /// A router shuts down: its last update poisons every route. Its own table stays.
    Shutdown {
        router: usize,
        now: Moment,
    },
    /// The link of an interface goes down: what the router learned there is unreachable at once.
    LinkDown {
        router: usize,
        now: Moment,
        iface: usize,
    },
    /// The link of an interface comes up: the router asks the neighbors there for their tables. Its own table stays.
    LinkUp {
        router: usize,
        now: Moment,
        iface: usize,
    },
    /// The configuration of a router is changed.
    Reconfigure {
        router: usize,
        now: Moment,
        change: Change,
    },
}

/// Why an event is refused: the first reason to refuse it, in this order.
#[derive(Clone, Copy, Debug, PartialEq, Eq)]
pub enum LabError {
    /// The network has no router with that number.
    NoSuchRouter,
    /// The router has no interface with that number.
    NoSuchInterface,
    /// No datagram with that number was sent yet.
    NoSuchDatagram,
    /// The datagram was sent on another link, so it cannot come to this interface.
    OtherLink,
    /// The arrival is a Response that the router would accept, as if a neighbor had sent it.
    NotAStranger,
    /// Memory was refused.
    OutOfMemory,
    /// The router refused the change of its configuration. Tested after the first two.
    ReconfigureRefused(ReconfigureRefused),
    /// The router would not accept the arrival as a Response, so any outside host may send it. Tested after the first two.
    NotALiar,
}

impl LabError {
    /// The name of the refusal, one word, and its number, 1 to 8.
    pub fn name_and_number(self) -> (&'static str, u8)
        ensures { (result.0.now, result.1) ≡ lab_error_name self }
    {
        match self {
            LabError::NoSuchRouter => ("NoSuchRouter", 1),
            LabError::NoSuchInterface => ("NoSuchInterface", 2),
            LabError::NoSuchDatagram => ("NoSuchDatagram", 3),
            LabError::OtherLink => ("OtherLink", 4),
            LabError::NotAStranger => ("NotAStranger", 5),
            LabError::OutOfMemory => ("OutOfMemory", 6),
            LabError::ReconfigureRefused(_) => ("ReconfigureRefused", 7),
            LabError::NotALiar => ("NotALiar", 8),
        }
    }
}

impl From<AllocError> for LabError {
    ghost from_gives = { λ _ refusal. refusal ≡ OutOfMemory };

    fn from(_error: AllocError) -> LabError {
        LabError::OutOfMemory
    }
}

impl From<ReconfigureRefused> for LabError {
    ghost from_gives = { λ why refusal. refusal ≡ refusal_of why };

    fn from(why: ReconfigureRefused) -> LabError {
        match why {
            ReconfigureRefused::OutOfMemory => LabError::OutOfMemory,
            _ => LabError::ReconfigureRefused(why),
        }
    }
}

impl<'a> Event<'a> {
    /// The number of the router that moves.
    pub fn router(&self) -> usize
        ensures { result ≡ router_of (event_of self.entry.now) }
    {
        match self {
            Event::Deliver { router, .. }
            | Event::Stranger { router, .. }
            | Event::Tick { router, .. }
            | Event::Restart { router, .. }
            | Event::Shutdown { router, .. }
            | Event::LinkDown { router, .. }
            | Event::LinkUp { router, .. }
            | Event::Reconfigure { router, .. } => *router,
        }
    }
}
