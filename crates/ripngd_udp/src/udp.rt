//! A link of UDP sockets: on a real link those that the process was started with; in place of one, a socket at a port of 127.0.0.1
//! for each interface and for each neighbor on its link.

ghost use Rattle.std.specs.Prelude.{◌≡◌, ◌↔◌, IfErr, IfOk, None, OnErr, OnOk, length, map, vec_len, ◌≤◌, ◌<◌, ◌++◌, ◌∷◌, [], IfSome, Some, is_ok};
ghost use Rattle.ripngd_udp.specs.Common.{error_kind, result_err, ChangesLink, RefusesFor, adding_fault, removing_fault, with_peer, without_peer, NamesSocketOf, SendsLate, new_link, LinkState, Handed, recv_call};
ghost use Rattle.ripngd_udp.specs.Queues.{queues_of};

use crate::clock::Uptime;
use crate::endpoint::{Counts, Endpoint, endpoints_at};
use crate::peer_refused::PeerRefused;
use crate::peer_table::{PeerTable, check_peer, peer_tables_at};
use crate::waiting::Polled;
use prefix6::Addr6;
use ripngd_engine::{
    Entry, Link, LinkFault, Peer, Place, Queue, Received, Socket, TimeSource, Transcript,
};
use router_core::Outgoing;
use std::alloc::Global;
use std::io::{self, ErrorKind};
use std::marker::Model;
use std::net::Net;
use std::os::fd::RawFd;
use std::rt::Clock;
use std::thread;
use std::time::Duration;
use thiserror::Error;

/// How long a turn lasts at most, in milliseconds, if nothing else takes time: less than the half of a second in which a router has
/// to tick.
const LONGEST_MS: u64 = 400;

/// How often the last datagrams may wait: more than any need, in case the clock stands still.
const LAST_WAITS: u32 = 4_096;

/// Why a socket could not be had.
#[derive(Clone, Copy, Debug, PartialEq, Eq)]
pub enum BindCause {
    /// Not permitted, as a port below 1024 is without privilege.
    NotPermitted,
    /// Another socket is bound to it, often that of another router with the same configuration.
    InUse,
    /// Any other reason.
    Other,
}

impl BindCause {
    /// The cause that an error of the system names.
    pub(crate) fn of(error: &io::Error) -> BindCause
        ensures permission { (result ≡ BindCause.NotPermitted) ↔ (error_kind error.now ≡ ErrorKind.PermissionDenied) }
        ensures in_use { (result ≡ BindCause.InUse) ↔ (error_kind error.now ≡ ErrorKind.AddrInUse) }
    {
        match error.kind() {
            ErrorKind::PermissionDenied => BindCause::NotPermitted,
            ErrorKind::AddrInUse => BindCause::InUse,
            _ => BindCause::Other,
        }
    }
}

/// Why a link could not be bound.
#[derive(Clone, Copy, Debug, PartialEq, Eq, Error)]
pub enum UdpError {
    /// 1: this socket cannot be had.
    #[error("1 Bind")]
    Bind { socket: Socket, cause: BindCause },
    /// 2: there was not enough memory.
    #[error("2 OutOfMemory")]
    OutOfMemory,
}

/// A link of sockets, one for each interface, and a clock. Contracts see its interfaces and their peers, what it has lost, what waits to
/// be sent on each interface, and each call of `recv` and `send` with its result. They do not see what the sockets carry.
///
/// A datagram is sent at once. If too many would reach the socket of a neighbor together, it is sent a few milliseconds later, by
/// `recv` or at last by `finish`.
#[derive(Drop)]
pub struct Udp<'a, R: Clock> {
    pub(crate) endpoints: Vec<Endpoint>,
    /// The peers of each interface.
    pub(crate) peer_tables: Vec<PeerTable>,
    pub(crate) counts: Counts,
    pub(crate) waiting: Polled,
    pub(crate) rt: &'a R,
    pub(crate) clock: Uptime<'a, R>,
    /// The interface that is served next.
    pub(crate) next: usize,
    /// How many milliseconds after the end of the last `recv` the next one waits, if nothing arrives.
    pub(crate) pause: u64,
    /// When the last `recv` ended, in milliseconds.
    pub(crate) since: u64,
    /// Whether the last `recv` gave no datagram.
    pub(crate) was_silent: bool,
    /// Whether the last poll found a datagram, so that more are to be expected.
    pub(crate) is_busy: bool,
    /// Whether something was there to read at what is watched, in the last `recv`.
    pub(crate) was_called: bool,
    pub(crate) transcript: Transcript,
}

impl<'a, R: Clock> Model for Udp<'a, R> {
    ghost Value = { LinkState };

    ghost view = { λ link. record {
      interfaces = vec_len link.peer_tables;
      on_links = link.peer_tables.items;
      failed_sends = link.counts.failed_sends;
      lost_arrivals = link.counts.lost_arrivals;
      strangers = link.counts.strangers;
      queues = queues_of link.endpoints.items;
      calls = link.transcript.past.calls;
    } };

    ghost invariant = { λ link. (link.pause ≤ 400) × (vec_len link.endpoints ≡ vec_len link.peer_tables) };
}

impl<'a, R: Clock> Udp<'a, R> {
    /// An interface at each place, in order, with its peers.
    ///
    /// # Errors
    /// `Bind` with the first local port that cannot be bound, and why. The others are closed.
    pub fn bind(
        rt: &'a R,
        alloc: Global,
        places: &[Place],
        peers: Vec<Vec<Peer>>,
    ) -> Result<Udp<'a, R>, UdpError>
    where
        R: Net,
        requires { length places.now ≡ vec_len peers }
        ensures bound { IfOk result (λ link. link ≡ new_link places.now (map (λ v. v.items) peers.items)) }
        ensures refused { IfErr result (NamesSocketOf places.now) }
    {
        let waiting = Polled::new(rt, alloc, places)?;
        Ok(Udp {
            endpoints: endpoints_at(rt, alloc, &waiting, places)?,
            peer_tables: peer_tables_at(alloc, places, peers).map_err(|_| UdpError::OutOfMemory)?,
            counts: Counts {
                failed_sends: 0,
                lost_arrivals: 0,
                strangers: 0,
            },
            waiting,
            rt,
            clock: Uptime::new(rt),
            next: 0,
            pause: LONGEST_MS,
            since: 0,
            was_silent: false,
            is_busy: false,
            was_called: false,
            transcript: Transcript::of(&Entry::Nothing),
        })
    }

    /// Sends all that waits to be sent, at its pace. To be called when nothing more is received.
    pub fn finish(&mut self)
        ensures { SendsLate self.old self.new }
    {
        for _ in 0..LAST_WAITS {
            let moment = self.clock.now().ms();
            self.send_waiting(Some(moment));
            let now = self.clock.now().ms();
            let Some(nap) = self.until_due(now) else {
                return;
            };
            thread::sleep(self.rt, Duration::from_millis(nap));
        }
        self.send_waiting(None);
    }

    /// Adds a peer to an interface.
    ///
    /// # Errors
    /// The first reason that applies, in the order of `PeerRefused`. Nothing is changed.
    pub fn add_peer(&mut self, iface: usize, peer: Peer) -> Result<(), PeerRefused>
        ensures added { OnOk result (ChangesLink (λ i. with_peer i peer) iface self.old.on_links self.new.on_links) }
        ensures passes { OnOk result (adding_fault self.old.on_links iface peer ≡ None) }
        ensures refused { IfErr result (RefusesFor (adding_fault self.old.on_links iface peer)) }
        ensures err { OnErr result (self.new ≡ self.old) }
        ensures same { self.new ≡ record self.old { on_links = self.new.on_links } }
    {
        check_peer(self.peer_tables.as_slice(), iface, &peer)?;
        match self.peer_tables.get_mut(iface) {
            Some(link) => link.add(peer),
            None => Err(PeerRefused::NoSuchInterface),
        }
    }

    /// Removes the peer of an address from an interface. Datagrams that have come from it stay. One that waits to be sent to it alone
    /// is not sent, and counts as failed.
    ///
    /// # Errors
    /// `NoSuchInterface` or `NoSuchPeer`. Nothing is changed.
    pub fn remove_peer(&mut self, iface: usize, addr: Addr6) -> Result<(), PeerRefused>
        ensures removed { OnOk result (ChangesLink (λ i. without_peer i addr) iface self.old.on_links self.new.on_links) }
        ensures refused { result_err result ≡ removing_fault self.old.on_links iface addr }
        ensures err { OnErr result (self.new ≡ self.old) }
        ensures same { self.new ≡ record self.old { on_links = self.new.on_links } }
    {
        match self.peer_tables.get_mut(iface) {
            Some(link) => link.remove(addr),
            None => Err(PeerRefused::NoSuchInterface),
        }
    }

    /// Has the next `recv` wait, if no datagram arrives, until `ms` milliseconds have passed since the last one, at most 400.
    pub fn wait_at_most(&mut self, ms: u64)
        ensures { self.new ≡ self.old }
    {
        self.pause = ms.min(LONGEST_MS);
    }

    /// From now on a `recv` also ends where something comes to be read at a descriptor. It gives no datagram then.
    ///
    /// # Errors
    /// The system does not take it.
    pub fn watch(&self, fd: RawFd) -> io::Result<()> {
        self.waiting.register(fd, usize::MAX)
    }

    /// Whether the last `recv` ended so.
    pub fn was_called(&self) -> bool {
        self.was_called
    }

    /// Whether the last `recv` gave no datagram.
    pub fn was_silent(&self) -> bool {
        self.was_silent
    }

    /// How many datagrams waited and then could not be sent. `send` has returned `Ok` for these.
    pub fn failed_sends(&self) -> u64
        ensures { result ≡ self.now.failed_sends }
    {
        self.counts.failed_sends
    }

    /// How many datagrams of peers were lost: 16,384 waited on the interface, or they would have had more than 32 MiB together, or
    /// there was no memory for one more; or they were Requests, and an answer to who asked waited, or too many to others.
    pub fn lost_arrivals(&self) -> u64
        ensures { result ≡ self.now.lost_arrivals }
    {
        self.counts.lost_arrivals
    }

    /// How many datagrams came to an interface from a port of no peer. They are dropped.
    pub fn strangers(&self) -> u64
        ensures { result ≡ self.now.strangers }
    {
        self.counts.strangers
    }
}

/// A call of `recv` first sends what has waited long enough, and reads all sockets. If no datagram is there, it waits for one, at all
/// sockets at once, as long as `wait_at_most` says; where the last call gave one, it lets more come together first. Interfaces are
/// served in turn.
impl<R: Clock> Link for Udp<'_, R> {
    ghost calls = { λ link. Some link.calls };

    ghost interface_count = { λ link. link.interfaces };

    ghost queues = { λ link. link.queues };

    fn interfaces(&self) -> usize {
        self.peer_tables.len()
    }

    fn queue_at(&self, iface: usize) -> Queue {
        match self.endpoints.get(iface) {
            Some(endpoint) => endpoint.send_queue.sizes(),
            None => Queue::empty(),
        }
    }

    fn recv(&mut self, buffer: &mut [u8]) -> Result<Option<Received>, LinkFault>
        ensures interface { IfOk result (λ o. IfSome o (λ r. r.iface < self.old.interfaces)) }
        ensures within { IfOk result (λ o. IfSome o (λ r. r.len ≤ length buffer.new)) }
        ensures failed { self.old.failed_sends ≤ self.new.failed_sends }
        ensures lost { self.old.lost_arrivals ≤ self.new.lost_arrivals }
        ensures strangers { self.old.strangers ≤ self.new.strangers }
        ensures same { (self.new.interfaces ≡ self.old.interfaces) × (self.new.on_links ≡ self.old.on_links) }
        ensures calls { self.new.calls ≡ self.old.calls ++ recv_call result buffer.new ∷ [] }
    {
        let answer = self.receive(buffer);
        self.transcript = Transcript::of(&Entry::Answered(&self.transcript, &answer, buffer));
        answer
    }

    fn send(&mut self, outgoing: &Outgoing) -> Result<(), LinkFault>
        ensures { self.new ≡ record self.old { calls = self.old.calls ++ Handed outgoing.now (is_ok result) ∷ []; queues = self.new.queues } }
    {
        let now = self.clock.now().ms();
        let answer = match self.endpoints.get_mut(outgoing.iface) {
            Some(endpoint) => {
                let peer_table = &self.peer_tables[outgoing.iface];
                endpoint
                    .send_queue
                    .send(&endpoint.sockets, peer_table, outgoing, now)
            }
            None => Err(LinkFault),
        };
        self.transcript = Transcript::of(&Entry::Taken(&self.transcript, outgoing, answer.is_ok()));
        answer
    }
}
