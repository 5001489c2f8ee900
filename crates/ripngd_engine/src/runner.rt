//! A router that runs: the steps of one turn.

ghost use Rattle.std.specs.Prelude.{◌≡◌, ◌<◌, ◌≤◌, max, [], ◌∷◌, false, IfOk, IfSome, is_err, length, vec_len};
ghost use Rattle.ripngd_engine.specs.Common.{begun, is_regular_due, WasTold, next_u32, Gains, recv_call, TicksOnce, Coded-set, →_prop, forwards, NamesInterface, ShutsDownOnce, LinkComesUpOnce, LinkGoesDownOnce, ReconfigureAnswer, StepAnswer, NoLink, NoMemory};
ghost use Rattle.fib.specs.contracts.fib.Fib as forwarding;

use crate::clock::TimeSource;
use crate::link::{Link, LinkFault, Received};
use crate::observer::{Arrived, NoObserver, TrafficObserver, Update};
use crate::outlet::{Outlet, one_more};
use crate::report::ChangeFault;
use rand_core::Rng;
use route_table::{Moment, RouteStore};
use router_core::{Arrival, Change, Outgoing, ReconfigureRefused, Router};
use std::alloc::AllocError;
use std::io::Write;

/// Why a turn ended early.
#[derive(Clone, Copy, Debug, PartialEq, Eq)]
pub(crate) enum TurnFault {
    /// The link could not be read.
    NoLink,
    /// There was no memory for the forwarding table.
    NoMemory,
}

impl From<LinkFault> for TurnFault {
    ghost from_gives = { λ _ fault. fault ≡ NoLink };

    fn from(_: LinkFault) -> TurnFault {
        TurnFault::NoLink
    }
}

impl From<AllocError> for TurnFault {
    ghost from_gives = { λ _ fault. fault ≡ NoMemory };

    fn from(_: AllocError) -> TurnFault {
        TurnFault::NoMemory
    }
}

/// A router, what its output is carried out on, and the clock and the random source that it runs by.
#[derive(Drop)]
pub(crate) struct Runner<S: RouteStore, L: Link, C: TimeSource, R: Rng + Drop> {
    pub(crate) router: Router<S>,
    pub(crate) outlet: Outlet<L>,
    pub(crate) clock: C,
    pub(crate) rng: R,
    pub(crate) lost_memory: u64,
    ghost same_interfaces: { L.interface_count outlet.link ≡ length router.config.interfaces },
    ghost fib_follows: { outlet.ended ≡ false → outlet.fib ≡ forwards router.table } by { →_prop (Coded-set forwarding.the_row.coded outlet.fib (forwards router.table)) },
}

/// One `recv` into the buffer.
fn listen<L: Link>(link: &mut L, buffer: &mut Vec<u8>) -> Result<Option<Received>, LinkFault>
    ensures gained { Gains (L.calls link.old) (L.calls link.new) (recv_call result buffer.new.items ∷ []) }
    ensures interface { IfOk result (λ o. IfSome o (λ r. r.iface < L.interface_count link.old)) }
    ensures within { IfOk result (λ o. IfSome o (λ r. r.len ≤ vec_len buffer.new)) }
    ensures same { L.interface_count link.new ≡ L.interface_count link.old }
{
    link.recv(buffer.as_mut_slice())
}

/// Whether the next regular update of a router is due at a moment; one before its last step counts as that.
fn is_regular_due<S: RouteStore>(router: &Router<S>, now: Moment) -> bool
    ensures { result ≡ is_regular_due router.now (max router.now.last now) }
{
    router.regular().reached(router.last().max(now))
}

/// Notifies an observer of the update that a tick sends, if it sends one.
fn tell_of_update<V: TrafficObserver>(is_regular: bool, sends: &[Outgoing], observer: &mut V)
    ensures { WasTold V.takes observer.old (begun is_regular sends.now) observer.new }
{
    match sends {
        [] => {}
        [_, ..] if is_regular => observer.begins(Update::Regular),
        [_, ..] => observer.begins(Update::Triggered),
    }
}

impl<S: RouteStore, L: Link, C: TimeSource, R: Rng + Drop> Runner<S, L, C, R> {
    ghost use Rattle.ripngd_engine.specs.Runner.{runner_seen, ActsTold, TakesReceived, TurnAnswers};

    /// A tick now, with the next random word. The observer learns which update it sends before that is carried out.
    fn tick<W: Write, V: TrafficObserver>(
        &mut self,
        log: &mut W,
        observer: &mut V,
    ) -> Result<(), AllocError>
        requires { self.old.outlet.ended ≡ false }
        ensures acts { ActsTold V.takes observer.old observer.new TicksOnce (runner_seen L.calls C.moments R.stream W.contents self.old log.old)
            (runner_seen L.calls C.moments R.stream W.contents self.new log.new) }
        ensures ended { self.new.outlet.ended ≡ is_err result }
    {
        let now = self.clock.now();
        let word = self.rng.next_u32();
        let is_regular = is_regular_due(&self.router, now);
        match self.router.tick(now, word) {
            Ok(answer) => {
                tell_of_update(is_regular, answer.sends.as_slice(), observer);
                self.outlet.carry_out(answer, log, observer)
            }
            Err(_) => {
                self.lost_memory = one_more(self.lost_memory);
                Ok(())
            }
        }
    }

    /// The arrival of a datagram, now, if there is one. The observer gets the router's answer before that is carried out. It is apart from
    /// the turns of a quiet network, which then lie closer together in memory.
    #[inline(never)]
    fn arrive<W: Write, V: TrafficObserver>(
        &mut self,
        received: Option<Received>,
        buffer: &[u8],
        log: &mut W,
        observer: &mut V,
    ) -> Result<(), AllocError>
        requires ended { self.old.outlet.ended ≡ false }
        requires interface { IfSome received (λ r. r.iface < length self.old.router.config.interfaces) }
        requires within { IfSome received (λ r. r.len ≤ length buffer.now) }
        ensures acts { ActsTold V.takes observer.old observer.new (TakesReceived received buffer.now) (runner_seen L.calls C.moments R.stream W.contents self.old log.old)
            (runner_seen L.calls C.moments R.stream W.contents self.new log.new) }
        ensures ended { self.new.outlet.ended ≡ is_err result }
    {
        let received = match received {
            Some(received) => received,
            None => return Ok(()),
        };
        let arrived = Arrived {
            moment: self.clock.now(),
            iface: received.iface,
            source: received.source,
            source_port: received.source_port,
        };
        let bytes = &buffer[..received.len];
        let arrival = Arrival {
            now: arrived.moment,
            iface: received.iface,
            source: received.source,
            source_port: received.source_port,
            hop_limit: received.hop_limit,
            to_group: received.to_group,
            bytes,
        };
        match self.router.arrive(arrival) {
            Ok(answer) => {
                observer.processed(arrived, bytes, answer.fault, answer.notes.as_slice());
                self.outlet.carry_out(answer, log, observer)
            }
            Err(_) => {
                self.lost_memory = one_more(self.lost_memory);
                Ok(())
            }
        }
    }

    /// One `recv` into the buffer, an arrival if it gave a datagram, and then a tick.
    pub(crate) fn turn<W: Write, V: TrafficObserver>(
        &mut self,
        buffer: &mut Vec<u8>,
        log: &mut W,
        observer: &mut V,
    ) -> Result<(), TurnFault>
        requires { self.old.outlet.ended ≡ false }
        ensures { TurnAnswers V.takes observer.old observer.new (runner_seen L.calls C.moments R.stream W.contents self.old log.old) result
            (runner_seen L.calls C.moments R.stream W.contents self.new log.new) }
    {
        let received = listen(&mut self.outlet.link, buffer)?;
        self.arrive(received, buffer.as_slice(), log, observer)?;
        self.tick(log, observer)?;
        Ok(())
    }

    /// A change of the configuration, now. It sends nothing, so no observer is notified.
    pub(crate) fn reconfigure<W: Write>(
        &mut self,
        change: Change,
        log: &mut W,
    ) -> Result<(), ChangeFault>
        requires ended { self.old.outlet.ended ≡ false }
        requires named { NamesInterface self.old.router.config change }
        ensures { ReconfigureAnswer change (runner_seen L.calls C.moments R.stream W.contents self.old log.old) result
            (runner_seen L.calls C.moments R.stream W.contents self.new log.new) }
    {
        let now = self.clock.now();
        match self.router.reconfigure(now, change) {
            Ok(answer) => match self.outlet.carry_out(answer, log, &mut NoObserver) {
                Ok(()) => Ok(()),
                Err(AllocError) => Err(ChangeFault::Ended),
            },
            Err(why) => Err(ChangeFault::Refused(why)),
        }
    }

    /// The router shuts down, now.
    pub(crate) fn shutdown<W: Write>(&mut self, log: &mut W) -> Result<(), ChangeFault>
        requires { self.old.outlet.ended ≡ false }
        ensures { StepAnswer ShutsDownOnce (runner_seen L.calls C.moments R.stream W.contents self.old log.old) result
            (runner_seen L.calls C.moments R.stream W.contents self.new log.new) }
    {
        let now = self.clock.now();
        match self.router.shutdown(now) {
            Ok(answer) => match self.outlet.carry_out(answer, log, &mut NoObserver) {
                Ok(()) => Ok(()),
                Err(AllocError) => Err(ChangeFault::Ended),
            },
            Err(AllocError) => Err(ChangeFault::Refused(ReconfigureRefused::OutOfMemory)),
        }
    }

    /// The link of an interface goes down, now.
    pub(crate) fn link_down<W: Write>(
        &mut self,
        iface: usize,
        log: &mut W,
    ) -> Result<(), ChangeFault>
        requires { self.old.outlet.ended ≡ false }
        ensures { StepAnswer (LinkGoesDownOnce iface) (runner_seen L.calls C.moments R.stream W.contents self.old log.old) result
            (runner_seen L.calls C.moments R.stream W.contents self.new log.new) }
    {
        let now = self.clock.now();
        match self.router.link_down(now, iface) {
            Ok(answer) => match self.outlet.carry_out(answer, log, &mut NoObserver) {
                Ok(()) => Ok(()),
                Err(AllocError) => Err(ChangeFault::Ended),
            },
            Err(AllocError) => Err(ChangeFault::Refused(ReconfigureRefused::OutOfMemory)),
        }
    }

    /// The link of an interface comes up, now.
    pub(crate) fn link_up<W: Write>(&mut self, iface: usize, log: &mut W) -> Result<(), ChangeFault>
        requires { self.old.outlet.ended ≡ false }
        ensures { StepAnswer (LinkComesUpOnce iface) (runner_seen L.calls C.moments R.stream W.contents self.old log.old) result
            (runner_seen L.calls C.moments R.stream W.contents self.new log.new) }
    {
        let now = self.clock.now();
        let mut observer = NoObserver;
        match self.router.link_up(now, iface) {
            Ok(answer) => match self.outlet.carry_out(answer, log, &mut observer) {
                Ok(()) => Ok(()),
                Err(AllocError) => Err(ChangeFault::Ended),
            },
            Err(AllocError) => Err(ChangeFault::Refused(ReconfigureRefused::OutOfMemory)),
        }
    }
}
