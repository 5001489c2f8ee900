//! The engine: a router that runs over a link, turn after turn.

ghost use Rattle.std.specs.Prelude.{◌≡◌, true, false, Err, IfOk, OnErr, length};
ghost use Rattle.ripngd_engine.specs.Common.{forwards, queue_at, NamesInterface, ShutsDownOnce, LinkComesUpOnce, LinkGoesDownOnce, ReconfigureAnswer, StepAnswer, codes, coded_table, Held, seen, untouched, Started, TurnsAnswer, TurnsObserved};
ghost use Rattle.fib.specs.contracts.fib.Fib as forwarding;

use crate::clock::TimeSource;
use crate::link::{Link, LinkChange, Queue};
use crate::observer::{NoObserver, TrafficObserver};
use crate::outlet::Outlet;
use crate::report::{ChangeFault, EngineFault, Report};
use crate::runner::{Runner, TurnFault};
use fib::Fib;
use rand_core::Rng;
use route_table::RouteStore;
use router_core::{Change, Router, RouterConfig};
use std::alloc::Global;
use std::io::Write;
use std::marker::Model;

/// The bytes of the buffer that a link receives into: more than any UDP datagram holds (RFC 768).
const BUFFER_LEN: usize = 65_536;

/// A router over a link, a clock and a source of random numbers, with a forwarding table that follows its routes.
#[derive(Drop)]
pub struct Engine<S: RouteStore, L: Link, C: TimeSource, R: Rng + Drop> {
    runner: Runner<S, L, C, R>,
    buffer: Vec<u8>,
}

impl<S: RouteStore, L: Link, C: TimeSource, R: Rng + Drop> Model for Engine<S, L, C, R> {
    ghost Value = { Held R };

    ghost coded = { Prim.hlevel (codes, coded_table, forwarding.the_row.coded) };

    ghost view = { λ e. record {
      router = e.runner.router;
      fib = e.runner.outlet.fib;
      ended = e.runner.outlet.ended;
      lost_memory = e.runner.lost_memory;
      rng = e.runner.rng;
      calls = L.calls e.runner.outlet.link;
      queues = L.queues e.runner.outlet.link;
      moments = C.moments e.runner.clock;
      lost_sends = e.runner.outlet.lost_sends;
      log_failed = e.runner.outlet.log_failed;
    } };

    ghost invariant = { λ e. e.runner.outlet.ended ≡ false → e.runner.outlet.fib ≡ forwards e.runner.router.table };
}

impl<S: RouteStore, L: Link, C: TimeSource, R: Rng + Drop> Engine<S, L, C, R> {
    /// Starts a router over a link with as many interfaces. It sends its Requests (RFC 2080, section 2.4.1), and its routes are
    /// followed and logged. The log gets a line for each change of a route, in one write each, and none after a write that
    /// failed. No observer is notified: nothing has arrived yet, and `report` counts the sends that failed.
    ///
    /// # Errors
    /// Out of memory: either before anything is sent or logged, or for the forwarding table, after all else was done. The link is
    /// dropped.
    pub fn start<W: Write>(
        alloc: Global,
        config: RouterConfig,
        link: L,
        mut clock: C,
        rng: R,
        log: &mut W,
    ) -> Result<Engine<S, L, C, R>, EngineFault>
        requires { L.interface_count link ≡ length config.interfaces }
        ensures ok { IfOk result (λ e. Started config (R.stream rng)
            (untouched (L.calls link) (C.moments clock) (W.contents log.old)) (seen R.stream W.contents e log.new)) }
        ensures err { OnErr result (result ≡ Err EngineFault.OutOfMemory) }
    {
        let buffer = vec![in alloc; 0u8; BUFFER_LEN]?;
        let now = clock.now();
        let (router, answer) = Router::start(alloc, config, now)?;
        let mut outlet = Outlet {
            link,
            fib: Fib::new(alloc),
            lost_sends: 0,
            log_failed: false,
            ended: false,
            line: Vec::new(alloc),
        };
        outlet.carry_out(answer, log, &mut NoObserver)?;
        let runner = Runner {
            router,
            outlet,
            clock,
            rng,
            lost_memory: 0,
        };
        Ok(Engine { runner, buffer })
    }

    /// Makes `n` turns. A turn receives a datagram from the link, if one came, and then ticks. Each of these steps reads the clock,
    /// and the tick draws a random number. The output of a step is sent, followed and logged before the next step. A datagram that
    /// the link cannot send is lost alone, and so is a datagram or a tick for which there is no memory; both are counted.
    ///
    /// # Errors
    /// `LinkFault` where the link could not be read, after `done` whole turns; a later call goes on.
    /// `OutOfMemory` where there was no memory for the forwarding table. That step's datagrams were sent and its lines written, but
    /// the table is as before it. Every later call returns the same and does nothing.
    pub fn turns<W: Write>(&mut self, n: u32, log: &mut W) -> Result<(), EngineFault>
        ensures runs { self.old.ended ≡ false → TurnsAnswer n (seen R.stream W.contents self.old log.old) result
            (seen R.stream W.contents self.new log.new) }
        ensures ended { self.old.ended ≡ true
            → (result ≡ Err EngineFault.OutOfMemory) × (self.new ≡ self.old) × (log.new ≡ log.old) }
    {
        self.turns_observed(n, log, &mut NoObserver)
    }

    /// Makes turns as `turns` does, and notifies an observer, in order, of each arrival with what the router made of it, of
    /// each update that a tick sends, and of each datagram that was handed to the link. An arrival that is lost because memory was refused is not reported.
    ///
    /// # Errors
    /// As `turns`. The observer is notified of all that was done until then, the step that ran out of memory included.
    pub fn turns_observed<W: Write, V: TrafficObserver>(
        &mut self,
        n: u32,
        log: &mut W,
        observer: &mut V,
    ) -> Result<(), EngineFault>
        ensures runs { self.old.ended ≡ false → TurnsAnswer n (seen R.stream W.contents self.old log.old) result
            (seen R.stream W.contents self.new log.new) }
        ensures told { self.old.ended ≡ false → TurnsObserved V.takes observer.old observer.new n
            (seen R.stream W.contents self.old log.old) result (seen R.stream W.contents self.new log.new) }
        ensures ended { self.old.ended ≡ true
            → (result ≡ Err EngineFault.OutOfMemory) × (self.new ≡ self.old) × (log.new ≡ log.old) }
        ensures untold { self.old.ended ≡ true → observer.new ≡ observer.old }
    {
        if self.runner.outlet.ended {
            return Err(EngineFault::OutOfMemory);
        }
        for done in 0..n {
            match self.runner.turn(&mut self.buffer, log, observer) {
                Ok(()) => {}
                Err(TurnFault::NoLink) => return Err(EngineFault::LinkFault { done }),
                Err(TurnFault::NoMemory) => return Err(EngineFault::OutOfMemory),
            }
        }
        Ok(())
    }

    /// Changes the configuration of the router between two turns. The changes of its routes are followed and logged at once, and
    /// advertised by the next tick. Nothing is sent.
    ///
    /// # Errors
    /// `Refused` with the router's reason; then only the clock was read. `Ended` where there was no memory for the forwarding
    /// table: the change was made and logged, but the table is as before it. Every later call returns the same and does nothing.
    pub fn reconfigure<W: Write>(&mut self, change: Change, log: &mut W) -> Result<(), ChangeFault>
        requires { NamesInterface self.old.router.config change }
        ensures changes { self.old.ended ≡ false → ReconfigureAnswer change (seen R.stream W.contents self.old log.old) result
            (seen R.stream W.contents self.new log.new) }
        ensures ended { self.old.ended ≡ true
            → (result ≡ Err ChangeFault.Ended) × (self.new ≡ self.old) × (log.new ≡ log.old) }
    {
        match self.runner.outlet.ended {
            false => self.runner.reconfigure(change, log),
            true => Err(ChangeFault::Ended),
        }
    }

    /// The router shuts down between two turns: its last update, which advertises every route with metric 16, is handed to the link.
    ///
    /// # Errors
    /// `Refused` where there was no memory; then only the clock was read. `Ended` as for `reconfigure`.
    pub fn shutdown<W: Write>(&mut self, log: &mut W) -> Result<(), ChangeFault>
        ensures shuts_down { self.old.ended ≡ false → StepAnswer ShutsDownOnce (seen R.stream W.contents self.old log.old) result
            (seen R.stream W.contents self.new log.new) }
        ensures ended { self.old.ended ≡ true
            → (result ≡ Err ChangeFault.Ended) × (self.new ≡ self.old) × (log.new ≡ log.old) }
    {
        match self.runner.outlet.ended {
            false => self.runner.shutdown(log),
            true => Err(ChangeFault::Ended),
        }
    }

    /// The link of an interface goes down between two turns. Routes that were learned there are withdrawn and logged at once, and
    /// advertised as unreachable by the next tick.
    ///
    /// # Errors
    /// `Refused` where there was no memory; then only the clock was read. `Ended` as for `reconfigure`.
    pub fn link_down<W: Write>(&mut self, iface: usize, log: &mut W) -> Result<(), ChangeFault>
        ensures link_down { self.old.ended ≡ false → StepAnswer (LinkGoesDownOnce iface) (seen R.stream W.contents self.old log.old) result
            (seen R.stream W.contents self.new log.new) }
        ensures ended { self.old.ended ≡ true
            → (result ≡ Err ChangeFault.Ended) × (self.new ≡ self.old) × (log.new ≡ log.old) }
    {
        match self.runner.outlet.ended {
            false => self.runner.link_down(iface, log),
            true => Err(ChangeFault::Ended),
        }
    }

    /// The link of an interface comes up between two turns: the neighbors on it are asked for their tables, as at the start.
    ///
    /// # Errors
    /// `Refused` where there was no memory; then only the clock was read. `Ended` as for `reconfigure`.
    pub fn link_up<W: Write>(&mut self, iface: usize, log: &mut W) -> Result<(), ChangeFault>
        ensures link_up { self.old.ended ≡ false → StepAnswer (LinkComesUpOnce iface) (seen R.stream W.contents self.old log.old) result
            (seen R.stream W.contents self.new log.new) }
        ensures ended { self.old.ended ≡ true
            → (result ≡ Err ChangeFault.Ended) × (self.new ≡ self.old) × (log.new ≡ log.old) }
    {
        match self.runner.outlet.ended {
            false => self.runner.link_up(iface, log),
            true => Err(ChangeFault::Ended),
        }
    }

    /// What was lost since the start.
    pub fn report(&self) -> Report
        ensures { result ≡ record {
          lost_sends = self.now.lost_sends;
          lost_memory = self.now.lost_memory;
          log_failed = self.now.log_failed;
        } }
    {
        Report {
            lost_sends: self.runner.outlet.lost_sends,
            lost_memory: self.runner.lost_memory,
            log_failed: self.runner.outlet.log_failed,
        }
    }

    /// The router.
    pub fn router(&self) -> &Router<S>
        ensures { result.now ≡ self.now.router }
    {
        &self.runner.router
    }

    /// The link.
    pub fn link(&self) -> &L
        ensures { L.calls result.now ≡ self.now.calls }
    {
        &self.runner.outlet.link
    }

    /// What waits to be sent on an interface; nothing where the link has no such interface.
    pub fn queue_at(&self, iface: usize) -> Queue
        ensures { result ≡ queue_at self.now.queues iface }
    {
        self.runner.outlet.link.queue_at(iface)
    }

    /// The clock.
    pub fn clock(&self) -> &C
        ensures { C.moments result.now ≡ self.now.moments }
    {
        &self.runner.clock
    }

    /// Changes the link between two turns. Router, forwarding table, clock, random source, counts, the calls of the link and what waits
    /// to be sent on it stay.
    pub fn change_link<T: LinkChange<L>>(&mut self, change: &mut T)
        ensures { self.new ≡ self.old }
    {
        change.make(&mut self.runner.outlet.link);
    }

    /// Ends the engine and returns its link, which may still have datagrams to send.
    pub fn into_link(self) -> L
        ensures { L.calls result ≡ self.calls }
    {
        let runner = self.runner;
        let outlet = runner.outlet;
        outlet.link
    }

    /// The forwarding table. It is that of the router's routes, until the engine has returned `OutOfMemory`.
    pub fn fib(&self) -> &Fib
        ensures value { result.now ≡ self.now.fib }
        ensures follows { self.now.ended ≡ false → result.now ≡ forwards self.now.router.table }
    {
        &self.runner.outlet.fib
    }
}
