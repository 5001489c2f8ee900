//! A lab: a lawful network that runs, with real routers and bytes. Whatever happens in it, each route of a router, and each that a
//! datagram advertises, is backed by a walk through the network.

ghost use Rattle.std.specs.Prelude.{◌≡◌, ◌++◌, ◌∷◌, [], IfErr, IfOk, IfSome, OnOk, length, map, take, slice_get, option_copied};
ghost use Rattle.ripng_world.specs.Common.{result_err, event_of, HasRun, Keeps, HasNoneBelowLeast, HasNoneBelowLeastSince, AreDatagramsSoundSince, AreDatagramsSound, HappensGiving, IsRefusedNext, StepEnds, IsTableBackedSince, IsTableBacked, IfRefused, WatchedInPart, WatchedUntil, failures, failures_in, refusal_in, IsCold, WorldRun, reconfigurations_in, past_of, LabValue, coded_states};

mod delivering;
mod making;

use crate::event::{Event, LabError, Sent};
use crate::links::Links;
use crate::network::NetConfig;
use crate::running::Running;
use crate::station::{Station, file};
use crate::watch::{Observer, Stopped, Unwatched};
pub use delivering::wants_memory;
pub use making::{Round, RoundsRefused};
use route_table::{Moment, RouteStore};
use router_core::{Answer, Change, Router};
use std::alloc::Global;
use std::marker::Model;

/// A network that runs.
#[derive(Drop)]
pub struct Lab<S: RouteStore> {
    running: Running<S>,
}

impl<S: RouteStore> Model for Lab<S> {
    ghost Value = { LabValue };

    ghost coded = { Prim.hlevel coded_states };

    ghost view = { λ l. l.running };

    ghost invariant = { λ l. HasRun l.running.network l.running.world };
}

impl<S: RouteStore> Lab<S> {
    /// Every router of a network starts, each at its moment, in order.
    ///
    /// # Errors
    /// Out of memory, and no other.
    pub fn cold(alloc: Global, network: NetConfig, moments: &[Moment]) -> Result<Lab<S>, LabError>
        requires { length moments.now ≡ length network }
        ensures network { IfOk result (λ lab. lab.network ≡ network) }
        ensures cold { IfOk result (λ lab. IsCold network moments.now lab.world) }
        ensures only_memory { IfErr result (λ why. why ≡ LabError.OutOfMemory) }
        ensures keeps { IfOk result Keeps }
    {
        let NetConfig { routers } = network;
        let mut stations = Vec::with_capacity(alloc, routers.len())?;
        let mut sent = Vec::new(alloc);
        for router in routers {
            let number = stations.len();
            let (station, answer) = Station::start(alloc, router, moments[number])?;
            sent.reserve(answer.sends.as_slice().len())?;
            file(&mut sent, number, answer.sends);
            stations.push_reserved(station);
        }
        let links = Links::of(alloc, &stations)?;
        Ok(Lab {
            running: Running {
                stations,
                links,
                sent,
                reconfigurations: Vec::new(alloc),
                alloc,
            },
        })
    }

    /// How many routers the network has.
    pub fn routers(&self) -> usize
        ensures { result ≡ length self.now.network }
    {
        self.running.routers()
    }

    /// The routers as they run. Of these only single steps are promised.
    pub fn running(&self) -> &Running<S>
        ensures { result.now ≡ self.now }
    {
        &self.running
    }

    /// The same routers, which may receive forged Responses from now on. What is promised of a lab is not promised of them.
    pub fn into_running(self) -> Running<S>
        ensures { result ≡ self }
    {
        let Lab { running } = self;
        running
    }

    /// The router with that number, if the network has it. Each of its routes with a metric below 16 is backed by a walk, at costs
    /// in force since the cold start, and so its metric is not below the least such cost.
    pub fn router(&self, router: usize) -> Option<&Router<S>>
        ensures value { option_copied result ≡ slice_get self.now.world.states router }
        ensures backed { IfSome result (λ r. IsTableBackedSince (past_of self.now.network self.now.world) router r.now.table) }
        ensures least { IfSome result (λ r. HasNoneBelowLeastSince self.now.network self.now.world router r.now) }
        ensures fixed_backed { IfSome result (λ r. self.now.world.reconfigurations ≡ [] → IsTableBacked self.now.network router r.now.table) }
        ensures fixed_least { IfSome result (λ r. self.now.world.reconfigurations ≡ [] → HasNoneBelowLeast self.now.network router r.now) }
    {
        self.running.router(router)
    }

    /// All datagrams ever sent, numbered from 0. Each entry of a Response with a metric below 16 advertises a walk from its sender.
    pub fn sent(&self) -> &[Sent]
        ensures value { result.now ≡ self.now.world.sent }
        ensures truth { AreDatagramsSoundSince self.now.network self.now.world }
        ensures fixed { self.now.world.reconfigurations ≡ [] → AreDatagramsSound self.now.network result.now }
    {
        self.running.sent()
    }

    /// The changes of configuration that routers have done since the cold start, each with its router, in order.
    pub fn changes_done(&self) -> &[(usize, Change)]
        ensures { result.now ≡ self.now.world.reconfigurations }
    {
        self.running.reconfigurations()
    }

    /// The network is lawful, and the lab has run since a cold start: what a proof needs of what it does from now on.
    pub fn has_run(&self)
        ensures { HasRun self.now.network self.now.world }
    {
        let _ = &self.running;
    }

    /// An event happens: one router moves, and answers. What it sends goes to the end of `sent`, and is not in the answer.
    ///
    /// # Errors
    /// The first reason to refuse the event, or out of memory; the lab is then unchanged. Room for a change of configuration is
    /// made before its router is asked.
    pub fn step(&mut self, event: &Event<'_>) -> Result<Answer, LabError>
        ensures happens { IfOk result (λ answer. HappensGiving self.old (event_of event.entry.now) answer self.new.world) }
        ensures network { self.new.network ≡ self.old.network }
        ensures ends { StepEnds self.old (event_of event.entry.now) (result_err result) self.new }
        ensures keeps { Keeps self.new }
    {
        self.running.step(event)
    }

    /// As `step`, and then an observer is notified of the event with its answer.
    ///
    /// # Errors
    /// As `step`, and then nobody is notified; or the observer's, and then the event is done.
    pub fn step_watched<V: Observer<S>>(
        &mut self,
        event: &Event<'_>,
        watch: &mut V,
    ) -> Result<Answer, Stopped<LabError, V::Fault>>
        ensures told { IfOk result (λ answer. V.takes watch.old (record { lab = self.new; event = event_of event.entry.now; answer = answer; first = length self.old.world.sent }) watch.new) }
        ensures stopped { IfErr result (λ why. WatchedInPart V.takes V.fails (failures why) self.old.network (self.old.world, watch.old) (event_of event.entry.now ∷ []) (self.new.world, watch.new)) }
        ensures happens { IfOk result (λ answer. HappensGiving self.old (event_of event.entry.now) answer self.new.world) }
        ensures network { self.new.network ≡ self.old.network }
        ensures ends { StepEnds self.old (event_of event.entry.now) (refusal_in result) self.new }
        ensures untold { IfErr result (λ why. IfRefused why (λ _. watch.new ≡ watch.old)) }
        ensures keeps { Keeps self.new }
    {
        self.running.step_watched(event, watch)
    }

    /// Events happen one after another, until one is refused. Returns how many were done, and why the next was refused.
    ///
    /// # Errors
    /// The first reason to refuse the next event, else out of memory; the lab is as the events before it left it.
    pub fn run(&mut self, events: &[Event<'_>]) -> (usize, Result<(), LabError>)
        ensures done { WorldRun self.old.network self.old.world (take result.0 (map event_of events.entry.now)) self.new.world }
        ensures network { self.new.network ≡ self.old.network }
        ensures reconfigurations { self.new.world.reconfigurations ≡ self.old.world.reconfigurations ++ reconfigurations_in (take result.0 (map event_of events.entry.now)) }
        ensures all { OnOk result.1 (result.0 ≡ length events.entry.now) }
        ensures refused { IfErr result.1 (λ why. IsRefusedNext self.new (map event_of events.entry.now) result.0 why) }
        ensures keeps { Keeps self.new }
    {
        let (done, outcome) = self.run_watched(events, &mut Unwatched);
        (done, outcome.map_err(|stopped| stopped.refusal()))
    }

    /// As `run`, and an observer is notified of each event.
    ///
    /// # Errors
    /// As `run`; or the observer's, and then it failed at the last of the events that were done.
    pub fn run_watched<V: Observer<S>>(
        &mut self,
        events: &[Event<'_>],
        watch: &mut V,
    ) -> (usize, Result<(), Stopped<LabError, V::Fault>>)
        ensures told { WatchedUntil V.takes V.fails (failures_in result.1) self.old.network (self.old.world, watch.old) (take result.0 (map event_of events.entry.now)) (self.new.world, watch.new) }
        ensures done { WorldRun self.old.network self.old.world (take result.0 (map event_of events.entry.now)) self.new.world }
        ensures network { self.new.network ≡ self.old.network }
        ensures reconfigurations { self.new.world.reconfigurations ≡ self.old.world.reconfigurations ++ reconfigurations_in (take result.0 (map event_of events.entry.now)) }
        ensures all { OnOk result.1 (result.0 ≡ length events.entry.now) }
        ensures refused { IfErr result.1 (λ why. IfRefused why (IsRefusedNext self.new (map event_of events.entry.now) result.0)) }
        ensures keeps { Keeps self.new }
    {
        // The lab is opened, so that what holds of it is known before the first event.
        let _ = &self.running;
        for (done, event) in events.iter().enumerate() {
            if let Err(stopped) = self.step_watched(event, watch) {
                return (done + stopped.failures(), Err(stopped));
            }
        }
        (events.len(), Ok(()))
    }
}
