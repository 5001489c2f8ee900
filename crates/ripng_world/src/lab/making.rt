//! Rounds of a lab: every router advertises its whole table, and all of it arrives.

ghost use Rattle.std.specs.Prelude.{◌≡◌, ℕ, ◌<◌, ◌↔◌, IsTrue, All, IfErr, OnOk, Some, length, slice_get};
ghost use Rattle.ripng_world.specs.Common.{State, AreAllMade, Converges, Heals, LetsArrive, Keeps, IsDueTick, HaveStopped, RoundStops, RoundsStop, round_in, stop_name, AreMadeTold, IfRefused, IsMadeTold, RoundToldInPart, RoundsToldInPart, failures, Tick};

use super::Lab;
use crate::event::Event;
use crate::watch::{Observer, Stopped, Unwatched};
use route_table::{Moment, RouteStore};
use std::marker::Model;

/// A round of a network: each router ticks once, in order, and then each datagram of these ticks comes to each other interface
/// of its link. The pairs of such a datagram and such an interface stand in the order of datagrams, then of routers, then of
/// interfaces.
#[derive(Drop)]
pub struct Round<'a> {
    /// The moment and the random number of each router's tick, in the order of routers.
    pub ticks: &'a [(Moment, u32)],
    /// The deliveries that come first, in order: a number, which picks a pair (modulo the number of pairs), and the moment.
    pub picks: &'a [(u32, Moment)],
    /// When each pair that was not picked is delivered, in order.
    pub rest: Moment,
}

impl<'a> Model for Round<'a> {
    ghost use Rattle.ripng_world.specs.Asked.{Asked};

    ghost Value = { Asked };

    ghost view = { λ r. record { ticks = r.ticks.now; picks = r.picks.now; rest = r.rest } };
}

/// Why rounds stop, and in which round, numbered from 0. All earlier events are done.
#[derive(Clone, Copy, Debug, PartialEq, Eq)]
pub enum RoundsRefused {
    /// The regular update of a router is not due at its tick. That tick is not done.
    NoRegularUpdate { round: usize, router: usize },
    /// Memory was refused, or ran out in a router for a new route.
    OutOfMemory { round: usize },
}

impl RoundsRefused {
    /// The name of the refusal, one word, and its number, 41 or 42.
    pub fn name_and_number(self) -> (&'static str, u8)
        ensures { (result.0.now, result.1) ≡ stop_name self }
    {
        match self {
            RoundsRefused::NoRegularUpdate { .. } => ("NoRegularUpdate", 41),
            RoundsRefused::OutOfMemory { .. } => ("OutOfMemory", 42),
        }
    }
}

impl<S: RouteStore> Lab<S> {
    /// Whether the regular update of a router is due at a moment, or at its last moment if that is later.
    pub fn is_due(&self, router: usize, now: Moment) -> bool
        ensures due { (word : ℕ) → IsTrue result ↔ IsDueTick self.now.world (Tick router now word) }
        ensures there { router < length self.now.network → (state : State) × (slice_get self.now.world.states router ≡ Some state) }
    {
        match self.running.router(router) {
            Some(router) => router.regular().reached(router.last().max(now)),
            None => false,
        }
    }

    /// A round is made as it is asked for: each router ticks, in order, each when its regular update is due, and then all arrives.
    fn make_round<V: Observer<S>>(
        &mut self,
        number: usize,
        round: &Round<'_>,
        watch: &mut V,
    ) -> Result<(), Stopped<RoundsRefused, V::Fault>>
        requires { length round.now.ticks ≡ length self.old.network }
        ensures network { self.new.network ≡ self.old.network }
        ensures made { OnOk result (IsMadeTold V.takes self.old.network (self.old.world, watch.old) round.entry.now (self.new.world, watch.new)) }
        ensures told { IfErr result (λ why. RoundToldInPart V.takes V.fails (failures why) self.old.network (self.old.world, watch.old) round.entry.now (self.new.world, watch.new)) }
        ensures number { IfErr result (λ why. IfRefused why (λ refusal. round_in refusal ≡ number)) }
        ensures refused { IfErr result (λ why. RoundStops self.old.network self.old.world round.entry.now why self.new.world) }
    {
        let first = self.sent().len();
        for (router, tick) in round.ticks.iter().enumerate() {
            let (now, word) = *tick;
            if !self.is_due(router, now) {
                return Err(Stopped::Refused(RoundsRefused::NoRegularUpdate {
                    round: number,
                    router,
                }));
            }
            if let Err(stopped) = self.step_watched(&Event::Tick { router, now, word }, watch) {
                return Err(stopped.refused_as(RoundsRefused::OutOfMemory { round: number }));
            }
        }
        match self.deliver_asked(first, round.picks, round.rest, watch) {
            Ok(()) => Ok(()),
            Err(stopped) => Err(stopped.refused_as(RoundsRefused::OutOfMemory { round: number })),
        }
    }

    /// Rounds are made one after another, each as it is asked for. No router may be passive. From a cold start k rounds find the
    /// least costs of walks of k hops. From any lab, whatever happened in it, 26 rounds that follow one another closely leave each
    /// table with the least costs of now, and nothing else below 16. Packets then arrive, from every router that has a route to
    /// their address.
    ///
    /// # Errors
    /// A tick at which the regular update is not due, before it is done; or out of memory, also where a router skipped an entry
    /// for that reason. All earlier events are done, and nothing else.
    pub fn run_rounds(&mut self, rounds: &[Round<'_>]) -> Result<(), RoundsRefused>
        requires { All (λ r. length r.ticks ≡ length self.old.network) rounds.now }
        ensures network { self.new.network ≡ self.old.network }
        ensures reconfigurations { self.new.world.reconfigurations ≡ self.old.world.reconfigurations }
        ensures made { OnOk result (AreAllMade self.old.network self.old.world rounds.entry.now self.new.world) }
        ensures converges { OnOk result (Converges self.old.network self.old.world rounds.entry.now self.new.world) }
        ensures heals { OnOk result (Heals self.old.network self.old.world rounds.entry.now self.new.world) }
        ensures arrives { OnOk result (LetsArrive self.old.network self.old.world rounds.entry.now self.new.world) }
        ensures refused { IfErr result (λ why. HaveStopped self.old.network self.old.world rounds.entry.now why self.new.world) }
        ensures keeps { Keeps self.new }
    {
        self.run_rounds_watched(rounds, &mut Unwatched)
            .map_err(|stopped| stopped.refusal())
    }

    /// As `run_rounds`, and an observer is notified of each event.
    ///
    /// # Errors
    /// As `run_rounds`; or the observer's, and then it failed at the last event that was done.
    pub fn run_rounds_watched<V: Observer<S>>(
        &mut self,
        rounds: &[Round<'_>],
        watch: &mut V,
    ) -> Result<(), Stopped<RoundsRefused, V::Fault>>
        requires { All (λ r. length r.ticks ≡ length self.old.network) rounds.now }
        ensures network { self.new.network ≡ self.old.network }
        ensures reconfigurations { self.new.world.reconfigurations ≡ self.old.world.reconfigurations }
        ensures made { OnOk result (AreAllMade self.old.network self.old.world rounds.entry.now self.new.world) }
        ensures converges { OnOk result (Converges self.old.network self.old.world rounds.entry.now self.new.world) }
        ensures heals { OnOk result (Heals self.old.network self.old.world rounds.entry.now self.new.world) }
        ensures arrives { OnOk result (LetsArrive self.old.network self.old.world rounds.entry.now self.new.world) }
        ensures told { OnOk result (AreMadeTold V.takes self.old.network (self.old.world, watch.old) rounds.entry.now (self.new.world, watch.new)) }
        ensures told_in_part { IfErr result (λ why. RoundsToldInPart V.takes V.fails (failures why) self.old.network (self.old.world, watch.old) rounds.entry.now (self.new.world, watch.new)) }
        ensures refused { IfErr result (λ why. RoundsStop self.old.network self.old.world rounds.entry.now why self.new.world) }
        ensures keeps { Keeps self.new }
    {
        // The lab is opened, so that what holds of it is known before the first round.
        let _ = &self.running;
        for (number, round) in rounds.iter().enumerate() {
            if let Err(stopped) = self.make_round(number, round, watch) {
                // So it is here, and at the end.
                let _ = &self.running;
                return Err(stopped);
            }
        }
        let _ = &self.running;
        Ok(())
    }
}
