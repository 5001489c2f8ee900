//! Deliveries in a lab: what its routers sent comes to the other interfaces of the link.

ghost use Rattle.std.specs.Prelude.{◌≡◌, ◌≢◌, ℕ, ◌<◌, ◌∷◌, [], IsFalse, IsTrue, All, IfErr, IfOk, OnErr, OnOk, false, length, slice_index_or, vec_len, Any, filter};
ghost use Rattle.ripng_world.specs.Common.{NoMemory, deliveries_of, delivery, interfaces_of, is_other, is_picked, other_deliveries, pairs_since, picked_deliveries, StopAt, StopForMemory, deliveries_since, Keeps, HeardInPart, WatchedInPart, WatchedRun, failures, heard, WorldRun};

use super::Lab;
use crate::event::{Event, Sent};
use crate::running::Running;
use crate::watch::{Observer, Stopped, Unwatched};
use route_table::{Moment, RouteStore};
use router_core::{Note, NoteKind};
use std::alloc::AllocError;

/// A datagram, and an interface that it is to come to.
#[derive(Clone, Copy)]
pub struct Pair {
    pub datagram: usize,
    pub router: usize,
    pub iface: usize,
}

impl<S: RouteStore> Running<S> {
    /// The other interfaces of a datagram's link, each after its router's number, in order: where it may come.
    ///
    /// # Errors
    /// Out of memory.
    pub fn receivers(&self, datagram: &Sent) -> Result<Vec<(usize, usize)>, AllocError>
        ensures { IfOk result (λ receivers. receivers.items ≡ filter (is_other self.now.network datagram.now) (interfaces_of self.now.network)) }
    {
        let Some(link) = self.link(datagram.router, datagram.iface) else {
            return Ok(Vec::new(self.alloc));
        };
        let others = self.links.on(link).iter().copied().filter(|&(router, iface)| {
            !(router == datagram.router && iface == datagram.iface)
        });
        others.collect(self.alloc)
    }

    /// Each datagram from a number on, with each other interface of its link, in order.
    fn pairs_since(&self, first: usize) -> Result<Vec<Pair>, AllocError>
        ensures { IfOk result (λ pairs. pairs.items ≡ pairs_since self.now.network first self.now.world.sent) }
    {
        let mut pairs = Vec::new(self.alloc);
        for number in first..self.sent.len() {
            let receivers = self.receivers(&self.sent[number])?;
            pairs.extend(
                receivers.iter().map(|&(router, iface)| Pair {
                    datagram: number,
                    router,
                    iface,
                }),
            )?;
        }
        Ok(pairs)
    }
}

/// Whether memory ran out for a new route.
pub fn wants_memory(notes: &[Note]) -> bool
    ensures absent { IsFalse result → All (λ n. n.kind ≢ NoMemory) notes.now }
    ensures found { IsTrue result → Any (λ n. n.kind ≡ NoMemory) notes.now }
{
    notes.iter().any(|note| note.kind == NoteKind::NoMemory)
}

impl<S: RouteStore> Lab<S> {
    /// A datagram comes to an interface of its link.
    fn deliver<V: Observer<S>>(
        &mut self,
        pair: &Pair,
        now: Moment,
        watch: &mut V,
    ) -> Result<(), Stopped<AllocError, V::Fault>>
        ensures network { self.new.network ≡ self.old.network }
        ensures delivered { OnOk result (WatchedRun V.takes heard self.old.network (self.old.world, watch.old) (delivery pair.now now ∷ []) (self.new.world, watch.new)) }
        ensures stopped { IfErr result (λ why. HeardInPart V.takes V.fails why self.old.network (self.old.world, watch.old) (delivery pair.now now ∷ []) (self.new.world, watch.new)) }
    {
        let delivery = Event::Deliver {
            datagram: pair.datagram,
            router: pair.router,
            iface: pair.iface,
            now,
        };
        let answer = match self.step_watched(&delivery, watch) {
            Ok(answer) => answer,
            // The datagram exists, and so does the interface on its link: only memory can have run out.
            Err(stopped) => return Err(stopped.refused_as(AllocError)),
        };
        if wants_memory(answer.notes.as_slice()) {
            return Err(Stopped::Refused(AllocError));
        }
        Ok(())
    }

    /// The pairs that are picked are delivered, in order. Returns of each pair whether it was picked.
    fn deliver_picked<V: Observer<S>>(
        &mut self,
        pairs: &[Pair],
        picks: &[(u32, Moment)],
        watch: &mut V,
    ) -> Result<Vec<bool>, Stopped<AllocError, V::Fault>>
        ensures network { self.new.network ≡ self.old.network }
        ensures delivered { OnOk result (WatchedRun V.takes heard self.old.network (self.old.world, watch.old) (picked_deliveries pairs.now picks.now) (self.new.world, watch.new)) }
        ensures flags { IfOk result (λ flags. vec_len flags ≡ length pairs.now) }
        ensures picked { IfOk result (λ flags. (k : ℕ) → k < length pairs.now → slice_index_or flags.items k false ≡ is_picked (length pairs.now) picks.now k) }
        ensures stopped { IfErr result (λ why. HeardInPart V.takes V.fails why self.old.network (self.old.world, watch.old) (picked_deliveries pairs.now picks.now) (self.new.world, watch.new)) }
    {
        let mut picked = vec![in self.running.alloc; false; pairs.len()]?;
        if pairs.is_empty() {
            return Ok(picked);
        }
        for &(word, now) in picks {
            let place = word as usize % pairs.len();
            self.deliver(&pairs[place], now, watch)?;
            picked[place] = true;
        }
        Ok(picked)
    }

    /// The pairs that were not picked are delivered, in order.
    fn deliver_others<V: Observer<S>>(
        &mut self,
        pairs: &[Pair],
        picked: &[bool],
        rest: Moment,
        watch: &mut V,
    ) -> Result<(), Stopped<AllocError, V::Fault>>
        requires { length picked.now ≡ length pairs.now }
        ensures network { self.new.network ≡ self.old.network }
        ensures delivered { OnOk result (WatchedRun V.takes heard self.old.network (self.old.world, watch.old) (other_deliveries (λ k. slice_index_or picked.now k false) pairs.now rest) (self.new.world, watch.new)) }
        ensures stopped { IfErr result (λ why. HeardInPart V.takes V.fails why self.old.network (self.old.world, watch.old) (other_deliveries (λ k. slice_index_or picked.now k false) pairs.now rest) (self.new.world, watch.new)) }
    {
        for (place, pair) in pairs.iter().enumerate() {
            if !picked[place] {
                self.deliver(pair, rest, watch)?;
            }
        }
        Ok(())
    }

    /// Each datagram from a number on that is sent already comes to each other interface of its link: first the pairs that are
    /// picked, and then each pair that was not.
    pub(super) fn deliver_asked<V: Observer<S>>(
        &mut self,
        first: usize,
        picks: &[(u32, Moment)],
        rest: Moment,
        watch: &mut V,
    ) -> Result<(), Stopped<AllocError, V::Fault>>
        ensures network { self.new.network ≡ self.old.network }
        ensures delivered { OnOk result (WatchedRun V.takes heard self.old.network (self.old.world, watch.old) (deliveries_of (pairs_since self.old.network first self.old.world.sent) picks.now rest) (self.new.world, watch.new)) }
        ensures stopped { IfErr result (λ why. HeardInPart V.takes V.fails why self.old.network (self.old.world, watch.old) (deliveries_of (pairs_since self.old.network first self.old.world.sent) picks.now rest) (self.new.world, watch.new)) }
    {
        let pairs = self.running.pairs_since(first)?;
        let picked = self.deliver_picked(&pairs, picks, watch)?;
        self.deliver_others(&pairs, &picked, rest, watch)
    }

    /// Each datagram from a number on that is sent already comes once to each other interface of its link, in the order of
    /// datagrams, then of routers, then of interfaces. What routers send in answer is not delivered.
    ///
    /// # Errors
    /// Out of memory, also where a router skipped an entry for that reason. The deliveries before it are done, in that order.
    pub fn deliver_since(&mut self, first: usize, now: Moment) -> Result<(), AllocError>
        ensures network { self.new.network ≡ self.old.network }
        ensures reconfigurations { self.new.world.reconfigurations ≡ self.old.world.reconfigurations }
        ensures delivered { OnOk result (WorldRun self.old.network self.old.world (deliveries_since self.old.network first self.old.world.sent now) self.new.world) }
        ensures stopped { OnErr result (StopForMemory self.old.network self.old.world (deliveries_since self.old.network first self.old.world.sent now) self.new.world) }
        ensures keeps { Keeps self.new }
    {
        self.deliver_since_watched(first, now, &mut Unwatched)
            .map_err(|stopped| stopped.refusal())
    }

    /// As `deliver_since`, and an observer is notified of each delivery.
    ///
    /// # Errors
    /// As `deliver_since`; or the observer's, and then it failed at the last delivery that was done.
    pub fn deliver_since_watched<V: Observer<S>>(
        &mut self,
        first: usize,
        now: Moment,
        watch: &mut V,
    ) -> Result<(), Stopped<AllocError, V::Fault>>
        ensures told { OnOk result (WatchedRun V.takes heard self.old.network (self.old.world, watch.old) (deliveries_since self.old.network first self.old.world.sent now) (self.new.world, watch.new)) }
        ensures told_in_part { IfErr result (λ why. WatchedInPart V.takes V.fails (failures why) self.old.network (self.old.world, watch.old) (deliveries_since self.old.network first self.old.world.sent now) (self.new.world, watch.new)) }
        ensures network { self.new.network ≡ self.old.network }
        ensures reconfigurations { self.new.world.reconfigurations ≡ self.old.world.reconfigurations }
        ensures delivered { OnOk result (WorldRun self.old.network self.old.world (deliveries_since self.old.network first self.old.world.sent now) self.new.world) }
        ensures stopped { IfErr result (λ why. StopAt self.old.network self.old.world (deliveries_since self.old.network first self.old.world.sent now) why self.new.world) }
        ensures keeps { Keeps self.new }
    {
        let outcome = self.deliver_asked(first, &[], now, watch);
        // The lab is opened, so that what holds of it is known.
        let _ = &self.running;
        outcome
    }
}
