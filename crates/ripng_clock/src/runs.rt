//! Networks that run: a lab, or routers of which nothing more is promised.

ghost use Rattle.std.specs.Prelude.{◌≡◌, ◌∷◌, [], IfErr, IfOk, length};
ghost use Rattle.ripng_clock.specs.Common.{event_of, failures, refusal_in, HappensGiving, IfRefused, LabValue, StepEnds, WatchedInPart};

use ripng_world::{Event, Lab, LabError, Observer, Running, Stopped};
use route_table::RouteStore;
use router_core::Answer;

/// A network that runs, event by event.
pub trait Runs<S: RouteStore> {
    // The network and its world.
    ghost value: { Self → LabValue };

    /// The routers as they run.
    fn running(&self) -> &Running<S>
        ensures { result.now ≡ value self.now };

    /// An event happens, and then an observer is notified of it with the router's answer.
    ///
    /// # Errors
    /// The first reason to refuse the event, or out of memory, and then nothing is changed; or the observer's, and then the event
    /// is done.
    fn step_watched<V: Observer<S>>(
        &mut self,
        event: &Event<'_>,
        watch: &mut V,
    ) -> Result<Answer, Stopped<LabError, V::Fault>>
        ensures told { IfOk result (λ answer. V.takes watch.old (record { lab = value self.new; event = event_of event.entry.now; answer = answer; first = length (value self.old).world.sent }) watch.new) }
        ensures stopped { IfErr result (λ why. WatchedInPart V.takes V.fails (failures why) (value self.old).network ((value self.old).world, watch.old) (event_of event.entry.now ∷ []) ((value self.new).world, watch.new)) }
        ensures happens { IfOk result (λ answer. HappensGiving (value self.old) (event_of event.entry.now) answer (value self.new).world) }
        ensures network { (value self.new).network ≡ (value self.old).network }
        ensures ends { StepEnds (value self.old) (event_of event.entry.now) (refusal_in result) (value self.new) }
        ensures untold { IfErr result (λ why. IfRefused why (λ _. watch.new ≡ watch.old)) };
}

impl<S: RouteStore> Runs<S> for Lab<S> {
    ghost value = { λ lab. lab };

    fn running(&self) -> &Running<S> {
        Lab::running(self)
    }

    fn step_watched<V: Observer<S>>(
        &mut self,
        event: &Event<'_>,
        watch: &mut V,
    ) -> Result<Answer, Stopped<LabError, V::Fault>> {
        Lab::step_watched(self, event, watch)
    }
}

impl<S: RouteStore> Runs<S> for Running<S> {
    ghost value = { λ running. running };

    fn running(&self) -> &Running<S> {
        self
    }

    fn step_watched<V: Observer<S>>(
        &mut self,
        event: &Event<'_>,
        watch: &mut V,
    ) -> Result<Answer, Stopped<LabError, V::Fault>> {
        Running::step_watched(self, event, watch)
    }
}
