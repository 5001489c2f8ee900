//! Observers of a lab, and how a call ends that has one.

ghost use Rattle.std.specs.Prelude.{◌≡◌, ⊤, OnErr, OnOk};
ghost use Rattle.ripng_world.specs.Common.{event_of, Told, failures, refused_as, Refused};

use crate::event::Event;
use crate::running::Running;
use route_table::RouteStore;
use router_core::Answer;
use std::convert::Infallible;

/// An observer is notified of each event of a lab, as soon as it is done. It cannot change the lab, and may fail.
pub trait Observer<S: RouteStore> {
    /// Why the observer fails.
    type Fault: Drop;

    // What a notice makes of the observer: how it was, the notice, and how it is then.
    ghost takes: { Self → Told → Self → Type 0 };
    // The same of a notice that fails.
    ghost fails: { Self → Told → Self → Type 0 };

    /// An event was done, and left the lab like this. The answer is that of the router that moved. Its sends are the lab's
    /// datagrams from the number `first` on, and are not in the answer.
    ///
    /// # Errors
    /// The observer's own. The event stays done, and the call that made it ends.
    fn happened(
        &mut self,
        lab: &Running<S>,
        event: &Event<'_>,
        answer: &Answer,
        first: usize,
    ) -> Result<(), Self::Fault>
        ensures takes { OnOk result (takes self.old (record { lab = lab.now; event = event_of event.now; answer = answer.now; first = first }) self.new) }
        ensures fails { OnErr result (fails self.old (record { lab = lab.now; event = event_of event.now; answer = answer.now; first = first }) self.new) };
}

/// An observer that does nothing, and never fails.
#[derive(Clone, Copy, Debug, PartialEq, Eq)]
pub struct Unwatched;

impl<S: RouteStore> Observer<S> for Unwatched {
    type Fault = Infallible;

    ghost takes = { λ _ _ _. ⊤ };

    ghost fails = { λ _ _ _. ⊥ };

    fn happened(
        &mut self,
        _lab: &Running<S>,
        _event: &Event<'_>,
        _answer: &Answer,
        _first: usize,
    ) -> Result<(), Infallible> {
        Ok(())
    }
}

/// Why a call with an observer ends early.
#[derive(Debug, Drop)]
pub enum Stopped<R, F> {
    /// For a reason that the call without an observer has too.
    Refused(R),
    /// The observer failed.
    Failed(F),
}

impl<R: Drop, F> Stopped<R, F> {
    /// How many notices failed: one, if the observer ended the call.
    pub fn failures(&self) -> usize
        ensures { result ≡ failures self.now }
    {
        usize::from(matches!(self, Stopped::Failed(_)))
    }

    /// The same with another refusal, if it is one.
    pub fn refused_as<Q: Drop>(self, other: Q) -> Stopped<Q, F>
        ensures { result ≡ refused_as self other }
    {
        match self {
            Stopped::Refused(_) => Stopped::Refused(other),
            Stopped::Failed(fault) => Stopped::Failed(fault),
        }
    }
}

impl<R> Stopped<R, Infallible> {
    /// The refusal, where the observer cannot fail.
    pub fn refusal(self) -> R
        ensures { self ≡ Refused result }
    {
        match self {
            Stopped::Refused(why) => why,
        }
    }
}

impl<R, F> From<R> for Stopped<R, F> {
    ghost from_gives = { λ why stopped. stopped ≡ Refused why };

    fn from(why: R) -> Stopped<R, F> {
        Stopped::Refused(why)
    }
}
