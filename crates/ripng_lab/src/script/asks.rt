//! Routers that ask by themselves, as a script has it: when they begin, that they ask after each line, and when they end.

ghost use Rattle.std.specs.Prelude.{◌≡◌, OnErr, OnOk, is_some, true};
ghost use Rattle.ripng_lab.specs.Common.{AskAfter, HasDone, HasTold, lab_in};

use crate::asking::{Asker, askers_of};
use crate::forms::{Action, Step, Verb};
use crate::script::Session;
use crate::{Course, Line, Outcome, Watch};
use std::alloc::Global;

impl Session {
    /// Routers ask by themselves from now on, or no longer. What was lost before is nothing to them.
    pub(super) fn set_asking(&mut self, alloc: Global, asks: bool) -> Outcome
        ensures asks { OnOk result (is_some self.new.askers ≡ asks) }
        ensures err { OnErr result (self.new.askers ≡ self.old.askers) }
        ensures course { self.new.course ≡ self.old.course }
        ensures awaited { self.new.awaited ≡ self.old.awaited }
    {
        let askers = askers_of(alloc, self.running()?)?;
        self.askers = if asks { Some(askers) } else { None };
        Ok(())
    }

    /// A router that is to restart has lost nothing: it asks as it starts.
    pub(super) fn forget(&mut self, alloc: Global, line: &Line<'_>)
        ensures course { self.new.course ≡ self.old.course }
        ensures awaited { self.new.awaited ≡ self.old.awaited }
        ensures askers { is_some self.new.askers ≡ is_some self.old.askers }
    {
        if line.verb == Verb::Act(Action::Step(Step::Restart))
            && let Some(askers) = &mut self.askers
            && line.router < askers.len()
        {
            askers[line.router] = Asker::new(alloc);
        }
    }

    /// Routers that have lost a route ask, if they ask by themselves.
    pub(super) fn ask<V: Watch>(&mut self, watch: &mut V) -> Outcome
        ensures done { OnOk result (HasDone (AskAfter (is_some self.old.askers)) V.starts V.takes V.notes (lab_in self.old.course, watch.old) (lab_in self.new.course, watch.new)) }
        ensures told { HasTold result V.starts V.takes V.fails V.notes (lab_in self.old.course, watch.old) (lab_in self.new.course, watch.new) }
        ensures awaited { self.new.awaited ≡ self.old.awaited }
        ensures askers { is_some self.new.askers ≡ is_some self.old.askers }
    {
        let Some(mut askers) = self.askers.take() else {
            return Ok(());
        };
        let outcome = ask_in(&mut self.course, &mut askers, watch);
        self.askers = Some(askers);
        outcome
    }
}

/// Routers that have lost a route ask, if there is a network.
fn ask_in<V: Watch>(course: &mut Option<Course>, askers: &mut [Asker], watch: &mut V) -> Outcome
    ensures done { OnOk result (HasDone (AskAfter true) V.starts V.takes V.notes (lab_in course.old, watch.old) (lab_in course.new, watch.new)) }
    ensures told { HasTold result V.starts V.takes V.fails V.notes (lab_in course.old, watch.old) (lab_in course.new, watch.new) }
{
    match course {
        Some(course) => course.ask_all(askers, watch),
        None => Ok(()),
    }
}
