//! The observer that counts what happens in a script, and notifies the script's own observer of it.

ghost use Rattle.std.specs.Prelude.{◌≡◌, OnOk, Some};
ghost use Rattle.ripng_lab.specs.Common.{CountedAside, HasCounted, HasDone, HasStartedCounting, HasTold, IsShown, SameWatch, ShowsCounts, value_of};
ghost use Rattle.ripng_lab.specs.declared.counting.Counter.{Counter as CounterValue};

use crate::{Counter, Course, Network, Notice, Outcome, Routes, Watch};
use ripng_world::Event;
use route_table::Moment;
use router_core::Answer;
use std::io;

/// An observer of a script that counts.
pub trait Counted: Watch {
    // What it has counted.
    ghost counter: { Self → CounterValue };

    /// What it has counted.
    fn counter(&self) -> &Counter
        ensures { result.now ≡ counter self.now };
}

/// The observer that counts, and then notifies another.
#[derive(Drop)]
pub struct Counting<'w, V: Watch> {
    pub counter: Counter,
    pub watch: &'w mut V,
}

impl<'w, V: Watch> ripng_world::Observer<Routes> for Counting<'w, V> {
    type Fault = io::Error;

    ghost takes = { λ old what new. V.takes old.watch.now what new.watch.now × HasCounted old.counter what new.counter × SameWatch old new };

    ghost fails = { λ old what new. V.fails old.watch.now what new.watch.now × SameWatch old new };

    fn happened(
        &mut self,
        lab: &Network,
        event: &Event<'_>,
        answer: &Answer,
        first: usize,
    ) -> io::Result<()> {
        self.counter.happened(lab, event, answer, first);
        self.watch.happened(lab, event, answer, first)
    }
}

impl<'w, V: Watch> Watch for Counting<'w, V> {
    ghost starts = { λ old lab now new. V.starts old.watch.now lab now new.watch.now × HasStartedCounting old.counter lab new.counter × SameWatch old new };

    ghost notes = { λ old aside new. V.notes old.watch.now aside new.watch.now × CountedAside old.counter aside new.counter × SameWatch old new };

    fn at_line(&mut self, number: usize) {
        self.watch.at_line(number);
    }

    fn started(&mut self, lab: &Network, now: Moment) -> io::Result<()> {
        self.counter.started(lab);
        self.watch.started(lab, now)
    }

    fn noticed(&mut self, notice: Notice<'_>) -> io::Result<()> {
        if let &Notice::Lied(lab, event, answer, first, _) = &notice {
            self.counter.happened(lab, event, answer, first);
        }
        self.watch.noticed(notice)
    }
}

impl<'w, V: Watch> Counted for Counting<'w, V> {
    ghost counter = { λ counting. counting.counter };

    fn counter(&self) -> &Counter {
        &self.counter
    }
}

impl Course {
    /// The observer is notified of what it has counted.
    pub fn count<V: Counted>(&self, watch: &mut V) -> Outcome
        ensures done { OnOk result (HasDone (IsShown) V.starts V.takes V.notes (Some (value_of self.now.site), watch.old) (Some (value_of self.now.site), watch.new)) }
        ensures shown { OnOk result (V.notes watch.old (ShowsCounts (V.counter watch.old).counts) watch.new) }
        ensures told { HasTold result V.starts V.takes V.fails V.notes (Some (value_of self.now.site), watch.old) (Some (value_of self.now.site), watch.new) }
    {
        let counts = watch.counter().counts()?;
        Ok(watch.noticed(Notice::Counts(counts))?)
    }
}
