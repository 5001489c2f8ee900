//! The observer that counts all that happens in a script, and keeps how the script ends.

ghost use Rattle.std.specs.Prelude.{◌≡◌, ⊤, IfOk};
ghost use Rattle.ripng_lab.specs.Common.{no_counts};
ghost use Rattle.ripng_lab_numbers.specs.Running.{BeginsTally, IsTallied, IsTalliedAside};

use crate::ending::End;
use ripng_lab::{Counter, Counts, Network, Notice, Routes, Watch};
use ripng_world::Event;
use route_table::Moment;
use router_core::Answer;
use std::alloc::{AllocError, Global};
use std::io;

/// What happened in a script until now, in numbers.
#[derive(Drop)]
pub(crate) struct Tally {
    pub counter: Counter,
    /// The number of the line that is done, from 1.
    line: usize,
    /// How the script has ended before its last line, if it has.
    pub end: Option<End>,
}

impl Tally {
    /// Nothing has happened yet.
    pub(crate) fn new(alloc: Global) -> Tally
        ensures { result.counter.counts ≡ no_counts }
    {
        Tally {
            counter: Counter::new(alloc),
            line: 0,
            end: None,
        }
    }

    /// All routers have started. If memory runs out, it has no counts from then on.
    pub(crate) fn begin(&mut self, lab: &Network)
        ensures { BeginsTally self.old lab.now self.new }
    {
        self.counter.started(lab);
    }

    /// What was counted until now.
    ///
    /// # Errors
    /// Memory ran out at the start.
    pub(crate) fn counts(&self) -> Result<Counts, AllocError>
        ensures { IfOk result (λ counts. counts ≡ self.now.counter.counts) }
    {
        self.counter.counts()
    }

    /// Whether memory was there for all that is counted.
    pub(crate) fn is_whole(&self) -> bool {
        self.counter.counts().is_ok()
    }

    /// The script ends, if a line did this.
    pub(crate) fn note(&mut self, notice: &Notice<'_>)
        ensures { self.new.counter ≡ self.old.counter }
    {
        match notice {
            Notice::Refused(ending) => self.end = Some(End::Refused(*ending)),
            Notice::Unmet(unmet) => self.end = Some(End::Unmet(self.line, *unmet)),
            _ => {}
        }
    }

    /// The line of that number is next.
    pub(crate) fn turn_to(&mut self, line: usize)
        ensures { self.new.counter ≡ self.old.counter }
    {
        self.line = line;
    }
}

impl ripng_world::Observer<Routes> for Tally {
    type Fault = io::Error;

    ghost takes = { λ old what new. IsTallied old what new };

    ghost fails = { λ _ _ _. ⊤ };

    fn happened(
        &mut self,
        lab: &Network,
        event: &Event<'_>,
        answer: &Answer,
        first: usize,
    ) -> io::Result<()> {
        self.counter.happened(lab, event, answer, first);
        Ok(())
    }
}

impl Watch for Tally {
    ghost starts = { λ old lab _ new. BeginsTally old lab new };

    ghost notes = { λ old aside new. IsTalliedAside old aside new };

    fn at_line(&mut self, number: usize) {
        self.turn_to(number);
    }

    fn started(&mut self, lab: &Network, _: Moment) -> io::Result<()> {
        self.begin(lab);
        Ok(())
    }

    fn noticed(&mut self, notice: Notice<'_>) -> io::Result<()> {
        if let &Notice::Lied(lab, event, answer, first, _) = &notice {
            self.counter.happened(lab, event, answer, first);
        } else {
            self.note(&notice);
        }
        Ok(())
    }
}
