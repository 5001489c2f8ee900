//! Time that passes by itself: each router ticks when one of its timers is due, and each datagram comes after its link's delay, if the
//! link does not lose it.

ghost use Rattle.std.specs.Prelude.{◌≡◌, OnOk, Some};
ghost use Rattle.ripng_lab.specs.Common.{HasDone, HasRunAndNoted, HasTold, IsNothingDue, IsStopOfRun, PassesUntil, asked_by, carriage_on, value_of};

use crate::{Course, Line, Network, Notice, Outcome, Refusal, Routes, Site, Stop, Watch};
use rand_core::SeedableRng;
use rand_pcg::Pcg32;
use ripng_clock::{Carriage, RunRefused, Runs, Span, run_until};
use ripng_world::{Event, LabError, Observer, Stopped};
use router_core::Answer;
use std::alloc::AllocError;
use std::io;

impl Runs<Routes> for Site {
    ghost value = { value_of };

    fn running(&self) -> &Network {
        Site::running(self)
    }

    fn step_watched<V: Observer<Routes>>(
        &mut self,
        event: &Event<'_>,
        watch: &mut V,
    ) -> Result<Answer, Stopped<LabError, V::Fault>> {
        Site::step_watched(self, event, watch)
    }
}

impl Course {
    /// A link has a delay and a loss from now on. What is under way keeps its own.
    pub fn carry(&mut self, line: &Line<'_>) -> Outcome
        ensures site { self.new.site ≡ self.old.site }
        ensures carried { OnOk result (carriage_on self.new.timetable line.entry.now.link ≡ record { delay_ms = line.entry.now.delay; loss = line.entry.now.loss }) }
    {
        let _ = self.places_on(line.link)?;
        let carriage = Carriage {
            delay_ms: line.delay,
            loss: line.loss,
        };
        Ok(self.timetable.set(line.link, carriage)?)
    }

    /// Time passes until that of the line. What was sent is passed by from then on; what is under way then comes in a later run. Nothing
    /// is due any more at the end. A network with a router that is no router of RIPng has no such runs: `LiedTo`.
    pub fn pass_time<V: Watch>(&mut self, line: &Line<'_>, watch: &mut V) -> Outcome
        ensures done { OnOk result (HasDone (PassesUntil line.entry.now.now) V.starts V.takes V.notes (Some (value_of self.old.site), watch.old) (Some (value_of self.new.site), watch.new)) }
        ensures told { HasTold result V.starts V.takes V.fails V.notes (Some (value_of self.old.site), watch.old) (Some (value_of self.new.site), watch.new) }
        ensures ran { OnOk result (HasRunAndNoted V.takes V.notes (asked_by line.entry.now self.old.unheard self.old.outages) self.old.timetable (value_of self.old.site, watch.old) (value_of self.new.site, watch.new)) }
        ensures over { OnOk result (IsNothingDue (asked_by line.entry.now self.old.unheard self.old.outages) (value_of self.new.site) self.new.timetable.under_way) }
    {
        if !self.horizons.is_empty() {
            return Err(Stop::Refused(Refusal::LiedTo));
        }
        let span = Span {
            until: line.now,
            first: self.unheard,
            silent: &self.outages.silent,
            cut: &self.outages.cut,
            lost: &self.outages.lost,
        };
        let mut rng = Pcg32::seed_from_u64(line.seed);
        let (site, timetable) = (&mut self.site, &mut self.timetable);
        match run_until(self.alloc, site, timetable, &span, &mut rng, watch) {
            Ok(()) => {
                self.unheard = self.sent();
                let (until, seed) = (line.now, line.seed);
                self.tell(Notice::Ran { until, seed }, watch)
            }
            Err(why) => Err(stop_of(why)),
        }
    }
}

/// What a script says where a run stops.
fn stop_of(why: Stopped<RunRefused, io::Error>) -> Stop
    ensures { IsStopOfRun why result }
{
    match why {
        Stopped::Refused(RunRefused::OutOfMemory) => Stop::Failed(io::Error::from(AllocError)),
        Stopped::Refused(refused) => Stop::Refused(Refusal::Run(refused)),
        Stopped::Failed(error) => Stop::Failed(error),
    }
}
