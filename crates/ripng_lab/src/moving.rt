//! What moves a network, with a report to the observer of the script: an event, a forged Response, waves of plans, rounds, and phases.
//! A phase is a minute of random events in which each router's regular update arrives once, without rounds.

ghost use Rattle.std.specs.Prelude.{◌≡◌, ℕ, IfErr, OnOk, Some, is_some, map};
ghost use Rattle.ripng_lab.specs.Common.{HealsIn, AllTakePart, AreMadeAndCounted, EndsInPhases, HasDone, InTurn, IsEvent, IsLie, IsPlayed, IsStopAt, IsWave, StopsPhases, HasTold, event_of, ticks_of, value_of};

use crate::context::{OrNone, moment_after};
use crate::horizon::Advert;
use crate::plan::{Ticking, Wave};
use crate::{BadLine, Course, Line, Notice, Outcome, Refusal, Routes, Site, Stop, Watch};
use rand_core::SeedableRng;
use rand_pcg::Pcg32;
use ripng_phases::{PhaseRefused, run_phases};
use ripng_world::{Event, Lab, Round, Stopped};
use route_table::Moment;
use router_core::Arrival;
use std::alloc::{AllocError, Global};
use std::{fmt, io};

/// The most phases of one line.
pub const PHASES_LIMIT: usize = 1000;

const PHASE_MS: u64 = 60_000;

/// What became of a line of phases.
#[derive(Clone, Copy, Debug, PartialEq, Eq)]
pub struct MadePhases {
    /// How many were made.
    pub phases: usize,
    /// The last phase, numbered from 0, in which a table changed. Deadlines of routes are not compared.
    pub last: Option<usize>,
}

impl fmt::Display for MadePhases {
    fn fmt<W: fmt::Write>(&self, f: &mut fmt::Formatter<W>) -> fmt::Result {
        let (phases, last) = (self.phases, OrNone(self.last));
        write!(f, "phases {phases} last change {last}")
    }
}

impl Course {
    /// Makes an event happen, unless it is refused.
    pub fn step<V: Watch>(&mut self, event: &Event<'_>, watch: &mut V) -> Outcome
        ensures done { OnOk result (HasDone (IsEvent (event_of event.entry.now)) V.starts V.takes V.notes (Some (value_of self.old.site), watch.old) (Some (value_of self.new.site), watch.new)) }
        ensures told { HasTold result V.starts V.takes V.fails V.notes (Some (value_of self.old.site), watch.old) (Some (value_of self.new.site), watch.new) }
    {
        match self.site.step_watched(event, watch) {
            Ok(_) => Ok(()),
            Err(Stopped::Refused(why)) => Err(Stop::from(why)),
            Err(Stopped::Failed(error)) => Err(Stop::Failed(error)),
        }
    }

    /// A forged Response arrives, and the observer is notified. The network is verified no longer; the router is there, and accepts it.
    /// It comes in place of a datagram of the router `sender`, if that is named.
    pub fn lie<V: Watch>(
        &mut self,
        router: usize,
        arrival: Arrival<'_>,
        sender: Option<usize>,
        watch: &mut V,
    ) -> Outcome
        ensures done { OnOk result (HasDone (IsLie router arrival.entry) V.starts V.takes V.notes (Some (value_of self.old.site), watch.old) (Some (value_of self.new.site), watch.new)) }
        ensures told { HasTold result V.starts V.takes V.fails V.notes (Some (value_of self.old.site), watch.old) (Some (value_of self.new.site), watch.new) }
    {
        let Site::Lied(running) = &mut self.site else {
            return Err(Stop::from(BadLine::BeforeStart));
        };
        let first = running.sent().len();
        let answer = running.lie(router, &arrival)?;
        let event = Event::Stranger { router, arrival };
        let lab = self.site.running();
        Ok(watch.noticed(Notice::Lied(lab, &event, &answer, first, sender))?)
    }

    /// A wave is made: its ticks, and then its deliveries. What was sent before these is passed by from then on. It ends where a router or
    /// a datagram is not there, a regular update is not due, memory is out, or the observer fails; what was done stays done.
    pub fn make_wave<V: Watch>(&mut self, wave: &Wave<'_>, watch: &mut V) -> Outcome
        ensures done { OnOk result (HasDone (λ ts. (routers : ℕ) × IsWave (ticks_of wave.entry.now self.old.outages routers) wave.entry.now.moment ts) V.starts V.takes V.notes (Some (value_of self.old.site), watch.old) (Some (value_of self.new.site), watch.new)) }
        ensures told { HasTold result V.starts V.takes V.fails V.notes (Some (value_of self.old.site), watch.old) (Some (value_of self.new.site), watch.new) }
    {
        let begin = self.sent();
        let first = wave.first(self.unheard, begin);
        let ticks = wave.ticks(self.alloc, self.site.running().routers(), &self.outages)?;
        self.play(wave, None, &ticks, watch)?;
        self.unheard = self.sent();
        let end = self.sent();
        wave.check_lost(end.saturating_sub(first))?;
        let adverts = Advert::all_from(self, begin)?;
        for datagram in first..end {
            let events = wave.deliveries(self, first, datagram)?;
            let advert = adverts.iter().find(|advert| advert.datagram == datagram);
            self.play(wave, advert, &events, watch)?;
        }
        Ok(())
    }

    /// Makes the events of a wave happen, one after another. If they deliver a datagram of a router without poisoned reverse (`horizon`),
    /// its substitute advertisement `advert` is delivered instead.
    pub fn play<V: Watch>(
        &mut self,
        wave: &Wave<'_>,
        advert: Option<&Advert>,
        events: &[Event<'static>],
        watch: &mut V,
    ) -> Outcome
        ensures done { OnOk result (HasDone (InTurn (IsPlayed (is_some advert.entry)) (map event_of events.now)) V.starts V.takes V.notes (Some (value_of self.old.site), watch.old) (Some (value_of self.new.site), watch.new)) }
        ensures told { HasTold result V.starts V.takes V.fails V.notes (Some (value_of self.old.site), watch.old) (Some (value_of self.new.site), watch.new) }
    {
        for event in events {
            wave.check(self.site.running(), event)?;
            self.bring(advert, event, watch)?;
        }
        Ok(())
    }

    /// Delivers an event, or in its place the substitute advertisement as a forged Response; an empty one delivers nothing. The sender's
    /// own interfaces get the original datagram, since they would refuse a substitute.
    fn bring<V: Watch>(
        &mut self,
        advert: Option<&Advert>,
        event: &Event<'static>,
        watch: &mut V,
    ) -> Outcome
        ensures done { OnOk result (HasDone (IsPlayed (is_some advert.entry) (event_of event.now)) V.starts V.takes V.notes (Some (value_of self.old.site), watch.old) (Some (value_of self.new.site), watch.new)) }
        ensures told { HasTold result V.starts V.takes V.fails V.notes (Some (value_of self.old.site), watch.old) (Some (value_of self.new.site), watch.new) }
    {
        match advert {
            Some(advert) if advert.bytes.is_empty() => Ok(()),
            Some(advert) => match advert.accepted(self.site.running(), event) {
                Some(arrival) => self.lie(event.router(), arrival, Some(advert.router), watch),
                None => self.step(event, watch),
            },
            None => self.step(event, watch),
        }
    }

    /// A round at each time of a line: every router ticks in order, with the word 0, when its regular update is due, and what these ticks
    /// sent is delivered as in one round alone. With outages, and after a forged Response, nothing is promised of them.
    pub fn make_rounds<V: Watch>(&mut self, line: &Line<'_>, watch: &mut V) -> Outcome
        ensures { HasTold result V.starts V.takes V.fails V.notes (Some (value_of self.old.site), watch.old) (Some (value_of self.new.site), watch.new) }
    {
        let at = |round: u64| moment_after(line.now, line.gap, round).unwrap_or(line.now);
        let moments: Vec<Moment> = (0..line.count as u64).map(at).collect(self.alloc)?;
        if self.outages.are_none()
            && let Site::Lawful(lab) = &mut self.site
        {
            return make_whole_rounds(self.alloc, lab, &moments, watch);
        }
        for (round, now) in moments.iter().enumerate() {
            let wave = Wave {
                moment: *now,
                ..line.wave(Ticking::Due { round })
            };
            self.make_wave(&wave, watch)?;
        }
        Ok(())
    }

    /// Makes the line's number of phases, one after another, at random by a generator that starts from its seed. What they sent is passed
    /// by. The observer is notified in which of them some table last changed. 28 of them leave each table with the least costs of now, and
    /// nothing else below 16 hops, whatever happened before. Nothing is done, but `LiedTo` refused after a forged Response, and `Outage`
    /// where a router is silent or a link is cut. The phases end where a router's regular update is not due in time, one is past the last
    /// moment, memory is out, or the observer fails; what was done stays done.
    pub fn make_phases<V: Watch>(&mut self, line: &Line<'_>, watch: &mut V) -> Outcome
        ensures done { OnOk result (HasDone (EndsInPhases line.entry.now.count) V.starts V.takes V.notes (Some (value_of self.old.site), watch.old) (Some (value_of self.new.site), watch.new)) }
        ensures told { HasTold result V.starts V.takes V.fails V.notes (Some (value_of self.old.site), watch.old) (Some (value_of self.new.site), watch.new) }
        ensures all { OnOk result (AllTakePart self.old.outages) }
        ensures made { OnOk result (AreMadeAndCounted V.takes V.notes (value_of self.old.site, watch.old) line.entry.now.count (value_of self.new.site, watch.new)) }
        ensures heals { OnOk result (HealsIn (value_of self.old.site).network (value_of self.old.site).world line.entry.now.count (value_of self.new.site).world) }
        ensures stopped { IfErr result (λ stop. StopsPhases V.takes V.fails self.old.site self.old.outages watch.old stop (value_of self.new.site, watch.new)) }
    {
        let Site::Lawful(lab) = &mut self.site else {
            return Err(Stop::Refused(Refusal::LiedTo));
        };
        if !self.outages.are_none() {
            return Err(Stop::Refused(Refusal::Outage));
        }
        let (phases, mut rng) = (line.count, Pcg32::seed_from_u64(line.seed));
        let (phase, outcome) = run_phases(self.alloc, lab, phases, &mut rng, watch);
        match outcome {
            Ok(last) => {
                self.unheard = lab.sent().len();
                Ok(watch.noticed(Notice::Phases(MadePhases { phases, last }))?)
            }
            Err(why) => Err(stop_at(phase, why)),
        }
    }
}

/// Rounds in a verified network, where all takes part: as [`Lab::run_rounds`] promises.
fn make_whole_rounds<V: Watch>(
    alloc: Global,
    lab: &mut Lab<Routes>,
    moments: &[Moment],
    watch: &mut V,
) -> Outcome
    ensures { HasTold result V.starts V.takes V.fails V.notes (Some lab.old, watch.old) (Some lab.new, watch.new) }
{
    let (mut ticks, routers) = (Vec::new(alloc), lab.routers());
    for now in moments {
        ticks.push((*now, vec![in alloc; (*now, 0); routers]?))?;
    }
    let rounds = ticks.iter().map(|(now, ticks)| Round {
        ticks,
        picks: &[],
        rest: *now,
    });
    let rounds: Vec<Round<'_>> = rounds.collect(alloc)?;
    match lab.run_rounds_watched(&rounds, watch) {
        Ok(()) => Ok(()),
        Err(Stopped::Refused(why)) => Err(Stop::from(Refusal::Rounds(why))),
        Err(Stopped::Failed(error)) => Err(Stop::Failed(error)),
    }
}

/// When `phases` phases end of which the first begins at `begin`, at most the last moment.
pub fn end_of_phases(begin: Moment, phases: usize) -> Option<Moment> {
    moment_after(begin, PHASE_MS, phases as u64).or(Moment::new(1 << 60))
}

/// What a script says where phases stop in the one of that number.
fn stop_at(phase: usize, why: Stopped<PhaseRefused, io::Error>) -> Stop
    ensures { IsStopAt phase why result }
{
    match why {
        Stopped::Refused(PhaseRefused::OutOfMemory) => Stop::Failed(io::Error::from(AllocError)),
        Stopped::Refused(refused) => Stop::Refused(Refusal::Phases { phase, refused }),
        Stopped::Failed(error) => Stop::Failed(error),
    }
}
