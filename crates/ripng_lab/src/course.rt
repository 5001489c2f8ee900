//! A network that runs, and what lines do with it.

ghost use Rattle.std.specs.Prelude.{◌≡◌, ◌<◌, ◌++◌, ◌∷◌, [], IfErr, IfOk, IfSome, OnOk, Some, length, map};
ghost use Rattle.ripng_lab.specs.Common.{AreAtEach, EndsIn, down_after, IsAtEach, Notes, Prints, aside_of, with_member, HasDone, HasTold, IsNote, MeansAct, HappensGiving, IfRefused, StepEnds, WatchedInPart, event_of, failures, refusal_in, value_of};

use crate::forms::{Action, Step};
use crate::plan::{Outages, Ticking, set_member};
use crate::{
    Counted, Expected, Horizon, Line, Notice, Outcome, Refusal, Stop, Unmet, Watch, Way, meet,
    settle,
};
use prefix6::Prefix;
use ripng_clock::Timetable;
use ripng_world::{Event, Lab, LabError, Observer, Running, Stopped};
use route_table::SortedRoutes;
use router_core::Answer;
use std::alloc::{AllocError, Global};

/// The tables of a script's routers.
pub type Routes = SortedRoutes;

/// The routers of a script as they run.
pub type Network = Running<Routes>;

/// Where a script's routers run.
#[derive(Drop)]
pub enum Site {
    /// A lab, of which all is promised.
    Lawful(Lab<Routes>),
    /// Routers of which one may have accepted a forged Response.
    Lied(Network),
}

impl Site {
    /// The same routers, with nothing promised.
    pub fn lied(self) -> Site
        ensures { value_of result ≡ value_of self }
    {
        match self {
            Site::Lawful(lab) => Site::Lied(lab.into_running()),
            lied => lied,
        }
    }

    /// The routers as they run.
    pub fn running(&self) -> &Network
        ensures { result.now ≡ value_of self.now }
    {
        match self {
            Site::Lawful(lab) => lab.running(),
            Site::Lied(running) => running,
        }
    }

    /// An event happens, and the observer is notified of it, with the router's output. The error is the first reason to refuse the event,
    /// or out of memory, without a notification; or the observer's, and then the event is done.
    pub fn step_watched<V: Observer<Routes>>(
        &mut self,
        event: &Event<'_>,
        watch: &mut V,
    ) -> Result<Answer, Stopped<LabError, V::Fault>>
        ensures told { IfOk result (λ answer. V.takes watch.old (record { lab = value_of self.new; event = event_of event.entry.now; answer = answer; first = length (value_of self.old).world.sent }) watch.new) }
        ensures stopped { IfErr result (λ why. WatchedInPart V.takes V.fails (failures why) (value_of self.old).network ((value_of self.old).world, watch.old) (event_of event.entry.now ∷ []) ((value_of self.new).world, watch.new)) }
        ensures happens { IfOk result (λ answer. HappensGiving (value_of self.old) (event_of event.entry.now) answer (value_of self.new).world) }
        ensures network { (value_of self.new).network ≡ (value_of self.old).network }
        ensures ends { StepEnds (value_of self.old) (event_of event.entry.now) (refusal_in result) (value_of self.new) }
        ensures untold { IfErr result (λ why. IfRefused why (λ _. watch.new ≡ watch.old)) }
    {
        match self {
            Site::Lawful(lab) => lab.step_watched(event, watch),
            Site::Lied(running) => running.step_watched(event, watch),
        }
    }
}

/// A network that runs, and what a script keeps of it.
#[derive(Drop)]
pub struct Course {
    pub alloc: Global,
    pub site: Site,
    /// The number of the first datagram that was not passed by: the next line `hear` delivers from there on.
    pub unheard: usize,
    pub outages: Outages,
    /// How links carry datagrams while time passes, and what is under way.
    pub timetable: Timetable,
    /// The routers with another horizon than RIPng's.
    pub horizons: Vec<(usize, Horizon)>,
}

impl Course {
    /// A lab that has just started.
    pub fn new(alloc: Global, lab: Lab<Routes>) -> Course
        ensures { value_of result.site ≡ lab }
    {
        Course {
            alloc,
            site: Site::Lawful(lab),
            unheard: 0,
            outages: Outages {
                silent: Vec::new(alloc),
                cut: Vec::new(alloc),
                down: Vec::new(alloc),
                lost: Vec::new(alloc),
            },
            timetable: Timetable::new(alloc),
            horizons: Vec::new(alloc),
        }
    }

    /// How many datagrams were sent.
    pub fn sent(&self) -> usize {
        self.site.running().sent().len()
    }

    /// Does what a line says. The output of a router goes to the observer alone.
    pub fn act<V: Counted>(&mut self, action: Action, line: &Line<'_>, watch: &mut V) -> Outcome
        ensures done { OnOk result (HasDone (MeansAct action line.entry.now) V.starts V.takes V.notes (Some (value_of self.old.site), watch.old) (Some (value_of self.new.site), watch.new)) }
        ensures told { HasTold result V.starts V.takes V.fails V.notes (Some (value_of self.old.site), watch.old) (Some (value_of self.new.site), watch.new) }
    {
        let (router, word) = (line.router, line.word);
        match action {
            Action::Step(kind) => {
                let event = line.event(kind, router, line.iface);
                self.outages.check_event(&event)?;
                self.step(&event, watch)
            }
            Action::AtLink(kind) => self.happen_at_link(kind, line, watch),
            Action::Arrive => {
                let bytes = line.bytes(self.alloc)?;
                let arrival = line.arrival(&bytes);
                self.step(&Event::Stranger { router, arrival }, watch)
            }
            Action::Tell => self.make_wave(&line.wave(Ticking::One { router, word }), watch),
            Action::Hear => self.make_wave(&line.wave(Ticking::Nobody), watch),
            Action::Round => self.make_wave(&line.wave(Ticking::All), watch),
            Action::Rounds => self.go_round(line, watch),
            Action::Phases => self.make_phases(line, watch),
            Action::Run => self.pass_time(line, watch),
            Action::Carry => self.carry(line),
            Action::Lose => self.lose(line.datagram, watch),
            Action::Silent(silent) => self.set_silent(router, silent),
            Action::Cut(cut) => self.set_cut(line, cut),
            Action::PrintAll => self.print(None, None, watch),
            Action::PrintRouter => self.print(Some(router), None, watch),
            Action::PrintRoute => self.print(Some(router), Some(&line.prefix), watch),
            Action::PrintAllSent => self.show_sent(None, watch),
            Action::PrintSent => self.show_sent(Some(line.datagram), watch),
            Action::Count => self.count(watch),
            Action::Say => self.tell(Notice::Said(line.text), watch),
            Action::Expect => self.expect(line),
            Action::Path => self.tell(Notice::Way(self.way(line)?), watch),
            Action::ExpectPath => self.expect_fate(line),
            Action::ExpectSettled => settle(watch.counter(), line.now),
            Action::ExpectHealed => self.expect_healed(),
        }
    }

    /// The observer is notified of what a line did, beside events and phases.
    pub fn tell<V: Watch>(&self, notice: Notice<'_>, watch: &mut V) -> Outcome
        requires { aside_of notice ≡ Prints }
        ensures done { OnOk result (HasDone (IsNote) V.starts V.takes V.notes (Some (value_of self.now.site), watch.old) (Some (value_of self.now.site), watch.new)) }
        ensures told { HasTold result V.starts V.takes V.fails V.notes (Some (value_of self.now.site), watch.old) (Some (value_of self.now.site), watch.new) }
    {
        Ok(watch.noticed(notice)?)
    }

    /// An event at each interface on a link. Where the link goes down it is cut, and where it comes up it is mended.
    fn happen_at_link<V: Watch>(&mut self, kind: Step, line: &Line<'_>, watch: &mut V) -> Outcome
        ensures done { OnOk result (HasDone (IsAtEach kind line.entry.now) V.starts V.takes V.notes (Some (value_of self.old.site), watch.old) (Some (value_of self.new.site), watch.new)) }
        ensures told { HasTold result V.starts V.takes V.fails V.notes (Some (value_of self.old.site), watch.old) (Some (value_of self.new.site), watch.new) }
    {
        let events = self.events_at(kind, line)?;
        self.mark_link(kind, line.link as usize)?;
        self.play(&line.wave(Ticking::Nobody), None, &events, watch)
    }

    /// A link is down and cut where it goes down, and mended where it comes up.
    fn mark_link(&mut self, kind: Step, link: usize) -> Result<(), AllocError>
        ensures site { self.new.site ≡ self.old.site }
        ensures down { OnOk result (self.new.outages.down.items ≡ down_after kind link self.old.outages.down.items) }
    {
        let down = match kind {
            Step::Down => true,
            Step::Up => false,
            _ => return Ok(()),
        };
        set_member(&mut self.outages.down, link, down)?;
        set_member(&mut self.outages.cut, link, down)
    }

    /// Rounds are made, and what they sent is passed by.
    fn go_round<V: Watch>(&mut self, line: &Line<'_>, watch: &mut V) -> Outcome
        ensures done { OnOk result (HasDone (EndsIn Notes) V.starts V.takes V.notes (Some (value_of self.old.site), watch.old) (Some (value_of self.new.site), watch.new)) }
        ensures told { HasTold result V.starts V.takes V.fails V.notes (Some (value_of self.old.site), watch.old) (Some (value_of self.new.site), watch.new) }
    {
        self.make_rounds(line, watch)?;
        self.unheard = self.sent();
        self.tell(Notice::Rounds(line.count), watch)
    }

    /// A datagram is lost, unless it is already.
    fn lose<V: Watch>(&mut self, datagram: usize, watch: &mut V) -> Outcome
        ensures done { OnOk result (HasDone (IsNote) V.starts V.takes V.notes (Some (value_of self.old.site), watch.old) (Some (value_of self.new.site), watch.new)) }
        ensures told { HasTold result V.starts V.takes V.fails V.notes (Some (value_of self.old.site), watch.old) (Some (value_of self.new.site), watch.new) }
        ensures lost { OnOk result (self.new.outages.lost.items ≡ self.old.outages.lost.items ++ datagram ∷ []) }
    {
        check_named(Some(datagram), self.sent(), LabError::NoSuchDatagram)?;
        if self.outages.lost.contains(&datagram) {
            return Err(Stop::Refused(Refusal::DatagramLost));
        }
        self.outages.lost.push(datagram)?;
        self.tell(Notice::Lost(datagram), watch)
    }

    /// A router has another horizon from now on.
    pub fn bend<V: Watch>(&mut self, line: &Line<'_>, watch: &mut V) -> Outcome
        ensures done { OnOk result (HasDone (IsNote) V.starts V.takes V.notes (Some (value_of self.old.site), watch.old) (Some (value_of self.new.site), watch.new)) }
        ensures told { HasTold result V.starts V.takes V.fails V.notes (Some (value_of self.old.site), watch.old) (Some (value_of self.new.site), watch.new) }
    {
        let (router, horizon) = (line.router, line.horizon);
        self.set_horizon(router, horizon)?;
        self.tell(Notice::Horizon { router, horizon }, watch)
    }

    /// A router has that horizon; only another one than RIPng's is kept.
    fn set_horizon(&mut self, router: usize, horizon: Horizon) -> Result<(), AllocError>
        ensures { self.new.site ≡ self.old.site }
    {
        self.horizons.retain(|(other, _)| *other != router);
        if horizon != Horizon::Poison {
            self.horizons.push((router, horizon))?;
        }
        Ok(())
    }

    /// Prints the routes of a router, or of all, to a prefix, or to all.
    fn print<V: Watch>(&self, router: Option<usize>, to: Option<&Prefix>, watch: &mut V) -> Outcome
        ensures done { OnOk result (HasDone (IsNote) V.starts V.takes V.notes (Some (value_of self.now.site), watch.old) (Some (value_of self.now.site), watch.new)) }
        ensures told { HasTold result V.starts V.takes V.fails V.notes (Some (value_of self.now.site), watch.old) (Some (value_of self.now.site), watch.new) }
    {
        let routers = self.site.running().routers();
        check_named(router, routers, LabError::NoSuchRouter)?;
        self.tell(Notice::Routes(self.site.running(), router, to), watch)
    }

    fn show_sent<V: Watch>(&self, asked: Option<usize>, watch: &mut V) -> Outcome
        ensures done { OnOk result (HasDone (IsNote) V.starts V.takes V.notes (Some (value_of self.now.site), watch.old) (Some (value_of self.now.site), watch.new)) }
        ensures told { HasTold result V.starts V.takes V.fails V.notes (Some (value_of self.now.site), watch.old) (Some (value_of self.now.site), watch.new) }
    {
        check_named(asked, self.sent(), LabError::NoSuchDatagram)?;
        self.tell(Notice::Datagrams(self.site.running(), asked), watch)
    }

    /// A line that expects something of a table.
    fn expect(&self, line: &Line<'_>) -> Outcome {
        let expected = Expected {
            router: line.router,
            prefix: line.prefix,
            metric: line.metric,
        };
        meet(self.site.running(), expected)
    }

    /// Where the packets of a line go.
    fn way(&self, line: &Line<'_>) -> Result<Way, Stop> {
        Way::of(self.site.running(), &self.outages, line.router, line.addr)
    }

    /// A line that expects what becomes of packets.
    fn expect_fate(&self, line: &Line<'_>) -> Outcome {
        let way = self.way(line)?;
        if way.fate() == line.fate {
            return Ok(());
        }
        Err(Stop::Unmet(Unmet::Fate {
            router: way.router,
            addr: way.addr,
            expected: line.fate,
            found: way.fate(),
        }))
    }

    /// A router is silent from now on, or no longer.
    fn set_silent(&mut self, router: usize, silent: bool) -> Outcome
        ensures there { OnOk result (router < length (value_of self.old.site).network) }
        ensures set { OnOk result (self.new.outages.silent.items ≡ with_member silent router self.old.outages.silent.items) }
        ensures site { self.new.site ≡ self.old.site }
    {
        if router >= self.site.running().routers() {
            return Err(Stop::from(LabError::NoSuchRouter));
        }
        Ok(set_member(&mut self.outages.silent, router, silent)?)
    }

    /// A link is cut from now on, or no longer.
    fn set_cut(&mut self, line: &Line<'_>, cut: bool) -> Outcome
        ensures set { OnOk result (self.new.outages.cut.items ≡ with_member cut line.entry.now.link self.old.outages.cut.items) }
        ensures site { self.new.site ≡ self.old.site }
    {
        let _ = self.places_on(line.link)?;
        Ok(set_member(&mut self.outages.cut, line.link as usize, cut)?)
    }

    /// An event at each interface on the link of a line, by router and interface. `NoSuchLink` if the link has no interface.
    fn events_at(&self, kind: Step, line: &Line<'_>) -> Result<Vec<Event<'static>>, Stop>
        ensures { IfOk result (λ events. AreAtEach kind line.entry.now (map event_of events.items)) }
    {
        let places = self.places_on(line.link)?;
        let events: Vec<Event<'static>> = places
            .iter()
            .map(|&(router, iface)| line.event(kind, router, iface))
            .collect(self.alloc)?;
        Ok(events)
    }

    /// The interfaces on a link, each after its router's number, in order. `NoSuchLink` if there is none.
    pub fn places_on(&self, link: u32) -> Result<Vec<(usize, usize)>, Stop> {
        let places = self.site.running().interfaces_on(link);
        if places.is_empty() {
            return Err(Stop::Refused(Refusal::NoSuchLink));
        }
        Ok(Vec::from_slice(self.alloc, places)?)
    }
}

/// Fails with `error` if a `number` is given and is not below `count`.
pub fn check_named(number: Option<usize>, count: usize, error: LabError) -> Outcome
    ensures { OnOk result (IfSome number (λ n. n < count)) }
{
    match number {
        Some(number) if number >= count => Err(Stop::from(error)),
        _ => Ok(()),
    }
}
