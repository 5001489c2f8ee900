//! Routers that run in a network, with all that they have sent. Only what each step does is promised of them. More holds while no
//! router has received a forged Response: that is promised of a `Lab`, which is made of this.

ghost use Rattle.std.specs.Prelude.{◌≡◌, ℕ, ◌∷◌, [], Some, IfErr, IfOk, OnErr, length, slice_get, option_copied};
ghost use Rattle.ripng_world.specs.Common.{result_err, first_reason, event_of, event_fault, HappensGiving, StepEnds, link_at, missing_interface_reasons, missing_router_reasons, lie_fault, Acts, IsOwnRefusal, IsPlacedIn, Deliver, Stranger, is_heard, IsLieRefusal, LiesGiving, IfRefused, WatchedInPart, failures, refusal_in, LabValue, lab_of, coded_states, AreListed, interfaces_on, network_of};

use crate::event::{Event, LabError, Sent};
use crate::links::Links;
use crate::station::{Station, file, interface_at, source_of};
use crate::watch::{Observer, Stopped};
use prefix6::Addr6;
use ripng_wire::Command;
use route_table::RouteStore;
use router_core::{Answer, Arrival, Change, Listed, Router};
use std::alloc::Global;
use std::marker::Model;

/// Routers that run at their places in a network.
#[derive(Drop)]
pub struct Running<S: RouteStore> {
    pub(crate) stations: Vec<Station<S>>,
    pub(crate) links: Links,
    pub(crate) sent: Vec<Sent>,
    pub(crate) reconfigurations: Vec<(usize, Change)>,
    pub(crate) alloc: Global,
}

impl<S: RouteStore> Model for Running<S> {
    ghost Value = { LabValue };

    ghost coded = { Prim.hlevel coded_states };

    ghost view = { λ l. lab_of l.stations.items l.sent.items l.reconfigurations.items };

    ghost invariant = { λ l. AreListed (network_of l.stations.items) l.links };
}

/// Whether the router would accept the arrival as a Response. Only a Response is decoded for that.
fn is_heard<S: RouteStore>(router: &Router<S>, arrival: &Arrival<'_>) -> bool
    ensures { result ≡ is_heard router.now arrival.entry.now }
{
    let command = arrival.bytes.first();
    command.is_some_and(|&command| command == Command::Response as u8)
        && router.fault_of(arrival).is_none()
}

impl<S: RouteStore> Running<S> {
    /// How many routers the network has.
    pub fn routers(&self) -> usize
        ensures { result ≡ length self.now.network }
    {
        self.stations.len()
    }

    /// The router with that number, if the network has it.
    pub fn router(&self, router: usize) -> Option<&Router<S>>
        ensures { option_copied result ≡ slice_get self.now.world.states router }
    {
        Some(self.stations.get(router)?.router())
    }

    /// All datagrams ever sent, numbered from 0.
    pub fn sent(&self) -> &[Sent]
        ensures { result.now ≡ self.now.world.sent }
    {
        &self.sent
    }

    /// The changes of configuration that routers have done since the cold start, each with its router, in order.
    pub fn reconfigurations(&self) -> &[(usize, Change)]
        ensures { result.now ≡ self.now.world.reconfigurations }
    {
        &self.reconfigurations
    }

    /// The number of the link of an interface, if the network has such a router and interface.
    pub fn link(&self, router: usize, iface: usize) -> Option<u32>
        ensures { result ≡ link_at self.now.network router iface }
    {
        interface_at(&self.stations, router, iface).map(|i| i.link)
    }

    /// The interfaces on a link, each after its router's number, in order.
    pub fn interfaces_on(&self, link: u32) -> &[(usize, usize)]
        ensures { result.now ≡ interfaces_on self.now.network link }
    {
        self.links.on(link)
    }

    /// Whether there is such a router.
    fn check_router(&self, router: usize) -> Result<(), LabError>
        ensures { result_err result ≡ first_reason (missing_router_reasons self.now.network router) }
    {
        let station = self.stations.get(router).map(|_| ());
        station.ok_or(LabError::NoSuchRouter)
    }

    /// The link of an interface, if there is such a router and interface.
    fn check_interface(&self, router: usize, iface: usize) -> Result<u32, LabError>
        ensures fault { result_err result ≡ first_reason (missing_interface_reasons self.now.network router iface) }
        ensures link { IfOk result (λ link. link_at self.now.network router iface ≡ Some link) }
    {
        self.check_router(router)?;
        self.link(router, iface).ok_or(LabError::NoSuchInterface)
    }

    /// Whether there is such a datagram, sent on the link of the interface.
    fn check_delivery(&self, datagram: usize, router: usize, iface: usize) -> Result<(), LabError>
        ensures { (now : ℕ) → result_err result ≡ event_fault self.now (Deliver datagram router iface now) }
    {
        let link = self.check_interface(router, iface)?;
        let Some(datagram) = self.sent().get(datagram) else {
            return Err(LabError::NoSuchDatagram);
        };
        match self.link(datagram.router, datagram.iface) {
            Some(own) if own == link => Ok(()),
            _ => Err(LabError::OtherLink),
        }
    }

    /// Whether an outside host may send the arrival.
    fn check_stranger(&self, router: usize, arrival: &Arrival<'_>) -> Result<(), LabError>
        ensures { result_err result ≡ event_fault self.now (Stranger router arrival.entry.now) }
    {
        self.check_interface(router, arrival.iface)?;
        match self.router(router) {
            Some(router) if is_heard(router, arrival) => Err(LabError::NotAStranger),
            _ => Ok(()),
        }
    }

    /// Whether a datagram is a forged Response: the router would accept it as one from a neighbor.
    ///
    /// # Errors
    /// The first reason that it is not: no such router, no such interface, or a datagram that any outside host may send.
    pub fn check_lie(&self, router: usize, arrival: &Arrival<'_>) -> Result<(), LabError>
        ensures { result_err result ≡ lie_fault self.now router arrival.entry.now }
    {
        self.check_interface(router, arrival.iface)?;
        match self.router(router) {
            Some(router) if is_heard(router, arrival) => Ok(()),
            _ => Err(LabError::NotALiar),
        }
    }

    /// The first reason to refuse an event, before its router is asked.
    fn check(&self, event: &Event<'_>) -> Result<(), LabError>
        ensures { result_err result ≡ event_fault self.now (event_of event.entry.now) }
    {
        match event {
            Event::Deliver {
                datagram,
                router,
                iface,
                ..
            } => self.check_delivery(*datagram, *router, *iface),
            Event::Stranger { router, arrival } => self.check_stranger(*router, arrival),
            Event::LinkDown { router, iface, .. }
            | Event::LinkUp { router, iface, .. }
            | Event::Reconfigure {
                router,
                change: Change::Cost { iface, .. },
                ..
            } => self.check_interface(*router, *iface).map(|_| ()),
            Event::Tick { router, .. }
            | Event::Restart { router, .. }
            | Event::Shutdown { router, .. }
            | Event::Reconfigure { router, .. } => self.check_router(*router),
        }
    }

    /// The router of an event moves. Room for what it sends, and for its change, is made first.
    fn act(&mut self, event: &Event<'_>) -> Result<Answer, LabError>
        requires { IsPlacedIn self.old (event_of event.now) }
        ensures acts { IfOk result (λ answer. Acts self.old (event_of event.entry.now) answer self.new.world) }
        ensures network { self.new.network ≡ self.old.network }
        ensures refused { IfErr result (IsOwnRefusal self.old.world (event_of event.entry.now)) }
        ensures err { OnErr result (self.new ≡ self.old) }
    {
        let router = event.router();
        let source = match event {
            Event::Deliver { datagram, .. } => source_of(&self.stations, &self.sent[*datagram]),
            _ => Addr6::from_bits(0),
        };
        let station = &mut self.stations[router];
        let room = station.room(event, &self.sent);
        self.sent.reserve(room)?;
        self.reconfigurations.reserve(1)?;
        let answer = station.happen(event, &self.sent, source)?;
        file(&mut self.sent, router, answer.sends);
        if let Event::Reconfigure { change, .. } = event {
            self.reconfigurations.push_reserved((router, *change));
        }
        let sends = Listed::from_vec(Vec::new(self.alloc));
        Ok(Answer { sends, ..answer })
    }

    /// An event happens: one router moves, and answers. What it sends goes to the end of `sent`, and is not in the answer.
    ///
    /// # Errors
    /// The first reason to refuse the event, or out of memory; nothing is then changed. Room for a change of configuration is
    /// made before its router is asked.
    pub fn step(&mut self, event: &Event<'_>) -> Result<Answer, LabError>
        ensures happens { IfOk result (λ answer. HappensGiving self.old (event_of event.entry.now) answer self.new.world) }
        ensures network { self.new.network ≡ self.old.network }
        ensures ends { StepEnds self.old (event_of event.entry.now) (result_err result) self.new }
    {
        self.check(event)?;
        self.act(event)
    }

    /// As `step`, and then an observer is notified of the event with its answer.
    ///
    /// # Errors
    /// As `step`, and then nobody is notified; or the observer's, and then the event is done.
    pub fn step_watched<V: Observer<S>>(
        &mut self,
        event: &Event<'_>,
        watch: &mut V,
    ) -> Result<Answer, Stopped<LabError, V::Fault>>
        ensures told { IfOk result (λ answer. V.takes watch.old (record { lab = self.new; event = event_of event.entry.now; answer = answer; first = length self.old.world.sent }) watch.new) }
        ensures stopped { IfErr result (λ why. WatchedInPart V.takes V.fails (failures why) self.old.network (self.old.world, watch.old) (event_of event.entry.now ∷ []) (self.new.world, watch.new)) }
        ensures happens { IfOk result (λ answer. HappensGiving self.old (event_of event.entry.now) answer self.new.world) }
        ensures network { self.new.network ≡ self.old.network }
        ensures ends { StepEnds self.old (event_of event.entry.now) (refusal_in result) self.new }
        ensures untold { IfErr result (λ why. IfRefused why (λ _. watch.new ≡ watch.old)) }
    {
        let first = self.sent().len();
        let answer = self.step(event)?;
        match watch.happened(self, event, &answer, first) {
            Ok(()) => Ok(answer),
            Err(fault) => Err(Stopped::Failed(fault)),
        }
    }

    /// A forged Response comes: the router accepts it as one from a neighbor, but no router of the network has sent it. The router
    /// moves by its own step, and answers. After it nothing is promised of any table.
    ///
    /// # Errors
    /// The reason to refuse it, as `check_lie` has it, or out of memory; nothing is then changed.
    pub fn lie(&mut self, router: usize, arrival: &Arrival<'_>) -> Result<Answer, LabError>
        ensures lies { IfOk result (λ answer. LiesGiving self.old router arrival.entry.now answer self.new.world) }
        ensures network { self.new.network ≡ self.old.network }
        ensures refused { IfErr result (λ why. IsLieRefusal self.old router arrival.entry.now why) }
        ensures err { OnErr result (self.new ≡ self.old) }
    {
        self.check_lie(router, arrival)?;
        let arrival = Arrival { ..*arrival };
        self.act(&Event::Stranger { router, arrival })
    }
}
