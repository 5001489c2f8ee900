//! What a line of many events makes happen: a wave of ticks, and then of deliveries. It is a plan: it says which events come
//! next, where routers are silent, links are cut and datagrams are lost. Outages hold back what `round`, `rounds`, `tell` and `hear`
//! would do, and refuse `phases`. They hold back no event of one datagram or of one router. A lost datagram arrives nowhere.

ghost use Rattle.std.specs.Prelude.{◌≡◌, All, false, true, IfOk, IsFalse, IsTrue, OnErr, OnOk, map};
ghost use Rattle.ripng_lab.specs.Common.{event_of, IsDelivery, brings_lost, AllTakePart, addr_at, interfaces_at, first_of, reaches, ticks_of, with_member};

use crate::context::number;
use crate::{Course, Network, Outcome, Refusal, Stop};
use prefix6::Addr6;
use ripng_world::{Event, LabError, RoundsRefused, Running, Sent};
use route_table::{Moment, RouteStore};
use router_core::Destination;
use std::alloc::{AllocError, Global};

/// What takes no part.
#[derive(Drop)]
pub struct Outages {
    /// Routers that are silent, by number.
    pub silent: Vec<usize>,
    /// Links that nothing crosses, by number.
    pub cut: Vec<usize>,
    /// Those of them that went down, as their routers know.
    pub down: Vec<usize>,
    /// Datagrams that are lost, by number.
    pub lost: Vec<usize>,
}

impl Outages {
    /// Whether all routers and links take part.
    pub fn are_none(&self) -> bool
        ensures none { IsTrue result → AllTakePart self.now }
        ensures some { IsFalse result → AllTakePart self.now → ⊥ }
    {
        self.silent.is_empty() && self.cut.is_empty()
    }

    /// An event brings no datagram that is lost, else `DatagramLost`.
    pub fn check_event(&self, event: &Event<'_>) -> Outcome
        ensures passed { OnOk result (brings_lost self.now.lost.items (event_of event.now) ≡ false) }
        ensures refused { OnErr result (brings_lost self.now.lost.items (event_of event.now) ≡ true) }
    {
        match event {
            Event::Deliver { datagram, .. } if self.lost.contains(datagram) => {
                Err(Stop::Refused(Refusal::DatagramLost))
            }
            _ => Ok(()),
        }
    }
}

/// Adds `member` to the set if `is_in`, or else removes it.
pub fn set_member(members: &mut Vec<usize>, member: usize, is_in: bool) -> Result<(), AllocError>
    ensures { OnOk result (members.new.items ≡ with_member is_in member members.old.items) }
{
    members.retain(|other| *other != member);
    if is_in {
        members.push(member)?;
    }
    Ok(())
}

/// Events in their order, or out of memory.
type Events = Result<Vec<Event<'static>>, AllocError>;

/// Who ticks in a wave.
#[derive(Clone, Copy, Debug, PartialEq, Eq)]
pub enum Ticking {
    /// Nobody: what was sent and not passed by is delivered.
    Nobody,
    /// This router, silent or not, with a random word.
    One { router: usize, word: u32 },
    /// Every router that is not silent, with the word 0.
    All,
    /// As many, each only when its regular update is due: the round of this number, from 0.
    Due { round: usize },
}

/// Routers tick at a moment, and what they sent then comes once to each other interface of its link, at the same moment.
#[derive(Drop)]
pub struct Wave<'a> {
    pub ticking: Ticking,
    pub moment: Moment,
    /// The datagrams that are lost, one space apart, counted from the first that would be delivered.
    pub lost: &'a str,
}

impl<'a> Wave<'a> {
    /// The ticks, in the order of routers.
    pub fn ticks(&self, alloc: Global, routers: usize, outages: &Outages) -> Events
        ensures { IfOk result (λ ticks. map event_of ticks.items ≡ ticks_of self.now outages.now routers) }
    {
        let (now, word) = (self.moment, 0);
        match self.ticking {
            Ticking::Nobody => Ok(Vec::new(alloc)),
            Ticking::One { router, word } => Ok(vec![in alloc; Event::Tick { router, now, word }]?),
            Ticking::All | Ticking::Due { .. } => (0..routers)
                .filter(|router| !outages.silent.contains(router))
                .map(|router| Event::Tick { router, now, word })
                .collect(alloc),
        }
    }

    /// The number of the first datagram that is delivered: the first that was not passed by, or, of a wave with ticks, the
    /// first that they send.
    pub fn first(&self, unheard: usize, sent: usize) -> usize
        ensures { result ≡ first_of self.now unheard sent }
    {
        match self.ticking {
            Ticking::Nobody => unheard,
            Ticking::One { .. } | Ticking::All | Ticking::Due { .. } => sent,
        }
    }

    /// A tick of a round comes only when the regular update of its router is due, at its time or at the last one of the router, else
    /// `NoRegularUpdate`.
    pub fn check(&self, lab: &Network, event: &Event<'_>) -> Outcome {
        if let Ticking::Due { round } = self.ticking
            && let &Event::Tick { router, now, .. } = event
            && let Some(ticking) = lab.router(router)
            && !ticking.regular().reached(now.max(ticking.last()))
        {
            let why = RoundsRefused::NoRegularUpdate { round, router };
            return Err(Stop::Refused(Refusal::Rounds(why)));
        }
        Ok(())
    }

    /// The datagrams that the wave loses are among those that it would deliver, else `NoSuchDatagram`.
    pub fn check_lost(&self, count: usize) -> Outcome {
        let mut lost = self.lost.split(' ');
        if lost.any(|word| number::<usize>(word).is_ok_and(|place| place >= count)) {
            return Err(Stop::from(LabError::NoSuchDatagram));
        }
        Ok(())
    }

    /// The deliveries of a datagram, in the order of routers and interfaces. The first datagram of the wave has the number
    /// `first`.
    pub fn deliveries(&self, course: &Course, first: usize, datagram: usize) -> Events
        ensures { IfOk result (λ events. All (IsDelivery self.now.moment) (map event_of events.items)) }
    {
        let (lab, outages) = (course.site.running(), &course.outages);
        let (now, place) = (self.moment, datagram.saturating_sub(first));
        let mut lost = self.lost.split(' ');
        let gone = outages.lost.contains(&datagram) || lost.any(|word| number(word) == Ok(place));
        let Some(sent) = lab.sent().get(datagram).filter(|_| !gone) else {
            return Ok(Vec::new(course.alloc));
        };
        let (mut events, receivers) = (Vec::new(course.alloc), lab.receivers(sent)?);
        for &(router, iface) in &receivers {
            if reaches(lab, outages, sent, router, iface) {
                events.push(Event::Deliver {
                    datagram,
                    router,
                    iface,
                    now,
                })?;
            }
        }
        Ok(events)
    }
}

/// Whether a datagram reaches an interface: another one of its link, where neither router is silent and the link is not cut. One to an
/// asker reaches that of its address alone.
fn reaches(lab: &Network, outages: &Outages, sent: &Sent, router: usize, iface: usize) -> bool
    ensures { result ≡ reaches outages.now lab.now sent.now router iface }
{
    let links = (lab.link(sent.router, sent.iface), lab.link(router, iface));
    let (Some(own), Some(link)) = links else {
        return false;
    };
    let is_other = own == link && !(router == sent.router && iface == sent.iface);
    let is_silent = outages.silent.contains(&sent.router) || outages.silent.contains(&router);
    if !is_other || is_silent || outages.cut.contains(&(own as usize)) {
        return false;
    }
    match sent.to {
        Destination::Group => true,
        Destination::Peer { addr, .. } => addr_at(lab, router, iface) == Some(addr),
    }
}

/// The address of an interface, if the network has it.
pub fn addr_at<S: RouteStore>(lab: &Running<S>, router: usize, iface: usize) -> Option<Addr6>
    ensures { result ≡ addr_at lab.now router iface }
{
    let interface = lab.router(router)?.config().interfaces().get(iface)?;
    Some(interface.addr)
}

/// How many interfaces a router of the network has.
pub fn count_interfaces(lab: &Network, router: usize) -> usize
    ensures { result ≡ interfaces_at lab.now router }
{
    match lab.router(router) {
        Some(at) => at.config().interfaces().len(),
        None => 0,
    }
}
