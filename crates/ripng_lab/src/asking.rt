//! Routers that ask by themselves, as daemons do: one that has lost a route asks its neighbors for their tables (RFC 2080, section 2.4.1),
//! since these would tell it of another way only by their next regular updates. It is looked at after each line of a script.

ghost use Rattle.std.specs.Prelude.{◌≡◌, ◌⊎◌, ◌≤◌, ◌+◌, [], All, IfOk, IfSome, None, OnOk, Some, map, true};
ghost use Rattle.ripng_lab.specs.Common.{AskAfter, HasDone, HasTold, IsQuestion, Minds, event_of, first_lost, is_on, reached_in, reaches_prefix, requests_of, value_of};

use crate::pace::{Loss, Pace, Question};
use crate::plan::{Ticking, Wave, count_interfaces};
use crate::{Course, Network, Notice, Outcome, Routes, Watch};
use prefix6::Prefix;
use ripng_world::Event;
use route_table::{INFINITY, Moment, Origin, RouteStore};
use router_core::Router;
use std::alloc::{AllocError, Global};

/// What a script keeps of a router that asks by itself.
#[derive(Drop)]
pub struct Asker {
    pace: Pace,
    /// The prefixes of learned routes that were reachable when the router was looked at last.
    reached: Vec<Prefix>,
}

impl Asker {
    /// A router of which nothing is known.
    pub fn new(alloc: Global) -> Asker
        ensures pace { result.pace.loss ≡ None }
        ensures reached { result.reached.items ≡ [] }
    {
        Asker {
            pace: Pace::new(),
            reached: Vec::new(alloc),
        }
    }

    /// A router as it is, so that what it loses from now on is seen.
    fn of(alloc: Global, router: &Router<Routes>) -> Result<Asker, AllocError>
        ensures pace { IfOk result (λ asker. asker.pace.loss ≡ None) }
        ensures reached { IfOk result (λ asker. asker.reached.items ≡ reached_in router.now.table) }
    {
        Ok(Asker {
            pace: Pace::new(),
            reached: reached_in(alloc, router.routes())?,
        })
    }

    /// Looks at the router, and minds what it has lost since it was looked at last: the first such prefix.
    ///
    /// # Errors
    /// Out of memory.
    fn mind(&mut self, alloc: Global, router: &Router<Routes>) -> Result<(), AllocError>
        ensures reached { OnOk result (self.new.reached.items ≡ reached_in router.now.table) }
        ensures minds { OnOk result (Minds (first_lost self.old.reached.items router.now.table) router.now.last self.old.pace self.new.pace) }
    {
        let table = router.routes();
        if let Some(prefix) = first_lost(&self.reached, table) {
            let at = router.last();
            self.pace.lose(Loss { prefix, at });
        }
        self.reached = reached_in(alloc, table)?;
        Ok(())
    }

    /// Looks at the router, and answers what it asks now, if it asks. A quiet router never does.
    ///
    /// # Errors
    /// Out of memory.
    fn look(
        &mut self,
        alloc: Global,
        router: &Router<Routes>,
    ) -> Result<Option<Question>, AllocError>
        ensures quiet { router.now.config.quiet ≡ true → IfOk result (λ asks. asks ≡ None) }
        ensures late { IfOk result (λ asks. IfSome asks (λ q. (q.now ≡ router.now.last) × (q.loss.at + 500 ≤ q.now))) }
        ensures lost { IfOk result (λ asks. IfSome asks (λ q. (self.old.pace.loss ≡ Some q.loss) ⊎ (first_lost self.old.reached.items router.now.table ≡ Some q.loss.prefix))) }
    {
        self.mind(alloc, router)?;
        if router.config().is_quiet() {
            return Ok(None);
        }
        Ok(self.pace.question(router.last()))
    }
}

/// Whether a table has a route to a prefix that is not unreachable.
fn reaches_prefix(table: &Routes, prefix: &Prefix) -> bool
    ensures { result ≡ reaches_prefix table.now prefix.now }
{
    match table.get(prefix) {
        Some(route) => route.metric() < INFINITY,
        None => false,
    }
}

/// The first of some prefixes that a table does not reach.
fn first_lost(before: &[Prefix], table: &Routes) -> Option<Prefix>
    ensures { result ≡ first_lost before.now table.now }
{
    before
        .iter()
        .find(|&prefix| !reaches_prefix(table, prefix))
        .copied()
}

/// The prefixes of learned routes that are reachable, in order.
fn reached_in(alloc: Global, table: &Routes) -> Result<Vec<Prefix>, AllocError>
    ensures { IfOk result (λ reached. reached.items ≡ reached_in table.now) }
{
    let mut routes = Vec::with_capacity(alloc, table.len())?;
    table.list(&mut routes);
    routes
        .iter()
        .filter(|(_, route)| route.origin() != Origin::Own && route.metric() < INFINITY)
        .map(|(prefix, _)| *prefix)
        .collect(alloc)
}

/// Whether the link of an interface is one of these.
fn is_on(lab: &Network, links: &[usize], router: usize, iface: usize) -> bool
    ensures { result ≡ is_on links.now lab.now.network router iface }
{
    match lab.link(router, iface) {
        Some(link) => links.contains(&(link as usize)),
        None => false,
    }
}

/// The router of that number as it is, if it is there; nothing is lost yet.
fn asker_at(alloc: Global, lab: &Network, number: usize) -> Result<Asker, AllocError>
    ensures { IfOk result (λ asker. asker.pace.loss ≡ None) }
{
    match lab.router(number) {
        Some(router) => Asker::of(alloc, router),
        None => Ok(Asker::new(alloc)),
    }
}

/// Each router of a network as it is, so that what it loses from then on is seen.
///
/// # Errors
/// Out of memory.
pub fn askers_of(alloc: Global, lab: &Network) -> Result<Vec<Asker>, AllocError>
    ensures { IfOk result (λ askers. All (λ asker. asker.pace.loss ≡ None) askers.items) }
{
    let mut askers = Vec::new(alloc);
    for number in 0..lab.routers() {
        askers.push(asker_at(alloc, lab, number)?)?;
    }
    Ok(askers)
}

impl Course {
    /// Each router that has lost a route asks its neighbors, if it is time, and the observer is notified why.
    pub fn ask_all<V: Watch>(&mut self, askers: &mut [Asker], watch: &mut V) -> Outcome
        ensures done { OnOk result (HasDone (AskAfter true) V.starts V.takes V.notes (Some (value_of self.old.site), watch.old) (Some (value_of self.new.site), watch.new)) }
        ensures told { HasTold result V.starts V.takes V.fails V.notes (Some (value_of self.old.site), watch.old) (Some (value_of self.new.site), watch.new) }
    {
        for number in 0..askers.len() {
            let question = self.look_at(&mut askers[number], number)?;
            self.ask_about(number, question, watch)?;
        }
        Ok(())
    }

    /// What the router of that number asks now, if it asks.
    fn look_at(&self, asker: &mut Asker, number: usize) -> Result<Option<Question>, AllocError> {
        match self.site.running().router(number) {
            Some(router) => asker.look(self.alloc, router),
            None => Ok(None),
        }
    }

    /// A router asks, if it has something to ask.
    fn ask_about<V: Watch>(
        &mut self,
        router: usize,
        question: Option<Question>,
        watch: &mut V,
    ) -> Outcome
        ensures done { OnOk result (HasDone (AskAfter true) V.starts V.takes V.notes (Some (value_of self.old.site), watch.old) (Some (value_of self.new.site), watch.new)) }
        ensures told { HasTold result V.starts V.takes V.fails V.notes (Some (value_of self.old.site), watch.old) (Some (value_of self.new.site), watch.new) }
    {
        match question {
            Some(question) => self.ask(router, question, watch),
            None => Ok(()),
        }
    }

    /// A router asks its neighbors for whole tables, on each of its links that is not down.
    fn ask<V: Watch>(&mut self, router: usize, question: Question, watch: &mut V) -> Outcome
        ensures done { OnOk result (HasDone (IsQuestion router) V.starts V.takes V.notes (Some (value_of self.old.site), watch.old) (Some (value_of self.new.site), watch.new)) }
        ensures told { HasTold result V.starts V.takes V.fails V.notes (Some (value_of self.old.site), watch.old) (Some (value_of self.new.site), watch.new) }
    {
        let Question { now, loss } = question;
        let requests = self.requests(router, now)?;
        self.tell(Notice::Asks { router, now, loss }, watch)?;
        let wave = Wave {
            ticking: Ticking::Nobody,
            moment: now,
            lost: "",
        };
        self.play(&wave, None, &requests, watch)
    }

    /// The Requests of a router: at each of its interfaces, in order, whose link is not down.
    fn requests(&self, router: usize, now: Moment) -> Result<Vec<Event<'static>>, AllocError>
        ensures { IfOk result (λ events. map event_of events.items ≡ requests_of (value_of self.now.site) self.now.outages.down.items router now) }
    {
        let lab = self.site.running();
        let down = &self.outages.down;
        (0..count_interfaces(lab, router))
            .filter(|&iface| !is_on(lab, down, router, iface))
            .map(|iface| Event::LinkUp { router, now, iface })
            .collect(self.alloc)
    }
}
