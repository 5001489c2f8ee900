//! What a reader of the records knows, and the records that it learns it from: of a start, and of an event what happened, what was sent,
//! which update was due, what a Response offered, and why each offer is adopted or not (RFC 2080, section 2.4.2).

ghost use Rattle.std.specs.Prelude.{◌≡◌, [], ◌∷◌, ◌++◌, None, IfOk, IfSome, OnOk, Some, map, option_map, slice_get, slice_set};
ghost use Rattle.ripng_trace.specs.Common.{Prefix6, event_of, moment_of, sender_at, sender_said, sent_from, sent_said, TellsOffers, is_noted, offer_records, route_after, LeadsTo, known_as, taken_out, timers_in, with_routes, EventIsTold, StartIsTold, knows, TellsRouter, TellsUpdate};
ghost use Rattle.std.specs.FinMap as map_of;

use crate::records::{
    EventRecord, Happened, News, OfferRecord, RouterRecord, StartRecord, Timers, UpdateRecord,
};
use prefix6::{Addr6, Prefix};
use ripng_lab::{Names, Network, Routes, addr_at};
use ripng_world::{Event, Sent};
use route_table::{Moment, Route, RouteStore};
use router_core::{Answer, Note, Offered, Router};
use std::alloc::{AllocError, Global};

/// A router as a reader of the records knows it.
#[derive(Drop)]
pub struct KnownRouter {
    pub table: Routes,
    pub timers: Timers,
}

/// The line that a script is at, and each router as a reader of the records knows it.
#[derive(Drop)]
pub struct Known<'a> {
    pub alloc: Global,
    pub names: Names<'a>,
    /// Whether nothing is said in English of ticks and arrivals that change no forwarding table.
    pub changes_only: bool,
    /// Whether links that come up are those on which a router asks by itself.
    pub asks: bool,
    pub line: usize,
    pub routers: Vec<KnownRouter>,
}

impl<'a> Known<'a> {
    /// A router that has started. It is known from now on.
    fn router_record(
        &mut self,
        lab: &Network,
        number: usize,
        router: &Router<Routes>,
    ) -> Result<RouterRecord, AllocError>
        ensures tells { IfOk result (λ r. slice_get lab.now.world.states number ≡ Some router.now → TellsRouter lab.now number r) }
        ensures known { OnOk result (self.new.routers.items ≡ self.old.routers.items ++ known_as router.now ∷ []) }
        ensures line { self.new.line ≡ self.old.line }
    {
        let mut table = Routes::empty(self.alloc);
        let news = news_of(self.alloc, &mut table, router.routes())?;
        let timers = timers_in(router);
        self.routers.push(KnownRouter { table, timers })?;
        let config = router.config();
        let numbered = config.interfaces().iter().enumerate();
        let linked = numbered.map(|(iface, interface)| (*interface, lab.link(number, iface)));
        let interfaces = linked.collect(self.alloc)?;
        Ok(RouterRecord {
            quiet: config.is_quiet(),
            interfaces,
            prefixes: Vec::from_slice(self.alloc, config.prefixes())?,
            timers,
            routes: news.routes,
        })
    }

    /// The start of the routers. They are known from now on.
    pub fn start_record<'e>(
        &mut self,
        lab: &'e Network,
        now: Moment,
    ) -> Result<StartRecord<'e>, AllocError>
        ensures { IfOk result (λ r. StartIsTold (knows self.old) lab.now now r (knows self.new)) }
    {
        let mut routers = Vec::new(self.alloc);
        while let Some(router) = lab.router(routers.len()) {
            let record = self.router_record(lab, routers.len(), router)?;
            routers.push(record)?;
        }
        Ok(StartRecord {
            line: self.line,
            now: now.ms(),
            routers,
            sent: sent_since(self.alloc, lab, 0)?,
        })
    }

    /// What a reader has to learn of a router. Then the router is known.
    fn news_at(&mut self, lab: &Network, router: usize) -> Result<News, AllocError>
        ensures listed { IfOk result (λ news. IfSome (slice_get self.old.routers.items router) (λ before. IfSome (slice_get lab.now.world.states router) (λ state.
            LeadsTo before.table news.routes.items news.gone.items state.table))) }
        ensures known { OnOk result (IfSome (slice_get lab.now.world.states router) (λ state. self.new.routers.items ≡ slice_set self.old.routers.items router (known_as state))) }
        ensures line { self.new.line ≡ self.old.line }
    {
        match lab.router(router) {
            Some(moved) if router < self.routers.len() => {
                let known = &mut self.routers[router];
                known.timers = timers_in(moved);
                news_of(self.alloc, &mut known.table, moved.routes())
            }
            _ => Ok(News {
                routes: Vec::new(self.alloc),
                gone: Vec::new(self.alloc),
            }),
        }
    }

    /// An event that was done; a forged Response comes as the datagram of an outside host, and may be that of a router, `forger`.
    pub fn event_record<'e, 'b>(
        &mut self,
        lab: &'e Network,
        event: &'e Event<'b>,
        is_forged: bool,
        answer: &'e Answer,
        first: usize,
        forger: Option<usize>,
    ) -> Result<EventRecord<'e, 'b>, AllocError>
    where
        'a: 'e,
        ensures { IfOk result (λ r. EventIsTold is_forged (knows self.old) (record { lab = lab.now; event = event_of event.entry.now; answer = answer.now; first = first }) r (knows self.new)) }
    {
        let router = event.router();
        let offers = offers_of(self.alloc, lab, self.routers.as_slice(), event, answer)?;
        let update = update_of(lab, self.routers.as_slice(), event);
        let news = self.news_at(lab, router)?;
        Ok(EventRecord {
            line: self.line,
            router,
            now: moment_of(event).ms(),
            happened: Happened {
                names: self.names,
                changes_only: self.changes_only,
                asks: self.asks,
                event,
                is_forged,
                forger,
                sender: sender_at(lab, event),
            },
            answer,
            offers,
            update,
            sent: sent_since(self.alloc, lab, first)?,
            timers: lab.router(router).map(|router| timers_in(router)),
            news,
        })
    }
}

fn timers_in<S: RouteStore>(router: &Router<S>) -> Timers
    ensures { result ≡ timers_in router.now }
{
    Timers {
        last: router.last().ms(),
        regular: router.regular().ms(),
        hold: router.hold().ms(),
        due: router.next_due(),
    }
}

fn routes_in(alloc: Global, table: &Routes) -> Result<Vec<(Prefix, Route)>, AllocError>
    ensures { IfOk result (λ routes. routes.items ≡ map_of.entries table.now) }
{
    let mut routes = Vec::with_capacity(alloc, table.len())?;
    table.list(&mut routes);
    Ok(routes)
}

/// Takes out of a known table the prefixes that a table has no route to. Says which, in order. Each prefix is known when it is looked
/// at: the second test only helps the prover.
fn forget_gone(alloc: Global, known: &mut Routes, table: &Routes) -> Result<Vec<Prefix>, AllocError>
    ensures listed { IfOk result (λ gone. known.new ≡ taken_out known.old gone.items) }
    ensures gone { OnOk result ((p : Prefix6) → map_of.get table.now p ≡ None → map_of.get known.new p ≡ None) }
{
    let entries = routes_in(alloc, known)?;
    let mut gone = Vec::new(alloc);
    for entry in &entries {
        let prefix = entry.0;
        if table.get(&prefix).is_none() && known.get(&prefix).is_some() {
            gone.push(prefix)?;
            known.remove(&prefix);
        }
    }
    Ok(gone)
}

/// Puts all routes of a table into a known one. Says which are news, in order.
fn learn_routes(
    alloc: Global,
    known: &mut Routes,
    table: &Routes,
) -> Result<Vec<(Prefix, Route)>, AllocError>
    ensures listed { IfOk result (λ news. known.new ≡ with_routes known.old news.items) }
    ensures all { OnOk result (known.new ≡ with_routes known.old (map_of.entries table.now)) }
{
    let entries = routes_in(alloc, table)?;
    let mut news = Vec::new(alloc);
    for entry in &entries {
        let (prefix, route) = *entry;
        match known.get(&prefix) {
            Some(held) if held == route && held.clock() == route.clock() => continue,
            Some(_) => known.replace(&prefix, route),
            None => known.add(prefix, route).map_err(|_| AllocError)?,
        }
        news.push((prefix, route))?;
    }
    Ok(news)
}

/// What a reader who knows a table has to learn of what it is now. Then the table is known.
fn news_of(alloc: Global, known: &mut Routes, table: &Routes) -> Result<News, AllocError>
    ensures known { OnOk result (known.new ≡ table.now) }
    ensures listed { IfOk result (λ news. LeadsTo known.old news.routes.items news.gone.items table.now) }
{
    let gone = forget_gone(alloc, known, table)?;
    let routes = learn_routes(alloc, known, table)?;
    Ok(News { routes, gone })
}

/// When an event happens: the moment of its router's clock.
pub fn moment_of(event: &Event<'_>) -> Moment
    ensures { result ≡ moment_of (event_of event.entry.now) }
{
    match event {
        Event::Stranger { arrival, .. } => arrival.now,
        Event::Deliver { now, .. }
        | Event::Tick { now, .. }
        | Event::Restart { now, .. }
        | Event::Shutdown { now, .. }
        | Event::LinkDown { now, .. }
        | Event::LinkUp { now, .. }
        | Event::Reconfigure { now, .. } => *now,
    }
}

/// The datagram of a delivery, and the address of the interface that it was sent from, if it was sent.
pub fn sender_at<'e>(lab: &'e Network, event: &Event<'_>) -> Option<(&'e Sent, Option<Addr6>)>
    ensures { option_map sender_said result ≡ sender_at lab.now (event_of event.entry.now) }
{
    let &Event::Deliver { datagram, .. } = event else {
        return None;
    };
    let sent = lab.sent().get(datagram)?;
    Some((sent, addr_at(lab, sent.router, sent.iface)))
}

/// The datagrams that were sent from a number on, in order, each with its own.
pub fn sent_since(
    alloc: Global,
    lab: &Network,
    first: usize,
) -> Result<Vec<(usize, &Sent)>, AllocError>
    ensures { IfOk result (λ records. map sent_said records.items ≡ sent_from first lab.now.world.sent) }
{
    lab.sent().iter().enumerate().skip(first).collect(alloc)
}

/// Which update was due at an event, by the timers of the routers as they were known (RFC 2080, sections 2.3 and 2.5.1): each update
/// moves its own timer.
fn update_of(lab: &Network, known: &[KnownRouter], event: &Event<'_>) -> Option<UpdateRecord>
    ensures { TellsUpdate known.now lab.now (event_of event.entry.now) result }
{
    let &Event::Tick { router, .. } = event else {
        return None;
    };
    let (before, moved) = (known.get(router)?, lab.router(router)?);
    if moved.regular().ms() != before.timers.regular {
        Some(UpdateRecord::Regular)
    } else if moved.hold().ms() != before.timers.hold {
        Some(UpdateRecord::Triggered)
    } else {
        moved
            .routes()
            .walk_changed(None)
            .map(|_| UpdateRecord::Held)
    }
}

/// Whether one of the notes is of the entry at a place.
fn is_noted(notes: &[Note], place: usize) -> bool
    ensures { result ≡ is_noted notes.now place }
{
    notes.iter().any(|note| note.entry == place)
}

/// The route to a prefix after some offers, one after another, except those of noted entries.
fn route_after(known: &Routes, notes: &[Note], offers: &[Offered], prefix: Prefix) -> Option<Route>
    ensures { result ≡ route_after known.now notes.now offers.now prefix }
{
    let mut held = known.get(&prefix);
    for offered in offers {
        if offered.prefix() == prefix && !is_noted(notes, offered.place()) {
            held = offered.adopted(held);
        }
    }
    held
}

/// The offers of a Response in order, each by what the table and those before it left, except those of noted entries.
fn offer_records(
    alloc: Global,
    known: &Routes,
    notes: &[Note],
    offers: &[Offered],
) -> Result<Vec<OfferRecord>, AllocError>
    ensures { IfOk result (λ records. records.items ≡ offer_records known.now notes.now offers.now) }
{
    let mut records = Vec::new(alloc);
    for number in 0..offers.len() {
        let offered = &offers[number];
        if !is_noted(notes, offered.place()) {
            let held = route_after(known, notes, &offers[..number], offered.prefix());
            records.push(OfferRecord {
                entry: offered.place(),
                prefix: offered.prefix(),
                metric: offered.metric(),
                tag: offered.tag(),
                next_hop: offered.next_hop(),
                why: offered.reason_of(held),
            })?;
        }
    }
    Ok(records)
}

/// What an event offered to the router that moved, by the tables of the routers as they were known. Only a delivery offers
/// anything: a datagram of no router brings no Response that is accepted.
fn offers_of(
    alloc: Global,
    lab: &Network,
    known: &[KnownRouter],
    event: &Event<'_>,
    answer: &Answer,
) -> Result<Vec<OfferRecord>, AllocError>
    ensures { IfOk result (λ records. TellsOffers known.now lab.now (event_of event.entry.now) answer.now.notes records.items) }
{
    if let &Event::Deliver {
        datagram,
        router,
        iface,
        now,
    } = event
        && let Some(known) = known.get(router)
        && let Some(moved) = lab.router(router)
        && let Some(sent) = lab.sent().get(datagram)
        && iface < moved.config().interfaces().len()
    {
        let source = addr_at(lab, sent.router, sent.iface).unwrap_or(Addr6::from_bits(0));
        let offers = moved.offers(&sent.arrival(source, iface, now))?;
        let notes = answer.notes.as_slice();
        return offer_records(alloc, &known.table, notes, offers.as_slice());
    }
    Ok(Vec::new(alloc))
}
