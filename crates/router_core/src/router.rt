//! A router over any store of routes, and its main steps: start, arrival and tick (RFC 2080, sections 2.3 to 2.5).

ghost use Rattle.std.specs.Prelude.{◌≡◌, ◌<◌, ◌≤◌, ◌*◌, ◌↔◌, max, [], IsTrue, None, Some, IsSome, IsOk, IfOk, OnErr, length};
ghost use Rattle.router_core.specs.Common.{Replays, Spells, Request, Response, infinity, forwards, changes_of_ageing, changes_of_start, cost_at, fault, Happening, Hears, Moves, Replies, Starts, gateway_of, owned_table, tick_messages, AreSpelled, start_messages, update_due, update_of, regular_after, hold_after, entries_in, codes, coded_table, State};
ghost use Rattle.std.specs.FinMap as map_of;

mod changing;
mod links;
mod offering;
mod poisoning;
mod waking;

use crate::adopt::Gateway;
use crate::answer::{Answer, Note, Outgoing, answer_of};
use crate::arrival::{Arrival, Fault};
use crate::config::RouterConfig;
use crate::faults::{accept, fault_of};
use crate::hear::hear;
use crate::listed::{Listed, taken};
use crate::listing::has_told;
use crate::reply::reply;
use crate::start::{changes_of_start, owned_routes, requests};
use crate::tell::{Selection, updates};
use crate::ticking::{changes_of_ageing, settle_all};
use crate::timers::{HOLD_LEAST_MS, HOLD_SPREAD_MS, REGULAR_LEAST_MS, REGULAR_SPREAD_MS};
use fib::RouteChange;
use ripng_wire::{Command, Datagram};
use route_table::{Deadline, Moment, RouteStore};
use std::alloc::{AllocError, Global};
use std::marker::Model;

/// A router over a store of routes. It changes only by its steps, and each step is one call.
#[derive(Drop)]
pub struct Router<S: RouteStore> {
    config: RouterConfig,
    store: S,
    last: Moment,
    regular: Deadline,
    hold: Deadline,
    /// Room for the notes and changes of the next Response, which mostly has none. It is not part of the value.
    notes: Vec<Note>,
    changes: Vec<RouteChange>,
    alloc: Global,
}

impl<S: RouteStore> Model for Router<S> {
    ghost Value = { State };

    ghost coded = { Prim.hlevel (codes, coded_table) };

    ghost view = { λ r. record {
      config = r.config;
      table = S.table r.store;
      last = r.last;
      regular = r.regular;
      hold = r.hold;
    } };
}

/// The cost of an interface in hops, below 16.
fn cost_at(config: &RouterConfig, iface: usize) -> u8
    requires { iface < length config.now.interfaces }
    ensures value { result ≡ cost_at config.now iface }
    ensures usable { result < infinity }
{
    config.interfaces()[iface].cost
}

/// The routes of a router that starts, and its answer.
fn come_up<S: RouteStore>(alloc: Global, config: &RouterConfig) -> Result<(S, Answer), AllocError>
    ensures owned { IfOk result (λ r. S.table r.0 ≡ owned_table config.now) }
    ensures fault { IfOk result (λ r. r.1.fault ≡ None) }
    ensures sends { IfOk result (λ r. AreSpelled (start_messages config.now) r.1.sends) }
    ensures few { IfOk result (λ r. length r.1.sends ≤ length config.now.interfaces) }
    ensures changes { IfOk result (λ r. r.1.changes ≡ changes_of_start (owned_table config.now)) }
    ensures notes { IfOk result (λ r. r.1.notes ≡ []) }
{
    let sends = requests(alloc, config)?;
    let store = owned_routes(alloc, config)?;
    let changes = changes_of_start(alloc, &store)?;
    Ok((store, answer_of(sends, changes, Vec::new(alloc))))
}

impl<S: RouteStore> Router<S> {
    /// A router starts: its table has its own prefixes alone, its first regular update is due at once, and no delay holds a
    /// triggered one. Unless it is passive, it asks its neighbors for their tables (RFC 2080, section 2.4.1).
    ///
    /// # Errors
    /// Only out of memory.
    pub fn start(
        alloc: Global,
        config: RouterConfig,
        now: Moment,
    ) -> Result<(Router<S>, Answer), AllocError>
        ensures starts { IfOk result (λ r. Starts config now r.1 r.0) }
        ensures few { IfOk result (λ r. length r.1.sends ≤ length config.interfaces) }
        ensures replays { IfOk result (λ r. Replays map_of.empty r.1.changes (forwards r.0.table)) }
    {
        let (store, answer) = come_up(alloc, &config)?;
        let router = Router {
            config,
            store,
            last: now,
            regular: now.later(0),
            hold: now.later(0),
            notes: Vec::new(alloc),
            changes: Vec::new(alloc),
            alloc,
        };
        Ok((router, answer))
    }

    /// The router starts again with its present configuration: what it has learned is gone, and time may go back.
    ///
    /// # Errors
    /// Only out of memory. The router is then unchanged.
    pub fn restart(&mut self, now: Moment) -> Result<Answer, AllocError>
        ensures moves { IfOk result (λ answer. Moves self.old (Happening.Restarts now) answer self.new) }
        ensures err { OnErr result (self.new ≡ self.old) }
        ensures config { self.new.config ≡ self.old.config }
        ensures few { IfOk result (λ answer. length answer.sends ≤ length self.old.config.interfaces) }
        ensures replays { IfOk result (λ answer. Replays map_of.empty answer.changes (forwards self.new.table)) }
    {
        let (store, answer) = come_up(self.alloc, &self.config)?;
        self.store = store;
        self.last = now;
        self.regular = now.later(0);
        self.hold = now.later(0);
        Ok(answer)
    }

    /// The table of routes.
    pub fn routes(&self) -> &S
        ensures { S.table result.now ≡ self.now.table }
    {
        &self.store
    }

    /// The present configuration.
    pub fn config(&self) -> &RouterConfig
        ensures { result.now ≡ self.now.config }
    {
        &self.config
    }

    /// The moment of the last step.
    pub fn last(&self) -> Moment
        ensures { result ≡ self.now.last }
    {
        self.last
    }

    /// When the next regular update is due (RFC 2080, section 2.3).
    pub fn regular(&self) -> Deadline
        ensures { result ≡ self.now.regular }
    {
        self.regular
    }

    /// Until when triggered updates are delayed (RFC 2080, section 2.5.1).
    pub fn hold(&self) -> Deadline
        ensures { result ≡ self.now.hold }
    {
        self.hold
    }

    /// The fault that [`Router::arrive`] would answer with.
    pub fn fault_of(&self, arrival: &Arrival<'_>) -> Option<Fault>
        ensures { result ≡ fault self.now.config arrival.entry.now }
    {
        fault_of(&self.config, arrival)
    }

    /// The moment of a step. Time does not go back: an earlier moment counts as that of the last step.
    fn effective(&self, now: Moment) -> Moment
        ensures { result ≡ max self.now.last now }
    {
        self.last.max(now)
    }

    /// The update that is due, if one is.
    fn update_due(&self, now: Moment) -> Option<Selection>
        ensures { result ≡ update_due self.now now }
    {
        // Every 30 seconds or so all routes are sent (RFC 2080, section 2.3). A triggered update waits for its delay, and is
        // not sent when a regular one is due, since that has the changed routes too (section 2.5.1).
        if self.regular.reached(now) {
            Some(Selection::Every)
        } else if self.hold.reached(now) && has_told(&self.store, Selection::Changed, now) {
            Some(Selection::Changed)
        } else {
            None
        }
    }

    /// The datagrams of an update.
    fn update(&self, due: Option<Selection>, now: Moment) -> Result<Vec<Outgoing>, AllocError>
        ensures spelled { IfOk result (λ sends. AreSpelled (update_of self.now now due) sends.items) }
        ensures few { IfOk result (λ sends. length sends.items ≤ map_of.len self.now.table * length self.now.config.interfaces) }
        ensures silent_is_free { update_of self.now now due ≡ [] → IsOk result }
    {
        let Some(which) = due else {
            return Ok(Vec::new(self.alloc));
        };
        updates(self.alloc, &self.config, &self.store, which, now)
    }

    /// When the next regular update is due, after an update.
    fn next_regular(&self, due: Option<Selection>, now: Moment, word: u32) -> Deadline
        ensures { result ≡ regular_after self.now now word due }
    {
        match due {
            Some(Selection::Every) => now.later(REGULAR_LEAST_MS + word % REGULAR_SPREAD_MS),
            _ => self.regular,
        }
    }

    /// Until when triggered updates are delayed, after an update.
    fn next_hold(&self, due: Option<Selection>, now: Moment, word: u32) -> Deadline
        ensures { result ≡ hold_after self.now now word due }
    {
        match due {
            Some(Selection::Changed) => now.later(HOLD_LEAST_MS + word % HOLD_SPREAD_MS),
            _ => self.hold,
        }
    }

    /// Time passes: routes time out or are deleted, and the update that is due, if one is, is sent. A random number sets the next
    /// regular update, 15 to 45 seconds later, or the delay of triggered ones, 1 to 5 seconds.
    ///
    /// # Errors
    /// Only out of memory. The router is then unchanged. No memory is taken where no route times out and nothing is sent.
    pub fn tick(&mut self, now: Moment, word: u32) -> Result<Answer, AllocError>
        ensures moves { IfOk result (λ answer. Moves self.old (Happening.Ticks now word) answer self.new) }
        ensures err { OnErr result (self.new ≡ self.old) }
        ensures config { self.new.config ≡ self.old.config }
        ensures few { IfOk result (λ answer. length answer.sends ≤ map_of.len self.old.table * length self.old.config.interfaces) }
        ensures replays { IfOk result (λ answer. Replays (forwards self.old.table) answer.changes (forwards self.new.table)) }
        ensures idle_is_free { tick_messages self.old (max self.old.last now) ≡ []
            → changes_of_ageing (max self.old.last now) self.old.table ≡ [] → IsOk result }
    {
        let now = self.effective(now);
        let due = self.update_due(now);
        let sends = self.update(due, now)?;
        let changes = changes_of_ageing(self.alloc, &self.store, now)?;
        let regular = self.next_regular(due, now, word);
        let hold = self.next_hold(due, now, word);
        settle_all(&mut self.store, now, due.is_some());
        self.last = now;
        self.regular = regular;
        self.hold = hold;
        Ok(answer_of(sends, changes, Vec::new(self.alloc)))
    }

    /// The sender of an arrival, as the gateway of the routes that it offers.
    fn gateway(&self, arrival: &Arrival<'_>, now: Moment) -> Gateway
        requires { arrival.now.iface < length self.now.config.interfaces }
        ensures { result ≡ gateway_of self.now now arrival.entry.now }
    {
        Gateway {
            iface: arrival.iface,
            cost: cost_at(&self.config, arrival.iface),
            from: arrival.source,
            moment: now,
        }
    }

    /// Processes a Response. Room for a note and a change of each entry comes first, so that a failed allocation changes nothing.
    fn hear(
        &mut self,
        arrival: &Arrival<'_>,
        response: &Datagram<'_>,
        now: Moment,
    ) -> Result<Answer, AllocError>
        requires { arrival.now.iface < length self.old.config.interfaces }
        ensures hears { IfOk result (λ answer. Spells Response response.now.entries arrival.entry.now.bytes → Hears self.old now arrival.entry.now answer self.new) }
        ensures replays { IfOk result (λ answer. Replays (forwards self.old.table) answer.changes (forwards self.new.table)) }
        ensures sends { IfOk result (λ answer. answer.sends ≡ []) }
        ensures err { OnErr result (self.new ≡ self.old) }
        ensures empty_is_free { response.now.entries ≡ [] → IsOk result }
    {
        let gateway = self.gateway(arrival, now);
        let entries = response.entries();
        self.notes.clear();
        self.changes.clear();
        self.notes.reserve(entries.len())?;
        self.changes.reserve(entries.len())?;
        hear(
            &mut self.store,
            &gateway,
            &self.config,
            entries,
            &mut self.notes,
            &mut self.changes,
        );
        self.last = now;
        let notes = taken(self.alloc, &mut self.notes);
        let changes = taken(self.alloc, &mut self.changes);
        Ok(answer_of(Vec::new(self.alloc), changes, notes))
    }

    /// A datagram comes to one of the router's interfaces. If there is a reason to refuse it, the answer is the fault and no route
    /// changes. Otherwise a Response is processed, and a Request gets its reply.
    ///
    /// # Errors
    /// Only out of memory. The router is then unchanged. No memory is taken at a fault, or for a Response without entries.
    pub fn arrive(&mut self, arrival: Arrival<'_>) -> Result<Answer, AllocError>
        requires { arrival.iface < length self.old.config.interfaces }
        ensures moves { IfOk result (λ answer. Moves self.old (Happening.Arrives arrival.entry) answer self.new) }
        ensures err { OnErr result (self.new ≡ self.old) }
        ensures config { self.new.config ≡ self.old.config }
        ensures few { IfOk result (λ answer. length answer.sends ≤ max (map_of.len self.old.table) (entries_in arrival.entry.bytes)) }
        ensures replays { IfOk result (λ answer. Replays (forwards self.old.table) answer.changes (forwards self.new.table)) }
        ensures fault { IfOk result (λ answer. answer.fault ≡ fault self.old.config arrival.entry) }
        ensures fault_leaves_all { IsSome (fault self.old.config arrival.entry) → self.new ≡ record self.old { last = max self.old.last arrival.entry.now } }
        ensures fault_sends_nothing { IfOk result (λ answer. IsSome answer.fault → answer.sends ≡ []) }
        ensures fault_is_free { IsSome (fault self.old.config arrival.entry) → IsOk result }
        ensures empty_is_free { Spells Response [] arrival.entry.bytes → IsOk result }
    {
        let now = self.effective(arrival.now);
        let datagram = match accept(&self.config, &arrival) {
            Ok(datagram) => datagram,
            Err(fault) => return Ok(self.refuse(now, fault)),
        };
        match datagram.command() {
            Command::Response => self.hear(&arrival, &datagram, now),
            Command::Request => self.reply(&arrival, &datagram, now),
        }
    }

    /// The answer to a refused arrival is its fault alone.
    fn refuse(&mut self, now: Moment, fault: Fault) -> Answer
        ensures answer { result ≡ record { fault = Some fault; sends = []; changes = []; notes = [] } }
        ensures state { self.new ≡ record self.old { last = now } }
    {
        self.last = now;
        Answer {
            fault: Some(fault),
            sends: Listed::from_vec(Vec::new(self.alloc)),
            changes: Listed::from_vec(Vec::new(self.alloc)),
            notes: Listed::from_vec(Vec::new(self.alloc)),
        }
    }

    /// Replies to a Request.
    fn reply(
        &mut self,
        arrival: &Arrival<'_>,
        request: &Datagram<'_>,
        now: Moment,
    ) -> Result<Answer, AllocError>
        ensures replies { IfOk result (λ answer. Spells Request request.now.entries arrival.entry.now.bytes → Replies self.old now arrival.entry.now answer self.new) }
        ensures few { IfOk result (λ answer. length answer.sends ≤ max (map_of.len self.old.table) (length request.now.entries)) }
        ensures err { OnErr result (self.new ≡ self.old) }
    {
        let sends = reply(self.alloc, &self.store, &self.config, arrival, request)?;
        self.last = now;
        Ok(answer_of(sends, Vec::new(self.alloc), Vec::new(self.alloc)))
    }
}
