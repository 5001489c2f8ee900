//! A Response is processed: its entries in order, each against the routes that the entries before it left (RFC 2080,
//! section 2.4.2). A bad entry is skipped and noted, and the next one is processed.

ghost use Rattle.std.specs.Prelude.{◌≡◌, ◌+◌, ◌<◌, ◌≤◌, ◌↔◌, [], if◌then◌else◌, IsTrue, IsSome, None, false, unwrap_or, IfOk, IfErr, IfSome, OnOk, OnErr, length};
ghost use Rattle.router_core.specs.Common.{vec_capacity, table_limit, changes_of_hearing, Heard, hearing, meeting, entry_meeting, table_met, change_met, adds, brings, refusal_of_new, flaw, limit_at, limit_refusal, refusal};
ghost use Rattle.std.specs.FinMap as map_of;

use crate::adopt::{Gateway, Offer};
use crate::answer::{Note, NoteKind};
use crate::config::RouterConfig;
use crate::entries::{judge, usable_hop};
use crate::forwarding::{change, change_to, forward};
use crate::quota::Quota;
use fib::RouteChange;
use prefix6::{Addr6, Prefix};
use ripng_wire::{NEXT_HOP_METRIC, Rte, Rtes};
use route_table::{AddRefused, INFINITY, Route, RouteStore};

/// Adds a route to a prefix that has none.
///
/// # Errors
/// `TableFull` or `NoMemory`. The store is then unchanged.
fn add<S: RouteStore>(store: &mut S, prefix: Prefix, route: Route) -> Result<(), NoteKind>
    requires absent { map_of.get (S.table store.old) prefix ≡ None }
    ensures placed { OnOk result (S.table store.new ≡ map_of.insert (S.table store.old) prefix route) }
    ensures kept { OnErr result (S.table store.new ≡ S.table store.old) }
    ensures refusal { IfErr result (λ kind. kind ≡ refusal_of_new (S.table store.old)) }
    ensures room { OnOk result (map_of.len (S.table store.old) < table_limit) }
{
    match store.add(prefix, route) {
        Ok(()) => Ok(()),
        // RFC 2080 sets no limit on a table. A route without room is skipped like a bad entry, and later updates offer it again.
        Err(AddRefused::Full) => Err(NoteKind::TableFull),
        Err(AddRefused::NoMemory) => Err(NoteKind::NoMemory),
    }
}

/// Replaces the route to a prefix, or adds the first one.
///
/// # Errors
/// `TableFull` or `NoMemory`, and only for a first route. The store is then unchanged.
pub fn put<S: RouteStore>(
    store: &mut S,
    prefix: Prefix,
    is_held: bool,
    route: Route,
) -> Result<(), NoteKind>
    requires held { IsTrue is_held ↔ IsSome (map_of.get (S.table store.old) prefix) }
    ensures placed { OnOk result (S.table store.new ≡ map_of.insert (S.table store.old) prefix route) }
    ensures kept { OnErr result (S.table store.new ≡ S.table store.old) }
    ensures new { OnErr result (is_held ≡ false) }
    ensures refusal { IfErr result (λ kind. kind ≡ refusal_of_new (S.table store.old)) }
    ensures room { OnOk result (is_held ≡ false → map_of.len (S.table store.old) < table_limit) }
{
    if is_held {
        store.replace(&prefix, route);
        return Ok(());
    }
    add(store, prefix, route)
}

/// An offer is for a prefix without a route: the change of the forwarding entry, or why the route cannot be added.
fn meet_first<S: RouteStore>(
    store: &mut S,
    gateway: &Gateway,
    prefix: Prefix,
    offer: &Offer,
) -> Result<Option<RouteChange>, NoteKind>
    requires absent { map_of.get (S.table store.old) prefix ≡ None }
    ensures table { OnOk result (S.table store.new ≡ table_met (meeting gateway.now offer.now prefix (S.table store.old))) }
    ensures change { IfOk result (λ c. c ≡ change_met (meeting gateway.now offer.now prefix (S.table store.old))) }
    ensures room { OnOk result (IsTrue (adds (meeting gateway.now offer.now prefix (S.table store.old)))
        → map_of.len (S.table store.old) < table_limit) }
    ensures kept { OnErr result (S.table store.new ≡ S.table store.old) }
    ensures new { OnErr result (IsTrue (adds (meeting gateway.now offer.now prefix (S.table store.old)))) }
    ensures refusal { IfErr result (λ kind. kind ≡ refusal_of_new (S.table store.old)) }
{
    // There is no point in adding a route that cannot be used (RFC 2080, section 2.4.2).
    let Some(first) = gateway.adopt_first(offer) else {
        return Ok(None);
    };
    add(store, prefix, first)?;
    Ok(change(prefix, None, Some(first)))
}

/// One offer is processed: the change of the forwarding entry, or why its first route to a prefix cannot be added. Where the store has
/// a route to the prefix, it is searched once, and once more where the entry changes.
fn meet<S: RouteStore>(
    store: &mut S,
    gateway: &Gateway,
    prefix: Prefix,
    offer: &Offer,
) -> Result<Option<RouteChange>, NoteKind>
    ensures table { OnOk result (S.table store.new ≡ table_met (meeting gateway.now offer.now prefix (S.table store.old))) }
    ensures change { IfOk result (λ c. c ≡ change_met (meeting gateway.now offer.now prefix (S.table store.old))) }
    ensures room { OnOk result (IsTrue (adds (meeting gateway.now offer.now prefix (S.table store.old)))
        → map_of.len (S.table store.old) < table_limit) }
    ensures kept { OnErr result (S.table store.new ≡ S.table store.old) }
    ensures new { OnErr result (IsTrue (adds (meeting gateway.now offer.now prefix (S.table store.old)))) }
    ensures refusal { IfErr result (λ kind. kind ≡ refusal_of_new (S.table store.old)) }
{
    match store.update(&prefix, |route: &mut Route| gateway.adopt(offer, route)) {
        // A route that goes the same way at the same metric changes no entry.
        Some(true) => Ok(None),
        Some(false) => Ok(Some(change_to(prefix, forward(store.get(&prefix))))),
        None => meet_first(store, gateway, prefix, offer),
    }
}

/// One offer that the filters let pass is processed within the quota of its interface: the change of the forwarding entry, or why the
/// offer is skipped.
fn meet_within<S: RouteStore>(
    store: &mut S,
    gateway: &Gateway,
    quota: &mut Quota,
    prefix: Prefix,
    offer: &Offer,
) -> Result<Option<RouteChange>, NoteKind>
    ensures within { OnOk result (limit_refusal (meeting gateway.now offer.now prefix (S.table store.old)) quota.old.limit quota.old.held ≡ None) }
    ensures table { OnOk result (S.table store.new ≡ table_met (meeting gateway.now offer.now prefix (S.table store.old))) }
    ensures change { IfOk result (λ c. c ≡ change_met (meeting gateway.now offer.now prefix (S.table store.old))) }
    ensures room { OnOk result (IsTrue (adds (meeting gateway.now offer.now prefix (S.table store.old)))
        → map_of.len (S.table store.old) < table_limit) }
    ensures kept { OnErr result (S.table store.new ≡ S.table store.old) }
    ensures refusal { IfErr result (λ kind. kind ≡ unwrap_or (limit_refusal (meeting gateway.now offer.now prefix (S.table store.old)) quota.old.limit quota.old.held)
        (refusal_of_new (S.table store.old))) }
    ensures new { OnErr result (limit_refusal (meeting gateway.now offer.now prefix (S.table store.old)) quota.old.limit quota.old.held ≡ None
        → IsTrue (adds (meeting gateway.now offer.now prefix (S.table store.old)))) }
    ensures limit { quota.new.limit ≡ quota.old.limit }
    ensures counted { OnOk result (IfSome quota.old.limit (λ n.
        quota.new.held ≡ quota.old.held + (if brings (meeting gateway.now offer.now prefix (S.table store.old)) then 1 else 0))) }
    ensures uncounted { OnErr result (quota.new ≡ quota.old) }
{
    let is_more = quota.admit(store, gateway, prefix, offer)?;
    let change = meet(store, gateway, prefix, offer)?;
    if is_more {
        quota.count();
    }
    Ok(change)
}

/// One route entry is processed: the change of the forwarding entry, or why the entry is skipped.
fn hear_entry<S: RouteStore>(
    store: &mut S,
    gateway: &Gateway,
    config: &RouterConfig,
    quota: &mut Quota,
    entry: &Rte,
    next_hop: Addr6,
    place: usize,
) -> Result<Option<RouteChange>, NoteKind>
    requires { quota.old.limit ≡ limit_at config.now gateway.now.iface }
    ensures sound { OnOk result (flaw entry.now ≡ None) }
    ensures taken { OnOk result (refusal config.now gateway.now.iface entry.now
        (brings (entry_meeting gateway.now entry.now next_hop place (S.table store.old))) quota.old.held ≡ None) }
    ensures table { OnOk result (S.table store.new ≡ table_met (entry_meeting gateway.now entry.now next_hop place (S.table store.old))) }
    ensures change { IfOk result (λ c. c ≡ change_met (entry_meeting gateway.now entry.now next_hop place (S.table store.old))) }
    ensures room { OnOk result (IsTrue (adds (entry_meeting gateway.now entry.now next_hop place (S.table store.old)))
        → map_of.len (S.table store.old) < table_limit) }
    ensures kept { OnErr result (S.table store.new ≡ S.table store.old) }
    ensures refusal { IfErr result (λ kind. kind ≡ unwrap_or (flaw entry.now) (unwrap_or
        (refusal config.now gateway.now.iface entry.now
        (brings (entry_meeting gateway.now entry.now next_hop place (S.table store.old))) quota.old.held)
        (refusal_of_new (S.table store.old)))) }
    ensures new { OnErr result (flaw entry.now ≡ None
        → refusal config.now gateway.now.iface entry.now
        (brings (entry_meeting gateway.now entry.now next_hop place (S.table store.old))) quota.old.held ≡ None
        → IsTrue (adds (entry_meeting gateway.now entry.now next_hop place (S.table store.old)))) }
    ensures limit { quota.new.limit ≡ quota.old.limit }
    ensures counted { OnOk result (IfSome quota.old.limit (λ n.
        quota.new.held ≡ quota.old.held
        + (if brings (entry_meeting gateway.now entry.now next_hop place (S.table store.old)) then 1 else 0))) }
    ensures uncounted { OnErr result (quota.new ≡ quota.old) }
{
    let prefix = judge(entry)?;
    // With metric 16 the neighbor withdraws a route, and no filter keeps that out.
    if entry.metric < INFINITY && !config.is_accepted(gateway.iface, prefix) {
        return Err(NoteKind::NotAccepted);
    }
    let offer = Offer {
        metric: entry.metric,
        tag: entry.tag,
        next_hop,
        place,
    };
    meet_within(store, gateway, quota, prefix, &offer)
}

/// Processes all entries of a Response, in order. The two vectors have room for a note and for a change of each, so no memory is
/// taken for them on the way.
pub fn hear<S: RouteStore>(
    store: &mut S,
    gateway: &Gateway,
    config: &RouterConfig,
    entries: Rtes<'_>,
    notes: &mut Vec<Note>,
    changes: &mut Vec<RouteChange>,
)
    requires no_notes { notes.old.items ≡ [] }
    requires no_changes { changes.old.items ≡ [] }
    requires notes_room { length entries ≤ vec_capacity notes.old }
    requires changes_room { length entries ≤ vec_capacity changes.old }
    ensures heard { Heard (hearing config.now gateway.now entries.entry (S.table store.old) notes.new.items) (S.table store.new) }
    ensures changed { changes.new.items ≡ changes_of_hearing (hearing config.now gateway.now entries.entry (S.table store.old) notes.new.items) }
{
    let mut next_hop = gateway.from;
    let mut quota = Quota::new(store, config, gateway.iface);
    for (place, entry) in entries.enumerate() {
        // Metric 255 sets the next hop of the entries that follow, up to the next such entry (RFC 2080, section 2.1.1).
        if entry.metric == NEXT_HOP_METRIC {
            next_hop = usable_hop(config, gateway.from, &entry);
            continue;
        }
        match hear_entry(store, gateway, config, &mut quota, &entry, next_hop, place) {
            Ok(None) => {}
            Ok(Some(change)) => changes.push_reserved(change),
            // An entry that fails a test is ignored, and the next one is processed (section 2.4.2).
            Err(kind) => notes.push_reserved(Note { entry: place, kind }),
        }
    }
}
