//! A link goes down: routes that were learned on it are withdrawn at once. RFC 2080 leaves them to their timeout; this is sooner,
//! and a choice of this project.

ghost use Rattle.std.specs.Prelude.{◌≡◌, IfOk, Some};
ghost use Rattle.router_core.specs.Common.{get, change, is_live_on, after_link_down, table_after_link_down, changes_of_link_down};

use crate::forwarding::change;
use crate::timers::GARBAGE_TIME_MS;
use fib::RouteChange;
use prefix6::Prefix;
use route_table::{INFINITY, Moment, Origin, Route, RouteStore};
use std::alloc::{AllocError, Global};

/// Whether a route was learned on that interface, and is reachable.
fn is_live_on(iface: usize, route: Route) -> bool
    ensures { result ≡ is_live_on iface route }
{
    match route.origin() {
        Origin::Own => false,
        Origin::Learned {
            iface: learned_on,
            ..
        } => learned_on == iface && route.metric() < INFINITY,
    }
}

/// What is left of a route when the link of an interface goes down.
fn lose_on(route: Route, iface: usize, now: Moment) -> Route
    ensures { result ≡ after_link_down iface now route }
{
    // The end of a route is the same as at its timeout: metric 16, the route change flag, and garbage collection (section 2.3).
    if is_live_on(iface, route) {
        route.lost(now.later(GARBAGE_TIME_MS))
    } else {
        route
    }
}

/// The change of a prefix's forwarding entry as the link of an interface goes down, if the entry differs.
fn change_of_link_down(
    prefix: Prefix,
    route: Route,
    iface: usize,
    now: Moment,
) -> Option<RouteChange>
    ensures { result ≡ change prefix (Some route) (Some (after_link_down iface now route)) }
{
    change(prefix, Some(route), Some(lose_on(route, iface, now)))
}

/// The changes of forwarding entries, in the order of prefixes. Takes no memory where there are none.
///
/// # Errors
/// Only out of memory.
pub fn changes_of_link_down<S: RouteStore>(
    alloc: Global,
    store: &S,
    iface: usize,
    now: Moment,
) -> Result<Vec<RouteChange>, AllocError>
    ensures { IfOk result (λ v. v.items ≡ changes_of_link_down iface now (S.table store.now)) }
{
    let mut changes = Vec::new(alloc);
    let mut after = None;
    for _ in 0..store.len() {
        let Some(entry) = store.walk(after) else {
            return Ok(changes);
        };
        if let Some(change) = change_of_link_down(entry.0, entry.1, iface, now) {
            changes.push(change)?;
        }
        after = Some(entry.0);
    }
    Ok(changes)
}

/// Withdraws every route that was learned on the interface.
pub fn lose_all_on<S: RouteStore>(store: &mut S, iface: usize, now: Moment)
    ensures { S.table store.new ≡ table_after_link_down iface now (S.table store.old) }
{
    let mut after = None;
    for _ in 0..store.len() {
        let Some(entry) = store.walk(after) else {
            return;
        };
        store.replace(&entry.0, lose_on(entry.1, iface, now));
        after = Some(entry.0);
    }
}
