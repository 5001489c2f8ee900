//! What a tick does to the routes: timeout and garbage collection, and route change flags that are cleared once they were
//! advertised (RFC 2080, sections 2.3 and 2.5.1).

ghost use Rattle.std.specs.Prelude.{◌≡◌, [], IsOk, IfOk, if◌then◌else◌, Some};
ghost use Rattle.router_core.specs.Common.{get, with_value, aged, aged_table, unmarked, change, changes_of_ageing};

use crate::age::age;
use crate::forwarding::change;
use fib::RouteChange;
use prefix6::Prefix;
use route_table::{Moment, Route, RouteStore};
use std::alloc::{AllocError, Global};

/// The change of a prefix's forwarding entry as its route times out, if the entry differs.
fn change_of_ageing(prefix: Prefix, route: Route, now: Moment) -> Option<RouteChange>
    ensures { result ≡ change prefix (Some route) (aged now route) }
{
    change(prefix, Some(route), age(route, now))
}

/// The changes of the routes that expire, in the order of prefixes. Takes no memory where none does.
///
/// # Errors
/// Only out of memory.
pub fn changes_of_ageing<S: RouteStore>(
    alloc: Global,
    store: &S,
    now: Moment,
) -> Result<Vec<RouteChange>, AllocError>
    ensures listed { IfOk result (λ v. v.items ≡ changes_of_ageing now (S.table store.now)) }
    ensures idle_is_free { changes_of_ageing now (S.table store.now) ≡ [] → IsOk result }
{
    let mut changes = Vec::new(alloc);
    let mut after = None;
    for _ in 0..store.len() {
        let Some(entry) = store.walk_due(after, now) else {
            return Ok(changes);
        };
        if let Some(change) = change_of_ageing(entry.0, entry.1, now) {
            changes.push(change)?;
        }
        after = Some(entry.0);
    }
    Ok(changes)
}

/// Replaces a route by what is left of it, or deletes it.
fn put<S: RouteStore>(store: &mut S, prefix: Prefix, route: Route, left: Option<Route>)
    requires { get (S.table store.old) prefix ≡ Some route }
    ensures { S.table store.new ≡ with_value (S.table store.old) prefix left }
{
    match left {
        Some(left) => store.replace(&prefix, left),
        None => store.remove(&prefix),
    }
}

/// Every route whose timer has ended times out or is deleted. Only those are looked at.
fn age_all<S: RouteStore>(store: &mut S, now: Moment)
    ensures { S.table store.new ≡ aged_table now (S.table store.old) }
{
    let mut after = None;
    for _ in 0..store.len() {
        let Some(entry) = store.walk_due(after, now) else {
            return;
        };
        put(store, entry.0, entry.1, age(entry.1, now));
        after = Some(entry.0);
    }
}

/// Every route whose timer has ended times out or is deleted. After an update all route change flags are cleared.
pub fn settle_all<S: RouteStore>(store: &mut S, now: Moment, was_told: bool)
    ensures { S.table store.new ≡ (if was_told then unmarked (aged_table now (S.table store.old)) else aged_table now (S.table store.old)) }
{
    age_all(store, now);
    // Once an update was sent, all route change flags are cleared (RFC 2080, section 2.5.1); a regular one has sent them too.
    if was_told {
        store.unmark();
    }
}
