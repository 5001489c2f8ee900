//! The routes that an update advertises, a run of them at a time, found without a look at the others (RFC 2080, section 2.5).

ghost use Rattle.std.specs.Prelude.{◌≡◌, ◌++◌, ◌&&◌, take, is_some, IfOk, IsTrue, OnOk};
ghost use Rattle.router_core.specs.Common.{announced, announced_of, is_announced, list_any, entries, map_entries, past, selected, settled, settled_table, told_route, may_be_told};

use crate::age::age;
use crate::config::RouterConfig;
use crate::filter::lets_all_through;
use crate::tell::Selection;
use crate::timers::GARBAGE_TIME_MS;
use prefix6::Prefix;
use route_table::{Moment, Route, RouteStore, Wanted};
use std::alloc::{AllocError, Global};

/// What is left of a route as an update is made.
fn settle(route: Route, which: Selection, now: Moment) -> Option<Route>
    ensures { result ≡ settled now which route }
{
    match which {
        Selection::Every | Selection::Changed => age(route, now),
        Selection::Unreachable => Some(route.lost(now.later(GARBAGE_TIME_MS))),
    }
}

/// A route as an update advertises it, if it does.
fn told_route(route: Route, which: Selection, now: Moment) -> Option<Route>
    ensures { result ≡ told_route now which route }
{
    let left = settle(route, which, now)?;
    if which.selects(&left) {
        Some(left)
    } else {
        None
    }
}

/// Which routes of the table an update may advertise.
fn may_be_told(which: Selection, now: Moment) -> Wanted
    ensures { result ≡ may_be_told now which }
{
    match which {
        // A regular update has all routes (RFC 2080, section 2.5), and so has the last one.
        Selection::Every | Selection::Unreachable => Wanted::Any,
        // A triggered one has those with the route change flag, which a timer that has ended sets too (2.3 and 2.5.1).
        Selection::Changed => Wanted::DueOrChanged(now.ms()),
    }
}

/// Whether an update has a route to advertise.
pub fn has_told<S: RouteStore>(store: &S, which: Selection, now: Moment) -> bool
    ensures { result ≡ list_any (λ t. selected which t.1) (entries (settled_table now which (S.table store.now))) }
{
    let wanted = may_be_told(which, now);
    let mut after = None;
    for _ in 0..store.len() {
        let Some(entry) = store.first_wanted(after, wanted) else {
            return false;
        };
        if told_route(entry.1, which, now).is_some() {
            return true;
        }
        after = Some(entry.0);
    }
    false
}

/// Whether an update advertises a route on an interface: it is announced there, and something is left of it to be told.
fn is_told_on(
    entry: &(Prefix, Route),
    config: &RouterConfig,
    iface: usize,
    which: Selection,
    now: Moment,
) -> bool
    ensures { result ≡ is_announced config.now iface entry.now.0 && is_some (told_route now which entry.now.1) }
{
    config.is_announced(iface, entry.0) && told_route(entry.1, which, now).is_some()
}

/// Whether an update has a route to advertise on an interface.
pub fn has_announced<S: RouteStore>(
    store: &S,
    config: &RouterConfig,
    iface: usize,
    which: Selection,
    now: Moment,
) -> bool
    ensures { result ≡ list_any (λ t. selected which t.1) (entries (announced config.now iface (settled_table now which (S.table store.now)))) }
{
    let wanted = may_be_told(which, now);
    let mut after = None;
    for _ in 0..store.len() {
        let Some(entry) = store.first_wanted(after, wanted) else {
            return false;
        };
        if is_told_on(&entry, config, iface, which, now) {
            return true;
        }
        after = Some(entry.0);
    }
    false
}

/// Appends those routes of a batch that the update advertises on an interface, as it advertises them.
fn push_told(
    run: &mut Vec<(Prefix, Route)>,
    batch: &[(Prefix, Route)],
    config: &RouterConfig,
    iface: usize,
    which: Selection,
    now: Moment,
) -> Result<(), AllocError>
    ensures { OnOk result (run.new.items ≡ run.old.items ++ map_entries (told_route now which) (announced_of config.now iface batch.now)) }
{
    run.extend(
        batch.iter().filter_map(|&(prefix, route)| {
            if config.is_announced(iface, prefix) {
                told_route(route, which, now).map(|left| (prefix, left))
            } else {
                None
            }
        }),
    )
}

/// Whether the update tells all routes as they are in the store: a regular one does where no timer has ended.
fn is_as_stored<S: RouteStore>(store: &S, which: Selection, now: Moment) -> bool
    ensures { IsTrue result → map_entries (told_route now which) (entries (S.table store.now)) ≡ entries (S.table store.now) }
{
    match which {
        Selection::Every => store.walk_due(None, now).is_none(),
        Selection::Changed | Selection::Unreachable => false,
    }
}

/// Whether the update advertises all routes on an interface as they are in the store.
fn is_whole<S: RouteStore>(
    store: &S,
    config: &RouterConfig,
    iface: usize,
    which: Selection,
    now: Moment,
) -> bool
    ensures { IsTrue result → map_entries (told_route now which) (announced_of config.now iface (entries (S.table store.now)))
        ≡ entries (S.table store.now) }
{
    if lets_all_through(config.announcements(), iface) {
        is_as_stored(store, which, now)
    } else {
        false
    }
}

/// Which part of an update: what is past a prefix, and so many routes at most.
#[derive(Clone, Copy)]
pub struct Part {
    pub after: Option<Prefix>,
    pub most: usize,
}

/// The routes of a part of the update on an interface, as it advertises them: as many as the part has at most, or all if there are
/// fewer. So a datagram is made without a list of all routes.
///
/// # Errors
/// Only out of memory.
pub fn told_run<S: RouteStore>(
    alloc: Global,
    store: &S,
    config: &RouterConfig,
    iface: usize,
    which: Selection,
    now: Moment,
    part: Part,
) -> Result<Vec<(Prefix, Route)>, AllocError>
    ensures { IfOk result (λ run. run.items ≡ take part.most (past part.after
        (map_entries (told_route now which) (announced_of config.now iface (entries (S.table store.now)))))) }
{
    let most = part.most;
    let mut after = part.after;
    let mut run = Vec::with_capacity(alloc, most)?;
    if is_whole(store, config, iface, which, now) {
        store.list_wanted(after, Wanted::Any, most, &mut run);
        return Ok(run);
    }
    let wanted = may_be_told(which, now);
    while run.len() < most {
        let left = most - run.len();
        let mut batch = Vec::with_capacity(alloc, left)?;
        store.list_wanted(after, wanted, left, &mut batch);
        let Some(last) = batch.last() else {
            return Ok(run);
        };
        after = Some(last.0);
        // Where a timer has ended, or a filter keeps a route back, fewer may be advertised than were found, and more are asked for.
        push_told(&mut run, &batch, config, iface, which, now)?;
    }
    Ok(run)
}
