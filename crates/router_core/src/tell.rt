//! What a router advertises: updates of all routes or of the changed ones, by split horizon with poisoned reverse (RFC 2080,
//! sections 2.5 and 2.6).

ghost use Rattle.std.specs.Prelude.{◌≡◌, ◌≤◌, ◌+◌, ◌*◌, ◌↔◌, [], ◌∷◌, false, length, map, IsOk, IfOk, OnOk, IsTrue};
ghost use Rattle.router_core.specs.Common.{Response, Spells, most_entries, map_entries, AddsSpelled, AreSpelled, IsConfig, announced_of, is_passive, responses, selected, told_entry, told_message, update_on, update_messages, settled_table, told_route, Group};
ghost use Rattle.std.specs.FinMap as map_of;

use crate::answer::{Destination, Outgoing};
use crate::config::{RouterConfig, mtu_at};
use crate::listed::Listed;
use crate::listing::{Part, has_announced, told_run};
use prefix6::Prefix;
use ripng_wire::{Command, Rte, encode_entry, encode_header, entries_for_mtu};
use route_table::{INFINITY, Moment, Origin, Route, RouteStore};
use std::alloc::{AllocError, Global};

/// Which routes an update advertises.
#[derive(Clone, Copy, Debug, PartialEq, Eq)]
pub enum Selection {
    /// All of them: a regular update (RFC 2080, section 2.5).
    Every,
    /// Those whose route change flag is set: a triggered update (RFC 2080, section 2.5.1).
    Changed,
    /// All of them, as unreachable: the last update of a router that shuts down. RFC 2080 has none; it is this project's choice.
    Unreachable,
}

impl Selection {
    /// Whether an update of this kind advertises the route.
    pub fn selects(self, route: &Route) -> bool
        ensures { result ≡ selected self route.now }
    {
        match self {
            Selection::Every | Selection::Unreachable => true,
            Selection::Changed => route.is_changed(),
        }
    }
}

/// A route as it is advertised on an interface: unreachable where it was learned.
fn told_entry(iface: usize, prefix: Prefix, route: Route) -> Rte
    ensures { result ≡ told_entry iface (prefix, route) }
{
    // Split horizon with poisoned reverse: a route goes out with metric 16 on the interface that it was learned on, so that two
    // neighbors never forward to each other (RFC 2080, section 2.6).
    let is_learned_there = match route.origin() {
        Origin::Own => false,
        Origin::Learned {
            iface: learned_on,
            ..
        } => learned_on == iface,
    };
    Rte {
        addr: prefix.addr().bits(),
        tag: route.tag(),
        len: prefix.len(),
        metric: if is_learned_there {
            INFINITY
        } else {
            route.metric()
        },
    }
}

/// All routes of a store, in the order of prefixes.
///
/// # Errors
/// Only out of memory.
pub fn listed<S: RouteStore>(alloc: Global, store: &S) -> Result<Vec<(Prefix, Route)>, AllocError>
    ensures { IfOk result (λ v. v.items ≡ map_of.entries (S.table store.now)) }
{
    let mut routes = Vec::with_capacity(alloc, store.len())?;
    store.list(&mut routes);
    Ok(routes)
}

/// The entries that advertise those of the routes that an interface announces.
///
/// # Errors
/// Only out of memory.
pub fn told_on(
    alloc: Global,
    config: &RouterConfig,
    iface: usize,
    routes: &[(Prefix, Route)],
) -> Result<Vec<Rte>, AllocError>
    ensures value { IfOk result (λ v. v.items ≡ map (told_entry iface) (announced_of config.now iface routes.now)) }
    ensures few { IfOk result (λ v. length v.items ≤ length routes.now) }
{
    routes
        .iter()
        .filter(|(prefix, _)| config.is_announced(iface, *prefix))
        .map(|&(prefix, route)| told_entry(iface, prefix, route))
        .collect(alloc)
}

/// The bytes of the Response that advertises these routes on an interface.
///
/// # Errors
/// Only out of memory.
fn told_response(
    alloc: Global,
    iface: usize,
    piece: &[(Prefix, Route)],
) -> Result<Vec<u8>, AllocError>
    requires few { length piece.now ≤ most_entries }
    ensures { IfOk result (λ bytes. Spells Response (map (told_entry iface) piece.now) bytes.items) }
{
    let mut bytes = encode_header(alloc, Command::Response, piece.len())?;
    for &(prefix, route) in piece {
        encode_entry(&mut bytes, told_entry(iface, prefix, route))?;
    }
    Ok(bytes)
}

/// Adds the Response that advertises these routes on an interface, to the group.
fn push_piece(
    alloc: Global,
    sends: &mut Vec<Outgoing>,
    iface: usize,
    piece: &[(Prefix, Route)],
) -> Result<(), AllocError>
    requires few { length piece.now ≤ most_entries }
    ensures spelled { OnOk result (AddsSpelled (told_message iface piece.now ∷ []) sends.old.items sends.new.items) }
    ensures one { OnOk result (length sends.new.items ≡ length sends.old.items + 1) }
{
    let bytes = Listed::from_vec(told_response(alloc, iface, piece)?);
    let to = Destination::Group;
    sends.push(Outgoing { iface, to, bytes })?;
    Ok(())
}

/// Adds the Responses of an update on an interface, to the group. Routes are listed and entries made for one datagram at a time,
/// so no more memory is taken for them at once.
fn push_update<S: RouteStore>(
    alloc: Global,
    sends: &mut Vec<Outgoing>,
    config: &RouterConfig,
    iface: usize,
    store: &S,
    which: Selection,
    now: Moment,
) -> Result<(), AllocError>
    ensures spelled { let all = map_entries (told_route now which) (announced_of config.now iface (map_of.entries (S.table store.now))) in
        OnOk result (AddsSpelled (responses config.now iface Group (map (told_entry iface) all)) sends.old.items sends.new.items) }
    ensures few { OnOk result (length sends.new.items ≤ length sends.old.items + map_of.len (S.table store.now)) }
{
    // A datagram holds as many entries as the MTU of the link allows; the rest go into further datagrams (section 2.1).
    let room = entries_for_mtu(mtu_at(config, iface));
    let mut after = None;
    for _done in 0..store.len() {
        let part = Part { after, most: room };
        let piece = told_run(alloc, store, config, iface, which, now, part)?;
        let Some(last) = piece.last() else {
            return Ok(());
        };
        after = Some(last.0);
        push_piece(alloc, sends, iface, &piece)?;
    }
    Ok(())
}

/// Whether the update has no datagram on an interface: it is passive, or there is no route to advertise.
fn is_silent_on<S: RouteStore>(
    config: &RouterConfig,
    iface: usize,
    store: &S,
    which: Selection,
    now: Moment,
) -> bool
    ensures value { IsTrue result ↔ (update_on config.now (selected which) (settled_table now which (S.table store.now)) iface ≡ []) }
    ensures active { result ≡ false → is_passive config.now iface ≡ false }
    ensures lawful { IsConfig config.now }
{
    if config.is_passive(iface) {
        true
    } else {
        !has_announced(store, config, iface, which, now)
    }
}

/// Adds the update on an interface, of what is announced there. On a passive one there is none. Takes no memory where it has no
/// datagram.
fn push_update_on<S: RouteStore>(
    alloc: Global,
    sends: &mut Vec<Outgoing>,
    config: &RouterConfig,
    iface: usize,
    store: &S,
    which: Selection,
    now: Moment,
) -> Result<(), AllocError>
    ensures spelled { OnOk result (AddsSpelled (update_on config.now (selected which) (settled_table now which (S.table store.now)) iface)
        sends.old.items sends.new.items) }
    ensures few { OnOk result (length sends.new.items ≤ length sends.old.items + map_of.len (S.table store.now)) }
    ensures silent_is_free { update_on config.now (selected which) (settled_table now which (S.table store.now)) iface ≡ [] → IsOk result }
{
    if is_silent_on(config, iface, store, which, now) {
        Ok(())
    } else {
        push_update(alloc, sends, config, iface, store, which, now)
    }
}

/// An update on each interface that is not passive, to the group.
///
/// # Errors
/// Only out of memory, and never where the update has no datagram.
pub fn updates<S: RouteStore>(
    alloc: Global,
    config: &RouterConfig,
    store: &S,
    which: Selection,
    now: Moment,
) -> Result<Vec<Outgoing>, AllocError>
    ensures spelled { IfOk result (λ sends. AreSpelled (update_messages config.now (selected which) (settled_table now which (S.table store.now))) sends.items) }
    ensures few { IfOk result (λ sends. length sends.items ≤ map_of.len (S.table store.now) * length config.now.interfaces) }
    ensures silent_is_free { update_messages config.now (selected which) (settled_table now which (S.table store.now)) ≡ [] → IsOk result }
{
    let mut sends = Vec::new(alloc);
    for iface in 0..config.interfaces().len() {
        push_update_on(alloc, &mut sends, config, iface, store, which, now)?;
    }
    Ok(sends)
}
