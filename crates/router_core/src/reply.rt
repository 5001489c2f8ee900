//! The reply to a Request: the whole table, or entry by entry (RFC 2080, section 2.4.1).

ghost use Rattle.std.specs.Prelude.{◌≡◌, ◌≤◌, max, true, length, IsOk, IfOk};
ghost use Rattle.router_core.specs.Common.{ripng_port, AreSpelled, asks_for_all, filled, is_passive, reply, reply_on, reply_messages};
ghost use Rattle.std.specs.FinMap as map_of;

use crate::answer::{Destination, Outgoing};
use crate::arrival::{Arrival, RIPNG_PORT};
use crate::config::{RouterConfig, mtu_at};
use crate::cut::push_responses;
use crate::tell::{listed, told_on};
use prefix6::{Addr6, Prefix};
use ripng_wire::{Datagram, Rte};
use route_table::{INFINITY, Route, RouteStore};
use std::alloc::{AllocError, Global};

/// Whether the entries ask for the whole table: exactly one entry, of prefix `::`, length 0 and metric 16. Its tag is not looked
/// at (RFC 2080, section 2.4.1).
fn asks_for_all(request: &Datagram<'_>) -> bool
    ensures { result ≡ asks_for_all request.now.entries }
{
    let mut entries = request.entries();
    match (entries.next(), entries.next()) {
        (Some(entry), None) => entry.addr == 0 && entry.len == 0 && entry.metric == INFINITY,
        _ => false,
    }
}

/// The route that answers for one entry: that to exactly its prefix, if the interface announces it.
fn found_for<S: RouteStore>(
    store: &S,
    config: &RouterConfig,
    iface: usize,
    asked: &Rte,
) -> Option<Route>
    ensures { filled asked.now result ≡ reply_on config.now iface (S.table store.now) asked.now }
{
    let Ok(prefix) = Prefix::new(Addr6::from_bits(asked.addr), asked.len) else {
        return None;
    };
    if config.is_announced(iface, prefix) {
        store.get(&prefix)
    } else {
        None
    }
}

/// The reply to one entry: the entry itself, with the metric and tag of the route that answers for it.
fn reply_on<S: RouteStore>(store: &S, config: &RouterConfig, iface: usize, asked: Rte) -> Rte
    ensures { result ≡ reply_on config.now iface (S.table store.now) asked }
{
    match found_for(store, config, iface, &asked) {
        // A query for single prefixes is for diagnosis, so it gets the metric as it is, without split horizon (section 2.4.1).
        Some(route) => Rte {
            metric: route.metric(),
            tag: route.tag(),
            ..asked
        },
        // Infinity stands for a prefix without a route (section 2.4.1), and for one that the interface does not announce.
        None => Rte {
            metric: INFINITY,
            ..asked
        },
    }
}

/// The entries of the reply to a Request that came on an interface.
fn entries<S: RouteStore>(
    alloc: Global,
    store: &S,
    config: &RouterConfig,
    iface: usize,
    request: &Datagram<'_>,
) -> Result<Vec<Rte>, AllocError>
    ensures value { IfOk result (λ v. v.items ≡ reply config.now iface (S.table store.now) request.now.entries) }
    ensures few { IfOk result (λ v. length v.items ≤ max (map_of.len (S.table store.now)) (length request.now.entries)) }
{
    // The whole table goes through normal output processing, split horizon included: a neighbor will use it (section 2.4.1).
    if asks_for_all(request) {
        return told_on(alloc, config, iface, &listed(alloc, store)?);
    }
    request
        .entries()
        .map(|asked| reply_on(store, config, iface, asked))
        .collect(alloc)
}

/// The Responses that reply to a Request, to its sender. On a passive interface port 521 gets none, that is, routers.
///
/// # Errors
/// Only out of memory, and never where there is no reply.
pub fn reply<S: RouteStore>(
    alloc: Global,
    store: &S,
    config: &RouterConfig,
    arrival: &Arrival<'_>,
    request: &Datagram<'_>,
) -> Result<Vec<Outgoing>, AllocError>
    ensures spelled { IfOk result (λ sends. AreSpelled (reply_messages config.now (S.table store.now) arrival.entry.now request.now.entries) sends.items) }
    ensures few { IfOk result (λ sends. length sends.items ≤ max (map_of.len (S.table store.now)) (length request.now.entries)) }
    ensures passive { is_passive config.now arrival.entry.now.iface ≡ true → arrival.entry.now.source_port ≡ ripng_port → IsOk result }
{
    let mut sends = Vec::new(alloc);
    // This project's choice: on a passive interface the router keeps silent towards routers. A query from another port is for
    // diagnosis, and gets its reply (section 2.1).
    if config.is_passive(arrival.iface) && arrival.source_port == RIPNG_PORT {
        return Ok(sends);
    }
    let asker = Destination::Peer {
        addr: arrival.source,
        port: arrival.source_port,
    };
    let entries = entries(alloc, store, config, arrival.iface, request)?;
    push_responses(
        alloc,
        &mut sends,
        arrival.iface,
        mtu_at(config, arrival.iface),
        asker,
        &entries,
    )?;
    Ok(sends)
}
