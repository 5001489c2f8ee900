//! A router starts: its table has its own prefixes, and it asks its neighbors for their tables (RFC 2080, section 2.4.1). So it does
//! on one interface when the link there comes up.

ghost use Rattle.std.specs.Prelude.{◌≡◌, ℕ, ◌≤◌, ◌+◌, true, length, IsOk, IfOk, OnOk};
ghost use Rattle.router_core.specs.Common.{AddsSpelled, asked_on, changes_of_start, is_passive, owned_table, AreSpelled, IsSpelled, link_up_messages, request_on, start_messages};

use crate::answer::{Destination, Outgoing};
use crate::config::RouterConfig;
use crate::forwarding::change;
use crate::listed::Listed;
use crate::tell::listed;
use fib::RouteChange;
use ripng_wire::{Command, Rte, encode};
use route_table::{AddRefused, INFINITY, Route, RouteStore};
use std::alloc::{AllocError, Global};

/// The entry that asks for a whole table: prefix `::`, length 0 and metric 16 (RFC 2080, section 2.4.1).
const WHOLE_TABLE: Rte = Rte {
    addr: 0,
    tag: 0,
    len: 0,
    metric: INFINITY,
};

/// A Request for the whole table on an interface, to the group.
fn request(alloc: Global, iface: usize) -> Result<Outgoing, AllocError>
    ensures { IfOk result (λ sent. IsSpelled (request_on iface) sent) }
{
    let bytes = encode(alloc, Command::Request, &[WHOLE_TABLE])?;
    Ok(Outgoing {
        iface,
        to: Destination::Group,
        bytes: Listed::from_vec(bytes),
    })
}

/// Adds the Request of the router's own on an interface: for the whole table, to the group. On a passive one there is none.
fn push_request(
    alloc: Global,
    sends: &mut Vec<Outgoing>,
    config: &RouterConfig,
    iface: usize,
) -> Result<(), AllocError>
    ensures spelled { OnOk result (AddsSpelled (asked_on config.now iface) sends.old.items sends.new.items) }
    ensures few { OnOk result (length sends.new.items ≤ length sends.old.items + 1) }
    ensures passive { is_passive config.now iface ≡ true → IsOk result }
{
    if config.is_passive(iface) {
        return Ok(());
    }
    sends.push(request(alloc, iface)?)?;
    Ok(())
}

/// A Request for the whole table on each interface that is not passive, to the group.
///
/// # Errors
/// Only out of memory, and never where all interfaces are passive.
pub fn requests(alloc: Global, config: &RouterConfig) -> Result<Vec<Outgoing>, AllocError>
    ensures spelled { IfOk result (λ sends. AreSpelled (start_messages config.now) sends.items) }
    ensures few { IfOk result (λ sends. length sends.items ≤ length config.now.interfaces) }
    ensures free { ((iface : ℕ) → is_passive config.now iface ≡ true) → IsOk result }
{
    let mut sends = Vec::new(alloc);
    for iface in 0..config.interfaces().len() {
        push_request(alloc, &mut sends, config, iface)?;
    }
    Ok(sends)
}

/// A Request for the whole table on one interface, to the group. On a passive one there is none, and none goes where no interface is.
///
/// # Errors
/// Only out of memory.
pub fn request_on(
    alloc: Global,
    config: &RouterConfig,
    iface: usize,
) -> Result<Vec<Outgoing>, AllocError>
    ensures spelled { IfOk result (λ sends. AreSpelled (link_up_messages config.now iface) sends.items) }
    ensures few { IfOk result (λ sends. length sends.items ≤ 1) }
{
    let mut sends = Vec::new(alloc);
    if iface >= config.interfaces().len() {
        return Ok(sends);
    }
    push_request(alloc, &mut sends, config, iface)?;
    Ok(sends)
}

/// A store with a local route to each owned prefix, and no other routes.
///
/// # Errors
/// Only out of memory.
pub fn owned_routes<S: RouteStore>(alloc: Global, config: &RouterConfig) -> Result<S, AllocError>
    ensures { IfOk result (λ s. S.table s ≡ owned_table config.now) }
{
    let mut store = S::empty(alloc);
    for &(prefix, tag) in config.prefixes() {
        match store.add(prefix, Route::own(tag)) {
            Ok(()) => {}
            Err(AddRefused::NoMemory) => return Err(AllocError),
            Err(AddRefused::Full) => unreachable!(),
        }
    }
    Ok(store)
}

/// The forwarding entries to install when a router starts, in the order of prefixes.
///
/// # Errors
/// Only out of memory.
pub fn changes_of_start<S: RouteStore>(
    alloc: Global,
    store: &S,
) -> Result<Vec<RouteChange>, AllocError>
    ensures { IfOk result (λ v. v.items ≡ changes_of_start (S.table store.now)) }
{
    let routes = listed(alloc, store)?;
    routes
        .iter()
        .filter_map(|&(prefix, route)| change(prefix, None, Some(route)))
        .collect(alloc)
}
