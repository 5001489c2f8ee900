//! Whether a network has healed: each table has exactly the least costs of now. A router's metrics are compared with those of the
//! neighbors that it hears, each with the cost of the interface. As each cost is at least 1, only the least costs agree so everywhere.

ghost use Rattle.std.specs.Prelude.{◌≡◌, ◌++◌, IfOk, IfSome, None, OnOk, false};
ghost use Rattle.ripng_lab.specs.Common.{HasHealed, IsHealedAt, IsUnhealed, has_route, has_wrong, has_wrong_heard, has_wrong_owned, heard_among, heard_of, is_heard_from, is_right, is_wrong, least_by, least_heard, metric_or_none, neighbors_at, neighbors_of, places_on, tells_others, value_of};

use crate::plan::{Outages, count_interfaces};
use crate::{Course, Network, Outcome, Stop, Unmet};
use prefix6::Prefix;
use route_table::{INFINITY, RouteStore};
use std::alloc::{AllocError, Global};

/// A neighbor that a router hears, and the cost of the interface on which it does.
#[derive(Clone, Copy, Debug, PartialEq, Eq)]
pub struct Neighbor {
    pub router: usize,
    pub cost: u8,
}

/// Whether others hear what a router tells: it is neither silent nor quiet.
fn tells_others(lab: &Network, outages: &Outages, router: usize) -> bool
    ensures { result ≡ tells_others outages.now lab.now router }
{
    match lab.router(router) {
        Some(at) => !at.config().is_quiet() && !outages.silent.contains(&router),
        None => false,
    }
}

/// Whether a router hears another.
fn is_heard_from(lab: &Network, outages: &Outages, router: usize, other: usize) -> bool
    ensures { result ≡ is_heard_from outages.now lab.now router other }
{
    other != router && tells_others(lab, outages, other)
}

/// Adds those of some interfaces' routers that a router hears, at that cost.
fn add_heard(
    neighbors: &mut Vec<Neighbor>,
    lab: &Network,
    outages: &Outages,
    router: usize,
    cost: u8,
    places: &[(usize, usize)],
) -> Result<(), AllocError>
    ensures { OnOk result (neighbors.new.items ≡ neighbors.old.items ++ heard_among outages.now lab.now router cost places.now) }
{
    for at in places {
        if is_heard_from(lab, outages, router, at.0) {
            neighbors.push(Neighbor { router: at.0, cost })?;
        }
    }
    Ok(())
}

/// Adds the neighbors that a router hears on an interface of that cost, once for each of their interfaces there. Nothing crosses a link
/// that is cut.
fn add_neighbors(
    neighbors: &mut Vec<Neighbor>,
    lab: &Network,
    outages: &Outages,
    router: usize,
    iface: usize,
    cost: u8,
) -> Result<(), AllocError>
    ensures { OnOk result (neighbors.new.items ≡ neighbors.old.items ++ neighbors_at outages.now lab.now router iface cost) }
{
    match lab.link(router, iface) {
        Some(link) => {
            let places = places_on(lab, outages, link);
            add_heard(neighbors, lab, outages, router, cost, places)
        }
        None => Ok(()),
    }
}

/// The interfaces on a link; none if it is cut.
fn places_on<'e>(lab: &'e Network, outages: &Outages, link: u32) -> &'e [(usize, usize)]
    ensures { result.now ≡ places_on outages.now lab.now link }
{
    if outages.cut.contains(&(link as usize)) {
        &[]
    } else {
        lab.interfaces_on(link)
    }
}

/// The neighbors that a router hears.
fn neighbors_of(
    alloc: Global,
    lab: &Network,
    outages: &Outages,
    router: usize,
) -> Result<Vec<Neighbor>, AllocError>
    ensures { IfOk result (λ neighbors. neighbors.items ≡ neighbors_of outages.now lab.now router) }
{
    let mut neighbors = Vec::new(alloc);
    let Some(at) = lab.router(router) else {
        return Ok(neighbors);
    };
    let interfaces = at.config().interfaces();
    for iface in 0..interfaces.len() {
        let cost = interfaces[iface].cost;
        add_neighbors(&mut neighbors, lab, outages, router, iface, cost)?;
    }
    Ok(neighbors)
}

/// The metric of a router's route to a prefix, 16 without one.
fn metric_or_none(lab: &Network, router: usize, prefix: &Prefix) -> u8
    ensures { result ≡ metric_or_none lab.now router prefix.now }
{
    match lab.router(router).and_then(|at| at.routes().get(prefix)) {
        Some(route) => route.metric(),
        None => INFINITY,
    }
}

/// At which metric a router hears of a prefix from a neighbor, at most 16.
fn heard_of(lab: &Network, neighbor: &Neighbor, prefix: &Prefix) -> u8
    ensures { result ≡ heard_of lab.now prefix.now neighbor.now }
{
    let told = metric_or_none(lab, neighbor.router, prefix);
    told.saturating_add(neighbor.cost).min(INFINITY)
}

/// The least of these, or 16.
fn least_heard(lab: &Network, neighbors: &[Neighbor], prefix: &Prefix) -> u8
    ensures { result ≡ least_heard lab.now prefix.now neighbors.now }
{
    let mut least = INFINITY;
    for neighbor in neighbors {
        least = least.min(heard_of(lab, neighbor, prefix));
    }
    least
}

/// Whether a router's metric of a prefix is the least that it may have: 1 if it owns it, else the least that it hears.
fn is_right(lab: &Network, router: usize, neighbors: &[Neighbor], prefix: &Prefix) -> bool
    ensures { result ≡ is_right lab.now router neighbors.now prefix.now }
{
    metric_or_none(lab, router, prefix) == least_by(lab, router, neighbors, prefix)
}

/// 1 for a prefix that a router owns, else the least metric that it hears.
fn least_by(lab: &Network, router: usize, neighbors: &[Neighbor], prefix: &Prefix) -> u8
    ensures { result ≡ least_by lab.now router neighbors.now prefix.now }
{
    match lab.router(router) {
        Some(at) if at.config().owns(*prefix) => 1,
        _ => least_heard(lab, neighbors, prefix),
    }
}

/// Whether a router has a route to a prefix.
fn has_route(lab: &Network, router: usize, prefix: &Prefix) -> bool
    ensures { result ≡ has_route lab.now router prefix.now }
{
    match lab.router(router) {
        Some(at) => at.routes().get(prefix).is_some(),
        None => false,
    }
}

/// Whether a router's metric of a prefix of a table is wrong: of its own table; or of another, of those that are not in its own.
fn is_wrong(
    lab: &Network,
    router: usize,
    neighbors: &[Neighbor],
    of: usize,
    prefix: &Prefix,
) -> bool
    ensures { result ≡ is_wrong lab.now router neighbors.now of prefix.now }
{
    (of == router || !has_route(lab, router, prefix)) && !is_right(lab, router, neighbors, prefix)
}

/// The first prefix in the table of the router `of` for which a router's metric is wrong.
fn first_wrong(
    alloc: Global,
    lab: &Network,
    router: usize,
    neighbors: &[Neighbor],
    of: usize,
) -> Result<Option<Prefix>, AllocError>
    ensures found { IfOk result (λ found. IfSome found (λ p. is_right lab.now router neighbors.now p ≡ false)) }
    ensures none { IfOk result (λ found. found ≡ None → has_wrong lab.now router neighbors.now of ≡ false) }
{
    let Some(at) = lab.router(of) else {
        return Ok(None);
    };
    let mut routes = Vec::with_capacity(alloc, at.routes().len())?;
    at.routes().list(&mut routes);
    for entry in &routes {
        let prefix = entry.0;
        if is_wrong(lab, router, neighbors, of, &prefix) {
            return Ok(Some(prefix));
        }
    }
    Ok(None)
}

/// The first prefix of a router's own for which its metric is wrong.
fn first_wrong_owned(lab: &Network, router: usize, neighbors: &[Neighbor]) -> Option<Prefix>
    ensures found { IfSome result (λ p. is_right lab.now router neighbors.now p ≡ false) }
    ensures none { result ≡ None → has_wrong_owned lab.now router neighbors.now ≡ false }
{
    let at = lab.router(router)?;
    for owned in at.config().prefixes() {
        let prefix = owned.0;
        if !is_right(lab, router, neighbors, &prefix) {
            return Some(prefix);
        }
    }
    None
}

/// The first prefix in the tables of these neighbors for which a router's metric is wrong.
fn first_wrong_heard(
    alloc: Global,
    lab: &Network,
    router: usize,
    neighbors: &[Neighbor],
) -> Result<Option<Prefix>, AllocError>
    ensures found { IfOk result (λ found. IfSome found (λ p. is_right lab.now router neighbors.now p ≡ false)) }
    ensures none { IfOk result (λ found. found ≡ None → has_wrong_heard lab.now router neighbors.now neighbors.now ≡ false) }
{
    for neighbor in neighbors {
        let found = first_wrong(alloc, lab, router, neighbors, neighbor.router)?;
        if found.is_some() {
            return Ok(found);
        }
    }
    Ok(None)
}

/// The first prefix for which a router's metric is not the least that it may have. Of a silent router nothing is asked.
fn first_unhealed_at(
    alloc: Global,
    lab: &Network,
    outages: &Outages,
    router: usize,
) -> Result<Option<Prefix>, AllocError>
    ensures found { IfOk result (λ found. IfSome found (λ p. IsUnhealed outages.now lab.now router p)) }
    ensures none { IfOk result (λ found. found ≡ None → IsHealedAt outages.now lab.now router) }
{
    if outages.silent.contains(&router) {
        return Ok(None);
    }
    let neighbors = neighbors_of(alloc, lab, outages, router)?;
    if let Some(prefix) = first_wrong_owned(lab, router, &neighbors) {
        return Ok(Some(prefix));
    }
    if let Some(prefix) = first_wrong(alloc, lab, router, &neighbors, router)? {
        return Ok(Some(prefix));
    }
    first_wrong_heard(alloc, lab, router, &neighbors)
}

/// The first router, and a prefix, whose metric is not the least cost of now, over the links that are not cut and the routers that are not
/// silent.
///
/// # Errors
/// Out of memory.
fn first_unhealed(
    alloc: Global,
    lab: &Network,
    outages: &Outages,
) -> Result<Option<(usize, Prefix)>, AllocError>
    ensures found { IfOk result (λ found. IfSome found (λ at. IsUnhealed outages.now lab.now at.0 at.1)) }
    ensures none { IfOk result (λ found. found ≡ None → HasHealed outages.now lab.now) }
{
    for router in 0..lab.routers() {
        if let Some(prefix) = first_unhealed_at(alloc, lab, outages, router)? {
            return Ok(Some((router, prefix)));
        }
    }
    Ok(None)
}

impl Course {
    /// A line that expects that the network has healed.
    pub fn expect_healed(&self) -> Outcome
        ensures { OnOk result (HasHealed self.now.outages (value_of self.now.site)) }
    {
        let lab = self.site.running();
        let Some((router, prefix)) = first_unhealed(self.alloc, lab, &self.outages)? else {
            return Ok(());
        };
        let found = lab.router(router).and_then(|at| at.routes().get(&prefix));
        let found = found.map(|route| route.metric());
        Err(Stop::Unmet(Unmet::Healed {
            router,
            prefix,
            found,
        }))
    }
}
