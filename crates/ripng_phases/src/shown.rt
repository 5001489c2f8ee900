//! What all routers of a network hold, as scripts print it: each route without its clock and its route change flag.

ghost use Rattle.std.specs.Prelude.{◌≡◌, ◌++◌, IfOk, OnOk, length, map};
ghost use Rattle.ripng_phases.specs.Common.{shown_below, shown_route};
ghost use Rattle.std.specs.FinMap as map_of;

use prefix6::Prefix;
use ripng_world::Lab;
use route_table::{Origin, RouteStore};
use router_core::Router;
use std::alloc::{AllocError, Global};

/// A route of a router, without its clock and its route change flag.
#[derive(Clone, Copy, Debug, PartialEq, Eq)]
pub struct ShownRoute {
    pub router: usize,
    pub prefix: Prefix,
    pub metric: u8,
    pub tag: u16,
    pub origin: Origin,
}

/// The routes of the router with that number are shown after others.
fn show<S: RouteStore>(
    alloc: Global,
    number: usize,
    router: &Router<S>,
    shown: &mut Vec<ShownRoute>,
) -> Result<(), AllocError>
    ensures { OnOk result (shown.new.items ≡ shown.old.items ++ map (shown_route number) (map_of.entries router.now.table)) }
{
    let mut routes = Vec::with_capacity(alloc, router.routes().len())?;
    router.routes().list(&mut routes);
    for (prefix, route) in &routes {
        shown.push(ShownRoute {
            router: number,
            prefix: *prefix,
            metric: route.metric(),
            tag: route.tag(),
            origin: route.origin(),
        })?;
    }
    Ok(())
}

/// What all routers hold, router by router, each in the order of prefixes.
pub fn shown_routes<S: RouteStore>(
    alloc: Global,
    lab: &Lab<S>,
) -> Result<Vec<ShownRoute>, AllocError>
    ensures { IfOk result (λ shown. shown.items ≡ shown_below lab.now.world.states (length lab.now.network)) }
{
    let mut shown = Vec::new(alloc);
    for number in 0..lab.routers() {
        if let Some(router) = lab.router(number) {
            show(alloc, number, router, &mut shown)?;
        }
    }
    Ok(shown)
}
