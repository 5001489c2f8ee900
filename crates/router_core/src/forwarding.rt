//! The changes of forwarding entries that follow from changes of routes.

ghost use Rattle.std.specs.Prelude.{◌≡◌, option_map, option_and_then};
ghost use Rattle.fib.specs.Forwarding.{change_to};
ghost use Rattle.router_core.specs.Changes.{hop_of, forward, change};

use fib::{Hop, RouteChange};
use prefix6::Prefix;
use route_table::{INFINITY, Origin, Route};

/// Where packets go by a route of this origin.
fn hop_of(origin: Origin) -> Hop
    ensures { result ≡ hop_of origin }
{
    match origin {
        Origin::Own => Hop::Direct,
        Origin::Learned {
            iface,
            next_hop,
            ..
        } => Hop::Via { iface, next_hop },
    }
}

/// Hop and metric of a route, if it is reachable. An unreachable one is advertised still, but not used (RFC 2080, section 2.3).
pub fn forward(route: Option<Route>) -> Option<(Hop, u8)>
    ensures { result ≡ option_map (λ f. (f.hop, f.metric)) (option_and_then forward route) }
{
    let route = route?;
    if route.metric() < INFINITY {
        Some((hop_of(route.origin()), route.metric()))
    } else {
        None
    }
}

/// The change after which a prefix has this hop and metric, or no entry.
pub fn change_to(prefix: Prefix, after: Option<(Hop, u8)>) -> RouteChange
    ensures { result ≡ change_to prefix (option_map (λ f. record { hop = f.0; metric = f.1 }) after) }
{
    match after {
        Some((hop, metric)) => RouteChange::Install {
            prefix,
            hop,
            metric,
        },
        None => RouteChange::Withdraw { prefix },
    }
}

/// The change of a prefix's forwarding entry from one route to another, if the entry differs.
pub fn change(prefix: Prefix, old: Option<Route>, new: Option<Route>) -> Option<RouteChange>
    ensures { result ≡ change prefix old new }
{
    let before = forward(old);
    let after = forward(new);
    if before == after {
        None
    } else {
        Some(change_to(prefix, after))
    }
}
