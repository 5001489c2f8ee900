//! Timeout and garbage collection of one route (RFC 2080, section 2.3).

ghost use Rattle.std.specs.Prelude.{◌≡◌};
ghost use Rattle.router_core.specs.Ageing.{aged};

use crate::timers::GARBAGE_TIME_MS;
use route_table::{Clock, Moment, Route};

/// What is left of a route at a moment: `None` once garbage collection is over.
pub fn age(route: Route, now: Moment) -> Option<Route>
    ensures { result ≡ aged now route }
{
    let clock = route.clock();
    match clock {
        // A local route has no timers.
        Clock::Fixed => Some(route),
        Clock::Live(until) => {
            // At its timeout a route gets metric 16 and its route change flag, and the garbage-collection timer starts. It
            // stays in the table until that ends, so that neighbors learn of its end (section 2.3).
            if until.reached(now) {
                Some(route.lost(now.later(GARBAGE_TIME_MS)))
            } else {
                Some(route)
            }
        }
        Clock::Dying(until) => {
            // When the garbage-collection timer ends, the route is deleted (section 2.3).
            if until.reached(now) {
                None
            } else {
                Some(route)
            }
        }
    }
}
