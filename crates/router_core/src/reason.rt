//! Why an offer does what it does to a route: the rows of the table of adoption (RFC 2080, section 2.4.2).

ghost use Rattle.std.specs.Prelude.{◌≡◌};
ghost use Rattle.router_core.specs.Adoption.{reason, reason_by_clock, reason_name, reason_of_other};

use crate::adopt::{Gateway, Offer};
use crate::timers::HALF_TIMEOUT_MS;
use route_table::{Clock, Deadline, INFINITY, Route};

/// The row of the table of adoption that an offer falls under, given the route that is held when it comes.
#[derive(Clone, Copy, Debug, PartialEq, Eq)]
pub enum Reason {
    /// Row 1. No route is held, and the offer is unreachable: nothing is added.
    Nothing,
    /// Row 2. No route is held: the offer is adopted.
    Added,
    /// Row 3. The prefix is the router's own: its local route stays.
    Owned,
    /// Row 4. The gateway of the valid route withdraws it: garbage collection begins.
    GivenUp,
    /// Row 5. The gateway of the valid route advertises it again: the route is refreshed.
    Refreshed,
    /// Row 6. Another gateway has a lower metric: the offer is adopted.
    Cheaper,
    /// Row 7. Another gateway has an equal metric, and half of the timeout has passed: the offer is adopted.
    Older,
    /// Row 8. Another gateway has a higher metric: the route stays.
    Dearer,
    /// Row 9. Another gateway has an equal metric, and half of the timeout has not passed: the route stays.
    Young,
    /// Row 10. The route is being garbage-collected, and the offer is reachable: the offer is adopted.
    Revived,
    /// Row 11. The route is being garbage-collected, and the offer is unreachable: the route stays.
    Gone,
}

impl Reason {
    /// The name of the row, one word.
    pub fn name(self) -> &'static str
        ensures { result.now ≡ reason_name self }
    {
        match self {
            Reason::Nothing => "Nothing",
            Reason::Added => "Added",
            Reason::Owned => "Owned",
            Reason::GivenUp => "GivenUp",
            Reason::Refreshed => "Refreshed",
            Reason::Cheaper => "Cheaper",
            Reason::Older => "Older",
            Reason::Dearer => "Dearer",
            Reason::Young => "Young",
            Reason::Revived => "Revived",
            Reason::Gone => "Gone",
        }
    }
}

impl Gateway {
    /// The row of an offer whose gateway is not that of the valid route.
    fn reason_of_other(&self, offer: &Offer, metric: u8, until: Deadline) -> Reason
        ensures { result ≡ reason_of_other self.now offer.now metric until }
    {
        // A lower metric is adopted at once. An equal one is adopted only once half of the timeout has passed: the heuristic
        // that RFC 2080, section 2.4.2, recommends, since the old gateway may have failed.
        let offered = self.metric_through(offer);
        if offered < metric {
            Reason::Cheaper
        } else if metric < offered {
            Reason::Dearer
        } else if until <= self.moment.later(HALF_TIMEOUT_MS) {
            Reason::Older
        } else {
            Reason::Young
        }
    }

    /// The row of an offer where a route is held.
    fn reason_by_clock(&self, offer: &Offer, route: Route) -> Reason
        ensures { result ≡ reason_by_clock self.now offer.now route route.clock }
    {
        let is_reachable = self.metric_through(offer) < INFINITY;
        let clock = route.clock();
        match clock {
            // A router's own prefix has metric 1 for it, and no neighbor can do better.
            Clock::Fixed => Reason::Owned,
            Clock::Live(until) if !self.is_through(route.origin()) => {
                self.reason_of_other(offer, route.metric(), until)
            }
            // Only the gateway of a route may worsen or withdraw it (section 2.4.2).
            Clock::Live(_) if is_reachable => Reason::Refreshed,
            Clock::Live(_) => Reason::GivenUp,
            // A new route may replace one that is being garbage-collected (section 2.3).
            Clock::Dying(_) if is_reachable => Reason::Revived,
            Clock::Dying(_) => Reason::Gone,
        }
    }

    /// The row that an offer falls under, given the route that is held, if one is.
    pub fn reason(&self, held: Option<Route>, offer: &Offer) -> Reason
        ensures { result ≡ reason self.now held offer.now }
    {
        match held {
            Some(route) => self.reason_by_clock(offer, route),
            None if self.metric_through(offer) < INFINITY => Reason::Added,
            None => Reason::Nothing,
        }
    }
}
