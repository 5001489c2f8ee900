//! What an offer does to the route to its prefix: the rules of adoption (RFC 2080, section 2.4.2). The row of the table of
//! adoption that applies is [`crate::Reason`], and the lemma [`crate::adopted_by_row`] joins the two.

ghost use Rattle.std.specs.Prelude.{◌≡◌, ◌≤◌, ◌<◌, IsTrue, None, Some};
ghost use Rattle.router_core.specs.Common.{IsRoute, infinity, Live, metric_through, is_reachable, taken, refreshed, is_through, is_repeated, is_preferred, adopted_by_clock, adopted, Gateway as GatewayValue, Offer as OfferValue};
ghost use Rattle.router_core.specs.Changes.{forward};
ghost use Rattle.fib.specs.Forwarding.{same_forward};

use crate::forwarding::forward;
use crate::timers::{GARBAGE_TIME_MS, HALF_TIMEOUT_MS, TIMEOUT_MS};
use prefix6::Addr6;
use route_table::{Clock, Deadline, INFINITY, Moment, Origin, Route};
use std::marker::Model;

/// The neighbor that sends offers, as a route sees it: interface, cost and address, and the moment of arrival.
#[derive(Clone, Copy)]
pub struct Gateway {
    /// The number of the interface of arrival, from 0.
    pub iface: usize,
    /// The cost of that interface, below 16 hops.
    pub cost: u8,
    /// The sender's link-local address.
    pub from: Addr6,
    /// When the offers came.
    pub moment: Moment,
}

impl Model for Gateway {
    ghost Value = { GatewayValue };

    ghost view = { λ g. record { iface = g.iface; cost = g.cost; from = g.from; moment = g.moment } };

    ghost invariant = { λ g. g.cost < infinity };

    ghost inverse = { λ v. record { iface = v.iface; cost = v.cost; from = v.from; moment = v.moment } };
}

/// A route that a neighbor advertises.
#[derive(Drop)]
pub struct Offer {
    /// 1 to 16 hops, without the cost of the interface.
    pub metric: u8,
    /// The route tag, which is kept as it comes (RFC 2080, section 2.1).
    pub tag: u16,
    /// Where packets would go, on the interface of arrival.
    pub next_hop: Addr6,
    /// The place of the entry in the Response, from 0.
    pub place: usize,
}

impl Model for Offer {
    ghost Value = { OfferValue };

    ghost view = { λ o. record { metric = o.metric; tag = o.tag; next_hop = o.next_hop; place = o.place } };

    ghost invariant = { λ o. (1 ≤ o.metric) × (o.metric ≤ infinity) };
}

impl Gateway {
    /// The metric of the offer here: the cost of the interface is added, up to 16 (RFC 2080, section 2.4.2).
    pub fn metric_through(&self, offer: &Offer) -> u8
        ensures value { result ≡ metric_through self.now offer.now }
        ensures positive { 1 ≤ result }
        ensures in_range { result ≤ infinity }
    {
        (offer.metric + self.cost).min(INFINITY)
    }

    /// The route through this gateway: its timeout starts, and its route change flag is set (RFC 2080, section 2.4.2).
    fn take(&self, offer: &Offer) -> Route
        requires { metric_through self.now offer.now < infinity }
        ensures { result ≡ taken self.now offer.now }
    {
        let origin = Origin::Learned {
            iface: self.iface,
            from: self.from,
            next_hop: offer.next_hop,
        };
        Route::live(
            self.metric_through(offer),
            offer.tag,
            origin,
            self.moment.later(TIMEOUT_MS),
        )
    }

    /// Whether a route was learned from this gateway: same interface and same sender.
    pub fn is_through(&self, origin: Origin) -> bool
        ensures { result ≡ is_through self.now origin }
    {
        match origin {
            Origin::Own => false,
            Origin::Learned { iface, from, .. } => iface == self.iface && from == self.from,
        }
    }

    /// Whether the offer repeats the route: same metric, tag and next hop.
    fn is_repeated(&self, offer: &Offer, route: Route) -> bool
        ensures { result ≡ is_repeated self.now offer.now route }
    {
        let has_next_hop = match route.origin() {
            Origin::Own => false,
            Origin::Learned { next_hop, .. } => next_hop == offer.next_hop,
        };
        route.metric() == self.metric_through(offer) && route.tag() == offer.tag && has_next_hop
    }

    /// A valid route after its own gateway has advertised the prefix again.
    fn refresh(&self, offer: &Offer, route: Route) -> Route
        ensures { result ≡ refreshed self.now offer.now route }
    {
        // News from the gateway of a route is taken whether better or worse, and restarts the timeout. The route change flag is
        // set if something differs. With metric 16 garbage collection begins (RFC 2080, section 2.4.2).
        if self.metric_through(offer) < INFINITY {
            let is_changed = route.is_changed() || !self.is_repeated(offer, route);
            self.take(offer).with_mark(is_changed)
        } else {
            route.lost(self.moment.later(GARBAGE_TIME_MS))
        }
    }

    /// Whether the offer is preferred to a valid route of another gateway.
    fn is_preferred(&self, offer: &Offer, metric: u8, until: Deadline) -> bool
        ensures { result ≡ is_preferred self.now offer.now metric until }
    {
        // A lower metric wins at once. An equal one wins only if the route is at least halfway to its timeout: the optional
        // heuristic of RFC 2080, section 2.4.2. So a gateway that may have failed is left before the timeout.
        let offered = self.metric_through(offer);
        offered < metric || (offered == metric && until <= self.moment.later(HALF_TIMEOUT_MS))
    }

    /// A valid route, learned and not timed out, after the offer.
    fn adopt_live(&self, offer: &Offer, route: Route, until: Deadline) -> Route
        requires { route.clock ≡ Live until }
        ensures { result ≡ adopted_by_clock self.now offer.now route (Live until) }
    {
        if self.is_through(route.origin()) {
            self.refresh(offer, route)
        } else if self.is_preferred(offer, route.metric(), until) {
            self.take(offer)
        } else {
            // An offer that is no better than the route is ignored (section 2.4.2).
            route
        }
    }

    /// Whether the offer repeats a valid route of its own gateway. Then only the timeout starts anew.
    fn is_renewal(&self, offer: &Offer, route: &Route) -> bool
        ensures lawful { IsRoute route.now }
        ensures usable { IsTrue result → metric_through self.now offer.now < infinity }
        ensures same { IsTrue result → route.now ≡ record (taken self.now offer.now) { clock = route.now.clock; changed = route.now.changed } }
    {
        match route.origin() {
            Origin::Own => false,
            Origin::Learned {
                iface,
                from,
                next_hop,
            } => {
                let metric = self.metric_through(offer);
                metric < INFINITY
                    && route.metric() == metric
                    && route.tag() == offer.tag
                    && iface == self.iface
                    && from == self.from
                    && next_hop == offer.next_hop
            }
        }
    }

    /// Whether the offer is of another gateway, and unreachable or worse than the route: the route then stays as it is (section 2.4.2).
    /// Most offers on a link of many routers are so: their routes lead back over it, and come at metric 16.
    fn is_ignored(&self, offer: &Offer, route: &Route) -> bool
        ensures { IsTrue result → adopted_by_clock self.now offer.now route.now route.now.clock ≡ route.now }
    {
        let offered = self.metric_through(offer);
        (route.metric() < offered || offered >= INFINITY) && !self.is_through(route.origin())
    }

    /// What the offer makes of the route to its prefix. The result says whether the forwarding entry stays the same.
    pub fn adopt(&self, offer: &Offer, route: &mut Route) -> bool
        ensures route { route.new ≡ adopted_by_clock self.now offer.now route.old route.old.clock }
        ensures entry { result ≡ same_forward (forward route.old) (forward route.new) }
    {
        if self.is_ignored(offer, route) {
            return true;
        }
        if self.is_renewal(offer, route) {
            *route = route.renewed(self.moment.later(TIMEOUT_MS));
            return true;
        }
        let before = *route;
        *route = self.adopt_by_clock(offer, before);
        forward(Some(before)) == forward(Some(*route))
    }

    /// The route after the offer, where one is held.
    pub fn adopt_by_clock(&self, offer: &Offer, route: Route) -> Route
        ensures { result ≡ adopted_by_clock self.now offer.now route route.clock }
    {
        let clock = route.clock();
        match clock {
            // A local route is never replaced by a learned one.
            Clock::Fixed => route,
            Clock::Live(until) => self.adopt_live(offer, route, until),
            // A usable offer replaces a route that is being garbage-collected, from any gateway (section 2.3). Metric 16 once
            // more does not restart the garbage-collection timer (section 2.4.2).
            Clock::Dying(_) => {
                if self.metric_through(offer) < INFINITY {
                    self.take(offer)
                } else {
                    route
                }
            }
        }
    }

    /// The first route to a prefix, if the offer gives one. An unreachable prefix is not added (section 2.4.2).
    pub fn adopt_first(&self, offer: &Offer) -> Option<Route>
        ensures { result ≡ adopted self.now None offer.now }
    {
        if self.metric_through(offer) < INFINITY {
            Some(self.take(offer))
        } else {
            None
        }
    }
}
