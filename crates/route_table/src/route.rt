//! Routes and their timers (RFC 2080, sections 2.2 and 2.3).

ghost use Rattle.std.specs.Prelude.{◌≡◌, ◌≤◌, ◌<◌, true, false};
ghost use Rattle.route_table.specs.Route.{IsRoute, infinity, is_own, deadline};

use crate::moment::Deadline;
use prefix6::Addr6;
use std::marker::Model;

/// The metric that means unreachable, in hops (RFC 2080, section 2.1).
pub const INFINITY: u8 = 16;

/// Where a route comes from.
#[derive(Clone, Copy, Debug, PartialEq, Eq)]
pub enum Origin {
    /// A prefix of the router itself: the route is local.
    Own,
    /// A Response. Its interface and its sender together are the route's gateway.
    Learned {
        /// The number of the interface on which the Response came, from 0.
        iface: usize,
        /// The link-local address of the router that sent it.
        from: Addr6,
        /// Where packets go, on that interface.
        next_hop: Addr6,
    },
}

/// The timer of a route (RFC 2080, section 2.3).
#[derive(Clone, Copy, Debug, PartialEq, Eq)]
pub enum Clock {
    /// No timer: the route is local and valid.
    Fixed,
    /// The timeout: the route is valid, and is withdrawn at the deadline unless its gateway advertises it again.
    Live(Deadline),
    /// The garbage-collection timer: the route is unreachable, and is deleted at the deadline.
    Dying(Deadline),
}

/// A route to a prefix (RFC 2080, section 2.2). Its metric is 1 to 15 hops, or 16 while it is garbage-collected. A local route has
/// metric 1 and no timer; once the router no longer owns the prefix, it is garbage-collected too. So origin and metric tell which
/// timer runs, and only its deadline is kept. The order of the fields leaves no gaps in memory.
#[derive(Clone, Copy, Debug, PartialEq, Eq)]
pub struct Route {
    metric: u8,
    changed: bool,
    tag: u16,
    until: Deadline,
    origin: Origin,
}

impl Model for Route {
    ghost use Rattle.route_table.specs.Route.{RouteValue, IsRoute, clock_of, until_of};
    ghost use Rattle.std.specs.Prelude.{◌≡◌};

    ghost Value = { RouteValue };

    ghost view = { λ r. record {
      metric = r.metric;
      tag = r.tag;
      origin = r.origin;
      clock = clock_of r.origin r.metric r.until;
      changed = r.changed;
    } };

    ghost invariant = { λ r. record {
      route : IsRoute (record {
        metric = r.metric;
        tag = r.tag;
        origin = r.origin;
        clock = clock_of r.origin r.metric r.until;
        changed = r.changed;
      });
      until : until_of (clock_of r.origin r.metric r.until) ≡ r.until;
    } };

    ghost inverse = { λ v. record {
      metric = v.metric;
      changed = v.changed;
      tag = v.tag;
      until = until_of v.clock;
      origin = v.origin;
    } };

    ghost inverse_ok = { λ r h i. record {
      metric = r.metric;
      changed = r.changed;
      tag = r.tag;
      until = h.until i;
      origin = r.origin;
    } };
}

impl Route {
    /// The local route to a prefix of the router: metric 1, no timer, and its route change flag not set.
    pub fn own(tag: u16) -> Route
        ensures { result ≡ record {
          metric = 1;
          tag = tag;
          origin = Origin.Own;
          clock = Clock.Fixed;
          changed = false;
        } }
    {
        Route {
            metric: 1,
            changed: false,
            tag,
            until: Deadline::zero(),
            origin: Origin::Own,
        }
    }

    /// A learned route of a usable metric, 1 to 15 hops, valid until a deadline. Its route change flag is set.
    pub fn live(metric: u8, tag: u16, origin: Origin, until: Deadline) -> Route
        requires positive { 1 ≤ metric }
        requires usable { metric < infinity }
        requires learned { is_own origin ≡ false }
        ensures { result ≡ record {
          metric = metric;
          tag = tag;
          origin = origin;
          clock = Clock.Live until;
          changed = true;
        } }
    {
        Route {
            metric,
            changed: true,
            tag,
            until,
            origin,
        }
    }

    /// The same route, withdrawn: unreachable, to be deleted at a deadline, and with its route change flag set. Its tag and origin
    /// stay (RFC 2080, section 2.3).
    pub fn lost(self, until: Deadline) -> Route
        ensures { result ≡ record self {
          metric = infinity;
          clock = Clock.Dying until;
          changed = true;
        } }
    {
        Route {
            metric: INFINITY,
            changed: true,
            until,
            ..self
        }
    }

    /// The same route, a valid learned one, with another end of its timeout (RFC 2080, section 2.3).
    pub fn renewed(self, until: Deadline) -> Route
        requires learned { is_own self.origin ≡ false }
        requires usable { self.metric < infinity }
        ensures { result ≡ record self { clock = Clock.Live until } }
    {
        Route { until, ..self }
    }

    /// The same route, with its route change flag set or not.
    pub fn with_mark(self, changed: bool) -> Route
        ensures { result ≡ record self { changed = changed } }
    {
        Route { changed, ..self }
    }

    /// The metric in hops, 1 to 15, or 16 if the prefix is unreachable.
    pub fn metric(&self) -> u8
        ensures value { result ≡ self.now.metric }
        ensures lawful { IsRoute self.now }
    {
        self.metric
    }

    /// The route tag, which routers keep and advertise unchanged (RFC 2080, section 2.1).
    pub fn tag(&self) -> u16
        ensures { result ≡ self.now.tag }
    {
        self.tag
    }

    /// Where the route comes from.
    pub fn origin(&self) -> Origin
        ensures value { result ≡ self.now.origin }
        ensures lawful { IsRoute self.now }
    {
        self.origin
    }

    /// The timer of the route.
    pub fn clock(&self) -> Clock
        ensures value { result ≡ self.now.clock }
        ensures lawful { IsRoute self.now }
    {
        if self.metric == INFINITY {
            return Clock::Dying(self.until);
        }
        match self.origin {
            Origin::Own => Clock::Fixed,
            Origin::Learned { .. } => Clock::Live(self.until),
        }
    }

    /// The deadline of the route's timer, if it has one.
    pub fn deadline(&self) -> Option<Deadline>
        ensures { result ≡ deadline self.now }
    {
        let clock = self.clock();
        match clock {
            Clock::Fixed => None,
            Clock::Live(until) | Clock::Dying(until) => Some(until),
        }
    }

    /// The route change flag: whether the next triggered update advertises the route (RFC 2080, section 2.5.1).
    pub fn is_changed(&self) -> bool
        ensures { result ≡ self.now.changed }
    {
        self.changed
    }
}
