//! The limit of an interface, and how many routes go by way of it: counted at the beginning of a Response, and from there on.

ghost use Rattle.std.specs.Prelude.{◌≡◌, ◌+◌, ◌<◌, ◌&&◌, not, IfOk, IfSome, IsTrue};
ghost use Rattle.router_core.specs.Common.{result_err, adopted, brings, held_by, is_by, is_learned_on, limit_at, limit_refusal, meeting};

use crate::adopt::{Gateway, Offer};
use crate::answer::NoteKind;
use crate::config::RouterConfig;
use prefix6::Prefix;
use route_table::{INFINITY, Origin, Route, RouteStore};

/// Whether a route of this origin goes by way of an interface.
fn is_learned_on(iface: usize, origin: Origin) -> bool
    ensures { result ≡ is_learned_on iface origin }
{
    match origin {
        Origin::Own => false,
        Origin::Learned {
            iface: learned_on,
            ..
        } => learned_on == iface,
    }
}

/// Whether an offer brings a route by way of the gateway's interface to a prefix that has none by it, given the route that is held.
fn brings(gateway: &Gateway, offer: &Offer, held: Option<Route>) -> bool
    ensures { result ≡ (not (is_by gateway.now.iface held) && is_by gateway.now.iface (adopted gateway.now held offer.now)) }
{
    match held {
        None => gateway.metric_through(offer) < INFINITY,
        Some(route) => {
            let after = gateway.adopt_by_clock(offer, route);
            !is_learned_on(gateway.iface, route.origin())
                && is_learned_on(gateway.iface, after.origin())
        }
    }
}

/// How many routes a table holds by way of an interface.
fn held_by<S: RouteStore>(store: &S, iface: usize) -> usize
    ensures { result ≡ held_by iface (S.table store.now) }
{
    let mut held = 0;
    let mut after = None;
    for _ in 0..store.len() {
        let Some(entry) = store.walk(after) else {
            return held;
        };
        if is_learned_on(iface, entry.1.origin()) {
            held += 1;
        }
        after = Some(entry.0);
    }
    held
}

/// The limit of an interface, if it has one, and how many routes the table holds by way of it. Where there is no limit nothing is
/// counted.
#[derive(Drop)]
pub struct Quota {
    limit: Option<usize>,
    held: usize,
}

impl Quota {
    /// The quota of an interface at the beginning of a Response.
    pub fn new<S: RouteStore>(store: &S, config: &RouterConfig, iface: usize) -> Quota
        ensures limit { result.limit ≡ limit_at config.now iface }
        ensures held { IfSome result.limit (λ n. result.held ≡ held_by iface (S.table store.now)) }
    {
        let limit = config.limit_at(iface);
        let held = match limit {
            Some(_) => held_by(store, iface),
            None => 0,
        };
        Quota { limit, held }
    }

    /// Whether an offer brings a route more by way of the interface, which is to be counted once it is taken.
    ///
    /// # Errors
    /// `LimitReached`: it does, and the table holds as many as it may.
    pub fn admit<S: RouteStore>(
        &self,
        store: &S,
        gateway: &Gateway,
        prefix: Prefix,
        offer: &Offer,
    ) -> Result<bool, NoteKind>
        ensures refused { result_err result ≡ limit_refusal (meeting gateway.now offer.now prefix (S.table store.now)) self.now.limit self.now.held }
        ensures room { IfOk result (λ more. IsTrue more → IfSome self.now.limit (λ n. self.now.held < n)) }
        ensures counted { IfOk result (λ more. IfSome self.now.limit (λ n.
            more ≡ brings (meeting gateway.now offer.now prefix (S.table store.now)))) }
    {
        let Some(limit) = self.limit else {
            return Ok(false);
        };
        let is_more = brings(gateway, offer, store.get(&prefix));
        if is_more && limit <= self.held {
            return Err(NoteKind::LimitReached);
        }
        Ok(is_more)
    }

    /// A route more is held.
    pub fn count(&mut self)
        ensures limit { self.new.limit ≡ self.old.limit }
        ensures held { IfSome self.old.limit (λ n. self.old.held < n → self.new.held ≡ self.old.held + 1) }
    {
        if self.held < self.limit.unwrap_or(0) {
            self.held += 1;
        }
    }
}
