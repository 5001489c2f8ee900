//! The offers of a Response, for a caller that explains why a router adopts what it adopts (RFC 2080, section 2.4.2).

ghost use Rattle.std.specs.Prelude.{◌≡◌, IfOk};
ghost use Rattle.router_core.specs.Common.{adopted, metric_through, reason, all_offered, Offered as OfferedValue};

use crate::adopt::{Gateway, Offer};
use crate::config::RouterConfig;
use crate::entries::{judge, usable_hop};
use crate::reason::Reason;
use prefix6::{Addr6, Prefix};
use ripng_wire::{NEXT_HOP_METRIC, Rtes};
use route_table::Route;
use std::alloc::{AllocError, Global};
use std::marker::Model;

/// An offer for a prefix, from its gateway.
#[derive(Drop)]
pub struct Offered {
    gateway: Gateway,
    prefix: Prefix,
    offer: Offer,
}

impl Model for Offered {
    ghost Value = { OfferedValue };

    ghost view = { λ o. record { gateway = o.gateway; prefix = o.prefix; offer = o.offer } };
}

impl Offered {
    /// The place of the entry in the Response, from 0.
    pub fn place(&self) -> usize
        ensures { result ≡ self.now.offer.place }
    {
        self.offer.place
    }

    /// The prefix that it is for.
    pub fn prefix(&self) -> Prefix
        ensures { result ≡ self.now.prefix }
    {
        self.prefix
    }

    /// Its metric here, 1 to 16 hops, with the cost of the interface that it came on.
    pub fn metric(&self) -> u8
        ensures { result ≡ metric_through self.now.gateway self.now.offer }
    {
        self.gateway.metric_through(&self.offer)
    }

    /// Its route tag.
    pub fn tag(&self) -> u16
        ensures { result ≡ self.now.offer.tag }
    {
        self.offer.tag
    }

    /// Where packets would go, on the interface that it came on.
    pub fn next_hop(&self) -> Addr6
        ensures { result ≡ self.now.offer.next_hop }
    {
        self.offer.next_hop
    }

    /// The row of the table of adoption that it falls under, given the route to its prefix that is held when it comes.
    pub fn reason_of(&self, held: Option<Route>) -> Reason
        ensures { result ≡ reason self.now.gateway held self.now.offer }
    {
        self.gateway.reason(held, &self.offer)
    }

    /// The route that is held afterwards, if there is room for a first route: the next offer for the prefix meets it.
    pub fn adopted(&self, held: Option<Route>) -> Option<Route>
        ensures { result ≡ adopted self.now.gateway held self.now.offer }
    {
        match held {
            Some(route) => Some(self.gateway.adopt_by_clock(&self.offer, route)),
            None => self.gateway.adopt_first(&self.offer),
        }
    }
}

/// The offers of a Response, in the order of its entries. An entry with a flaw of its own offers nothing. What the interface does not
/// take, or the table has no room for, is among them: the answer of the step has a note on it.
///
/// # Errors
/// Only out of memory.
pub fn all_offered(
    alloc: Global,
    config: &RouterConfig,
    gateway: &Gateway,
    entries: Rtes<'_>,
) -> Result<Vec<Offered>, AllocError>
    ensures { IfOk result (λ v. v.items ≡ all_offered config.now gateway.now entries.entry) }
{
    let mut all = Vec::with_capacity(alloc, entries.len())?;
    let mut next_hop = gateway.from;
    for (place, entry) in entries.enumerate() {
        // Metric 255 sets the next hop of the entries that follow (RFC 2080, section 2.1.1).
        if entry.metric == NEXT_HOP_METRIC {
            next_hop = usable_hop(config, gateway.from, &entry);
            continue;
        }
        // An entry that fails a test is ignored, and the next one is processed (section 2.4.2).
        let Ok(prefix) = judge(&entry) else {
            continue;
        };
        all.push(Offered {
            gateway: *gateway,
            prefix,
            offer: Offer {
                metric: entry.metric,
                tag: entry.tag,
                next_hop,
                place,
            },
        })?;
    }
    Ok(all)
}
