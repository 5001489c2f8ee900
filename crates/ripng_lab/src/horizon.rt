//! Horizons: what a router advertises on the link on which it learned a route. RIPng has split horizon with poisoned reverse; a router
//! without it is no router of RIPng, and nothing is promised of its network.

ghost use Rattle.std.specs.Prelude.{IfSome};
ghost use Rattle.ripng_lab.specs.Common.{IsDelivery, event_of};

use crate::{Course, Network, addr_at};
use prefix6::{Addr6, Prefix};
use ripng_wire::{Command, Rte, decode, encode};
use ripng_world::{Event, Sent};
use route_table::{Origin, RouteStore};
use router_core::{Arrival, Destination, MAX_HOP_LIMIT, RIPNG_PORT};
use std::alloc::{AllocError, Global};

/// What a router advertises of a route on the link on which it learned it.
#[derive(Clone, Copy, Debug, PartialEq, Eq)]
pub enum Horizon {
    /// The route as it is.
    None,
    /// Nothing: split horizon.
    Split,
    /// Metric 16: split horizon with poisoned reverse, as RIPng has it (RFC 2080, section 2.6).
    Poison,
}

/// What each is called.
pub const HORIZONS: [(&str, Horizon); 3] = [
    ("none", Horizon::None),
    ("split", Horizon::Split),
    ("poison", Horizon::Poison),
];

/// A Response that comes in place of a datagram.
#[derive(Drop)]
pub struct Advert {
    pub datagram: usize,
    /// The router that sent it.
    pub router: usize,
    /// The address of the interface that sent it.
    source: Addr6,
    /// Its bytes; if there are none, nothing is delivered.
    pub bytes: Vec<u8>,
}

impl Advert {
    /// What comes in place of the datagrams from a number on, of routers with another horizon. Their tables are as they were when these
    /// were sent.
    pub fn all_from(course: &Course, first: usize) -> Result<Vec<Advert>, AllocError> {
        let (alloc, lab) = (course.alloc, course.site.running());
        let mut adverts = Vec::new(alloc);
        if course.horizons.is_empty() {
            return Ok(adverts);
        }
        for (datagram, sent) in lab.sent().iter().enumerate().skip(first) {
            let router = sent.router;
            if let Some((_, horizon)) = course.horizons.iter().find(|(other, _)| *other == router)
                && let Some(sender) = lab.router(router)
                && let Some(source) = addr_at(lab, router, sent.iface)
                && let Some(bytes) = bytes_by(alloc, *horizon, sender.routes(), sent)?
            {
                adverts.push(Advert {
                    datagram,
                    router,
                    source,
                    bytes,
                })?;
            }
        }
        Ok(adverts)
    }

    /// What comes to the router of a delivery, if it accepts that.
    pub fn accepted<'b>(&'b self, lab: &Network, event: &Event<'_>) -> Option<Arrival<'b>>
        ensures { IfSome result (λ arrival. IsDelivery arrival.now (event_of event.entry.now)) }
    {
        let &Event::Deliver { iface, now, .. } = event else {
            return None;
        };
        let arrival = Arrival {
            now,
            iface,
            source: self.source,
            source_port: RIPNG_PORT,
            hop_limit: MAX_HOP_LIMIT,
            to_group: true,
            bytes: self.bytes.as_slice(),
        };
        lab.check_lie(event.router(), &arrival).ok()?;
        Some(arrival)
    }
}

/// What a router with that table and horizon sends in place of a datagram: empty if it sends nothing, `None` if the datagram stays.
fn bytes_by<S: RouteStore>(
    alloc: Global,
    horizon: Horizon,
    table: &S,
    sent: &Sent,
) -> Result<Option<Vec<u8>>, AllocError> {
    let Ok(message) = decode(sent.bytes.as_slice()) else {
        return Ok(None);
    };
    if sent.to != Destination::Group || message.command() != Command::Response {
        return Ok(None);
    }
    let mut entries = Vec::new(alloc);
    for entry in message.entries() {
        if let Some(told) = entry_by(horizon, table, sent.iface, entry) {
            entries.push(told)?;
        }
    }
    if entries.is_empty() {
        return Ok(Some(Vec::new(alloc)));
    }
    let bytes = encode(alloc, Command::Response, &entries)?;
    Ok(Some(bytes).filter(|bytes| bytes.as_slice() != sent.bytes.as_slice()))
}

/// What a router with that horizon, which is not RIPng's, advertises on an interface in place of an entry: another metric, or nothing, of
/// a route that it learned there.
fn entry_by<S: RouteStore>(horizon: Horizon, table: &S, learned: usize, entry: Rte) -> Option<Rte> {
    if !entry.is_next_hop()
        && let Ok(prefix) = Prefix::new(Addr6::from_bits(entry.addr), entry.len)
        && let Some(route) = table.get(&prefix)
        && let Origin::Learned { iface, .. } = route.origin()
        && iface == learned
    {
        let metric = route.metric();
        return (horizon != Horizon::Split).then_some(Rte { metric, ..entry });
    }
    Some(entry)
}
