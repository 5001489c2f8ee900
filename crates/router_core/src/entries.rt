//! Entries of a Response, each validated by itself (RFC 2080, sections 2.1.1 and 2.4.2).

ghost use Rattle.std.specs.Prelude.{◌≡◌, ◌≤◌, Some, OnOk, IfOk};
ghost use Rattle.router_core.specs.Common.{result_err, IsPrefix, infinity, flaw, prefix_named, usable_hop};

use crate::answer::NoteKind;
use crate::config::RouterConfig;
use prefix6::{Addr6, Prefix};
use ripng_wire::Rte;
use route_table::INFINITY;

/// The prefix that an entry offers a route to, or the first reason to skip the entry.
pub fn judge(entry: &Rte) -> Result<Prefix, NoteKind>
    ensures flaw { result_err result ≡ flaw entry.now }
    ensures prefix { IfOk result (λ p. p ≡ prefix_named entry.now) }
    ensures positive { OnOk result (1 ≤ entry.now.metric) }
    ensures in_range { OnOk result (entry.now.metric ≤ infinity) }
{
    let Ok(prefix) = Prefix::new(Addr6::from_bits(entry.addr), entry.len) else {
        // The prefix length is 0 to 128 bits (RFC 2080, section 2.4.2).
        return Err(NoteKind::BadLength);
    };
    if !prefix.is_routable() {
        // A multicast or link-local prefix is not valid as a destination (section 2.4.2): the latter means another network on
        // each link. The bits past the length are cleared before this is tested.
        Err(NoteKind::BadPrefix)
    } else if !(1..=INFINITY).contains(&entry.metric) {
        // A metric is 1 to 16. With 16 the neighbor withdraws a route, so it is not an error (section 2.4.2).
        Err(NoteKind::BadMetric)
    } else {
        Ok(prefix)
    }
}

/// The next hop that a next hop entry sets: its address if it can be a neighbor's, and otherwise the source.
pub fn usable_hop(config: &RouterConfig, source: Addr6, entry: &Rte) -> Addr6
    ensures { result ≡ usable_hop config.now source (Some entry.now) }
{
    let addr = Addr6::from_bits(entry.addr);
    // A next hop that is not link-local counts as `::`, which means the sender of the Response (RFC 2080, section 2.1.1). Nor
    // does a router forward to itself. A neighbor whose address is the router's own on another link is reached by way of the sender.
    if addr.is_link_local() && !config.is_address_of_one(addr) {
        addr
    } else {
        source
    }
}
