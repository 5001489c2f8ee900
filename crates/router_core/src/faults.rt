//! Which arrivals are refused, and why (RFC 2080, sections 2.4.1 and 2.4.2). Only the configuration of the
//! router is looked at, and nothing is changed: validation comes before processing.

ghost use Rattle.std.specs.Prelude.{◌≡◌, IfOk};
ghost use Rattle.router_core.specs.Common.{result_err, Spells, first_reason, asker_reasons, fault, neighbor_reasons, request_reasons, response_reasons};

use crate::arrival::{Arrival, Fault, MAX_HOP_LIMIT, RIPNG_PORT};
use crate::config::RouterConfig;
use ripng_wire::{Command, Datagram, decode};

/// The first reason to doubt that the sender is another router of the same link. A Request from port 521 is tested like a
/// Response, since only routers send from there.
fn check_neighbor(config: &RouterConfig, arrival: &Arrival<'_>) -> Result<(), Fault>
    ensures { result_err result ≡ first_reason (neighbor_reasons config.now arrival.entry.now) }
{
    if !arrival.source.is_link_local() {
        // A valid neighbor sends from a link-local address: it becomes the next hop of its routes (section 2.4.2).
        Err(Fault::NotLinkLocal)
    } else if config.is_own_address(arrival.iface, arrival.source) {
        // A router may receive its own multicasts. Processing them as news would confuse it, so they are ignored (2.4.2).
        Err(Fault::OwnAddress)
    } else if arrival.to_group && arrival.hop_limit != MAX_HOP_LIMIT {
        // Updates are sent with hop limit 255, and each router on the way lowers it, so 255 proves a neighbor of the link
        // (2.4.2). Only multicast is tested: queries and their replies may cross routers, so the RFC exempts unicast.
        Err(Fault::HopLimit)
    } else {
        Ok(())
    }
}

/// The first reason to refuse a Response.
fn check_response(config: &RouterConfig, arrival: &Arrival<'_>) -> Result<(), Fault>
    ensures { result_err result ≡ first_reason (response_reasons config.now arrival.entry.now) }
{
    // A Response that is not from the RIPng port must be ignored, since every router sends its updates from there (2.4.2).
    if arrival.source_port != RIPNG_PORT {
        return Err(Fault::NotRipngPort);
    }
    check_neighbor(config, arrival)
}

/// The first reason not to reply to a management query, which comes from any port but 521, and from any address that a reply
/// can reach.
fn check_asker(arrival: &Arrival<'_>) -> Result<(), Fault>
    ensures { result_err result ≡ first_reason (asker_reasons arrival.entry.now) }
{
    if arrival.source.is_multicast()
        || arrival.source.is_unspecified()
        || arrival.source_port == 0
    {
        // The reply goes to the address and port that the Request came from (section 2.4.1). These name no single host.
        Err(Fault::BadSource)
    } else {
        Ok(())
    }
}

/// The first reason to refuse a Request, whose datagram was read.
fn check_request(
    config: &RouterConfig,
    arrival: &Arrival<'_>,
    request: &Datagram<'_>,
) -> Result<(), Fault>
    requires { Spells Command.Request request.now.entries arrival.now.bytes }
    ensures { result_err result ≡ first_reason (request_reasons config.now arrival.entry.now) }
{
    if request.entries().len() == 0 {
        // A Request without entries gets no reply (section 2.4.1).
        Err(Fault::EmptyRequest)
    } else if arrival.source_port == RIPNG_PORT {
        // A router that comes up asks its neighbors from the RIPng port.
        check_neighbor(config, arrival)
    } else {
        // A query may come from another port, and from beyond the link: it is served all the same (section 2.1).
        check_asker(arrival)
    }
}

/// The datagram of an arrival, or the first reason to refuse the arrival. Takes no memory.
pub fn accept<'a>(config: &RouterConfig, arrival: &Arrival<'a>) -> Result<Datagram<'a>, Fault>
    ensures fault { result_err result ≡ fault config.now arrival.entry.now }
    ensures read { IfOk result (λ d. Spells d.command d.entries arrival.entry.now.bytes) }
{
    let datagram = match decode(arrival.bytes) {
        Ok(datagram) => datagram,
        // Malformed bytes are ignored as a whole, whoever sent them (section 2.1).
        Err(error) => return Err(Fault::Wire(error)),
    };
    // The two commands have their own tests (sections 2.4.1 and 2.4.2).
    match datagram.command() {
        Command::Response => check_response(config, arrival)?,
        Command::Request => check_request(config, arrival, &datagram)?,
    }
    Ok(datagram)
}

/// Why an arrival is refused, if it is: the first reason that applies. Takes no memory.
pub fn fault_of(config: &RouterConfig, arrival: &Arrival<'_>) -> Option<Fault>
    ensures { result ≡ fault config.now arrival.entry.now }
{
    accept(config, arrival).err()
}
