//! Which of the tests of a router a datagram of a capture fails, as far as it tells by itself (RFC 2080, sections 2.4.1 and 2.4.2).

ghost use Rattle.std.specs.Prelude.{◌≡◌, ℕ, IfOk, false};
ghost use Rattle.std.specs.Result.{result_err};
ghost use Rattle.ripng_wire.specs.Layout.{Spells};
ghost use Rattle.ripng_wire.specs.Wire.{first_reason};
ghost use Rattle.ripng_capture.specs.Packets.{PacketValue};
ghost use Rattle.router_core.specs.Config.{Config, is_own_address};
ghost use Rattle.router_core.specs.Faults.{asker_reasons, fault};
ghost use Rattle.ripng_show.specs.Judged.{arrived, fault_alone, request_reasons, response_reasons, sender_reasons};

use prefix6::Addr6;
use ripng_capture::Packet;
use ripng_wire::{Command, Datagram, decode};
use router_core::{Fault, MAX_HOP_LIMIT, RIPNG_PORT};

/// FF02::9, the group of all RIPng routers (RFC 2080, section 2.5).
const GROUP: u128 = (0xff02 << 112) | 9;

/// The bytes of a datagram without entries.
const EMPTY_LEN: usize = 4;

/// The datagram that a packet holds, or the first reason for a router to refuse it. One test is left out, which the packet does not
/// tell: whether its source is an address of the router. A packet to a port other than that of RIPng goes to no router, so only its
/// bytes are tested.
pub(crate) fn judged<'a>(packet: &Packet<'a>) -> Result<Datagram<'a>, Fault>
    ensures fault { result_err result ≡ fault_alone packet.now }
    ensures read { IfOk result (λ d. Spells d.command d.entries packet.now.payload) }
{
    let datagram = match decode(packet.payload) {
        Ok(datagram) => datagram,
        Err(error) => return Err(Fault::Wire(error)),
    };
    if packet.destination_port != RIPNG_PORT {
        return Ok(datagram);
    }
    match datagram.command() {
        Command::Response => check_response(packet)?,
        Command::Request => check_request(packet)?,
    }
    Ok(datagram)
}

fn check_response(packet: &Packet<'_>) -> Result<(), Fault>
    ensures { result_err result ≡ first_reason (response_reasons packet.now) }
{
    if packet.source_port != RIPNG_PORT {
        return Err(Fault::NotRipngPort);
    }
    check_neighbor(packet)
}

fn check_request(packet: &Packet<'_>) -> Result<(), Fault>
    ensures { result_err result ≡ first_reason (request_reasons packet.now) }
{
    if packet.payload.len() == EMPTY_LEN {
        Err(Fault::EmptyRequest)
    } else if packet.source_port == RIPNG_PORT {
        check_neighbor(packet)
    } else {
        check_asker(packet)
    }
}

/// The first reason to doubt that the sender is a router of the same link.
fn check_neighbor(packet: &Packet<'_>) -> Result<(), Fault>
    ensures { result_err result ≡ first_reason (sender_reasons packet.now) }
{
    if !packet.source.is_link_local() {
        Err(Fault::NotLinkLocal)
    } else if packet.destination == Addr6::from_bits(GROUP) && packet.hop_limit != MAX_HOP_LIMIT {
        Err(Fault::HopLimit)
    } else {
        Ok(())
    }
}

/// The first reason not to reply to a query of a management tool.
fn check_asker(packet: &Packet<'_>) -> Result<(), Fault>
    ensures { result_err result ≡ first_reason (asker_reasons (arrived packet.now 0 0)) }
{
    if packet.source.is_multicast() || packet.source.is_unspecified() || packet.source_port == 0 {
        Err(Fault::BadSource)
    } else {
        Ok(())
    }
}

/// A packet to the port of RIPng is judged as a router judges it that does not have its source among its own addresses.
pub fn packets_are_judged_as_by_routers()
    ensures { (p : PacketValue) (config : Config) (now iface : ℕ) → p.destination_port ≡ RIPNG_PORT → is_own_address config iface p.source ≡ false
        → fault_alone p ≡ fault config (arrived p now iface) }
{}
