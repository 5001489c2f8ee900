//! The datagram in a frame (RFC 8200, sections 3 and 4; RFC 768).

ghost use Rattle.std.specs.Prelude.{◌≡◌, ◌≤◌, ◌<◌, ◌-◌, ◌/◌, ◌↔◌, ◌⊎◌, ◌||◌, nat_lt, length, take, drop, slice_index, IfOk, OnOk, IsErr, IsTrue};
ghost use Rattle.byteorder.specs.Endian.{big_number};
ghost use Rattle.ripng_capture.specs.Found.{IsPacketIn, IsTail, udp_len};

use crate::interface::LinkType;
use crate::number::{addr_at, behind, first_of, u16_at};
use crate::packet::{IPV6_HEADER_LEN, Packet, UDP, UDP_HEADER_LEN};

/// What stands in a frame without a whole datagram of UDP over IPv6.
#[derive(Clone, Copy, PartialEq, Eq)]
pub enum Foreign {
    /// Frames of a link type that is not read.
    Link,
    /// Not IPv6.
    Network,
    /// A fragment of a packet.
    Fragment,
    /// Not UDP.
    Transport,
    /// A packet that ends too soon: it was captured in part, or it is malformed.
    Short,
}

/// The type of IPv6 over Ethernet.
const ETHER_IPV6: u16 = 0x86dd;

/// The type of a tag of a VLAN over Ethernet.
const ETHER_TAG: u16 = 0x8100;

/// The type of the outer one of two such tags.
const ETHER_OUTER_TAG: u16 = 0x88a8;

/// The number of the header of options for each router on the way.
const HOP_BY_HOP: u8 = 0;

/// The number of the header of a way.
const ROUTING: u8 = 43;

/// The number of the header of a fragment.
const FRAGMENT: u8 = 44;

/// The number of the header of options for the receiver.
const DESTINATION: u8 = 60;

/// The datagram of UDP over IPv6 in a frame. Options and other extension headers are skipped.
///
/// # Errors
/// What the frame has in place of one.
pub fn packet_in(link_type: LinkType, frame: &[u8]) -> Result<Packet<'_>, Foreign>
    ensures { IfOk result (IsPacketIn frame.now) }
{
    let header = network_packet(link_type, frame)?;
    let body = body_of(header)?;
    let datagram = upper_layer(header[6], body)?;
    let payload = payload_of(datagram)?;
    Ok(Packet {
        source: addr_at(header, 8),
        destination: addr_at(header, 24),
        source_port: u16_at(datagram, 0),
        destination_port: u16_at(datagram, 2),
        hop_limit: header[7],
        payload,
    })
}

/// What stands behind the header of the link, if it is of IPv6.
fn network_packet(link_type: LinkType, frame: &[u8]) -> Result<&[u8], Foreign>
    ensures { IfOk result (λ packet. IsTail frame.now packet.now) }
{
    let (header_len, place) = match link_type {
        LinkType::Ip => return Ok(frame),
        LinkType::Ethernet => (14, 12),
        LinkType::Cooked => (16, 14),
        LinkType::CookedV2 => (20, 0),
        LinkType::Other(_) => return Err(Foreign::Link),
    };
    if frame.len() < header_len {
        return Err(Foreign::Short);
    }
    let rest = behind(frame, header_len);
    match u16_at(frame, place) {
        ETHER_IPV6 => Ok(rest),
        ETHER_TAG | ETHER_OUTER_TAG => untagged(rest),
        _ => Err(Foreign::Network),
    }
}

/// What stands behind the tag of a VLAN, if it is of IPv6.
fn untagged(rest: &[u8]) -> Result<&[u8], Foreign>
    ensures { IfOk result (λ packet. IsTail rest.now packet.now) }
{
    if rest.len() < 4 {
        return Err(Foreign::Short);
    }
    match u16_at(rest, 2) {
        ETHER_IPV6 => Ok(behind(rest, 4)),
        _ => Err(Foreign::Network),
    }
}

/// What stands behind the header of IPv6, up to the length that this has: Ethernet fills up short frames (RFC 8200, section 3).
fn body_of(packet: &[u8]) -> Result<&[u8], Foreign>
    ensures long { OnOk result (40 ≤ length packet.now) }
    ensures version { OnOk result (slice_index packet.now 0 / 16 ≡ 6) }
    ensures body { IfOk result (λ body. body.now ≡ take (big_number 2 (drop 4 packet.now)) (drop 40 packet.now)) }
{
    let Some(first) = packet.first() else {
        return Err(Foreign::Short);
    };
    if *first / 16 != 6 {
        return Err(Foreign::Network);
    }
    if packet.len() < IPV6_HEADER_LEN {
        return Err(Foreign::Short);
    }
    let length = usize::from(u16_at(packet, 4));
    Ok(first_of(behind(packet, IPV6_HEADER_LEN), length))
}

/// What stands behind the extension headers, if it is of UDP: those of options and routing are skipped, and so is that of a fragment
/// which is a whole packet (RFC 8200, section 4; RFC 6946).
fn upper_layer(first: u8, body: &[u8]) -> Result<&[u8], Foreign>
    ensures { IfOk result (λ datagram. IsTail body.now datagram.now) }
{
    let mut next = first;
    let mut left = body;
    while next != UDP {
        let length = match (next, left) {
            (HOP_BY_HOP | ROUTING | DESTINATION, [_, length, ..]) => usize::from(*length) * 8 + 8,
            (FRAGMENT, [_, _, high, low, ..]) if *high == 0 && *low & 0xf9 == 0 => 8,
            (FRAGMENT, [_, _, _, _, ..]) => return Err(Foreign::Fragment),
            (HOP_BY_HOP | ROUTING | DESTINATION | FRAGMENT, _) => return Err(Foreign::Short),
            _ => return Err(Foreign::Transport),
        };
        if left.len() < length {
            return Err(Foreign::Short);
        }
        next = left[0];
        left = behind(left, length);
    }
    Ok(left)
}

/// The payload of a datagram of UDP, whole (RFC 768).
fn payload_of(datagram: &[u8]) -> Result<&[u8], Foreign>
    ensures short { IsErr result ↔ ((length datagram.now < 8) ⊎ IsTrue (nat_lt (udp_len datagram.now) 8 || nat_lt (length datagram.now) (udp_len datagram.now))) }
    ensures long { OnOk result (8 ≤ length datagram.now) }
    ensures payload { IfOk result (λ payload. payload.now ≡ take (udp_len datagram.now - 8) (drop 8 datagram.now)) }
    ensures whole { IfOk result (λ payload. length payload.now ≡ udp_len datagram.now - 8) }
{
    if datagram.len() < UDP_HEADER_LEN {
        return Err(Foreign::Short);
    }
    let length = usize::from(u16_at(datagram, 4));
    if length < UDP_HEADER_LEN || datagram.len() < length {
        return Err(Foreign::Short);
    }
    Ok(first_of(behind(datagram, UDP_HEADER_LEN), length - UDP_HEADER_LEN))
}
