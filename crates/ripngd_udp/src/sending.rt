//! Sends one datagram to all that its destination means. A failure at one port does not keep it from the next.

ghost use Rattle.std.specs.Prelude.{◌≡◌};
ghost use Rattle.ripngd_udp.specs.Common.{IsAt, IsLocal, is_meant};

use crate::link_sockets::LinkSockets;
use crate::peer_table::PeerTable;
use prefix6::Addr6;
use ripngd_engine::{LinkFault, Peer};
use router_core::{Destination, Outgoing};
use std::net::{IpAddr, Ipv4Addr, Ipv6Addr, SocketAddr};

/// A port of 127.0.0.1.
pub(crate) fn local(port: u16) -> SocketAddr
    ensures { IsLocal port result }
{
    SocketAddr::new(IpAddr::V4(Ipv4Addr::new(127, 0, 0, 1)), port)
}

/// A port of an address on a real link. Its device is that of the socket.
pub(crate) fn real(addr: Addr6, port: u16) -> SocketAddr
    ensures { IsAt addr port result }
{
    SocketAddr::new(IpAddr::V6(Ipv6Addr::from_bits(addr.bits())), port)
}

/// Whether a datagram to that destination goes to the peer.
fn is_meant(peer: &Peer, to: &Destination) -> bool
    ensures { result ≡ is_meant peer.now to.now }
{
    match to {
        Destination::Group => true,
        Destination::Peer { addr, .. } => peer.addr == *addr,
    }
}

/// Sends to the address that all of it goes to, or in order to each peer that is meant.
///
/// # Errors
/// A send to one of them failed, or there is no peer at the destination.
pub(crate) fn send(
    sockets: &LinkSockets,
    peer_table: &PeerTable,
    outgoing: &Outgoing,
) -> Result<(), LinkFault> {
    let (to, bytes) = (&outgoing.to, outgoing.bytes.as_slice());
    let to_group = matches!(to, Destination::Group);
    let shared = peer_table.shared(to);
    let mut all_went = match shared {
        Some(addr) => sockets.send(to_group, addr, bytes),
        None => peer_table.is_known(to),
    };
    for peer in peer_table.peers() {
        if shared.is_none() && is_meant(peer, to) {
            all_went &= sockets.send(to_group, local(peer.local_port), bytes);
        }
    }
    if all_went { Ok(()) } else { Err(LinkFault) }
}
