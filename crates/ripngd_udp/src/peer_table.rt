//! Who is on the link of an interface: on a real link whoever sends, on a link of loopback its peers, and how these change.

ghost use Rattle.std.specs.Prelude.{◌≡◌, ◌≤◌, ℕ, IfErr, IfOk, IfSome, IsNone, None, OnErr, OnOk, Some, false, length, map, true, vec_len};
ghost use Rattle.ripngd_udp.specs.Common.{result_err, IsLocal, Shares, is_known, sender_from, first_reason, adding_fault, has_peer_address, is_group_port, links_at, on_link, removing_reasons_at, with_peer, without_peer, is_real, rate_of, real_sender, OnLink};

use crate::pace::Rate;
use crate::peer_refused::PeerRefused;
use crate::sending::{local, real};
use prefix6::Addr6;
use ripngd_engine::{Peer, Place, Sender, Socket, has_clash};
use router_core::{Destination, MAX_HOP_LIMIT, RIPNG_PORT};
use std::alloc::{AllocError, Global};
use std::marker::Model;
use std::net::{IpAddr, SocketAddr};

/// An interface with this many peers gets no more while the router runs. Its configuration may give it more.
pub const PEER_LIMIT: usize = 256;

/// The addresses of an interface, and its peers.
#[derive(Drop)]
pub(crate) struct PeerTable {
    place: Place,
    peers: Vec<Peer>,
}

impl Model for PeerTable {
    ghost Value = { OnLink };

    ghost view = { λ n. on_link n.place n.peers.items };
}

/// FF02::9, the group of all RIPng routers (RFC 2080, section 2.5).
pub(crate) const GROUP: u128 = (0xff02 << 112) | 9;

/// The port of an address of 127.0.0.1, or `None` for another address.
fn local_port_of(from: SocketAddr) -> Option<u16>
    ensures some { IfSome result (λ port. IsLocal port from) }
    ensures none { IsNone result → (port : ℕ) → ¬ (IsLocal port from) }
{
    match from.ip() {
        IpAddr::V4(ip) if ip.octets() == [127, 0, 0, 1] => Some(from.port()),
        _ => None,
    }
}

/// Who sent a datagram on a real link. The hop limit of one to this router alone is not known, and no rule asks for it.
fn real_sender(from: SocketAddr, hop_limit: Option<u8>) -> Option<Sender>
    ensures { result ≡ real_sender from hop_limit }
{
    let SocketAddr::V6(from) = from else {
        return None;
    };
    Some(Sender {
        addr: Addr6::from_octets(from.ip().octets()),
        port: from.port(),
        hop_limit: hop_limit.unwrap_or(MAX_HOP_LIMIT),
        to_group: hop_limit.is_some(),
    })
}

impl PeerTable {
    pub(crate) fn new(place: Place, peers: Vec<Peer>) -> PeerTable
        ensures { result ≡ on_link place peers.items }
    {
        PeerTable { place, peers }
    }

    /// The peers.
    pub(crate) fn peers(&self) -> &[Peer] {
        self.peers.as_slice()
    }

    /// Whether the link is real.
    pub(crate) fn is_real(&self) -> bool
        ensures { result ≡ is_real self.now.place.socket }
    {
        self.place.socket.is_real()
    }

    /// How many datagrams may go out without a pause, and how long it is.
    pub(crate) fn rate(&self) -> Rate
        ensures rate { result ≡ rate_of self.now }
        ensures some { 1 ≤ result.share }
        ensures few { result.share ≤ 64 }
    {
        match self.place.socket {
            Socket::Local {
                group_port: None,
                ..
            } => Rate::among(self.peers.len()),
            Socket::Local {
                group_port: Some(_),
                ..
            } => Rate::among(1),
            Socket::Inherited { .. } => Rate::real(),
        }
    }

    /// Whether a peer has this address.
    fn has_peer(&self, addr: Addr6) -> bool
        ensures { result ≡ has_peer_address self.now.peers addr }
    {
        self.peers.iter().any(|peer| peer.addr == addr)
    }

    /// Whether something can be sent there: on a real link always, else to the group, or to an address that a peer has.
    pub(crate) fn is_known(&self, to: &Destination) -> bool
        ensures { result ≡ is_known self.now to.now }
    {
        match to {
            Destination::Group => true,
            Destination::Peer { addr, .. } => self.is_real() || self.has_peer(*addr),
        }
    }

    /// The one address that gets all that is sent to a destination, if there is one.
    pub(crate) fn shared(&self, to: &Destination) -> Option<SocketAddr>
        ensures { Shares self.now.place.socket to.now result }
    {
        match (self.place.socket, to) {
            (Socket::Local { group_port, .. }, Destination::Group) => group_port.map(local),
            (Socket::Local { .. }, Destination::Peer { .. }) => None,
            (Socket::Inherited { .. }, Destination::Group) => {
                Some(real(Addr6::from_bits(GROUP), RIPNG_PORT))
            }
            (Socket::Inherited { .. }, Destination::Peer { addr, port }) => Some(real(
                *addr, *port,
            )),
        }
    }

    /// Who sent a datagram that came from a port of loopback: the first peer at that port.
    fn sender_from(&self, port: u16) -> Option<Sender>
        ensures { result ≡ sender_from self.now.peers port }
    {
        self.peers
            .iter()
            .find(|peer| peer.local_port == port)
            .map(|peer| peer.sender())
    }

    /// Who sent a datagram that came so: on a real link who did, to the group with a hop limit, or to this router where there is none;
    /// else the peer at the port that it came from.
    pub(crate) fn sender_at(&self, from: SocketAddr, hop_limit: Option<u8>) -> Option<Sender>
        ensures real { is_real self.now.place.socket ≡ true → result ≡ real_sender from hop_limit }
        ensures peer { is_real self.now.place.socket ≡ false → (port : ℕ) → IsLocal port from
            → result ≡ sender_from self.now.peers port }
        ensures stranger { is_real self.now.place.socket ≡ false → ((port : ℕ) → ¬ (IsLocal port from)) → result ≡ None }
    {
        match self.place.socket {
            Socket::Local { .. } => self.sender_from(local_port_of(from)?),
            Socket::Inherited { .. } => real_sender(from, hop_limit),
        }
    }

    /// Adds a peer at the end.
    ///
    /// # Errors
    /// Out of memory; the peers are then unchanged.
    pub(crate) fn add(&mut self, peer: Peer) -> Result<(), PeerRefused>
        ensures added { OnOk result (self.new ≡ with_peer self.old peer) }
        ensures err { OnErr result (self.new ≡ self.old) }
        ensures why { IfErr result (λ why. why ≡ PeerRefused.OutOfMemory) }
    {
        self.peers.push(peer).map_err(|_| PeerRefused::OutOfMemory)
    }

    /// Removes the peers of an address.
    ///
    /// # Errors
    /// There is no such peer.
    pub(crate) fn remove(&mut self, addr: Addr6) -> Result<(), PeerRefused>
        ensures removed { OnOk result (self.new ≡ without_peer self.old addr) }
        ensures err { OnErr result (self.new ≡ self.old) }
        ensures why { result_err result ≡ first_reason (removing_reasons_at (Some self.old) addr) }
    {
        if !self.has_peer(addr) {
            return Err(PeerRefused::NoSuchPeer);
        }
        self.peers.retain(|peer| peer.addr != addr);
        Ok(())
    }
}

/// The table of each interface, with its peers.
pub(crate) fn peer_tables_at(
    alloc: Global,
    places: &[Place],
    peers: Vec<Vec<Peer>>,
) -> Result<Vec<PeerTable>, AllocError>
    requires { length places.now ≡ vec_len peers }
    ensures made { IfOk result (λ links. links.items ≡ links_at places.now (map (λ v. v.items) peers.items)) }
    ensures count { IfOk result (λ links. vec_len links ≡ length places.now) }
{
    let mut links = Vec::new(alloc);
    let mut rest = peers;
    for place in places {
        let peers = rest.remove(0);
        links.push(PeerTable::new(*place, peers))?;
    }
    Ok(links)
}

/// Whether a port is the group port of one of the interfaces.
fn is_group_port(links: &[PeerTable], port: u16) -> bool
    ensures { result ≡ is_group_port links.now port }
{
    links.iter().any(|link| match link.place.socket {
        Socket::Local { group_port, .. } => group_port == Some(port),
        Socket::Inherited { .. } => false,
    })
}

/// The first reason not to add a peer to an interface.
pub(crate) fn check_peer(links: &[PeerTable], iface: usize, peer: &Peer) -> Result<(), PeerRefused>
    ensures { result_err result ≡ adding_fault links.now iface peer.now }
{
    let Some(link) = links.get(iface) else {
        return Err(PeerRefused::NoSuchInterface);
    };
    if link.is_real() {
        Err(PeerRefused::RealLink)
    } else if peer.local_port == 0 {
        Err(PeerRefused::BadPort)
    } else if is_group_port(links, peer.local_port) {
        Err(PeerRefused::PortTwice)
    } else if link.place.addr == peer.addr {
        Err(PeerRefused::OwnAddress)
    } else if has_clash(link.peers.as_slice(), peer) {
        Err(PeerRefused::PeerTwice)
    } else if link.peers.len() >= PEER_LIMIT {
        Err(PeerRefused::PeersFull)
    } else {
        Ok(())
    }
}
