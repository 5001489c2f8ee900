//! Refuses duplicate ports, descriptors and peers.

ghost use Rattle.std.specs.Prelude.{◌≡◌, IfErr, MatchOption, OnOk, Some};
ghost use Rattle.ripngd_config.specs.Common.{AreAllPeersDistinct, AreGroupPortsApart, ArePeersDistinct, ArePortsDistinct, IsPeerTwice, RefusesTwice, has_descriptor, has_group_port, has_peer_at, has_port, is_at, is_taken, share_socket, stands_at};

use crate::fault::{ConfigFault, Read};
use crate::tables::InterfaceTable;
use ripngd_engine::{Peer, Socket, has_clash};
use std::alloc::Global;

/// Whether one of the sockets of a real link has the descriptor.
fn has_descriptor(socket: Socket, number: u16) -> bool
    ensures { result ≡ has_descriptor socket number }
{
    match socket {
        Socket::Local { .. } => false,
        Socket::Inherited { alone, group, far } => {
            alone == number || group == number || far == Some(number)
        }
    }
}

/// Whether an interface stands at a local port.
fn is_at(socket: Socket, port: u16) -> bool
    ensures { result ≡ is_at socket port }
{
    match socket {
        Socket::Local { port: own, .. } => own == port,
        Socket::Inherited { .. } => false,
    }
}

/// Whether two interfaces have one local port, or a descriptor in common.
fn share_socket(one: Socket, other: Socket) -> bool
    ensures { result ≡ share_socket one other }
{
    match other {
        Socket::Local { port, .. } => is_at(one, port),
        Socket::Inherited { alone, group, far } => {
            has_descriptor(one, alone)
                || has_descriptor(one, group)
                || far.is_some_and(|number| has_descriptor(one, number))
        }
    }
}

/// The key that says where an interface stands.
fn key_of(socket: Socket) -> &'static str {
    if socket.is_real() {
        "descriptor"
    } else {
        "local_port"
    }
}

/// The key that says what it has for the group.
fn group_key_of(socket: Socket) -> &'static str {
    if socket.is_real() {
        "group_descriptor"
    } else {
        "group_port"
    }
}

/// Whether an earlier interface has the local port of this one, or one of its descriptors.
fn has_port(earlier: &[InterfaceTable], table: &InterfaceTable) -> bool
    ensures { result ≡ has_port earlier.now table.now }
{
    earlier.iter().any(|t| share_socket(t.socket, table.socket))
}

/// Refuses the first interface whose local port, or a descriptor, is that of an earlier one.
pub(crate) fn check_ports(alloc: Global, interfaces: &[InterfaceTable]) -> Read<()>
    ensures ok { OnOk result (ArePortsDistinct interfaces.now) }
    ensures fault { IfErr result (RefusesTwice interfaces.now) }
{
    for (index, table) in interfaces.iter().enumerate() {
        if has_port(&interfaces[..index], table) {
            let key = key_of(table.socket);
            let path = format!(in alloc; "interface[{index}].{key}")?;
            return Err(ConfigFault::PortTwice(path));
        }
    }
    Ok(())
}

/// Whether a peer has a local port.
fn has_peer_at(peers: &[Peer], port: u16) -> bool
    ensures { result ≡ has_peer_at port peers.now }
{
    peers.iter().any(|peer| peer.local_port == port)
}

/// Whether an interface or one of its peers has a local port.
fn stands_at(table: &InterfaceTable, port: u16) -> bool
    ensures { result ≡ stands_at port table.now }
{
    is_at(table.socket, port) || has_peer_at(&table.peers, port)
}

/// Whether an interface or a peer has a local port.
fn is_taken(interfaces: &[InterfaceTable], port: u16) -> bool
    ensures { result ≡ is_taken interfaces.now (Some port) }
{
    interfaces.iter().any(|table| stands_at(table, port))
}

/// Whether an interface or a peer has the group port of this interface as its local port, or one descriptor stands for two of its
/// sockets.
fn has_group_port(interfaces: &[InterfaceTable], table: &InterfaceTable) -> bool
    ensures { result ≡ has_group_port interfaces.now table.now }
{
    match table.socket {
        Socket::Local { group_port, .. } => {
            group_port.is_some_and(|port| is_taken(interfaces, port))
        }
        Socket::Inherited { alone, group, far } => {
            alone == group || far == Some(alone) || far == Some(group)
        }
    }
}

/// Refuses the first interface whose group port is the local port of an interface or a peer, or that has one descriptor twice.
pub(crate) fn check_group_ports(alloc: Global, interfaces: &[InterfaceTable]) -> Read<()>
    ensures ok { OnOk result (AreGroupPortsApart interfaces.now) }
    ensures fault { IfErr result (RefusesTwice interfaces.now) }
{
    for (index, table) in interfaces.iter().enumerate() {
        if has_group_port(interfaces, table) {
            let key = group_key_of(table.socket);
            let path = format!(in alloc; "interface[{index}].{key}")?;
            return Err(ConfigFault::PortTwice(path));
        }
    }
    Ok(())
}

/// The first peer that has the address or the local port of an earlier one.
fn peer_twice(peers: &[Peer]) -> Option<usize>
    ensures { MatchOption result (ArePeersDistinct peers.now) (IsPeerTwice peers.now) }
{
    for (index, peer) in peers.iter().enumerate() {
        if has_clash(&peers[..index], peer) {
            return Some(index);
        }
    }
    None
}

/// Refuses the first interface with a duplicate peer.
pub(crate) fn check_peers(alloc: Global, interfaces: &[InterfaceTable]) -> Read<()>
    ensures ok { OnOk result (AreAllPeersDistinct interfaces.now) }
    ensures fault { IfErr result (RefusesTwice interfaces.now) }
{
    for (index, table) in interfaces.iter().enumerate() {
        if let Some(peer) = peer_twice(&table.peers) {
            let path = format!(in alloc; "interface[{index}].peer[{peer}]")?;
            return Err(ConfigFault::PeerTwice(path));
        }
    }
    Ok(())
}
