//! The sockets of an interface, and the ports of its neighbors where its link is made of sockets of 127.0.0.1.

ghost use Rattle.std.specs.Prelude.{◌≡◌};
ghost use Rattle.ripngd_engine.specs.Common.{has_clash, is_real, sender_of};

use prefix6::Addr6;

/// The addresses of an interface on its link.
#[derive(Clone, Copy, Debug, PartialEq, Eq)]
pub struct Place {
    /// Its own link-local address.
    pub addr: Addr6,
    pub socket: Socket,
}

/// What an interface sends and receives by.
#[derive(Clone, Copy, Debug, PartialEq, Eq)]
pub enum Socket {
    /// A socket of loopback, in place of a real link: each neighbor is a [`Peer`] with a port of its own.
    Local {
        /// The port of 127.0.0.1 that it is bound to.
        port: u16,
        /// The port of 127.0.0.1 that gets one copy of what is sent to the group. Without one each peer gets a copy.
        group_port: Option<u16>,
    },
    /// Sockets of a real link, each at UDP port 521 of one device, by the numbers that the process was started with. Who opened them
    /// answers for what each of them gives.
    Inherited {
        /// That which sends, and gives what came to an address of this router.
        alone: u16,
        /// That which gives what came to the group, FF02::9, with hop limit 255.
        group: u16,
        /// That which gives what came to the group with any other hop limit, if there is one.
        far: Option<u16>,
    },
}

impl Socket {
    /// Whether the link is real, and none of 127.0.0.1.
    pub fn is_real(self) -> bool
        ensures { result ≡ is_real self }
    {
        matches!(self, Socket::Inherited { .. })
    }
}

/// Who sent a datagram, and how it came.
#[derive(Clone, Copy, Debug, PartialEq, Eq)]
pub struct Sender {
    /// The address that it came from.
    pub addr: Addr6,
    /// The UDP port that it came from.
    pub port: u16,
    /// The hop limit that it came with.
    pub hop_limit: u8,
    /// Whether it came to the group of all RIPng routers.
    pub to_group: bool,
}

/// A neighbor on a link: its port of 127.0.0.1, and the addresses and the hop limit that all its datagrams are taken to have. On a
/// real link each datagram has its own.
#[derive(Clone, Copy, Debug, PartialEq, Eq)]
pub struct Peer {
    /// The link-local address that its datagrams arrive from.
    pub addr: Addr6,
    /// The port of 127.0.0.1 that its socket is bound to.
    pub local_port: u16,
    /// The UDP port that its datagrams arrive from.
    pub port: u16,
    /// The hop limit that its datagrams arrive with.
    pub hop_limit: u8,
    /// Whether its datagrams arrive as sent to the group of all routers; the key `group`.
    pub to_group: bool,
}

/// Whether one of the peers has the address or the local port of this one.
pub fn has_clash(peers: &[Peer], peer: &Peer) -> bool
    ensures { result ≡ has_clash peers.now peer.now }
{
    peers.iter().any(|other| other.addr == peer.addr || other.local_port == peer.local_port)
}

impl Peer {
    /// As what its datagrams are taken: its address, its port, its hop limit, and whether they come to the group.
    pub fn sender(&self) -> Sender
        ensures { result ≡ sender_of self.now }
    {
        Sender {
            addr: self.addr,
            port: self.port,
            hop_limit: self.hop_limit,
            to_group: self.to_group,
        }
    }
}
