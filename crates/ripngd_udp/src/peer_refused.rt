//! Why a peer is not added to a link, or not removed from it.

ghost use Rattle.std.specs.Prelude.{◌≡◌};
ghost use Rattle.ripngd_udp.specs.Common.{peer_refused_text};

/// Why a peer is not added to a link, or not removed from it: the first of these reasons that applies.
#[derive(Clone, Copy, Debug, PartialEq, Eq)]
pub enum PeerRefused {
    /// The link has no interface of that number.
    NoSuchInterface,
    /// Its local port is 0, which no socket has.
    BadPort,
    /// Its local port is the group port of an interface.
    PortTwice,
    /// Its address is the interface's own.
    OwnAddress,
    /// A peer of the interface has its address or its local port.
    PeerTwice,
    /// The interface has `PEER_LIMIT` peers.
    PeersFull,
    /// No peer of the interface has that address.
    NoSuchPeer,
    /// There was not enough memory.
    OutOfMemory,
    /// The link is real: its neighbors are those that send there.
    RealLink,
}

impl PeerRefused {
    /// The refusal as it is printed: its number, which never changes, and its name.
    pub fn text(self) -> &'static str
        ensures { result.now ≡ peer_refused_text self }
    {
        match self {
            PeerRefused::NoSuchInterface => "51 NoSuchInterface",
            PeerRefused::BadPort => "61 BadPort",
            PeerRefused::PortTwice => "62 PortTwice",
            PeerRefused::OwnAddress => "63 OwnAddress",
            PeerRefused::PeerTwice => "64 PeerTwice",
            PeerRefused::PeersFull => "65 PeersFull",
            PeerRefused::NoSuchPeer => "66 NoSuchPeer",
            PeerRefused::OutOfMemory => "67 OutOfMemory",
            PeerRefused::RealLink => "68 RealLink",
        }
    }
}
