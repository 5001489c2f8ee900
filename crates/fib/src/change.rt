//! Changes of a forwarding table: a prefix gets an entry, or loses it.

ghost use Rattle.std.specs.Prelude.{◌≡◌};
ghost use Rattle.fib.specs.Forwarding.{prefix_of, is_install};

use prefix6::{Addr6, Prefix};

/// Where a packet goes next.
#[derive(Clone, Copy, Debug, PartialEq, Eq)]
pub enum Hop {
    /// Directly to its destination: the prefix is the router's own.
    Direct,
    /// To a neighbor, which forwards it.
    Via {
        /// The number of the router's interface, from 0.
        iface: usize,
        /// The link-local address of the neighbor on that interface.
        next_hop: Addr6,
    },
}

/// A change of the forwarding entry of one prefix.
#[derive(Clone, Copy, Debug, PartialEq, Eq)]
pub enum RouteChange {
    /// The prefix has this entry now, with or without one before.
    Install {
        prefix: Prefix,
        hop: Hop,
        /// The metric in hops, 1 to 15 from a router. The table keeps any.
        metric: u8,
    },
    /// The prefix has no entry. A shorter prefix may still contain the destination of a packet.
    Withdraw {
        prefix: Prefix,
    },
}

impl RouteChange {
    /// The prefix that the change is about.
    pub(crate) fn prefix(&self) -> Prefix
        ensures { result ≡ prefix_of self.now }
    {
        match *self {
            RouteChange::Install { prefix, .. } | RouteChange::Withdraw { prefix } => prefix,
        }
    }

    /// Whether the change leaves an entry.
    pub(crate) fn is_install(&self) -> bool
        ensures { result ≡ is_install self.now }
    {
        matches!(self, RouteChange::Install { .. })
    }
}
