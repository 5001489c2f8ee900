//! Datagrams that come to a router, and why one is refused.

ghost use Rattle.std.specs.Prelude.{◌≡◌, Some};
ghost use Rattle.router_core.specs.Common.{Received, fault_name, fault_number, fault_text};

use prefix6::Addr6;
use ripng_wire::WireError;
use route_table::Moment;
use std::fmt::{self, Display};
use std::marker::Model;

/// The UDP port of RIPng (RFC 2080, section 2.1).
pub const RIPNG_PORT: u16 = 521;

/// The hop limit of a datagram that no router has forwarded (RFC 2080, sections 2.4.2 and 2.5.2).
pub const MAX_HOP_LIMIT: u8 = 255;

/// A datagram as it came to an interface.
#[derive(Drop)]
pub struct Arrival<'a> {
    /// When it came.
    pub now: Moment,
    /// The number of the interface, from 0.
    pub iface: usize,
    /// The address that it came from.
    pub source: Addr6,
    /// The UDP port that it came from.
    pub source_port: u16,
    /// The hop limit that was left, 255 if no router forwarded it.
    pub hop_limit: u8,
    /// Whether it was sent to the group of all RIPng routers, FF02::9, rather than to an address of this router.
    pub to_group: bool,
    /// What it holds, without the headers of UDP and IPv6.
    pub bytes: &'a [u8],
}

impl<'a> Model for Arrival<'a> {
    ghost Value = { Received };

    ghost view = { λ a. record {
      now = a.now;
      iface = a.iface;
      source = a.source;
      source_port = a.source_port;
      hop_limit = a.hop_limit;
      to_group = a.to_group;
      bytes = a.bytes.now;
    } };
}

/// Why an arrival is refused: the first reason that applies (RFC 2080, sections 2.4.1 and 2.4.2). No route changes then, and
/// nothing is sent.
#[derive(Clone, Copy, Debug, PartialEq, Eq)]
pub enum Fault {
    /// 1 to 6: the bytes are malformed. A usual cause is another protocol at port 521: look at the sender.
    Wire(WireError),
    /// 7: a Response that is not from port 521. A RIPng router sends from there; a test tool may not.
    NotRipngPort,
    /// 8: the source is not link-local. A neighbor uses a global address, or somebody outside the link sends.
    NotLinkLocal,
    /// 9: the source is an address of this router. It receives its own multicasts, which is harmless, or a neighbor has the
    /// same link-local address: give one of the two another.
    OwnAddress,
    /// 10: it came to the group with a hop limit other than 255. It was forwarded, or the neighbor does not set 255.
    HopLimit,
    /// 11: a Request without entries asks for nothing, and gets no reply.
    EmptyRequest,
    /// 12: a Request from a multicast address, from `::` or from port 0: a reply could reach nobody.
    BadSource,
}

impl Fault {
    /// The number of the fault, 1 to 12.
    pub fn number(self) -> u8
        ensures { result ≡ fault_number self }
    {
        match self {
            Fault::Wire(why) => why.number(),
            Fault::NotRipngPort => 7,
            Fault::NotLinkLocal => 8,
            Fault::OwnAddress => 9,
            Fault::HopLimit => 10,
            Fault::EmptyRequest => 11,
            Fault::BadSource => 12,
        }
    }

    /// The name of the fault, one word.
    pub fn name(self) -> &'static str
        ensures { result.now ≡ fault_name self }
    {
        match self {
            Fault::Wire(why) => why.name(),
            Fault::NotRipngPort => "NotRipngPort",
            Fault::NotLinkLocal => "NotLinkLocal",
            Fault::OwnAddress => "OwnAddress",
            Fault::HopLimit => "HopLimit",
            Fault::EmptyRequest => "EmptyRequest",
            Fault::BadSource => "BadSource",
        }
    }
}

/// `NUMBER NAME`, as it is printed.
impl Display for Fault {
    ghost output = { λ why. Some (fault_text why) };

    fn fmt<W: fmt::Write>(&self, f: &mut fmt::Formatter<W>) -> fmt::Result {
        write!(f, "{} {}", self.number(), self.name())
    }
}
