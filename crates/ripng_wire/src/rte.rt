//! The parts of a datagram: a command and route table entries, and how many entries it may hold.

ghost use Rattle.std.specs.Prelude.{◌≡◌, ◌≤◌};
ghost use Rattle.ripng_wire.specs.Common.{is_next_hop, entries_for_mtu, most_entries};

/// The version of RIPng (RFC 2080, section 2.1).
pub(crate) const VERSION: u8 = 1;

/// The bytes before the first entry: command, version and two bytes that must be zero (RFC 2080, section 2.1).
pub(crate) const HEADER_LEN: usize = 4;

/// The bytes of an entry (RFC 2080, section 2.1).
pub(crate) const ENTRY_LEN: usize = 20;

/// The most entries of a datagram: UDP gives its length in 16 bits, which leaves room for no more.
pub const MAX_ENTRIES: usize = 3276;

/// The bytes of a datagram with the most entries.
pub(crate) const MAX_LEN: usize = HEADER_LEN + ENTRY_LEN * MAX_ENTRIES;

/// The metric of an entry that names a next hop in place of a route (RFC 2080, section 2.1.1).
pub const NEXT_HOP_METRIC: u8 = 0xff;

/// What a datagram is for (RFC 2080, section 2.1).
#[derive(Clone, Copy, Debug, PartialEq, Eq, Hash)]
pub enum Command {
    /// Asks for all or part of a routing table.
    Request = 1,
    /// Carries routes: an update, or the reply to a Request.
    Response = 2,
}

/// A route table entry as it stands on the wire, with any values: they are not judged here (RFC 2080, section 2.1).
#[derive(Clone, Copy, Debug, PartialEq, Eq, Hash)]
pub struct Rte {
    /// The address of the prefix, or of the next hop; its highest byte stands first.
    pub addr: u128,
    /// The route tag, which a router keeps and advertises unchanged.
    pub tag: u16,
    /// The length of the prefix in bits.
    pub len: u8,
    /// The metric in hops, or [`NEXT_HOP_METRIC`].
    pub metric: u8,
}

impl Rte {
    /// Whether the entry names the next hop of those that follow it (RFC 2080, section 2.1.1).
    pub fn is_next_hop(self) -> bool
        ensures { result ≡ is_next_hop self }
    {
        self.metric == NEXT_HOP_METRIC
    }
}

/// How many entries a datagram has room for on a link whose MTU is `mtu` bytes, after the headers of IPv6 (40 bytes)
/// and UDP (8 bytes) and that of RIPng (RFC 2080, section 2.1).
pub fn entries_for_mtu(mtu: u32) -> usize
    requires low { 1280 ≤ mtu }
    requires high { mtu ≤ 65535 }
    ensures count { result ≡ entries_for_mtu mtu }
    ensures least { 61 ≤ result }
    ensures most { result ≤ most_entries }
{
    (mtu as usize - 40 - 8 - HEADER_LEN) / ENTRY_LEN
}
