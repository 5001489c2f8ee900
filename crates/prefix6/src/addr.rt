//! IPv6 addresses, and the kinds of address that RIPng distinguishes (RFC 4291, section 2.4).

ghost use Rattle.std.specs.Prelude.{◌≡◌, ◌<◌, ◌^◌, ◌/◌, ◌%◌, ◌==◌, ℕ, ◌+◌, ◌*◌};
ghost use Rattle.prefix6.specs.Common.{w128, to_be_bytes, from_be_bytes, nat_cmp, as_partial_cmp, partial_order_from_own_ties, comparing, is_link_local, is_multicast, is_unspecified, AreHalves, same_high, same_low};
ghost use Rattle.std.proofs.Common.{rules};

use std::cmp::Ordering;
use std::marker::Model;

/// An IPv6 address, ordered as a number. Contracts see it as that number, below 2^128. It is kept in
/// two halves, which need only the alignment of a `u64`: structs that hold addresses are smaller.
#[derive(Clone, Copy, Debug)]
pub struct Addr6 {
    high: u64,
    low: u64,
}

impl Model for Addr6 {
    ghost Value = { ℕ };

    ghost view = { λ a. a.high * 2 ^ 64 + a.low };

    ghost invariant = { λ a. AreHalves a.high a.low };

    ghost inverse = { λ n. record { high = n / 2 ^ 64; low = n % 2 ^ 64 } };

    ghost inverse_ok = { λ a h i. record {
      high = same_high a.high a.low h i;
      low = same_low a.high a.low h i;
    } };
}

impl PartialEq for Addr6 {
    ghost eq = { ◌==◌ };

    ghost laws = { Prim.search (comparing, rules) };

    fn eq(&self, other: &Addr6) -> bool {
        self.bits() == other.bits()
    }
}

impl Eq for Addr6 {
    ghost laws = { Prim.search (comparing, rules) };
}

impl PartialOrd for Addr6 {
    ghost partial_cmp = { as_partial_cmp nat_cmp };

    ghost laws = { partial_order_from_own_ties (Prim.search (comparing, rules)) (Prim.search (comparing, rules)) };

    fn partial_cmp(&self, other: &Addr6) -> Option<Ordering> {
        Some(self.cmp(other))
    }
}

impl Ord for Addr6 {
    ghost cmp = { nat_cmp };

    ghost total = { Prim.search (comparing, rules) };

    ghost matches_partial_cmp = { Prim.search (comparing, rules) };

    ghost matches_eq = { Prim.search (comparing, rules) };

    fn cmp(&self, other: &Addr6) -> Ordering {
        self.bits().cmp(&other.bits())
    }
}

impl Addr6 {
    /// The address of a number, whose highest byte is the first of the address.
    pub fn from_bits(bits: u128) -> Addr6
        ensures { result ≡ bits }
    {
        Addr6 {
            high: (bits / (1 << 64)) as u64,
            low: (bits % (1 << 64)) as u64,
        }
    }

    /// The number of the address, whose highest byte is the first of the address.
    pub fn bits(self) -> u128
        ensures number { result ≡ self }
        ensures in_range { self < 2 ^ 128 }
    {
        u128::from(self.high) * (1 << 64) + u128::from(self.low)
    }

    /// The upper half of its bits, as a number.
    pub(crate) fn high(self) -> u64
        ensures { result ≡ self / 2 ^ 64 }
    {
        self.high
    }

    /// The lower half of its bits, as a number.
    pub(crate) fn low(self) -> u64
        ensures { result ≡ self % 2 ^ 64 }
    {
        self.low
    }

    /// The address of its sixteen octets, in the order of the wire.
    pub fn from_octets(octets: [u8; 16]) -> Addr6
        ensures { result ≡ from_be_bytes w128 octets }
    {
        Addr6::from_bits(u128::from_be_bytes(octets))
    }

    /// The sixteen octets of the address, in the order of the wire.
    pub fn octets(self) -> [u8; 16]
        ensures { result ≡ to_be_bytes w128 self }
    {
        self.bits().to_be_bytes()
    }

    /// Whether the address is in FE80::/10: it is valid on one link only (RFC 4291, section 2.5.6).
    pub fn is_link_local(self) -> bool
        ensures { result ≡ is_link_local self }
    {
        self.bits() >> 118 == 0xfe80 >> 6
    }

    /// Whether the address is in FF00::/8: it names a group (RFC 4291, section 2.7).
    pub fn is_multicast(self) -> bool
        ensures { result ≡ is_multicast self }
    {
        self.bits() >> 120 == 0xff
    }

    /// Whether the address is `::`, which no interface has (RFC 4291, section 2.5.2).
    pub fn is_unspecified(self) -> bool
        ensures { result ≡ is_unspecified self }
    {
        self.bits() == 0
    }
}
