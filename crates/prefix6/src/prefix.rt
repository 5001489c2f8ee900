//! Prefixes: the addresses that agree on their first bits (RFC 4291, section 2.3).

ghost use Rattle.std.specs.Prelude.{◌≡◌, ℕ, ◌≤◌, ◌<◌, ◌^◌, ◌↔◌, IsTrue, IsOk, IfOk, IfErr};
ghost use Rattle.prefix6.specs.Common.{Prefix6, IsPrefix, Holds, first_bits, cleared, is_routable, prefix_cmp, IsUnder, IsMeet, middle, LengthTooLarge};

use crate::addr::Addr6;
use crate::error::PrefixError;
use std::cmp::Ordering;
use std::marker::Model;

/// A prefix: a length of at most 128 bits, and an address whose bits past that length are zero. It is
/// ordered by address, then by length.
#[derive(Clone, Copy, Debug, PartialEq, Eq, PartialOrd, Ord)]
pub struct Prefix {
    addr: Addr6,
    len: u8,
}

impl Model for Prefix {
    ghost Value = { Prefix6 };

    ghost view = { λ p. record { addr = p.addr; len = p.len } };

    ghost invariant = { λ p. IsPrefix (record { addr = p.addr; len = p.len }) };

    ghost inverse = { λ v. record { addr = v.addr; len = v.len } };
}

/// The first `len` bits of an address, as a number.
fn leading_bits(addr: Addr6, len: u8) -> u128
    requires { len ≤ 128 }
    ensures { result ≡ first_bits addr len }
{
    addr.bits().checked_shr(128 - u32::from(len)).unwrap_or(0)
}

impl Prefix {
    /// The prefix of this length that contains the address: the bits past the length are cleared.
    ///
    /// # Errors
    /// `LengthTooLarge` exactly where `len` is above 128.
    pub fn new(addr: Addr6, len: u8) -> Result<Prefix, PrefixError>
        ensures accepted { IsOk result ↔ (len ≤ 128) }
        ensures refused { IfErr result (λ e. e ≡ LengthTooLarge) }

        ensures cleared { IfOk result (λ p. p ≡ cleared addr len) }
        ensures prefix { IfOk result IsPrefix }
        ensures holds { IfOk result (λ p. Holds p addr) }
    {
        if len > 128 {
            return Err(PrefixError::LengthTooLarge);
        }
        let shift = 128 - u32::from(len);
        let bits = leading_bits(addr, len).checked_shl(shift).unwrap_or(0);
        Ok(Prefix {
            addr: Addr6::from_bits(bits),
            len,
        })
    }

    /// The first address of the prefix.
    pub fn addr(&self) -> Addr6
        ensures value { result ≡ self.now.addr }
        ensures prefix { IsPrefix self.now }
    {
        self.addr
    }

    /// The length in bits, at most 128.
    pub fn len(&self) -> u8
        ensures value { result ≡ self.now.len }
        ensures bound { self.now.len ≤ 128 }
    {
        self.len
    }

    /// Whether the address is in the prefix: whether it begins with the bits of the prefix.
    pub fn contains(&self, addr: Addr6) -> bool
        ensures { IsTrue result ↔ Holds self.now addr }
    {
        leading_bits(addr, self.len) == leading_bits(self.addr, self.len)
    }

    /// Whether the prefix may be advertised: its address is neither multicast nor link-local (RFC
    /// 2080, section 2.4.2).
    pub fn is_routable(&self) -> bool
        ensures value { result ≡ is_routable self.now }
        ensures prefix { IsPrefix self.now }
    {
        !self.addr.is_multicast() && !self.addr.is_link_local()
    }

    /// Whether the other prefix is longer and lies within this one.
    pub fn is_above(&self, other: &Prefix) -> bool
        ensures { IsTrue result ↔ IsUnder self.now other.now }
    {
        self.len < other.len && self.contains(other.addr())
    }

    /// Whether the other prefix begins before the upper half of this one.
    pub fn is_before_middle(&self, other: &Prefix) -> bool
        ensures { IsTrue result ↔ (other.now.addr < middle self.now) }
    {
        if self.len < 64 {
            let half = 1u64 << (63 - self.len);
            let ahead = other.addr.high().saturating_sub(self.addr.high());
            return if ahead == half {
                other.addr.low() < self.addr.low()
            } else {
                ahead < half
            };
        }
        let half = 1u128 << 127u8.saturating_sub(self.len);
        other.addr.bits().saturating_sub(self.addr.bits()) < half
    }

    /// The longest prefix that contains both this one and the other.
    pub fn meet(&self, other: &Prefix) -> Prefix
        ensures meet { IsMeet self.now other.now result }
        ensures first { IsPrefix self.now }
        ensures second { IsPrefix other.now }
    {
        let mut len = self.len.min(other.len);
        while leading_bits(self.addr, len) != leading_bits(other.addr, len) {
            len -= 1;
        }
        Prefix {
            addr: Addr6::from_bits(
                leading_bits(self.addr, len)
                    .checked_shl(128 - u32::from(len))
                    .unwrap_or(0),
            ),
            len,
        }
    }
}

/// The order of prefixes, which is that of `Ord`: by address, then by length.
pub fn order_of_prefixes(first: &Prefix, second: &Prefix) -> Ordering
    ensures { result ≡ prefix_cmp first.now second.now }
{
    first.cmp(second)
}

/// A prefix is the set of its addresses.
pub fn prefixes_are_sets()
    ensures cleared_is { (a len : ℕ) → a < 2 ^ 128 → len ≤ 128 → IsPrefix (cleared a len) × Holds (cleared a len) a }
    ensures only { (p : Prefix6) (a : ℕ) → IsPrefix p → Holds p a → p ≡ cleared a p.len }
    ensures same { (p q : Prefix6) → IsPrefix p → IsPrefix q → p.len ≡ q.len → (((a : ℕ) → Holds p a → Holds q a) ↔ (p ≡ q)) }
{}
