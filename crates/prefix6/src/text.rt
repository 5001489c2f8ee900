//! Texts of addresses and prefixes: the two forms that are read (RFC 4291, section 2.2) and the one
//! that is written (RFC 5952, sections 4.1 to 4.3).

ghost use Rattle.std.specs.Prelude.{◌≡◌, ℕ, ◌<◌, ◌^◌, ◌↔◌, IfErr, List, Some};
ghost use Rattle.prefix6.specs.Common.{hex, groups_of, Prefix6, IsPrefix, ReadsAs, Reads, ReadsPrefix, IsLengthText, address_part, length_part, ParsesAddr, ParsesPrefix, written, written_addr, written_prefix, IsCanonical, IsPlainGroup, BadLengthText};

use crate::addr::Addr6;
use crate::error::PrefixError;
use crate::prefix::Prefix;
use std::fmt::{self, Display};
use std::net::Ipv6Addr;
use std::str::FromStr;

/// Reads the text of an address: eight groups of one to four hexadecimal digits, in either case,
/// between colons, or fewer than eight with one `::` for one or more zero groups.
///
/// # Errors
/// `BadAddressText` for any other text, also for one with a dotted address of IPv4 in it.
pub fn parse_addr(text: &str) -> Result<Addr6, PrefixError>
    ensures { ParsesAddr text.now result }
{
    let bytes = text.as_bytes();
    if bytes.contains(&b'.') {
        return Err(PrefixError::BadAddressText);
    }
    match Ipv6Addr::parse_ascii(bytes) {
        Ok(addr) => Ok(Addr6::from_bits(addr.to_bits())),
        Err(_) => Err(PrefixError::BadAddressText),
    }
}

/// Reads the length of a prefix: a decimal number up to 128 with no sign and no leading zero.
fn parse_len(text: &str) -> Result<u8, PrefixError>
    ensures reads { (len : ℕ) → (result ≡ Ok len) ↔ IsLengthText text.now len }
    ensures refused { IfErr result (λ e. e ≡ BadLengthText) }
{
    match text.as_bytes() {
        b"0" => Ok(0),
        [b'1'..=b'9', ..] => match text.parse::<u8>() {
            Ok(len) if len <= 128 => Ok(len),
            _ => Err(PrefixError::BadLengthText),
        },
        _ => Err(PrefixError::BadLengthText),
    }
}

/// The text before the first slash and the text after it, or the whole text and an empty one.
fn split_at_slash(text: &str) -> (&str, &str)
    ensures address { result.0.now ≡ address_part text.now }
    ensures length { result.1.now ≡ length_part text.now }
{
    text.split_once('/').unwrap_or((text, ""))
}

/// Reads the text of a prefix: an address as of [`parse_addr`], a slash, and the length in decimal,
/// up to 128, with no leading zero. Bits past the length are cleared.
///
/// # Errors
/// `BadAddressText` if the text before the first slash, or the whole, is not an address.
/// `BadLengthText` if it is one, and no slash with a length follows.
pub fn parse_prefix(text: &str) -> Result<Prefix, PrefixError>
    ensures { ParsesPrefix text.now result }
{
    let (addr, len) = split_at_slash(text);
    let addr = parse_addr(addr)?;
    let len = parse_len(len)?;
    Prefix::new(addr, len)
}

impl FromStr for Addr6 {
    type Err = PrefixError;

    ghost from_str_gives = { ParsesAddr };

    /// As [`parse_addr`].
    fn from_str(text: &str) -> Result<Addr6, PrefixError> {
        parse_addr(text)
    }
}

impl FromStr for Prefix {
    type Err = PrefixError;

    ghost from_str_gives = { ParsesPrefix };

    /// As [`parse_prefix`].
    fn from_str(text: &str) -> Result<Prefix, PrefixError> {
        parse_prefix(text)
    }
}

/// The one written form: groups in lower case with no leading zeros, the longest run of two or more
/// zero groups as `::`, the first of equal runs. No part is ever written with dots.
impl Display for Addr6 {
    ghost output = { λ a. Some (written_addr a) };

    #[tactic(auto, using(crate::proofs::WrittenForm::shown))]
    fn fmt<W: fmt::Write>(&self, f: &mut fmt::Formatter<W>) -> fmt::Result {
        Display::fmt(&Ipv6Addr::from_bits(self.bits()).hex_groups(), f)
    }
}

/// The address, a slash and the length in decimal.
impl Display for Prefix {
    ghost output = { λ p. Some (written_prefix p) };

    fn fmt<W: fmt::Write>(&self, f: &mut fmt::Formatter<W>) -> fmt::Result {
        write!(f, "{}/{}", self.addr(), self.len())
    }
}

/// What is written is read back, and a text that is read has one meaning.
pub fn written_texts_are_read_back()
    ensures address { (a : ℕ) → a < 2 ^ 128 → Reads (written_addr a) a }
    ensures prefix { (p : Prefix6) → IsPrefix p → ReadsPrefix (written_prefix p) p }
    ensures one_address { (text : List ℕ) (a b : ℕ) → Reads text a → Reads text b → a ≡ b }
    ensures one_prefix { (text : List ℕ) (p q : Prefix6) → ReadsPrefix text p → ReadsPrefix text q → p ≡ q }
    ensures an_address { (text groups : List ℕ) → ReadsAs text groups → (a : ℕ) × Reads text a × (groups ≡ groups_of a) }
{}

/// The written form is the one that RFC 5952 asks for: `::` stands for the first of the longest runs
/// of two zero groups or more, and each group is in lower case and has no leading zero.
pub fn written_texts_are_canonical()
    ensures exact { (groups text : List ℕ) → IsCanonical groups text ↔ (text ≡ written groups) }
    ensures group { (n : ℕ) → n < 2 ^ 16 → IsPlainGroup (hex n) n }
{}
