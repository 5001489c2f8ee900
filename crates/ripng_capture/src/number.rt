//! Numbers and pieces of the bytes of a file.

ghost use Rattle.std.specs.Prelude.{◌≡◌, ◌≤◌, ◌+◌, length, take, drop};
ghost use Rattle.byteorder.specs.Endian.{big_number};
ghost use Rattle.ripng_capture.specs.Found.{StandsIn};
ghost use Rattle.ripng_capture.specs.Numbers.{number_in};

use byteorder::{BigEndian, ByteOrder, LittleEndian};
use prefix6::Addr6;

/// The order of the bytes of a file's numbers: that of the machine that wrote it.
#[derive(Clone, Copy, PartialEq, Eq)]
pub enum Endianness {
    /// The highest byte first.
    Big,
    /// The lowest byte first.
    Little,
}

impl Endianness {
    /// The number in the first two bytes.
    pub(crate) fn u16(self, bytes: &[u8]) -> u16
        requires { 2 ≤ length bytes.now }
        ensures { result ≡ number_in self 2 bytes.now }
    {
        match self {
            Endianness::Big => BigEndian::read_u16(bytes),
            Endianness::Little => LittleEndian::read_u16(bytes),
        }
    }

    /// The number in the first four bytes.
    pub(crate) fn u32(self, bytes: &[u8]) -> u32
        requires { 4 ≤ length bytes.now }
        ensures { result ≡ number_in self 4 bytes.now }
    {
        match self {
            Endianness::Big => BigEndian::read_u32(bytes),
            Endianness::Little => LittleEndian::read_u32(bytes),
        }
    }
}

/// The number of two bytes from a place, in the order of the network.
pub(crate) fn u16_at(bytes: &[u8], place: usize) -> u16
    requires { place + 2 ≤ length bytes.now }
    ensures { result ≡ big_number 2 (drop place bytes.now) }
{
    BigEndian::read_u16(behind(bytes, place))
}

/// The address in the 16 bytes from a place.
pub(crate) fn addr_at(bytes: &[u8], place: usize) -> Addr6
    requires { place + 16 ≤ length bytes.now }
    ensures { result ≡ big_number 16 (drop place bytes.now) }
{
    Addr6::from_bits(BigEndian::read_u128(behind(bytes, place)))
}

/// What stands behind the first bytes.
pub(crate) fn behind(bytes: &[u8], count: usize) -> &[u8]
    requires { count ≤ length bytes.now }
    ensures { result.now ≡ drop count bytes.now }
{
    &bytes[count..]
}

/// The first bytes, as many as there are.
#[tactic(auto, using(std::proofs::lemmas::List::take_min))]
pub(crate) fn first_of(bytes: &[u8], count: usize) -> &[u8]
    ensures { result.now ≡ take count bytes.now }
{
    &bytes[..count.min(bytes.len())]
}

/// The bytes from a place, as many as there are up to a number.
pub(crate) fn piece(bytes: &[u8], place: usize, count: usize) -> &[u8]
    requires { place ≤ length bytes.now }
    ensures value { result.now ≡ take count (drop place bytes.now) }
    ensures stands { StandsIn bytes.now result.now }
{
    first_of(behind(bytes, place), count)
}
