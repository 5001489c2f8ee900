//! How the parts of a capture are laid out: blocks of pcapng (draft-ietf-opsawg-pcapng, sections 3 and 4), and records of pcap
//! (draft-ietf-opsawg-pcap).

ghost use Rattle.std.specs.Prelude.{◌≡◌, ◌≤◌, ◌<◌, ◌-◌, ◌+◌, ◌*◌, ◌^◌, ◌↔◌, IfOk, IsErr, IsTrue, OnOk, length, drop, take};
ghost use Rattle.std.specs.Iterator.{at_most};
ghost use Rattle.std.specs.Result.{result_err};
ghost use Rattle.ripng_capture.specs.Found.{IsTail, StandsIn};
ghost use Rattle.ripng_capture.specs.Layout.{block_fault, block_len, captured_fault, captured_len, number_at, order_fault, record_fault};

use crate::blocks::{BYTE_ORDER, NAME, RESOLUTION, SECTION};
use crate::damage::Damage;
use crate::interface::{Interface, LinkType, units_of};
use crate::number::{Endianness, behind, piece};

/// The bytes of a block beside its body: its type, and its length twice.
const BLOCK_FRAME: usize = 12;

/// The bytes before the frame in the block of a packet.
const PACKET_HEADER: usize = 20;

/// The bytes before the frame in a record of pcap.
const RECORD_HEADER: usize = 16;

/// The first block of some bytes.
#[derive(Clone, Copy)]
pub(crate) struct Block<'a> {
    /// Its type.
    pub kind: u32,
    /// What stands between its lengths.
    pub body: &'a [u8],
    /// What follows it.
    pub rest: &'a [u8],
}

/// Whether a section begins here: the type of its block is the same in either order.
pub(crate) fn section_begins(bytes: &[u8]) -> bool
    ensures { IsTrue result ↔ ((4 ≤ length bytes.now) × (number_at Endianness.Big 4 0 bytes.now ≡ SECTION)) }
{
    bytes.len() >= 4 && Endianness::Big.u32(bytes) == SECTION
}

/// The order of the bytes of a section, by the beginning of its first block.
pub(crate) fn order_of(bytes: &[u8]) -> Result<Endianness, Damage>
    ensures fault { result_err result ≡ order_fault bytes.now }
    ensures order { IfOk result (λ order. number_at order 4 8 bytes.now ≡ BYTE_ORDER) }
{
    if bytes.len() < BLOCK_FRAME {
        return Err(Damage::Cut);
    }
    let number = &bytes[8..];
    if Endianness::Big.u32(number) == BYTE_ORDER {
        Ok(Endianness::Big)
    } else if Endianness::Little.u32(number) == BYTE_ORDER {
        Ok(Endianness::Little)
    } else {
        Err(Damage::BadByteOrder)
    }
}

/// The first block.
pub(crate) fn block_of(order: Endianness, bytes: &[u8]) -> Result<Block<'_>, Damage>
    ensures fault { result_err result ≡ block_fault order bytes.now }
    ensures kind { IfOk result (λ block. block.kind ≡ number_at order 4 0 bytes.now) }
    ensures body { IfOk result (λ block. block.body.now ≡ take (block_len order bytes.now - 12) (drop 8 bytes.now)) }
    ensures rest { IfOk result (λ block. block.rest.now ≡ drop (block_len order bytes.now) bytes.now) }
    ensures stands { IfOk result (λ block. StandsIn bytes.now block.body.now) }
    ensures tail { IfOk result (λ block. IsTail bytes.now block.rest.now) }
    ensures smaller { IfOk result (λ block. length block.rest.now < length bytes.now) }
{
    if bytes.len() < BLOCK_FRAME {
        return Err(Damage::Cut);
    }
    let length = order.u32(&bytes[4..]) as usize;
    if length < BLOCK_FRAME || length % 4 != 0 {
        return Err(Damage::BadLength);
    }
    if bytes.len() < length {
        return Err(Damage::Cut);
    }
    if order.u32(&bytes[length - 4..]) as usize != length {
        return Err(Damage::LengthsDiffer);
    }
    Ok(Block {
        kind: order.u32(bytes),
        body: piece(bytes, 8, length - BLOCK_FRAME),
        rest: behind(bytes, length),
    })
}

/// The frame in the body of a block of a packet.
pub(crate) fn captured_of(order: Endianness, body: &[u8]) -> Result<&[u8], Damage>
    ensures fault { result_err result ≡ captured_fault order body.now }
    ensures bytes { IfOk result (λ bytes. bytes.now ≡ take (captured_len order body.now) (drop 20 body.now)) }
    ensures stands { IfOk result (λ bytes. StandsIn body.now bytes.now) }
    ensures long { OnOk result (20 ≤ length body.now) }
{
    if body.len() < PACKET_HEADER {
        return Err(Damage::BadLength);
    }
    let length = order.u32(&body[12..]) as usize;
    if body.len() - PACKET_HEADER < length {
        return Err(Damage::BadLength);
    }
    Ok(piece(body, PACKET_HEADER, length))
}

/// The version in the body of the block that begins a section.
pub(crate) fn version_of(order: Endianness, body: &[u8]) -> Result<u16, Damage>
    ensures fault { IsErr result ↔ (length body.now < 16) }
    ensures version { IfOk result (λ version. version ≡ number_at order 2 4 body.now) }
{
    if body.len() < 16 {
        return Err(Damage::BadLength);
    }
    Ok(order.u16(&body[4..]))
}

/// The time in the body of a block of a packet, in units of its interface.
pub(crate) fn time_of(order: Endianness, body: &[u8]) -> u64
    requires { 12 ≤ length body.now }
    ensures { result ≡ number_at order 4 4 body.now * 2 ^ 32 + number_at order 4 8 body.now }
{
    u64::from(order.u32(&body[4..])) * (1 << 32) + u64::from(order.u32(&body[8..]))
}

/// The frame in the body of a block of a packet without a time, all of it or as much as was captured.
pub(crate) fn simple_of(order: Endianness, body: &[u8]) -> Result<&[u8], Damage>
    ensures fault { IsErr result ↔ (length body.now < 4) }
    ensures bytes { IfOk result (λ bytes. bytes.now ≡ take (number_at order 4 0 body.now) (drop 4 body.now)) }
    ensures stands { IfOk result (λ bytes. StandsIn body.now bytes.now) }
{
    if body.len() < 4 {
        return Err(Damage::BadLength);
    }
    Ok(piece(body, 4, order.u32(body) as usize))
}

/// The first record of pcap: its frame, and what follows it.
pub(crate) fn record_of(order: Endianness, bytes: &[u8]) -> Result<(&[u8], &[u8]), Damage>
    ensures fault { result_err result ≡ record_fault order bytes.now }
    ensures frame { IfOk result (λ parts. parts.0.now ≡ take (number_at order 4 8 bytes.now) (drop 16 bytes.now)) }
    ensures stands { IfOk result (λ parts. StandsIn bytes.now parts.0.now) }
    ensures tail { IfOk result (λ parts. IsTail bytes.now parts.1.now) }
    ensures rest { IfOk result (λ parts. parts.1.now ≡ drop (16 + number_at order 4 8 bytes.now) bytes.now) }
    ensures smaller { IfOk result (λ parts. length parts.1.now < length bytes.now) }
    ensures long { OnOk result (16 ≤ length bytes.now) }
{
    if bytes.len() < RECORD_HEADER {
        return Err(Damage::Cut);
    }
    let length = order.u32(&bytes[8..]) as usize;
    if bytes.len() - RECORD_HEADER < length {
        return Err(Damage::Cut);
    }
    Ok((
        piece(bytes, RECORD_HEADER, length),
        behind(bytes, RECORD_HEADER + length),
    ))
}

/// The interface that the body of a block describes.
pub(crate) fn interface_of(order: Endianness, body: &[u8]) -> Result<Interface<'_>, Damage> {
    if body.len() < 8 {
        return Err(Damage::BadLength);
    }
    let options = Options {
        order,
        left: &body[8..],
    };
    let mut name = None;
    let mut units = Some(1_000_000);
    for (code, value) in options {
        match (code, value) {
            (NAME, _) => name = Some(value),
            (RESOLUTION, [resolution]) => units = units_of(*resolution),
            _ => {}
        }
    }
    let units = units.ok_or(Damage::TooFine)?;
    Ok(Interface {
        link_type: LinkType::of(order.u16(body)),
        name,
        units,
    })
}

/// The options of a block, each with its code. What is no whole option ends them.
#[derive(Drop)]
struct Options<'a> {
    order: Endianness,
    left: &'a [u8],
}

impl<'a> Iterator for Options<'a> {
    type Item = (u16, &'a [u8]);

    ghost remaining = { λ options. at_most (length options.left.now) };

    fn next(&mut self) -> Option<(u16, &'a [u8])> {
        let (header, rest) = self.left.split_at_checked(4)?;
        let length = usize::from(self.order.u16(&header[2..]));
        let (value, rest) = rest.split_at_checked(length)?;
        self.left = rest.get((4 - length % 4) % 4..).unwrap_or(&[]);
        Some((self.order.u16(header), value))
    }
}
