//! The blocks of a file of pcapng, as bytes (draft-ietf-opsawg-pcapng, sections 3 and 4), in the order of bytes of the network.

ghost use Rattle.std.specs.Prelude.{◌≡◌, ◌≤◌, ◌<◌, ◌+◌, ◌^◌, ◌++◌, IfOk, OnOk, length, option_map};
ghost use Rattle.ripng_capture.specs.Blocks.{block, comment_options, interface_block_of, option, packet_block_of, packet_body, padded, section_block_of};

use crate::packet::{MAX_PAYLOAD, Packet};
use std::alloc::{AllocError, Global};

/// The type of a block that begins a section.
pub(crate) const SECTION: u32 = 0x0a0d_0d0a;

/// The type of a block that describes an interface.
pub(crate) const INTERFACE: u32 = 1;

/// The type of a block with a packet.
pub(crate) const PACKET: u32 = 6;

/// The number at the beginning of a section that shows the order of its bytes.
pub(crate) const BYTE_ORDER: u32 = 0x1a2b_3c4d;

/// The option with a comment.
const COMMENT: u16 = 1;

/// The option with the name of an interface.
pub(crate) const NAME: u16 = 2;

/// The option with the resolution of an interface's times.
pub(crate) const RESOLUTION: u16 = 9;

/// The link type of packets that begin with the header of IPv6.
pub(crate) const IPV6_LINK: u16 = 229;

/// The block that begins a file.
///
/// # Errors
/// Only out of memory; so do those below.
pub fn section_block(alloc: Global) -> Result<Vec<u8>, AllocError>
    ensures { IfOk result (λ bytes. bytes.items ≡ section_block_of) }
{
    let mut body = Vec::with_capacity(alloc, 16)?;
    body.extend_from_slice(&BYTE_ORDER.to_be_bytes())?;
    body.extend_from_slice(&[0, 1, 0, 0])?;
    body.extend_from_slice(&[0xff; 8])?;
    block(alloc, SECTION, &body)
}

/// The block of an interface with a name, whose packets begin with the header of IPv6, and whose times are in milliseconds.
pub fn interface_block(alloc: Global, name: &str) -> Result<Vec<u8>, AllocError>
    requires { length name.now < 2 ^ 16 }
    ensures { IfOk result (λ bytes. bytes.items ≡ interface_block_of name.now) }
{
    let mut body = Vec::new(alloc);
    body.extend_from_slice(&IPV6_LINK.to_be_bytes())?;
    body.extend_from_slice(&[0, 0, 0, 0, 0, 0])?;
    write_option(&mut body, NAME, name.as_bytes())?;
    write_option(&mut body, RESOLUTION, &[3])?;
    body.extend_from_slice(&[0, 0, 0, 0])?;
    block(alloc, INTERFACE, &body)
}

/// The block of a packet of the interface of that number, counted from 0, at that time in milliseconds, with a comment if there is one
/// of less than 65,536 bytes.
#[tactic(auto, using(crate::proofs::Sizes::length_packet, crate::proofs::Sizes::length_body))]
pub fn packet_block(
    alloc: Global,
    interface: u32,
    now: u64,
    packet: &Packet<'_>,
    comment: Option<&str>,
) -> Result<Vec<u8>, AllocError>
    requires { length packet.now.payload ≤ MAX_PAYLOAD }
    ensures { IfOk result (λ bytes. bytes.items ≡ packet_block_of interface now packet.now (option_map (λ text. text.now) comment.entry)) }
{
    let bytes = packet.to_bytes(alloc)?;
    let body = packet_body(alloc, interface, now, &bytes, comment)?;
    block(alloc, PACKET, &body)
}

/// The body of the block of a packet.
#[tactic(auto, unfolding(crate::specs::Blocks::packet_body))]
fn packet_body(
    alloc: Global,
    interface: u32,
    now: u64,
    bytes: &[u8],
    comment: Option<&str>,
) -> Result<Vec<u8>, AllocError>
    requires { length bytes.now < 2 ^ 32 }
    ensures { IfOk result (λ body. body.items ≡ packet_body interface now bytes.now (option_map (λ text. text.now) comment.entry)) }
{
    let mut body = Vec::new(alloc);
    body.extend_from_slice(&interface.to_be_bytes())?;
    body.extend_from_slice(&now.to_be_bytes())?;
    let length = (bytes.len() as u32).to_be_bytes();
    body.extend_from_slice(&length)?;
    body.extend_from_slice(&length)?;
    write_padded(&mut body, bytes)?;
    write_comment(&mut body, comment)?;
    Ok(body)
}

/// Appends the option of a comment, if there is one.
fn write_comment(bytes: &mut Vec<u8>, comment: Option<&str>) -> Result<(), AllocError>
    ensures { OnOk result (bytes.new.items ≡ bytes.old.items ++ comment_options (option_map (λ text. text.now) comment.entry)) }
{
    match comment {
        Some(comment) if comment.len() <= usize::from(u16::MAX) => {
            write_option(bytes, COMMENT, comment.as_bytes())?;
            bytes.extend_from_slice(&[0, 0, 0, 0])
        }
        _ => Ok(()),
    }
}

/// Appends an option.
fn write_option(bytes: &mut Vec<u8>, code: u16, value: &[u8]) -> Result<(), AllocError>
    requires { length value.now < 2 ^ 16 }
    ensures { OnOk result (bytes.new.items ≡ bytes.old.items ++ option code value.now) }
{
    bytes.extend_from_slice(&code.to_be_bytes())?;
    bytes.extend_from_slice(&(value.len() as u16).to_be_bytes())?;
    write_padded(bytes, value)
}

/// Appends a value, and zeros up to a multiple of 4.
fn write_padded(bytes: &mut Vec<u8>, value: &[u8]) -> Result<(), AllocError>
    ensures { OnOk result (bytes.new.items ≡ bytes.old.items ++ padded value.now) }
{
    bytes.extend_from_slice(value)?;
    bytes.extend_from_slice(match value.len() % 4 {
        0 => &[],
        1 => &[0, 0, 0],
        2 => &[0, 0],
        _ => &[0],
    })
}

/// A block of a type, with a body.
fn block(alloc: Global, kind: u32, body: &[u8]) -> Result<Vec<u8>, AllocError>
    requires { 12 + length body.now < 2 ^ 32 }
    ensures { IfOk result (λ bytes. bytes.items ≡ block kind body.now) }
{
    let length = (body.len() as u32 + 12).to_be_bytes();
    let mut bytes = Vec::with_capacity(alloc, body.len() + 12)?;
    bytes.extend_from_slice(&kind.to_be_bytes())?;
    bytes.extend_from_slice(&length)?;
    bytes.extend_from_slice(body)?;
    bytes.extend_from_slice(&length)?;
    Ok(bytes)
}
