//! Writes what was seen as a file of pcapng.

ghost use Rattle.std.specs.Prelude.{◌≡◌, ◌≤◌, IfOk, length, option_map};
ghost use Rattle.ripng_capture.specs.Blocks.{packet_block_of};
ghost use Rattle.ripng_lab_capture.specs.Packets.{comment_of, packet_seen};

use crate::seen::Seen;
use ripng_capture::{MAX_PAYLOAD, interface_block, packet_block, section_block};
use std::alloc::{AllocError, Global};

/// Appends a section, an interface for each link, in order, and a packet for each datagram.
pub(crate) fn write_capture(
    alloc: Global,
    file: &mut Vec<u8>,
    links: &[u32],
    seen: &[Seen],
) -> Result<(), AllocError> {
    file.extend_from_slice(&section_block(alloc)?)?;
    for link in links {
        write_interface(alloc, file, *link)?;
    }
    write_packets(alloc, file, links, seen)
}

/// Appends the interface of a link.
fn write_interface(alloc: Global, file: &mut Vec<u8>, link: u32) -> Result<(), AllocError> {
    let name = format!(in alloc; "{link}")?;
    // A number of 32 bits has at most ten digits: the test only helps the prover.
    if name.len() < 65_536 {
        file.extend_from_slice(&interface_block(alloc, name.as_str())?)?;
    }
    Ok(())
}

/// Appends a packet for each datagram. One that is longer than a packet can be is left out: no script makes one.
fn write_packets(
    alloc: Global,
    file: &mut Vec<u8>,
    links: &[u32],
    seen: &[Seen],
) -> Result<(), AllocError> {
    for datagram in seen {
        if datagram.payload.len() <= MAX_PAYLOAD
            && let Ok(place) = links.binary_search(&datagram.link)
            && let Ok(interface) = u32::try_from(place)
        {
            file.extend_from_slice(&block_of(alloc, interface, datagram)?)?;
        }
    }
    Ok(())
}

/// The block of a datagram on an interface.
fn block_of(alloc: Global, interface: u32, seen: &Seen) -> Result<Vec<u8>, AllocError>
    requires { length seen.now.payload.items ≤ MAX_PAYLOAD }
    ensures { IfOk result (λ bytes. bytes.items ≡ packet_block_of interface seen.now.at (packet_seen seen.now) (comment_of seen.now)) }
{
    packet_block(alloc, interface, seen.at, &seen.packet(), comment_of(seen))
}

/// What is said of a datagram, if anything is.
fn comment_of(seen: &Seen) -> Option<&str>
    ensures { option_map (λ text. text.now) result ≡ comment_of seen.now }
{
    if seen.comment.is_empty() {
        None
    } else {
        Some(seen.comment.as_str())
    }
}
