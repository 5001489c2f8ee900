//! Datagrams written as bytes (RFC 2080, section 2.1).

ghost use Rattle.std.specs.Prelude.{◌≡◌, ◌≤◌, ◌++◌, [], length, IfOk, OnErr, OnOk};
ghost use Rattle.ripng_wire.specs.Layout.{Fits, Spells, command_byte, entry_bytes};

use crate::rte::{Command, ENTRY_LEN, HEADER_LEN, MAX_ENTRIES, Rte, VERSION};
use byteorder::{ByteOrder, NetworkEndian};
use std::alloc::{AllocError, Global};

/// The bytes of a datagram with these entries, in their order.
///
/// # Errors
/// Only out of memory.
pub fn encode(alloc: Global, command: Command, entries: &[Rte]) -> Result<Vec<u8>, AllocError>
    requires { length entries.now ≤ MAX_ENTRIES }
    ensures { IfOk result (λ bytes. Spells command entries.now bytes.items) }
{
    let mut bytes = encode_header(alloc, command, entries.len())?;
    for entry in entries {
        encode_entry(&mut bytes, *entry)?;
    }
    Ok(bytes)
}

/// The bytes of a datagram without entries, in a vector with room for `count` of them.
///
/// # Errors
/// Only out of memory.
pub fn encode_header(alloc: Global, command: Command, count: usize) -> Result<Vec<u8>, AllocError>
    requires { count ≤ MAX_ENTRIES }
    ensures { IfOk result (λ bytes. Spells command [] bytes.items) }
{
    let mut bytes = Vec::with_capacity(alloc, HEADER_LEN + ENTRY_LEN * count)?;
    bytes.extend_from_slice(&[byte_of(command), VERSION, 0, 0])?;
    Ok(bytes)
}

/// Appends an entry to the bytes of a datagram.
///
/// # Errors
/// Only out of memory. The bytes are then unchanged.
pub fn encode_entry(bytes: &mut Vec<u8>, entry: Rte) -> Result<(), AllocError>
    ensures fits { Fits entry }
    ensures ok { OnOk result (bytes.new.items ≡ bytes.old.items ++ entry_bytes entry) }
    ensures err { OnErr result (bytes.new.items ≡ bytes.old.items) }
{
    bytes.extend_from_slice(&bytes_of(entry))
}

fn byte_of(command: Command) -> u8
    ensures { result ≡ command_byte command }
{
    command as u8
}

fn bytes_of(entry: Rte) -> [u8; ENTRY_LEN]
    ensures layout { result ≡ entry_bytes entry }
    ensures fits { Fits entry }
{
    let mut bytes = [0; ENTRY_LEN];
    // The address in two halves: a processor turns the bytes of a half around at once.
    NetworkEndian::write_u64(&mut bytes, (entry.addr / (1 << 64)) as u64);
    NetworkEndian::write_u64(&mut bytes[8..], (entry.addr % (1 << 64)) as u64);
    // Tag, length and metric in one: a processor that writes them apart and then copies them together waits for itself.
    let last = (u32::from(entry.tag) * 256 + u32::from(entry.len)) * 256 + u32::from(entry.metric);
    NetworkEndian::write_u32(&mut bytes[16..], last);
    bytes
}
