//! Datagrams read from bytes, which are borrowed: reading takes no memory.

ghost use Rattle.std.specs.Prelude.{◌≡◌, ◌≤◌, length, slice_index, List, All, Some, IfOk, IsOkAnd, IfSome};
ghost use Rattle.ripng_wire.specs.Common.{result_err, UpTo, YieldsFirst, at_most, item_count, IsWithinCount, Command, Rte, Fits, Spells, command_byte, IsMessage, MessageValue, entries_of, entry_of, wire_fault};

use crate::error::WireError;
use crate::rte::{Command, ENTRY_LEN, HEADER_LEN, MAX_ENTRIES, MAX_LEN, Rte, VERSION};
use byteorder::{ByteOrder, NetworkEndian};
use std::marker::Model;

/// A datagram, over the bytes that it was read from.
#[derive(Debug, Drop)]
pub struct Datagram<'a> {
    command: Command,
    body: &'a [u8],
}

impl<'a> Model for Datagram<'a> {
    ghost Value = { MessageValue };

    ghost view = { λ d. record { command = d.command; entries = entries_of d.body.now } };

    ghost invariant = { λ d. IsMessage (record { command = d.command; entries = entries_of d.body.now }) };
}

impl<'a> Datagram<'a> {
    /// What the datagram is for.
    pub fn command(&self) -> Command
        ensures { result ≡ self.now.command }
    {
        self.command
    }

    /// The entries in order, at most [`MAX_ENTRIES`].
    pub fn entries(&self) -> Rtes<'a>
        ensures entries { result ≡ self.now.entries }
        ensures few { length result ≤ MAX_ENTRIES }
        ensures fit { All Fits result }
    {
        Rtes { left: self.body }
    }
}

/// The entries of a datagram that are left, an iterator over its bytes.
#[derive(Debug, Drop)]
pub struct Rtes<'a> {
    left: &'a [u8],
}

impl<'a> Model for Rtes<'a> {
    ghost Value = { List Rte };

    ghost view = { λ r. entries_of r.left.now };
}

impl<'a> Iterator for Rtes<'a> {
    type Item = Rte;

    ghost next_gives = { YieldsFirst (λ r. r) };

    ghost remaining = { item_count (λ r. r) };

    fn next(&mut self) -> Option<Rte> {
        let (first, others) = self.left.split_at_checked(ENTRY_LEN)?;
        self.left = others;
        Some(rte_of(first))
    }

    fn size_hint(&self) -> (usize, Option<usize>)
        ensures lower { IsWithinCount result.0 (at_most (length self.now)) }
        ensures upper { IfSome result.1 (UpTo (at_most (length self.now))) }
        ensures exact { (result.0 ≡ length self.now) × (result.1 ≡ Some (length self.now)) }
    {
        (self.len(), Some(self.len()))
    }
}

impl<'a> ExactSizeIterator for Rtes<'a> {
    fn len(&self) -> usize {
        self.left.len() / ENTRY_LEN
    }
}

/// The entry in the first 20 bytes.
fn rte_of(bytes: &[u8]) -> Rte
    requires { ENTRY_LEN ≤ length bytes.now }
    ensures { result ≡ entry_of bytes.now }
{
    Rte {
        addr: NetworkEndian::read_u128(bytes),
        tag: NetworkEndian::read_u16(&bytes[16..]),
        len: bytes[18],
        metric: bytes[19],
    }
}

/// The command of bytes that are laid out as a datagram, or the first reason to refuse them (RFC 2080, section 2.1).
fn check_layout(bytes: &[u8]) -> Result<Command, WireError>
    ensures fault { result_err result ≡ wire_fault bytes.now }
    ensures command { IfOk result (λ c. slice_index bytes.now 0 ≡ command_byte c) }
{
    // A datagram begins with a header of 4 bytes: command, version and two zero bytes.
    if bytes.len() < HEADER_LEN {
        return Err(WireError::Short);
    }
    // UDP can carry no more. The MTU of a link limits what is sent, and not what may come in.
    if bytes.len() > MAX_LEN {
        return Err(WireError::TooLong);
    }
    // The rest of a datagram is a list of entries of 20 bytes each.
    if (bytes.len() - HEADER_LEN) % ENTRY_LEN != 0 {
        return Err(WireError::Ragged);
    }
    // Command 1 is a Request and 2 a Response; no others are defined.
    let command = match bytes[0] {
        1 => Command::Request,
        2 => Command::Response,
        _ => return Err(WireError::BadCommand),
    };
    // Version 1 is the only one.
    if bytes[1] != VERSION {
        return Err(WireError::BadVersion);
    }
    // These two bytes must be zero.
    if bytes[2] != 0 || bytes[3] != 0 {
        return Err(WireError::NotZero);
    }
    Ok(command)
}

/// Reads a datagram. Malformed bytes are refused as a whole. No memory is taken.
///
/// # Errors
/// The first reason to refuse the bytes.
pub fn decode(bytes: &[u8]) -> Result<Datagram<'_>, WireError>
    // What is read is what the bytes spell, and whatever they spell is read.
    ensures read { IfOk result (λ d. Spells d.command d.entries bytes.now) }
    ensures all { (command : Command) (entries : List Rte) → Spells command entries bytes.now
        → IsOkAnd result (λ d. (d.command ≡ command) × (d.entries ≡ entries)) }

    ensures fault { result_err result ≡ wire_fault bytes.now }
{
    let command = check_layout(bytes)?;
    Ok(Datagram {
        command,
        body: &bytes[HEADER_LEN..],
    })
}
