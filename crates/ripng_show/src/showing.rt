//! `show`: one datagram, given as hexadecimal digits, as lines of text.

ghost use Rattle.std.specs.Prelude.{◌≡◌, ◌≢◌, ◌%◌, ℕ, Err, IfOk, List, OnOk, length};
ghost use Rattle.std.specs.Io.KnownBytes.{Appends};
ghost use Rattle.ripng_show.specs.Shown.{IsBytesText, IsShown, command_text, entry_line, listing};

use crate::print_fault::PrintFault;
use hex::FromHexError;
use prefix6::Addr6;
use ripng_wire::{Command, Datagram, Rte};
use std::alloc::Global;
use std::io::{self, Write};

/// Writes the lines of the datagram that a text of hexadecimal digits stands for. The result says whether it is a datagram.
/// Malformed bytes give the line `refused NUMBER NAME`, and a text that is not hexadecimal `refused bad hex`.
///
/// # Errors
/// `OutOfMemory` before anything is written, and `Write` if `out` failed.
pub fn show<W: Write>(alloc: Global, hex: &str, out: &mut W) -> Result<bool, PrintFault>
    ensures shown { IfOk result (λ accepted. (text : List ℕ) × IsShown hex.now accepted text
        × Appends (W.contents out.old) (W.contents out.new) text) }
    ensures out_of_memory { result ≡ Err PrintFault.OutOfMemory → out.new ≡ out.old }
    ensures odd { length hex.now % 2 ≡ 1 → result ≢ Err PrintFault.OutOfMemory }
{
    match hex::decode(alloc, hex) {
        Ok(bytes) => show_bytes(bytes.as_slice(), out).map_err(|_| PrintFault::Write),
        Err(FromHexError::OutOfMemory) => Err(PrintFault::OutOfMemory),
        Err(_) => {
            writeln!(out, "refused bad hex").map_err(|_| PrintFault::Write)?;
            Ok(false)
        }
    }
}

/// Writes the lines for some bytes. The result says whether they are a datagram.
fn show_bytes<W: Write>(bytes: &[u8], out: &mut W) -> io::Result<bool>
    ensures { IfOk result (λ accepted. (text : List ℕ) × IsBytesText bytes.now accepted text
        × Appends (W.contents out.old) (W.contents out.new) text) }
{
    match ripng_wire::decode(bytes) {
        Ok(datagram) => {
            write_listing(out, &datagram)?;
            Ok(true)
        }
        Err(error) => {
            writeln!(out, "refused {error}")?;
            Ok(false)
        }
    }
}

/// Writes the head line, and then a line for each entry, numbered from 0.
pub(crate) fn write_listing<W: Write>(out: &mut W, datagram: &Datagram<'_>) -> io::Result<()>
    ensures { OnOk result (Appends (W.contents out.old) (W.contents out.new)
        (listing datagram.now.command datagram.now.entries)) }
{
    let command = command_name(datagram.command());
    let count = datagram.entries().len();
    writeln!(out, "{command} entries {count}")?;
    for (index, entry) in datagram.entries().enumerate() {
        write_entry(out, index, entry)?;
    }
    Ok(())
}

fn command_name(command: Command) -> &'static str
    ensures { result.now ≡ command_text command }
{
    match command {
        Command::Request => "request",
        Command::Response => "response",
    }
}

/// Writes the line of an entry, which is a next hop or a route. Its address is as it came: bits past its length too.
#[tactic(auto, unfolding(crate::specs::Shown::entry_line))]
fn write_entry<W: Write>(out: &mut W, index: usize, entry: Rte) -> io::Result<()>
    ensures { OnOk result (Appends (W.contents out.old) (W.contents out.new) (entry_line index entry)) }
{
    let addr = Addr6::from_bits(entry.addr);
    if entry.is_next_hop() {
        return writeln!(out, "{index} nexthop {addr}");
    }
    writeln!(
        out,
        "{index} {addr}/{} tag {} metric {}",
        entry.len, entry.tag, entry.metric
    )
}
