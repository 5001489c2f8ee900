//! A list of entries is divided into datagrams, as many entries in each as the MTU of the link allows (RFC 2080, section 2.1).

ghost use Rattle.std.specs.Prelude.{◌≡◌, ◌≤◌, ◌+◌, length, OnOk};
ghost use Rattle.router_core.specs.Output.{responses_at, AddsSpelled};

use crate::answer::{Destination, Outgoing};
use crate::listed::Listed;
use ripng_wire::{Command, Rte, encode, entries_for_mtu};
use std::alloc::{AllocError, Global};

/// Adds the Responses that carry these entries, in order, on an interface whose MTU is `mtu` bytes.
///
/// # Errors
/// Only out of memory. Some of the Responses may have been added.
pub fn push_responses(
    alloc: Global,
    sends: &mut Vec<Outgoing>,
    iface: usize,
    mtu: u32,
    to: Destination,
    entries: &[Rte],
) -> Result<(), AllocError>
    requires low { 1280 ≤ mtu }
    requires high { mtu ≤ 65535 }
    ensures spelled { OnOk result (AddsSpelled (responses_at mtu iface to entries.now) sends.old.items sends.new.items) }
    ensures few { OnOk result (length sends.new.items ≤ length sends.old.items + length entries.now) }
{
    // Entries that find no room go into further datagrams; each datagram is processed by itself (RFC 2080, section 2.1).
    let room = entries_for_mtu(mtu);
    let mut rest = entries;
    while !rest.is_empty() {
        let (piece, after) = rest.split_at(room.min(rest.len()));
        let bytes = Listed::from_vec(encode(alloc, Command::Response, piece)?);
        sends.push(Outgoing { iface, to, bytes })?;
        rest = after;
    }
    Ok(())
}
