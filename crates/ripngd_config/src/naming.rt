//! The place of a fault, for people: the line and column of a text that is no TOML, and the interface or prefix that the router's own
//! check refuses. It is tested; no contract speaks of it.

use crate::tables::{Document, InterfaceTable, PrefixTable};
use router_core::{ConfigRefused, Interface, RouterConfig};
use std::alloc::{AllocError, Global};

/// The line and the column, as an editor counts, at the end of these bytes at the head of a text.
pub(crate) fn end_of(alloc: Global, before: &[u8]) -> Result<String, AllocError> {
    let (mut line, mut column) = (1_usize, 1_usize);
    for byte in before {
        if *byte == b'\n' {
            line = line.saturating_add(1);
            column = 1;
        } else if *byte & 0xC0 != 0x80 {
            column = column.saturating_add(1);
        }
    }
    format!(in alloc; "line {line}, column {column}")
}

/// The first interface with which the interfaces are refused.
fn refused_interface(
    alloc: Global,
    tables: &[InterfaceTable],
) -> Result<Option<String>, AllocError> {
    for (index, table) in tables.iter().enumerate() {
        let first = &tables[..index + 1];
        let interfaces: Vec<Interface> = first.iter().map(|table| table.interface).collect(alloc)?;
        if RouterConfig::check(interfaces, Vec::new(alloc), false).is_err() {
            let addr = table.interface.addr;
            return Ok(Some(format!(in alloc; "interface {index}, {addr}")?));
        }
    }
    Ok(None)
}

/// The first prefix that is not allowed, or that an earlier one repeats.
fn refused_prefix(alloc: Global, tables: &[PrefixTable]) -> Result<Option<String>, AllocError> {
    for (index, table) in tables.iter().enumerate() {
        let prefix = table.prefix;
        let earlier = &tables[..index];
        if !prefix.is_routable() || earlier.iter().any(|table| table.prefix == prefix) {
            return Ok(Some(format!(in alloc; "prefix {prefix}")?));
        }
    }
    Ok(None)
}

/// The interface or the prefix that the router's own check refuses for this reason, or `None` if it refuses the whole.
pub(crate) fn refused_part(
    alloc: Global,
    document: &Document,
    why: ConfigRefused,
) -> Result<Option<String>, AllocError> {
    match why {
        ConfigRefused::NoInterface
        | ConfigRefused::TooManyInterfaces
        | ConfigRefused::TooManyPrefixes => Ok(None),
        ConfigRefused::PrefixTwice | ConfigRefused::PrefixNotAllowed => {
            refused_prefix(alloc, &document.prefixes)
        }
        _ => refused_interface(alloc, &document.interfaces),
    }
}
