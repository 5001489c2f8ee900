//! The part of a script that lists a network: its routers, their interfaces, and the prefixes that they own.

use crate::forms::Verb;
use crate::{BadLine, Line, Outcome};
use prefix6::{Addr6, Prefix};
use ripng_world::{NetInterface, Node};
use router_core::Interface;
use std::alloc::Global;

/// Adds the part of a network that a line lists, if it lists one.
pub fn list(alloc: Global, nodes: &mut Vec<Node>, line: &Line<'_>) -> Outcome {
    match line.verb {
        Verb::Router(quiet) => Ok(nodes.push(Node {
            interfaces: Vec::new(alloc),
            prefixes: Vec::new(alloc),
            quiet,
        })?),
        Verb::Interface => {
            let (addr, cost, mtu, link) = (line.addr, line.cost, line.mtu, line.link);
            let interface = Interface {
                addr,
                cost,
                mtu,
                zone: 0,
            };
            let interface = NetInterface { interface, link };
            let node = nodes.last_mut().ok_or(BadLine::NoRouter)?;
            Ok(node.interfaces.push(interface)?)
        }
        Verb::Prefixes => own(nodes.last_mut().ok_or(BadLine::NoRouter)?, line),
        _ => Ok(()),
    }
}

/// A router owns a row of as many prefixes as a line says.
fn own(node: &mut Node, line: &Line<'_>) -> Outcome {
    let mut next = Some(line.prefix);
    for _ in 0..line.count {
        let prefix = next.ok_or(BadLine::PastLastPrefix)?;
        node.prefixes.push((prefix, line.tag))?;
        next = next_prefix(prefix);
    }
    Ok(())
}

/// The prefix of the same length whose addresses follow those of a prefix, if there is one.
fn next_prefix(prefix: Prefix) -> Option<Prefix> {
    let size = 1u128 << 127u8.saturating_sub(prefix.len().checked_sub(1)?);
    let bits = prefix.addr().bits().checked_add(size)?;
    Prefix::new(Addr6::from_bits(bits), prefix.len()).ok()
}
