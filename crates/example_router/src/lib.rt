//! One router over a queue in memory in place of a link: how another program uses the core.
#![tactic(auto)]

use fib::RouteChange;
use prefix6::Addr6;
use route_table::{Moment, TrieRoutes};
use router_core::{Answer, Arrival, Interface, Outgoing, Router, RouterConfig};
use std::alloc::Global;
use std::collections::VecDeque;
use std::io::{self, Error, ErrorKind, Write};

type Queue = VecDeque<Outgoing>;

/// The Response of a neighbor that advertises `2001:db8::/48` with metric 1.
const ADVERTISED: [u8; 24] = [
    2, 1, 0, 0, 0x20, 0x01, 0x0d, 0xb8, 0, 0, 0, 0, 0, 0, 0, 0, 0, 0, 0, 0, 0, 0, 48, 1,
];

/// A link-local address.
fn link_local(host: u128) -> Addr6 {
    Addr6::from_bits((0xfe80 << 112) | host)
}

/// A router with one interface, which owns no prefix.
fn config(alloc: Global) -> io::Result<RouterConfig> {
    let interface = Interface {
        addr: link_local(1),
        cost: 1,
        mtu: 1500,
        zone: 0,
    };
    let interfaces = vec![in alloc; interface]?;
    match RouterConfig::check(interfaces, Vec::new(alloc), false) {
        Ok(config) => Ok(config),
        Err(_) => Err(Error::from(ErrorKind::InvalidInput)),
    }
}

/// Carries out an answer: its changes are written, and its datagrams are queued.
fn carry_out<W: Write>(out: &mut W, queue: &mut Queue, ms: u64, answer: Answer) -> io::Result<()> {
    for change in answer.changes.as_slice() {
        match change {
            RouteChange::Install { prefix, metric, .. } => {
                writeln!(out, "{ms} ms: {prefix} metric {metric}")?
            }
            RouteChange::Withdraw { prefix } => writeln!(out, "{ms} ms: {prefix} is gone")?,
        }
    }
    for datagram in answer.sends.into_vec() {
        queue.push_back(datagram)?;
    }
    Ok(())
}

/// Runs a router whose neighbor sends one update and then no more. Writes each change of the forwarding table with its time, and at the
/// end how many datagrams the queue has.
///
/// # Errors
/// Out of memory, or the error of `out`.
pub fn run<W: Write>(alloc: Global, out: &mut W) -> io::Result<()> {
    let mut now = Moment::new(0).unwrap();
    let mut queue = VecDeque::new(alloc);
    let (mut router, answer) = Router::<TrieRoutes>::start(alloc, config(alloc)?, now)?;
    carry_out(out, &mut queue, now.ms(), answer)?;
    let arrival = Arrival {
        now,
        iface: 0,
        source: link_local(2),
        source_port: 521,
        hop_limit: 255,
        to_group: true,
        bytes: &ADVERTISED,
    };
    // Always true here. `arrive` requires an interface that the router has, and this test shows it to the prover.
    if arrival.iface < router.config().interfaces().len() {
        carry_out(out, &mut queue, now.ms(), router.arrive(arrival)?)?;
    }
    for _ in 0..20 {
        carry_out(out, &mut queue, now.ms(), router.tick(now, 0)?)?;
        now = Moment::new(router.wakes_at().ms()).unwrap_or(now);
    }
    writeln!(out, "{} datagrams", queue.len())
}
