//! What is written of routes, hops, answers and routers.

use crate::row::{Done, Row};
use fib::{Fib, Hop, RouteChange};
use prefix6::Prefix;
use route_table::{Clock, Deadline, Origin, Route, RouteStore};
use router_core::{Answer, Destination, Outgoing, Router};

/// Bytes behind a space, four a word, as RFC 2080 draws a datagram.
pub fn write_bytes(out: &mut String, bytes: &[u8]) -> Done {
    for (place, byte) in bytes.iter().enumerate() {
        let space = if place % 4 == 0 { " " } else { "" };
        write!(out, "{space}{byte:02x}")?;
    }
    Ok(())
}

/// A datagram that is sent: the interface, to whom, and its bytes. The line has no end yet.
pub fn write_send(out: &mut String, send: &Outgoing) -> Done {
    match send.to {
        Destination::Group => write!(out, "send {} group", send.iface)?,
        Destination::Peer { addr, port } => write!(out, "send {} peer {addr} {port}", send.iface)?,
    }
    write_bytes(out, send.bytes.as_slice())
}

pub fn write_hop(out: &mut String, hop: Hop) -> Done {
    match hop {
        Hop::Direct => writeln!(out, "direct"),
        Hop::Via { iface, next_hop } => writeln!(out, "via {next_hop} iface {iface}"),
    }
}

/// A route that was found with its prefix: metric, tag, where it comes from, its deadline, and whether it is marked as changed.
pub fn write_found(out: &mut String, found: Option<(Prefix, Route)>) -> Done {
    let Some((prefix, route)) = found else {
        return writeln!(out, "no route");
    };
    let (metric, tag) = (route.metric(), route.tag());
    write!(out, "{prefix} metric {metric} tag {tag}")?;
    match route.origin() {
        Origin::Own => write!(out, " own")?,
        Origin::Learned {
            iface,
            from,
            next_hop,
        } => write!(out, " via {next_hop} iface {iface} from {from}")?,
    }
    match route.clock() {
        Clock::Fixed => {}
        Clock::Live(until) => write!(out, " live until {}", until.ms())?,
        Clock::Dying(until) => write!(out, " dying until {}", until.ms())?,
    }
    writeln!(out, "{}", if route.is_changed() { " changed" } else { "" })
}

/// The route to the prefix that the next word says.
pub fn write_one<S: RouteStore>(row: &mut Row<'_>, store: &S) -> Done {
    let prefix = row.prefix();
    let found = store.get(&prefix).map(|route| (prefix, route));
    write_found(&mut row.text, found)
}

/// All routes of a store, in order.
pub fn write_routes<S: RouteStore>(out: &mut String, store: &S) -> Done {
    let mut routes = Vec::with_capacity(*out.allocator(), store.len())?;
    store.list(&mut routes);
    for (prefix, route) in routes {
        write_found(out, Some((prefix, route)))?;
    }
    Ok(())
}

/// When something is due, and which.
pub fn write_due(out: &mut String, due: Option<(Deadline, Prefix)>) -> Done {
    match due {
        Some((until, prefix)) => writeln!(out, "{} {prefix}", until.ms()),
        None => writeln!(out, "nothing is due"),
    }
}

/// All entries of a forwarding table, in order, and how many there are.
pub fn write_entries(out: &mut String, fib: &Fib) -> Done {
    for (prefix, hop, metric) in fib.entries() {
        write!(out, "{prefix} metric {metric} ")?;
        write_hop(out, hop)?;
    }
    writeln!(out, "{} entries, empty {}", fib.len(), fib.is_empty())
}

fn write_change(out: &mut String, change: &RouteChange) -> Done {
    match *change {
        RouteChange::Install {
            prefix,
            hop,
            metric,
        } => {
            write!(out, "add {prefix} metric {metric} ")?;
            write_hop(out, hop)
        }
        RouteChange::Withdraw { prefix } => writeln!(out, "del {prefix}"),
    }
}

/// All that a call answered: fault, sends, changes and notes, a line each.
pub fn write_answer(out: &mut String, answer: &Answer) -> Done {
    if let Some(fault) = answer.fault {
        writeln!(out, "fault {fault:?}")?;
    }
    for send in answer.sends.as_slice() {
        write_send(out, send)?;
        writeln!(out)?;
    }
    for change in answer.changes.as_slice() {
        write_change(out, change)?;
    }
    for note in answer.notes.as_slice() {
        writeln!(out, "note {} {:?}", note.entry, note.kind)?;
    }
    Ok(())
}

/// Every route of a router, in order; the moment of its last step, when its next regular update is due, and until when it holds
/// triggered ones.
pub fn write_router<S: RouteStore>(out: &mut String, router: &Router<S>) -> Done {
    write_routes(out, router.routes())?;
    let (last, regular) = (router.last().ms(), router.regular().ms());
    let hold = router.hold().ms();
    writeln!(out, "last {last} regular {regular} hold {hold}")
}

/// All that a router's readers say.
pub fn write_readers<S: RouteStore>(out: &mut String, router: &Router<S>) -> Done {
    let config = router.config();
    writeln!(out, "{:?} {}", config.prefixes(), config.is_quiet())?;
    writeln!(out, "{:?}", config.interfaces())?;
    write_router(out, router)
}
