//! A store of routes, and a forwarding table.

use crate::row::{Done, Row, moment};
use crate::writing::{write_due, write_entries, write_found, write_hop, write_one, write_routes};
use fib::{Fib, Hop, RouteChange};
use prefix6::{Addr6, Prefix};
use route_table::{Origin, Route, RouteStore};
use std::mem;
use std::time::Instant;

/// A store, and a forwarding table with the changes that are to be applied next.
#[derive(Drop)]
pub struct Tables<S: RouteStore> {
    pub store: S,
    pub fib: Fib,
    pub changes: Vec<RouteChange>,
}

/// A route of metric 2 and tag 7 that was learned of fe80::2, by way of fe80::9, and is alive until a moment.
fn live(until: u32) -> Route {
    let origin = Origin::Learned {
        iface: 0,
        from: Addr6::from_bits((0xfe80 << 112) + 2),
        next_hop: Addr6::from_bits((0xfe80 << 112) + 9),
    };
    Route::live(2, 7, origin, moment(0).later(until))
}

/// The route that `own TAG`, `live UNTIL` or `lost UNTIL` says, with a mark if `changed` follows.
fn read_route(row: &mut Row<'_>) -> Route {
    let route = match row.next() {
        "own" => Route::own(row.read(0)),
        "live" => live(row.read(0)),
        _ => live(0).lost(moment(0).later(row.read(0))),
    };
    route.with_mark(row.next() == "changed")
}

/// The change that `PREFIX direct METRIC` or `PREFIX ADDR METRIC` asks for, by a neighbor on interface 0.
fn read_install(row: &mut Row<'_>) -> RouteChange {
    RouteChange::Install {
        prefix: row.prefix(),
        hop: match row.next().parse() {
            Ok(next_hop) => Hop::Via { iface: 0, next_hop },
            Err(_) => Hop::Direct,
        },
        metric: row.read(0),
    }
}

/// How many entries of a table have an address that is found there.
fn found_in(fib: &Fib) -> u64 {
    let mut count: u64 = 0;
    for (prefix, _, _) in fib.entries() {
        let is_found = fib.lookup(prefix.addr()).is_some();
        count = count.saturating_add(u64::from(is_found));
    }
    count
}

impl<S: RouteStore> Tables<S> {
    /// Adds a route to a prefix that has none, or changes the one it has.
    fn change(&mut self, row: &mut Row<'_>) -> Done {
        let (prefix, store) = (row.prefix(), &mut self.store);
        match (row.call, store.get(&prefix).is_some()) {
            ("add", true) => return writeln!(row.text, "it has a route"),
            ("add", false) => {
                if let Err(why) = store.add(prefix, read_route(row)) {
                    writeln!(row.text, "refused {} {}: {why}", why.number(), why.name())?;
                }
            }
            (_, false) => return writeln!(row.text, "no route"),
            ("replace", true) => store.replace(&prefix, read_route(row)),
            (_, true) => store.remove(&prefix),
        }
        Ok(())
    }

    /// The first route, or the first past a prefix: of all, of those that are due, of those that are marked.
    fn walk(&self, row: &mut Row<'_>) -> Option<(Prefix, Route)> {
        let due = if row.call == "walk-due" {
            row.read(0)
        } else {
            0
        };
        let after = match row.rest {
            "" => None,
            _ => Some(row.prefix()),
        };
        match row.call {
            "walk" => self.store.walk(after),
            "walk-due" => self.store.walk_due(after, moment(due)),
            _ => self.store.walk_changed(after),
        }
    }

    /// Does a command of the forwarding table. Of `apply` and `lookups` it is told how long they take, if that is asked.
    fn forward(&mut self, row: &mut Row<'_>) -> Done {
        let (fib, start) = (&mut self.fib, Instant::now(&row.rt));
        match row.call {
            "install" => self.changes.push(read_install(row))?,
            "withdraw" => {
                let prefix = row.prefix();
                self.changes.push(RouteChange::Withdraw { prefix })?;
            }
            "apply" => {
                if fib.apply(&self.changes).is_err() {
                    return row.refuse();
                }
                self.changes.clear();
            }
            "lookups" => {
                let count = found_in(fib);
                writeln!(row.text, "{count}")?;
            }
            "lookup" => match fib.lookup(row.read(Addr6::from_bits(0))) {
                Some(hop) => write_hop(&mut row.text, hop)?,
                None => writeln!(row.text, "no hop")?,
            },
            "entries" => write_entries(&mut row.text, fib)?,
            _ => row.is_bad = true,
        }
        if row.form == "time" {
            row.tell_time(start)
        } else {
            Ok(())
        }
    }

    /// Does a command.
    pub fn obey(&mut self, row: &mut Row<'_>) -> Done {
        let store = &mut self.store;
        match row.call {
            "add" | "replace" | "remove" => self.change(row),
            "update" => {
                let (prefix, route) = (row.prefix(), read_route(row));
                let held = store.update(&prefix, |held: &mut Route| mem::replace(held, route));
                write_found(&mut row.text, held.map(|held| (prefix, held)))
            }
            "unmark" => Ok(store.unmark()),
            "get" => write_one(row, store),
            "length" => writeln!(row.text, "{}, empty {}", store.len(), store.is_empty()),
            "list" => write_routes(&mut row.text, store),
            "walk" | "walk-due" | "walk-changed" => {
                let found = self.walk(row);
                write_found(&mut row.text, found)
            }
            "next-due" => write_due(&mut row.text, store.next_due()),
            _ => self.forward(row),
        }
    }
}
