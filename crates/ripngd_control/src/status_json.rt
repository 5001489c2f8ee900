//! The answer to `status json`: what `status` prints, as JSON (RFC 8259).

ghost use Rattle.std.specs.Prelude.{◌≡◌, IfSome, OnOk};
ghost use Rattle.std.specs.FinMap as map_of;
ghost use Rattle.ripngd_control.specs.Common.{Appends, Grows, ago_json, counted_link_json, enumerate_from, json_tokens, link_json, links_seen, list_of, members_of, members_tokens, neighbor_json, refused_json, router_json, rows_at, status_json, status_json_answer, tally_members, text_of};

use crate::counts::{Counts, Losses};
use crate::json_text::JsonText;
use crate::links::LinkTally;
use crate::monitor::Monitor;
use crate::neighbors::{Neighbor, Tally};
use crate::refusals::{REFUSALS, Refusals};
use json::Token;
use rand_core::Rng;
use ripngd_engine::{Engine, Link, Queue, TimeSource};
use route_table::RouteStore;
use router_core::Interface;
use std::alloc::AllocError;
use std::io::{self, Write};

/// Writes how often each rule refused something, by the names of the rules.
fn write_refused(refusals: &Refusals, text: &mut JsonText)
    ensures { Grows text.old text.new (json_tokens (refused_json refusals.now)) }
{
    text.token(Token::BeginObject);
    for refusal in REFUSALS.as_slice() {
        text.count(refusal.name(), refusals.by_number[refusal.number()]);
    }
    text.token(Token::EndObject);
}

/// Writes how many whole seconds have passed since a moment, or `null`.
fn write_ago(now: u64, moment: Option<u64>, text: &mut JsonText)
    ensures { Grows text.old text.new (json_tokens (ago_json now moment)) }
{
    match moment {
        Some(moment) => text.number(now.saturating_sub(moment) / 1_000),
        None => text.token(Token::Null),
    }
}

/// Writes the members of what came of a sender, and ends its object.
fn write_tally(now: u64, tally: &Tally, text: &mut JsonText)
    ensures { Grows text.old text.new (members_tokens (members_of (tally_members now tally.now))) }
{
    text.count("arrivals", tally.arrivals);
    text.count("responses", tally.responses);
    text.count("entries", tally.entries);
    text.token(Token::Key("response_seconds_ago"));
    write_ago(now, tally.last, text);
    text.token(Token::Key("refused"));
    write_refused(&tally.refusals, text);
    text.token(Token::EndObject);
}

/// Writes a neighbor.
fn write_neighbor(now: u64, row: &Neighbor, text: &mut JsonText)
    ensures { Grows text.old text.new (json_tokens (neighbor_json now row.now)) }
{
    text.token(Token::BeginObject);
    text.printed("address", &row.source);
    write_tally(now, &row.tally, text);
}

/// Writes the neighbors at an interface.
fn write_neighbors(now: u64, iface: usize, rows: &[Neighbor], text: &mut JsonText)
    ensures { Grows text.old text.new (json_tokens (list_of (neighbor_json now) (rows_at iface rows.now))) }
{
    text.token(Token::BeginArray);
    for row in rows {
        if row.iface == iface {
            write_neighbor(now, row, text);
        }
    }
    text.token(Token::EndArray);
}

/// Writes an interface, what is counted there and what waits there, its neighbors, and what came of all that sent there.
fn write_link(
    now: u64,
    number: usize,
    interface: Interface,
    counted: &LinkTally,
    queue: Queue,
    rows: &[Neighbor],
    text: &mut JsonText,
)
    ensures { Grows text.old text.new (json_tokens (counted_link_json now rows.now counted.now queue (number, interface))) }
{
    text.token(Token::BeginObject);
    text.count("interface", number as u64);
    text.printed("address", &interface.addr);
    text.count("cost", u64::from(interface.cost));
    text.count("mtu", u64::from(interface.mtu));
    text.count("triggered_updates", counted.triggered);
    text.count("queued", queue.waiting as u64);
    text.count("queued_answers", queue.answers as u64);
    text.token(Token::Key("neighbors"));
    write_neighbors(now, number, rows, text);
    write_tally(now, &counted.tally, text);
}

/// Writes all interfaces.
fn write_links<S: RouteStore, L: Link, C: TimeSource, R: Rng + Drop, E>(
    engine: &Engine<S, L, C, R>,
    monitor: &Monitor<E>,
    now: u64,
    interfaces: &[Interface],
    rows: &[Neighbor],
    text: &mut JsonText,
)
    ensures { Grows text.old text.new (json_tokens (list_of (link_json now rows.now (links_seen monitor.now.links engine.now.queues))
        (enumerate_from 0 interfaces.now))) }
{
    text.token(Token::BeginArray);
    for (number, interface) in interfaces.iter().enumerate() {
        let counted = monitor.link_at(number);
        let queue = engine.queue_at(number);
        write_link(now, number, *interface, &counted, queue, rows, text);
    }
    text.token(Token::EndArray);
}

/// Writes the router's own counts.
fn write_router(now: u64, routes: usize, counts: &Counts, lost: Losses, text: &mut JsonText)
    ensures { Grows text.old text.new (json_tokens (router_json now routes counts.now lost)) }
{
    let report = lost.report;
    text.token(Token::BeginObject);
    text.count("uptime_seconds", now / 1_000);
    text.count("routes", routes as u64);
    text.count("arrivals", counts.arrivals);
    text.count("sends", counts.sends);
    text.count("failed", counts.failed_sends);
    text.count("lost_sends", report.lost_sends);
    text.count("lost_steps", report.lost_memory);
    text.count("lost_arrivals", lost.arrivals);
    text.count("strangers", lost.strangers);
    text.flag("log_failed", report.log_failed);
    text.count("asked", counts.asked);
    text.token(Token::Key("refused"));
    write_refused(&counts.refusals, text);
    text.token(Token::EndObject);
}

/// The text of all that is known, or `None` if there is no memory for it.
fn text_of_status<S: RouteStore, L: Link, C: TimeSource, R: Rng + Drop, E>(
    engine: &Engine<S, L, C, R>,
    monitor: &Monitor<E>,
    lost: Losses,
) -> Option<Vec<u8>>
    ensures { IfSome result (λ text. text.items ≡ text_of (status_json engine.now.router.config.interfaces engine.now.router.last
        (map_of.len engine.now.fib) monitor.now.counts lost monitor.now.neighbors (links_seen monitor.now.links engine.now.queues))) }
{
    let router = engine.router();
    let neighbors = monitor.neighbors();
    let now = router.last().ms();
    let mut text = JsonText::new(neighbors.alloc());
    text.token(Token::BeginObject);
    text.token(Token::Key("router"));
    write_router(now, engine.fib().len(), &monitor.counts(), lost, &mut text);
    text.token(Token::Key("links"));
    let interfaces = router.config().interfaces();
    write_links(
        engine,
        monitor,
        now,
        interfaces,
        neighbors.rows(),
        &mut text,
    );
    text.token(Token::Key("others"));
    text.token(Token::BeginObject);
    write_tally(now, &neighbors.others(), &mut text);
    text.token(Token::EndObject);
    text.whole()
}

/// Writes that text, and `ok`.
///
/// # Errors
/// Out of memory, or the error of `out`.
pub(crate) fn write_status_json<S: RouteStore, L: Link, C: TimeSource, R: Rng + Drop, E, W: Write>(
    engine: &Engine<S, L, C, R>,
    monitor: &Monitor<E>,
    lost: Losses,
    out: &mut W,
) -> io::Result<()>
    ensures { OnOk result (Appends (W.contents out.old) (W.contents out.new)
        (status_json_answer engine.now.router.config.interfaces engine.now.router.last (map_of.len engine.now.fib) monitor.now.counts lost
        monitor.now.neighbors (links_seen monitor.now.links engine.now.queues))) }
{
    let Some(text) = text_of_status(engine, monitor, lost) else {
        return Err(io::Error::from(AllocError));
    };
    out.write_all(text.as_slice())?;
    writeln!(out, "\nok")
}
