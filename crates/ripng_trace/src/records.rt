//! The records of a trace. Each is a line of JSON, whose members stand in the order of the fields, after the record's name; or lines
//! of English, of which each part is one of its members. Moments and deadlines are in milliseconds, metrics and costs in hops; all
//! numbers count from 0, except those of lines.

use fib::{Hop, RouteChange};
use prefix6::{Addr6, Prefix};
use ripng_lab::{Counts, MadePhases, Names};
use ripng_wire::{Command, decode};
use ripng_world::{Event, Sent};
use route_table::{Deadline, Route};
use router_core::{Answer, Arrival, Change, Interface, Note, Reason};
use std::fmt::{self, Display, Formatter, Write};

/// The routers have started: the network, each router's first state, and what they sent.
#[derive(Drop)]
pub struct StartRecord<'a> {
    pub line: usize,
    pub now: u64,
    pub routers: Vec<RouterRecord>,
    /// Each datagram that was sent, with its number among all that were ever sent.
    pub sent: Vec<(usize, &'a Sent)>,
}

/// A router that has started.
#[derive(Drop)]
pub struct RouterRecord {
    pub quiet: bool,
    /// Each with the number of its link, which is missing only where the network has no such interface.
    pub interfaces: Vec<(Interface, Option<u32>)>,
    /// Those that it owns, each with its tag.
    pub prefixes: Vec<(Prefix, u16)>,
    pub timers: Timers,
    pub routes: Vec<(Prefix, Route)>,
}

/// An event was done: what a router was given, what it answered, and what it then was.
#[derive(Drop)]
pub struct EventRecord<'a, 'b> {
    pub line: usize,
    pub router: usize,
    /// The moment of the event; a router takes a moment before its last one for that.
    pub now: u64,
    pub happened: Happened<'a, 'b>,
    pub answer: &'a Answer,
    /// What a delivered Response offered, except entries that have a note.
    pub offers: Vec<OfferRecord>,
    pub update: Option<UpdateRecord>,
    pub sent: Vec<(usize, &'a Sent)>,
    pub timers: Option<Timers>,
    pub news: News,
}

impl<'a, 'b> EventRecord<'a, 'b> {
    /// Whether a forwarding table changes, or a route is deleted.
    pub fn changes_tables(&self) -> bool {
        !(self.answer.changes.as_slice().is_empty() && self.news.gone.is_empty())
    }
}

/// What a reader who knows a table has to learn of what it is now.
#[derive(Drop)]
pub struct News {
    /// The routes that are new or have changed, to put into it once the prefixes are taken out.
    pub routes: Vec<(Prefix, Route)>,
    /// The prefixes that had a route and have none.
    pub gone: Vec<Prefix>,
}

/// What happened, and from where.
#[derive(Clone, Copy)]
pub struct Happened<'a, 'b> {
    pub names: Names<'a>,
    /// Whether nothing is said in English of ticks and arrivals that change no forwarding table.
    pub changes_only: bool,
    pub event: &'a Event<'b>,
    /// Whether links that come up are those on which a router asks by itself.
    pub asks: bool,
    /// Whether the outside host of the event forges a Response, which the router takes for a neighbor's.
    pub is_forged: bool,
    /// The router without poisoned reverse (`horizon`) that it comes from, if one sent it.
    pub forger: Option<usize>,
    /// The datagram of a delivery, and the address of the interface that it was sent from.
    pub sender: Option<(&'a Sent, Option<Addr6>)>,
}

/// An offer, and the row of the table of adoption that it fell under (RFC 2080, section 2.4.2).
#[derive(Clone, Copy)]
pub struct OfferRecord {
    pub entry: usize,
    pub prefix: Prefix,
    /// With the cost of the interface that it came on.
    pub metric: u8,
    pub tag: u16,
    pub next_hop: Addr6,
    pub why: Reason,
}

/// Which update was due at a tick (RFC 2080, sections 2.3 and 2.5.1).
#[derive(Clone, Copy)]
pub enum UpdateRecord {
    /// It advertises all routes.
    Regular,
    /// It advertises those whose route change flag is set.
    Triggered,
    /// A route change flag is set, and the delay after the last triggered update is not over.
    Held,
}

/// The timers of a router.
#[derive(Clone, Copy)]
pub struct Timers {
    /// The moment of its last step.
    pub last: u64,
    /// When its next regular update is due.
    pub regular: u64,
    /// Until when it delays triggered updates.
    pub hold: u64,
    /// When the next route expires or is deleted, if one has a timer, and the first prefix whose route does.
    pub due: Option<(Deadline, Prefix)>,
}

/// What a line did beside events.
#[derive(Drop)]
pub struct AsideRecord<'a> {
    pub line: usize,
    pub action: Action<'a>,
}

/// What a line of a script does beside events.
#[derive(Drop)]
pub enum Action<'a> {
    /// It prints something: a line `print`, `sent` or `say`.
    Prints {
        /// The first word of the line.
        word: &'static str,
        lines: Vec<&'a str>,
        /// The same as it is printed.
        text: &'a str,
    },
    /// A router asks its neighbors for their tables, since it has lost a route: its Requests are the next events.
    Asks {
        names: Names<'a>,
        router: usize,
        /// The moment of its Requests.
        now: u64,
        /// The prefix of the route.
        lost: Prefix,
        lost_at: u64,
    },
    /// The datagram of this number is lost from now on.
    Loses(usize),
    /// This many rounds were made.
    GoesRound {
        rounds: usize,
        /// In which of them, numbered from 0, a forwarding table last changed, or a route was last deleted.
        last: Option<usize>,
    },
    /// Phases were made.
    Makes(MadePhases),
    /// Time has passed until this moment, at random by this seed.
    Runs {
        until: u64,
        seed: u64,
    },
    /// What has happened since the start, in numbers.
    Tallies(Counts),
    /// It is refused, or expects what is not so, and ends the script.
    Ends {
        /// What stands between `line L ` and `why` where the script is run.
        how: &'static str,
        /// What stands after `line L refused ` where the script is run, or after `line L ` of what is not as expected.
        why: &'a str,
        /// The hint that standard error has where the script is run, after the number of the line that has the fault.
        hint: Option<(usize, String)>,
    },
}

/// Writes a router: its name if it has one, or its number as in `R0`.
fn write_router<W: Write>(names: Names<'_>, router: usize, f: &mut Formatter<W>) -> fmt::Result {
    let named = names.of(router);
    let sign = if named.name.is_some() { "" } else { "R" };
    write!(f, "{sign}{named}")
}

/// Writes what the line of a start or of an event begins with: its number, and the moment in seconds.
fn write_head<W: Write>(line: usize, now: u64, f: &mut Formatter<W>) -> fmt::Result {
    write!(f, "line {line}: {}.{:03} s ", now / 1000, now % 1000)
}

impl<'a> Display for StartRecord<'a> {
    fn fmt<W: Write>(&self, f: &mut Formatter<W>) -> fmt::Result {
        write_head(self.line, self.now, f)?;
        let (routers, sent) = (self.routers.len(), self.sent.len());
        writeln!(f, "{routers} routers start; {sent} datagrams are sent")
    }
}

impl<'a, 'b> Display for Happened<'a, 'b> {
    fn fmt<W: Write>(&self, f: &mut Formatter<W>) -> fmt::Result {
        match self.event {
            Event::Deliver {
                datagram,
                iface,
                ..
            } => {
                write!(f, "hears datagram {datagram}")?;
                if let Some((sent, _)) = self.sender {
                    f.write_str(" of ")?;
                    write_router(self.names, sent.router, f)?;
                }
                write!(f, " on interface {iface}")
            }
            Event::Stranger { arrival, .. } => self.write_stranger(arrival, f),
            Event::Tick { .. } => f.write_str("looks at its timers"),
            Event::Restart { .. } => f.write_str("starts again"),
            Event::Shutdown { .. } => f.write_str("shuts down"),
            Event::LinkDown { iface, .. } => {
                write!(f, "sees the link of interface {iface} go down")
            }
            Event::LinkUp { iface, .. } if self.asks => write!(f, "asks on interface {iface}"),
            Event::LinkUp { iface, .. } => write!(f, "sees the link of interface {iface} come up"),
            Event::Reconfigure { change, .. } => match change {
                Change::Cost { iface, cost } => write!(f, "has cost {cost} on interface {iface}"),
                Change::Own { prefix, tag } => write!(f, "owns {prefix} with tag {tag}"),
                Change::Disown { prefix } => write!(f, "owns {prefix} no longer"),
            },
        }
    }
}

impl<'a, 'b> Happened<'a, 'b> {
    /// Writes the arrival of an outside host's datagram, of a forged Response, or of what a router without poisoned reverse sent.
    fn write_stranger<W: Write>(&self, arrival: &Arrival<'_>, f: &mut Formatter<W>) -> fmt::Result {
        let Arrival { source, iface, .. } = arrival;
        if let Some(forger) = self.forger {
            f.write_str("hears ")?;
            write_router(self.names, forger, f)?;
            write!(f, ", which is not RIPng, on interface {iface}")?;
            return write_message(arrival.bytes, f);
        }
        if self.is_forged {
            return write!(
                f,
                "receives a forged Response of {source} on interface {iface}"
            );
        }
        write!(f, "hears the stranger {source} on interface {iface}")
    }
}

/// What an offer became, by its row of the table of adoption.
fn outcome(row: Reason) -> &'static str {
    match row {
        Reason::Nothing => "unreachable, and none is held: nothing changes",
        Reason::Added => "none is held: added",
        Reason::Owned => "its own route stays",
        Reason::GivenUp => "its gateway gives it up: lost",
        Reason::Refreshed => "its gateway tells it again: refreshed",
        Reason::Cheaper => "cheaper: taken",
        Reason::Older => "equal, and half of the timeout has passed: taken",
        Reason::Dearer => "dearer: nothing changes",
        Reason::Young => "equal, and half of the timeout has not passed: nothing changes",
        Reason::Revived => "the route was lost: taken",
        Reason::Gone => "the route is lost already: nothing changes",
    }
}

/// What a datagram says: of a Response each entry, with its metric.
fn write_message<W: Write>(bytes: &[u8], f: &mut Formatter<W>) -> fmt::Result {
    let Ok(message) = decode(bytes) else {
        return Ok(());
    };
    if message.command() == Command::Request {
        return f.write_str(": a Request");
    }
    for (place, entry) in message.entries().enumerate() {
        f.write_str(if place == 0 { ":" } else { "," })?;
        let addr = Addr6::from_bits(entry.addr);
        match Prefix::new(addr, entry.len) {
            Ok(prefix) if !entry.is_next_hop() => write!(f, " {prefix} at {}", entry.metric)?,
            _ => write!(f, " next hop {addr}")?,
        }
    }
    Ok(())
}

impl<'a, 'b> Display for EventRecord<'a, 'b> {
    fn fmt<W: Write>(&self, f: &mut Formatter<W>) -> fmt::Result {
        let happened = &self.happened;
        let is_moving = matches!(
            happened.event,
            Event::Deliver { .. } | Event::Stranger { .. } | Event::Tick { .. }
        );
        if happened.changes_only && is_moving && !self.changes_tables() {
            return Ok(());
        }
        write_head(self.line, self.now, f)?;
        write_router(happened.names, self.router, f)?;
        write!(f, " {happened}")?;
        if let Some(fault) = self.answer.fault {
            write!(f, "; it is refused, {fault}")?;
        }
        match self.update {
            Some(UpdateRecord::Regular) => f.write_str("; a regular update is due")?,
            Some(UpdateRecord::Triggered) => f.write_str("; a triggered update is due")?,
            Some(UpdateRecord::Held) => f.write_str("; a triggered update is held")?,
            None => {}
        }
        write_told(self, f)?;
        if happened.is_forged && happened.forger.is_none() {
            f.write_str("; from here on nothing is promised")?;
        }
        f.write_str("\n")
    }
}

/// Writes what was offered, skipped, changed, deleted and sent.
fn write_told<W: Write>(record: &EventRecord<'_, '_>, f: &mut Formatter<W>) -> fmt::Result {
    for offer in &record.offers {
        let (prefix, metric) = (offer.prefix, offer.metric);
        write!(f, "; {prefix} at {metric}, {}", outcome(offer.why))?;
    }
    for Note { entry, kind } in record.answer.notes.as_slice() {
        write!(f, "; entry {entry} is skipped, {kind}")?;
    }
    for change in record.answer.changes.as_slice() {
        match change {
            RouteChange::Install { prefix, hop, .. } => match hop {
                Hop::Direct => write!(f, "; {prefix} is forwarded directly")?,
                Hop::Via { next_hop, .. } => write!(f, "; {prefix} is forwarded to {next_hop}")?,
            },
            RouteChange::Withdraw { prefix } => write!(f, "; {prefix} is forwarded no more")?,
        }
    }
    for prefix in &record.news.gone {
        write!(f, "; the route to {prefix} is deleted")?;
    }
    for (datagram, sent) in &record.sent {
        let iface = sent.iface;
        write!(f, "; datagram {datagram} is sent on interface {iface}")?;
        write_message(sent.bytes.as_slice(), f)?;
    }
    Ok(())
}

impl<'a> Display for AsideRecord<'a> {
    fn fmt<W: Write>(&self, f: &mut Formatter<W>) -> fmt::Result {
        let line = self.line;
        match &self.action {
            Action::Prints { text, .. } => f.write_str(*text),
            &Action::Asks {
                names,
                router,
                now,
                lost,
                lost_at,
            } => {
                write_head(line, now, f)?;
                write_router(names, router, f)?;
                let (seconds, rest) = (lost_at / 1000, lost_at % 1000);
                writeln!(
                    f,
                    " asks its neighbors: it lost the route to {lost} at {seconds}.{rest:03} s"
                )
            }
            Action::Loses(datagram) => writeln!(f, "line {line}: datagram {datagram} is lost"),
            Action::GoesRound { rounds, last } => {
                write!(f, "line {line}: {rounds} rounds are made; ")?;
                match last {
                    Some(at) => writeln!(f, "tables last changed in round {at}, counted from 0"),
                    None => writeln!(f, "no table changed"),
                }
            }
            Action::Makes(made) => writeln!(f, "{made}"),
            Action::Runs { until, .. } => {
                let (seconds, rest) = (until / 1000, until % 1000);
                writeln!(
                    f,
                    "line {line}: time has passed until {seconds}.{rest:03} s"
                )
            }
            Action::Tallies(counts) => writeln!(f, "{counts}"),
            Action::Ends { how, why, .. } => writeln!(f, "line {line} {how}{why}"),
        }
    }
}
