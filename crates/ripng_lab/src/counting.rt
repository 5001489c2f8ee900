//! What has happened in a network since its start, in numbers: what its routers sent, why, and how their forwarding tables changed.

ghost use Rattle.std.specs.Prelude.{◌≡◌, IfOk, OnErr, drop, false, true};
ghost use Rattle.ripng_lab.specs.Common.{brings, cause_of, counted, counted_change, counted_changes, counted_datagram, counted_datagrams, counted_update, counts_at_start, command_number, entries_in, event_of, has_command, last_at, no_counts, timing_at, timings_after, timings_in};

use crate::Network;
use crate::context::OrNone;
use fib::RouteChange;
use prefix6::Prefix;
use ripng_wire::Command;
use ripng_world::{Event, Sent};
use route_table::Moment;
use router_core::Answer;
use std::alloc::{AllocError, Global};
use std::fmt;

/// How many bytes of a datagram stand before its entries, and how many each entry has (RFC 2080, section 2.1).
const HEADER: u64 = 4;

const ENTRY: u64 = 20;

/// Which update a router makes at a tick (RFC 2080, sections 2.3 and 2.5.1).
#[derive(Clone, Copy, Debug, PartialEq, Eq)]
pub enum Cause {
    Regular,
    Triggered,
}

/// The change of an entry of a forwarding table.
#[derive(Clone, Copy, Debug, PartialEq, Eq)]
pub struct TableChange {
    /// The moment of the router's step.
    pub at: Moment,
    pub router: usize,
    pub prefix: Prefix,
}

/// Numbers since the start. None is above 2^64 - 1: it stays there.
#[derive(Clone, Copy, Debug, PartialEq, Eq)]
pub struct Counts {
    /// The datagrams that routers sent.
    pub datagrams: u64,
    /// The entries of the Responses among them.
    pub entries: u64,
    /// The bytes of all of them, without the headers of UDP and IPv6.
    pub bytes: u64,
    /// Regular updates: the ticks at which one was due.
    pub regular: u64,
    /// Triggered updates: the ticks at which one was due, and no regular one.
    pub triggered: u64,
    /// The Requests among the datagrams.
    pub requests: u64,
    /// The Responses among them that answer a datagram.
    pub replies: u64,
    /// The changes of forwarding tables, of one entry each.
    pub changes: u64,
    /// The last of these.
    pub last: Option<TableChange>,
}

impl Counts {
    /// Nothing has happened yet.
    pub fn new() -> Counts
        ensures { result ≡ no_counts }
    {
        Counts {
            datagrams: 0,
            entries: 0,
            bytes: 0,
            regular: 0,
            triggered: 0,
            requests: 0,
            replies: 0,
            changes: 0,
            last: None,
        }
    }

    /// A router made an update, if it did.
    fn with_update(self, cause: Option<Cause>) -> Counts
        ensures { result ≡ counted_update cause self }
    {
        match cause {
            Some(Cause::Regular) => Counts {
                regular: self.regular.saturating_add(1),
                ..self
            },
            Some(Cause::Triggered) => Counts {
                triggered: self.triggered.saturating_add(1),
                ..self
            },
            None => self,
        }
    }

    /// A router sent a datagram, as an answer to one that came, or of itself.
    pub fn with_datagram(self, answers: bool, bytes: &[u8]) -> Counts
        ensures { result ≡ counted_datagram answers bytes.now self }
    {
        let is_request = has_command(bytes, Command::Request);
        let is_reply = has_command(bytes, Command::Response) && answers;
        Counts {
            datagrams: self.datagrams.saturating_add(1),
            entries: self.entries.saturating_add(entries_in(bytes)),
            bytes: self.bytes.saturating_add(bytes.len() as u64),
            requests: self.requests.saturating_add(u64::from(is_request)),
            replies: self.replies.saturating_add(u64::from(is_reply)),
            ..self
        }
    }

    /// A router sent the datagrams from a number on.
    fn with_datagrams(self, answers: bool, sent: &[Sent], first: usize) -> Counts
        ensures { result ≡ counted_datagrams answers (drop first sent.now) self }
    {
        let mut counts = self;
        for number in first..sent.len() {
            counts = counts.with_datagram(answers, sent[number].bytes.as_slice());
        }
        counts
    }

    /// An entry of a router's forwarding table changed.
    fn with_change(self, router: usize, at: Moment, change: &RouteChange) -> Counts
        ensures { result ≡ counted_change router at change.now self }
    {
        let prefix = match *change {
            RouteChange::Install { prefix, .. } | RouteChange::Withdraw { prefix } => prefix,
        };
        Counts {
            changes: self.changes.saturating_add(1),
            last: Some(TableChange { at, router, prefix }),
            ..self
        }
    }

    /// A router's forwarding table changed so, in order.
    fn with_changes(self, router: usize, at: Moment, changes: &[RouteChange]) -> Counts
        ensures { result ≡ counted_changes router at changes.now self }
    {
        let mut counts = self;
        for change in changes {
            counts = counts.with_change(router, at, change);
        }
        counts
    }
}

impl fmt::Display for Counts {
    fn fmt<W: fmt::Write>(&self, f: &mut fmt::Formatter<W>) -> fmt::Result {
        let (datagrams, entries, bytes) = (self.datagrams, self.entries, self.bytes);
        let (regular, triggered) = (self.regular, self.triggered);
        let (requests, replies, changes) = (self.requests, self.replies, self.changes);
        let last = OrNone(self.last.map(|change| change.at.ms()));
        write!(f, "datagrams {datagrams} entries {entries} bytes {bytes} ")?;
        write!(f, "regular {regular} triggered {triggered} ")?;
        write!(f, "requests {requests} replies {replies} ")?;
        write!(f, "changes {changes} last {last}")
    }
}

/// Whether a datagram has that command.
fn has_command(bytes: &[u8], command: Command) -> bool
    ensures { result ≡ has_command (command_number command) bytes.now }
{
    match bytes.first() {
        Some(first) => *first == command as u8,
        None => false,
    }
}

/// How many entries a Response has; of a datagram that is none, 0.
fn entries_in(bytes: &[u8]) -> u64
    ensures { result ≡ entries_in bytes.now }
{
    if has_command(bytes, Command::Response) {
        (bytes.len() as u64).saturating_sub(HEADER) / ENTRY
    } else {
        0
    }
}

/// When a router's next regular update is due, and until when it delays triggered ones, in milliseconds.
#[derive(Clone, Copy, Debug, PartialEq, Eq)]
struct Timing {
    regular: u64,
    hold: u64,
}

/// Counts what happens in a network, event by event, from its start on.
#[derive(Drop)]
pub struct Counter {
    alloc: Global,
    counts: Counts,
    /// Of each router, as it is.
    timings: Vec<Timing>,
    /// Whether memory ran out for these at the start: then no update is told from another.
    refused: bool,
}

impl Counter {
    /// Nothing has happened yet.
    pub fn new(alloc: Global) -> Counter
        ensures counts { result.counts ≡ no_counts }
        ensures refused { result.refused ≡ false }
    {
        Counter {
            alloc,
            counts: Counts::new(),
            timings: Vec::new(alloc),
            refused: false,
        }
    }

    /// What was counted until now.
    ///
    /// # Errors
    /// Memory ran out at the start.
    pub fn counts(&self) -> Result<Counts, AllocError>
        ensures counts { IfOk result (λ counts. counts ≡ self.now.counts) }
        ensures whole { IfOk result (λ _. self.now.refused ≡ false) }
        ensures refused { OnErr result (self.now.refused ≡ true) }
    {
        if self.refused {
            return Err(AllocError);
        }
        Ok(self.counts)
    }

    /// All routers have started.
    pub fn started(&mut self, lab: &Network)
        ensures counts { self.new.counts ≡ counts_at_start lab.now.world self.old.counts }
        ensures timings { self.new.refused ≡ false → self.new.timings.items ≡ timings_in lab.now }
    {
        self.counts = self.counts.with_datagrams(false, lab.sent(), 0);
        match timings_in(self.alloc, lab) {
            Ok(timings) => self.timings = timings,
            Err(AllocError) => self.refused = true,
        }
    }

    /// Which update a router made at an event, by its timers before: each update moves its own. It is asked before the event is counted.
    pub fn cause_of(&self, lab: &Network, event: &Event<'_>) -> Option<Cause>
        ensures { result ≡ cause_of self.now.timings.items lab.now (event_of event.entry.now) }
    {
        let &Event::Tick { router, .. } = event else {
            return None;
        };
        let before = self.timings.get(router)?;
        let now = timing_at(lab, router);
        if now.regular != before.regular {
            Some(Cause::Regular)
        } else if now.hold != before.hold {
            Some(Cause::Triggered)
        } else {
            None
        }
    }

    /// Counts with one more event that was done, as an observer of the network is notified of it, or a forged Response. It is asked before
    /// the event is counted.
    pub fn counted(
        &self,
        counts: Counts,
        lab: &Network,
        event: &Event<'_>,
        answer: &Answer,
        first: usize,
    ) -> Counts
        ensures { result ≡ counted self.now.timings.items (record { lab = lab.now; event = event_of event.entry.now; answer = answer.now; first = first }) counts }
    {
        let (router, answers) = (event.router(), brings(event));
        let counts = counts.with_update(self.cause_of(lab, event));
        let counts = counts.with_datagrams(answers, lab.sent(), first);
        counts.with_changes(router, last_at(lab, router), answer.changes.as_slice())
    }

    /// An event was done, or a forged Response came.
    pub fn happened(&mut self, lab: &Network, event: &Event<'_>, answer: &Answer, first: usize)
        ensures counts { self.new.counts ≡ counted self.old.timings.items (record { lab = lab.now; event = event_of event.entry.now; answer = answer.now; first = first }) self.old.counts }
        ensures timings { self.new.timings.items ≡ timings_after lab.now (event_of event.entry.now) self.old.timings.items }
        ensures refused { self.new.refused ≡ self.old.refused }
    {
        self.counts = self.counted(self.counts, lab, event, answer, first);
        let router = event.router();
        if router < self.timings.len() {
            self.timings[router] = timing_at(lab, router);
        }
    }
}

/// Whether an event brings a datagram to its router.
fn brings(event: &Event<'_>) -> bool
    ensures { result ≡ brings (event_of event.entry.now) }
{
    matches!(event, Event::Deliver { .. } | Event::Stranger { .. })
}

/// The moment of a router's last step, or 0.
fn last_at(lab: &Network, router: usize) -> Moment
    ensures { result ≡ last_at lab.now router }
{
    match lab.router(router) {
        Some(at) => at.last(),
        None => Moment::new(0).unwrap(),
    }
}

/// The timing of a router as it is.
fn timing_at(lab: &Network, router: usize) -> Timing
    ensures { result ≡ timing_at lab.now router }
{
    match lab.router(router) {
        Some(at) => Timing {
            regular: at.regular().ms(),
            hold: at.hold().ms(),
        },
        None => Timing {
            regular: 0,
            hold: 0,
        },
    }
}

/// The timing of each router, in order.
fn timings_in(alloc: Global, lab: &Network) -> Result<Vec<Timing>, AllocError>
    ensures { IfOk result (λ timings. timings.items ≡ timings_in lab.now) }
{
    (0..lab.routers())
        .map(|router| timing_at(lab, router))
        .collect(alloc)
}
