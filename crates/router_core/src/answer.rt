//! The output of a step: a fault, datagrams to be sent, changes of forwarding entries, and notes on skipped entries.

ghost use Rattle.std.specs.Prelude.{◌≡◌, None, Some};
ghost use Rattle.router_core.specs.Offers.{note_name, note_number, note_text};

use crate::arrival::Fault;
use crate::listed::Listed;
use fib::RouteChange;
use prefix6::Addr6;
use std::fmt::{self, Display};

/// To whom a datagram goes.
#[derive(Clone, Copy, Debug, PartialEq, Eq)]
pub enum Destination {
    /// All RIPng routers of the link, FF02::9 at port 521 (RFC 2080, section 2.5.2).
    Group,
    /// The sender of a Request, at the port that it asked from (RFC 2080, section 2.4.1).
    Peer {
        addr: Addr6,
        /// Its UDP port.
        port: u16,
    },
}

/// A datagram to be sent.
#[derive(Drop)]
pub struct Outgoing {
    /// The number of the interface to send it on, from 0.
    pub iface: usize,
    /// To whom. A datagram to the group is to be sent with hop limit 255 (RFC 2080, section 2.5.2).
    pub to: Destination,
    /// What it holds: one datagram of RIPng, without the headers of UDP and IPv6.
    pub bytes: Listed<u8>,
}

/// Why an entry of a Response was skipped. The other entries are processed all the same (RFC 2080, section 2.4.2).
#[derive(Clone, Copy, Debug, PartialEq, Eq)]
pub enum NoteKind {
    /// The prefix length is above 128 bits: the neighbor is faulty, or speaks another protocol.
    BadLength = 20,
    /// The prefix is multicast or link-local, which no router may advertise. Mend the neighbor's configuration.
    BadPrefix = 21,
    /// The metric is not 1 to 16. A neighbor that sends 0 has usually not added its own cost.
    BadMetric = 22,
    /// A new prefix, and the table holds `TABLE_LIMIT` routes. Advertise aggregates, or look for a neighbor that leaks routes.
    TableFull = 23,
    /// A new prefix, and memory for its route ran out. The next update offers it again.
    NoMemory = 24,
    /// The filters of the interface do not take its prefix (`Filter`).
    NotAccepted = 25,
    /// The interface has a limit, and the table holds as many routes by way of it (`Limit`).
    LimitReached = 26,
}

impl NoteKind {
    /// The number of the note, 20 to 26.
    pub fn number(self) -> u8
        ensures { result ≡ note_number self }
    {
        self as u8
    }

    /// The name of the note, one word.
    pub fn name(self) -> &'static str
        ensures { result.now ≡ note_name self }
    {
        match self {
            NoteKind::BadLength => "BadLength",
            NoteKind::BadPrefix => "BadPrefix",
            NoteKind::BadMetric => "BadMetric",
            NoteKind::TableFull => "TableFull",
            NoteKind::NoMemory => "NoMemory",
            NoteKind::NotAccepted => "NotAccepted",
            NoteKind::LimitReached => "LimitReached",
        }
    }
}

/// `NUMBER NAME`, as it is printed.
impl Display for NoteKind {
    ghost output = { λ kind. Some (note_text kind) };

    fn fmt<W: fmt::Write>(&self, f: &mut fmt::Formatter<W>) -> fmt::Result {
        write!(f, "{} {}", self.number(), self.name())
    }
}

/// A note that an entry of a Response was skipped, and why.
#[derive(Clone, Copy, Debug, PartialEq, Eq)]
pub struct Note {
    /// The place of the entry in the Response, from 0.
    pub entry: usize,
    /// Why it was skipped.
    pub kind: NoteKind,
}

/// The output of a step of a router.
#[derive(Drop)]
pub struct Answer {
    /// Why an arrival was refused. The rest of the answer is empty then.
    pub fault: Option<Fault>,
    /// Datagrams to be sent, in the order of interfaces; the parts of one update or reply in order.
    pub sends: Listed<Outgoing>,
    /// Changes of forwarding entries, in the order of the Response's entries, or of prefixes.
    pub changes: Listed<RouteChange>,
    /// Skipped entries of a Response, in the order of entries.
    pub notes: Listed<Note>,
}

/// An answer without a fault.
pub fn answer_of(sends: Vec<Outgoing>, changes: Vec<RouteChange>, notes: Vec<Note>) -> Answer
    ensures { result ≡ record { fault = None; sends = sends.items; changes = changes.items; notes = notes.items } }
{
    Answer {
        fault: None,
        sends: Listed::from_vec(sends),
        changes: Listed::from_vec(changes),
        notes: Listed::from_vec(notes),
    }
}
