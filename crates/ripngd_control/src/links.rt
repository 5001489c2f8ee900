//! What is counted at each interface.

ghost use Rattle.std.specs.Prelude.{◌≡◌, IfOk, Some};
ghost use Rattle.ripngd_control.specs.Common.{Begins, CountsLink, CountsNothing, Processed, Sent, is_first, link_at, link_text, no_link};

use crate::neighbors::Tally;
use ripngd_engine::{Arrived, Queue, Update};
use router_core::{Fault, Note, Outgoing};
use std::alloc::{AllocError, Global};
use std::fmt::{self, Display};

/// What is counted at an interface. A count stays at the greatest `u64`, and never falls while the router runs.
#[derive(Clone, Copy, Debug, PartialEq, Eq)]
pub struct LinkTally {
    /// Triggered updates (RFC 2080, section 2.5.1) of which a datagram went out there; each counts once.
    pub triggered: u64,
    /// What came there, of all senders together.
    pub tally: Tally,
}

impl LinkTally {
    /// All counts are 0.
    pub const fn new() -> LinkTally
        ensures { result ≡ no_link }
    {
        LinkTally {
            triggered: 0,
            tally: Tally::new(),
        }
    }
}

/// What is counted at an interface, and what waits to be sent there.
#[derive(Clone, Copy)]
pub(crate) struct LinkStatus(pub(crate) LinkTally, pub(crate) Queue);

/// ` triggered T queued Q answers A`, what came there, and after it, on lines of their own, what was refused of that.
impl Display for LinkStatus {
    ghost output = { λ s. Some (link_text s.0 s.1) };

    fn fmt<W: fmt::Write>(&self, f: &mut fmt::Formatter<W>) -> fmt::Result {
        let LinkStatus(counted, queue) = *self;
        write!(
            f,
            " triggered {} queued {} answers {}{}",
            counted.triggered, queue.waiting, queue.answers, counted.tally
        )
    }
}

/// The counts of each interface.
#[derive(Drop)]
pub struct Links {
    rows: Vec<LinkTally>,
    /// Whether the datagrams that are sent are those of a triggered update.
    is_triggered: bool,
    /// The interface where that update was counted last.
    counted_at: Option<usize>,
}

impl Links {
    /// A row for each of so many interfaces, with nothing counted yet.
    ///
    /// # Errors
    /// Out of memory.
    pub(crate) fn new(alloc: Global, interfaces: usize) -> Result<Links, AllocError>
        ensures { IfOk result (λ links. CountsNothing interfaces links) }
    {
        Ok(Links {
            rows: vec![in alloc; LinkTally::new(); interfaces]?,
            is_triggered: false,
            counted_at: None,
        })
    }

    /// What is counted at an interface.
    pub fn at(&self, iface: usize) -> LinkTally
        ensures { result ≡ link_at self.now.rows.items iface }
    {
        self.rows.get(iface).copied().unwrap_or(LinkTally::new())
    }

    /// Counts an arrival at its interface. What is sent then is an answer to it, and of no update.
    pub(crate) fn count(
        &mut self,
        arrived: &Arrived,
        bytes: &[u8],
        fault: Option<Fault>,
        notes: &[Note],
    )
        ensures { CountsLink self.old (Processed arrived.now bytes.now fault notes.now) self.new }
    {
        self.is_triggered = false;
        match self.rows.get(arrived.iface).copied() {
            None => {}
            Some(row) => {
                let mut tally = row.tally;
                tally.count(arrived, bytes, fault, notes);
                self.rows[arrived.iface] = LinkTally { tally, ..row };
            }
        }
    }

    /// An update begins.
    pub(crate) fn begin(&mut self, update: Update)
        ensures { CountsLink self.old (Begins update) self.new }
    {
        self.is_triggered = matches!(update, Update::Triggered);
        self.counted_at = None;
    }

    /// Whether a datagram that goes out on an interface is the first one there of a triggered update.
    fn is_first(&self, iface: usize, went: bool) -> bool
        ensures { result ≡ is_first self.now iface went }
    {
        went && self.is_triggered && self.counted_at != Some(iface)
    }

    /// Counts a triggered update at the interface of a datagram, if it is the first one there that goes out.
    pub(crate) fn count_send(&mut self, outgoing: &Outgoing, went: bool)
        ensures { CountsLink self.old (Sent outgoing.now went) self.new }
    {
        let iface = outgoing.iface;
        if !self.is_first(iface, went) {
            return;
        }
        self.counted_at = Some(iface);
        if let Some(row) = self.rows.get(iface).copied() {
            self.rows[iface] = LinkTally {
                triggered: row.triggered.saturating_add(1),
                ..row
            };
        }
    }
}
