//! The observer of a run: it is notified of each datagram that is processed or sent, and of each update.

ghost use Rattle.std.specs.Prelude.{⊤};
ghost use Rattle.ripngd_engine.specs.Common.{LinkReport, Processed, Begins, Sent};

use prefix6::Addr6;
use route_table::Moment;
use router_core::{Fault, Note, Outgoing};

/// A datagram that a router has processed.
#[derive(Clone, Copy, Debug, PartialEq, Eq)]
pub struct Arrived {
    /// When it arrived, by the engine's clock.
    pub moment: Moment,
    /// The number of the interface.
    pub iface: usize,
    /// The address that it came from.
    pub source: Addr6,
    /// The UDP port that it came from.
    pub source_port: u16,
}

/// An update of a router's neighbors (RFC 2080, section 2.5).
#[derive(Clone, Copy, Debug, PartialEq, Eq)]
pub enum Update {
    /// One of all routes, every 15 to 45 seconds (section 2.3).
    Regular,
    /// One of the routes that have changed (section 2.5.1).
    Triggered,
}

/// An observer of the datagrams that are processed and sent. It cannot fail, and changes nothing of the run.
pub trait TrafficObserver {
    // What a report makes of it: its state before, the report, its state after.
    ghost takes: { Self → LinkReport → Self → Type 0 };

    /// A datagram was processed: when and where it arrived, its bytes, and why it was dropped, or the notes on its entries. One that
    /// was lost because memory was refused is not reported.
    fn processed(&mut self, arrived: Arrived, bytes: &[u8], fault: Option<Fault>, notes: &[Note])
        ensures { takes self.old (Processed arrived bytes.now fault notes.now) self.new };

    /// A tick sends an update: the datagrams that are reported next, until anything else is, are those of it, interface by interface.
    fn begins(&mut self, update: Update)
        ensures { takes self.old (Begins update) self.new };

    /// A datagram was handed to the link, which could send it or not.
    fn sent(&mut self, outgoing: &Outgoing, went: bool)
        ensures { takes self.old (Sent outgoing.now went) self.new };
}

/// An observer that does nothing.
#[derive(Clone, Copy, Debug, PartialEq, Eq)]
pub struct NoObserver;

impl TrafficObserver for NoObserver {
    ghost takes = { λ _ _ _. ⊤ };

    fn processed(
        &mut self,
        _arrived: Arrived,
        _bytes: &[u8],
        _fault: Option<Fault>,
        _notes: &[Note],
    ) {}

    fn begins(&mut self, _update: Update) {}

    fn sent(&mut self, _outgoing: &Outgoing, _went: bool) {}
}
