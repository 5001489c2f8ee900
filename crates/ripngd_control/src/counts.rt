//! The counts of a router's datagrams, and of what was lost.

ghost use Rattle.std.specs.Prelude.{◌≡◌, ◌∷◌, [], ℕ, List, Some};
ghost use Rattle.ripngd_control.specs.Common.{counted, Outgoing, Processed, LinkReport, Sent, WasTold, Arrived, counts_text, losses_text, Counted, no_counts, Counts};

use crate::refusals::Refusals;
use ripngd_engine::Report;
use router_core::{Fault, Note};
use std::fmt::{self, Display};

/// Counts of datagrams. A count stays at the greatest `u64`.
#[derive(Clone, Copy, Debug, PartialEq, Eq)]
pub struct Counts {
    /// Datagrams that the router processed, refused ones included.
    pub arrivals: u64,
    /// Datagrams that were handed to the link.
    pub sends: u64,
    /// Those of them that it could not send.
    pub failed_sends: u64,
    /// What was refused of the arrivals.
    pub refusals: Refusals,
    /// Requests for whole tables that were sent since a route was lost.
    pub asked: u64,
}

impl Counts {
    /// All counts are 0.
    pub const fn new() -> Counts
        ensures { result ≡ no_counts }
    {
        Counts {
            arrivals: 0,
            sends: 0,
            failed_sends: 0,
            refusals: Refusals::new(),
            asked: 0,
        }
    }

    /// Counts a Request that was sent since a route was lost.
    pub(crate) fn count_question(&mut self)
        ensures { self.new ≡ record self.old { asked = counted self.old.asked 1 } }
    {
        self.asked = self.asked.saturating_add(1);
    }

    /// Counts an arrival, with its fault or its notes.
    pub(crate) fn count_arrival(&mut self, fault: Option<Fault>, notes: &[Note])
        ensures { (a : Arrived) (bytes : List ℕ) → Counted self.old (Processed a bytes fault notes.now ∷ []) self.new }
    {
        self.arrivals = self.arrivals.saturating_add(1);
        self.refusals.count(fault, notes);
    }

    /// Counts a datagram, and whether the link took it.
    pub(crate) fn count_send(&mut self, went: bool)
        ensures { (s : Outgoing) → Counted self.old (Sent s went ∷ []) self.new }
    {
        self.sends = self.sends.saturating_add(1);
        if !went {
            self.failed_sends = self.failed_sends.saturating_add(1);
        }
    }
}

/// Counting reports one by one gives the counts of them all: a lemma, which follows from the definitions alone.
pub fn counts_are_of_all_told()
    ensures { (c d : Counts) (ts : List LinkReport) → WasTold (λ v t w. Counted v (t ∷ []) w) c ts d → Counted c ts d }
{}

/// `arrivals A sends S failed F`, and after it, on lines of their own, what was refused. The last line has no line feed.
impl Display for Counts {
    ghost output = { λ counts. Some (counts_text counts) };

    fn fmt<W: fmt::Write>(&self, f: &mut fmt::Formatter<W>) -> fmt::Result {
        write!(
            f,
            "arrivals {} sends {} failed {}{}",
            self.arrivals, self.sends, self.failed_sends, self.refusals
        )
    }
}

/// What a router and its link have lost. A count stays at the greatest `u64`.
#[derive(Clone, Copy, Debug, PartialEq, Eq)]
pub struct Losses {
    /// What the router lost; its sends and steps include those that its link lost.
    pub report: Report,
    /// Of the steps, the datagrams for which the link had no room or no memory.
    pub arrivals: u64,
    /// Datagrams that came from a port of no peer.
    pub strangers: u64,
}

/// `lost sends N steps M arrivals K`, `strangers S` on a line of its own, and `log failed` on another where a write of the log
/// failed. The last line has no line feed.
impl Display for Losses {
    ghost output = { λ l. Some (losses_text l) };

    fn fmt<W: fmt::Write>(&self, f: &mut fmt::Formatter<W>) -> fmt::Result {
        let report = self.report;
        let has_failed = report.log_failed;
        let log = if has_failed { "\nlog failed" } else { "" };
        write!(
            f,
            "lost sends {} steps {} arrivals {}\nstrangers {}{log}",
            report.lost_sends, report.lost_memory, self.arrivals, self.strangers
        )
    }
}
