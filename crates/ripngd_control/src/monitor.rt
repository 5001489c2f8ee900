//! The observer of a run: it counts datagrams, and writes a line for each refused datagram and each skipped entry.

ghost use Rattle.std.specs.Prelude.{◌≡◌, ◌++◌, IfOk, OnOk, Some};
ghost use Rattle.ripngd_control.specs.Common.{counted, Appends, arrival_text, note_lines, refusal_lines, CountsNothing, KnowsNobody, Monitors, link_at, no_counts};

use crate::counts::Counts;
use crate::links::{LinkTally, Links};
use crate::neighbors::Neighbors;
use crate::refusals::Refusal;
use ripngd_engine::{Arrived, TrafficObserver, Update};
use router_core::{Fault, Note, Outgoing};
use std::alloc::{AllocError, Global};
use std::fmt::{self, Display};
use std::io::{self, Write};

/// When and from where a datagram arrived, written `MOMENT iface I from ADDR port P`.
#[derive(Clone, Copy)]
struct Origin(Arrived);

impl Display for Origin {
    ghost output = { λ o. Some (arrival_text o.0) };

    fn fmt<W: fmt::Write>(&self, f: &mut fmt::Formatter<W>) -> fmt::Result {
        let a = self.0;
        let ms = a.moment.ms();
        write!(
            f,
            "{ms} iface {} from {} port {}",
            a.iface, a.source, a.source_port
        )
    }
}

/// Writes `ORIGIN refused NR NAME` for the fault of a datagram, if there is one, and `ORIGIN entry E noted NR NAME` for each note.
fn write_lines<W: Write>(
    arrived: Arrived,
    fault: Option<Fault>,
    notes: &[Note],
    out: &mut W,
) -> io::Result<()>
    ensures { OnOk result (Appends (W.contents out.old) (W.contents out.new) (refusal_lines arrived fault ++ note_lines arrived notes.now)) }
{
    let origin = Origin(arrived);
    if let Some(fault) = fault {
        let refusal = Refusal::Arrival(fault);
        writeln!(out, "{origin} {refusal}")?;
    }
    for note in notes {
        let refusal = Refusal::Entry(note.kind);
        writeln!(out, "{origin} entry {} {refusal}", note.entry)?;
    }
    Ok(())
}

/// An observer that counts, in all, by neighbor and by interface, and writes lines unless it is muted. The first write that fails ends the lines,
/// perhaps within one, and changes nothing else.
#[derive(Drop)]
pub struct Monitor<W> {
    counts: Counts,
    neighbors: Neighbors,
    links: Links,
    out: W,
    is_muted: bool,
}

impl<W: Drop> Monitor<W> {
    /// A monitor of so many interfaces, with all counts at 0. If `is_muted`, it never writes a line to `out`. `replaces` says whether the
    /// row of a sender that has been silent gives way to a new one, as it is on real links, where there is no room for another.
    ///
    /// # Errors
    /// Out of memory.
    pub fn new(
        alloc: Global,
        out: W,
        is_muted: bool,
        replaces: bool,
        interfaces: usize,
    ) -> Result<Monitor<W>, AllocError>
        ensures counts { IfOk result (λ m. m.counts ≡ no_counts) }
        ensures neighbors { IfOk result (λ m. KnowsNobody m.neighbors) }
        ensures replaces { IfOk result (λ m. m.neighbors.replaces ≡ replaces) }
        ensures links { IfOk result (λ m. CountsNothing interfaces m.links) }
        ensures lines { IfOk result (λ m. (m.out ≡ out) × (m.is_muted ≡ is_muted)) }
    {
        Ok(Monitor {
            counts: Counts::new(),
            neighbors: Neighbors::new(alloc, replaces),
            links: Links::new(alloc, interfaces)?,
            out,
            is_muted,
        })
    }
}

impl<W> Monitor<W> {
    /// The counts of all datagrams.
    pub fn counts(&self) -> Counts
        ensures { result ≡ self.now.counts }
    {
        self.counts
    }

    /// How many Requests for whole tables were sent since a route was lost.
    pub fn asked(&self) -> u64
        ensures { result ≡ self.now.counts.asked }
    {
        self.counts.asked
    }

    /// The counts of each sender.
    pub fn neighbors(&self) -> &Neighbors
        ensures { result.now ≡ self.now.neighbors }
    {
        &self.neighbors
    }

    /// What is counted at an interface.
    pub fn link_at(&self, iface: usize) -> LinkTally
        ensures { result ≡ link_at self.now.links.rows.items iface }
    {
        self.links.at(iface)
    }
}

impl<W: Write> Monitor<W> {
    /// Writes a line of its own, also if it is muted. A write that fails changes nothing.
    pub fn say(&mut self, line: &str)
        ensures counts { self.new.counts ≡ self.old.counts }
        ensures neighbors { self.new.neighbors ≡ self.old.neighbors }
        ensures links { self.new.links ≡ self.old.links }
        ensures muted { self.new.is_muted ≡ self.old.is_muted }
    {
        let _ = writeln!(self.out, "ripngd: {line}");
    }

    /// Counts a Request that was sent since a route was lost.
    pub fn count_question(&mut self)
        ensures { self.new ≡ record self.old { counts = record self.old.counts { asked = counted self.old.counts.asked 1 } } }
    {
        self.counts.count_question();
    }

    /// Writes the counts of all datagrams, also if it is muted. A write that fails changes nothing.
    pub fn write_counts(&mut self)
        ensures counts { self.new.counts ≡ self.old.counts }
        ensures neighbors { self.new.neighbors ≡ self.old.neighbors }
    {
        let _ = writeln!(self.out, "{}", self.counts);
    }
}

impl<W: Write> TrafficObserver for Monitor<W> {
    ghost takes = { Monitors W.contents };

    fn processed(&mut self, arrived: Arrived, bytes: &[u8], fault: Option<Fault>, notes: &[Note]) {
        self.counts.count_arrival(fault, notes);
        self.neighbors.count(&arrived, bytes, fault, notes);
        self.links.count(&arrived, bytes, fault, notes);
        if !self.is_muted {
            self.is_muted = write_lines(arrived, fault, notes, &mut self.out).is_err();
        }
    }

    fn begins(&mut self, update: Update) {
        self.links.begin(update);
    }

    fn sent(&mut self, outgoing: &Outgoing, went: bool) {
        self.counts.count_send(went);
        self.links.count_send(outgoing, went);
    }
}
