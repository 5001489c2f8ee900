//! The observer that collects the datagrams of a script.

ghost use Rattle.std.specs.Prelude.{⊤};

use crate::seen::{Seen, links_of};
use crate::writing::write_capture;
use ripng_lab::{
    Names, Network, Notice, Printer, Routes, Watch, addr_at, hint_of, names_of, watched,
};
use ripng_trace::moment_of;
use ripng_world::Event;
use route_table::Moment;
use router_core::{Answer, Fault};
use std::alloc::Global;
use std::io::{self, Write};

/// A comment that is longer gets no more refusals.
const LONG: usize = 1_000;

/// Runs a script as [`ripng_lab::lab_hinted`] does, and answers whether every line was done. `file` gets a capture, a file of pcapng:
/// an interface for each link, named by its number, and a packet for each datagram that a router, an outside host or a forger sent, at
/// the time of the script. A datagram that a router refused says so in a comment.
///
/// # Errors
/// `OutOfMemory` if memory ran out, else the error of `out`.
pub fn capture<W: Write, E: Write>(
    alloc: Global,
    script: &[u8],
    out: &mut W,
    err: &mut E,
    file: &mut Vec<u8>,
) -> io::Result<bool> {
    // Two lists, since the prover follows each reference at one lifetime.
    let (names, printed) = (names_of(alloc, script)?, names_of(alloc, script)?);
    let printer = Printer::new(alloc, Names::new(&printed), out);
    let mut recorder = Recorder {
        alloc,
        names: Names::new(&names),
        printer,
        links: Vec::new(alloc),
        places: Vec::new(alloc),
        seen: Vec::new(alloc),
    };
    let done = watched(alloc, script, &mut recorder)?;
    write_capture(alloc, file, &recorder.links, &recorder.seen)?;
    if let Some(ending) = recorder.printer.ending
        && let Ok(Some((line, hint))) = hint_of(alloc, script, &ending)
    {
        let _ = writeln!(err, "ripngd: line {line}: {hint}");
    }
    Ok(done)
}

/// The observer.
#[derive(Drop)]
struct Recorder<'n, 'a, W: Write> {
    alloc: Global,
    names: Names<'n>,
    /// Writes what lines print.
    printer: Printer<'a, W>,
    /// The links of the network, in order.
    links: Vec<u32>,
    /// Where each datagram that a router of the network sent stands among all that were seen.
    places: Vec<usize>,
    /// What was seen, in order.
    seen: Vec<Seen>,
}

impl<'n, 'a, W: Write> Recorder<'n, 'a, W> {
    /// The datagrams that were sent from a number on were seen at that time.
    fn see_sent(&mut self, lab: &Network, now: u64, first: usize) -> io::Result<()> {
        for sent in lab.sent().iter().skip(first) {
            if let Some(link) = lab.link(sent.router, sent.iface)
                && let Some(source) = addr_at(lab, sent.router, sent.iface)
            {
                let seen = Seen::sent(self.alloc, link, now, source, sent)?;
                self.seen.push(seen)?;
            }
            self.places.push(self.seen.len().saturating_sub(1))?;
        }
        Ok(())
    }

    /// A datagram that no router of the network sent, if the event brings one, was seen when it came.
    fn see_arrived(
        &mut self,
        lab: &Network,
        event: &Event<'_>,
        fault: Option<Fault>,
        origin: &str,
    ) -> io::Result<()> {
        let Event::Stranger { router, arrival } = event else {
            return Ok(());
        };
        if let Some(link) = lab.link(*router, arrival.iface)
            && let Some(addr) = addr_at(lab, *router, arrival.iface)
        {
            let comment = match fault {
                Some(fault) => format!(in self.alloc;
                    "refused by {}: {fault}",
                    self.names.of(*router)
                )?,
                None => format!(in self.alloc; "{origin}")?,
            };
            let seen = Seen::arrived(self.alloc, link, addr, arrival, comment)?;
            self.seen.push(seen)?;
        }
        Ok(())
    }

    /// A router refused a datagram of the network.
    fn see_refused(&mut self, event: &Event<'_>, fault: Fault) -> io::Result<()> {
        let &Event::Deliver {
            datagram,
            router,
            ..
        } = event
        else {
            return Ok(());
        };
        let router = self.names.of(router);
        if let Some(place) = self.places.get(datagram)
            && let Some(seen) = self.seen.get_mut(*place)
            && seen.comment.len() <= LONG
        {
            let comma = if seen.comment.is_empty() { "" } else { ", " };
            write!(seen.comment, "{comma}refused by {router}: {fault}")?;
        }
        Ok(())
    }
}

impl<'n, 'a, W: Write> ripng_world::Observer<Routes> for Recorder<'n, 'a, W> {
    type Fault = io::Error;

    ghost takes = { λ _ _ _. ⊤ };

    ghost fails = { λ _ _ _. ⊤ };

    fn happened(
        &mut self,
        lab: &Network,
        event: &Event<'_>,
        answer: &Answer,
        first: usize,
    ) -> io::Result<()> {
        self.see_arrived(lab, event, answer.fault, "")?;
        if let Some(fault) = answer.fault {
            self.see_refused(event, fault)?;
        }
        self.see_sent(lab, moment_of(event).ms(), first)
    }
}

impl<'n, 'a, W: Write> Watch for Recorder<'n, 'a, W> {
    ghost starts = { λ _ _ _ _. ⊤ };

    ghost notes = { λ _ _ _. ⊤ };

    fn at_line(&mut self, number: usize) {
        self.printer.at_line(number);
    }

    fn started(&mut self, lab: &Network, now: Moment) -> io::Result<()> {
        self.links = links_of(self.alloc, lab)?;
        self.see_sent(lab, now.ms(), 0)
    }

    fn noticed(&mut self, notice: Notice<'_>) -> io::Result<()> {
        if let &Notice::Lied(lab, event, answer, first, _) = &notice {
            self.see_arrived(lab, event, answer.fault, "forged")?;
            self.see_sent(lab, moment_of(event).ms(), first)?;
        }
        self.printer.noticed(notice)
    }
}
