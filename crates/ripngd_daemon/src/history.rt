//! The past of a run, and what it has lost.

ghost use Rattle.std.specs.Prelude.{◌≡◌, ◌≢◌, ℕ, [], List, None, OnOk, Some};
ghost use Rattle.ripngd_daemon.specs.Common.{Appends, Call, counted, AreLossesOf, has_failed, losses_line, no_losses, nothing_lost, lines_of};

use crate::run_log::RunLog;
use crate::turns::UdpEngine;
use ripngd_control::{Clients, Losses};
use ripngd_engine::{Entry, Report, Transcript};
use ripngd_udp::{Ports, Udp};
use std::io::{self, Write};
use std::rt::{Clock, Files};

/// The past of a run: the ports that were bound, and at its end each call of the link over them; each command of a client that was
/// obeyed; the bytes of its log; and what it has lost. Contracts see it all.
#[derive(Drop)]
pub struct History {
    pub(crate) ports: Ports,
    pub(crate) clients: Option<Clients>,
    pub(crate) log: Transcript,
    lost: Losses,
}

impl History {
    /// No run yet.
    pub fn new() -> History
        ensures ports { result.ports ≡ record { on_links = None; calls = None } }
        ensures clients { result.clients ≡ None }
        ensures log { result.log.past.bytes ≡ [] }
        ensures lost { result.lost ≡ no_losses }
    {
        History {
            ports: Ports::new(),
            clients: None,
            log: Transcript::of(&Entry::Nothing),
            lost: NOTHING_LOST,
        }
    }

    /// What the run has lost.
    pub fn lost(&self) -> Losses
        ensures { result ≡ self.now.lost }
    {
        self.lost
    }

    /// Ends a router: its link sends what waits, and the ports are closed. `ordered` is the name of its log.
    pub(crate) fn close<R: Clock>(
        &mut self,
        ordered: Option<&str>,
        engine: UdpEngine<'_, R>,
        log: RunLog<'_, R>,
    )
        ensures calls { (calls : List Call) × (engine.entry.calls ≡ Some calls) × (self.new.ports.calls ≡ Some calls) }
        ensures moments { (moments : List ℕ) × (engine.entry.moments ≡ Some moments) }
        ensures log { self.new.log ≡ log.entry.written }
        ensures lost { AreLossesOf engine.entry.lost_sends engine.entry.lost_memory (has_failed ordered.entry engine.entry.log_failed) self.new.lost }
        ensures links { self.new.ports.on_links ≡ self.old.ports.on_links }
        ensures clients { self.new.clients ≡ self.old.clients }
    {
        let report = engine.report();
        // For contracts: it has told each moment that it gave.
        let _clock = engine.clock();
        let mut link = engine.into_link();
        link.finish();
        self.lost = losses_of(ordered, report, &link);
        self.ports.close(link);
        self.log = log.written;
    }

    /// Stops listening at a path, if there is one.
    pub(crate) fn stop_listening<R: Files>(&mut self, rt: &R, path: Option<&str>)
        ensures lines { lines_of self.new.clients ≡ lines_of self.old.clients }
        ensures same { self.new ≡ record self.old { clients = self.new.clients } }
    {
        if let (Some(path), Some(clients)) = (path, &mut self.clients) {
            clients.close(rt, path);
        }
    }
}

/// No losses.
const NOTHING_LOST: Losses = Losses {
    report: Report {
        lost_sends: 0,
        lost_memory: 0,
        log_failed: false,
    },
    arrivals: 0,
    strangers: 0,
};

/// What a router has lost, together with its link: sends that failed after they had waited, received datagrams for which there was no
/// room or no memory, and datagrams from ports of no peer. Where no log is ordered, none has failed.
pub(crate) fn losses_of<R: Clock>(
    ordered: Option<&str>,
    report: Report,
    link: &Udp<'_, R>,
) -> Losses
    ensures { result ≡ record {
      report = record report {
        log_failed = has_failed ordered.entry report.log_failed;
        lost_sends = counted report.lost_sends link.now.failed_sends;
        lost_memory = counted report.lost_memory link.now.lost_arrivals;
      };
      arrivals = link.now.lost_arrivals;
      strangers = link.now.strangers;
    } }
{
    let arrivals = link.lost_arrivals();
    Losses {
        report: Report {
            lost_sends: report.lost_sends.saturating_add(link.failed_sends()),
            lost_memory: report.lost_memory.saturating_add(arrivals),
            log_failed: report.log_failed && ordered.is_some(),
        },
        arrivals,
        strangers: link.strangers(),
    }
}

/// Writes `ripngd: lost sends N, lost steps M` if anything was lost, with `, log failed` at its end if a write of the log failed.
/// Datagrams from ports of no peer are not losses.
pub fn write_losses<W: Write>(lost: Losses, out: &mut W) -> io::Result<()>
    ensures nothing { lost.report ≡ nothing_lost → out.new ≡ out.old }
    ensures line { lost.report ≢ nothing_lost → OnOk result (Appends (W.contents out.old) (W.contents out.new) (losses_line lost.report)) }
{
    let report = lost.report;
    if report == NOTHING_LOST.report {
        return Ok(());
    }
    let has_failed = report.log_failed;
    let log = if has_failed { ", log failed" } else { "" };
    writeln!(
        out,
        "ripngd: lost sends {}, lost steps {}{log}",
        report.lost_sends, report.lost_memory
    )
}
