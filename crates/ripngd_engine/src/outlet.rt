//! Where the output of a router goes: datagrams to a link, changes to a forwarding table and a log.

ghost use Rattle.std.specs.Prelude.{◌≡◌, is_err};
ghost use Rattle.ripngd_engine.specs.Common.{counted, HandsOver, outlet_seen, CarriesOut};

use crate::lines::write_lines;
use crate::link::Link;
use crate::observer::TrafficObserver;
use fib::Fib;
use router_core::{Answer, Listed, Outgoing};
use std::alloc::AllocError;
use std::io::Write;

/// What the output of a router is carried out on, except the log.
#[derive(Drop)]
pub(crate) struct Outlet<L: Link> {
    pub(crate) link: L,
    pub(crate) fib: Fib,
    pub(crate) lost_sends: u64,
    pub(crate) log_failed: bool,
    /// Whether there was no memory for the forwarding table.
    pub(crate) ended: bool,
    /// The line of the log that was made last.
    pub(crate) line: Vec<u8>,
}

/// The count after one more; it stays at the greatest `u64`.
pub(crate) fn one_more(count: u64) -> u64
    ensures { result ≡ counted count 1 }
{
    count.saturating_add(1)
}

/// Hands each datagram to the link, once and in order, and reports it. Returns the count of those that failed. The memory of each is free
/// before the next, which the link may copy there.
fn hand_over<L: Link, V: TrafficObserver>(
    link: &mut L,
    sends: Listed<Outgoing>,
    lost: u64,
    observer: &mut V,
) -> u64
    ensures hands { HandsOver V.takes observer.old observer.new (L.calls link.old) (L.calls link.new) sends lost result }
    ensures same { L.interface_count link.new ≡ L.interface_count link.old }
{
    let mut total = lost;
    for outgoing in sends.into_vec() {
        let went = link.send(&outgoing).is_ok();
        observer.sent(&outgoing, went);
        if !went {
            total = one_more(total);
        }
    }
    total
}

impl<L: Link> Outlet<L> {
    /// Hands over the datagrams of an answer and reports each, then follows its changes, then writes their lines. Most answers are those
    /// of ticks at which nothing is due: they have none of these, and nothing else is looked at.
    ///
    /// # Errors
    /// Out of memory for the forwarding table, which is then unchanged. All else is done all the same.
    pub(crate) fn carry_out<W: Write, V: TrafficObserver>(
        &mut self,
        answer: Answer,
        log: &mut W,
        observer: &mut V,
    ) -> Result<(), AllocError>
        ensures carries { CarriesOut V.takes observer.old observer.new (outlet_seen L.calls W.contents self.old log.old) answer
            (outlet_seen L.calls W.contents self.new log.new) }
        ensures ended { self.new.ended ≡ is_err result }
        ensures same { L.interface_count self.new.link ≡ L.interface_count self.old.link }
    {
        if answer.sends.as_slice().is_empty() && answer.changes.as_slice().is_empty() {
            self.ended = false;
            return Ok(());
        }
        self.lost_sends = hand_over(&mut self.link, answer.sends, self.lost_sends, observer);
        let changes = answer.changes.as_slice();
        let followed = self.fib.apply(changes);
        self.log_failed = write_lines(changes, self.log_failed, &mut self.line, log);
        self.ended = followed.is_err();
        followed
    }
}
