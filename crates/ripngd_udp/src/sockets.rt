//! The sockets of all interfaces: when they are read and written, and how long a turn waits for them.

ghost use Rattle.std.specs.Prelude.{◌≡◌, ◌<◌, ◌≤◌, IfOk, IfSome, length};
ghost use Rattle.ripngd_udp.specs.Common.{GoesOn, SendsLate};

use crate::udp::Udp;
use crate::waiting::SOCKETS;
use ripngd_engine::{LinkFault, Received, TimeSource};
use std::rt::Clock;
use std::thread;
use std::time::Duration;

/// How often a turn polls at most.
const LOOKS: u32 = 64;

/// For how many milliseconds after a datagram more may arrive, so that the process is woken once for all of them. The pace of the
/// neighbors leaves room for these in the socket.
const GATHER_MS: u64 = 12;

impl<R: Clock> Udp<'_, R> {
    /// Sends as much of what waits as the pace allows at a moment, or all without a moment.
    pub(crate) fn send_waiting(&mut self, moment: Option<u64>)
        ensures { SendsLate self.old self.new }
    {
        for iface in 0..self.endpoints.len() {
            if let Some(endpoint) = self.endpoints.get_mut(iface) {
                let peer_table = &self.peer_tables[iface];
                let failed = endpoint
                    .send_queue
                    .send_waiting(&endpoint.sockets, peer_table, moment);
                self.counts.failed_sends = self.counts.failed_sends.saturating_add(failed);
            }
        }
    }

    /// How many milliseconds after a moment more may be sent on some interface, if something waits.
    pub(crate) fn until_due(&self, now: u64) -> Option<u64> {
        self.endpoints
            .iter()
            .filter_map(|endpoint| endpoint.send_queue.until_due(now))
            .min()
    }

    /// Whether no datagram waits for the router, and no socket need be read.
    fn is_quiet(&self) -> bool {
        self.endpoints.iter().all(|endpoint| endpoint.is_quiet())
    }

    /// How many milliseconds may be waited at a moment of a turn that ends at `end`: none where a datagram waits or a socket is to be
    /// read, or else to its end, or until more may be sent.
    fn limit(&self, now: u64, end: u64) -> u64
        ensures { result ≤ 400 }
    {
        let left = end.saturating_sub(now).min(self.pause);
        if !self.is_quiet() {
            return 0;
        }
        left.min(self.until_due(now).unwrap_or(left))
    }

    /// Notes that there is something to read: at the sockets of an interface, or at what is watched.
    fn note_ready(&mut self, number: usize)
        ensures { self.new ≡ self.old }
    {
        if number < self.endpoints.len() {
            self.endpoints[number].ready = true;
        } else {
            self.was_called = true;
        }
    }

    /// Waits for all sockets at once, at most `limit` milliseconds, and notes which are ready.
    ///
    /// # Errors
    /// The system cannot wait for them.
    fn poll(&mut self, limit: u64) -> Result<(), LinkFault>
        requires { limit ≤ 400 }
        ensures { self.new ≡ self.old }
    {
        self.waiting.wait(limit)?;
        for index in 0..=SOCKETS.saturating_mul(self.endpoints.len()) {
            let Some(number) = self.waiting.ready_at(index) else {
                return Ok(());
            };
            self.note_ready(number);
        }
        Ok(())
    }

    /// Waits as `poll`. Where a datagram came last, and none came since, more of them come together first.
    ///
    /// # Errors
    /// The system cannot wait for them.
    fn wait(&mut self, limit: u64) -> Result<(), LinkFault>
        requires { limit ≤ 400 }
        ensures { self.new ≡ self.old }
    {
        if !self.is_busy || limit == 0 {
            return self.poll(limit);
        }
        self.poll(0)?;
        if self.was_called || !self.is_quiet() {
            return Ok(());
        }
        thread::sleep(self.rt, Duration::from_millis(limit.min(GATHER_MS)));
        self.poll(0)
    }

    /// Reads what is there at the sockets that are ready.
    ///
    /// # Errors
    /// A socket could not be read.
    fn take_all(&mut self, buffer: &mut [u8]) -> Result<(), LinkFault>
        ensures { GoesOn self.old self.new }
    {
        for iface in 0..self.endpoints.len() {
            if let Some(endpoint) = self.endpoints.get_mut(iface) {
                endpoint.take_all(&self.peer_tables[iface], buffer, &mut self.counts)?;
            }
        }
        Ok(())
    }

    /// The first interface from `least` on at which a datagram waits.
    fn first_waiting(&self, least: usize) -> Option<usize>
        ensures { IfSome result (λ i. i < self.now.interfaces) }
    {
        for iface in least..self.endpoints.len() {
            if self.endpoints[iface].has_datagram() {
                return Some(iface);
            }
        }
        None
    }

    /// The first datagram of the interface whose turn it is: the next one at which a datagram waits, round and round. The one after
    /// it is served next. None, if it was a Request that is not answered.
    fn take_next(&mut self, buffer: &mut [u8]) -> Option<Received>
        ensures interface { IfSome result (λ r. r.iface < self.old.interfaces) }
        ensures within { IfSome result (λ r. r.len ≤ length buffer.new) }
        ensures goes_on { GoesOn self.old self.new }
    {
        let iface = self.first_waiting(self.next).or(self.first_waiting(0))?;
        let received = self.endpoints[iface].next(iface, buffer, &mut self.counts);
        self.next = iface + 1;
        received
    }

    /// Sends as much of what waits as the pace allows at a moment of a turn that ends at `end`. Then it waits for a datagram, and takes
    /// it. Where nothing waits and nothing comes, nothing else is done: this is all that most turns of a quiet network are.
    ///
    /// # Errors
    /// A socket could not be read, or the system cannot wait for them.
    fn look(
        &mut self,
        buffer: &mut [u8],
        moment: u64,
        end: u64,
    ) -> Result<Option<Received>, LinkFault>
        ensures interface { IfOk result (λ o. IfSome o (λ r. r.iface < self.old.interfaces)) }
        ensures within { IfOk result (λ o. IfSome o (λ r. r.len ≤ length buffer.new)) }
        ensures goes_on { GoesOn self.old self.new }
    {
        let mut now = moment;
        if self.until_due(now).is_some() {
            self.send_waiting(Some(now));
            now = self.clock.now().ms();
        }
        self.wait(self.limit(now, end))?;
        if self.is_quiet() {
            return Ok(None);
        }
        self.take_all(buffer)?;
        Ok(self.take_next(buffer))
    }

    /// The next datagram: one that is there, or else the first that comes in time, or before what is watched has something to read.
    /// Meanwhile what waits is sent at its pace. While datagrams wait, sockets are looked at once in a millisecond.
    ///
    /// # Errors
    /// A socket could not be read, or the system cannot wait for them.
    pub(crate) fn receive(&mut self, buffer: &mut [u8]) -> Result<Option<Received>, LinkFault>
        ensures interface { IfOk result (λ o. IfSome o (λ r. r.iface < self.old.interfaces)) }
        ensures within { IfOk result (λ o. IfSome o (λ r. r.len ≤ length buffer.new)) }
        ensures goes_on { GoesOn self.old self.new }
    {
        let end = self.since.saturating_add(self.pause);
        let mut now = self.clock.now().ms();
        self.was_called = false;
        // Within the same millisecond only the queues are searched. They are mostly empty where the last call gave no datagram.
        if now == self.since
            && !self.was_silent
            && let Some(received) = self.take_next(buffer)
        {
            return Ok(Some(received));
        }
        for _ in 0..LOOKS {
            let given = self.look(buffer, now, end)?;
            now = self.clock.now().ms();
            self.since = now;
            self.was_silent = given.is_none();
            self.is_busy = given.is_some();
            if given.is_some() || self.was_called || now >= end {
                return Ok(given);
            }
        }
        Ok(None)
    }
}
