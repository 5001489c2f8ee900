//! The queue of datagrams that wait to be sent on an interface. They go out in order, at the pace of its peers, so that no answer is
//! overtaken by a later update. Of those that wait few are answers: whoever asks and asks keeps no update for long.

ghost use Rattle.std.specs.Prelude.{◌≡◌, ◌<◌, ◌≤◌, ◌++◌, ◌∷◌, [], IfOk, IfSome, IsNone, MatchOption, OnErr, OnOk, drop, is_ok, length, true};
ghost use Rattle.ripngd_udp.specs.Common.{answers_in, answers_of, goes_at_once, is_answered, is_to, may_wait, owes, queue_of, rate_of, waiting_after};

use crate::link_sockets::LinkSockets;
use crate::pace::Pace;
use crate::peer_table::PeerTable;
use crate::sending::send;
use prefix6::Addr6;
use ripngd_engine::{LinkFault, Queue};
use router_core::{Destination, Listed, Outgoing};
use std::alloc::{AllocError, Global};
use std::collections::VecDeque;

/// How many datagrams wait on an interface at most: more than three updates of a whole table take.
const ROOM: usize = 4_096;

/// How many of them are answers to Requests at most: more than one of a whole table takes. A real link sends them in 3.6 seconds.
const ANSWERS: usize = 1_200;

/// How many answers may wait where one more Request is taken of who has sent no Response: half as many.
const ANSWERS_TO_HOSTS: usize = 600;

/// The datagrams of an interface that wait to be sent.
#[derive(Drop)]
pub(crate) struct SendQueue {
    waiting: VecDeque<Outgoing>,
    /// How many of them are answers.
    answers: usize,
    pace: Pace,
    alloc: Global,
    ghost few: { length waiting.items ≤ 4096 },
    ghost counted: { answers ≡ answers_in waiting.items },
    ghost fair: { answers ≤ 1200 },
}

/// How many answers a datagram to that destination is: one to who asked, and all else goes to the group.
fn answers_of(to: &Destination) -> usize
    ensures { result ≡ answers_of to.now }
{
    match to {
        Destination::Group => 0,
        Destination::Peer { .. } => 1,
    }
}

/// Whether that destination is this address alone.
fn is_to(to: &Destination, addr: Addr6) -> bool
    ensures { result ≡ is_to to.now addr }
{
    match to {
        Destination::Group => false,
        Destination::Peer { addr: other, .. } => *other == addr,
    }
}

/// A copy of a datagram.
fn copy_of(alloc: Global, outgoing: &Outgoing) -> Result<Outgoing, AllocError>
    ensures { IfOk result (λ copy. copy ≡ outgoing.now) }
{
    Ok(Outgoing {
        iface: outgoing.iface,
        to: outgoing.to,
        bytes: Listed::from_vec(Vec::from_slice(alloc, outgoing.bytes.as_slice())?),
    })
}

impl SendQueue {
    /// An empty queue.
    pub(crate) fn new(alloc: Global) -> SendQueue
        ensures { result.waiting.items ≡ [] }
    {
        SendQueue {
            waiting: VecDeque::new(alloc),
            answers: 0,
            pace: Pace::new(),
            alloc,
        }
    }

    /// What waits.
    pub(crate) fn sizes(&self) -> Queue
        ensures { result ≡ queue_of self.now.waiting.items }
    {
        Queue {
            waiting: self.waiting.len(),
            answers: self.answers,
        }
    }

    /// How many milliseconds after a moment more may be sent, if something waits.
    pub(crate) fn until_due(&self, now: u64) -> Option<u64> {
        (!self.waiting.is_empty()).then_some(self.pace.until_open(now))
    }

    /// Whether an answer to an address waits.
    fn owes(&self, addr: Addr6) -> bool
        ensures { result ≡ owes self.now.waiting.items addr }
    {
        self.waiting
            .iter()
            .any(|outgoing| is_to(&outgoing.to, addr))
    }

    /// Whether one more Request is to be answered, of an address that has sent Responses or not: no answer to it waits, and not too
    /// many to others.
    pub(crate) fn is_answered(&self, is_known: bool, addr: Addr6) -> bool
        ensures { result ≡ is_answered self.now.waiting.items is_known addr }
    {
        let most = if is_known { ANSWERS } else { ANSWERS_TO_HOSTS };
        !self.owes(addr) && self.answers < most
    }

    /// Whether one more datagram for a destination may wait.
    fn may_wait(&self, to: &Destination) -> bool
        ensures { result ≡ may_wait self.now.waiting.items to.now }
    {
        self.waiting.len() < ROOM && self.answers + answers_of(to) <= ANSWERS
    }

    /// Adds a datagram at the end.
    ///
    /// # Errors
    /// 4,096 wait already, or 1,200 answers if it is one, or there is no memory for it.
    fn keep(&mut self, outgoing: &Outgoing) -> Result<(), LinkFault>
        ensures room { OnOk result (may_wait self.old.waiting.items outgoing.now.to ≡ true) }
        ensures kept { OnOk result (self.new.waiting.items ≡ self.old.waiting.items ++ outgoing.now ∷ []) }
        ensures err { OnErr result (self.new.waiting.items ≡ self.old.waiting.items) }
    {
        if !self.may_wait(&outgoing.to) {
            return Err(LinkFault);
        }
        let copy = copy_of(self.alloc, outgoing).map_err(|_| LinkFault)?;
        self.waiting.push_back(copy).map_err(|_| LinkFault)?;
        self.answers += answers_of(&outgoing.to);
        Ok(())
    }

    /// Takes out the first.
    fn pop(&mut self) -> Option<Outgoing>
        ensures first { MatchOption result (self.old.waiting.items ≡ []) (λ first. self.old.waiting.items ≡ first ∷ self.new.waiting.items) }
        ensures rest { self.new.waiting.items ≡ drop 1 self.old.waiting.items }
        ensures pace { self.new.pace ≡ self.old.pace }
    {
        let first = self.waiting.pop_front()?;
        self.answers -= answers_of(&first.to);
        Some(first)
    }

    /// Sends a datagram at a moment, in milliseconds: at once where none waits and the pace allows it, or else after those that wait.
    ///
    /// # Errors
    /// There is no peer at the destination; it went out at once and that failed; too many wait already, or there is no memory for it.
    /// Only this datagram is lost.
    pub(crate) fn send(
        &mut self,
        sockets: &LinkSockets,
        peer_table: &PeerTable,
        outgoing: &Outgoing,
        now: u64,
    ) -> Result<(), LinkFault>
        ensures waits { self.new.waiting.items ≡ waiting_after
            (goes_at_once self.old.waiting.items self.old.pace.opens self.old.pace.left now)
            self.old.waiting.items outgoing.now (is_ok result) }
        ensures room { length self.new.waiting.items ≤ 4096 }
        ensures answers { answers_in self.new.waiting.items ≤ 1200 }
    {
        if self.waiting.is_empty() && self.pace.take(1, peer_table.rate(), now) == 1 {
            send(sockets, peer_table, outgoing)
        } else if peer_table.is_known(&outgoing.to) {
            self.keep(outgoing)
        } else {
            Err(LinkFault)
        }
    }

    /// Sends the first `count` that wait, or all, and returns how many failed.
    fn send_some(&mut self, sockets: &LinkSockets, peer_table: &PeerTable, count: usize) -> u64
        ensures left { self.new.waiting.items ≡ drop count self.old.waiting.items }
        ensures pace { self.new.pace ≡ self.old.pace }
    {
        let mut failed: u64 = 0;
        for _ in 0..count {
            if let Some(outgoing) = self.pop() {
                let lost = send(sockets, peer_table, &outgoing).is_err();
                failed = failed.saturating_add(u64::from(lost));
            }
        }
        failed
    }

    /// Sends as many of those that wait as the pace allows at a moment, in milliseconds: the share of the interface where the pause is
    /// over, or else what is left of the last share. Without a moment it sends all. Returns how many failed.
    pub(crate) fn send_waiting(
        &mut self,
        sockets: &LinkSockets,
        peer_table: &PeerTable,
        moment: Option<u64>,
    ) -> u64
        ensures all { IsNone moment → self.new.waiting.items ≡ [] }
        ensures due { IfSome moment (λ now. self.old.pace.opens ≤ now
            → self.new.waiting.items ≡ drop (rate_of peer_table.now).share self.old.waiting.items) }
        ensures paused { IfSome moment (λ now. now < self.old.pace.opens
            → self.new.waiting.items ≡ drop self.old.pace.left self.old.waiting.items) }
    {
        let count = match moment {
            Some(now) => self.pace.take(self.waiting.len(), peer_table.rate(), now),
            None => self.waiting.len(),
        };
        self.send_some(sockets, peer_table, count)
    }
}
