//! A link, a clock, a random source and a log over memory. They do what a script says, fail where it says so, and tell all that they
//! gave and took. So each promise of `ripngd_engine`, which speaks of what these tell, is seen to hold of something.

ghost use Rattle.std.specs.Prelude.{◌≡◌, ◌∷◌, [], map, false, None, Some, IfOk, OnErr, option_map};
ghost use Rattle.rand_core.specs.Steps.{stream_of, steps_u32};
ghost use Rattle.ripngd_engine.specs.Link.{Handed};
ghost use Rattle.ripngd_engine.specs.Telling.{Gains};
ghost use Rattle.test_rows.specs.Memory.{call_of, claimed};

use prefix6::Addr6;
use rand_core::utils::NextWord;
use rand_core::{Rng, utils};
use ripngd_engine::{Link, LinkFault, Queue, Received, TimeSource};
use route_table::Moment;
use router_core::{Listed, Outgoing};
use std::alloc::{AllocError, Global};
use std::collections::VecDeque;
use std::io::{self, Write};

/// A datagram that a link is to give.
#[derive(Drop)]
pub struct Datagram {
    pub iface: usize,
    pub source: Addr6,
    pub source_port: u16,
    pub hop_limit: u8,
    pub to_group: bool,
    pub bytes: Vec<u8>,
}

/// A call of a link.
#[derive(Drop)]
pub enum LinkCall {
    /// A `recv` that gave a datagram.
    Gave(Datagram),
    /// A `recv` that gave none.
    Silent,
    RecvFailed,
    /// A `send` of a datagram, and whether it was taken.
    Handed(Outgoing, bool),
}

/// A link that gives the datagrams of a script and keeps its calls.
#[derive(Drop)]
pub struct MemoryLink {
    pub interfaces: usize,
    /// What each `recv` gives that does not fail, in order; later ones give nothing. Nor does one whose datagram is of no interface
    /// of the link, or longer than the buffer.
    pub coming: VecDeque<Option<Datagram>>,
    /// Which `recv` fails, counted from 0.
    pub failing_recv: Option<u64>,
    /// Which `send` fails, counted from 0.
    pub failing_send: Option<u64>,
    calls: Vec<LinkCall>,
    telling: bool,
    recvs: u64,
    sends: u64,
    alloc: Global,
}

/// The call that a `send` was.
fn handed(alloc: Global, outgoing: &Outgoing, taken: bool) -> Result<LinkCall, AllocError>
    ensures { IfOk result (λ call. call_of call ≡ Handed outgoing.now taken) }
{
    let copy = Outgoing {
        iface: outgoing.iface,
        to: outgoing.to,
        bytes: Listed::from_vec(Vec::from_slice(alloc, outgoing.bytes.as_slice())?),
    };
    Ok(LinkCall::Handed(copy, taken))
}

impl MemoryLink {
    /// A link on which nothing comes and nothing fails.
    pub fn new(alloc: Global, interfaces: usize) -> MemoryLink
        ensures interfaces { result.interfaces ≡ interfaces }
        ensures no_call { ⟦<MemoryLink as Link>⟧.calls result ≡ Some [] }
    {
        MemoryLink {
            interfaces,
            coming: VecDeque::new(alloc),
            failing_recv: None,
            failing_send: None,
            calls: Vec::new(alloc),
            telling: true,
            recvs: 0,
            sends: 0,
            alloc,
        }
    }

    /// Its calls so far. `None` if memory to keep one was refused.
    pub fn calls(&self) -> Option<&[LinkCall]>
        ensures { ⟦<MemoryLink as Link>⟧.calls self.now ≡ option_map (λ calls. map call_of calls.now) result }
    {
        if self.telling {
            Some(self.calls.as_slice())
        } else {
            None
        }
    }

    /// Keeps a call.
    fn keep(&mut self, call: Result<LinkCall, AllocError>)
        ensures gained { IfOk call (λ it. Gains (claimed self.old.telling (map call_of self.old.calls.items))
            (claimed self.new.telling (map call_of self.new.calls.items)) (call_of it ∷ [])) }
        ensures lost { OnErr call (self.new.telling ≡ false) }
        ensures same { self.new ≡ record self.old { calls = self.new.calls; telling = self.new.telling } }
    {
        match call {
            Ok(call) => {
                if self.calls.push(call).is_err() {
                    self.telling = false;
                }
            }
            Err(_) => self.telling = false,
        }
    }
}

impl Link for MemoryLink {
    ghost use Rattle.std.specs.Prelude.{[], ◌<◌, ◌≤◌, ◌+◌, ◌-◌, ◌^◌, IfSome, IsErr, OnOk, drop, is_ok, length, min, slice_get};
    ghost use Rattle.ripngd_engine.specs.Link.{recv_call};
    ghost use Rattle.test_rows.specs.Memory.{given_of};

    ghost calls = { λ m. claimed m.telling (map call_of m.calls.items) };

    ghost interface_count = { λ m. m.interfaces };

    ghost queues = { λ _. [] };

    fn interfaces(&self) -> usize {
        self.interfaces
    }

    /// Nothing ever waits.
    fn queue_at(&self, _iface: usize) -> Queue {
        Queue::empty()
    }

    /// Fails where the script says so, and else gives what comes next.
    fn recv(&mut self, buffer: &mut [u8]) -> Result<Option<Received>, LinkFault>
        ensures gained { Gains (claimed self.old.telling (map call_of self.old.calls.items))
            (claimed self.new.telling (map call_of self.new.calls.items)) (recv_call result buffer.new ∷ []) }
        ensures interface { IfOk result (λ o. IfSome o (λ r. r.iface < self.old.interfaces)) }
        ensures within { IfOk result (λ o. IfSome o (λ r. r.len ≤ length buffer.new)) }
        ensures same { self.new.interfaces ≡ self.old.interfaces }
        ensures failing { self.old.failing_recv ≡ Some self.old.recvs → IsErr result }
        ensures sound { OnErr result (self.old.failing_recv ≡ Some self.old.recvs) }
        ensures gives { IfOk result (λ o. o ≡ given_of self.old.interfaces (length buffer.old) (slice_get self.old.coming.items 0)) }
        ensures rest { OnOk result (self.new.coming.items ≡ drop 1 self.old.coming.items) }
        ensures counted { self.new.recvs ≡ min (self.old.recvs + 1) (2 ^ 64 - 1) }
    {
        let number = self.recvs;
        self.recvs = number.saturating_add(1);
        if self.failing_recv == Some(number) {
            self.keep(Ok(LinkCall::RecvFailed));
            return Err(LinkFault);
        }
        let Some(Some(datagram)) = self.coming.pop_front() else {
            self.keep(Ok(LinkCall::Silent));
            return Ok(None);
        };
        let len = datagram.bytes.len();
        if datagram.iface >= self.interfaces || len > buffer.len() {
            self.keep(Ok(LinkCall::Silent));
            return Ok(None);
        }
        buffer[..len].copy_from_slice(datagram.bytes.as_slice());
        let received = Received {
            iface: datagram.iface,
            source: datagram.source,
            source_port: datagram.source_port,
            hop_limit: datagram.hop_limit,
            to_group: datagram.to_group,
            len,
        };
        self.keep(Ok(LinkCall::Gave(datagram)));
        Ok(Some(received))
    }

    /// Fails where the script says so, and nowhere else.
    fn send(&mut self, outgoing: &Outgoing) -> Result<(), LinkFault>
        ensures gained { Gains (claimed self.old.telling (map call_of self.old.calls.items))
            (claimed self.new.telling (map call_of self.new.calls.items)) (Handed outgoing.now (is_ok result) ∷ []) }
        ensures same { self.new.interfaces ≡ self.old.interfaces }
        ensures failing { self.old.failing_send ≡ Some self.old.sends → IsErr result }
        ensures sound { OnErr result (self.old.failing_send ≡ Some self.old.sends) }
        ensures counted { self.new.sends ≡ min (self.old.sends + 1) (2 ^ 64 - 1) }
    {
        let number = self.sends;
        self.sends = number.saturating_add(1);
        let taken = self.failing_send != Some(number);
        let call = handed(self.alloc, outgoing, taken);
        self.keep(call);
        if taken { Ok(()) } else { Err(LinkFault) }
    }
}

/// A clock that gives the moments of a script, and then the last of them for ever. It keeps what it gave.
#[derive(Drop)]
pub struct MemoryClock {
    coming: VecDeque<Moment>,
    last: Moment,
    given: Vec<Moment>,
    telling: bool,
}

impl MemoryClock {
    /// A clock that gives these moments, and then the last one for ever.
    pub fn new(alloc: Global, coming: VecDeque<Moment>, last: Moment) -> MemoryClock
        ensures { ⟦<MemoryClock as TimeSource>⟧.moments result ≡ Some [] }
    {
        MemoryClock {
            coming,
            last,
            given: Vec::new(alloc),
            telling: true,
        }
    }
}

impl TimeSource for MemoryClock {
    ghost use Rattle.std.specs.Prelude.{drop, slice_index_or};

    ghost moments = { λ c. claimed c.telling c.given.items };

    /// The next moment of the script, or the last for ever.
    fn now(&mut self) -> Moment
        ensures gained { Gains (claimed self.old.telling self.old.given.items) (claimed self.new.telling self.new.given.items) (result ∷ []) }
        ensures gives { result ≡ slice_index_or self.old.coming.items 0 self.old.last }
        ensures rest { self.new.coming.items ≡ drop 1 self.old.coming.items }
        ensures last { self.new.last ≡ self.old.last }
    {
        let now = self.coming.pop_front().unwrap_or(self.last);
        if self.given.push(now).is_err() {
            self.telling = false;
        }
        now
    }
}

/// A source that gives one word over and over.
#[derive(Clone, Copy, Debug, PartialEq, Eq)]
pub struct SameWord(pub u32);

impl NextWord<u32> for SameWord {
    ghost step = { λ s. (s.0, s) };

    fn next_word(&mut self) -> u32 {
        self.0
    }
}

impl Rng for SameWord {
    ghost stream = { stream_of (steps_u32 (λ s. (s.0, s))) };

    fn next_u32(&mut self) -> u32 {
        self.next_word()
    }

    fn next_u64(&mut self) -> u64 {
        utils::next_u64_via_u32(self)
    }

    fn fill_bytes(&mut self, dst: &mut [u8]) {
        utils::fill_bytes_via_u32(self, dst)
    }
}

/// A log over memory.
#[derive(Drop)]
pub struct MemoryLog {
    /// Which write fails, counted from 0.
    pub failing_write: Option<u64>,
    /// How often it was written, failed or not.
    pub writes: u64,
    text: Vec<u8>,
}

impl MemoryLog {
    /// An empty log of which no write fails.
    pub fn new(alloc: Global) -> MemoryLog
        ensures empty { ⟦<MemoryLog as Write>⟧.contents result ≡ Some [] }
        ensures sound { result.failing_write ≡ None }
        ensures writes { result.writes ≡ 0 }
    {
        MemoryLog {
            failing_write: None,
            writes: 0,
            text: Vec::new(alloc),
        }
    }

    /// What was written.
    pub fn text(&self) -> &[u8]
        ensures { ⟦<MemoryLog as Write>⟧.contents self.now ≡ Some result.now }
    {
        self.text.as_slice()
    }
}

impl Write for MemoryLog {
    ghost use Rattle.std.specs.Prelude.{◌⊎◌, ◌-◌, ◌+◌, ◌^◌, ◌++◌, IfErr, IsErr, IsOk, length, min};
    ghost use Rattle.std.specs.Io.{WritesAtMost};
    ghost use Rattle.std.specs.Io.KnownBytes.{Keeps, WriteAppends};
    ghost use Rattle.std.specs.IoError.{error_kind};
    ghost use Rattle.std.specs.declared.io.ErrorKind.TheVariants as kinds;

    ghost contents = { λ m. Some m.text.items };

    /// Takes all bytes, except for the write that is to fail, and where memory is refused: then it takes none.
    fn write(&mut self, buf: &[u8]) -> io::Result<usize>
        ensures bound { WritesAtMost result buf.now }
        ensures bytes { WriteAppends (Some self.old.text.items) (Some self.new.text.items) result buf.now }
        ensures all { IfOk result (λ n. (n ≡ length buf.now) × (self.new.text.items ≡ self.old.text.items ++ buf.now)) }
        ensures none { OnErr result (self.new.text.items ≡ self.old.text.items) }
        ensures failing { self.old.failing_write ≡ Some self.old.writes → IsErr result }
        ensures why { IfErr result (λ e. (self.old.failing_write ≡ Some self.old.writes) ⊎ (error_kind e ≡ kinds.OutOfMemory)) }
        ensures counted { self.new.writes ≡ min (self.old.writes + 1) (2 ^ 64 - 1) }
        ensures same { self.new.failing_write ≡ self.old.failing_write }
    {
        let number = self.writes;
        self.writes = number.saturating_add(1);
        if self.failing_write == Some(number) {
            return Err(io::Error::from(io::ErrorKind::Other));
        }
        self.text.write(buf)
    }

    fn flush(&mut self) -> io::Result<()>
        ensures bytes { Keeps (Some self.old.text.items) (Some self.new.text.items) }
        ensures ok { IsOk result }
        ensures unchanged { self.new ≡ self.old }
    {
        Ok(())
    }
}
