//! The connection of one client: its line is received and its answer is sent, by calls that never wait.

ghost use Rattle.std.specs.Prelude.{◌≡◌, ◌≢◌, ◌≤◌, IfSome, IsTrue, None, false, vec_len};
ghost use Rattle.ripngd_control.specs.Common.{GrowsByReceived, ShrinksBySent};

use crate::answering::{Rest, write_rest};
use fib::Fib;
use route_table::RouteStore;
use router_core::Router;
use std::io::{self, ErrorKind, Read, Write};
use std::os::unix::net::UnixStream;
use std::rt::Clock;
use std::time::Instant;

/// The most bytes of a line, its line feed included.
pub(crate) const LINE_LIMIT: usize = 1_024;

/// How many milliseconds a client may keep others waiting.
const PATIENCE: u128 = 2_000;

/// How many pieces a client is sent at most between two turns.
const PIECES: usize = 16;

/// Whether an error of a socket only says that the call would wait, or was interrupted.
fn is_passing(kind: ErrorKind) -> bool {
    matches!(kind, ErrorKind::WouldBlock | ErrorKind::Interrupted)
}

/// Reads once, at most the bytes that a line may still have, and adds them to those received before. Returns whether more may come:
/// not if the client has gone, nor if there is no memory for what it sends.
fn receive<T: Read>(stream: &mut T, received: &mut Vec<u8>) -> bool
    ensures grows { IsTrue result
        → GrowsByReceived (T.remaining stream.old) received.old.items (T.remaining stream.new) received.new.items }
    ensures bounded { IsTrue result → vec_len received.old ≤ LINE_LIMIT → vec_len received.new ≤ LINE_LIMIT }
{
    let mut bytes = [0_u8; LINE_LIMIT];
    let room = LINE_LIMIT - received.len().min(LINE_LIMIT);
    match stream.read(&mut bytes[..room]) {
        Ok(0) => false,
        Ok(count) => received.extend_from_slice(&bytes[..count]).is_ok(),
        Err(error) => is_passing(error.kind()),
    }
}

/// Writes once from the text that a client is still to be sent. Returns how many bytes went out, 0 if the call would wait, or `None` if
/// the client has gone.
fn send<T: Write>(stream: &mut T, text: &mut Vec<u8>) -> Option<usize>
    ensures { IfSome result (λ count. ShrinksBySent (T.contents stream.old) text.old.items count (T.contents stream.new) text.new.items) }
{
    match stream.write(text.as_slice()) {
        Ok(count) => {
            text.drain(..count);
            Some(count)
        }
        Err(error) if is_passing(error.kind()) => Some(0),
        Err(_) => None,
    }
}

/// A client that has connected.
#[derive(Drop)]
pub(crate) struct Connection {
    stream: UnixStream,
    /// Since when it keeps others waiting: since it connected, or since it last received something.
    since: Instant,
    /// The bytes that it has sent.
    pub(crate) received: Vec<u8>,
    /// The text that it is to be sent next.
    pub(crate) text: Vec<u8>,
    /// The rest of its answer after that, once its command is known.
    pub(crate) rest: Option<Rest>,
}

impl Connection {
    /// The connection of a client that has sent nothing yet.
    pub(crate) fn new<R: AllocGlobal + Clock>(
        rt: &R,
        stream: UnixStream,
    ) -> io::Result<Connection> {
        Ok(Connection {
            stream,
            since: Instant::now(rt)?,
            received: Vec::new(rt.alloc()),
            text: Vec::new(rt.alloc()),
            rest: None,
        })
    }

    /// Reads once, and returns whether its command may be known now: not if it was known before, nor if the client has gone.
    pub(crate) fn receive(&mut self) -> bool
        ensures once { self.old.rest ≢ None → result ≡ false }
    {
        if self.rest.is_some() {
            return false;
        }
        let is_there = receive(&mut self.stream, &mut self.received);
        if !is_there {
            self.rest = Some(Rest::Lost);
        }
        is_there
    }

    /// Sends as much of its answer as it takes now, and returns whether the connection goes on. A client that takes something may keep
    /// others waiting for 2 seconds more.
    pub(crate) fn send<R: Clock, S: RouteStore>(
        &mut self,
        rt: &R,
        router: &Router<S>,
        fib: &Fib,
    ) -> bool {
        let Ok(now) = Instant::now(rt) else {
            return false;
        };
        for _ in 0..PIECES {
            let is_in_time = now.duration_since(self.since).as_millis() < PATIENCE;
            if let (true, Some(rest)) = (self.text.is_empty(), self.rest) {
                self.rest = Some(write_rest(router, fib, rest, &mut self.text));
            }
            if self.text.is_empty() {
                return is_in_time && self.rest.is_none();
            }
            match send(&mut self.stream, &mut self.text) {
                None => return false,
                Some(0) => return is_in_time,
                Some(_) => self.since = now,
            }
        }
        true
    }
}
