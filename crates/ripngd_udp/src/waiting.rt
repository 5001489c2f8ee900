//! The wait for datagrams at all sockets of a link at once (`epoll`), and for what else is watched.

ghost use Rattle.std.specs.Prelude.{◌≤◌, IfErr};
ghost use Rattle.ripngd_udp.specs.Common.{NamesSocketOf};

use crate::inherited::inherited;
use crate::sending::local;
use crate::udp::{BindCause, UdpError};
use mio::unix::SourceFd;
use mio::{Events, Interest, Poll, Token};
use ripngd_engine::{LinkFault, Place};
use std::alloc::Global;
use std::io;
use std::net::{Net, UdpSocket};
use std::os::fd::{AsRawFd, RawFd};
use std::time::Duration;

/// How many sockets an interface has at most.
pub(crate) const SOCKETS: usize = 3;

/// The system's list of sockets that are ready. It reports a socket as ready once, and again only after a read has found it empty.
#[derive(Drop)]
pub(crate) struct Polled {
    poll: Poll,
    events: Events,
}

impl Polled {
    /// An empty list for the sockets of these places. Where the system cannot make one, the first of them cannot be bound.
    pub(crate) fn new<N: Net>(net: &N, alloc: Global, places: &[Place]) -> Result<Polled, UdpError>
        ensures { IfErr result (NamesSocketOf places.now) }
    {
        let Ok(events) = Events::with_capacity(
            alloc,
            places.len().saturating_mul(SOCKETS).saturating_add(1),
        ) else {
            return Err(UdpError::OutOfMemory);
        };
        match (Poll::new(net), places.first()) {
            (Ok(poll), _) => Ok(Polled { poll, events }),
            (Err(_), Some(place)) => Err(UdpError::Bind {
                socket: place.socket,
                cause: BindCause::Other,
            }),
            (Err(_), None) => Err(UdpError::OutOfMemory),
        }
    }

    /// A socket at a port of 127.0.0.1, whose calls never wait. It is reported under the number of its interface.
    pub(crate) fn open<N: Net>(&self, net: &N, iface: usize, port: u16) -> io::Result<UdpSocket> {
        let socket = UdpSocket::bind(net, local(port))?;
        socket.set_nonblocking(true)?;
        self.register(socket.as_raw_fd(), iface)?;
        Ok(socket)
    }

    /// A socket that the process was started with, by the number of its descriptor; else as `open`.
    pub(crate) fn take_over(
        &self,
        iface: usize,
        number: u16,
        of_group: bool,
    ) -> io::Result<UdpSocket> {
        let socket = inherited(number, of_group)?;
        self.register(socket.as_raw_fd(), iface)?;
        Ok(socket)
    }

    /// From now on it is reported under this number that there is something to read at a descriptor.
    pub(crate) fn register(&self, fd: RawFd, number: usize) -> io::Result<()> {
        self.poll
            .registry()
            .register(&mut SourceFd(&fd), Token(number), Interest::READABLE)
    }

    /// Waits until something is ready, at most `limit_ms` milliseconds.
    ///
    /// # Errors
    /// The system cannot wait.
    pub(crate) fn wait(&mut self, limit_ms: u64) -> Result<(), LinkFault>
        requires { limit_ms ≤ 400 }
    {
        let limit = Duration::from_millis(limit_ms);
        let waited = self.poll.poll(&mut self.events, Some(limit));
        waited.map_err(|_| LinkFault)
    }

    /// The number of one of those that the last wait reported: of the first for 0, and so on.
    pub(crate) fn ready_at(&self, index: usize) -> Option<usize> {
        let event = self.events.iter().nth(index)?;
        Some(event.token().0)
    }
}
