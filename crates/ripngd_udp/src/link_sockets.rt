//! The sockets of one link: one of loopback, or those of a real link. What is sent to the group leaves a real link by the group's own
//! socket. So it waits behind no answer that the system keeps while it looks for who asked.

ghost use Rattle.std.specs.Prelude.{◌≤◌, IfOk, length};

use crate::waiting::Polled;
use ripngd_engine::Socket;
use router_core::MAX_HOP_LIMIT;
use std::alloc::Global;
use std::io::{self, ErrorKind};
use std::net::{Net, SocketAddr, UdpSocket};

/// How often a send is tried while signals interrupt it.
const TRIES: u32 = 16;

/// What a socket of a group gives whose datagrams have another hop limit than 255: which one is not known.
const FAR: u8 = 0;

/// A socket that gives what came to the group of a real link, all of it with this hop limit.
#[derive(Drop)]
struct GroupSocket {
    socket: UdpSocket,
    hop_limit: u8,
}

/// The sockets of a link.
#[derive(Drop)]
pub(crate) struct LinkSockets {
    /// What sends to one address, and gives what came to it alone; on a link of loopback it does all.
    alone: UdpSocket,
    /// Those of the group of a real link. The first one also sends to it.
    groups: Vec<GroupSocket>,
}

impl LinkSockets {
    /// The sockets that are named so, each watched for that interface.
    ///
    /// # Errors
    /// One of them cannot be had.
    pub(crate) fn open<N: Net>(
        net: &N,
        alloc: Global,
        waiting: &Polled,
        iface: usize,
        socket: Socket,
    ) -> io::Result<LinkSockets> {
        let mut groups = Vec::new(alloc);
        let alone = match socket {
            Socket::Local { port, .. } => waiting.open(net, iface, port)?,
            Socket::Inherited { alone, group, far } => {
                for (number, hop_limit) in [(Some(group), MAX_HOP_LIMIT), (far, FAR)] {
                    if let Some(number) = number {
                        let socket = waiting.take_over(iface, number, true)?;
                        groups.push(GroupSocket { socket, hop_limit })?;
                    }
                }
                waiting.take_over(iface, alone, false)?
            }
        };
        Ok(LinkSockets { alone, groups })
    }

    /// How many sockets of the group there are.
    pub(crate) fn group_count(&self) -> usize {
        self.groups.len()
    }

    /// Reads one datagram into a buffer, from the socket of a group or, without its number, from the other one. It came with this hop
    /// limit, if it came to a group.
    pub(crate) fn read(
        &self,
        group: Option<usize>,
        buffer: &mut [u8],
    ) -> (Option<u8>, io::Result<(usize, SocketAddr)>)
        ensures { IfOk result.1 (λ r. r.0 ≤ length buffer.new) }
    {
        match group.and_then(|number| self.groups.get(number)) {
            Some(group) => (Some(group.hop_limit), group.socket.recv_from(buffer)),
            None => (None, self.alone.recv_from(buffer)),
        }
    }

    /// What sends to the group, or to one address.
    fn outlet(&self, to_group: bool) -> &UdpSocket {
        match self.groups.first() {
            Some(group) if to_group => &group.socket,
            _ => &self.alone,
        }
    }

    /// Sends a datagram there, which is the group or one address, and returns whether all of it went out. What a signal interrupts is
    /// tried again.
    pub(crate) fn send(&self, to_group: bool, to: SocketAddr, bytes: &[u8]) -> bool {
        let socket = self.outlet(to_group);
        for _ in 0..TRIES {
            match socket.send_to(bytes, to) {
                Ok(count) => return count == bytes.len(),
                Err(error) if error.kind() == ErrorKind::Interrupted => {}
                Err(_) => return false,
            }
        }
        false
    }
}
