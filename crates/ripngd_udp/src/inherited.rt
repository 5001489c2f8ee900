//! Sockets that the process was started with, each at the port of RIPng on one device: a real link. Here is the one `unsafe` of the
//! repository.
//!
//! A number of a configuration may be that of anything that is open: of the log, or of standard output. So it is duplicated first, and
//! only the duplicate is taken. It is new, and nobody else has it: whatever the number was, nothing else of this process is closed or
//! read by way of it. What is no socket of UDP port 521 over IPv6 is refused, and the duplicate closed, before a byte is read.

use crate::peer_table::GROUP;
use os::FromRawFd;
use router_core::RIPNG_PORT;
use std::io::{self, ErrorKind};
use std::net::{SocketAddr, UdpSocket};

/// Whether a socket at this address is one of a real link: at the port of RIPng, and bound to the group or not, as is asked.
fn is_of_link(addr: SocketAddr, of_group: bool) -> bool {
    match addr {
        SocketAddr::V6(addr) => addr.port() == RIPNG_PORT
            && (addr.ip().to_bits() == GROUP) == of_group,
        SocketAddr::V4(_) => false,
    }
}

/// A socket of its own for the descriptor of that number, which stays open.
///
/// # Errors
/// There is no such descriptor, or it is no IPv6 socket at UDP port 521 that is bound to the group, or is not, as is asked.
pub(crate) fn inherited(number: u16, of_group: bool) -> io::Result<UdpSocket> {
    let fd = os::duplicate(i32::from(number));
    if fd < 0 {
        return Err(io::Error::from_raw_os_error(os::errno()));
    }
    // Sound: `fd` is open and new, so that this socket alone has it, and closes it when it is dropped.
    let socket = unsafe { UdpSocket::from_raw_fd(fd) };
    if !is_of_link(socket.local_addr()?, of_group) {
        return Err(io::Error::from(ErrorKind::InvalidInput));
    }
    socket.set_nonblocking(true)?;
    Ok(socket)
}
