//! The link and the clock of `ripngd run`: UDP sockets, of real links or of 127.0.0.1 in their place, and the system's clock.
//!
//! What a datagram passes here, and what may stop it:
//!
//! ```text
//! socket --take_all--> queue of its interface (16,384, 32 MiB) --take_next, interfaces in turn--> one `recv`
//!                                                                   \--a Request, while answers wait--> lost, and counted
//! `send` --pace open?--> socket
//!        \--closed-----> send queue (4,096, of them 1,200 answers) --`recv` or `finish`, once the pause is over--> socket
//! ```
//!
//! Three rules shape the code:
//!
//! - **A socket is emptied first.** It holds some ninety datagrams of a whole table, and what comes then is lost unseen. So each turn
//!   takes all that is there into the queues, before the router has any of it.
//! - **To be woken costs more than to read.** So a turn waits 12 ms after a datagram for those that follow it, and a neighbor sends at a
//!   pace that leaves room for them: 64 datagrams, then a pause.
//! - **Nobody slows the neighbor of another link.** Each interface has queues of its own, and they are served in turn.
//!
//! Begin with `recv` of `Link` in udp.rt and `send_waiting` in sockets.rt; then endpoint.rt, which has the sockets and the queues of one
//! interface. What is lost all the same is counted in `counts` of udp.rt.
#![tactic(auto)]

mod clock;
mod endpoint;
mod inherited;
mod known;
mod link_sockets;
mod moments;
mod pace;
mod peer_refused;
mod peer_table;
mod ports;
mod receive_queue;
mod send_queue;
mod sending;
mod sockets;
mod udp;
mod waiting;

pub use clock::Uptime;
pub use peer_refused::PeerRefused;
pub use peer_table::PEER_LIMIT;
pub use ports::Ports;
pub use udp::{BindCause, Udp, UdpError};
