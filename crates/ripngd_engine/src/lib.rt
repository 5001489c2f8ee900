//! The engine of a RIPng router: it runs the pure step of `router_core` over a link, a clock and a source of random numbers.
//!
//! **In and out.** In come datagrams (`Link::recv`), moments (`TimeSource::now`), random numbers, and the calls of the owner. Out go
//! datagrams (`Link::send`), the changes of the forwarding table, a line of the log for each of them, and reports to an observer. The
//! engine adds no rule of the protocol: what a router does with a datagram or a tick is `router_core::Router`.
//!
//! **A turn** is one `recv`, then the arrival of the datagram if one came, then one tick:
//!
//! ```text
//! recv -- datagram -> Router::arrive -> observer, link, table, log --> Router::tick -> observer, link, table, log
//!     \-- nothing -----------------------------------------------/
//! ```
//!
//! Between turns the owner may change the configuration, shut the router down, or report that a link is down.
//!
//! **Failures.** A send that fails, or a step without memory, loses that datagram or step alone and is counted (`Report`). The log ends
//! at its first failed write. A link that cannot be read ends the call, not the engine. Only a forwarding table without memory ends it.
//!
//! **Definitions.** `specs/Run` says what a start, a step and a turn are (`ComesUp`, `Moved`, `Turn`), as steps of the router.
//! `specs/Seen` says what a call shows of them by link, clock and log (`Started`, `TurnsAnswer`), and `specs/Changing` what is done
//! between turns. Where a contract speaks of the past of links, clients and logs, it is a [`Transcript`]. Begin with `Turn`, then
//! [`Engine::turns`], then `runner`, whose functions are the steps.
#![tactic(auto)]

mod clock;
mod engine;
mod laws;
mod lines;
mod link;
mod observer;
mod outlet;
mod peer;
mod report;
mod runner;
mod transcript;

pub use clock::TimeSource;
pub use engine::Engine;
pub use laws::turns_go_on;
pub use lines::{ChangeLine, RouteLine, first_line, write_entries};
pub use link::{Link, LinkChange, LinkFault, Queue, Received};
pub use observer::{Arrived, NoObserver, TrafficObserver, Update};
pub use peer::{Peer, Place, Sender, Socket, has_clash};
pub use report::{ChangeFault, EngineFault, Report};
pub use transcript::{Entry, Transcript};
