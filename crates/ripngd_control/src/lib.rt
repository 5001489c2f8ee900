//! How a running router is watched and controlled. A [`Monitor`] counts what becomes of its datagrams, in all and by neighbor, and
//! writes a line for each one that is refused. Clients of its control socket send commands of one line, and are answered between two
//! turns, without ever holding the router up.
//!
//! `specs/Watching` says what is counted, `specs/Commands` what a command is, `specs/Answers` what is done and answered for one,
//! `specs/Printed` and `specs/Json` how all of that is printed, and `specs/Clients` what clients can make of the router.
#![tactic(auto)]

mod answering;
mod clients;
mod command;
mod connection;
mod control_socket;
mod counts;
mod json_text;
mod links;
mod monitor;
mod neighbors;
mod pieces;
mod refusals;
mod reply;
mod status_json;

pub use answering::RunState;
pub use clients::Clients;
pub use command::{Command, Destination, PeerChange, command_in, read_command};
pub use control_socket::ListenFault;
pub use counts::{Counts, Losses, counts_are_of_all_told};
pub use links::{LinkTally, Links};
pub use monitor::Monitor;
pub use neighbors::{Neighbor, Neighbors, Tally};
pub use refusals::Refusals;
pub use reply::{Peering, Reply};
