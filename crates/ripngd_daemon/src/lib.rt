//! The subcommands for one router and its files: `run`, `ctl`, `check` and `table`, what they print, and the failures of files, ports
//! and sockets.
//!
//! A run is a list of turns. Each turn, in this order:
//!
//! 1. waits for datagrams, as long as the router has nothing to do (`ripngd_engine`, over the sockets of `ripngd_udp`);
//! 2. steps the router, and writes which routes have changed (run_log.rt);
//! 3. serves the clients of the control socket (`ripngd_control`), and obeys what they command (peering.rt);
//! 4. asks the neighbors for their tables, if a route was lost (asking.rt says when, questions.rt what is a loss and what is sent).
//!
//! It ends after the seconds that were ordered, by a command, or by a failure (failure.rt). Then the last update is sent, and what was
//! lost on the way is said (history.rt). Begin with `run` in run_command.rt, then turns.rt.
//!
//! `specs/Run` says what a run has done, `specs/Failing` which failures each subcommand may have, and `specs/Reading` which changes a
//! log has, and which texts are no log.
#![tactic(auto)]

mod asking;
mod check_command;
mod ctl_command;
mod failure;
mod files;
mod history;
mod line;
mod peering;
mod questions;
mod reading;
mod run_command;
mod run_log;
mod table_command;
mod turns;
mod warnings;

pub use check_command::{check, check_file};
pub use ctl_command::ctl;
pub use failure::{Failure, FileCause, write_failure};
pub use files::{FileSource, SystemFiles};
pub use history::{History, write_losses};
pub use reading::{LogFault, logs_are_read_one_way, read_log, written_logs_are_read_back};
pub use run_command::{System, run};
pub use table_command::{table, table_file};
