//! Forwarding: hops, changes of entries, and a table that follows them.
//!
//! A router answers with a list of [`RouteChange`]. [`Fib`] replays them and looks up the longest match of an address. `Replays`
//! in specs/Forwarding.antt says what a list of changes does to a table, and `IsLongestMatch` there judges a lookup.
#![tactic(auto)]

mod block;
mod blocks;
mod change;
mod fib;
mod laws;
mod replaying;
mod searching;
mod walk;

pub use change::{Hop, RouteChange};
pub use fib::Fib;
pub use laws::{longest_match_is_one, replay_follows_calls};
pub use walk::Entries;
