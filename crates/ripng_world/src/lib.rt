//! Networks of routers in memory: what may happen in one, and what then holds of every route and every datagram.
//!
//! A [`Node`] is the configuration of one router, a [`NetConfig`] a checked list of them: routers with interfaces on numbered
//! links. [`Lab::cold`] starts all routers. From then on one [`Event`] happens at a time: [`Lab::step`] gives it to the
//! `router_core::Router` that it is for, and keeps every datagram that was ever sent. Any of these may come to any interface of
//! its link, at any time, once, often or never. That one rule stands for loss, repetition, delay and reordering.
//!
//! ```text
//!   router 0 ------- link 4 ------- router 1 ------- link 7 ------- router 2, an owner of 2001:db8::/64
//!            costs 1                         costs 3
//! ```
//!
//! A walk leads from a router across links to an owner of a prefix, and may come through a router twice. It costs 1, and what each
//! interface costs that receives: here 1 + 1 + 3. A route of router 0 with metric 5 is backed by this walk. The main theorem: in
//! every lab each route below 16 is backed by a walk, so none promises a distance that is not there ([`invents_no_distance`]).
//! [`Lab::run_rounds`] heals a lab in 26 rounds: then each table has the least costs, and packets arrive.
//! [`Running`] is for routers that receive forged Responses: nothing of this holds of them, only what each step does.
//!
//! Read the definitions in `specs/` in this order: Network, Walks, World (states and events), Past (costs and owners since the
//! start), Labs (what a call keeps, and why it refuses); then Rounds, Healing, Packets and Path. Begin in the code with `lab.rt`: a step
//! is refused by `running.rt`, or done by it and `station.rt`. Who receives is in `links.rt`, and where packets go in `path.rt`.
#![tactic(auto)]

mod event;
mod lab;
mod laws;
mod links;
mod network;
mod path;
mod running;
mod station;
mod watch;

pub use event::{Event, LabError, Sent};
pub use lab::{Lab, Round, RoundsRefused, wants_memory};
pub use laws::{
    converges_in_rounds, generalises_walks, heals_in_rounds, invents_no_distance,
    invents_no_distance_unchanged, keeps_routes_backed, names_one_gateway, packets_arrive,
    path_arrives, path_is_one, rounds_are_run, rounds_go_on, runs_go_on, shutdown_tells_losses,
    tells_only_walks,
};
pub use network::{NetConfig, NetInterface, NetRefused, Node, ROUTER_LIMIT};
pub use path::{Path, PathEnd, PathHop};
pub use running::Running;
pub use watch::{Observer, Stopped, Unwatched};
