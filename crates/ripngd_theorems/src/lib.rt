//! Networks of daemons: what holds of every network whose routers are engines over links, whatever the links lose, repeat or
//! reorder.
//!
//! The definitions stand in `specs/Daemons` (what one daemon does), `specs/Links` (what is known of links), `specs/OnTime` (what is
//! known of links and daemons that heal), `specs/Ages` (how old the news of daemons may be), `specs/Delivering` (where packets go) and
//! `specs/LastUpdate` (what a neighbor receives from a router that shuts down). The laws are the contracts of empty functions.
#![tactic(auto)]

mod ending;
mod laws;

pub use ending::{link_down_ends_routes, shutdown_ends_routes};
pub use laws::{
    daemons_deliver, daemons_forget_old_news, daemons_heal, daemons_invent_no_distance,
    daemons_run_as_networks, engines_live,
};
