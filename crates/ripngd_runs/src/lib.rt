//! Networks of runs of the program: what holds of each network whose routers are `ripngd run`.
//!
//! The definitions stand in `specs/Lives` (a run as a daemon's life), `specs/Networks` (runs of many routers over links) and
//! `specs/Dated` (the same by a true clock). The laws are the contracts of empty functions.
#![tactic(auto)]

mod laws;

pub use laws::{
    programs_deliver, programs_forget_old_news, programs_heal, programs_invent_no_distance,
    runs_are_lives,
};
