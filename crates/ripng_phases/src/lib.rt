//! Networks without rounds and without a common clock. Their history is cut into phases, in each of which all that matters gets
//! through once.
//!
//! In a round (`ripng_world`) all routers tick, and then all datagrams arrive. In a phase routers tick and receive in any order,
//! send triggered updates, and lose datagrams. Only one regular update of each router has to get through to every neighbor.
//!
//! ```text
//!          |        phase 1         |        phase 2         |
//! router 0 |..U--->...t.............|.....t.......U--->......|   U  regular update: all its datagrams arrive in the phase
//! router 1 |......t.......U----->...|..U-->......t...........|   t  another tick: what it sends may be lost
//! ```
//!
//! 28 phases heal a network, whatever happened before: each table has exactly the least costs of now, and packets arrive. Where
//! links keep order, lose no regular update and take less than 15 seconds, each minute by a true clock is a phase: 28 minutes do.
//!
//! [`run_phases`] makes phases in a [`ripng_world::Lab`]. A lab, a number of phases and random numbers go in. The lab as it is
//! then comes out, and the last phase in which a table changed. The theorems over all histories stand in `laws.rt`.
//!
//! Whatever is lost, no news outlives 46 minutes: `forgets_old_news`.
//!
//! Read the definitions in `specs/` in this order: Phases (the four rules of a phase), Minutes (histories by a true clock), Ages (how
//! old news may be), Making and Changing (what `run_phases` promises). Begin in the code with `making.rt`: a phase is made of the
//! actions in `acting.rt`.
#![tactic(auto)]

mod acting;
mod laws;
mod making;
mod refused;
mod shown;

pub use laws::{
    forgets_old_news, heals_in_minutes, heals_in_phases, packets_arrive_in_minutes,
    packets_arrive_in_phases, phases_are_run, phases_go_on, phases_keep_routes_backed,
    phases_take_time, rounds_are_phases,
};
pub use making::run_phases;
pub use refused::PhaseRefused;
