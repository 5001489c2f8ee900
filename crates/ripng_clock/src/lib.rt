//! Time that passes by itself in a laboratory.
//!
//! Each router ticks when it next has something to do ([`router_core::Router::wakes_at`]), and each datagram that is sent comes to
//! the other interfaces of its link after the link's delay, unless the link loses it. All clocks are the true clock.
//!
//! ```text
//!   router 0   tick------------------------------------------------tick---->
//!                   \  \                                                         a datagram comes after its link's delay
//!   router 1   ------deliver------------tick-------------------------------->
//!   router 2   ---------deliver-----------------tick------------------------>
//! ```
//!
//! [`run_until`] makes it so in a [`ripng_world::Lab`], from the moment at which it is until another. A [`Timetable`] goes in and
//! comes out: which datagrams are under way, and how each link carries them. What happens is a run of the network's model.
//!
//! Read the definitions in `specs/` in this order: Carrying (links, and what takes part), Passing (what a run is), Ending (when
//! nothing is due any more). Begin in the code with `running.rt`: it does what `due.rt` says comes next, by the actions in `acting.rt`.
#![tactic(auto)]

mod acting;
mod agenda;
mod alarms;
mod carrying;
mod due;
mod refused;
mod running;
mod runs;
mod timetable;

pub use carrying::{Carriage, Span};
pub use refused::RunRefused;
pub use running::run_until;
pub use runs::Runs;
pub use timetable::Timetable;
