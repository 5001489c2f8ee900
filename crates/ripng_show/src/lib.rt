//! What `ripngd show` prints: one datagram as lines of text, and the datagrams of a capture.
#![tactic(auto)]

mod capture;
mod judged;
mod print_fault;
mod showing;

pub use capture::show_capture;
pub use judged::packets_are_judged_as_by_routers;
pub use print_fault::PrintFault;
pub use showing::show;
