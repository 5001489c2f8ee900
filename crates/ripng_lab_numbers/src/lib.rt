//! Scripts of a laboratory in numbers: what their routers sent, and how their tables changed, in each interval of time or for each seed.
//!
//! [`numbers`] runs a script, and writes lines of numbers by interval, and by router if that is wanted; [`sweep`] runs it with one seed
//! after another, and writes a line for each.
#![tactic(auto)]

mod cells;
mod ending;
mod layout;
mod lines;
mod sweeping;
mod table;
mod tally;

pub use sweeping::sweep;
pub use table::numbers;
