//! What becomes of packets for an address, from each router of a script's network, after each thing that the script does.
//!
//! [`fates`] runs a script and writes lines:
//!
//! | when | line |
//! |---|---|
//! | the routers start | the words of all routers, in order, each after a space |
//! | an event is done, a forged Response comes, or a notice is given | the same; or an empty line, if all is as the line before says |
//! | a line of the script cuts or mends a link, or silences or wakes a router | `@`, the number of that line, and the words |
//!
//! The lines without `@` are as many as the records that `ripng_trace` makes of the script, in the same order: a start, an event and a
//! notice have one each.
//!
//! A word is a letter, the number of the router where the way of the packets ends, and, if the router hands them on by its table, `:` and
//! the number of the next one: `a3:1`.
//!
//! | letter | packets |
//! |---|---|
//! | `a` | arrive there |
//! | `d` | are dropped there: it has no route |
//! | `n` | are lost there: its next hop is nobody's |
//! | `l` | go round, and come to that router first a second time: a router whose own number it is, is in the ring |
//! | `c` | are lost there, at a link that is cut |
//! | `s` | are lost there, since it is silent |
//!
//! Cuts and silence are read off the lines of the script, since no notice tells of them.
#![tactic(auto)]

mod outages;
mod teller;
mod ways;
mod words;

pub use teller::fates;
