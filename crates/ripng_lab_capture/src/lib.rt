//! A script of a laboratory, captured: each datagram that its routers, outside hosts and forgers send, as a file of pcapng.
//!
//! [`capture`] runs a script, and gives the file. [`Recorder`] is the observer that collects the datagrams, and [`Seen`] one of them.
#![tactic(auto)]

mod recorder;
mod seen;
mod writing;

pub use recorder::capture;
