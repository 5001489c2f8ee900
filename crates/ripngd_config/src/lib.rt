//! The configuration of `ripngd run`, a TOML text.
//!
//! A text is read table by table (`section`, `tables`), then checked as a whole (`configuration`): by the router's own check, and for
//! duplicate ports and peers (`twice`). A text is refused with a [`ConfigFault`].
#![tactic(auto)]

mod configuration;
mod fault;
mod lists;
mod naming;
mod range;
mod section;
mod tables;
mod twice;

pub use configuration::{Config, read_config};
pub use fault::ConfigFault;
