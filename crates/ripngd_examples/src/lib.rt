//! Worked examples of networks: premises of the laws of time are met by two routers, and by two daemons, and so those laws say
//! something.
//!
//! The histories are worked out in `proofs/`, in a crate above the laws, so that no change of a definition is refused by an example.
#![tactic(auto)]

mod laws;

pub use laws::{premises_of_daemons_are_met, premises_of_old_news_are_met};
