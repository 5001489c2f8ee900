//! The command line of `ripngd`: its subcommands, options and arguments, and how words are parsed.
#![tactic(auto)]

mod asked;
mod command_line;
mod help;
mod range;
mod subcommands;

pub use asked::{
    Ask, Capturing, Job, Marking, Numbering, Order, Question, Seeds, Sweep, misuse_of,
};
pub use command_line::ask;
pub use help::VERSION;
