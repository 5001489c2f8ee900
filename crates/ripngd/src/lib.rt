//! The program `ripngd` as a library: its subcommands, and its exit statuses.
#![tactic(auto)]

mod status;
mod subcommands;

pub use ripng_show::{PrintFault, show, show_capture};
pub use ripngd_command_line::{
    Ask, Capturing, Job, Marking, Numbering, Order, Question, Seeds, Sweep, VERSION, ask,
};
pub use ripngd_config::{Config, ConfigFault, read_config};
pub use ripngd_daemon::{check, table};
pub use ripngd_engine::{
    Engine, EngineFault, Link, LinkFault, Peer, Place, Received, Report, Sender, Socket, TimeSource,
};
pub use ripngd_udp::{Udp, UdpError, Uptime};
pub use status::program;
pub use subcommands::{capture, explain, lab, mark, numbers, sweep, trace};
