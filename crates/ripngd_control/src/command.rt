//! The commands of clients, and their lines.

ghost use Rattle.std.specs.Prelude.{◌≡◌, IfOk, IfSome, IsTrue, None, Some};
ghost use Rattle.ripngd_control.specs.Common.{control_text, has_sign};

use prefix6::{Addr6, parse_addr, parse_prefix};
use router_core::Change;
use std::alloc::{AllocError, Global};
use std::fmt::{self, Display};
use std::str;

/// A change of the peers on the link of an interface. The router itself does not notice it.
#[derive(Clone, Copy, Debug, PartialEq, Eq)]
pub enum PeerChange {
    /// `peer INTERFACE ADDRESS PORT`: a neighbor has this address, and this port of 127.0.0.1.
    Add {
        iface: usize,
        addr: Addr6,
        port: u16,
    },
    /// `unpeer INTERFACE ADDRESS`: the neighbor of this address has gone.
    Remove {
        iface: usize,
        addr: Addr6,
    },
}

/// Where a packet goes.
#[derive(Clone, Copy, Debug, PartialEq, Eq)]
pub struct Destination(pub Addr6);

/// A command to a running router.
#[derive(Clone, Copy, Debug, PartialEq, Eq)]
pub enum Command {
    /// `routes`: its routes.
    Routes,
    /// `table`: its forwarding table.
    Table,
    /// `lookup ADDRESS`: the longest match of an address in its forwarding table.
    Lookup(Destination),
    /// `counts`: how many datagrams arrived, were sent, refused and lost.
    Counts,
    /// `status`: its interfaces, its clock, the size of its forwarding table, and all of `counts` and `neighbors`.
    Status,
    /// `status json`: the same as JSON.
    StatusJson,
    /// `neighbors`: what arrived from each sender.
    Neighbors,
    /// `stop`: the router tells its neighbors that its routes end, and ends.
    Stop,
    /// `stop now`: the router ends, and tells nobody.
    StopNow,
    /// `link down INTERFACE`: the link of an interface is down, so routes that were learned there are withdrawn.
    LinkDown(usize),
    /// `link up INTERFACE`: the link of an interface is up again, so the neighbors on it are asked for their tables.
    LinkUp(usize),
    /// `cost INTERFACE COST`, `gain PREFIX TAG`, `drop PREFIX`: a change of its configuration.
    Reconfigure(Change),
    /// `peer INTERFACE ADDRESS PORT`, `unpeer INTERFACE ADDRESS`: a change of its peers.
    Link(PeerChange),
}

/// Its line, without the line feed.
impl Display for Command {
    ghost output = { λ c. Some (control_text c) };

    fn fmt<W: fmt::Write>(&self, f: &mut fmt::Formatter<W>) -> fmt::Result {
        match *self {
            Command::Routes => write!(f, "routes"),
            Command::Table => write!(f, "table"),
            Command::Lookup(Destination(addr)) => write!(f, "lookup {addr}"),
            Command::Counts => write!(f, "counts"),
            Command::Status => write!(f, "status"),
            Command::StatusJson => write!(f, "status json"),
            Command::Neighbors => write!(f, "neighbors"),
            Command::Stop => write!(f, "stop"),
            Command::StopNow => write!(f, "stop now"),
            Command::LinkDown(iface) => write!(f, "link down {iface}"),
            Command::LinkUp(iface) => write!(f, "link up {iface}"),
            Command::Reconfigure(Change::Cost { iface, cost }) => write!(f, "cost {iface} {cost}"),
            Command::Reconfigure(Change::Own { prefix, tag }) => write!(f, "gain {prefix} {tag}"),
            Command::Reconfigure(Change::Disown { prefix }) => write!(f, "drop {prefix}"),
            Command::Link(PeerChange::Add { iface, addr, port }) => {
                write!(f, "peer {iface} {addr} {port}")
            }
            Command::Link(PeerChange::Remove { iface, addr }) => {
                write!(f, "unpeer {iface} {addr}")
            }
        }
    }
}

/// Whether a text has a sign, `+` or `-`.
fn has_sign(text: &str) -> bool
    ensures { result ≡ has_sign text.now }
{
    text.bytes().any(|byte| byte == b'+' || byte == b'-')
}

/// The command of a text, with addresses, prefixes and numbers in any of their forms. A text with a sign is no command.
pub fn command_in(text: &str) -> Option<Command>
    ensures unsigned { IsTrue (has_sign text.now) → result ≡ None }
{
    if has_sign(text) {
        return None;
    }
    let mut words = text.splitn(4, ' ');
    match (words.next()?, words.next(), words.next(), words.next()) {
        ("routes", None, None, None) => Some(Command::Routes),
        ("table", None, None, None) => Some(Command::Table),
        ("lookup", Some(addr), None, None) => {
            Some(Command::Lookup(Destination(parse_addr(addr).ok()?)))
        }
        ("counts", None, None, None) => Some(Command::Counts),
        ("status", None, None, None) => Some(Command::Status),
        ("status", Some("json"), None, None) => Some(Command::StatusJson),
        ("neighbors", None, None, None) => Some(Command::Neighbors),
        ("stop", None, None, None) => Some(Command::Stop),
        ("stop", Some("now"), None, None) => Some(Command::StopNow),
        ("link", Some("down"), Some(iface), None) => Some(Command::LinkDown(iface.parse().ok()?)),
        ("link", Some("up"), Some(iface), None) => Some(Command::LinkUp(iface.parse().ok()?)),
        ("cost", Some(iface), Some(cost), None) => Some(Command::Reconfigure(Change::Cost {
            iface: iface.parse().ok()?,
            cost: cost.parse().ok()?,
        })),
        ("gain", Some(prefix), Some(tag), None) => Some(Command::Reconfigure(Change::Own {
            prefix: parse_prefix(prefix).ok()?,
            tag: tag.parse().ok()?,
        })),
        ("drop", Some(prefix), None, None) => Some(Command::Reconfigure(Change::Disown {
            prefix: parse_prefix(prefix).ok()?,
        })),
        ("peer", Some(iface), Some(addr), Some(port)) => Some(Command::Link(PeerChange::Add {
            iface: iface.parse().ok()?,
            addr: parse_addr(addr).ok()?,
            port: port.parse().ok()?,
        })),
        ("unpeer", Some(iface), Some(addr), None) => Some(Command::Link(PeerChange::Remove {
            iface: iface.parse().ok()?,
            addr: parse_addr(addr).ok()?,
        })),
        _ => None,
    }
}

/// The command of a line without its line feed, if the line is just as the command is printed.
///
/// # Errors
/// Out of memory.
pub fn read_command(alloc: Global, line: &[u8]) -> Result<Option<Command>, AllocError>
    ensures { IfOk result (λ read. IfSome read (λ c. control_text c ≡ line.now)) }
{
    let Ok(text) = str::from_utf8(line) else {
        return Ok(None);
    };
    let Some(command) = command_in(text) else {
        return Ok(None);
    };
    let written = format!(in alloc; "{command}")?;
    Ok((written.as_bytes() == line).then_some(command))
}
