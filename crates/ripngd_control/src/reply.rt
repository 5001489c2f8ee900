//! The last line of an answer, and the changes of a link's peers.

ghost use Rattle.std.specs.Prelude.{◌≡◌, Some};
ghost use Rattle.ripngd_control.specs.Common.{reply_text, Reply};

use crate::command::PeerChange;
use router_core::ReconfigureRefused;
use std::fmt::{self, Display};

/// The last line of an answer: `ok`, or `refused NR NAME` with the number and the name of a refusal of the router, of the link, or of
/// one of these.
#[derive(Clone, Copy, Debug, PartialEq, Eq)]
pub enum Reply {
    /// It was done.
    Done,
    /// The router refused it.
    Refused(ReconfigureRefused),
    /// 51: the router has no interface of that number.
    NoSuchInterface,
    /// 52: the line is no command.
    NoSuchCommand,
    /// The link refused a change of its peers, for a reason that is printed so, as `61 BadPort`.
    LinkRefused(&'static str),
    /// 53: there was no memory for the forwarding table. The change was made, and the router ends.
    Ended,
}

impl Display for Reply {
    ghost output = { λ r. Some (reply_text r) };

    fn fmt<W: fmt::Write>(&self, f: &mut fmt::Formatter<W>) -> fmt::Result {
        match *self {
            Reply::Done => write!(f, "ok"),
            Reply::Refused(why) => write!(f, "refused {why}"),
            Reply::LinkRefused(why) => write!(f, "refused {why}"),
            Reply::NoSuchInterface => write!(f, "refused 51 NoSuchInterface"),
            Reply::NoSuchCommand => write!(f, "refused 52 NoSuchCommand"),
            Reply::Ended => write!(f, "refused 53 Ended"),
        }
    }
}

/// How the peers of a link are changed: it takes a change, makes it when the engine lends it the link, and then has the reply.
pub trait Peering {
    // The reply to the last change.
    ghost ended: { Self → Reply };

    /// Takes the change to make.
    fn order(&mut self, change: PeerChange);

    /// The reply to the last change.
    fn reply(&self) -> Reply
        ensures { result ≡ ended self.now };
}
