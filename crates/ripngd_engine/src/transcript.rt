//! The past of a run, for proofs alone: it takes no memory, and nothing is done for it at run time.

ghost use Rattle.std.specs.Prelude.{◌≡◌};
ghost use Rattle.ripngd_engine.specs.Common.{ftrue, Past};

use crate::link::{LinkFault, Received};
use crate::peer::{Peer, Place};
use router_core::Outgoing;
use std::marker::Model;

/// What has happened so far to a link, to clients or to a log, in order. Contracts read it as `past`.
#[derive(Drop)]
pub struct Transcript {
    pub ghost past: { Past },
}

impl Model for Transcript {
    ghost also_owns = { λ _. ftrue };
}

/// How a transcript begins or goes on.
#[derive(Clone, Copy, Drop)]
pub enum Entry<'a> {
    /// Nothing has happened.
    Nothing,
    /// A link was bound at these places, with these peers, and nothing was called.
    Bound(&'a [Place], &'a [Vec<Peer>]),
    /// A `recv` answered this, and left this in its buffer.
    Answered(&'a Transcript, &'a Result<Option<Received>, LinkFault>, &'a [u8]),
    /// A `send` was handed this, and it was taken or not.
    Taken(&'a Transcript, &'a Outgoing, bool),
    /// This line of a client was obeyed.
    Obeyed(&'a Transcript, &'a [u8]),
    /// A log took these bytes.
    Wrote(&'a Transcript, &'a [u8]),
}

impl Transcript {
    ghost use Rattle.ripngd_engine.specs.Transcript.{past_with};

    /// The transcript whose last entry is this.
    #[inline(always)]
    pub fn of(_entry: &Entry<'_>) -> Transcript
        ensures { result.past ≡ past_with _entry.now }
    {
        Transcript {}
    }
}
