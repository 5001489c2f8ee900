//! The errors and the counts of an engine.

ghost use Rattle.std.specs.Prelude.{◌≡◌};
ghost use Rattle.ripngd_engine.specs.declared.report.EngineFault.TheVariants as fault;

use router_core::ReconfigureRefused;
use std::alloc::AllocError;
use thiserror::Error;

/// Why an engine did not start, or stopped before its last turn: its number, which never changes, its name, and the turns.
#[derive(Clone, Copy, Debug, PartialEq, Eq, Error)]
pub enum EngineFault {
    /// 1: the link could not be read, after `done` whole turns of this call. A later call goes on.
    #[error("1 LinkFault {done}")]
    LinkFault { done: u32 },

    /// 2: out of memory at the start, or for the forwarding table. The engine makes no more turns.
    #[error("2 OutOfMemory")]
    OutOfMemory,
}

impl From<AllocError> for EngineFault {
    ghost from_gives = { λ _ e. e ≡ fault.OutOfMemory };

    fn from(_: AllocError) -> EngineFault {
        EngineFault::OutOfMemory
    }
}

/// Why a change of the configuration, a shutdown or the end of a link was not carried out whole.
#[derive(Clone, Copy, Debug, PartialEq, Eq)]
pub enum ChangeFault {
    /// The router refused it, and is as it was.
    Refused(ReconfigureRefused),
    /// Out of memory for the forwarding table, now or in an earlier call. The engine makes no more turns.
    Ended,
}

/// What was lost since an engine started. A count stays at the greatest `u64` once it is there.
#[derive(Clone, Copy, Debug, PartialEq, Eq)]
pub struct Report {
    /// Datagrams that the link could not send.
    pub lost_sends: u64,
    /// Arrivals and ticks for which there was no memory.
    pub lost_memory: u64,
    /// Whether a write of the log failed. No line is written after that.
    pub log_failed: bool,
}
