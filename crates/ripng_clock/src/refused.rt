//! Why a run stops.

/// Why a run stops. All earlier events are done.
#[derive(Clone, Copy, Debug, PartialEq, Eq)]
pub enum RunRefused {
    /// The run would end before it begins, at this moment in milliseconds. Nothing is done.
    BeforeBegin {
        /// The last moment of all routers, or the end of the last run if that is later.
        begin: u64,
    },
    /// It has as many events as a run may have, 2^40.
    TooManyEvents,
    /// Memory was refused, or ran out in a router for a new route.
    OutOfMemory,
}

impl RunRefused {
    ghost use Rattle.std.specs.Prelude.{◌≡◌};
    ghost use Rattle.ripng_clock.specs.Common.{refused_name};

    /// The name of the refusal, one word, and its number, 46 to 48.
    pub fn name_and_number(self) -> (&'static str, u8)
        ensures { (result.0.now, result.1) ≡ refused_name self }
    {
        match self {
            RunRefused::BeforeBegin { .. } => ("BeforeBegin", 46),
            RunRefused::TooManyEvents => ("TooManyEvents", 47),
            RunRefused::OutOfMemory => ("OutOfMemory", 48),
        }
    }
}
