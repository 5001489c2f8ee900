//! Why phases stop.

/// Why a phase stops. All earlier events are done.
#[derive(Clone, Copy, Debug, PartialEq, Eq)]
pub enum PhaseRefused {
    /// The regular update of a router is not due before the minute of the phase is over, or before the last moment.
    NoUpdateInTime {
        /// The number of the router.
        router: usize,
    },
    /// The phase would begin past the last moment, 2^60 milliseconds.
    PastLastMoment,
    /// Memory was refused, or ran out in a router for a new route.
    OutOfMemory,
}

impl PhaseRefused {
    ghost use Rattle.std.specs.Prelude.{◌≡◌};
    ghost use Rattle.ripng_phases.specs.Refusing.{refused_name};

    /// The name of the refusal, one word, and its number, 43 to 45.
    pub fn name_and_number(self) -> (&'static str, u8)
        ensures { (result.0.now, result.1) ≡ refused_name self }
    {
        match self {
            PhaseRefused::NoUpdateInTime { .. } => ("NoUpdateInTime", 43),
            PhaseRefused::PastLastMoment => ("PastLastMoment", 44),
            PhaseRefused::OutOfMemory => ("OutOfMemory", 45),
        }
    }
}
