//! The clock that an engine reads.

ghost use Rattle.std.specs.Prelude.{ℕ, [], ◌∷◌, List, Option};
ghost use Rattle.ripngd_engine.specs.Common.{Gains};

use route_table::Moment;

/// A clock. It may stand still or go back: a router takes a moment earlier than its last one as that one.
pub trait TimeSource: Drop {
    // The moments given so far, or `None` for a clock whose past contracts do not see.
    ghost moments: { Self → Option (List ℕ) };

    /// The moment now.
    fn now(&mut self) -> Moment
        ensures gained { Gains (moments self.old) (moments self.new) (result ∷ []) };
}
