//! The moments that a clock has given, for proofs alone: they take no memory, and nothing is done for them at run time.

ghost use Rattle.std.specs.Prelude.{◌≡◌, ℕ, List};
ghost use Rattle.ripngd_udp.specs.Common.{ftrue};

use route_table::Moment;
use std::marker::Model;

/// What a clock has given so far, in milliseconds, in order. Contracts read it as `past`.
#[derive(Drop)]
pub(crate) struct Moments {
    pub(crate) ghost past: { List ℕ },
}

impl Model for Moments {
    ghost also_owns = { λ _. ftrue };
}

/// How the moments of a clock begin or go on.
#[derive(Clone, Copy, Drop)]
pub(crate) enum Reading<'a> {
    /// It was made, and has given none.
    Made,
    /// After these it gave this one.
    Gave(&'a Moments, Moment),
}

impl Moments {
    ghost use Rattle.ripngd_udp.specs.Moments.{moments_with};

    /// The moments of which the last one was read so.
    #[inline(always)]
    pub(crate) fn of(_reading: &Reading<'_>) -> Moments
        ensures { result.past ≡ moments_with _reading.now }
    {
        Moments {}
    }
}
