//! Moments and deadlines, in milliseconds.

ghost use Rattle.std.specs.Prelude.{◌≡◌, ℕ, ◌≤◌, ◌<◌, ◌+◌, ◌^◌, ◌↔◌, IsTrue, SomeIff};

use std::marker::Model;

const LAST_MS: u64 = 1 << 60;

/// A moment: milliseconds since a start that the caller chooses, at most 2^60. Contracts see it as
/// that number.
#[derive(Clone, Copy, Debug, PartialEq, Eq, PartialOrd, Ord)]
pub struct Moment {
    ms: u64,
}

impl Model for Moment {
    ghost Value = { ℕ };

    ghost view = { λ m. m.ms };

    ghost invariant = { λ m. m.ms ≤ 2 ^ 60 };

    ghost inverse = { λ n. record { ms = n } };
}

impl Moment {
    /// The moment `ms` milliseconds after the start. `None` exactly above 2^60, so that a deadline, at
    /// most 2^32 - 1 milliseconds later, always fits a `u64`.
    pub fn new(ms: u64) -> Option<Moment>
        ensures { SomeIff result (ms ≤ 2 ^ 60) ms }
    {
        if ms <= LAST_MS {
            Some(Moment { ms })
        } else {
            None
        }
    }

    /// The milliseconds, at most 2^60.
    pub fn ms(self) -> u64
        ensures value { result ≡ self }
        ensures bound { self ≤ 2 ^ 60 }
    {
        self.ms
    }

    /// The deadline `by_ms` milliseconds after this moment.
    pub fn later(self, by_ms: u32) -> Deadline
        ensures sum { result ≡ self + by_ms }
        ensures bound { result < 2 ^ 60 + 2 ^ 32 }
    {
        Deadline {
            ms: self.ms + u64::from(by_ms),
        }
    }
}

/// A moment at which a timer ends, below 2^60 + 2^32 milliseconds: it may be later than any
/// `Moment`. Contracts see it as its milliseconds.
#[derive(Clone, Copy, Debug, PartialEq, Eq, PartialOrd, Ord)]
pub struct Deadline {
    ms: u64,
}

impl Model for Deadline {
    ghost Value = { ℕ };

    ghost view = { λ d. d.ms };

    ghost invariant = { λ d. d.ms < 2 ^ 60 + 2 ^ 32 };

    ghost inverse = { λ n. record { ms = n } };
}

impl Deadline {
    /// The deadline 0, which is kept for a route without a timer.
    pub(crate) fn zero() -> Deadline
        ensures { result ≡ 0 }
    {
        Deadline { ms: 0 }
    }

    /// The milliseconds, below 2^60 + 2^32.
    pub fn ms(self) -> u64
        ensures value { result ≡ self }
        ensures bound { self < 2 ^ 60 + 2 ^ 32 }
    {
        self.ms
    }

    /// Whether the moment is at the deadline or after it.
    pub fn reached(self, now: Moment) -> bool
        ensures { IsTrue result ↔ (self ≤ now) }
    {
        self.ms <= now.ms
    }
}
