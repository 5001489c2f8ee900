//! The time since a clock was made, by the system's clock.

ghost use Rattle.std.specs.Prelude.{◌≡◌, ◌/◌, ◌^◌, ◌++◌, ◌∷◌, [], ℕ, List, min, Some};
ghost use Rattle.ripngd_udp.specs.Common.{as_nanos};

use crate::moments::{Moments, Reading};
use ripngd_engine::TimeSource;
use route_table::Moment;
use std::marker::Model;
use std::rt::Clock;
use std::time::{Duration, Instant};

/// The last moment that a router knows, in milliseconds.
const LAST_MS: u128 = 1 << 60;

/// A clock that counts from 0 when it is made, up to the last moment. Where the system's clock cannot be read, it repeats its last
/// answer, or 0 if it has none. Contracts see the moments that it has given. They do not see the system's clock: a moment may be
/// earlier than the one before it.
#[derive(Drop)]
pub struct Uptime<'a, R: Clock> {
    rt: &'a R,
    /// When it was made, if the system's clock could be read.
    made: Option<Instant>,
    last: Moment,
    given: Moments,
}

impl<'a, R: Clock> Model for Uptime<'a, R> {
    ghost Value = { List ℕ };

    ghost view = { λ clock. clock.given.past };
}

/// The moment when this much time has passed, at most the last one.
fn moment_after(passed: Duration) -> Moment
    ensures { result ≡ min (as_nanos passed / 1_000_000) (2 ^ 60) }
{
    let ms = passed.as_millis().min(LAST_MS) as u64;
    Moment::new(ms).unwrap()
}

impl<'a, R: Clock> Uptime<'a, R> {
    /// A clock that is at 0 now.
    pub fn new(rt: &'a R) -> Uptime<'a, R>
        ensures { result ≡ [] }
    {
        Uptime {
            rt,
            made: Instant::now(rt).ok(),
            last: Moment::new(0).unwrap(),
            given: Moments::of(&Reading::Made),
        }
    }
}

impl<R: Clock> TimeSource for Uptime<'_, R> {
    ghost moments = { λ clock. Some clock };

    fn now(&mut self) -> Moment
        ensures { self.new ≡ self.old ++ result ∷ [] }
    {
        if let Some(made) = self.made {
            if let Ok(passed) = made.elapsed(self.rt) {
                self.last = moment_after(passed);
            }
        }
        self.given = Moments::of(&Reading::Gave(&self.given, self.last));
        self.last
    }
}
