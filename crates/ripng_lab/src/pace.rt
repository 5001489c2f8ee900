//! When a router asks its neighbors for their tables, since it has lost a route: the policy alone, of one router, by its clock.

ghost use Rattle.std.specs.Prelude.{◌≡◌, ◌≤◌, ◌+◌, ◌*◌, IfSome, None, Some, is_some, min, true, unwrap_or};

use prefix6::Prefix;
use route_table::Moment;

/// How many milliseconds after a loss a router asks at the earliest. Its triggered update goes first.
const DELAY: u64 = 500;

/// The first pause between two questions, in milliseconds.
const FIRST_PAUSE: u64 = 1_000;

/// The longest pause, in milliseconds.
const LONGEST_PAUSE: u64 = 16_000;

/// After how many milliseconds without a loss the pause is the first one again.
const CALM: u64 = 30_000;

/// A learned route was lost: its prefix, and the time of the router when that was seen.
#[derive(Clone, Copy, Debug, PartialEq, Eq)]
pub struct Loss {
    pub prefix: Prefix,
    pub at: Moment,
}

/// A router asks its neighbors, at its time, about a loss.
#[derive(Clone, Copy, Debug, PartialEq, Eq)]
pub struct Question {
    pub now: Moment,
    pub loss: Loss,
}

/// When a router asks: half a second after a loss, and never within a pause. The pause doubles with each question, from one second up to
/// 16, and is one second again after 30 seconds without a loss. All moments are milliseconds of the router's clock.
#[derive(Clone, Copy, Debug, PartialEq, Eq)]
pub struct Pace {
    /// The first loss since the last question.
    loss: Option<Loss>,
    /// When a route was lost last.
    lost_at: u64,
    /// The end of the pause after the last question.
    free_at: u64,
    /// The pause after the next question.
    pause: u64,
    ghost pause_is: { pause ≤ 16000 },
}

impl Pace {
    /// No route was lost yet.
    pub fn new() -> Pace
        ensures { result.loss ≡ None }
    {
        Pace {
            loss: None,
            lost_at: 0,
            free_at: 0,
            pause: FIRST_PAUSE,
        }
    }

    /// A route was lost.
    pub fn lose(&mut self, loss: Loss)
        ensures minded { self.new.loss ≡ Some (unwrap_or self.old.loss loss) }
        ensures free { self.new.free_at ≡ self.old.free_at }
        ensures calm { self.old.lost_at + 30000 ≤ loss.at → self.new.pause ≡ 1000 }
    {
        let now = loss.at.ms();
        if now.saturating_sub(self.lost_at) >= CALM {
            self.pause = FIRST_PAUSE;
        }
        self.lost_at = now;
        self.loss = Some(self.loss.unwrap_or(loss));
    }

    /// What the router asks about now, if it asks. It has asked then.
    pub fn question(&mut self, now: Moment) -> Option<Question>
        ensures due { IfSome result (λ asks. (self.old.loss ≡ Some asks.loss) × (asks.loss.at + 500 ≤ now) × (self.old.free_at ≤ now)) }
        ensures now { IfSome result (λ asks. asks.now ≡ now) }
        ensures soon { (loss : Loss) → self.old.loss ≡ Some loss → loss.at + 500 ≤ now → self.old.free_at ≤ now → is_some result ≡ true }
        ensures asked { is_some result ≡ true → (self.new.loss ≡ None) × (self.new.free_at ≡ now + self.old.pause) × (self.new.pause ≡ min (2 * self.old.pause) 16000) }
        ensures waits { result ≡ None → self.new ≡ self.old }
    {
        let Some(loss) = self.loss else {
            return None;
        };
        if now.ms() < self.free_at || now.ms() < loss.at.ms() + DELAY {
            return None;
        }
        self.loss = None;
        self.free_at = now.ms() + self.pause;
        self.pause = (2 * self.pause).min(LONGEST_PAUSE);
        Some(Question { now, loss })
    }
}
