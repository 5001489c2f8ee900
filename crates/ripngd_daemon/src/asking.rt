//! When a router asks its neighbors for their tables, since it has lost a route: the policy alone, without a router, a link or a clock.
//!
//! By RFC 2080 a router that loses a route waits for the regular updates of its neighbors, up to 45 seconds, until it learns of another
//! way. A Request for the whole table (RFC 2080, section 2.4.1) has the answer at once. `specs/Questions` has the terms.

ghost use Rattle.std.specs.Option.{ForSome};
ghost use Rattle.std.specs.Prelude.{◌≡◌, ◌≤◌, ◌+◌, ◌*◌, ℕ, IfSome, None, Some, false, is_some, true, if◌then◌else◌, min};

use route_table::Moment;

/// How many milliseconds after a loss a router asks at the earliest. Its triggered update goes first.
const DELAY: u64 = 500;

/// Below how many milliseconds more the random share lies, so that the routers of a LAN do not ask at once.
const SPREAD: u64 = 401;

/// The first pause between two questions, in milliseconds.
const FIRST_PAUSE: u64 = 1_000;

/// The longest pause, in milliseconds.
const LONGEST_PAUSE: u64 = 16_000;

/// After how many milliseconds without a loss the pause is the first one again.
const CALM: u64 = 30_000;

/// When a router asks: after a loss, and never twice within a pause. The pause doubles with each question, from one second up to 16, and
/// is one second again after 30 seconds without a loss. All moments are milliseconds of the router's clock.
#[derive(Clone, Copy, Debug, PartialEq, Eq)]
pub(crate) struct Asking {
    /// When it asks, if a route was lost since it asked last.
    due: Option<u64>,
    /// The end of the pause after its last question.
    free_at: u64,
    /// The pause after the next question.
    pause: u64,
    /// When a route was lost last.
    lost_at: u64,
    ghost due_is_free: { ForSome due (λ d. free_at ≤ d) },
    ghost pause_is: { (1000 ≤ pause) × (pause ≤ 16000) },
}

impl Asking {
    /// No route was lost yet.
    pub(crate) fn new() -> Asking
        ensures idle { result.due ≡ None }
    {
        Asking {
            due: None,
            free_at: 0,
            pause: FIRST_PAUSE,
            lost_at: 0,
        }
    }

    /// A route was lost. `share` is a random number.
    pub(crate) fn lose(&mut self, now: Moment, share: u64)
        ensures minded { is_some self.new.due ≡ true }
        ensures soon { self.old.due ≡ None → self.old.free_at ≤ now → IfSome self.new.due (λ d. d ≤ now + 1000) }
        ensures kept { is_some self.old.due ≡ true → self.new.due ≡ self.old.due }
        ensures free { self.new.free_at ≡ self.old.free_at }
        ensures calm { self.old.lost_at + 30000 ≤ now → self.new.pause ≡ 1000 }
    {
        let now = now.ms();
        if now.saturating_sub(self.lost_at) >= CALM {
            self.pause = FIRST_PAUSE;
        }
        self.lost_at = now;
        if self.due.is_none() {
            let earliest = now + DELAY + share % SPREAD;
            self.due = Some(earliest.max(self.free_at));
        }
    }

    /// When it asks next, if a route was lost since it asked last. A quiet router never does.
    pub(crate) fn wakes_at(&self, is_quiet: bool) -> Option<u64>
        ensures due { result ≡ (if is_quiet then None else self.now.due) }
        ensures free { IfSome result (λ d. self.now.free_at ≤ d) }
    {
        match is_quiet {
            true => None,
            false => self.due,
        }
    }

    /// Whether it asks now.
    pub(crate) fn is_due(&self, now: Moment, is_quiet: bool) -> bool
        ensures quiet { is_quiet ≡ true → result ≡ false }
        ensures due { result ≡ true → (d : ℕ) × (self.now.due ≡ Some d) × (d ≤ now) × (self.now.free_at ≤ now) }
        ensures soon { (d : ℕ) → is_quiet ≡ false → self.now.due ≡ Some d → d ≤ now → result ≡ true }
    {
        match self.wakes_at(is_quiet) {
            Some(due) => due <= now.ms(),
            None => false,
        }
    }

    /// It has asked.
    pub(crate) fn asked(&mut self, now: Moment)
        ensures done { self.new.due ≡ None }
        ensures pause { self.new.free_at ≡ now + self.old.pause }
        ensures second { now + 1000 ≤ self.new.free_at }
        ensures doubled { self.new.pause ≡ min (2 * self.old.pause) 16000 }
    {
        self.due = None;
        self.free_at = now.ms() + self.pause;
        self.pause = (2 * self.pause).min(LONGEST_PAUSE);
    }
}
