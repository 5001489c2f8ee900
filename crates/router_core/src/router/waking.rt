//! When a router next has something to do without a datagram.

ghost use Rattle.std.specs.Prelude.{◌≡◌, ℕ, ◌<◌, ◌↔◌, false, max};
ghost use Rattle.router_core.specs.Common.{entries, is_reached, least_deadline, next_due, Happening, Moves, State, IsIdle, or_earlier, triggered_at, wakes_at, Answer};

use super::Router;
use prefix6::Prefix;
use route_table::{Deadline, Moment, RouteStore};

/// The earlier of a deadline and of another, if there is another.
fn or_earlier(deadline: Deadline, other: Option<Deadline>) -> Deadline
    ensures { result ≡ or_earlier deadline other }
{
    match other {
        None => deadline,
        Some(other) => deadline.min(other),
    }
}

impl<S: RouteStore> Router<S> {
    /// When the next timeout or garbage collection of a route ends, and the first prefix whose route it is. Until then a tick
    /// withdraws and deletes no route.
    pub fn next_due(&self) -> Option<(Deadline, Prefix)>
        ensures { result ≡ next_due self.now.table }
    {
        self.store.next_due()
    }

    /// When a triggered update may be sent, if a route has its route change flag set (RFC 2080, section 2.5.1).
    fn triggered_at(&self) -> Option<Deadline>
        ensures { result ≡ triggered_at self.now }
    {
        match self.store.walk_changed(None) {
            None => None,
            Some(_) => Some(self.hold),
        }
    }

    /// The least deadline of a route (RFC 2080, section 2.3).
    fn ages_at(&self) -> Option<Deadline>
        ensures { result ≡ least_deadline (entries self.now.table) }
    {
        match self.next_due() {
            None => None,
            Some(next) => Some(next.0),
        }
    }

    /// Whether the timer of a route may end by a deadline. Where none does, the store mostly says so without a look at the routes.
    fn ages_by(&self, deadline: Deadline) -> bool
        ensures { result ≡ false → is_reached deadline (least_deadline (entries self.now.table)) ≡ false }
    {
        match Moment::new(deadline.ms()) {
            None => true,
            Some(by) => self.store.walk_due(None, by).is_some(),
        }
    }

    /// When a tick next has something to do: the regular update is due, the delay of a triggered one ends while a route change
    /// flag is set, or a route times out or is deleted. A tick at an earlier moment answers nothing, and changes only the moment
    /// of the last step. One at this moment or later does more. A moment that is not past the last step means at once.
    ///
    /// A passive router has regular updates too: nothing is sent, but flags are cleared and the next one is set.
    pub fn wakes_at(&self) -> Deadline
        ensures value { result ≡ wakes_at self.now }
        ensures idle { (now word : ℕ) (answer : Answer) (new : State) → Moves self.now (Happening.Ticks now word) answer new
            → (IsIdle self.now (max self.now.last now) answer new ↔ (max self.now.last now < result)) }
    {
        let update = or_earlier(self.regular, self.triggered_at());
        if self.ages_by(update) {
            or_earlier(update, self.ages_at())
        } else {
            update
        }
    }
}
