//! Which routes a search looks for.

ghost use Rattle.std.specs.Prelude.{◌≡◌};
ghost use Rattle.route_table.specs.Common.{is_reached, meets, may_meet};

use crate::moment::Deadline;
use crate::route::Route;
use crate::summary::Summary;

/// Which routes a search looks for.
#[derive(Clone, Copy, Debug, PartialEq, Eq)]
pub enum Wanted {
    /// All routes.
    Any,
    /// Those with a timer whose deadline is at most this many milliseconds.
    Due(u64),
    /// Those whose route change flag is set.
    Changed,
    /// Both of these.
    DueOrChanged(u64),
}

/// Whether there is a deadline of at most `by` milliseconds.
fn is_reached(deadline: Option<Deadline>, by: u64) -> bool
    ensures { result ≡ is_reached by deadline }
{
    match deadline {
        Some(until) => until.ms() <= by,
        None => false,
    }
}

impl Wanted {
    /// Whether the search looks for this route.
    pub fn is_met_by(self, route: &Route) -> bool
        ensures { result ≡ meets self route.now }
    {
        match self {
            Wanted::Any => true,
            Wanted::Due(by) => is_reached(route.deadline(), by),
            Wanted::Changed => route.is_changed(),
            Wanted::DueOrChanged(by) => is_reached(route.deadline(), by) || route.is_changed(),
        }
    }

    /// Whether there may be such a route among those with this summary.
    pub fn may_be_in(self, summary: &Summary) -> bool
        ensures { result ≡ may_meet self summary.now }
    {
        match self {
            Wanted::Any => true,
            Wanted::Due(by) => summary.is_reached(by),
            Wanted::Changed => summary.has_changed(),
            Wanted::DueOrChanged(by) => summary.is_reached(by) || summary.has_changed(),
        }
    }
}
