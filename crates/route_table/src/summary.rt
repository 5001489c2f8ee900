//! What is known of several routes without a look at them, so that a search can skip them.

ghost use Rattle.std.specs.Prelude.{◌≡◌, ◌↔◌, false, IsTrue, Option};
ghost use Rattle.route_table.specs.Common.{earlier, is_reached, both, no_routes, summary_of_route};

use crate::moment::Deadline;
use crate::route::Route;
use std::marker::Model;

/// The least deadline of some routes, and whether the route change flag of one is set. The deadline, in milliseconds, and whether
/// there is one are two fields, so that the whole takes 16 bytes.
#[derive(Clone, Copy)]
pub struct Summary {
    due_ms: u64,
    ages: bool,
    changed: bool,
}

impl Model for Summary {
    ghost use Rattle.route_table.specs.Summary.{SummaryValue, IsPacked, unpacked, packed_ms};
    ghost use Rattle.route_table.specs.Packing.{same_ms, same_ages};
    ghost use Rattle.std.specs.Prelude.{is_some};

    ghost Value = { SummaryValue };

    ghost view = { λ s. record { due = unpacked s.ages s.due_ms; changed = s.changed } };

    ghost invariant = { λ s. IsPacked s.due_ms s.ages };

    ghost inverse = { λ v. record { due_ms = packed_ms v.due; ages = is_some v.due; changed = v.changed } };

    ghost inverse_ok = { λ s h i. record {
      due_ms = same_ms s.due_ms s.ages h i;
      ages = same_ages s.due_ms s.ages i;
      changed = s.changed;
    } };
}

/// The earlier of two deadlines, or the only one, if there is one.
pub fn earlier(one: Option<u64>, other: Option<u64>) -> Option<u64>
    ensures { result ≡ earlier one other }
{
    match (one, other) {
        (Some(one_ms), Some(other_ms)) => Some(one_ms.min(other_ms)),
        (None, due) | (due, None) => due,
    }
}

impl Summary {
    /// The summary of no routes.
    pub fn nothing() -> Summary
        ensures { result ≡ no_routes }
    {
        Summary {
            due_ms: 0,
            ages: false,
            changed: false,
        }
    }

    /// The summary of one route.
    pub fn of(route: &Route) -> Summary
        ensures { result ≡ summary_of_route route.now }
    {
        match route.deadline() {
            None => Summary {
                due_ms: 0,
                ages: false,
                changed: route.is_changed(),
            },
            Some(until) => Summary {
                due_ms: until.ms(),
                ages: true,
                changed: route.is_changed(),
            },
        }
    }

    /// The summary of two lists of routes together.
    pub fn and(self, other: Summary) -> Summary
        ensures { result ≡ both self other }
    {
        let changed = self.changed || other.changed;
        if !self.ages {
            Summary { changed, ..other }
        } else if !other.ages {
            Summary { changed, ..self }
        } else {
            Summary {
                due_ms: self.due_ms.min(other.due_ms),
                ages: true,
                changed,
            }
        }
    }

    /// The summary of the same routes with their route change flags cleared.
    pub fn without_mark(self) -> Summary
        ensures { result ≡ record self { changed = false } }
    {
        Summary {
            changed: false,
            ..self
        }
    }

    /// Whether both are equal.
    pub fn is_same(&self, other: &Summary) -> bool
        ensures { IsTrue result ↔ (self.now ≡ other.now) }
    {
        self.due_ms == other.due_ms && self.ages == other.ages && self.changed == other.changed
    }

    /// Becomes another summary. The result says whether that is a change; if not, nothing is written.
    pub fn set(&mut self, other: Summary) -> bool
        ensures value { self.new ≡ other }
        ensures kept { result ≡ false → self.new ≡ self.old }
    {
        if self.is_same(&other) {
            return false;
        }
        *self = other;
        true
    }

    /// Whether the least deadline is at most `by` milliseconds.
    pub fn is_reached(&self, by: u64) -> bool
        ensures { result ≡ is_reached by self.now.due }
    {
        self.ages && self.due_ms <= by
    }

    /// Whether a route change flag is set.
    pub fn has_changed(&self) -> bool
        ensures { result ≡ self.now.changed }
    {
        self.changed
    }

    /// Whether the least deadline is earlier than another, if there is another.
    pub fn is_due_before(&self, due: Option<u64>) -> bool
        ensures { result ≡ false → earlier due self.now.due ≡ due }
    {
        match due {
            Some(due_ms) => self.ages && self.due_ms < due_ms,
            None => self.ages,
        }
    }

    /// The least deadline of the routes, in milliseconds.
    pub fn due_ms(&self) -> Option<u64>
        ensures { result ≡ self.now.due }
    {
        if self.ages { Some(self.due_ms) } else { None }
    }
}
