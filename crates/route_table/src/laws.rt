//! A lemma on `next_due`: when the next timer ends.

ghost use Rattle.std.specs.Prelude.{◌≡◌, ℕ, false, Option, Some, None, option_map};
ghost use Rattle.route_table.specs.Common.{entries, Prefix6, deadline_at, first_due, is_reached, least_deadline, next_due, IsFirstDue, Table};

/// The deadline that `next_due` gives is the least of all, and no timer ends before it. The prefix is the least of those whose
/// routes have it. It gives `None` only if no route has a timer.
pub fn next_due_is_the_least()
    ensures least { (table : Table) → option_map (λ (n : ℕ × Prefix6). n.0) (next_due table) ≡ least_deadline (entries table) }
    ensures idle { (table : Table) (now : ℕ) → is_reached now (least_deadline (entries table)) ≡ false → (after : Option Prefix6) → first_due now after table ≡ None }
    ensures first { (table : Table) (until : ℕ) (p : Prefix6) → next_due table ≡ Some (until, p) → IsFirstDue table until p }
    ensures none { (table : Table) → next_due table ≡ None → (p : Prefix6) → deadline_at table p ≡ None }
{}
