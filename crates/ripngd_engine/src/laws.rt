//! Lemmas of runs, each the contract of a function with an empty body: they follow from the definitions alone.

ghost use Rattle.std.specs.Prelude.{ℕ, ◌+◌};
ghost use Rattle.ripngd_engine.specs.Common.{Seen, Ran};

/// Two calls of turns, one after the other, are one run of all their turns.
pub fn turns_go_on()
    ensures { (j k : ℕ) (a b c : Seen) → Ran j a b → Ran k b c → Ran (j + k) a c }
{}
