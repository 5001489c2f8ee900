//! Lemmas on replay and on the longest match. Each is the contract of an empty function.

ghost use Rattle.std.specs.Prelude.{◌≡◌, ℕ, List, [], ◌++◌};
ghost use Rattle.fib.specs.Common.{Hop, RouteChange, Forwarding, Replays, IsLongestMatch};

/// Replay follows a router step by step: no changes leave the table as it is, two lists of changes one
/// after the other are one list, and the table before and the changes determine the table after.
pub fn replay_follows_calls()
    ensures nothing { (table : Forwarding) → Replays table [] table }
    ensures joined { (old middle new : Forwarding) (first second : List RouteChange) → Replays old first middle → Replays middle second new → Replays old (first ++ second) new }
    ensures determined { (old new other : Forwarding) (changes : List RouteChange) → Replays old changes new → Replays old changes other → new ≡ other }
{}

/// An address has at most one longest match (RFC 4632, section 5.1).
pub fn longest_match_is_one()
    ensures { (table : Forwarding) (addr : ℕ) (hop other : Hop) → IsLongestMatch table addr hop → IsLongestMatch table addr other → hop ≡ other }
{}
