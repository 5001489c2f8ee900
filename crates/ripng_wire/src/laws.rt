//! Lemmas on the layout: bytes have one reading, and they spell a datagram exactly where there is no reason to refuse them.

ghost use Rattle.std.specs.Prelude.{◌≡◌, ◌<◌, ◌^◌, ℕ, List, All, None};
ghost use Rattle.ripng_wire.specs.Common.{Command, Rte, Spells, wire_fault};

/// No bytes spell two datagrams. So [`decode`](crate::decode) gives back the command and the entries that
/// [`encode`](crate::encode) was given.
pub fn one_datagram()
    ensures { (c d : Command) (es fs : List Rte) (bytes : List ℕ)
        → Spells c es bytes → Spells d fs bytes → (c ≡ d) × (es ≡ fs) }
{}

/// Bytes spell a datagram exactly where there is no reason to refuse them.
pub fn spelled_has_no_fault()
    ensures passes { (command : Command) (entries : List Rte) (bytes : List ℕ)
        → Spells command entries bytes → wire_fault bytes ≡ None }
    ensures spelled { (bytes : List ℕ) → All (λ b. b < 2 ^ 8) bytes → wire_fault bytes ≡ None
        → (command : Command) × ((entries : List Rte) × Spells command entries bytes) }
{}
