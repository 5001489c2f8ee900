//! The seeds that a word names, as `1..100`.

ghost use Rattle.std.specs.Prelude.{◌≡◌, ◌↔◌, ℕ, Some};
ghost use Rattle.std.specs.List.{before_first, after_first};
ghost use Rattle.ripngd_command_line.specs.Asked.{AreSeeds, IsSeedText, is_dot};

use crate::asked::Seeds;

/// Reads a seed: a decimal number of 64 bits with no sign and no leading zero.
fn seed_in(text: &str) -> Option<u64>
    ensures { (seed : ℕ) → (result ≡ Some seed) ↔ IsSeedText text.now seed }
{
    match text.as_bytes() {
        b"0" => Some(0),
        [b'1'..=b'9', ..] => match text.parse::<u64>() {
            Ok(seed) => Some(seed),
            Err(_) => None,
        },
        _ => None,
    }
}

/// The text before its first dot, and after it: the whole and nothing if it has none.
fn split_at_dot(text: &str) -> (&str, &str)
    ensures before { result.0.now ≡ before_first is_dot text.now }
    ensures after { result.1.now ≡ after_first is_dot text.now }
{
    text.split_once('.').unwrap_or((text, ""))
}

/// Reads two seeds with two dots between them, the greater one last.
pub(crate) fn seeds_in(text: &str) -> Option<Seeds>
    ensures { AreSeeds result text.now }
{
    let (first, rest) = split_at_dot(text);
    let (between, last) = split_at_dot(rest);
    if !between.is_empty() {
        return None;
    }
    match (seed_in(first), seed_in(last)) {
        (Some(first), Some(last)) if first <= last => Some(Seeds { first, last }),
        _ => None,
    }
}
