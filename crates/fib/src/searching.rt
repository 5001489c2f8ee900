//! Searching entries in the order of their prefixes, each by bisection.

ghost use Rattle.std.specs.Prelude.{◌≡◌, ◌≤◌, map as each, length, IfOk, IfErr, IfSome, IsNone, Some};
ghost use Rattle.fib.specs.Common.{IsAt, IsGap, at_prefix, AreInOrder, IsLastUpTo, AreAllPast, IsPast};

use crate::change::Hop;
use prefix6::Prefix;

/// An entry: a prefix with its hop and metric.
pub(crate) type Entry = (Prefix, Hop, u8);

/// The index of the entry of a prefix, or as an error the index where it would go.
pub(crate) fn place_of(entries: &[Entry], prefix: &Prefix) -> Result<usize, usize>
    requires { AreInOrder entries.now }
    ensures found { IfOk result (IsAt (each at_prefix entries.now) prefix.now) }
    ensures absent { IfErr result (IsGap (each at_prefix entries.now) prefix.now) }
{
    entries.binary_search_by_key(prefix, |&(prefix, _, _)| prefix)
}

/// How many entries have this prefix or one that comes before it.
pub(crate) fn passed(entries: &[Entry], prefix: &Prefix) -> usize
    requires { AreInOrder entries.now }
    ensures within { result ≤ length entries.now }
    ensures past { IsPast entries.now (Some prefix.now) result }
{
    match place_of(entries, prefix) {
        Ok(at) => at + 1,
        Err(at) => at,
    }
}

/// The index of the last entry whose prefix is this one or comes before it.
pub(crate) fn last_up_to(entries: &[Entry], prefix: &Prefix) -> Option<usize>
    requires { AreInOrder entries.now }
    ensures found { IfSome result (IsLastUpTo entries.now prefix.now) }
    ensures none { IsNone result → AreAllPast entries.now prefix.now 0 }
{
    passed(entries, prefix).checked_sub(1)
}
