//! One line of a log. Its words are parsed loosely: a parser finds what was written, and what it makes of any other word does not
//! matter, since the result is printed and compared with the line.

ghost use Rattle.std.specs.Prelude.{◌≡◌, ℕ, ◌<◌, ◌^◌, IfOk, IfSome, Some};
ghost use Rattle.ripngd_daemon.specs.Common.{Prefix6, IsPrefix, written_prefix, Hop, RouteChange, change_text, hop_text, route_text, IsWritableHop, IsWritableChange, CutsWord, PushesLine};

use fib::{Hop, RouteChange};
use prefix6::{Prefix, parse_addr, parse_prefix, prefixes_are_sets, written_texts_are_read_back};
use ripngd_engine::ChangeLine;
use std::alloc::AllocError;
use std::fmt::Write;
use std::str;

/// The first word, and the text after its space; the whole and nothing if there is no space.
fn first_word(line: &str) -> (&str, &str)
    ensures { CutsWord line.now result.0.now result.1.now }
{
    line.split_once(' ').unwrap_or((line, ""))
}

/// The prefix that a word may be of.
fn prefix_in(word: &str) -> Option<Prefix>
    ensures prefix { IfSome result IsPrefix }
    ensures found { (p : Prefix6) → IsPrefix p → word.now ≡ written_prefix p → result ≡ Some p }
{
    written_texts_are_read_back();
    prefixes_are_sets();
    parse_prefix(word).ok()
}

/// The hop that a text may be of.
fn hop_in(text: &str) -> Option<Hop>
    ensures lawful { IfSome result IsWritableHop }
    ensures found { (hop : Hop) → IsWritableHop hop → text.now ≡ hop_text hop → result ≡ Some hop }
{
    if text == "direct" {
        return Some(Hop::Direct);
    }
    let (_, text) = first_word(text);
    let (next_hop, text) = first_word(text);
    let (_, iface) = first_word(text);
    written_texts_are_read_back();
    Some(Hop::Via {
        iface: iface.parse().ok()?,
        next_hop: parse_addr(next_hop).ok()?,
    })
}

/// The entry that a text may be of.
fn install_in(text: &str) -> Option<RouteChange>
    ensures lawful { IfSome result IsWritableChange }
    ensures found { (p : Prefix6) (hop : Hop) (metric : ℕ) → IsPrefix p → IsWritableHop hop → metric < 2 ^ 8 → text.now ≡ route_text p hop metric → result ≡ Some (RouteChange.Install p hop metric) }
{
    let (prefix, text) = first_word(text);
    let (_, text) = first_word(text);
    let (metric, hop) = first_word(text);
    Some(RouteChange::Install {
        prefix: prefix_in(prefix)?,
        hop: hop_in(hop)?,
        metric: metric.parse().ok()?,
    })
}

/// The change that a line may be of. Only the positions of its words are looked at.
fn change_in(line: &[u8]) -> Option<RouteChange>
    ensures lawful { IfSome result IsWritableChange }
    ensures found { (c : RouteChange) → IsWritableChange c → change_text c ≡ line.now → result ≡ Some c }
{
    let line = str::from_utf8(line).ok()?;
    let (word, text) = first_word(line);
    match word {
        "add" => install_in(text),
        _ => Some(RouteChange::Withdraw {
            prefix: prefix_in(text)?,
        }),
    }
}

/// Adds the change of a line, and returns whether the line has one. What was parsed is printed again, into the buffer `written`, and
/// counts only if it is the line.
///
/// # Errors
/// Out of memory.
pub(crate) fn push_line(
    changes: &mut Vec<RouteChange>,
    written: &mut String,
    line: &[u8],
) -> Result<bool, AllocError>
    ensures { IfOk result (λ is_one. PushesLine line.now is_one changes.old.items changes.new.items) }
{
    let Some(change) = change_in(line) else {
        return Ok(false);
    };
    let text = ChangeLine(change);
    written.clear();
    write!(written, "{text}").map_err(|_| AllocError)?;
    if written.as_bytes() != line {
        return Ok(false);
    }
    changes.push(text.0)?;
    Ok(true)
}
