//! Which lines of a script begin or end an outage: a link that is cut, or a router that is silent. No table knows of it, and no observer
//! is notified.

ghost use Rattle.std.specs.Prelude.{◌≡◌};
ghost use Rattle.ripng_lab_fates.specs.Outages.{change_at, is_cut, is_out, same_thing};

use std::alloc::{AllocError, Global};
use std::{mem, str};

/// What may be out.
#[derive(Clone, Copy, Debug, PartialEq, Eq)]
pub(crate) enum Thing {
    /// The link of that number: nothing crosses it.
    Link(u32),
    /// The router of that number: it is silent.
    Router(usize),
}

/// The begin of an outage, or its end.
#[derive(Clone, Copy, Debug, PartialEq, Eq)]
pub(crate) struct Change {
    /// The number of the line that says so, from 1.
    pub line: usize,
    pub thing: Thing,
    /// Whether it is out from then on.
    pub is_out: bool,
}

/// Whether two things are the same.
fn is_same(thing: Thing, other: Thing) -> bool
    ensures { result ≡ same_thing thing other }
{
    match (thing, other) {
        (Thing::Link(link), Thing::Link(other)) => link == other,
        (Thing::Router(router), Thing::Router(other)) => router == other,
        _ => false,
    }
}

/// Whether a thing is out after some changes: the last one of it counts.
pub(crate) fn is_out(changes: &[Change], thing: Thing) -> bool
    ensures { result ≡ is_out changes.now thing }
{
    let mut out = false;
    for change in changes {
        if is_same(change.thing, thing) {
            out = change.is_out;
        }
    }
    out
}

/// Whether a link is cut after some changes.
pub(crate) fn is_cut(changes: &[Change], link: Option<u32>) -> bool
    ensures { result ≡ is_cut changes.now link }
{
    match link {
        Some(link) => is_out(changes, Thing::Link(link)),
        None => false,
    }
}

/// The change that the line of that number makes, if it makes one.
pub(crate) fn change_at(changes: &[Change], line: usize) -> Option<Change>
    ensures { result ≡ change_at changes.now line }
{
    let mut found = None;
    for change in changes {
        if change.line == line {
            found = Some(*change);
        }
    }
    found
}

/// The changes that the lines of a script make, in order, if they are done. A line that is to be refused makes none. Routers have these
/// names, in order; an empty one is none.
pub(crate) fn changes_in(
    alloc: Global,
    script: &[u8],
    names: &[&str],
) -> Result<Vec<Change>, AllocError> {
    let mut changes = Vec::new(alloc);
    let mut is_awaited = false;
    for (place, line) in script.split(|byte| *byte == b'\n').enumerate() {
        let words = words_of(line);
        if words.is_empty() {
            continue;
        }
        let was_awaited = mem::replace(&mut is_awaited, words.starts_with("refused "));
        if !was_awaited && let Some((thing, is_out)) = change_by(words, names) {
            let line = place.saturating_add(1);
            changes.push(Change {
                line,
                thing,
                is_out,
            })?;
        }
    }
    Ok(changes)
}

/// The words of a line, without the blanks around them and without a remark.
fn words_of(line: &[u8]) -> &str {
    let text = str::from_utf8(line).unwrap_or("").trim_ascii_start();
    match text.split_once(" #") {
        _ if text.starts_with('#') => "",
        Some((words, _)) => words.trim_ascii_end(),
        None => text.trim_ascii_end(),
    }
}

/// What a line of these words says to be out, or to be out no longer.
fn change_by(words: &str, names: &[&str]) -> Option<(Thing, bool)> {
    let (verb, rest) = words.split_once(' ')?;
    match verb {
        "cut" => Some((link(rest)?, true)),
        "mend" => Some((link(rest)?, false)),
        "down" => Some((link(first_word(rest))?, true)),
        "up" => Some((link(first_word(rest))?, false)),
        "silent" => Some((router(rest, names)?, true)),
        "speaks" => Some((router(rest, names)?, false)),
        _ => None,
    }
}

/// The first of some words.
fn first_word(words: &str) -> &str {
    let (word, _) = words.split_once(' ').unwrap_or((words, ""));
    word
}

/// The link of a number.
fn link(word: &str) -> Option<Thing> {
    if !is_number(word) {
        return None;
    }
    Some(Thing::Link(word.parse().ok()?))
}

/// The router of a name, or of a number.
fn router(word: &str, names: &[&str]) -> Option<Thing> {
    let number = if is_number(word) {
        word.parse().ok()?
    } else {
        names.iter().position(|name| *name == word)?
    };
    Some(Thing::Router(number))
}

/// Whether a word is a number as scripts write it: digits, of which the first is 0 in `0` alone.
fn is_number(word: &str) -> bool {
    let has_digits_alone = word.as_bytes().iter().all(|byte| byte.is_ascii_digit());
    has_digits_alone && !word.is_empty() && (!word.starts_with('0') || word == "0")
}
