//! What the words of a line may stand for, by themselves or by the lines before it.

use crate::{Refusal, Stop, Wrong};
use route_table::Moment;
use std::alloc::Global;
use std::fmt;
use std::str::FromStr;

/// What the lines before have said and done.
#[derive(Drop)]
pub struct Context {
    /// The name of each router, in order; empty for one without a name.
    names: Vec<String>,
    /// The time that was named last.
    pub last: Option<Moment>,
    /// How many datagrams were sent.
    pub sent: usize,
    /// The last time of all routers, if they have started.
    pub latest: Option<Moment>,
    /// The SEED of a line that names none.
    pub seed: u64,
}

impl Context {
    /// Nothing was said yet.
    pub fn new(alloc: Global) -> Context {
        Context {
            names: Vec::new(alloc),
            last: None,
            sent: 0,
            latest: None,
            seed: 0,
        }
    }

    /// Gives the next router that name, or no name if it is empty. `NameTwice` if an earlier router has it.
    pub fn name_next(&mut self, alloc: Global, name: &str) -> Result<(), Stop> {
        if self.router(name).is_ok() {
            return Err(Stop::Refused(Refusal::NameTwice));
        }
        Ok(self.names.push(String::from_str(alloc, name)?)?)
    }

    /// R: the name of a router, or its number.
    pub fn router(&self, word: &str) -> Result<usize, Wrong> {
        if !is_name(word) {
            return number(word);
        }
        let router = self.names.iter().position(|name| name.as_str() == word);
        router.ok_or(Wrong::NoName)
    }

    /// NOW: milliseconds, or `+` and the milliseconds since the last time.
    pub fn moment(&self, word: &str) -> Result<Moment, Wrong> {
        let Some(gap) = word.strip_prefix('+') else {
            return Moment::new(number(word)?).ok_or(Wrong::Differs);
        };
        let gap = number(gap)?;
        let last = self.last.ok_or(Wrong::NoTime)?;
        moment_after(last, gap, 1).ok_or(Wrong::TooLate)
    }

    /// N: the number of a datagram, or `last`, or `last-K`, the one that was sent K before it.
    pub fn datagram(&self, word: &str) -> Result<usize, Wrong> {
        let back = match word.strip_prefix("last-") {
            Some(back) => number(back)?,
            None if word == "last" => 0,
            None => return number(word),
        };
        let last = self.sent.checked_sub(1).ok_or(Wrong::NotSent)?;
        last.checked_sub(back).ok_or(Wrong::NotSent)
    }
}

/// A number that fits its type, in decimal digits without sign or leading zero.
pub fn number<N: FromStr<Err: Drop>>(word: &str) -> Result<N, Wrong> {
    let has_digits_alone = word.as_bytes().iter().all(|byte| byte.is_ascii_digit());
    if !has_digits_alone || (word.starts_with('0') && word != "0") {
        return Err(Wrong::Differs);
    }
    word.parse().map_err(|_| Wrong::Differs)
}

/// A number from 1 to `max`.
pub fn up_to<N: FromStr<Err: Drop> + Ord + Default + Copy>(word: &str, max: N) -> Result<N, Wrong> {
    let count = Some(number(word)?).filter(|count| *count > N::default() && *count <= max);
    count.ok_or(Wrong::Differs)
}

/// A number up to `max`, which may be 0.
pub fn at_most<N: FromStr<Err: Drop> + Ord + Copy>(word: &str, max: N) -> Result<N, Wrong> {
    let count = Some(number(word)?).filter(|count| *count <= max);
    count.ok_or(Wrong::Differs)
}

/// The moment `gaps` gaps of `gap` milliseconds later, or `None` past the last moment.
pub fn moment_after(now: Moment, gap: u64, gaps: u64) -> Option<Moment> {
    Moment::new(gap.checked_mul(gaps)?.checked_add(now.ms())?)
}

/// Whether a word may be a name: a letter, and then letters, digits, `-` and `_`.
pub fn is_name(word: &str) -> bool {
    word.starts_with(|first: char| first.is_ascii_alphabetic())
        && word.chars().all(|letter| letter.is_ascii_alphanumeric() || matches!(letter, '-' | '_'))
}

/// What there is, or `none`.
#[derive(Clone, Copy)]
pub struct OrNone<T>(pub Option<T>);

impl<T: fmt::Display> fmt::Display for OrNone<T> {
    fn fmt<W: fmt::Write>(&self, f: &mut fmt::Formatter<W>) -> fmt::Result {
        match &self.0 {
            Some(there) => write!(f, "{there}"),
            None => f.write_str("none"),
        }
    }
}

/// What has the name.
pub fn named<T: Copy>(word: &str, names: &[(&str, T)]) -> Result<T, Wrong> {
    let found = names.iter().find(|(name, _)| *name == word);
    Ok(found.ok_or(Wrong::Differs)?.1)
}

/// The name that something has.
pub fn name_of<T: PartialEq>(named: &T, names: &[(&'static str, T)]) -> &'static str {
    let found = names.iter().find(|(_, other)| other == named);
    found.map_or("", |(name, _)| name)
}

/// Pairs of hexadecimal digits, at least one.
pub fn are_bytes(digits: &[u8]) -> bool {
    let are_pairs = !digits.is_empty() && digits.len().is_multiple_of(2);
    are_pairs && digits.iter().all(|digit| digit.is_ascii_hexdigit())
}
