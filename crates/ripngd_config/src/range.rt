//! The prefixes that a text of a list names.

ghost use Rattle.std.specs.Prelude.{◌≡◌, IfErr, IfOk, MatchOption};
ghost use Rattle.std.specs.List.{before_first, after_first};
ghost use Rattle.ripngd_config.specs.Common.{view, IsRange, KindHas, ReadsRange, RefusesKey, is_plus, range};

use crate::fault::{ConfigFault, Read};
use crate::section::{FromItem, Section};
use prefix6::{Prefix, parse_prefix};
use toml::Value;

/// A prefix, alone or with all longer ones in it.
#[derive(Clone, Copy, Debug, PartialEq, Eq)]
pub(crate) struct Range {
    pub prefix: Prefix,
    pub is_longer: bool,
}

/// The text before its first `+`, and after it: the whole and nothing if it has none.
fn split_at_plus(text: &str) -> (&str, &str)
    ensures before { result.0.now ≡ before_first is_plus text.now }
    ensures after { result.1.now ≡ after_first is_plus text.now }
{
    text.split_once('+').unwrap_or((text, ""))
}

/// Reads a prefix that may have a `+` at its end.
fn parse_range(text: &str) -> Option<Range>
    ensures { MatchOption result ((r : Range) → ¬ (ReadsRange text.now r)) (ReadsRange text.now) }
{
    let (prefix, rest) = split_at_plus(text);
    if !rest.is_empty() {
        return None;
    }
    let is_longer = text.ends_with('+');
    match parse_prefix(prefix) {
        Ok(prefix) => Some(Range { prefix, is_longer }),
        Err(_) => None,
    }
}

impl FromItem for Range {
    ghost kind = { range };

    ghost is_item = { IsRange };

    fn from_item(_section: Section<'_>, path: String, item: &Value) -> Read<Range> {
        let Some(text) = item.as_str() else {
            return Err(ConfigFault::WrongType(path));
        };
        match parse_range(text) {
            Some(range) => Ok(range),
            None => Err(ConfigFault::BadValue(path)),
        }
    }
}
