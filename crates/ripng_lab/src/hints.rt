//! Hints: what a refused line of a script should have been.

use crate::forms::{FORMS, Verb, first_word, meaning, words_of_form};
use crate::line::read_line;
use crate::listing::list;
use crate::script::words_in;
use crate::{BadLine, Context, Ending, Names, Printer, Refusal, Wrong, names_of, watched};
use prefix6::Addr6;
use ripng_clock::RunRefused;
use ripng_world::{LabError, NetConfig, NetRefused, ROUTER_LIMIT};
use router_core::{ConfigRefused, ReconfigureRefused};
use std::alloc::{AllocError, Global};
use std::io::{self, Write};
use std::str::FromStr;
use strsim::levenshtein;

/// A first word is near another if at most this many letters differ.
const NEAR: usize = 2;

/// A word with more letters is near no other.
const LONGEST: usize = 12;

/// What a line should have been, or out of memory.
type Hint = Result<String, AllocError>;

/// A value that may be missing, or out of memory.
type Found<T> = Result<Option<T>, AllocError>;

/// Runs a script as [`lab`](crate::lab) does. If a refused line ends it, `err` gets a line `ripngd: line L: ..` with a hint, if there
/// is one; for a network that is refused, L is the line with the fault. If `err` or memory fails, there is no hint.
///
/// # Errors
/// Those of [`lab`](crate::lab).
pub fn lab_hinted<W: Write, E: Write>(
    alloc: Global,
    script: &[u8],
    out: &mut W,
    err: &mut E,
) -> io::Result<bool> {
    Ok(ended_at(alloc, script, out, err)?.is_none())
}

/// The same, and answers at which line the script ended, or `None` if every line was done.
pub(crate) fn ended_at<W: Write, E: Write>(
    alloc: Global,
    script: &[u8],
    out: &mut W,
    err: &mut E,
) -> io::Result<Option<usize>> {
    let names = names_of(alloc, script)?;
    let mut printer = Printer::new(alloc, Names::new(&names), out);
    let done = watched(alloc, script, &mut printer)?;
    if let Some(ending) = printer.ending
        && let Ok(Some((line, hint))) = hint_of(alloc, script, &ending)
    {
        let _ = writeln!(err, "ripngd: line {line}: {hint}");
    }
    Ok(if done { None } else { Some(printer.line) })
}

/// The hint for the refused line that ended a script, which says what to write, and the number of the line that is at fault, if there is
/// a hint.
///
/// # Errors
/// Out of memory.
pub fn hint_of(alloc: Global, script: &[u8], ending: &Ending) -> Found<(usize, String)> {
    let mut lines = script.split(|byte| *byte == b'\n');
    let line = words_in(lines.nth(ending.line.saturating_sub(1)).unwrap_or(&[]));
    let hint = match ending.refusal {
        Refusal::BadLine(why) => hint_of_bad(alloc, line, why)?,
        Refusal::Network(refused) => return fault(alloc, script, ending.line, refused),
        Refusal::Event(LabError::NoSuchRouter) => {
            counted(alloc, names_of(alloc, script)?.len(), "routers")?
        }
        Refusal::Event(LabError::NoSuchDatagram) => match first_word(line) {
            "hear" => String::from_str(alloc, meaning_of(ending.refusal))?,
            "tell" => counted(alloc, ending.sent_by_line, "datagrams of this tick")?,
            _ => counted(alloc, ending.sent, "datagrams that were sent")?,
        },
        refusal => String::from_str(alloc, meaning_of(refusal))?,
    };
    Ok(Some((ending.line, hint)).filter(|(_, hint)| !hint.is_empty()))
}

/// What is wrong with a line that is well formed, and stands where it may; nothing if the script does not show it.
fn meaning_of(refusal: Refusal) -> &'static str {
    match refusal {
        Refusal::NameTwice => "an earlier router has that name",
        Refusal::NoSuchLink => "no iface is on that link",
        Refusal::DatagramLost => "an earlier line says that this datagram is lost",
        Refusal::Outage => "in phases all take part: a router is silent or a link is cut",
        Refusal::Rounds(_) =>
            "a regular update is not due yet: rounds lie at least 15000 milliseconds apart",
        Refusal::Run(RunRefused::BeforeBegin { .. }) =>
            "time does not go back: UNTIL lies before the last time of all routers, or of a run",
        Refusal::Event(LabError::NoSuchInterface) =>
            "a router's interfaces are numbered from 0, by its iface lines",
        Refusal::Event(LabError::NoSuchDatagram) =>
            "fewer datagrams are heard: they are counted from 0 for the first that was not passed by yet",
        Refusal::Event(LabError::OtherLink) =>
            "the datagram was sent on another link than that of the interface",
        Refusal::Event(LabError::NotAStranger) =>
            "the router takes it for a neighbor's: liar forges a Response",
        Refusal::Event(LabError::NotALiar) =>
            "the router refuses it: liar is for a Response that it accepts",
        Refusal::Event(LabError::ReconfigureRefused(change)) => match change {
            ReconfigureRefused::BadCost => "COST is a number from 1 to 15",
            ReconfigureRefused::PrefixNotAllowed => "PREFIX is neither multicast nor link-local",
            ReconfigureRefused::AlreadyOwned => "the router owns the prefix already: drop it first",
            ReconfigureRefused::NotOwned =>
                "the router owns no such prefix: look at its length too",
            _ => "the router has no room for one more prefix",
        },
        _ => "",
    }
}

/// What a malformed line, or one out of place, should have been.
fn hint_of_bad(alloc: Global, line: &str, why: BadLine) -> Hint {
    if let Some(wrong) = wrong_spacing(line) {
        return String::from_str(alloc, wrong);
    }
    let verb = first_word(line);
    match why {
        BadLine::NoText => String::from_str(alloc, "it is no text in UTF-8"),
        BadLine::Unknown => match nearest(alloc, verb)? {
            Some(near) => format!(in alloc; "no line begins with {verb}: is it {near}?"),
            None => format!(in alloc; "no line begins with {verb}"),
        },
        BadLine::Word { form, place, wrong } => hint_of_word(alloc, line, form, place, wrong),
        BadLine::BeforeStart => format!(in alloc; "{verb} comes after cold"),
        BadLine::AfterStart => format!(in alloc; "{verb} comes before cold"),
        BadLine::SecondStart => String::from_str(alloc, "cold comes once"),
        BadLine::NoRouter => format!(in alloc; "{verb} comes after a router"),
        _ => String::from_str(alloc, "the row goes on past the last prefix of its length"),
    }
}

/// What is wrong with a line whatever its words are; `say` may have any blanks.
fn wrong_spacing(line: &str) -> Option<&'static str> {
    Some(match line {
        _ if line.starts_with("say ") => return None,
        _ if line.starts_with('\u{feff}') =>
            "it begins with a byte order mark: a script is UTF-8 without one",
        _ if line.contains('\t') => "it has a tab: words are one space apart",
        _ if line.contains("  ") => "it has two spaces in a row: words are one space apart",
        _ => return None,
    })
}

/// The first word of a form that is nearest to a word, if one is near.
fn nearest(alloc: Global, word: &str) -> Found<&'static str> {
    if word.len() > LONGEST {
        return Ok(None);
    }
    let (mut near, mut bound) = (None, NEAR.saturating_add(1).min(word.len()));
    for form in 0..FORMS.len() {
        let first = first_word(words_of_form(form));
        let distance = levenshtein(alloc, first, word)?;
        if distance < bound {
            bound = distance;
            near = Some(first);
        }
    }
    Ok(near)
}

fn counted(alloc: Global, count: usize, what: &str) -> Hint {
    match count.checked_sub(1) {
        Some(last) => format!(in alloc; "there are {count} {what}, from 0 to {last}"),
        None => format!(in alloc; "there are no {what}"),
    }
}

/// What is wrong with the word at a place of a line. Where a form has no more parts, it is one more K.
fn hint_of_word(alloc: Global, line: &str, form: usize, place: usize, wrong: Wrong) -> Hint {
    let verb = first_word(line);
    let word = line.split(' ').nth(place).unwrap_or("");
    let words = words_of_form(form);
    let part = words.split(' ').nth(place).unwrap_or("K");
    let (what, is) = match meaning(part) {
        "" => ("it", part),
        meaning => (part, meaning),
    };
    match wrong {
        Wrong::Differs => format!(in alloc; "word {place} of {verb}: {what} is {is}"),
        Wrong::Missing => format!(in alloc; "word {place} of {verb} is missing: {what} is {is}"),
        Wrong::TooMany => format!(in alloc; "a word is too many: the form is {words}"),
        Wrong::NoName => format!(in alloc; "word {place}: no router has the name {word}"),
        Wrong::NoTime => format!(in alloc; "word {place}: no earlier line names a time"),
        Wrong::TooLate => format!(in alloc; "word {place}: the last time is 2^60 milliseconds"),
        Wrong::NotSent => format!(in alloc; "word {place}: fewer datagrams were sent"),
    }
}

/// The number, from 1, of the line with the fault of a network that is refused at the line `cold`, and what the line should have been.
/// It is the first line, of a router that is named, such that the network of the lines up to it is refused for the same reason. Where
/// no prefix is at fault none counts, and else all routers and interfaces do.
fn fault(alloc: Global, script: &[u8], cold: usize, refused: NetRefused) -> Found<(usize, String)> {
    let mut context = Context::new(alloc);
    let mut routers = 0_usize;
    let of_prefix = refusal_of(alloc, script, cold, 0)? != Some(refused);
    let shared = match refused {
        NetRefused::AddressSharedInNetwork => first_shared(alloc, script, cold)?,
        _ => None,
    };
    for (place, text) in script.split(|byte| *byte == b'\n').take(cold).enumerate() {
        if let Ok(line) = read_line(words_in(text), &mut context) {
            routers = routers.saturating_add(usize::from(matches!(line.verb, Verb::Router(_))));
            let number = place.saturating_add(1);
            let may_be_it = match refused {
                NetRefused::BadRouter { router, .. } => routers == router.saturating_add(1),
                NetRefused::TooManyRouters => routers > ROUTER_LIMIT,
                _ => shared == Some(number),
            };
            let (listed, owned) = if of_prefix {
                (cold, number)
            } else {
                (number, 0)
            };
            if may_be_it
                && (line.verb == Verb::Prefixes) == of_prefix
                && refusal_of(alloc, script, listed, owned)? == Some(refused)
            {
                let meaning = String::from_str(alloc, meaning_of_network(refused))?;
                return Ok(Some((number, meaning)));
            }
        }
    }
    Ok(None)
}

/// The number, from 1, of the first line before `cold` that lists an interface with the address of an earlier one.
fn first_shared(alloc: Global, script: &[u8], cold: usize) -> Found<usize> {
    let mut context = Context::new(alloc);
    let mut interfaces = Vec::new(alloc);
    for (place, text) in script.split(|byte| *byte == b'\n').take(cold).enumerate() {
        if let Ok(line) = read_line(words_in(text), &mut context)
            && line.verb == Verb::Interface
        {
            interfaces.push((line.addr, place.saturating_add(1)))?;
        }
    }
    interfaces.sort_unstable();
    let (mut first, mut earlier): (Option<usize>, Option<Addr6>) = (None, None);
    for &(addr, number) in &interfaces {
        if earlier == Some(addr) {
            first = Some(first.map_or(number, |least| least.min(number)));
        }
        earlier = Some(addr);
    }
    Ok(first)
}

/// Why the network is refused, if it is, where routers and interfaces are read from the first `listed` lines of the script and prefixes
/// from the first `owned`.
fn refusal_of(alloc: Global, script: &[u8], listed: usize, owned: usize) -> Found<NetRefused> {
    let mut context = Context::new(alloc);
    let mut nodes = Vec::new(alloc);
    for (place, text) in script.split(|byte| *byte == b'\n').take(listed).enumerate() {
        if let Ok(line) = read_line(words_in(text), &mut context)
            && (line.verb != Verb::Prefixes || place < owned)
            && list(alloc, &mut nodes, &line).is_err()
        {
            return Err(AllocError);
        }
    }
    match NetConfig::check(alloc, nodes) {
        Ok(_) => Ok(None),
        Err(NetRefused::OutOfMemory) => Err(AllocError),
        Err(refused) => Ok(Some(refused)),
    }
}

/// What a line should have been for which a network is refused.
fn meaning_of_network(refused: NetRefused) -> &'static str {
    match refused {
        NetRefused::TooManyRouters => "a network has at most 4096 routers",
        NetRefused::AddressSharedInNetwork =>
            "word 1 of iface: ADDR is that of an earlier interface of the network",
        NetRefused::BadRouter { refusal, .. } => match refusal {
            ConfigRefused::NoInterface => "a router has at least one iface line after it",
            ConfigRefused::TooManyInterfaces => "a router has at most 256 interfaces",
            ConfigRefused::AddressNotLinkLocal =>
                "word 1 of iface: ADDR is a link-local address, of fe80::/10, like fe80::1",
            ConfigRefused::AddressTwice =>
                "word 1 of iface: ADDR is that of an earlier interface of the router",
            ConfigRefused::BadCost => "word 2 of iface: COST is a number from 1 to 15",
            ConfigRefused::BadMtu => "word 3 of iface: MTU is a number from 1280 to 65535",
            ConfigRefused::TooManyPrefixes => "a router owns at most 1024 prefixes",
            ConfigRefused::PrefixTwice => "word 1 of own: the router owns the prefix already",
            ConfigRefused::PrefixNotAllowed =>
                "word 1 of own: PREFIX is a prefix that is neither multicast nor link-local, like 2001:db8::/32",
        },
        NetRefused::ZoneNamed | NetRefused::OutOfMemory => "",
    }
}
