//! Parses a command line.

ghost use Rattle.std.specs.Prelude.{◌≡◌, ◌≢◌, ◌≤◌, ◌⊎◌, ◌↔◌, IfErr, IfOk, IfSome, IsTrue, List, None, Some, codes, map, option_map, true};
ghost use Rattle.clap.specs.Words.{FailsBy, Row, Text, fault_of, first_of, found_of, kind_of, rows_of, subcommand_rows_of, takes};
ghost use Rattle.ripngd_command_line.specs.Asked.{AreSeconds, Asks, HasNumber, HasNumbers, HasSign, HasOtherOption, HasSignedOrder, IsAsked, IsJob, IsJsonElsewhere, IsSet, IsSweep, IsWhat};
ghost use Rattle.ripngd_command_line.specs.CommandLine.{ripngd};

use crate::asked::{Ask, Capturing, Job, Marking, Numbering, Order, Question, Sweep};
use crate::range::seeds_in;
use crate::subcommands::command;
use clap::error::ErrorKind;
use clap::{ArgMatches, Error};
use std::alloc::{AllocError, Global};

/// Parses a command line, whose first word is the program's name.
///
/// # Errors
/// The error of clap, which help and the version are, too; or out of memory.
pub fn ask<'a>(alloc: Global, words: &'a [&'a str]) -> Result<Job<'a>, Error>
    // The result is what the words give to the command.
    ensures asked { IfOk result (Asks (map (λ w. w.now) words.entry.now)) }
    // Words that the command takes are refused only when memory runs out.
    ensures taken { IfErr result (λ e. takes ripngd (map (λ w. w.now) words.entry.now) ≡ true
        → kind_of e ≡ ErrorKind.OutOfMemory) }
    // There is a result only if the command finds no fault; an error has the kind of the fault, or is out of memory.
    ensures kinds { FailsBy (fault_of ripngd (map (λ w. w.now) words.entry.now)) result }
{
    let matches = command(alloc)?.try_get_matches_from(words)?;
    // A parse leaves no required argument without a value, so there is always a subcommand.
    subcommand_asked(&matches).ok_or(Error::from(AllocError))
}

/// The subcommand, with its arguments.
fn subcommand_asked<'a>(matches: &ArgMatches<'a>) -> Option<Job<'a>>
    ensures { IfSome result (λ job. (met : Text × List Row)
        × (subcommand_rows_of matches.now ≡ Some met) × IsJob job met.0 met.1) }
{
    let (name, inner) = matches.subcommand()?;
    job_of(name, inner)
}

/// The subcommand of a name, with all that it may have.
fn job_of<'a>(name: &'a str, matches: &ArgMatches<'a>) -> Option<Job<'a>>
    ensures { IfSome result (λ job. IsJob job name.entry.now (rows_of (found_of matches.now))) }
{
    match name {
        "show" => show_asked(matches),
        "lab" => lab_asked(matches),
        _ => Some(Job::Ask(asked_of(name, matches)?)),
    }
}

/// `show`, of digits or of a capture.
fn show_asked<'a>(matches: &ArgMatches<'a>) -> Option<Job<'a>>
    ensures { IfSome result (λ job. IsJob job (codes "show") (rows_of (found_of matches.now))) }
{
    let hex = text(matches, "HEX")?;
    if is_set(matches, "pcap") {
        Some(Job::ShowCapture(hex))
    } else {
        Some(Job::Ask(Ask::Show(hex)))
    }
}

/// The subcommand of a name which never has a capture, lines of numbers or seeds, with the values of its arguments.
fn asked_of<'a>(name: &'a str, matches: &ArgMatches<'a>) -> Option<Ask<'a>>
    ensures { IfSome result (λ a. IsAsked a name.entry.now (rows_of (found_of matches.now))) }
{
    match name {
        "check" => Some(Ask::Check(text(matches, "CONFIG")?)),
        "run" => run_asked(matches),
        "table" => Some(Ask::Table(text(matches, "LOG")?)),
        "ctl" => ctl_asked(matches),
        _ => None,
    }
}

/// `ctl`, with its words.
fn ctl_asked<'a>(matches: &ArgMatches<'a>) -> Option<Ask<'a>>
    ensures { IfSome result (λ a. IsAsked a (codes "ctl") (rows_of (found_of matches.now))) }
{
    let command = text(matches, "COMMAND")?;
    Some(Ask::Ctl(Question {
        socket: text(matches, "PATH")?,
        command,
        what: what_asked(matches),
        value: text(matches, "VALUE"),
        port: text(matches, "PORT"),
        mixed: is_json_elsewhere(matches, command),
    }))
}

/// The word behind the command of `ctl`, which `--json` stands for, too.
fn what_asked<'a>(matches: &ArgMatches<'a>) -> Option<&'a str>
    ensures { IsWhat (option_map (λ s. s.now) result) (rows_of (found_of matches.now)) }
{
    if is_set(matches, "json") {
        Some("json")
    } else {
        text(matches, "WHAT")
    }
}

/// Whether `--json` stands with another command than `status`, or with a word behind it.
fn is_json_elsewhere(matches: &ArgMatches<'_>, command: &str) -> bool
    ensures { first_of (codes "COMMAND") (rows_of (found_of matches.now)) ≡ Some command.now
        → (IsTrue result ↔ IsJsonElsewhere (rows_of (found_of matches.now))) }
{
    is_set(matches, "json") && (command != "status" || text(matches, "WHAT").is_some())
}

/// `lab`, with seeds or without.
fn lab_asked<'a>(matches: &ArgMatches<'a>) -> Option<Job<'a>>
    ensures { IfSome result (λ job. IsJob job (codes "lab") (rows_of (found_of matches.now))) }
{
    match text(matches, "seeds") {
        Some(range) => Some(Job::LabSeeds(sweep_asked(matches, range)?)),
        None => run_once_asked(matches),
    }
}

/// How `lab` runs a script with the seeds of a text.
fn sweep_asked<'a>(matches: &ArgMatches<'a>, range: &'a str) -> Option<Sweep<'a>>
    ensures { first_of (codes "seeds") (rows_of (found_of matches.now)) ≡ Some range.entry.now
        → IfSome result (λ sweep. IsSweep sweep (rows_of (found_of matches.now))) }
{
    Some(Sweep {
        script: text(matches, "SCRIPT")?,
        range,
        seeds: seeds_in(range),
        mixed: is_mixed_or_captured(matches) || has_numbers(matches),
    })
}

/// `lab` without seeds, with lines of numbers or without.
fn run_once_asked<'a>(matches: &ArgMatches<'a>) -> Option<Job<'a>>
    ensures { first_of (codes "seeds") (rows_of (found_of matches.now)) ≡ None
        → IfSome result (λ job. IsJob job (codes "lab") (rows_of (found_of matches.now))) }
{
    if has_numbers(matches) {
        Some(Job::LabNumbers(Numbering {
            script: text(matches, "SCRIPT")?,
            seconds: seconds(matches, "csv")?,
            by: text(matches, "by"),
            mixed: is_mixed_or_captured(matches),
            signed: has_sign(matches, "csv"),
        }))
    } else {
        text_asked(matches)
    }
}

/// `lab` without seeds and lines of numbers, with a capture or without.
fn text_asked<'a>(matches: &ArgMatches<'a>) -> Option<Job<'a>>
    ensures { ¬ (HasNumbers (rows_of (found_of matches.now))) → first_of (codes "seeds") (rows_of (found_of matches.now)) ≡ None
        → IfSome result (λ job. IsJob job (codes "lab") (rows_of (found_of matches.now))) }
{
    let script = text(matches, "SCRIPT")?;
    match text(matches, "pcap") {
        Some(capture) => Some(Job::LabCapture(Capturing {
            capture,
            script,
            mixed: is_mixed(matches),
        })),
        None => Some(Job::Ask(plain_lab_asked(matches)?)),
    }
}

/// Whether `lab` has an option of the lines of numbers.
fn has_numbers(matches: &ArgMatches<'_>) -> bool
    ensures { IsTrue result ↔ HasNumbers (rows_of (found_of matches.now)) }
{
    text(matches, "csv").is_some() || text(matches, "by").is_some()
}

/// Whether `lab` has an option beside those of seeds and lines of numbers.
fn is_mixed_or_captured(matches: &ArgMatches<'_>) -> bool
    ensures { IsTrue result ↔ (HasOtherOption (rows_of (found_of matches.now)) ⊎ (first_of (codes "pcap") (rows_of (found_of matches.now)) ≢ None)) }
{
    is_mixed(matches) || text(matches, "pcap").is_some()
}

/// Whether `lab` has an option beside those of a capture, seeds and lines of numbers.
fn is_mixed(matches: &ArgMatches<'_>) -> bool
    ensures { IsTrue result ↔ HasOtherOption (rows_of (found_of matches.now)) }
{
    text(matches, "against").is_some()
        || is_set(matches, "count")
        || is_set(matches, "trace")
        || is_set(matches, "changes")
        || is_set(matches, "explain")
}

/// `lab` without a capture, with `--against` and `--count` before `--trace`, that before `--changes`, and that before `--explain`, if several are given.
fn plain_lab_asked<'a>(matches: &ArgMatches<'a>) -> Option<Ask<'a>>
    ensures { IfSome result (λ a. IsAsked a (codes "lab") (rows_of (found_of matches.now))) }
{
    let script = text(matches, "SCRIPT")?;
    let (exercise, counts) = (text(matches, "against"), is_set(matches, "count"));
    Some(if counts || exercise.is_some() {
        Ask::Mark(Marking {
            script,
            exercise,
            counts,
        })
    } else if is_set(matches, "trace") {
        Ask::Trace(script)
    } else if is_set(matches, "changes") {
        Ask::Changes(script)
    } else if is_set(matches, "explain") {
        Ask::Explain(script)
    } else {
        Ask::Lab(script)
    })
}

/// `run`, with the values of its options.
fn run_asked<'a>(matches: &ArgMatches<'a>) -> Option<Ask<'a>>
    ensures { IfSome result (λ a. IsAsked a (codes "run") (rows_of (found_of matches.now))) }
{
    Some(Ask::Run(Order {
        quiet: is_set(matches, "quiet"),
        debug: is_set(matches, "debug"),
        tag: u16::try_from(number(matches, "tag", 0)?).ok()?,
        log: text(matches, "log"),
        append: is_set(matches, "append"),
        turns: number(matches, "turns", 1)?,
        seconds: seconds(matches, "seconds")?,
        control: text(matches, "control"),
        config: text(matches, "CONFIG")?,
        signed: has_signed_order(matches),
    }))
}

/// The value of an argument.
fn text<'a>(matches: &ArgMatches<'a>, id: &str) -> Option<&'a str>
    ensures { option_map (λ s. s.now) result ≡ first_of id.now (rows_of (found_of matches.now)) }
{
    matches.get_str(id)
}

/// Whether a flag was given.
fn is_set(matches: &ArgMatches<'_>, id: &str) -> bool
    ensures { IsTrue result ↔ IsSet (rows_of (found_of matches.now)) id.now }
{
    matches.get_one::<bool>(id).unwrap_or(false)
}

/// The number of an option, or `None` if it is less than `least`.
fn number(matches: &ArgMatches<'_>, id: &str, least: u32) -> Option<u32>
    ensures number { IfSome result (HasNumber (rows_of (found_of matches.now)) id.now) }
    ensures least { IfSome result (λ n. least ≤ n) }
{
    let number = matches.get_one::<u32>(id)?;
    if number < least { None } else { Some(number) }
}

/// The number of seconds of an option, if it was given.
fn seconds(matches: &ArgMatches<'_>, id: &str) -> Option<Option<u32>>
    ensures { IfSome result (λ seconds. AreSeconds id.now seconds (rows_of (found_of matches.now))) }
{
    match text(matches, id) {
        Some(_) => Some(Some(number(matches, id, 1)?)),
        None => Some(None),
    }
}

/// Whether the number of an option is written with a sign.
fn has_sign(matches: &ArgMatches<'_>, id: &str) -> bool
    ensures { IsTrue result ↔ HasSign (rows_of (found_of matches.now)) id.now }
{
    match text(matches, id) {
        Some(number) => matches!(number.as_bytes().first().copied(), Some(b'+' | b'-')),
        None => false,
    }
}

/// Whether a number of `run` is written with a sign.
fn has_signed_order(matches: &ArgMatches<'_>) -> bool
    ensures { IsTrue result ↔ HasSignedOrder (rows_of (found_of matches.now)) }
{
    has_sign(matches, "tag") || has_sign(matches, "turns") || has_sign(matches, "seconds")
}
