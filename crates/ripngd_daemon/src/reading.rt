//! Reads the log of a router, line by line: the forwarding table that its changes make.

ghost use Rattle.std.specs.Prelude.{◌≡◌, ◌≤◌, ◌<◌, ◌+◌, ◌++◌, ◌^◌, ◌↔◌, IfErr, IfOk, IsTrue, List, Some, length, ℕ, All};
ghost use Rattle.ripngd_daemon.specs.Common.{RouteChange, Replays, HasNoLineFeed, log_of, IsLastRun, start_text, IsFirstBadLine, IsLogOf, IsRunOf, IsWritableChange, MakesTable, RefusesLog, RefusesRun, log_fault_text};
ghost use Rattle.std.specs.FinMap as map;
ghost use Rattle.ripngd_daemon.specs.declared.reading.LogFault.TheVariants as fault;

use crate::line::push_line;
use fib::{Fib, RouteChange};
use prefix6::written_texts_are_read_back;
use ripngd_engine::first_line;
use std::alloc::{AllocError, Global};
use std::fmt::{self, Display};

/// Why a log is not read. It is printed as its number, which never changes, and its name.
#[derive(Clone, Copy, Debug, PartialEq, Eq)]
pub enum LogFault {
    /// A line, by its number from 1, is not the line of a change: the file is no log, or was edited.
    BadLine { line: usize },
    /// There was not enough memory for the changes or for the table.
    OutOfMemory,
}

impl Display for LogFault {
    ghost output = { λ f. Some (log_fault_text f) };

    fn fmt<W: fmt::Write>(&self, f: &mut fmt::Formatter<W>) -> fmt::Result {
        match *self {
            LogFault::BadLine { .. } => write!(f, "1 BadLine"),
            LogFault::OutOfMemory => write!(f, "2 OutOfMemory"),
        }
    }
}

impl From<AllocError> for LogFault {
    ghost from_gives = { λ _ e. e ≡ fault.OutOfMemory };

    fn from(_: AllocError) -> LogFault {
        LogFault::OutOfMemory
    }
}

/// Whether a run begins after this line.
fn is_start(line: &[u8]) -> bool
    ensures { IsTrue result ↔ (line.now ≡ start_text) }
{
    line == b"start".as_slice()
}

/// The text after the last line `start`, and how many lines are before it; the whole text and 0 if there is no such line.
fn last_run(text: &[u8]) -> (&[u8], usize)
    ensures last { IsLastRun text.now result.0.now result.1 }
    ensures within { result.1 + length result.0.now ≤ length text.now }
{
    let mut run = text;
    let mut skipped = 0;
    let mut rest = text;
    let mut passed = 0;
    while let Some((line, after)) = first_line(rest) {
        passed += 1;
        rest = after;
        if is_start(line) {
            run = after;
            skipped = passed;
        }
    }
    (run, skipped)
}

/// The changes of the complete lines of a run. `skipped` lines are before it.
fn read_changes(alloc: Global, text: &[u8], skipped: usize) -> Result<Vec<RouteChange>, LogFault>
    requires { skipped + length text.now < 2 ^ 64 }
    ensures log { IfOk result (λ changes. IsRunOf text.now changes.items) }
    ensures refused { IfErr result (RefusesRun text.now skipped) }
{
    let mut changes = Vec::new(alloc);
    let mut written = String::new(alloc);
    let mut rest = text;
    while let Some((line, after)) = first_line(rest) {
        if !push_line(&mut changes, &mut written, line)? {
            return Err(LogFault::BadLine {
                line: skipped + changes.len() + 1,
            });
        }
        rest = after;
    }
    Ok(changes)
}

/// A text is the log of at most one list of changes, and of none if it has a bad line: a lemma, which follows from the definitions alone.
pub fn logs_are_read_one_way()
    ensures one { (text : List ℕ) (changes other : List RouteChange) → IsLogOf text changes → IsLogOf text other → changes ≡ other }
    ensures none { (text : List ℕ) (line : ℕ) (changes : List RouteChange) → IsFirstBadLine text line → ¬ (IsLogOf text changes) }
{
    written_texts_are_read_back();
}

/// A log that was written for a list of changes is read as that list: a lemma, too.
pub fn written_logs_are_read_back()
    ensures { (changes : List RouteChange) (rest : List ℕ) → All IsWritableChange changes → HasNoLineFeed rest
        → IsRunOf (log_of changes ++ rest) changes }
{}

/// Reads the log of a router: the forwarding table that its changes make, in order, from an empty one. A last line without a line
/// feed is still being written, and does not count. If there are lines `start`, only the text after the last of them counts, and the
/// text before it may be anything.
///
/// A line counts only as a router writes it: digits in lower case, no leading zeros, prefixes with zeros after their length, one space
/// between words, a line feed alone at its end. The changes are made in one merge, by up to k log2(k) comparisons for k lines.
///
/// # Errors
/// `BadLine` with the number, from 1, of the first line that counts and is not the line of a change; `OutOfMemory`.
pub fn read_log(alloc: Global, text: &[u8]) -> Result<Fib, LogFault>
    ensures table { IfOk result (MakesTable text.now) }
    ensures follows { IfOk result (λ table. (changes : List RouteChange) → IsLogOf text.now changes → Replays map.empty changes table) }
    ensures refused { IfErr result (RefusesLog text.now) }
{
    logs_are_read_one_way();
    let (run, skipped) = last_run(text);
    let changes = read_changes(alloc, run, skipped)?;
    let mut fib = Fib::new(alloc);
    fib.apply(&changes)?;
    Ok(fib)
}
