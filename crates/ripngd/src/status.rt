//! The whole program, on two writers: each subcommand, and its exit status.

ghost use Rattle.std.specs.Prelude.{◌≡◌, ◌≢◌, ◌⊎◌, ◌≤◌, ℕ, IfErr, IfOk, List, None, Ok, OnOk, false, map, true};
ghost use Rattle.clap.specs.Words.{kind_of};
ghost use Rattle.ripngd.specs.Exit.{AnswersAsk, AnswersJob, AnswersNumbers, AnswersWords, AreHeld, AsksForHelp, FailsWords, HaveFault, JobMayFail, holds_any};
ghost use Rattle.ripngd_command_line.specs.Asked.{IsMisused};
ghost use Rattle.ripngd_daemon.specs.Failing.{MayFail};

use crate::subcommands::{capture, explain, mark, numbers, sweep, trace};
use clap::error::ErrorKind;
use ripng_show::{PrintFault, show, show_capture};
use ripngd_command_line::{Ask, Capturing, Job, Marking, Numbering, Sweep, ask, misuse_of};
use ripngd_daemon::{
    Failure, FileCause, FileSource, History, System, SystemFiles, check_file, ctl, run, table_file,
    write_failure, write_losses,
};
use std::alloc::Global;
use std::fs;
use std::io::{self, Write};
use std::os::unix::fs::MetadataExt;
use std::rt::Files;

/// The exit status of the program.
#[derive(Clone, Copy, Debug, PartialEq, Eq)]
pub(crate) enum Status {
    /// Done; also for help and the version.
    Done = 0,
    /// The input was refused: a datagram, a configuration, or a line of a script or a log. Standard output says why.
    Refused = 1,
    /// Usage error; standard error says why.
    Usage = 2,
    /// A file, a port, a socket or memory failed; standard error says which.
    Failed = 3,
}

/// Runs the program on the words of a command line, the first of them its name, and returns the exit status:
///
/// - 0: done. Help and the version are written to `out`.
/// - 1: the datagram, the configuration, or a line of the script or the log is refused, and a line on `out` says why. A line on `err`
///   may have a hint for the line of a script, or the place of the fault of a configuration.
/// - 2: usage error, also one that only `misuse_of` finds, as `--append` without a file. `err` gets the message.
/// - 3: a failure, with a line on `err`: `ripngd: cannot read FILE`, `ripngd: cannot write FILE` (`stdout` for `out`), `ripngd: cannot
///   bind PORT`, `ripngd: link fault after N turns` or `ripngd: out of memory`, and others, with the cause if it is known. Nothing is
///   written for an `out` that nobody reads any more.
///
/// A run that has lost something writes a last line to `err`, also with status 0: `ripngd: lost sends N, lost steps M`, with
/// `, log failed` at its end if a write of the log failed.
///
/// `out` is flushed before a status of 0 or 1 is returned. A failure of `err` changes no status.
pub fn program<R: System, O: Write, E: Write>(
    rt: &R,
    words: &[&str],
    out: &mut O,
    err: &mut E,
) -> u8
    ensures done { result ≡ 0 → AnswersWords holds_any (map (λ w. w.now) words.now) true (O.contents out.old) (O.contents out.new)
        ⊎ AsksForHelp (map (λ w. w.now) words.now) }
    ensures refused { result ≡ 1
        → AnswersWords holds_any (map (λ w. w.now) words.now) false (O.contents out.old) (O.contents out.new) }
    ensures usage { result ≡ 2 → HaveFault (map (λ w. w.now) words.now) }
    ensures in_range { result ≤ 3 }
{
    let mut history = History::new();
    let status = match outcome(rt, &SystemFiles(rt), words, &mut history, out, err) {
        Ok(status) => status,
        Err(failure) => report(failure, out, err),
    };
    let _ = write_losses(history.lost(), err);
    let _ = err.flush();
    status as u8
}

/// Parses the words, and does what they ask for.
fn outcome<'a, R: System, F: FileSource, O: Write, E: Write>(
    rt: &R,
    files: &F,
    words: &'a [&'a str],
    history: &mut History,
    out: &mut O,
    err: &mut E,
) -> Result<Status, Failure<'a>>
    ensures done { result ≡ Ok Status.Done
        → AnswersWords (F.holds files.now) (map (λ w. w.now) words.now) true (O.contents out.old) (O.contents out.new)
        ⊎ AsksForHelp (map (λ w. w.now) words.now) }
    ensures refused { result ≡ Ok Status.Refused
        → AnswersWords (F.holds files.now) (map (λ w. w.now) words.now) false (O.contents out.old) (O.contents out.new) }
    ensures usage { result ≡ Ok Status.Usage → HaveFault (map (λ w. w.now) words.now) }
    ensures failed { IfErr result (FailsWords (map (λ w. w.now) words.entry.now)) }
{
    match ask(rt.alloc(), words) {
        Ok(job) => match misuse_of(job) {
            Some(why) => {
                let _ = err.write_all(why.as_bytes());
                Ok(Status::Usage)
            }
            None => answer(rt, files, job, history, out, err),
        },
        Err(error) => write_clap_text(&error, out, err),
    }
}

/// Does a job, and returns whether its input is accepted. A refused line of a script gets a hint on `err`.
fn accepts<'a, R: System, F: FileSource, O: Write, E: Write>(
    rt: &R,
    files: &F,
    job: Job<'a>,
    history: &mut History,
    out: &mut O,
    err: &mut E,
) -> Result<bool, Failure<'a>>
    requires { ¬ (IsMisused job) }
    ensures answered { IfOk result (λ accepted. AnswersJob (F.holds files.now) history.new job.entry accepted
        (O.contents out.old) (O.contents out.new)) }
    ensures failed { IfErr result (JobMayFail job.entry) }
{
    match job {
        Job::Ask(asked) => accepts_ask(rt, files, asked, history, out, err),
        Job::ShowCapture(file) => {
            let capture = files.read(file)?;
            Ok(show_capture(rt.alloc(), capture.as_slice(), out)?)
        }
        Job::LabCapture(capturing) => capture_file(rt, files, capturing, out, err),
        Job::LabNumbers(numbering) => number_file(rt.alloc(), files, numbering, out, err),
        Job::LabSeeds(asked) => sweep_file(rt.alloc(), files, asked, out, err),
    }
}

/// Runs the script of a file, writes its numbers by intervals, and returns whether every line was done.
fn number_file<'a, F: FileSource, O: Write, E: Write>(
    alloc: Global,
    files: &F,
    numbering: Numbering<'a>,
    out: &mut O,
    err: &mut E,
) -> Result<bool, Failure<'a>>
    requires { numbering.seconds ≢ None }
    ensures answered { IfOk result (λ accepted. AnswersNumbers (F.holds files.now) numbering.entry accepted
        (O.contents out.old) (O.contents out.new)) }
    ensures failed { IfErr result (JobMayFail (Job.LabNumbers numbering.entry)) }
{
    let Some(seconds) = numbering.seconds else {
        unreachable!()
    };
    let by_router = numbering.by.is_some();
    let script = files.read(numbering.script)?;
    Ok(numbers(alloc, script.as_slice(), seconds, by_router, out, err)?)
}

/// Runs the script of a file with one seed after another, writes the numbers of each run, and returns whether every line was done each
/// time.
fn sweep_file<'a, F: FileSource, O: Write, E: Write>(
    alloc: Global,
    files: &F,
    asked: Sweep<'a>,
    out: &mut O,
    err: &mut E,
) -> Result<bool, Failure<'a>>
    requires { asked.seeds ≢ None }
    ensures held { OnOk result ((script : List ℕ) × F.holds files.now asked.entry.script.now script) }
    ensures failed { IfErr result (JobMayFail (Job.LabSeeds asked.entry)) }
{
    let Some(seeds) = asked.seeds else {
        unreachable!()
    };
    let script = files.read(asked.script)?;
    Ok(sweep(alloc, script.as_slice(), seeds, out, err)?)
}

/// Runs the script of a file, writes what it prints, and then the file of its capture, and returns whether every line was done.
fn capture_file<'a, R: System, F: FileSource, O: Write, E: Write>(
    rt: &R,
    files: &F,
    capturing: Capturing<'a>,
    out: &mut O,
    err: &mut E,
) -> Result<bool, Failure<'a>>
    ensures held { OnOk result ((script : List ℕ) × F.holds files.now capturing.entry.script.now script) }
    ensures failed { IfErr result (JobMayFail (Job.LabCapture capturing.entry)) }
{
    let script = files.read(capturing.script)?;
    if is_same_file(rt, capturing.capture, capturing.script) {
        return Err(Failure::Log(capturing.capture, FileCause::Other));
    }
    let mut captured = Vec::new(rt.alloc());
    let done = capture(rt.alloc(), script.as_slice(), out, err, &mut captured)?;
    write_file(rt, capturing.capture, captured.as_slice())?;
    Ok(done)
}

/// Whether two names are of one regular file.
fn is_same_file<R: Files>(rt: &R, name: &str, other: &str) -> bool {
    match (fs::metadata(rt, name), fs::metadata(rt, other)) {
        (Ok(one), Ok(two)) => one.is_file() && one.dev() == two.dev() && one.ino() == two.ino(),
        _ => false,
    }
}

/// Writes a whole file.
fn write_file<'a, R: Files>(rt: &R, file: &'a str, bytes: &[u8]) -> Result<(), Failure<'a>>
    ensures { IfErr result (λ f. (f ≡ Failure.OutOfMemory) ⊎ ((cause : FileCause) × (f ≡ Failure.Log file.entry cause))) }
{
    match fs::write(rt, file, bytes) {
        Ok(()) => Ok(()),
        Err(error) => match error.kind() {
            io::ErrorKind::OutOfMemory => Err(Failure::OutOfMemory),
            kind => Err(Failure::Log(file, cause_of(kind))),
        },
    }
}

/// Why a file cannot be written.
fn cause_of(kind: io::ErrorKind) -> FileCause {
    match kind {
        io::ErrorKind::NotFound => FileCause::NotFound,
        io::ErrorKind::PermissionDenied => FileCause::NotPermitted,
        io::ErrorKind::IsADirectory => FileCause::IsDirectory,
        io::ErrorKind::StorageFull => FileCause::Full,
        _ => FileCause::Other,
    }
}

/// Runs a subcommand without a capture.
fn accepts_ask<'a, R: System, F: FileSource, O: Write, E: Write>(
    rt: &R,
    files: &F,
    asked: Ask<'a>,
    history: &mut History,
    out: &mut O,
    err: &mut E,
) -> Result<bool, Failure<'a>>
    ensures answered { IfOk result (λ accepted. AnswersAsk (F.holds files.now) history.new asked.entry accepted
        (O.contents out.old) (O.contents out.new)) }
    ensures failed { IfErr result (MayFail asked.entry) }
{
    match asked {
        Ask::Show(hex) => Ok(show(rt.alloc(), hex, out)?),
        Ask::Check(file) => check_file(rt.alloc(), files, file, out, err),
        Ask::Lab(file) => {
            let script = files.read(file)?;
            let done = ripng_lab::lab_hinted(rt.alloc(), script.as_slice(), out, err);
            Ok(done.map_err(PrintFault::from)?)
        }
        Ask::Mark(marking) => mark_files(rt.alloc(), files, marking, out, err),
        Ask::Trace(file) => Ok(trace(rt.alloc(), files.read(file)?.as_slice(), out)?),
        Ask::Explain(file) => Ok(explain(rt.alloc(), files.read(file)?.as_slice(), false, out)?),
        Ask::Changes(file) => Ok(explain(rt.alloc(), files.read(file)?.as_slice(), true, out)?),
        Ask::Run(order) => run(rt, files, order, history, out, err),
        Ask::Ctl(question) => ctl(rt, question, out),
        Ask::Table(file) => table_file(rt.alloc(), files, file, out),
    }
}

/// Marks the script of a file, against the exercise of another if there is one, and returns whether it passes.
fn mark_files<'a, F: FileSource, O: Write, E: Write>(
    alloc: Global,
    files: &F,
    marking: Marking<'a>,
    out: &mut O,
    err: &mut E,
) -> Result<bool, Failure<'a>>
    ensures held { OnOk result (AreHeld (F.holds files.now) marking.entry) }
    ensures failed { IfErr result (MayFail (Ask.Mark marking.entry)) }
{
    let script = files.read(marking.script)?;
    let exercise = match marking.exercise {
        Some(file) => Some(files.read(file)?),
        None => None,
    };
    let exercise = exercise.as_ref().map(|exercise| exercise.as_slice());
    Ok(mark(alloc, script.as_slice(), exercise, marking.counts, out, err)?)
}

/// Does a job, and flushes its output.
fn answer<'a, R: System, F: FileSource, O: Write, E: Write>(
    rt: &R,
    files: &F,
    job: Job<'a>,
    history: &mut History,
    out: &mut O,
    err: &mut E,
) -> Result<Status, Failure<'a>>
    requires { ¬ (IsMisused job) }
    ensures done { result ≡ Ok Status.Done
        → AnswersJob (F.holds files.now) history.new job.entry true (O.contents out.old) (O.contents out.new) }
    ensures refused { result ≡ Ok Status.Refused
        → AnswersJob (F.holds files.now) history.new job.entry false (O.contents out.old) (O.contents out.new) }
    ensures no_usage { result ≢ Ok Status.Usage }
    ensures failed { IfErr result (JobMayFail job.entry) }
{
    let accepted = accepts(rt, files, job, history, out, err)?;
    out.flush().map_err(|_| Failure::Output)?;
    if accepted {
        Ok(Status::Done)
    } else {
        Ok(Status::Refused)
    }
}

/// Writes the text of clap: help or the version to `out`, a usage error to `err`.
fn write_clap_text<'a, O: Write, E: Write>(
    error: &clap::Error,
    out: &mut O,
    err: &mut E,
) -> Result<Status, Failure<'a>>
    ensures done { result ≡ Ok Status.Done
        → (kind_of error.now ≡ ErrorKind.DisplayHelp) ⊎ (kind_of error.now ≡ ErrorKind.DisplayVersion) }
    ensures usage { result ≡ Ok Status.Usage → kind_of error.now ≢ ErrorKind.OutOfMemory }
    ensures not_refused { result ≢ Ok Status.Refused }
    ensures failed { IfErr result (λ f. (f ≡ Failure.OutOfMemory) ⊎ (f ≡ Failure.Output)) }
{
    match error.kind() {
        ErrorKind::OutOfMemory => Err(Failure::OutOfMemory),
        ErrorKind::DisplayHelp | ErrorKind::DisplayVersion => {
            write!(out, "{error}").map_err(|_| Failure::Output)?;
            out.flush().map_err(|_| Failure::Output)?;
            Ok(Status::Done)
        }
        _ => {
            let _ = write!(err, "{error}");
            Ok(Status::Usage)
        }
    }
}

/// Writes a failure to `err`, unless it is that nobody reads `out` any more, and returns its status.
fn report<O: Write, E: Write>(failure: Failure<'_>, out: &mut O, err: &mut E) -> Status
    ensures { result ≡ Status.Failed }
{
    let is_left = matches!(failure, Failure::Output)
        && matches!(out.flush(), Err(error) if error.kind() == io::ErrorKind::BrokenPipe);
    if !is_left {
        let _ = write_failure(failure, err);
    }
    Status::Failed
}
