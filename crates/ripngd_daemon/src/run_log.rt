//! The log of a run: a file, standard output, or nothing. A file is always written at its end, even if others truncate it, and is
//! locked while it is open.

ghost use Rattle.std.specs.Prelude.{◌≡◌, ◌≢◌, ◌⊎◌, ◌++◌, [], IfErr, IfOk, OnOk, Some, option_map};
ghost use Rattle.ripngd_daemon.specs.Common.{MayFail, begins_with, FileCause};

use crate::failure::{Failure, FileCause, failed};
use ripngd_command_line::{Ask, Order};
use ripngd_engine::{Entry, Transcript};
use std::fs::{self, File, OpenOptions, TryLockError};
use std::io::{self, Print, Write};
use std::os::unix::fs::MetadataExt;
use std::rt::Files;

/// Where the log goes.
#[derive(Drop)]
enum Target<'r, R> {
    /// No log is ordered: the first write fails, so the engine formats no more lines.
    Nowhere,
    /// Standard output, without a buffer.
    Output(&'r R),
    File(File),
}

/// The log of a run, which gets a line for each change of a route.
#[derive(Drop)]
pub(crate) struct RunLog<'r, R> {
    target: Target<'r, R>,
    pub(crate) written: Transcript,
}

/// Whether two names are of one regular file.
fn is_same_file<R: Files>(rt: &R, name: &str, other: &str) -> bool {
    match (fs::metadata(rt, name), fs::metadata(rt, other)) {
        (Ok(one), Ok(two)) => one.is_file() && one.dev() == two.dev() && one.ino() == two.ino(),
        _ => false,
    }
}

/// Refuses a log that is the file of the configuration, under this or another name.
///
/// # Errors
/// `Log` with the name of the log.
pub(crate) fn refuse_own_config<'a, R: Files>(rt: &R, order: Order<'a>) -> Result<(), Failure<'a>>
    ensures own { IfOk result (λ _. option_map (λ s. s.now) order.entry.log ≢ Some order.entry.config.now) }
    ensures failed { IfErr result (MayFail (Ask.Run order.entry)) }
{
    match order.log {
        Some(file) if file == order.config || is_same_file(rt, file, order.config) => {
            Err(Failure::Log(file, FileCause::IsConfig))
        }
        _ => Ok(()),
    }
}

/// Locks a file, and returns whether another program holds its lock. Only regular files are locked, and only where the system has
/// locks.
fn is_held(lines: &File) -> bool {
    let is_file = matches!(lines.metadata(), Ok(about) if about.is_file());
    is_file && matches!(lines.try_lock(), Err(TryLockError::WouldBlock))
}

/// The failure of a log that cannot be opened or written.
fn cannot_write<'a>(file: &'a str, error: &io::Error) -> Failure<'a>
    ensures { (result ≡ Failure.OutOfMemory) ⊎ ((cause : FileCause) × (result ≡ Failure.Log file.entry cause)) }
{
    failed(Failure::Log(file, FileCause::of(error)), error)
}

impl<R> Target<'_, R> {
    /// Empties a regular file. Devices and pipes have nothing to empty.
    fn empty(&mut self) -> io::Result<()> {
        match self {
            Target::File(file) if file.metadata()?.is_file() => file.set_len(0),
            _ => Ok(()),
        }
    }
}

impl<R: Print> Write for RunLog<'_, R> {
    ghost contents = { λ log. Some log.written.past.bytes };

    fn write(&mut self, buf: &[u8]) -> io::Result<usize> {
        let taken = match &mut self.target {
            Target::Nowhere => return Err(io::Error::from(io::ErrorKind::WriteZero)),
            Target::Output(rt) => rt.write_some(buf)?,
            Target::File(file) => file.write(buf)?,
        };
        self.written = Transcript::of(&Entry::Wrote(&self.written, &buf[..taken]));
        Ok(taken)
    }

    fn flush(&mut self) -> io::Result<()> {
        Ok(())
    }
}

impl<'r, R: Files<File = File> + Print> RunLog<'r, R> {
    /// Opens the log that is ordered, and does not change it. A file is opened for writing at its end, and locked until it is closed; it
    /// is created if it does not exist.
    ///
    /// # Errors
    /// `Log` with its name, if it cannot be opened or another program holds its lock; `OutOfMemory`.
    pub(crate) fn open<'a>(rt: &'r R, order: Order<'a>) -> Result<RunLog<'r, R>, Failure<'a>>
        ensures untouched { IfOk result (λ log. log.written.past.bytes ≡ []) }
        ensures failed { IfErr result (MayFail (Ask.Run order.entry)) }
    {
        let target = match order.log {
            None => Target::Nowhere,
            Some("-") => Target::Output(rt),
            Some(file) => {
                let lines = OpenOptions::new()
                    .append(true)
                    .create(true)
                    .open(rt, file)
                    .map_err(|error| cannot_write(file, &error))?;
                if is_held(&lines) {
                    return Err(Failure::Log(file, FileCause::InUse));
                }
                Target::File(lines)
            }
        };
        Ok(RunLog {
            target,
            written: Transcript::of(&Entry::Nothing),
        })
    }

    /// Begins the log: empties it, or with `--append` adds a line `start` at its end, after a line feed in case its last line was cut
    /// off.
    ///
    /// # Errors
    /// `Log` with its name, if it cannot be emptied or written; `OutOfMemory`.
    pub(crate) fn begin<'a>(&mut self, order: Order<'a>) -> Result<(), Failure<'a>>
        ensures begun { OnOk result (self.new.written.past.bytes ≡ self.old.written.past.bytes ++ begins_with order.entry.log order.entry.append) }
        ensures failed { IfErr result (MayFail (Ask.Run order.entry)) }
    {
        let Some(file) = order.log else {
            return Ok(());
        };
        let begun = match order.append {
            true => self.write_all(b"\nstart\n"),
            false => self.target.empty(),
        };
        begun.map_err(|error| cannot_write(file, &error))
    }
}
