//! Failures outside the program, and their messages.

ghost use Rattle.std.specs.Prelude.{◌≡◌, ◌≢◌, ◌⊎◌, ◌↔◌, OnOk, Some};
ghost use Rattle.ripngd_daemon.specs.Common.{Appends, error_kind, failure_of, failure_of_engine, failure_of_link, cause_text, failure_line, failure_text, file_cause_text, socket_text, why_text};

use ripng_show::PrintFault;
use ripngd_control::ListenFault;
use ripngd_engine::{EngineFault, Socket};
use ripngd_udp::{BindCause, UdpError};
use std::fmt::{self, Display};
use std::io::{self, ErrorKind, Write};

/// Why a file cannot be read or written.
#[derive(Clone, Copy, Debug, PartialEq, Eq)]
pub enum FileCause {
    /// It does not exist, or its directory does not.
    NotFound,
    /// Not permitted.
    NotPermitted,
    /// It is a directory.
    IsDirectory,
    /// There is no space left on the device.
    Full,
    /// Another program has locked it, often another router with the same log.
    InUse,
    /// It is the configuration.
    IsConfig,
    /// Any other reason.
    Other,
}

impl FileCause {
    /// The cause that an error of the system names.
    pub(crate) fn of(error: &io::Error) -> FileCause
        ensures found { (result ≡ FileCause.NotFound) ↔ (error_kind error.now ≡ ErrorKind.NotFound) }
        ensures permission { (result ≡ FileCause.NotPermitted) ↔ (error_kind error.now ≡ ErrorKind.PermissionDenied) }
        ensures directory { (result ≡ FileCause.IsDirectory) ↔ (error_kind error.now ≡ ErrorKind.IsADirectory) }
        ensures space { (result ≡ FileCause.Full) ↔ (error_kind error.now ≡ ErrorKind.StorageFull) }
    {
        match error.kind() {
            ErrorKind::NotFound => FileCause::NotFound,
            ErrorKind::PermissionDenied => FileCause::NotPermitted,
            ErrorKind::IsADirectory => FileCause::IsDirectory,
            ErrorKind::StorageFull => FileCause::Full,
            _ => FileCause::Other,
        }
    }

    /// The text after the name of the file.
    fn text(self) -> &'static str
        ensures { result.now ≡ file_cause_text self }
    {
        match self {
            FileCause::NotFound => ": not found",
            FileCause::NotPermitted => ": not permitted",
            FileCause::IsDirectory => ": is a directory",
            FileCause::Full => ": no space left",
            FileCause::InUse => ": in use",
            FileCause::IsConfig => ": is the configuration",
            FileCause::Other => "",
        }
    }
}

/// What failed outside the program: a file, a path, a port, a socket, or memory.
#[derive(Clone, Copy, Debug, PartialEq, Eq)]
pub enum Failure<'a> {
    /// A file cannot be read.
    Read(&'a str, FileCause),
    /// The file of the log cannot be created or written.
    Log(&'a str, FileCause),
    /// Standard output failed.
    Output,
    /// A port of 127.0.0.1 cannot be bound, or sockets that were to be inherited are not there.
    Bind(Socket, BindCause),
    /// A router cannot listen at a path.
    Listen(&'a str, ListenFault),
    /// No router listens at a path.
    Ask(&'a str),
    /// The router at a path gives no complete answer.
    Answer(&'a str),
    /// A socket failed, after this many turns.
    Link(u32),
    /// There was not enough memory.
    OutOfMemory,
}

/// Why a router cannot listen, as text after the path.
fn why_text(why: ListenFault) -> &'static str
    ensures { result.now ≡ why_text why }
{
    match why {
        ListenFault::Taken => ": somebody answers there",
        ListenFault::Shared => ": others may write to it; start under umask 077",
        ListenFault::Failed => "",
    }
}

/// Why a port cannot be bound, as text after the port.
fn cause_text(cause: BindCause) -> &'static str
    ensures { result.now ≡ cause_text cause }
{
    match cause {
        BindCause::NotPermitted => ": not permitted",
        BindCause::InUse => ": in use",
        BindCause::Other => "",
    }
}

/// That a socket cannot be had, with its port, or with the number of the first socket of a real link.
#[derive(Clone, Copy)]
struct SocketText(Socket);

impl Display for SocketText {
    ghost output = { λ s. Some (socket_text s.0) };

    fn fmt<W: fmt::Write>(&self, f: &mut fmt::Formatter<W>) -> fmt::Result {
        match self.0 {
            Socket::Local { port, .. } => write!(f, "cannot bind {port}"),
            Socket::Inherited { alone, .. } => {
                write!(
                    f,
                    "no sockets of port 521 at descriptor {alone} and those with it"
                )
            }
        }
    }
}

impl Display for Failure<'_> {
    ghost output = { λ failure. Some (failure_text failure) };

    fn fmt<W: fmt::Write>(&self, f: &mut fmt::Formatter<W>) -> fmt::Result {
        match *self {
            Failure::Read(file, cause) => write!(f, "cannot read {file}{}", cause.text()),
            Failure::Log(file, cause) => write!(f, "cannot write {file}{}", cause.text()),
            Failure::Output => write!(f, "cannot write stdout"),
            Failure::Bind(socket, cause) => write!(
                f,
                "{}{}",
                SocketText(socket),
                cause_text(cause)
            ),
            Failure::Listen(path, why) => write!(f, "cannot listen at {path}{}", why_text(why)),
            Failure::Ask(path) => write!(f, "nobody listens at {path}"),
            Failure::Answer(path) => write!(f, "no whole answer from {path}"),
            Failure::Link(done) => write!(f, "link fault after {done} turns"),
            Failure::OutOfMemory => write!(f, "out of memory"),
        }
    }
}

/// Writes what failed, as `ripngd: cannot read FILE: not found`.
pub fn write_failure<W: Write>(failure: Failure<'_>, err: &mut W) -> io::Result<()>
    ensures { OnOk result (Appends (W.contents err.old) (W.contents err.new) (failure_line failure.entry)) }
{
    writeln!(err, "ripngd: {failure}")
}

/// The failure for an error of the system: out of memory, or else what was tried.
pub(crate) fn failed<'a>(tried: Failure<'a>, error: &io::Error) -> Failure<'a>
    ensures memory { error_kind error.now ≡ ErrorKind.OutOfMemory → result ≡ Failure.OutOfMemory }
    ensures other { error_kind error.now ≢ ErrorKind.OutOfMemory → result ≡ tried.entry }
    ensures either { (result ≡ Failure.OutOfMemory) ⊎ (result ≡ tried.entry) }
{
    match error.kind() {
        ErrorKind::OutOfMemory => Failure::OutOfMemory,
        _ => tried,
    }
}

impl From<PrintFault> for Failure<'_> {
    ghost from_gives = { λ fault failure. failure ≡ failure_of fault };

    fn from(fault: PrintFault) -> Self {
        match fault {
            PrintFault::OutOfMemory => Failure::OutOfMemory,
            PrintFault::Write => Failure::Output,
        }
    }
}

impl From<EngineFault> for Failure<'_> {
    ghost from_gives = { λ fault failure. failure ≡ failure_of_engine fault };

    fn from(fault: EngineFault) -> Self {
        match fault {
            EngineFault::LinkFault { done } => Failure::Link(done),
            EngineFault::OutOfMemory => Failure::OutOfMemory,
        }
    }
}

impl From<UdpError> for Failure<'_> {
    ghost from_gives = { λ fault failure. failure ≡ failure_of_link fault };

    fn from(fault: UdpError) -> Self {
        match fault {
            UdpError::Bind { socket, cause } => Failure::Bind(socket, cause),
            UdpError::OutOfMemory => Failure::OutOfMemory,
        }
    }
}
