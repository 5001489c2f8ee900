//! The control socket and its file: how it is made, who may connect, and how it is removed.

ghost use Rattle.std.specs.Prelude.{◌↔◌, IsTrue};
ghost use Rattle.ripngd_control.specs.Common.{IsPrivate};

use std::fs::{self, Metadata};
use std::io::ErrorKind;
use std::net::Net;
use std::os::fd::{AsRawFd, RawFd};
use std::os::unix::fs::{FileTypeExt, MetadataExt};
use std::os::unix::net::{UnixListener, UnixStream};
use std::rt::Files;

/// Why a router cannot listen.
#[derive(Clone, Copy, Debug, PartialEq, Eq)]
pub enum ListenFault {
    /// A program answers at the path, often another router: stop it, or choose another path.
    Taken,
    /// Other users may write to the file, and so connect. Start under `umask 077`.
    Shared,
    /// The socket cannot be created: its directory is missing or not writable, or the path is that of another file.
    Failed,
}

/// A socket that listens, and the identity of its file.
#[derive(Drop)]
pub(crate) struct ControlSocket {
    listener: UnixListener,
    file: Metadata,
}

/// Whether only its owner may write to a file of this mode.
fn is_private(mode: u32) -> bool
    ensures { IsTrue result ↔ IsPrivate mode }
{
    (mode / 16) % 2 == 0 && (mode / 2) % 2 == 0
}

/// Removes a file, if it is this one.
fn remove<R: Files>(rt: &R, path: &str, file: &Metadata) {
    if let Ok(about) = fs::symlink_metadata(rt, path) {
        if about.dev() == file.dev() && about.ino() == file.ino() {
            let _ = fs::remove_file(rt, path);
        }
    }
}

/// Removes the file of a socket on which no router listens. Anything else at the path is left.
///
/// # Errors
/// `Taken` where somebody answers; `Failed` where that cannot be found out.
fn remove_stale<R: Files + Net>(rt: &R, path: &str) -> Result<(), ListenFault> {
    let about = match fs::symlink_metadata(rt, path) {
        Ok(about) if about.file_type().is_socket() => about,
        _ => return Ok(()),
    };
    match UnixStream::connect(rt, path) {
        Ok(_) => Err(ListenFault::Taken),
        Err(error) if error.kind() == ErrorKind::ConnectionRefused => {
            remove(rt, path, &about);
            Ok(())
        }
        Err(_) => Err(ListenFault::Failed),
    }
}

impl ControlSocket {
    /// Listens at a path. The socket of a router that has ended is replaced.
    ///
    /// # Errors
    /// `Taken` where somebody answers there; `Shared`, and the file is removed again; `Failed`, for instance where another file is there.
    pub(crate) fn open<R: Files + Net>(rt: &R, path: &str) -> Result<ControlSocket, ListenFault> {
        remove_stale(rt, path)?;
        let listener = UnixListener::bind(rt, path).map_err(|_| ListenFault::Failed)?;
        listener
            .set_nonblocking(true)
            .map_err(|_| ListenFault::Failed)?;
        let file = fs::symlink_metadata(rt, path).map_err(|_| ListenFault::Failed)?;
        if !is_private(file.mode()) {
            remove(rt, path, &file);
            return Err(ListenFault::Shared);
        }
        Ok(ControlSocket { listener, file })
    }

    /// The descriptor at which clients are seen to connect.
    pub(crate) fn fd(&self) -> RawFd {
        self.listener.as_raw_fd()
    }

    /// A client that waits to connect, if there is one, as a stream whose calls never wait.
    pub(crate) fn accept(&self) -> Option<UnixStream> {
        let (stream, _) = self.listener.accept().ok()?;
        stream.set_nonblocking(true).ok()?;
        Some(stream)
    }

    /// Stops listening, and removes the file if it is still the one that was made.
    pub(crate) fn close<R: Files>(self, rt: &R, path: &str) {
        remove(rt, path, &self.file);
    }
}
