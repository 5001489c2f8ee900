//! Why a command that prints stopped.

ghost use Rattle.std.specs.Prelude.{◌≡◌, ◌≢◌};
ghost use Rattle.std.specs.IoError.{error_kind};
ghost use Rattle.std.specs.declared.io.ErrorKind.TheVariants as kinds;
ghost use Rattle.ripng_show.specs.declared.print_fault.PrintFault.TheVariants as gives;

use std::io::{self, ErrorKind};
use thiserror::Error;

/// Why [`show`](crate::show), or another command that prints, stopped.
#[derive(Clone, Copy, Debug, PartialEq, Eq, Error)]
pub enum PrintFault {
    /// Out of memory.
    #[error("out of memory")]
    OutOfMemory,
    /// The writer failed: look at the file or the pipe. Some of the text may have been written.
    #[error("cannot write")]
    Write,
}

/// Out of memory, or another fault of the writer.
impl From<io::Error> for PrintFault {
    ghost from_gives = { λ error fault. (error_kind error ≡ kinds.OutOfMemory → fault ≡ gives.OutOfMemory)
        × (error_kind error ≢ kinds.OutOfMemory → fault ≡ gives.Write) };

    fn from(error: io::Error) -> PrintFault {
        match error.kind() {
            ErrorKind::OutOfMemory => PrintFault::OutOfMemory,
            _ => PrintFault::Write,
        }
    }
}
