//! The files that the program reads.

ghost use Rattle.std.specs.Prelude.{◌≡◌, ◌⊎◌, IfErr, IfOk, List, ℕ, ⊤};
ghost use Rattle.ripngd_daemon.specs.Common.{FileCause};

use crate::failure::{Failure, FileCause, failed};
use std::fs;
use std::rt::Files;

/// Where files are read from.
pub trait FileSource {
    // The file of this name may have this content.
    ghost holds: { Self → List ℕ → List ℕ → Type 0 };

    /// The content of a file.
    ///
    /// # Errors
    /// `Read` with its name and the cause; `OutOfMemory`.
    fn read<'a>(&self, file: &'a str) -> Result<Vec<u8>, Failure<'a>>
        ensures text { IfOk result (λ text. holds self.now file.entry.now text.items) }
        ensures failed { IfErr result (λ f. (f ≡ Failure.OutOfMemory) ⊎ ((cause : FileCause) × (f ≡ Failure.Read file.entry cause))) };
}

/// The files of the system. Contracts know nothing of their content.
#[derive(Drop)]
pub struct SystemFiles<'r, R>(pub &'r R);

impl<R: AllocGlobal + Files> FileSource for SystemFiles<'_, R> {
    ghost holds = { λ _ _ _. ⊤ };

    fn read<'a>(&self, file: &'a str) -> Result<Vec<u8>, Failure<'a>> {
        fs::read(self.0, file).map_err(|error| failed(
            Failure::Read(file, FileCause::of(&error)),
            &error,
        ))
    }
}
