//! Why a capture cannot be read, or not further.

ghost use Rattle.std.specs.Prelude.{◌≡◌, Some};
ghost use Rattle.ripng_capture.specs.Damaged.{capture_error_text, damage_text};

use std::error::Error;
use std::fmt::{self, Display};

/// What is wrong with the bytes of a capture.
#[derive(Clone, Copy, Debug, PartialEq, Eq)]
pub enum Damage {
    /// It begins neither as a file of pcap nor as one of pcapng.
    NotACapture,
    /// Its version is none that is known: 2 of pcap, and 1 of pcapng.
    BadVersion,
    /// A section of pcapng begins without the number that shows its byte order.
    BadByteOrder,
    /// It ends before a block, or the record of a packet, does. The program that wrote it may have been stopped.
    Cut,
    /// The length of a block is no multiple of 4, or leaves no room for what the block has to hold.
    BadLength,
    /// The two lengths of a block differ.
    LengthsDiffer,
    /// A packet is of an interface that no block before it describes.
    NoSuchInterface,
    /// The times of an interface are finer than nanoseconds.
    TooFine,
}

impl Damage {
    /// What is wrong, in words.
    pub fn text(self) -> &'static str
        ensures { result.now ≡ damage_text self }
    {
        match self {
            Damage::NotACapture => "it is no file of pcap or pcapng",
            Damage::BadVersion => "its version is not known",
            Damage::BadByteOrder => "the byte order of a section is not known",
            Damage::Cut => "it ends before what begins here does",
            Damage::BadLength => "the length of a block is wrong",
            Damage::LengthsDiffer => "the two lengths of a block differ",
            Damage::NoSuchInterface => "a packet is of an interface that is not described",
            Damage::TooFine => "the times of an interface are finer than nanoseconds",
        }
    }
}

/// Why a capture is read no further.
#[derive(Clone, Copy, Debug, PartialEq, Eq)]
pub enum CaptureError {
    /// Out of memory.
    OutOfMemory,
    /// It is damaged.
    Damaged {
        /// Where the block or the record begins that cannot be read: bytes from the beginning of the file.
        at: usize,
        /// What is wrong with it.
        damage: Damage,
    },
}

/// `damaged at byte N: ` and what is wrong.
impl Display for CaptureError {
    ghost output = { λ e. Some (capture_error_text e) };

    fn fmt<W: fmt::Write>(&self, f: &mut fmt::Formatter<W>) -> fmt::Result {
        match self {
            CaptureError::OutOfMemory => write!(f, "out of memory"),
            CaptureError::Damaged { at, damage } => {
                write!(f, "damaged at byte {at}: {}", damage.text())
            }
        }
    }
}

impl Error for CaptureError {}
