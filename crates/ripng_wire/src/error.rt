//! Why bytes are refused as a datagram.

ghost use Rattle.std.specs.Prelude.{◌≡◌, Some};
ghost use Rattle.ripng_wire.specs.Wire.{wire_error_name, wire_error_number, wire_error_text};

use std::error::Error;
use std::fmt::{self, Display};

/// Why bytes are refused as a datagram: the first reason that applies, in this order. A usual cause is a program that is not
/// RIPng at the same port, or a router whose packets are truncated: look at the sender.
#[derive(Clone, Copy, Debug, PartialEq, Eq, Hash)]
pub enum WireError {
    /// Fewer than 4 bytes, the length of the header.
    Short = 1,
    /// More than 65,524 bytes, the length of a datagram with [`MAX_ENTRIES`](crate::MAX_ENTRIES) entries.
    TooLong = 2,
    /// The bytes after the header are not a whole number of entries.
    Ragged = 3,
    /// The command is neither 1, of a Request, nor 2, of a Response.
    BadCommand = 4,
    /// The version is not 1.
    BadVersion = 5,
    /// One of the two bytes that must be zero is not.
    NotZero = 6,
}

impl WireError {
    /// The number of the refusal, 1 to 6.
    pub fn number(self) -> u8
        ensures { result ≡ wire_error_number self }
    {
        self as u8
    }

    /// The name of the refusal, one word.
    pub fn name(self) -> &'static str
        ensures { result.now ≡ wire_error_name self }
    {
        match self {
            WireError::Short => "Short",
            WireError::TooLong => "TooLong",
            WireError::Ragged => "Ragged",
            WireError::BadCommand => "BadCommand",
            WireError::BadVersion => "BadVersion",
            WireError::NotZero => "NotZero",
        }
    }
}

/// `NUMBER NAME`, as it is printed.
impl Display for WireError {
    ghost output = { λ e. Some (wire_error_text e) };

    fn fmt<W: fmt::Write>(&self, f: &mut fmt::Formatter<W>) -> fmt::Result {
        write!(f, "{} {}", self.number(), self.name())
    }
}

impl Error for WireError {}
