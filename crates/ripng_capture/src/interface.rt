//! The interfaces of a capture, and the times of its packets.

ghost use Rattle.std.specs.Prelude.{◌<◌, IfSome};

use std::fmt::{self, Display};

/// What the frames of an interface begin with: the link types that are read, of the registry of tcpdump.org.
#[derive(Clone, Copy, PartialEq, Eq)]
pub enum LinkType {
    /// The header of Ethernet, with a tag of a VLAN or without.
    Ethernet,
    /// The header of IPv4 or IPv6.
    Ip,
    /// The header that Linux gives what is captured at all interfaces.
    Cooked,
    /// Its second version.
    CookedV2,
    /// Something else, by its number.
    Other(u16),
}

impl LinkType {
    /// The link type of a number.
    pub fn of(number: u16) -> LinkType {
        match number {
            1 => LinkType::Ethernet,
            // 12 and 14 stand for the same in files of some systems.
            12 | 14 | 101 | 229 => LinkType::Ip,
            113 => LinkType::Cooked,
            276 => LinkType::CookedV2,
            _ => LinkType::Other(number),
        }
    }
}

/// A time, since the beginning of 1970 (UTC).
#[derive(Clone, Copy, PartialEq, Eq)]
pub struct Timestamp {
    /// Whole seconds.
    pub seconds: u64,
    /// The rest.
    pub nanoseconds: u32,
}

/// Seconds, with nine digits behind the point.
impl Display for Timestamp {
    fn fmt<W: fmt::Write>(&self, f: &mut fmt::Formatter<W>) -> fmt::Result {
        write!(f, "{}.{:09}", self.seconds, self.nanoseconds)
    }
}

/// An interface of a capture.
#[derive(Clone, Copy)]
pub struct Interface<'a> {
    /// What its frames begin with.
    pub link_type: LinkType,
    /// Its name, if the file has it. It may have any bytes.
    pub name: Option<&'a [u8]>,
    /// How many units of time its packets count for a second.
    pub(crate) units: u32,
    ghost some: { 0 < units },
}

impl<'a> Interface<'a> {
    /// The time that is so many units.
    pub(crate) fn time(&self, count: u64) -> Timestamp {
        let units = u64::from(self.units);
        Timestamp {
            seconds: count / units,
            nanoseconds: (count % units * 1_000_000_000 / units) as u32,
        }
    }
}

/// How many units of time make a second, by the byte of a file: a power of ten, or of two if the highest bit is set. None if they are
/// finer than nanoseconds.
pub(crate) fn units_of(resolution: u8) -> Option<u32>
    ensures { IfSome result (λ units. 0 < units) }
{
    match resolution {
        0..=9 => 10u32.checked_pow(u32::from(resolution)),
        0x80..=0x9d => 2u32.checked_pow(u32::from(resolution - 0x80)),
        _ => None,
    }
}
