//! The beginning of a capture, which shows its form.

ghost use Rattle.std.specs.Prelude.{◌≡◌, ◌≤◌, IfOk, length};
ghost use Rattle.std.specs.Result.{result_err};
ghost use Rattle.ripng_capture.specs.Layout.{beginning_fault};

use crate::blocks::SECTION;
use crate::damage::Damage;
use crate::interface::{Interface, LinkType};
use crate::number::Endianness;

/// A file of pcap begins with this number if its times are in microseconds.
const MICROSECONDS: u32 = 0xa1b2_c3d4;

/// A file of pcap begins with this number if its times are in nanoseconds.
const NANOSECONDS: u32 = 0xa1b2_3c4d;

/// The bytes before the first record of a file of pcap.
const HEADER_LEN: usize = 24;

/// The form of a capture.
#[derive(Clone, Copy)]
pub(crate) enum Form<'a> {
    /// One interface, and then a record for each packet. All numbers have this order.
    Pcap(Endianness, Interface<'a>),
    /// Blocks, whose sections have orders of their own.
    Pcapng,
}

/// The form of a file, and how many bytes of a header it begins with.
pub(crate) fn beginning_of(file: &[u8]) -> Result<(Form<'_>, usize), Damage>
    ensures fault { result_err result ≡ beginning_fault file.now }
    ensures header { IfOk result (λ parts. parts.1 ≤ length file.now) }
{
    if file.len() < 4 {
        return Err(Damage::NotACapture);
    }
    let big = Endianness::Big.u32(file);
    if big == SECTION {
        return Ok((Form::Pcapng, 0));
    }
    let order = if big == MICROSECONDS || big == NANOSECONDS {
        Endianness::Big
    } else {
        Endianness::Little
    };
    let units = match order.u32(file) {
        MICROSECONDS => 1_000_000,
        NANOSECONDS => 1_000_000_000,
        _ => return Err(Damage::NotACapture),
    };
    if file.len() < HEADER_LEN {
        return Err(Damage::Cut);
    }
    if order.u16(&file[4..]) != 2 {
        return Err(Damage::BadVersion);
    }
    // The bits above the lowest 16 say whether frames have a checksum at their end.
    let link_type = LinkType::of((order.u32(&file[20..]) % 65_536) as u16);
    let interface = Interface {
        link_type,
        name: None,
        units,
    };
    Ok((Form::Pcap(order, interface), HEADER_LEN))
}
