//! What becomes of packets for an address, after each thing that a script does.

ghost use Rattle.std.specs.Prelude.{◌≡◌, ◌≤◌, ℕ, [], Ok, Some, false, length, take, true};
ghost use Rattle.prefix6.specs.Common.{ParsesAddr};
ghost use Rattle.ripng_lab_fates.specs.Telling.{AreFates};

use crate::hand_over;
use prefix6::parse_addr;
use ripng_lab_fates::fates;
use std::alloc::Global;
use std::str;

/// How a call ends, as a number, where the text is no address.
const NO_ADDRESS: u32 = 4;

/// Runs a script and writes to the front of `out`, whose length is put in `written`, what becomes of packets for an address after each
/// thing that the script does: the lines of [`ripng_lab_fates::fates`]. The address is a text. Answers as [`crate::lab_page_trace`] does,
/// and 4 where the text is no address.
#[unsafe(no_mangle)]
pub extern "C" fn lab_page_fates(
    alloc: Global,
    script: &[u8],
    address: &[u8],
    out: &mut [u8],
    written: &mut usize,
) -> u32
    ensures status { result ≤ 4 }
    ensures fits { result ≤ 1 → written.new ≤ length out.new }
    ensures done { result ≡ 0 → (addr : ℕ) × ParsesAddr address.now (Ok addr) × AreFates script.now addr true (Some []) (Some (take written.new out.new)) }
    ensures refused { result ≡ 1 → (addr : ℕ) × ParsesAddr address.now (Ok addr) × AreFates script.now addr false (Some []) (Some (take written.new out.new)) }
{
    let Ok(text) = str::from_utf8(address) else {
        return NO_ADDRESS;
    };
    let Ok(addr) = parse_addr(text) else {
        return NO_ADDRESS;
    };
    let mut lines = Vec::new(alloc);
    let ended = fates(alloc, script, addr, &mut lines);
    hand_over(ended, lines.as_slice(), out, written) as u32
}
