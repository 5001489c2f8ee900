//! The checksum of UDP over IPv6 (RFC 8200, section 8.1; RFC 1071).

ghost use Rattle.std.specs.Prelude.{◌≡◌, ◌≤◌, ◌<◌, ◌^◌, length};
ghost use Rattle.ripng_capture.specs.Checksum.{checksum_of, word_sum};

use crate::number::{behind, u16_at};

/// The checksum of some bytes.
pub(crate) fn checksum(bytes: &[u8]) -> u16
    requires { length bytes.now < 2 ^ 32 }
    ensures { result ≡ checksum_of bytes.now }
{
    (65_535 - sum_of_words(bytes) % 65_535) as u16
}

/// The sum of the 16-bit words of some bytes.
#[tactic(auto, using(crate::proofs::Words::word_sum_step, crate::proofs::Words::word_sum_one, crate::proofs::Words::word_sum_none))]
fn sum_of_words(bytes: &[u8]) -> u64
    requires { length bytes.now < 2 ^ 32 }
    ensures { result ≡ word_sum bytes.now }
{
    let mut sum = 0;
    let mut left = bytes;
    while left.len() >= 2 {
        sum += u64::from(u16_at(left, 0));
        left = behind(left, 2);
    }
    match left.first() {
        Some(high) => sum + u64::from(*high) * 256,
        None => sum,
    }
}
