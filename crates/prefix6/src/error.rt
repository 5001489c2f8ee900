//! Why a text or a length is refused as an address or a prefix.

use thiserror::Error;

/// Why a text is not an address or a prefix, or a length not that of a prefix.
#[derive(Clone, Copy, Debug, PartialEq, Eq, Error)]
pub enum PrefixError {
    /// The length of a prefix is above 128 bits.
    #[error("prefix length above 128")]
    LengthTooLarge,

    /// The text is in neither of the two forms that are read. A usual cause is the dotted form of IPv4.
    #[error("not the text of an IPv6 address")]
    BadAddressText,

    /// The length of a prefix is missing in its text, or is not a decimal number up to 128 without leading zeros.
    #[error("not the text of a prefix length")]
    BadLengthText,
}
