//! IPv6 addresses and prefixes, and their texts (RFC 4291 and RFC 5952).
//!
//! [`Addr6`] is an address and [`Prefix`] the set of addresses that begin with the same bits. Both are read and written as text.
//! Definitions: specs/Addr.antt and specs/Prefix.antt for values, specs/Text.antt for texts that are read, specs/Written.antt for
//! the one form that is written.
#![tactic(auto)]

mod addr;
mod error;
mod prefix;
mod text;

pub use addr::Addr6;
pub use error::PrefixError;
pub use prefix::{Prefix, order_of_prefixes, prefixes_are_sets};
pub use text::{
    parse_addr, parse_prefix, written_texts_are_canonical, written_texts_are_read_back,
};
