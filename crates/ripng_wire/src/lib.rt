//! RIPng datagrams as bytes: read and written (RFC 2080, section 2.1).
//!
//! [`decode`] reads a datagram in place and takes no memory. [`encode`] writes one; [`encode_header`] and [`encode_entry`] do it entry
//! by entry. `Spells` in specs/Layout.antt says which bytes are which datagram, and all of them are judged by it. Entries are not
//! judged here: `router_core` does that.
#![tactic(auto)]

mod error;
mod laws;
mod reading;
mod rte;
mod writing;

pub use error::WireError;
pub use laws::{one_datagram, spelled_has_no_fault};
pub use reading::{Datagram, Rtes, decode};
pub use rte::{Command, MAX_ENTRIES, NEXT_HOP_METRIC, Rte, entries_for_mtu};
pub use writing::{encode, encode_entry, encode_header};
