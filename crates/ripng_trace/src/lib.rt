//! A script of a laboratory, traced: a line of JSON for all that happens in it; or explained: a line of English.
//!
//! One observer of a script, `Tracer`, makes a record of each thing that it is notified of. A record is written in one of two forms: as
//! an object of JSON, or as lines of English. docs/TRACE.md lists the records.
//!
//! Who reads the records alone knows the network: `readers_know_each_table` proves that their start and their changes make the table of
//! each router at each step. Begin with `trace` in tracer.rt; records.rt has the records, known.rt what fills them, and to_json.rt how a
//! value is written. `specs/Starting`, `specs/Events` and `specs/Json` say which record there is of what.
#![tactic(auto)]

mod known;
mod records;
mod to_json;
mod tracer;

pub use known::{moment_of, sender_at, sent_since};
pub use tracer::{explain, readers_know_each_table, trace};
