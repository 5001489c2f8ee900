//! A command as it is played: its words, and what came of it.

use prefix6::{Addr6, Prefix};
use route_table::Moment;
use router_core::Arrival;
use std::alloc::{AllocError, Global};
use std::str::FromStr;
use std::time::Instant;
use std::{io, mem};

pub type Done = Result<(), AllocError>;

/// The words of a command. A reader continues past a bad word; whether there was one is checked once, at the end.
#[derive(Drop)]
pub struct Row<'a> {
    pub rt: HostRuntime,
    pub alloc: Global,
    /// The words that were not read yet.
    pub rest: &'a str,
    pub is_bad: bool,
    /// What stands before the call, `free` or `time`, and how often a tick is to be made.
    pub form: &'a str,
    pub times: u32,
    /// The call that is to be made.
    pub call: &'a str,
    /// What came of it, and whether it was refused memory.
    pub text: String,
    pub is_refused: bool,
}

impl<'a> Row<'a> {
    /// A command begins.
    pub fn new(rt: HostRuntime, command: &'a str) -> Row<'a> {
        let alloc = rt.alloc();
        let mut row = Row {
            rt,
            alloc,
            rest: command,
            is_bad: false,
            form: "",
            times: 1,
            call: "",
            text: String::new(alloc),
            is_refused: false,
        };
        row.call = row.next();
        if row.call == "free" || row.call == "time" {
            row.form = row.call;
            row.times = if row.form == "time" { row.read(1) } else { 1 };
            row.call = row.next();
        }
        row
    }

    /// Whether no word of the command was bad, and it was read to its end.
    pub fn is_read(&self) -> bool {
        !self.is_bad && self.rest.is_empty()
    }

    /// The next word, or an empty one after the last.
    pub fn next(&mut self) -> &'a str {
        let (word, rest) = self.rest.split_once(' ').unwrap_or((self.rest, ""));
        self.rest = rest;
        word
    }

    /// The value of the next word. If it has none, the command is marked as bad, and the result is `other`.
    pub fn read<T: FromStr + Drop>(&mut self, other: T) -> T
    where
        T::Err: Drop,
    {
        match self.next().parse() {
            Ok(value) => value,
            Err(_) => {
                self.is_bad = true;
                other
            }
        }
    }

    /// A number of milliseconds.
    pub fn moment(&mut self) -> Moment {
        moment(self.read(0))
    }

    pub fn prefix(&mut self) -> Prefix {
        self.read(Prefix::new(Addr6::from_bits(0), 0).unwrap())
    }

    /// What `IFACE NOW SOURCE PORT HOP group` says of a datagram, or `peer` if it was not sent to the group. It has no bytes yet.
    pub fn arrival(&mut self) -> Arrival<'static> {
        Arrival {
            iface: self.read(0),
            now: self.moment(),
            source: self.read(Addr6::from_bits(0)),
            source_port: self.read(0),
            hop_limit: self.read(0),
            to_group: self.next() == "group",
            bytes: &[],
        }
    }

    /// The bytes of all words that follow: hexadecimal digits, and `N*DIGITS` for digits that stand there N times.
    pub fn bytes(&mut self) -> Result<Vec<u8>, AllocError> {
        let mut bytes = Vec::new(self.alloc);
        for word in mem::replace(&mut self.rest, "").split(' ') {
            let (count, digits) = word.split_once('*').unwrap_or(("1", word));
            match hex::decode(self.alloc, digits) {
                Ok(part) => {
                    for _ in 0..count.parse().unwrap_or(0u32) {
                        bytes.extend_from_slice(&part)?;
                    }
                }
                Err(hex::FromHexError::OutOfMemory) => return Err(AllocError),
                Err(_) => self.is_bad = true,
            }
        }
        Ok(bytes)
    }

    /// Tells on standard error how many nanoseconds passed, if that is asked.
    pub fn tell_time(&self, start: io::Result<Instant>) -> Done {
        if self.form != "time" {
            return Ok(());
        }
        let spent = start.and_then(|start| start.elapsed(&self.rt));
        let spent = spent.map_or(0, |spent| spent.as_nanos());
        eprintln!(self.rt; "{spent} ns").map_err(|_| AllocError)
    }

    /// The call was refused memory. It is told on standard error.
    pub fn refuse<T>(&mut self) -> Result<T, AllocError> {
        self.is_refused = true;
        self.tell_refused(self.call)?;
        Err(AllocError)
    }

    pub fn tell_refused(&self, what: &str) -> Done {
        eprintln!(self.rt; "refused: {what}").map_err(|_| AllocError)
    }
}

/// The moment of that many milliseconds, or 0 past the last moment.
pub fn moment(ms: u64) -> Moment {
    Moment::new(ms).unwrap_or(Moment::new(0).unwrap())
}
