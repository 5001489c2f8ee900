//! The counts of each sender, by interface and address.

ghost use Rattle.std.specs.Prelude.{◌≡◌, [], IfSome, IsNone, Some, position, slice_get, vec_capacity};
ghost use Rattle.ripngd_control.specs.Common.{neighbors_text, tally_text, Added, CountsOf, CountsReport, IsSilentLongest, KnowsNobody, MakesRoom, Processed, Tallied, is_before, is_of, is_sound_response, lacks_room, later, no_tally, place_of, with_row, counted};

use crate::refusals::Refusals;
use prefix6::Addr6;
use ripng_wire::Command;
use ripngd_engine::Arrived;
use router_core::{Fault, Note};
use std::alloc::Global;
use std::fmt::{self, Display};

/// The counts of one sender, or of several together. A count stays at the greatest `u64`.
#[derive(Clone, Copy, Debug, PartialEq, Eq)]
pub struct Tally {
    /// Datagrams that the router processed, refused ones included.
    pub arrivals: u64,
    /// Of these, Responses without a fault.
    pub responses: u64,
    /// The entries of these.
    pub entries: u64,
    /// When the last of them arrived, in milliseconds of the router's clock.
    pub last: Option<u64>,
    /// What was refused of the arrivals.
    pub refusals: Refusals,
}

/// Whether an arrival is a Response without a fault.
fn is_sound_response(bytes: &[u8], fault: Option<Fault>) -> bool
    ensures { result ≡ is_sound_response bytes.now fault }
{
    match (fault, bytes) {
        (None, [command, ..]) => *command == Command::Response as u8,
        _ => false,
    }
}

/// The later of two moments, if there are any.
fn later(first: Option<u64>, second: Option<u64>) -> Option<u64>
    ensures { result ≡ later first second }
{
    match (first, second) {
        (Some(first), Some(second)) => Some(first.max(second)),
        (None, moment) | (moment, None) => moment,
    }
}

/// Whether a moment comes before another; none comes before each.
fn is_before(first: Option<u64>, second: Option<u64>) -> bool
    ensures { result ≡ is_before first second }
{
    match (first, second) {
        (_, None) => false,
        (None, Some(_)) => true,
        (Some(first), Some(second)) => first < second,
    }
}

impl Tally {
    /// All counts are 0.
    pub const fn new() -> Tally
        ensures { result ≡ no_tally }
    {
        Tally {
            arrivals: 0,
            responses: 0,
            entries: 0,
            last: None,
            refusals: Refusals::new(),
        }
    }

    /// Counts a Response without a fault.
    fn count_response(&mut self, moment: u64, entries: u64)
        ensures { self.new ≡ record self.old {
          responses = counted self.old.responses 1;
          entries = counted self.old.entries entries;
          last = Some moment;
        } }
    {
        self.responses = self.responses.saturating_add(1);
        self.entries = self.entries.saturating_add(entries);
        self.last = Some(moment);
    }

    /// Counts an arrival, with its fault or its notes. A Response has 4 bytes, and then 20 for each entry.
    pub(crate) fn count(
        &mut self,
        arrived: &Arrived,
        bytes: &[u8],
        fault: Option<Fault>,
        notes: &[Note],
    )
        ensures { Tallied self.old arrived.now bytes.now fault notes.now self.new }
    {
        self.arrivals = self.arrivals.saturating_add(1);
        if is_sound_response(bytes, fault) {
            let entries = bytes.len().saturating_sub(4) / 20;
            self.count_response(arrived.moment.ms(), entries as u64);
        }
        self.refusals.count(fault, notes);
    }

    /// Adds the counts of another sender.
    fn add(&mut self, more: &Tally)
        ensures { Added self.old more.now self.new }
    {
        self.arrivals = self.arrivals.saturating_add(more.arrivals);
        self.responses = self.responses.saturating_add(more.responses);
        self.entries = self.entries.saturating_add(more.entries);
        self.last = later(self.last, more.last);
        self.refusals.add(&more.refusals);
    }
}

/// ` arrivals A responses R entries E`, ` last MS` if there was a Response, and after it, on lines of their own, what was refused.
/// The last line has no line feed.
impl Display for Tally {
    ghost output = { λ t. Some (tally_text t) };

    fn fmt<W: fmt::Write>(&self, f: &mut fmt::Formatter<W>) -> fmt::Result {
        write!(
            f,
            " arrivals {} responses {} entries {}",
            self.arrivals, self.responses, self.entries
        )?;
        if let Some(ms) = self.last {
            write!(f, " last {ms}")?;
        }
        write!(f, "{}", self.refusals)
    }
}

/// A sender, and its counts.
#[derive(Clone, Copy, Debug, PartialEq, Eq)]
pub struct Neighbor {
    /// The number of the interface.
    pub iface: usize,
    /// Its address.
    pub source: Addr6,
    /// Its counts.
    pub tally: Tally,
}

/// The index of the row of an arrival's sender, if it has one.
fn place_of(rows: &[Neighbor], arrived: &Arrived) -> Option<usize>
    ensures { result ≡ position (is_of arrived.now) rows.now }
{
    rows.iter().position(|row| row.iface == arrived.iface && row.source == arrived.source)
}

/// The row of the sender that has been silent longest, and its index: the first one, where several had their last Response at one
/// moment, or none at all.
fn silent_longest(rows: &[Neighbor]) -> Option<(usize, Neighbor)>
    ensures found { IfSome result (λ found. (slice_get rows.now found.0 ≡ Some found.1) × IsSilentLongest rows.now found.1) }
    ensures none { IsNone result → rows.now ≡ [] }
{
    let mut found = (0, *rows.first()?);
    for (place, row) in rows.iter().enumerate() {
        if is_before(row.tally.last, found.1.tally.last) {
            found = (place, *row);
        }
    }
    Some(found)
}

/// The counts of each sender: a row for each of the first 64, in the order of their first datagrams, and one for all others together.
/// On real links a new sender takes the row of the one that has been silent longest, whose counts go to those of all others.
#[derive(Drop)]
pub struct Neighbors {
    rows: Vec<Neighbor>,
    others: Tally,
    /// Whether a row gives way to a new sender, where there is no room for another.
    replaces: bool,
}

impl Neighbors {
    /// No sender yet. Where there is no memory for rows, all senders are counted together.
    pub(crate) fn new(alloc: Global, replaces: bool) -> Neighbors
        ensures nobody { KnowsNobody result }
        ensures replaces { result.replaces ≡ replaces }
    {
        Neighbors {
            rows: Vec::with_capacity(alloc, 64).unwrap_or(Vec::new(alloc)),
            others: Tally::new(),
            replaces,
        }
    }

    /// The senders that have a row, in the order of their first datagrams.
    pub fn rows(&self) -> &[Neighbor]
        ensures { result.now ≡ self.now.rows.items }
    {
        self.rows.as_slice()
    }

    /// The memory that the rows come from.
    pub(crate) fn alloc(&self) -> Global {
        *self.rows.allocator()
    }

    /// The counts of all others.
    pub fn others(&self) -> Tally
        ensures { result ≡ self.now.others }
    {
        self.others
    }

    /// The index of the row of an arrival's sender, or how many rows there are where it has none. A new sender gets a row while there
    /// is room.
    #[tactic(auto, using(crate::proofs::Places::place_is))]
    fn row_of(&mut self, arrived: &Arrived) -> usize
        ensures place { result ≡ place_of arrived.now self.new.rows.items }
        ensures rows { self.new.rows.items ≡ with_row arrived.now (vec_capacity self.old.rows) self.old.rows.items }
        ensures room { vec_capacity self.new.rows ≡ vec_capacity self.old.rows }
        ensures others { self.new.others ≡ self.old.others }
        ensures replaces { self.new.replaces ≡ self.old.replaces }
    {
        let place = place_of(self.rows.as_slice(), arrived).unwrap_or(self.rows.len());
        if place == self.rows.len() && place < self.rows.capacity() {
            self.rows.push_reserved(Neighbor {
                iface: arrived.iface,
                source: arrived.source,
                tally: Tally::new(),
            });
        }
        place
    }

    /// Takes out the row of the sender that has been silent longest, if it gives way. Its counts go to those of all others.
    fn make_room(&mut self, is_sound: bool)
        ensures { MakesRoom is_sound self.old self.new }
    {
        if let Some((place, row)) = silent_longest(self.rows.as_slice()) {
            if is_sound || row.tally.last.is_none() {
                self.rows.remove(place);
                self.others.add(&row.tally);
            }
        }
    }

    /// Whether an arrival's sender has no row, and can have one only in place of another.
    #[tactic(auto, using(crate::proofs::Places::place_is))]
    fn lacks_room(&self, arrived: &Arrived) -> bool
        ensures { result ≡ lacks_room arrived.now self.now }
    {
        let place = place_of(self.rows.as_slice(), arrived).unwrap_or(self.rows.len());
        self.replaces && place == self.rows.len() && self.rows.capacity() <= self.rows.len()
    }

    /// Counts an arrival for its sender.
    pub(crate) fn count(
        &mut self,
        arrived: &Arrived,
        bytes: &[u8],
        fault: Option<Fault>,
        notes: &[Note],
    )
        ensures { CountsReport self.old (Processed arrived.now bytes.now fault notes.now) self.new }
    {
        if self.lacks_room(arrived) {
            self.make_room(is_sound_response(bytes, fault));
        }
        self.count_in_row(arrived, bytes, fault, notes);
    }

    /// Counts an arrival in the row of its sender, or with all others where there is no room for one.
    fn count_in_row(
        &mut self,
        arrived: &Arrived,
        bytes: &[u8],
        fault: Option<Fault>,
        notes: &[Note],
    )
        ensures counted { CountsOf (λ c d. Tallied c arrived.now bytes.now fault notes.now d) arrived.now
            (with_row arrived.now (vec_capacity self.old.rows) self.old.rows.items) self.old self.new }
        ensures replaces { self.new.replaces ≡ self.old.replaces }
    {
        let place = self.row_of(arrived);
        match self.rows.get(place).copied() {
            None => self.others.count(arrived, bytes, fault, notes),
            Some(row) => {
                let mut tally = row.tally;
                tally.count(arrived, bytes, fault, notes);
                self.rows[place] = Neighbor { tally, ..row };
            }
        }
    }
}

/// `iface I from ADDR` and the counts, a line for each row, and `others` and theirs if there are any.
impl Display for Neighbors {
    ghost output = { λ n. Some (neighbors_text n) };

    fn fmt<W: fmt::Write>(&self, f: &mut fmt::Formatter<W>) -> fmt::Result {
        for row in self.rows.as_slice() {
            writeln!(f, "iface {} from {}{}", row.iface, row.source, row.tally)?;
        }
        if self.others.arrivals == 0 {
            return Ok(());
        }
        writeln!(f, "others{}", self.others)
    }
}
