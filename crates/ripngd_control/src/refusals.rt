//! What a router refuses, and how often: datagrams for a fault, and entries of Responses for a note.

ghost use Rattle.std.specs.Prelude.{◌≡◌, ◌+◌, ◌<◌, ◌==◌, Some, if◌then◌else◌, slice_index_or};
ghost use Rattle.ripngd_control.specs.Common.{refusal_name, refusal_number, refusal_text, refusals_text, Refused, is_fault, no_refusals, notes_of};

use ripng_wire::WireError;
use router_core::{Fault, Note, NoteKind};
use std::fmt::{self, Display};

/// Why a datagram was refused, or an entry of a Response skipped.
#[derive(Clone, Copy)]
pub(crate) enum Refusal {
    Arrival(Fault),
    Entry(NoteKind),
}

/// All of them, in the order of their numbers.
pub(crate) const REFUSALS: [Refusal; 19] = [
    Refusal::Arrival(Fault::Wire(WireError::Short)),
    Refusal::Arrival(Fault::Wire(WireError::TooLong)),
    Refusal::Arrival(Fault::Wire(WireError::Ragged)),
    Refusal::Arrival(Fault::Wire(WireError::BadCommand)),
    Refusal::Arrival(Fault::Wire(WireError::BadVersion)),
    Refusal::Arrival(Fault::Wire(WireError::NotZero)),
    Refusal::Arrival(Fault::NotRipngPort),
    Refusal::Arrival(Fault::NotLinkLocal),
    Refusal::Arrival(Fault::OwnAddress),
    Refusal::Arrival(Fault::HopLimit),
    Refusal::Arrival(Fault::EmptyRequest),
    Refusal::Arrival(Fault::BadSource),
    Refusal::Entry(NoteKind::BadLength),
    Refusal::Entry(NoteKind::BadPrefix),
    Refusal::Entry(NoteKind::BadMetric),
    Refusal::Entry(NoteKind::TableFull),
    Refusal::Entry(NoteKind::NoMemory),
    Refusal::Entry(NoteKind::NotAccepted),
    Refusal::Entry(NoteKind::LimitReached),
];

impl Refusal {
    /// The number of the fault, 1 to 12, or of the note, 20 to 26.
    pub(crate) fn number(self) -> usize
        ensures number { result ≡ refusal_number self }
        ensures within { result < 27 }
    {
        match self {
            Refusal::Arrival(fault) => fault.number() as usize,
            Refusal::Entry(kind) => kind.number() as usize,
        }
    }

    /// The name of the rule, one word.
    pub(crate) fn name(self) -> &'static str
        ensures { result.now ≡ refusal_name self }
    {
        match self {
            Refusal::Arrival(fault) => fault.name(),
            Refusal::Entry(kind) => kind.name(),
        }
    }
}

/// `refused NR NAME` or `noted NR NAME`.
impl Display for Refusal {
    ghost output = { λ r. Some (refusal_text r) };

    fn fmt<W: fmt::Write>(&self, f: &mut fmt::Formatter<W>) -> fmt::Result {
        match *self {
            Refusal::Arrival(fault) => write!(f, "refused {fault}"),
            Refusal::Entry(kind) => write!(f, "noted {kind}"),
        }
    }
}

/// How many datagrams were refused and how many entries skipped, by the number of the fault, 1 to 12, or of the note, 20 to 26. A count
/// stays at the greatest `u64`.
#[derive(Clone, Copy, Debug, PartialEq, Eq)]
pub struct Refusals {
    pub by_number: [u64; 27],
}

impl Refusals {
    /// All counts are 0.
    pub const fn new() -> Refusals
        ensures { result ≡ no_refusals }
    {
        Refusals { by_number: [0; 27] }
    }

    /// Counts one more.
    fn raise(&mut self, refusal: Refusal)
        ensures { Refused (λ number. if refusal_number refusal == number then 1 else 0) self.old self.new }
    {
        let number = refusal.number();
        self.by_number[number] = self.by_number[number].saturating_add(1);
    }

    /// Counts what was refused of a datagram: the whole for a fault, or the entries that have notes.
    pub(crate) fn count(&mut self, fault: Option<Fault>, notes: &[Note])
        ensures { Refused (λ number. is_fault number fault + notes_of number notes.now) self.old self.new }
    {
        for note in notes {
            self.raise(Refusal::Entry(note.kind));
        }
        if let Some(fault) = fault {
            self.raise(Refusal::Arrival(fault));
        }
    }

    /// Adds the counts of others.
    pub(crate) fn add(&mut self, more: &Refusals)
        ensures { Refused (λ number. slice_index_or more.now.by_number number 0) self.old self.new }
    {
        for number in 0..27 {
            self.by_number[number] = self.by_number[number].saturating_add(more.by_number[number]);
        }
    }
}

/// `refused NR NAME N` for each fault and `noted NR NAME N` for each kind of note that was counted. A line feed stands before each.
impl Display for Refusals {
    ghost output = { λ r. Some (refusals_text r) };

    fn fmt<W: fmt::Write>(&self, f: &mut fmt::Formatter<W>) -> fmt::Result {
        for refusal in REFUSALS.as_slice() {
            let count = self.by_number[refusal.number()];
            if count > 0 {
                write!(f, "\n{refusal} {count}")?;
            }
        }
        Ok(())
    }
}
