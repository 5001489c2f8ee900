//! The numbers of a script by intervals of time.

ghost use Rattle.std.specs.Prelude.{◌≡◌, ⊤, [], ℕ, IfOk, List, OnOk, if◌then◌else◌, length};
ghost use Rattle.std.specs.Io.KnownBytes.{Appends};
ghost use Rattle.ripng_lab.specs.Common.{event_of, last_at};
ghost use Rattle.ripng_lab_numbers.specs.Running.{AreCounted, AreNumbers, BeginsTable, IsFresh, IsNumbered, IsNumberedAside};

use crate::cells::Cells;
use crate::ending::{write_end, write_hint};
use crate::layout::{Layout, interval_of};
use crate::lines::write_table;
use crate::tally::Tally;
use ripng_lab::{Network, Notice, Routes, Watch, names_of, watched};
use ripng_world::Event;
use route_table::Moment;
use router_core::Answer;
use std::alloc::{AllocError, Global};
use std::io::{self, Write};

/// Runs a script as [`ripng_lab::lab`] does, and answers whether every line was done. In place of what its lines print, lines of numbers
/// are written to `out`: a header, and then a line for each interval of `seconds` seconds, from that of the cold start to that of the last
/// event; with `by_router` one for each router in each of them. An event counts in the interval of its moment, with all that its router
/// sends and changes at it. If a line is refused, or expects what is not so, a last line says so, and `err` may get a hint.
///
/// # Errors
/// `OutOfMemory` if memory ran out, or if there would be more than 4,194,304 lines, else the error of `out`.
pub fn numbers<W: Write, E: Write>(
    alloc: Global,
    script: &[u8],
    seconds: u32,
    by_router: bool,
    out: &mut W,
    err: &mut E,
) -> io::Result<bool>
    ensures { IfOk result (λ done. AreNumbers script.now seconds by_router done (W.contents out.old) (W.contents out.new)) }
{
    let names = names_of(alloc, script)?;
    let counted = count_script(alloc, script, seconds, by_router)?;
    let done = counted.done;
    write_table(by_router, &names, &counted.table.cells, out)?;
    if done {
        return Ok(true);
    }
    write_ending(alloc, script, &names, &counted, out, err)?;
    Ok(false)
}

/// A script that has run: whether every line was done, and what was counted.
#[derive(Drop)]
struct Counted {
    done: bool,
    table: Table,
}

/// Writes how a script ended before its last line, and to `err` what was wrong with the line, if that is known.
fn write_ending<W: Write, E: Write>(
    alloc: Global,
    script: &[u8],
    names: &[&str],
    counted: &Counted,
    out: &mut W,
    err: &mut E,
) -> io::Result<()>
    ensures { OnOk result ((text : List ℕ) × Appends (W.contents out.old) (W.contents out.new) text) }
{
    write_hint(alloc, script, counted.table.tally.end, err);
    write_end(alloc, names, counted.table.tally.end, out)
}

/// Runs a script, and counts by intervals of so many seconds.
fn count_script(alloc: Global, script: &[u8], seconds: u32, by_router: bool) -> io::Result<Counted>
    ensures { IfOk result (λ counted. AreCounted script.now seconds by_router counted.done counted.table) }
{
    let mut table = Table::new(alloc, seconds, by_router);
    let done = watched(alloc, script, &mut table)?;
    if table.tally.is_whole() {
        Ok(Counted { done, table })
    } else {
        Err(io::Error::from(AllocError))
    }
}

/// The observer that counts by intervals.
#[derive(Drop)]
pub(crate) struct Table {
    alloc: Global,
    /// Whether each router has numbers of its own.
    by_router: bool,
    cells: Cells,
    tally: Tally,
}

impl Table {
    /// Nothing has happened yet.
    fn new(alloc: Global, seconds: u32, by_router: bool) -> Table
        ensures { IsFresh seconds by_router result }
    {
        let layout = Layout {
            seconds,
            first: 0,
            width: 1,
        };
        Table {
            alloc,
            by_router,
            cells: Cells::new(alloc, layout),
            tally: Tally::new(alloc),
        }
    }

    /// All routers have started at a moment, and have sent their Requests.
    fn begin(&mut self, lab: &Network, now: Moment) -> Result<(), AllocError>
        ensures { OnOk result (BeginsTable self.old lab.now now self.new) }
    {
        self.tally.begin(lab);
        let seconds = self.cells.layout.seconds;
        let layout = Layout {
            seconds,
            first: interval_of(seconds, now),
            width: width_of(lab, self.by_router),
        };
        self.cells = Cells::started(self.alloc, layout, now, lab.sent())?;
        Ok(())
    }

    /// An event was done, or a forged Response came.
    fn count(
        &mut self,
        lab: &Network,
        event: &Event<'_>,
        answer: &Answer,
        first: usize,
    ) -> Result<(), AllocError>
        ensures { OnOk result (IsNumbered self.old (record { lab = lab.now; event = event_of event.entry.now; answer = answer.now; first = first }) self.new) }
    {
        let router = event.router();
        let cell = self.cells.open(last_at(lab, router), router)?;
        let before = self.cells.counts[cell];
        let counter = &self.tally.counter;
        self.cells.counts[cell] = counter.counted(before, lab, event, answer, first);
        self.tally.counter.happened(lab, event, answer, first);
        Ok(())
    }
}

/// How many cells an interval has: one for each router, or one for all.
fn width_of(lab: &Network, by_router: bool) -> usize
    ensures { result ≡ (if by_router then length lab.now.network else 1) }
{
    if by_router { lab.routers() } else { 1 }
}

/// The moment of a router's last step, or 0.
fn last_at(lab: &Network, router: usize) -> Moment
    ensures { result ≡ last_at lab.now router }
{
    match lab.router(router) {
        Some(at) => at.last(),
        None => Moment::new(0).unwrap(),
    }
}

impl ripng_world::Observer<Routes> for Table {
    type Fault = io::Error;

    ghost takes = { λ old what new. IsNumbered old what new };

    ghost fails = { λ _ _ _. ⊤ };

    fn happened(
        &mut self,
        lab: &Network,
        event: &Event<'_>,
        answer: &Answer,
        first: usize,
    ) -> io::Result<()> {
        Ok(self.count(lab, event, answer, first)?)
    }
}

impl Watch for Table {
    ghost starts = { λ old lab now new. BeginsTable old lab now new };

    ghost notes = { λ old aside new. IsNumberedAside old aside new };

    fn at_line(&mut self, number: usize) {
        self.tally.turn_to(number);
    }

    fn started(&mut self, lab: &Network, now: Moment) -> io::Result<()> {
        Ok(self.begin(lab, now)?)
    }

    fn noticed(&mut self, notice: Notice<'_>) -> io::Result<()> {
        if let &Notice::Lied(lab, event, answer, first, _) = &notice {
            Ok(self.count(lab, event, answer, first)?)
        } else {
            self.tally.note(&notice);
            Ok(())
        }
    }
}
