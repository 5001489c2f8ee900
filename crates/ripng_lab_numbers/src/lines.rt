//! Writes lines of numbers, as comma separated values.

ghost use Rattle.std.specs.Prelude.{◌≡◌, OnOk, Some, map};
ghost use Rattle.std.specs.Io.KnownBytes.{Appends};
ghost use Rattle.ripng_lab_numbers.specs.Text.{header_text, numbers_text, row_text, router_text, rows_text, seed_text, seeds_header, table_text};

use crate::cells::Cells;
use crate::layout::Layout;
use ripng_lab::Counts;
use std::fmt;
use std::io::{self, Write};

/// The names of the columns, for all routers together, and for each.
const HEADER: &str = "\
time,datagrams,entries,bytes,regular,triggered,requests,replies,changes
";

const HEADER_BY_ROUTER: &str = "\
time,router,datagrams,entries,bytes,regular,triggered,requests,replies,changes
";

/// The names of the columns of a sweep.
const HEADER_OF_SEEDS: &str = "\
seed,status,datagrams,entries,bytes,regular,triggered,requests,replies,changes,last
";

/// The numbers of a cell, between commas.
#[derive(Clone, Copy)]
pub(crate) struct Numbers(pub Counts);

impl fmt::Display for Numbers {
    ghost output = { λ numbers. Some (numbers_text numbers.0) };

    fn fmt<W: fmt::Write>(&self, f: &mut fmt::Formatter<W>) -> fmt::Result {
        let Numbers(counts) = self;
        write!(
            f,
            "{},{},{},{},{},{},{},{}",
            counts.datagrams,
            counts.entries,
            counts.bytes,
            counts.regular,
            counts.triggered,
            counts.requests,
            counts.replies,
            counts.changes
        )
    }
}

/// A router as a column: its name, or its number if it has none, and a comma; nothing, where routers are not told apart.
#[derive(Clone, Copy)]
struct Called<'n> {
    by_router: bool,
    name: &'n str,
    router: usize,
}

impl<'n> fmt::Display for Called<'n> {
    ghost output = { λ c. Some (router_text c.by_router c.name.now c.router) };

    fn fmt<W: fmt::Write>(&self, f: &mut fmt::Formatter<W>) -> fmt::Result {
        if !self.by_router {
            Ok(())
        } else if self.name.is_empty() {
            write!(f, "{},", self.router)
        } else {
            write!(f, "{},", self.name)
        }
    }
}

/// Writes the line of a cell.
fn write_row<W: Write>(
    by_router: bool,
    names: &[&str],
    layout: Layout,
    cell: usize,
    counts: Counts,
    out: &mut W,
) -> io::Result<()>
    ensures { OnOk result (Appends (W.contents out.old) (W.contents out.new) (row_text by_router (map (λ name. name.now) names.now) layout (cell, counts))) }
{
    let interval = u128::from(layout.first) + layout.interval_at(cell) as u128;
    let time = interval * u128::from(layout.seconds);
    let router = layout.column_at(cell);
    let called = Called {
        by_router,
        name: names.get(router).copied().unwrap_or(""),
        router,
    };
    let numbers = Numbers(counts);
    writeln!(out, "{time},{called}{numbers}")
}

/// The names of the columns.
fn header(by_router: bool) -> &'static str
    ensures { result.now ≡ header_text by_router }
{
    if by_router { HEADER_BY_ROUTER } else { HEADER }
}

/// Writes the line of each cell.
fn write_rows<W: Write>(
    by_router: bool,
    names: &[&str],
    layout: Layout,
    counts: &[Counts],
    out: &mut W,
) -> io::Result<()>
    ensures { OnOk result (Appends (W.contents out.old) (W.contents out.new) (rows_text by_router (map (λ name. name.now) names.now) layout counts.now)) }
{
    for (cell, its) in counts.iter().enumerate() {
        write_row(by_router, names, layout, cell, *its, out)?;
    }
    Ok(())
}

/// Writes the names of the columns and the line of each cell.
///
/// # Errors
/// Those of the writer; so are those below.
pub(crate) fn write_table<W: Write>(
    by_router: bool,
    names: &[&str],
    cells: &Cells,
    out: &mut W,
) -> io::Result<()>
    ensures { OnOk result (Appends (W.contents out.old) (W.contents out.new) (table_text by_router (map (λ name. name.now) names.now) cells.now.layout cells.now.counts.items)) }
{
    out.write_all(header(by_router).as_bytes())?;
    let counts = cells.counts.as_slice();
    write_rows(by_router, names, cells.layout, counts, out)
}

/// Writes the names of the columns of a sweep.
pub(crate) fn write_seeds_header<W: Write>(out: &mut W) -> io::Result<()>
    ensures { OnOk result (Appends (W.contents out.old) (W.contents out.new) seeds_header) }
{
    out.write_all(HEADER_OF_SEEDS.as_bytes())
}

/// Writes the line of a seed.
pub(crate) fn write_seed<W: Write>(
    seed: u64,
    done: bool,
    counts: Counts,
    out: &mut W,
) -> io::Result<()>
    ensures { OnOk result (Appends (W.contents out.old) (W.contents out.new) (seed_text seed done counts)) }
{
    let (status, last) = (u8::from(!done), counts.last);
    let numbers = Numbers(counts);
    match last {
        Some(change) => writeln!(out, "{seed},{status},{numbers},{}", change.at.ms()),
        None => writeln!(out, "{seed},{status},{numbers},"),
    }
}
