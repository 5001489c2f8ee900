//! Runs of a script with one seed after another.

ghost use Rattle.std.specs.Prelude.{IfOk};
ghost use Rattle.ripng_lab_numbers.specs.Running.{AreCounts};

use crate::ending::{End, write_end};
use crate::lines::{write_seed, write_seeds_header};
use crate::tally::Tally;
use ripng_lab::{Counts, names_of, watched_by};
use std::alloc::Global;
use std::io::{self, Write};

/// Runs a script with each seed from the first to the last, for the lines that name none, and answers whether every line was done each
/// time. `out` gets a header, and then a line of numbers for each seed: the seed, 0 or, where a line was refused or expected what was not
/// so, 1, and what was counted until then. In that case `err` gets a line that says so.
///
/// # Errors
/// `OutOfMemory` if memory ran out, else the error of `out`. Lines of earlier seeds have been written.
pub fn sweep<W: Write, E: Write>(
    alloc: Global,
    script: &[u8],
    first: u64,
    last: u64,
    out: &mut W,
    err: &mut E,
) -> io::Result<bool> {
    write_seeds_header(out)?;
    let mut all_done = true;
    for seed in first..=last {
        let run = run_with(alloc, script, seed)?;
        write_seed(seed, run.done, run.counts, out)?;
        if !run.done {
            tell_end(alloc, script, seed, run.end, err);
            all_done = false;
        }
    }
    Ok(all_done)
}

/// A run of a script with a seed: whether every line was done, what was counted, and how it ended before its last line, if it did.
#[derive(Clone, Copy)]
struct Run {
    done: bool,
    counts: Counts,
    end: Option<End>,
}

/// Runs a script with a seed.
fn run_with(alloc: Global, script: &[u8], seed: u64) -> io::Result<Run>
    ensures { IfOk result (λ run. AreCounts script.now run.done run.counts) }
{
    let mut tally = Tally::new(alloc);
    let done = watched_by(alloc, script, seed, &mut tally)?;
    let counts = tally.counts()?;
    Ok(Run {
        done,
        counts,
        end: tally.end,
    })
}

/// Writes how a script ended before its last line. A failure changes nothing.
fn tell_end<E: Write>(alloc: Global, script: &[u8], seed: u64, end: Option<End>, err: &mut E) {
    if let Ok(names) = names_of(alloc, script) {
        let _ = write!(err, "ripngd: seed {seed}: ");
        let _ = write_end(alloc, &names, end, err);
    }
}
