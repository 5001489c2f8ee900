//! The subcommand `lab` on a text: it simulates a network of routers from a script, with or without a trace, an explanation, a capture,
//! lines of numbers or seeds, or marks it.

ghost use Rattle.std.specs.Prelude.{IfOk};
ghost use Rattle.ripng_lab_numbers.specs.Running.{AreNumbers};

use ripng_show::PrintFault;
use ripngd_command_line::Seeds;
use std::alloc::Global;
use std::io::Write;

/// Runs a script, as [`ripng_lab::lab`] does, and returns whether every line was done.
///
/// # Errors
/// `OutOfMemory` or `Write`. What earlier lines printed may have been written.
pub fn lab<W: Write>(alloc: Global, script: &[u8], out: &mut W) -> Result<bool, PrintFault> {
    Ok(ripng_lab::lab(alloc, script, out)?)
}

/// Runs a script, as [`ripng_lab::lab_marked`] does, and returns whether it passes.
///
/// # Errors
/// `OutOfMemory` or `Write`. What earlier lines printed may have been written.
pub fn mark<W: Write, E: Write>(
    alloc: Global,
    script: &[u8],
    exercise: Option<&[u8]>,
    counts: bool,
    out: &mut W,
    err: &mut E,
) -> Result<bool, PrintFault> {
    Ok(ripng_lab::lab_marked(alloc, script, exercise, counts, out, err)?)
}

/// Runs a script, as [`ripng_trace::trace`] does, and returns whether every line was done.
///
/// # Errors
/// `OutOfMemory` or `Write`. Earlier records may have been written.
pub fn trace<W: Write>(alloc: Global, script: &[u8], out: &mut W) -> Result<bool, PrintFault> {
    Ok(ripng_trace::trace(alloc, script, out)?)
}

/// Runs a script, as [`ripng_trace::explain`] does, and returns whether every line was done.
///
/// # Errors
/// `OutOfMemory` or `Write`. Earlier lines may have been written.
pub fn explain<W: Write>(
    alloc: Global,
    script: &[u8],
    changes_only: bool,
    out: &mut W,
) -> Result<bool, PrintFault> {
    Ok(ripng_trace::explain(alloc, script, changes_only, out)?)
}

/// Runs a script, as [`ripng_lab_capture::capture`] does, and returns whether every line was done.
///
/// # Errors
/// `OutOfMemory` or `Write`. What earlier lines printed may have been written.
pub fn capture<W: Write, E: Write>(
    alloc: Global,
    script: &[u8],
    out: &mut W,
    err: &mut E,
    file: &mut Vec<u8>,
) -> Result<bool, PrintFault> {
    Ok(ripng_lab_capture::capture(alloc, script, out, err, file)?)
}

/// Runs a script, as [`ripng_lab_numbers::numbers`] does, and returns whether every line was done.
///
/// # Errors
/// `OutOfMemory` or `Write`. Some lines may have been written.
pub fn numbers<W: Write, E: Write>(
    alloc: Global,
    script: &[u8],
    seconds: u32,
    by_router: bool,
    out: &mut W,
    err: &mut E,
) -> Result<bool, PrintFault>
    ensures { IfOk result (λ done. AreNumbers script.now seconds by_router done (W.contents out.old) (W.contents out.new)) }
{
    Ok(ripng_lab_numbers::numbers(alloc, script, seconds, by_router, out, err)?)
}

/// Runs a script with each seed of a range, as [`ripng_lab_numbers::sweep`] does, and returns whether every line was done each time.
///
/// # Errors
/// `OutOfMemory` or `Write`. Lines of earlier seeds may have been written.
pub fn sweep<W: Write, E: Write>(
    alloc: Global,
    script: &[u8],
    seeds: Seeds,
    out: &mut W,
    err: &mut E,
) -> Result<bool, PrintFault> {
    Ok(ripng_lab_numbers::sweep(alloc, script, seeds.first, seeds.last, out, err)?)
}
