//! `table`: prints the forwarding table that a log makes.

ghost use Rattle.std.specs.Prelude.{◌≡◌, IfErr, IfOk, List, ℕ};
ghost use Rattle.ripngd_daemon.specs.Common.{Appends, MayFail, IsTabled};
ghost use Rattle.ripngd_command_line.specs.declared.asked.Ask.TheVariants as asks;

use crate::failure::Failure;
use crate::files::FileSource;
use crate::reading::{LogFault, read_log};
use ripng_show::PrintFault;
use ripngd_engine::write_entries;
use std::alloc::Global;
use std::io::Write;

/// Writes the forwarding table that the lines of a log make: a line `PREFIX metric M direct` or `PREFIX metric M via ADDR iface I` for
/// each entry, in the order of address, then length. Returns whether each of the lines is that of a change; if not, the first that is
/// not gives `line L refused 1 BadLine` in place of a table. Bytes after the last line feed do not count.
///
/// # Errors
/// `OutOfMemory` before anything is written; `Write` where `out` failed.
pub fn table<W: Write>(alloc: Global, log: &[u8], out: &mut W) -> Result<bool, PrintFault>
    ensures tabled { IfOk result (λ accepted. (text : List ℕ) × IsTabled log.now accepted text
        × Appends (W.contents out.old) (W.contents out.new) text) }
    ensures out_of_memory { result ≡ Err PrintFault.OutOfMemory → out.new ≡ out.old }
{
    match read_log(alloc, log) {
        Ok(fib) => {
            write_entries(fib.entries(), out).map_err(|_| PrintFault::Write)?;
            Ok(true)
        }
        Err(LogFault::OutOfMemory) => Err(PrintFault::OutOfMemory),
        Err(fault @ LogFault::BadLine { line }) => {
            writeln!(out, "line {line} refused {fault}").map_err(|_| PrintFault::Write)?;
            Ok(false)
        }
    }
}

/// `table LOG`: whether every line of the file is that of a change.
///
/// # Errors
/// `Read` with the file, `Output` or `OutOfMemory`.
pub fn table_file<'a, F: FileSource, O: Write>(
    alloc: Global,
    files: &F,
    file: &'a str,
    out: &mut O,
) -> Result<bool, Failure<'a>>
    ensures tabled { IfOk result (λ accepted. (log : List ℕ) × F.holds files.now file.entry.now log
        × (text : List ℕ) × IsTabled log accepted text × Appends (O.contents out.old) (O.contents out.new) text) }
    ensures failed { IfErr result (MayFail (asks.Table file.entry)) }
{
    Ok(table(alloc, files.read(file)?.as_slice(), out)?)
}
