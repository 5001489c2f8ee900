//! `check`: whether a text is a valid configuration.

ghost use Rattle.std.specs.Prelude.{◌≡◌, ◌≢◌, IfErr, IfOk, List, false, ℕ};
ghost use Rattle.ripngd_daemon.specs.Common.{MayFail, IsChecked, peers_counted};
ghost use Rattle.ripngd_command_line.specs.declared.asked.Ask.TheVariants as asks;

use crate::failure::Failure;
use crate::files::FileSource;
use crate::warnings::write_warnings;
use ripng_show::PrintFault;
use ripngd_config::{ConfigFault, read_config};
use ripngd_engine::Peer;
use std::alloc::Global;
use std::io::{self, Write};

/// Writes what a configuration has, as `ok interfaces A prefixes B peers C`, or why it is refused, as `refused ..`. Returns whether it
/// is accepted. It is read as for a router that is not quiet, with the default tag 0.
///
/// # Errors
/// `OutOfMemory` before anything is written; `Write` where `out` failed.
pub fn check<W: Write>(alloc: Global, text: &[u8], out: &mut W) -> Result<bool, PrintFault>
    ensures checked { IfOk result (λ accepted. IsChecked text.now accepted (W.contents out.old) (W.contents out.new)) }
    ensures out_of_memory { result ≡ Err PrintFault.OutOfMemory → out.new ≡ out.old }
{
    check_named(alloc, "", text, out, &mut io::sink())
}

/// `check CONFIG`: whether the file is a valid configuration. `err` gets the place of a fault that has no path, or warnings of what
/// cannot work.
///
/// # Errors
/// `Read` with the file, `Output` or `OutOfMemory`.
pub fn check_file<'a, F: FileSource, O: Write, E: Write>(
    alloc: Global,
    files: &F,
    file: &'a str,
    out: &mut O,
    err: &mut E,
) -> Result<bool, Failure<'a>>
    ensures checked { IfOk result (λ accepted. (config : List ℕ) × F.holds files.now file.entry.now config
        × IsChecked config accepted (O.contents out.old) (O.contents out.new)) }
    ensures failed { IfErr result (MayFail (asks.Check file.entry)) }
{
    Ok(check_named(alloc, file, files.read(file)?.as_slice(), out, err)?)
}

/// The same for the text of a file. `err` gets the place of a fault that has no path, or warnings of what cannot work; its failure
/// changes nothing else.
///
/// # Errors
/// Those of [`check`].
fn check_named<W: Write, E: Write>(
    alloc: Global,
    file: &str,
    text: &[u8],
    out: &mut W,
    err: &mut E,
) -> Result<bool, PrintFault>
    ensures checked { IfOk result (λ accepted. IsChecked text.now accepted (W.contents out.old) (W.contents out.new)) }
    ensures out_of_memory { result ≡ Err PrintFault.OutOfMemory → out.new ≡ out.old }
{
    match read_config(alloc, text, 0, false) {
        Ok(config) => {
            let interfaces = config.router.interfaces().len();
            let prefixes = config.router.prefixes().len();
            let peers = count_peers(config.peers.as_slice());
            writeln!(
                out,
                "ok interfaces {interfaces} prefixes {prefixes} peers {peers}"
            )
            .map_err(|_| PrintFault::Write)?;
            let _ = write_warnings(&config, err);
            Ok(true)
        }
        Err(fault) => write_refusal(file, &fault, out, err),
    }
}

/// The number of peers of all interfaces together, at most the greatest `usize`.
fn count_peers(peers: &[Vec<Peer>]) -> usize
    ensures { result ≡ peers_counted peers.now }
{
    let mut count = 0_usize;
    for of_interface in peers {
        count = count.saturating_add(of_interface.len());
    }
    count
}

/// Writes why the configuration of a file is refused, and returns that it is not accepted. The place of the fault, if it has one, goes
/// to `err`, as `ripngd: FILE: at line 1, column 5` or with an interface or a prefix. A failure of `err` changes nothing else.
///
/// # Errors
/// `OutOfMemory` if that is the fault, and then nothing is written; `Write` where `out` failed.
pub(crate) fn write_refusal<W: Write, E: Write>(
    file: &str,
    fault: &ConfigFault,
    out: &mut W,
    err: &mut E,
) -> Result<bool, PrintFault>
    ensures refused { IfOk result (λ accepted. (accepted ≡ false) × (fault.now ≢ ConfigFault.OutOfMemory)) }
    ensures out_of_memory { result ≡ Err PrintFault.OutOfMemory → out.new ≡ out.old }
{
    match fault {
        ConfigFault::OutOfMemory => return Err(PrintFault::OutOfMemory),
        ConfigFault::BadToml(place) | ConfigFault::Router(_, Some(place)) => {
            let _ = writeln!(err, "ripngd: {file}: at {place}");
        }
        _ => {}
    }
    writeln!(out, "refused {fault}").map_err(|_| PrintFault::Write)?;
    Ok(false)
}
