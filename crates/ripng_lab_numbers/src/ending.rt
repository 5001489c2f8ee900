//! How a script ends before its last line, as a line of text.

ghost use Rattle.std.specs.Prelude.{ℕ, List, OnOk};
ghost use Rattle.std.specs.Io.KnownBytes.{Appends};

use ripng_lab::{Ending, Names, Unmet, hint_of, print_unmet};
use std::alloc::Global;
use std::io::{self, Write};

/// How a script ends before its last line.
#[derive(Clone, Copy)]
pub(crate) enum End {
    /// A line is refused.
    Refused(Ending),
    /// The line of that number expects what is not so.
    Unmet(usize, Unmet),
}

/// `line L refused NR NAME` or `line L expected .. found ..`, with a line feed; nothing, if the script did not end so.
fn end_text(alloc: Global, names: &[&str], end: Option<End>) -> io::Result<Vec<u8>> {
    let mut text = Vec::new(alloc);
    match end {
        Some(End::Refused(ending)) => {
            writeln!(text, "line {} refused {}", ending.line, ending.refusal)?;
        }
        Some(End::Unmet(line, unmet)) => {
            write!(text, "line {line} ")?;
            print_unmet(Names::new(names), &unmet, &mut text)?;
            writeln!(text)?;
        }
        None => {}
    }
    Ok(text)
}

/// Writes how a script ends.
///
/// # Errors
/// Those of `out`, or out of memory.
pub(crate) fn write_end<W: Write>(
    alloc: Global,
    names: &[&str],
    end: Option<End>,
    out: &mut W,
) -> io::Result<()>
    ensures { OnOk result ((text : List ℕ) × Appends (W.contents out.old) (W.contents out.new) text) }
{
    let text = end_text(alloc, names, end)?;
    out.write_all(text.as_slice())
}

/// Writes what was wrong with the line of a script that is refused, if that is known. A failure changes nothing.
pub(crate) fn write_hint<E: Write>(alloc: Global, script: &[u8], end: Option<End>, err: &mut E) {
    if let Some(End::Refused(ending)) = end
        && let Ok(Some((line, hint))) = hint_of(alloc, script, &ending)
    {
        let _ = writeln!(err, "ripngd: line {line}: {hint}");
    }
}
