//! What becomes of packets, as the words of a line.

ghost use Rattle.std.specs.Prelude.{◌≡◌, OnOk, Some};
ghost use Rattle.std.specs.Io.KnownBytes.{Appends};
ghost use Rattle.ripng_lab_fates.specs.Text.{letter_of, line_text, word_of, word_text, words_text};

use crate::outages::Change;
use crate::ways::{Fate, Step, Way, way_from};
use std::alloc::Global;
use std::fmt;
use std::io::{self, Write};

/// The word of a router: what becomes of packets from there, at which router, and to which router it hands them on, if its table does.
#[derive(Clone, Copy)]
struct Word {
    way: Way,
    step: Step,
}

impl fmt::Display for Word {
    ghost output = { λ word. Some (word_text word.way word.step) };

    fn fmt<W: fmt::Write>(&self, f: &mut fmt::Formatter<W>) -> fmt::Result {
        let (letter, at) = (letter_of(self.way.fate), self.way.at);
        match self.step {
            Step::On { router, .. } => write!(f, " {letter}{at}:{router}"),
            Step::Ends(_) => write!(f, " {letter}{at}"),
        }
    }
}

/// The letter of what becomes of packets.
fn letter_of(fate: Fate) -> &'static str
    ensures { result.now ≡ letter_of fate }
{
    match fate {
        Fate::Arrives => "a",
        Fate::NoRoute => "d",
        Fate::NextHopIsNobodys => "n",
        Fate::Loops => "l",
        Fate::CutLink => "c",
        Fate::SilentRouter => "s",
    }
}

/// Writes the word of a router.
fn write_word<W: Write>(
    alloc: Global,
    steps: &[Step],
    changes: &[Change],
    router: usize,
    step: Step,
    out: &mut W,
) -> io::Result<()>
    ensures { OnOk result (Appends (W.contents out.old) (W.contents out.new) (word_of steps.now changes.now (router, step))) }
{
    let way = way_from(alloc, steps, changes, router)?;
    let word = Word { way, step };
    write!(out, "{word}")
}

/// Writes the words of all routers, in order.
fn write_words<W: Write>(
    alloc: Global,
    steps: &[Step],
    changes: &[Change],
    out: &mut W,
) -> io::Result<()>
    ensures { OnOk result (Appends (W.contents out.old) (W.contents out.new) (words_text steps.now changes.now)) }
{
    for (router, step) in steps.iter().enumerate() {
        write_word(alloc, steps, changes, router, *step, out)?;
    }
    Ok(())
}

/// Writes a line of the words of all routers.
///
/// # Errors
/// Those of `out`, or out of memory.
pub(crate) fn write_line<W: Write>(
    alloc: Global,
    steps: &[Step],
    changes: &[Change],
    out: &mut W,
) -> io::Result<()>
    ensures { OnOk result (Appends (W.contents out.old) (W.contents out.new) (line_text steps.now changes.now)) }
{
    write_words(alloc, steps, changes, out)?;
    writeln!(out)
}
