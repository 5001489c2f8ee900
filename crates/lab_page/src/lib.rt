//! The laboratory as a static library, for a page in a browser: a script goes in, its trace comes out.
#![tactic(auto)]

ghost use Rattle.std.specs.Prelude.{◌≡◌, ◌⊎◌, ◌≤◌, [], Ok, Option, Some, false, length, take, true};
ghost use Rattle.ripng_world.specs.Labs.{LabValue};
ghost use Rattle.ripng_trace.specs.Scripts.{IsScriptTraced};

mod fates;

pub use fates::lab_page_fates;
use ripng_trace::trace;
use std::alloc::Global;
use std::io;

/// How a call ends, as a number.
#[derive(Clone, Copy)]
enum Status {
    /// Every line was done.
    Done = 0,
    /// A line was refused, as the trace's last record says.
    Refused = 1,
    /// The trace is longer than the room that was given.
    NoRoom = 2,
    /// Memory was refused.
    OutOfMemory = 3,
}

/// Copies a trace to the front of `out`, and says how long it is.
fn hand_over(ended: io::Result<bool>, lines: &[u8], out: &mut [u8], written: &mut usize) -> Status
    ensures done { result ≡ Status.Done → ended ≡ Ok true }
    ensures refused { result ≡ Status.Refused → ended ≡ Ok false }
    ensures whole { result ≡ Status.Done ⊎ result ≡ Status.Refused → take written.new out.new ≡ lines.now }
    ensures fits { result ≡ Status.Done ⊎ result ≡ Status.Refused → written.new ≤ length out.new }
{
    let Ok(done) = ended else {
        return Status::OutOfMemory;
    };
    *written = lines.len();
    if lines.len() > out.len() {
        return Status::NoRoom;
    }
    out[..lines.len()].copy_from_slice(lines);
    if done { Status::Done } else { Status::Refused }
}

/// Runs a script and writes its trace to the front of `out`, whose length is put in `written`. Answers 0 where every line was done, 1 where
/// one was refused, 2 where `out` has no room for the trace, which `written` says then, and 3 where memory was refused.
#[unsafe(no_mangle)]
pub extern "C" fn lab_page_trace(
    alloc: Global,
    script: &[u8],
    out: &mut [u8],
    written: &mut usize,
) -> u32
    ensures status { result ≤ 3 }
    ensures fits { result ≤ 1 → written.new ≤ length out.new }
    ensures done { result ≡ 0 → (lab : Option LabValue) × IsScriptTraced script.now true (Some []) lab (Some (take written.new out.new)) }
    ensures refused { result ≡ 1 → (lab : Option LabValue) × IsScriptTraced script.now false (Some []) lab (Some (take written.new out.new)) }
{
    let mut lines = Vec::new(alloc);
    let ended = trace(alloc, script, &mut lines);
    hand_over(ended, lines.as_slice(), out, written) as u32
}
