//! Marks a script: whether it solves an exercise, and how many expectations it meets.

ghost use Rattle.std.specs.Prelude.{◌≡◌, filter, length};
ghost use Rattle.ripng_lab.specs.Exercises.{is_done, is_met};

use crate::exercise::{Role, Statement, Unlike, against};
use crate::forms::first_word;
use crate::hints::ended_at;
use crate::script::words_in;
use std::alloc::{AllocError, Global};
use std::io::{self, Write};

/// Runs a script as [`lab_hinted`](crate::lab_hinted) does, and answers whether every line was done. If it is to solve an exercise and does
/// not, it is not run, and a line says so: on `out` by the name of the reason, on `err` with the line of the exercise. With `counts`, a
/// last line on `out` says how many expectations were met: `expectations N met`.
///
/// # Errors
/// Those of [`lab`](crate::lab).
pub fn lab_marked<W: Write, E: Write>(
    alloc: Global,
    script: &[u8],
    exercise: Option<&[u8]>,
    counts: bool,
    out: &mut W,
    err: &mut E,
) -> io::Result<bool> {
    let end = match exercise {
        Some(exercise) if !is_solved(alloc, exercise, script, out, err)? => Some(0),
        _ => ended_at(alloc, script, out, err)?,
    };
    if counts {
        let met = count_met(&statements_of(alloc, script)?, end);
        writeln!(out, "expectations {met} met")?;
    }
    Ok(end.is_none())
}

/// Whether a script solves an exercise. If not, `out` and `err` get a line that says why; a failure of `err` changes nothing.
fn is_solved<W: Write, E: Write>(
    alloc: Global,
    exercise: &[u8],
    script: &[u8],
    out: &mut W,
    err: &mut E,
) -> io::Result<bool> {
    let (asked, found) = (
        statements_of(alloc, exercise)?,
        statements_of(alloc, script)?,
    );
    let Err(unlike) = against(asked, found) else {
        return Ok(true);
    };
    writeln!(out, "{unlike}")?;
    let _ = write_why(exercise, unlike, err);
    Ok(false)
}

/// Writes what a script lacks to solve an exercise.
fn write_why<E: Write>(exercise: &[u8], unlike: Unlike, err: &mut E) -> io::Result<()> {
    match unlike {
        Unlike::OtherLine { asked, found } => {
            let words = line_of(exercise, asked);
            writeln!(
                err,
                "ripngd: line {found}: line {asked} of the exercise belongs here: {words}"
            )
        }
        Unlike::MissingLine { asked } => {
            let words = line_of(exercise, asked);
            writeln!(
                err,
                "ripngd: line {asked} of the exercise is missing: {words}"
            )
        }
        Unlike::AddedLine { found } => writeln!(
            err,
            "ripngd: line {found}: the exercise has no more lines: only print, sent, path, counts and say may be added"
        ),
        Unlike::NoStart => writeln!(err, "ripngd: no line is cold, so no router starts"),
        Unlike::NoEvent => writeln!(err, "ripngd: no line makes anything happen"),
    }
}

/// The words of the line of that number, from 1.
fn line_of(script: &[u8], number: usize) -> &str {
    let mut lines = script.split(|byte| *byte == b'\n');
    words_in(lines.nth(number.saturating_sub(1)).unwrap_or(&[]))
}

/// The lines of a script that have words, in order.
fn statements_of<'a>(alloc: Global, script: &'a [u8]) -> Result<Vec<Statement<'a>>, AllocError> {
    let mut statements: Vec<Statement<'a>> = Vec::new(alloc);
    let mut awaits = false;
    for (place, line) in script.split(|byte| *byte == b'\n').enumerate() {
        let words = words_in(line);
        if !words.is_empty() {
            let role = role_of(first_word(words), awaits);
            awaits = role == Role::Refusal;
            statements.push(Statement {
                number: place.saturating_add(1),
                role,
                words: words.split(' ').collect(alloc)?,
            })?;
        }
    }
    Ok(statements)
}

/// What a line is for that begins with this word; `awaited` if the line before it says by which name it is to be refused.
fn role_of(word: &str, awaited: bool) -> Role {
    match word {
        _ if awaited => Role::Expectation,
        "router" | "iface" | "own" => Role::Network,
        "cold" => Role::Start,
        "expect" => Role::Expectation,
        "refused" => Role::Refusal,
        "print" | "sent" | "path" | "counts" | "say" => Role::Look,
        _ => Role::Event,
    }
}

/// Whether a script that ends at the line of that number, or after its last line, has done the line of this one.
fn is_done(number: usize, end: Option<usize>) -> bool
    ensures { result ≡ is_done end number }
{
    match end {
        Some(end) => number < end,
        None => true,
    }
}

/// Whether a line is an expectation that is met: the script has done it.
fn is_met(line: &Statement<'_>, end: Option<usize>) -> bool
    ensures { result ≡ is_met end line.now }
{
    match line.role {
        Role::Expectation => is_done(line.number, end),
        _ => false,
    }
}

/// How many expectations of a script are met that ends at the line of that number, or after its last line.
fn count_met(statements: &[Statement<'_>], end: Option<usize>) -> usize
    ensures { result ≡ length (filter (is_met end) statements.now) }
{
    statements.iter().filter(|&line| is_met(line, end)).count()
}
