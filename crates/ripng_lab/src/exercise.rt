//! Exercises: scripts in which a word `?` leaves a word open, and which other scripts solve them.

ghost use Rattle.std.specs.Prelude.{◌≡◌, ◌↔◌, IfErr, IsFalse, IsTrue, OnOk};
ghost use Rattle.std.specs.List.{AllZip};
ghost use Rattle.ripng_lab.specs.Exercises.{Departs, Fills, HasRole, IsUnlike, LacksRole, Solves, StandsFor, counted, counts};

use std::fmt;

/// What a line of a script is for.
#[derive(Clone, Copy, Debug, PartialEq, Eq)]
pub enum Role {
    /// It lists a part of the network: `router`, `iface` or `own`.
    Network,
    /// `cold`: all routers start.
    Start,
    /// It makes something happen, or says who takes part in what happens.
    Event,
    /// It says what must be so: `expect`, or the line after `refused`.
    Expectation,
    /// `refused`: it says of the next line that it must be refused.
    Refusal,
    /// It only prints: `print`, `sent`, `path` or `say`.
    Look,
}

/// A line of a script that has words.
#[derive(Debug, Drop)]
pub struct Statement<'a> {
    /// The number of the line, from 1.
    pub number: usize,
    /// What it is for.
    pub role: Role,
    /// Its words, in order, without a remark.
    pub words: Vec<&'a str>,
}

/// Why a script does not solve an exercise. Lines are those that count, by their numbers, from 1. The text is what is printed.
#[derive(Clone, Copy, Debug, PartialEq, Eq)]
pub enum Unlike {
    /// Where line `asked` of the exercise belongs, the script has line `found`, which is another.
    OtherLine { asked: usize, found: usize },
    /// The script ends before line `asked` of the exercise.
    MissingLine { asked: usize },
    /// The exercise ends before line `found` of the script.
    AddedLine { found: usize },
    /// The script has no line `cold`.
    NoStart,
    /// The script has no event.
    NoEvent,
}

impl fmt::Display for Unlike {
    fn fmt<W: fmt::Write>(&self, f: &mut fmt::Formatter<W>) -> fmt::Result {
        match self {
            Unlike::OtherLine { asked, found } => write!(
                f,
                "line {found} refused OtherLine {asked}"
            ),
            Unlike::MissingLine { asked } => write!(f, "end refused MissingLine {asked}"),
            Unlike::AddedLine { found } => write!(f, "line {found} refused AddedLine"),
            Unlike::NoStart => f.write_str("end refused NoStart"),
            Unlike::NoEvent => f.write_str("end refused NoEvent"),
        }
    }
}

/// Tests whether a script solves an exercise: its lines that count are those of the exercise, in order, with one word for each `?`, one
/// of them is `cold`, and one an event. Lines that only print do not count. Events count, unless the exercise has none of its own.
///
/// # Errors
/// The first line at which they part; or that the script has no `cold`, or no event.
pub fn against<'a, 'b>(
    mut exercise: Vec<Statement<'a>>,
    mut script: Vec<Statement<'b>>,
) -> Result<(), Unlike>
    ensures solved { OnOk result (Solves exercise.entry.items script.entry.items) }
    ensures refused { IfErr result (IsUnlike exercise.entry.items script.entry.items) }
{
    let leaves_events = !acts(&exercise);
    let (starts, acts) = (starts(&script), acts(&script));
    keep_counted(&mut exercise, leaves_events);
    keep_counted(&mut script, leaves_events);
    compare(&exercise, &script)?;
    if !starts {
        return Err(Unlike::NoStart);
    }
    if !acts {
        return Err(Unlike::NoEvent);
    }
    Ok(())
}

/// Whether a line is `cold`.
fn starts(lines: &[Statement<'_>]) -> bool
    ensures found { IsTrue result → HasRole lines.now Role.Start }
    ensures absent { IsFalse result → LacksRole lines.now Role.Start }
{
    lines.iter().any(|line| line.role == Role::Start)
}

/// Whether a line is an event.
fn acts(lines: &[Statement<'_>]) -> bool
    ensures found { IsTrue result → HasRole lines.now Role.Event }
    ensures absent { IsFalse result → LacksRole lines.now Role.Event }
{
    lines.iter().any(|line| line.role == Role::Event)
}

/// Keeps the lines that count.
fn keep_counted(lines: &mut Vec<Statement<'_>>, leaves_events: bool)
    ensures { lines.new.items ≡ counted leaves_events lines.old.items }
{
    lines.retain(|line| counts(line, leaves_events));
}

/// Whether a line counts, where the exercise leaves events open or does not.
fn counts(line: &Statement<'_>, leaves_events: bool) -> bool
    ensures { result ≡ counts leaves_events line.now }
{
    match line.role {
        Role::Network | Role::Start | Role::Expectation | Role::Refusal => true,
        Role::Event => !leaves_events,
        Role::Look => false,
    }
}

/// Compares the lines of an exercise with those of a script, in order.
fn compare<'a, 'b>(exercise: &[Statement<'a>], script: &[Statement<'b>]) -> Result<(), Unlike>
    ensures agree { OnOk result (AllZip Fills exercise.now script.now) }
    ensures departs { IfErr result (Departs exercise.now script.now) }
{
    for (place, line) in exercise.iter().enumerate() {
        let asked = line.number;
        let Some(answer) = script.get(place) else {
            return Err(Unlike::MissingLine { asked });
        };
        if !fills(line, answer) {
            let found = answer.number;
            return Err(Unlike::OtherLine { asked, found });
        }
    }
    match script.get(exercise.len()) {
        Some(line) => Err(Unlike::AddedLine { found: line.number }),
        None => Ok(()),
    }
}

/// Whether a line is that of an exercise, with one word for each `?`.
fn fills<'a, 'b>(asked: &Statement<'a>, line: &Statement<'b>) -> bool
    ensures { IsTrue result ↔ Fills asked.now line.now }
{
    if asked.words.len() != line.words.len() {
        return false;
    }
    for place in 0..asked.words.len() {
        if !stands_for(asked.words[place], line.words[place]) {
            return false;
        }
    }
    true
}

/// Whether a word of an exercise stands for a word: `?` for any, each other for itself.
fn stands_for(asked: &str, word: &str) -> bool
    ensures { IsTrue result ↔ StandsFor asked.now word.now }
{
    asked == "?" || asked == word
}
