//! `ctl`: sends a command to a running router, and prints its answer.

ghost use Rattle.std.specs.Prelude.{◌≡◌, ◌⊎◌, IfErr, IfOk, IfSome, List, OnOk, ℕ};
ghost use Rattle.ripngd_daemon.specs.Common.{Appends, IsPrintedAnswer, IsAnswerWritten, command_line, MayFail};

use crate::failure::Failure;
use ripngd_command_line::{Ask, Question};
use ripngd_control::{Command, Reply, command_in};
use std::alloc::{AllocError, Global};
use std::io::{self, Read, Write};
use std::net::Net;
use std::os::unix::net::UnixStream;
use std::time::Duration;

/// How many milliseconds a router may be silent.
const SILENCE: u64 = 10_000;

/// The words of a question, separated by spaces.
fn words_of(alloc: Global, question: Question<'_>) -> Result<String, AllocError> {
    let command = question.command;
    match (question.what, question.value, question.port) {
        (Some(what), Some(value), Some(port)) => format!(in alloc;
            "{command} {what} {value} {port}"
        ),
        (Some(what), Some(value), None) => format!(in alloc; "{command} {what} {value}"),
        (Some(what), None, _) => format!(in alloc; "{command} {what}"),
        _ => format!(in alloc; "{command}"),
    }
}

/// Sends a command.
fn send<T: Write>(command: Command, stream: &mut T) -> io::Result<()>
    ensures { OnOk result (Appends (T.contents stream.old) (T.contents stream.new) (command_line command)) }
{
    writeln!(stream, "{command}")
}

/// The whole answer of a router.
fn receive<T: Read>(alloc: Global, stream: &mut T) -> io::Result<Vec<u8>>
    ensures { OnOk result (IfSome (T.remaining stream.old) (λ bytes. IfOk result (λ answer. answer.items ≡ bytes))) }
{
    let mut answer = Vec::new(alloc);
    stream.read_to_end(&mut answer)?;
    Ok(answer)
}

/// Sends a command over a connection, and returns the answer.
fn converse(alloc: Global, command: Command, stream: &mut UnixStream) -> io::Result<Vec<u8>> {
    stream.set_read_timeout(Some(Duration::from_millis(SILENCE)))?;
    stream.set_write_timeout(Some(Duration::from_millis(SILENCE)))?;
    send(command, stream)?;
    receive(alloc, stream)
}

/// The part of an answer that is printed, and whether the router did the command; `None` where the answer is cut off.
fn printed_of(answer: &[u8]) -> Option<(&[u8], bool)>
    ensures { IfSome result (λ printed. IsPrintedAnswer answer.now printed.1 printed.0.now) }
{
    let end = answer.len() - answer.len().min(1);
    let before = answer[..end].iter().rposition(|byte| *byte == b'\n');
    let (lines, last) = answer.split_at(before.map_or(0, |before| before + 1));
    if last == b"ok\n".as_slice() {
        Some((lines, true))
    } else if last.starts_with(b"refused ") && last.ends_with(b"\n") {
        Some((answer, false))
    } else {
        None
    }
}

/// How a command of this name is written, or where to read it.
fn usage_of(command: &str) -> &'static str {
    match command {
        "lookup" => "lookup ADDRESS",
        "cost" => "cost INTERFACE COST",
        "gain" => "gain PREFIX TAG",
        "drop" => "drop PREFIX",
        "peer" => "peer INTERFACE ADDRESS PORT",
        "unpeer" => "unpeer INTERFACE ADDRESS",
        "link" => "link down INTERFACE, or link up INTERFACE",
        "stop" => "stop [now]",
        "status" => "status [json]",
        "routes" | "table" | "counts" | "neighbors" => "no word follows",
        _ => "see `ripngd help ctl`",
    }
}

/// Sends a command to the router that listens at a path, and prints its answer.
fn ask<'a, R: Net + AllocGlobal, O: Write>(
    rt: &R,
    socket: &'a str,
    command: Command,
    out: &mut O,
) -> Result<bool, Failure<'a>>
    ensures answered { IfOk result (λ accepted. (answer : List ℕ) × IsAnswerWritten answer accepted (O.contents out.old) (O.contents out.new)) }
    ensures failed { IfErr result (λ f. (f ≡ Failure.Output) ⊎ (f ≡ Failure.Answer socket.entry) ⊎ (f ≡ Failure.Ask socket.entry)) }
{
    let mut stream = UnixStream::connect(rt, socket).map_err(|_| Failure::Ask(socket))?;
    let answer = converse(rt.alloc(), command, &mut stream).map_err(|_| Failure::Answer(socket))?;
    let (text, accepted) = printed_of(answer.as_slice()).ok_or(Failure::Answer(socket))?;
    out.write_all(text).map_err(|_| Failure::Output)?;
    Ok(accepted)
}

/// `ctl PATH COMMAND..`: sends a command to the router that listens at a path, and prints its answer without the last line `ok`. Returns
/// whether the router did it. Words that are no command are refused without asking the router, with what is missing.
///
/// # Errors
/// `Ask` with the path, if nobody listens there; `Answer` with it, if the answer is cut off, or nothing comes for 10 seconds; `Output`
/// or `OutOfMemory`.
pub fn ctl<'a, R: Net + AllocGlobal, O: Write>(
    rt: &R,
    question: Question<'a>,
    out: &mut O,
) -> Result<bool, Failure<'a>>
    ensures answered { IfOk result (λ accepted. (answer : List ℕ) × IsAnswerWritten answer accepted (O.contents out.old) (O.contents out.new)) }
    ensures failed { IfErr result (MayFail (Ask.Ctl question.entry)) }
{
    let words = words_of(rt.alloc(), question).map_err(|_| Failure::OutOfMemory)?;
    match command_in(words.as_str()) {
        Some(command) => ask(rt, question.socket, command, out),
        None => {
            let usage = usage_of(question.command);
            writeln!(out, "{}: {usage}", Reply::NoSuchCommand).map_err(|_| Failure::Output)?;
            Ok(false)
        }
    }
}
