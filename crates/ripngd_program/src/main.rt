//! The program `ripngd`: hands its arguments and standard streams to the library of that name.
#![tactic(auto)]

use std::env;
use std::fs::File;
use std::io::{self, BufWriter, ErrorKind, Write};
use std::net::Net;
use std::process::ExitCode;
use std::rt::{Clock, Env, Files};

/// Runs the program, and returns the exit status.
///
/// # Errors
/// `OutOfMemory`, or `InvalidData` if an argument is not UTF-8.
fn run<R: AllocGlobal + Env + Files<File = File> + Print + Clock + Net, O: Write + Drop, E: Write>(
    rt: &R,
    out: O,
    err: &mut E,
) -> io::Result<u8> {
    let arguments: Vec<String> = env::args(rt)?.collect(rt.alloc())?;
    let words: Vec<&str> = arguments
        .iter()
        .map(|argument| argument.as_str())
        .collect(rt.alloc())?;
    let mut out = BufWriter::new(rt.alloc(), out)?;
    Ok(ripngd::program(rt, &words, &mut out, err))
}

fn main(rt: HostRuntime) -> ExitCode {
    let mut err = rt.stderr();
    let status = match run(&rt, rt.stdout(), &mut err) {
        Ok(status) => status,
        Err(error) => {
            let (why, status) = match error.kind() {
                ErrorKind::OutOfMemory => ("out of memory", 3),
                _ => ("an argument is not UTF-8", 2),
            };
            let _ = writeln!(err, "ripngd: {why}");
            status
        }
    };
    ExitCode::from(status)
}
