//! Rows of calls and what must come of them, played over both stores of routes: of stores, of a forwarding table, of one router, and
//! of an engine over memory.
//! README.md says how a file of them is written, and how the program is run.
#![tactic(auto)]

mod engines;
mod memory;
mod player;
mod routers;
mod row;
mod tables;
mod writing;

use crate::player::played;
use route_table::{RouteStore, SortedRoutes, TrieRoutes};
use std::io::{self, ErrorKind};
use std::process::ExitCode;
use std::{env, fs};

/// Plays a case over a store: says how it turned out, and whether as it must.
fn is_met<S: RouteStore>(rt: &HostRuntime, name: &str, case: &str) -> io::Result<bool> {
    let text = played::<S>(rt, case)?;
    let text = text.as_str().trim_end();
    if text == case {
        return Ok(true);
    }
    let other = case.lines().zip(text.lines()).find(|(a, b)| a != b);
    let (wanted, came) = other.unwrap_or(("another end", "this one"));
    println!(rt; "FAILED {name}: wanted {wanted:?}, came {came:?}")?;
    Ok(false)
}

/// Plays a case over both stores, and says whether it turned out as it must.
fn is_passed(rt: &HostRuntime, text: &str) -> io::Result<bool> {
    let (name, case) = text.split_once('\n').unwrap_or((text, ""));
    let case = case.trim_end();
    let is_passed = is_met::<SortedRoutes>(rt, name, case)?
        && is_met::<TrieRoutes>(rt, name, case)?;
    if is_passed {
        println!(rt; "ok {name}")?;
    }
    Ok(is_passed)
}

/// Plays the cases of the files that arguments name, and answers how many failed.
fn play(rt: &HostRuntime) -> io::Result<u32> {
    let (mut passed, mut failed) = (0u32, 0u32);
    for word in env::args(rt)?.skip(1) {
        let text = fs::read_to_string(rt, word.as_str())?;
        let text = text.as_str().replace(rt.alloc(), "\\\n", "")?;
        for case in text.as_str().split("\n# ").skip(1) {
            if is_passed(rt, case)? {
                passed = passed.saturating_add(1);
            } else {
                failed = failed.saturating_add(1);
            }
        }
    }
    println!(rt; "{passed} passed, {failed} failed")?;
    Ok(failed)
}

fn main(rt: HostRuntime) -> ExitCode {
    ExitCode::from(match play(&rt) {
        Ok(0) => 0,
        Ok(_) => 1,
        Err(error) if error.kind() == ErrorKind::OutOfMemory => 3,
        Err(_) => 2,
    })
}
