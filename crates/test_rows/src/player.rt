//! Plays a case: its commands are done one after another, and the output of each is written after it.

use crate::engines::Engines;
use crate::routers;
use crate::row::{Done, Row};
use crate::tables::Tables;
use crate::writing::{write_entries, write_readers};
use fib::Fib;
use route_table::RouteStore;
use router_core::Router;
use std::alloc::AllocError;
use std::str;

/// What commands are about: tables and an engine, until a router has come up.
#[derive(Drop)]
struct Player<S: RouteStore> {
    tables: Tables<S>,
    router: Option<Router<S>>,
    engines: Engines<S>,
}

impl<S: RouteStore> Player<S> {
    fn obey(&mut self, row: &mut Row<'_>) -> Done {
        match (&mut self.router, row.call) {
            (Some(router), _) => routers::obey(row, router),
            (None, "start" | "router") => {
                self.router = routers::come_up(row)?;
                Ok(())
            }
            (None, "example") => {
                let mut said = Vec::new(row.alloc);
                example_router::run(row.alloc, &mut said).map_err(|_| AllocError)?;
                write!(row.text, "{}", str::from_utf8(&said).unwrap_or("no text"))
            }
            (None, "coming" | "nothing" | "clock" | "word" | "fail") => self.engines.prepare(row),
            (None, "engine" | "turns" | "report" | "table") => self.engines.obey(row),
            (None, _) => self.tables.obey(row),
        }
    }

    /// All that readers say of what a call may change. Where time is told, nobody asks.
    fn readers(&self, row: &Row<'_>) -> Result<String, AllocError> {
        let mut text = String::new(row.alloc);
        match &self.router {
            _ if row.form == "time" => {}
            Some(router) => write_readers(&mut text, router)?,
            None if row.call == "apply" => write_entries(&mut text, &self.tables.fib)?,
            None => {}
        }
        Ok(text)
    }

    /// Does a command, and writes what came of it. Where its call was refused memory, readers have to say what they said before, and it is
    /// done again.
    fn play(&mut self, rt: &HostRuntime, command: &str, text: &mut String) -> Done {
        let mut row = Row::new(rt.clone()?, command);
        let before = self.readers(&row)?;
        let mut done = self.obey(&mut row);
        if row.is_refused {
            let after = self.readers(&row)?;
            row = Row::new(rt.clone()?, command);
            if after.as_str() != before.as_str() {
                writeln!(row.text, "a refused call changed what readers say")?;
            }
            done = self.obey(&mut row);
        }
        done?;
        text.push_str(row.text.as_str())?;
        if row.is_read() {
            Ok(())
        } else {
            writeln!(text, "no such command")
        }
    }
}

/// Plays a case over a store, and returns its output: commands and remarks are copied, expected lines are left out.
pub fn played<S: RouteStore>(rt: &HostRuntime, case: &str) -> Result<String, AllocError> {
    let alloc = rt.alloc();
    let tables = Tables {
        store: S::empty(alloc),
        fib: Fib::new(alloc),
        changes: Vec::new(alloc),
    };
    let mut player: Player<S> = Player {
        tables,
        router: None,
        engines: Engines::new(alloc),
    };
    let mut text = String::new(alloc);
    for line in case.lines() {
        let command = line.strip_prefix("> ");
        if command.is_some() || line.starts_with(';') {
            writeln!(text, "{line}")?;
        }
        if let Some(command) = command {
            player.play(rt, command, &mut text)?;
        }
    }
    Ok(text)
}
