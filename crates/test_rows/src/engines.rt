//! An engine over a link, a clock and a log in memory. Commands first say what it will meet, and then start it and make its turns.

ghost use Rattle.std.specs.Prelude.{◌≡◌, false, IfOk, length};
ghost use Rattle.ripngd_engine.specs.Seen.{seen, untouched, Started, TurnsAnswer};

use crate::memory::{Datagram, LinkCall, MemoryClock, MemoryLink, MemoryLog, SameWord};
use crate::routers::asked_config;
use crate::row::{Done, Row, moment};
use crate::writing::{write_bytes, write_router, write_send};
use rand_core::Rng;
use ripngd_engine::{Engine, EngineFault, Link, TimeSource};
use route_table::{Moment, RouteStore};
use router_core::RouterConfig;
use std::alloc::{AllocError, Global};
use std::collections::VecDeque;
use std::io::Write;
use std::{mem, str};

type MemoryEngine<S> = Engine<S, MemoryLink, MemoryClock, SameWord>;

/// What an engine will meet, and the engine once it was started.
#[derive(Drop)]
pub struct Engines<S: RouteStore> {
    coming: VecDeque<Option<Datagram>>,
    moments: VecDeque<Moment>,
    failing_recv: Option<u64>,
    failing_send: Option<u64>,
    word: SameWord,
    log: MemoryLog,
    engine: Option<MemoryEngine<S>>,
    /// How many calls of the link, and how many bytes of the log, were written.
    calls_told: usize,
    log_told: usize,
}

/// Starts an engine over a link that was never called, a clock that gave no moment and a log, all of which tell what becomes of them.
fn start<S: RouteStore>(
    alloc: Global,
    config: RouterConfig,
    link: MemoryLink,
    clock: MemoryClock,
    word: SameWord,
    log: &mut MemoryLog,
) -> Result<MemoryEngine<S>, EngineFault>
    requires { link.interfaces ≡ length config.interfaces }
    ensures { IfOk result (λ e. Started config (⟦<SameWord as Rng>⟧.stream word) (untouched (⟦<MemoryLink as Link>⟧.calls link) (⟦<MemoryClock as TimeSource>⟧.moments clock) (⟦<MemoryLog as Write>⟧.contents log.old)) (seen ⟦<SameWord as Rng>⟧.stream ⟦<MemoryLog as Write>⟧.contents e log.new)) }
{
    Engine::start(alloc, config, link, clock, word, log)
}

/// Makes turns of such an engine.
fn make_turns<S: RouteStore>(
    engine: &mut MemoryEngine<S>,
    count: u32,
    log: &mut MemoryLog,
) -> Result<(), EngineFault>
    ensures { engine.old.ended ≡ false → TurnsAnswer count (seen ⟦<SameWord as Rng>⟧.stream ⟦<MemoryLog as Write>⟧.contents engine.old log.old) result (seen ⟦<SameWord as Rng>⟧.stream ⟦<MemoryLog as Write>⟧.contents engine.new log.new) }
{
    engine.turns(count, log)
}

/// What came of a call of the link, as a line.
fn write_call(out: &mut String, call: &LinkCall) -> Done {
    match call {
        LinkCall::Gave(datagram) => {
            let to = if datagram.to_group { "group" } else { "peer" };
            let (source, port, hops) = (datagram.source, datagram.source_port, datagram.hop_limit);
            write!(out, "gave {} {source} {port} {hops} {to}", datagram.iface)?;
            write_bytes(out, datagram.bytes.as_slice())?;
        }
        LinkCall::Silent => write!(out, "nothing came")?,
        LinkCall::RecvFailed => write!(out, "recv failed")?,
        LinkCall::Handed(outgoing, taken) => {
            write_send(out, outgoing)?;
            write!(out, "{}", if *taken { "" } else { " failed" })?;
        }
    }
    writeln!(out)
}

impl<S: RouteStore> Engines<S> {
    /// No engine: nothing comes, nothing fails, and the clock stands at 0.
    pub fn new(alloc: Global) -> Engines<S> {
        Engines {
            coming: VecDeque::new(alloc),
            moments: VecDeque::new(alloc),
            failing_recv: None,
            failing_send: None,
            word: SameWord(0),
            log: MemoryLog::new(alloc),
            engine: None,
            calls_told: 0,
            log_told: 0,
        }
    }

    /// Reads what the engine will meet.
    pub fn prepare(&mut self, row: &mut Row<'_>) -> Done {
        match row.call {
            "nothing" => self.await_this(None),
            "coming" => {
                let datagram = datagram(row)?;
                self.await_this(Some(datagram))
            }
            "word" => {
                self.word = SameWord(row.read(0));
                Ok(())
            }
            "clock" => self.set_clock(row),
            _ => {
                self.fail(row);
                Ok(())
            }
        }
    }

    /// What the next `recv` gives that has nothing to give yet.
    fn await_this(&mut self, datagram: Option<Datagram>) -> Done {
        self.coming.push_back(datagram).map_err(|_| AllocError)
    }

    /// Reads the moments that the clock gives, one after another.
    fn set_clock(&mut self, row: &mut Row<'_>) -> Done {
        for word in mem::replace(&mut row.rest, "").split(' ') {
            match word.parse() {
                Ok(ms) => self.moments.push_back(moment(ms)).map_err(|_| AllocError)?,
                Err(_) => row.is_bad = true,
            }
        }
        Ok(())
    }

    /// Reads which call fails.
    fn fail(&mut self, row: &mut Row<'_>) {
        let (call, number) = (row.next(), Some(row.read(0)));
        match call {
            "recv" => self.failing_recv = number,
            "send" => self.failing_send = number,
            "write" => self.log.failing_write = number,
            _ => row.is_bad = true,
        }
    }

    /// Does what moves the engine, or asks it.
    pub fn obey(&mut self, row: &mut Row<'_>) -> Done {
        if row.call == "engine" {
            return self.start(row);
        }
        let Some(engine) = &mut self.engine else {
            return writeln!(row.text, "no engine");
        };
        match row.call {
            "turns" => {
                match make_turns(engine, row.read(0), &mut self.log) {
                    Ok(()) => {}
                    Err(fault) => writeln!(row.text, "{fault}")?,
                }
                self.tell(row)
            }
            "report" => writeln!(row.text, "{:?}", engine.report()),
            _ => write_router(&mut row.text, engine.router()),
        }
    }

    /// Starts an engine with the configuration that words ask for.
    fn start(&mut self, row: &mut Row<'_>) -> Done {
        let Some(config) = asked_config(row)? else {
            return Ok(());
        };
        let mut link = MemoryLink::new(row.alloc, config.interfaces().len());
        link.coming = mem::replace(&mut self.coming, VecDeque::new(row.alloc));
        link.failing_recv = self.failing_recv;
        link.failing_send = self.failing_send;
        let moments = mem::replace(&mut self.moments, VecDeque::new(row.alloc));
        let last = moments.back().copied().unwrap_or(moment(0));
        let clock = MemoryClock::new(row.alloc, moments, last);
        match start(row.alloc, config, link, clock, self.word, &mut self.log) {
            Ok(engine) => {
                self.engine = Some(engine);
                self.tell(row)
            }
            Err(fault) => writeln!(row.text, "{fault}"),
        }
    }

    /// Writes the calls of the link, and the lines of the log, that came since they were written last.
    fn tell(&mut self, row: &mut Row<'_>) -> Done {
        let Some(engine) = &self.engine else {
            return Ok(());
        };
        let calls = engine.link().calls().ok_or(AllocError)?;
        for call in calls.iter().skip(self.calls_told) {
            write_call(&mut row.text, call)?;
        }
        self.calls_told = calls.len();
        let text = self.log.text();
        let lines = text.get(self.log_told..).unwrap_or(&[]);
        for line in str::from_utf8(lines).unwrap_or("no text").lines() {
            writeln!(row.text, "log {line}")?;
        }
        self.log_told = text.len();
        Ok(())
    }
}

/// A datagram that words say, with its bytes behind them.
fn datagram(row: &mut Row<'_>) -> Result<Datagram, AllocError> {
    let (iface, source) = (row.read(0), row.read(prefix6::Addr6::from_bits(0)));
    let (source_port, hop_limit) = (row.read(0), row.read(0));
    let to_group = row.next() == "group";
    Ok(Datagram {
        iface,
        source,
        source_port,
        hop_limit,
        to_group,
        bytes: row.bytes()?,
    })
}
