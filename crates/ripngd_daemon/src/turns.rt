//! The turns of a running router, with the commands of its clients and its questions to its neighbors between them.

ghost use Rattle.std.specs.Prelude.{◌≡◌, ◌≢◌, ◌≤◌, ◌*◌, ◌↔◌, [], Err, IfErr, IfOk, IsTrue, OnOk, None, false, true};
ghost use Rattle.ripngd_daemon.specs.Common.{Appends, Heeds, Ran, TurnsAnswer, seen, FailsIn, MayFail, IsOver, IsToldToStop, Lasts, CutsRoute, MindsOnly, Passes, TurnsAndHeeds, lines_of, words_of, table_text};

use crate::asking::Asking;
use crate::failure::Failure;
use crate::history::losses_of;
use crate::peering::PeerUpdate;
use crate::questions::{ask_if_due, mind_loss, sizes_of};
use rand_pcg::Pcg32;
use ripngd_command_line::{Ask, Order};
use ripngd_control::{Clients, Monitor, RunState};
use ripngd_engine::{Engine, EngineFault, LinkChange, write_entries};
use ripngd_udp::{Udp, Uptime};
use route_table::{Moment, SortedRoutes};
use std::io::Write;
use std::rt::Clock;

/// A router over sockets and the system's clock, with a seeded source of random numbers.
pub(crate) type UdpEngine<'r, R> = Engine<SortedRoutes, Udp<'r, R>, Uptime<'r, R>, Pcg32>;

/// How many milliseconds a second has.
const SECOND: u64 = 1_000;

/// How many milliseconds a short turn lasts.
const SHORT_MS: u64 = 50;

/// For how many more turns the listening socket is polled after a client was there: another may have connected meanwhile, or failed to.
const LOOKS: u32 = 64;

/// What is kept from one turn of a router to the next.
#[derive(Drop)]
struct Between {
    /// For how many more turns the listening socket is polled.
    looks: u32,
    asking: Asking,
}

/// Whether the seconds, if a number was ordered, had passed at the last step of a router.
fn is_over<R: Clock>(seconds: Option<u32>, engine: &UdpEngine<'_, R>) -> bool
    ensures over { result ≡ true → IsOver seconds engine.now.router.last }
    ensures in_time { result ≡ false → ¬ (IsOver seconds engine.now.router.last) }
{
    match seconds {
        Some(seconds) => u64::from(seconds) * SECOND <= engine.router().last().ms(),
        None => false,
    }
}

/// How many milliseconds a turn may last.
#[derive(Clone, Copy, Debug, PartialEq, Eq)]
struct Pause(u64);

impl<'r, R: Clock> LinkChange<Udp<'r, R>> for Pause {
    fn make(&mut self, link: &mut Udp<'r, R>) {
        link.wait_at_most(self.0);
    }
}

/// When the router has something to do, asks its neighbors, or has made its seconds.
fn first_due<R: Clock>(order: Order<'_>, engine: &UdpEngine<'_, R>, asking: &Asking) -> u64 {
    let router = engine.router();
    let due = router.wakes_at().ms();
    let due = match asking.wakes_at(router.config().is_quiet()) {
        Some(question) => due.min(question),
        None => due,
    };
    match order.seconds {
        Some(seconds) => due.min(u64::from(seconds) * SECOND),
        None => due,
    }
}

/// How long the next turn may last: until the router has something to do, or its seconds have passed. It is short where turns are
/// counted, while the listening socket is polled for clients, after a turn with a datagram, and where something is due already.
fn pause_before<R: Clock>(order: Order<'_>, engine: &UdpEngine<'_, R>, between: &Between) -> Pause {
    if order.turns < u32::MAX || between.looks > 0 || !engine.link().was_silent() {
        return Pause(SHORT_MS);
    }
    match first_due(order, engine, &between.asking).saturating_sub(engine.router().last().ms()) {
        0 => Pause(SHORT_MS),
        left => Pause(left),
    }
}

/// Serves the clients, if the router listens and may have some: one has connected or is served, or the socket is still polled.
fn serve_clients<R: Clock + AllocGlobal, W: Write, E: Write>(
    rt: &R,
    order: Order<'_>,
    engine: &mut UdpEngine<'_, R>,
    clients: &mut Option<Clients>,
    between: &mut Between,
    log: &mut W,
    monitor: &Monitor<E>,
) -> RunState
    requires { engine.old.ended ≡ false }
    ensures heeds { Heeds (lines_of clients.old) (seen words_of W.contents engine.old log.old)
        (lines_of clients.new) (seen words_of W.contents engine.new log.new) }
    ensures goes_on { result ≢ RunState.Ended → engine.new.ended ≡ false }
    ensures minds { MindsOnly (CutsRoute (lines_of clients.old) (seen words_of W.contents engine.old log.old)
        (lines_of clients.new) (seen words_of W.contents engine.new log.new)) between.old.asking between.new.asking }
    ensures stops { result ≡ RunState.Stopped → IsToldToStop (lines_of clients.new) }
    ensures alone { clients.old ≡ None → clients.new ≡ None }
{
    let Some(clients) = clients else {
        between.looks = 0;
        return RunState::Running;
    };
    let looks = match engine.link().was_called() || clients.is_serving() {
        true => LOOKS,
        false => between.looks,
    };
    if looks == 0 {
        return RunState::Running;
    }
    between.looks = looks - 1;
    let before = sizes_of(engine);
    let lost = losses_of(order.log, engine.report(), engine.link());
    let mut peering = PeerUpdate::new();
    let (state, is_cut) = clients.serve(rt, engine, monitor, lost, &mut peering, log);
    if !is_cut {
        return state;
    }
    mind_loss(&mut between.asking, before, engine);
    state
}

/// Writes a line where the log of a router has failed and had not before.
pub(crate) fn tell_of_log<R: Clock, E: Write>(
    engine: &UdpEngine<'_, R>,
    had_failed: bool,
    monitor: &mut Monitor<E>,
) {
    if engine.report().log_failed && !had_failed {
        monitor.say("the log has failed, and ends");
    }
}

/// Makes a turn, and serves the clients.
///
/// # Errors
/// Those of the turn. No client was served then.
fn turn<R: Clock + AllocGlobal, W: Write, E: Write>(
    rt: &R,
    order: Order<'_>,
    engine: &mut UdpEngine<'_, R>,
    clients: &mut Option<Clients>,
    between: &mut Between,
    log: &mut W,
    monitor: &mut Monitor<E>,
) -> Result<RunState, EngineFault>
    requires { engine.old.ended ≡ false }
    ensures does { OnOk result (TurnsAndHeeds between.old.asking (lines_of clients.old) (seen words_of W.contents engine.old log.old)
        between.new.asking (lines_of clients.new) (seen words_of W.contents engine.new log.new)) }
    ensures fails { IfErr result (λ fault. (lines_of clients.new ≡ lines_of clients.old)
        × TurnsAnswer 1 (seen words_of W.contents engine.old log.old) (Err fault) (seen words_of W.contents engine.new log.new)) }
    ensures goes_on { IfOk result (λ state. state ≢ RunState.Ended → engine.new.ended ≡ false) }
    ensures stops { IfOk result (λ state. state ≡ RunState.Stopped → IsToldToStop (lines_of clients.new)) }
    ensures alone { clients.old ≡ None → clients.new ≡ None }
{
    // Nothing is said of a log that is not ordered.
    let had_failed = order.log.is_none() || engine.report().log_failed;
    let held = sizes_of(engine);
    let mut pause = pause_before(order, engine, between);
    engine.change_link(&mut pause);
    engine.turns_observed(1, log, monitor)?;
    mind_loss(&mut between.asking, held, engine);
    let state = serve_clients(rt, order, engine, clients, between, log, monitor);
    tell_of_log(engine, had_failed, monitor);
    Ok(state)
}

/// Makes a turn, serves the clients, and then asks the neighbors, if that is due.
///
/// # Errors
/// Those of the turn. No client was served then, and nobody asked.
fn pass<R: Clock + AllocGlobal, W: Write, E: Write>(
    rt: &R,
    order: Order<'_>,
    engine: &mut UdpEngine<'_, R>,
    clients: &mut Option<Clients>,
    between: &mut Between,
    log: &mut W,
    monitor: &mut Monitor<E>,
) -> Result<RunState, EngineFault>
    requires { engine.old.ended ≡ false }
    ensures does { OnOk result (Passes between.old.asking (lines_of clients.old) (seen words_of W.contents engine.old log.old)
        between.new.asking (lines_of clients.new) (seen words_of W.contents engine.new log.new)) }
    ensures fails { IfErr result (λ fault. (lines_of clients.new ≡ lines_of clients.old)
        × TurnsAnswer 1 (seen words_of W.contents engine.old log.old) (Err fault) (seen words_of W.contents engine.new log.new)) }
    ensures goes_on { IfOk result (λ state. state ≢ RunState.Ended → engine.new.ended ≡ false) }
    ensures stops { IfOk result (λ state. state ≡ RunState.Stopped → IsToldToStop (lines_of clients.new)) }
    ensures alone { clients.old ≡ None → clients.new ≡ None }
{
    let state = turn(rt, order, engine, clients, between, log, monitor)?;
    match state {
        RunState::Running => match ask_if_due(engine, &mut between.asking, log, monitor) {
            true => Ok(RunState::Running),
            false => Ok(RunState::Ended),
        },
        RunState::Stopped => Ok(RunState::Stopped),
        RunState::Ended => Ok(RunState::Ended),
    }
}

/// Makes turns until as many were made as ordered, or the seconds have passed, or a client stops the router.
///
/// # Errors
/// `Link` with the number of turns before the one that failed; `OutOfMemory`.
fn make_turns<'a, R: Clock + AllocGlobal, W: Write, E: Write>(
    rt: &R,
    order: Order<'a>,
    engine: &mut UdpEngine<'_, R>,
    clients: &mut Option<Clients>,
    log: &mut W,
    monitor: &mut Monitor<E>,
) -> Result<(), Failure<'a>>
    requires going { engine.old.ended ≡ false }
    requires untold { lines_of clients.old ≡ [] }
    ensures lasts { OnOk result (Lasts order.entry.turns order.entry.seconds (lines_of clients.new)
        (seen words_of W.contents engine.old log.old) (seen words_of W.contents engine.new log.new)) }
    ensures fails { IfErr result (λ failure. FailsIn order.entry.seconds (lines_of clients.new) failure
        (seen words_of W.contents engine.old log.old) (seen words_of W.contents engine.new log.new)) }
    ensures alone { clients.old ≡ None → clients.new ≡ None }
    ensures failed { IfErr result (MayFail (Ask.Run order.entry)) }
{
    let mut between = Between {
        looks: LOOKS,
        asking: Asking::new(),
    };
    for done in 0..order.turns {
        if is_over(order.seconds, engine) {
            return Ok(());
        }
        match pass(rt, order, engine, clients, &mut between, log, monitor) {
            Ok(RunState::Running) => {}
            Ok(RunState::Stopped) => return Ok(()),
            Ok(RunState::Ended) => return Err(Failure::OutOfMemory),
            Err(EngineFault::OutOfMemory) => return Err(Failure::OutOfMemory),
            Err(EngineFault::LinkFault { .. }) => return Err(Failure::Link(done)),
        }
    }
    Ok(())
}

/// Makes the turns, and then writes the forwarding table.
#[tactic(auto, using(crate::proofs::Runs::unwritten))]
pub(crate) fn show_turns<'a, R: Clock + AllocGlobal, W: Write, E: Write, O: Write>(
    rt: &R,
    order: Order<'a>,
    engine: &mut UdpEngine<'_, R>,
    clients: &mut Option<Clients>,
    log: &mut W,
    monitor: &mut Monitor<E>,
    out: &mut O,
) -> Result<(), Failure<'a>>
    requires going { engine.old.ended ≡ false }
    requires untold { lines_of clients.old ≡ [] }
    ensures lasts { OnOk result (Lasts order.entry.turns order.entry.seconds (lines_of clients.new)
        (seen words_of W.contents engine.old log.old) (seen words_of W.contents engine.new log.new)) }
    ensures shown { OnOk result (Appends (O.contents out.old) (O.contents out.new) (table_text engine.new.fib)) }
    ensures fails { IfErr result (λ failure. FailsIn order.entry.seconds (lines_of clients.new) failure
        (seen words_of W.contents engine.old log.old) (seen words_of W.contents engine.new log.new)) }
    ensures alone { clients.old ≡ None → clients.new ≡ None }
    ensures failed { IfErr result (MayFail (Ask.Run order.entry)) }
{
    make_turns(rt, order, engine, clients, log, monitor)?;
    match write_entries(engine.fib().entries(), out) {
        Ok(()) => Ok(()),
        Err(_) => Err(Failure::Output),
    }
}
