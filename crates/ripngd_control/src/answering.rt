//! What a running router does for a command, and its answer: at once, or in pieces.

ghost use Rattle.std.specs.Prelude.{◌≡◌, ◌≢◌, ◌↔◌, ◌⊎◌, ◌++◌, ◌∷◌, IsOk, IsTrue, OnOk, Option, Some, false};
ghost use Rattle.ripngd_control.specs.Common.{Appends, asked_and_done, enumerate_from, NamesInterface, seen, Entry, IsLookedUp, AnswersCommand, Continues, GainsLines, Obeys, step_reply, interface_line, links_seen, lookup_text, reply_line, status_answer, sums_text, PeerChange};
ghost use Rattle.std.specs.FinMap as map_of;

use crate::command::{Command, Destination};
use crate::counts::Losses;
use crate::links::LinkStatus;
use crate::monitor::Monitor;
use crate::pieces::{write_routes, write_table};
use crate::reply::{Peering, Reply};
use crate::status_json::write_status_json;
use fib::Fib;
use prefix6::Prefix;
use rand_core::Rng;
use ripngd_engine::{ChangeFault, Engine, Link, LinkChange, RouteLine, TimeSource};
use route_table::RouteStore;
use router_core::{Change, Interface, Router, RouterConfig};
use std::io::{self, Write};

/// The rest of an answer, which is still to be written.
#[derive(Clone, Copy, Debug, PartialEq, Eq)]
pub(crate) enum Rest {
    /// Lines of routes, of all or of those after a prefix.
    Routes(Option<Prefix>),
    /// Lines of the forwarding table, all or those after a prefix.
    Table(Option<Prefix>),
    /// Nothing.
    Nothing,
    /// The writer failed, so the rest cannot be written.
    Lost,
}

/// Whether a router goes on after a command.
#[derive(Clone, Copy, Debug, PartialEq, Eq)]
pub enum RunState {
    /// It does.
    Running,
    /// A client told it to stop.
    Stopped,
    /// There was no memory for its forwarding table.
    Ended,
}

/// The rest of an answer that was written whole.
fn all_of(written: io::Result<()>) -> Rest
    ensures { result ≢ Rest.Lost → (result ≡ Rest.Nothing) × IsOk written }
{
    match written {
        Ok(()) => Rest::Nothing,
        Err(_) => Rest::Lost,
    }
}

/// Writes the last line of an answer.
fn write_reply<W: Write>(reply: Reply, out: &mut W) -> Rest
    ensures { GainsLines (W.contents out.old) result (W.contents out.new) (reply_line reply) }
{
    all_of(writeln!(out, "{reply}"))
}

/// Writes the line of the longest match of an address in a forwarding table, or `no route`, and `ok`.
fn write_lookup<W: Write>(fib: &Fib, destination: Destination, out: &mut W) -> Rest
    ensures { (found : Option Entry) × IsLookedUp fib.now destination.0 found
        × GainsLines (W.contents out.old) result (W.contents out.new) (lookup_text found ++ (10 ∷ reply_line Reply.Done)) }
{
    match fib.longest_match(destination.0) {
        Some((prefix, hop, metric)) => {
            let line = RouteLine {
                prefix,
                hop,
                metric,
            };
            all_of(writeln!(out, "{line}\nok"))
        }
        None => all_of(writeln!(out, "no route\nok")),
    }
}

/// Writes `asked N`, and `ok`.
fn write_asked<W: Write>(asked: u64, out: &mut W) -> io::Result<()>
    ensures { OnOk result (Appends (W.contents out.old) (W.contents out.new) (asked_and_done asked)) }
{
    writeln!(out, "asked {asked}\nok")
}

/// Writes `now MS routes N` with the moment of the last step and the number of entries of the forwarding table, the counts, what was lost,
/// and the neighbors.
fn write_sums<S: RouteStore, E, W: Write>(
    router: &Router<S>,
    fib: &Fib,
    monitor: &Monitor<E>,
    lost: Losses,
    out: &mut W,
) -> io::Result<()>
    ensures { OnOk result (Appends (W.contents out.old) (W.contents out.new)
        (sums_text router.now.last (map_of.len fib.now) monitor.now.counts lost monitor.now.neighbors)) }
{
    let now = router.last().ms();
    let routes = fib.len();
    let counts = monitor.counts();
    let neighbors = monitor.neighbors();
    write!(
        out,
        "now {now} routes {routes}\n{counts}\n{lost}\n{neighbors}"
    )
}

/// Writes `interface I address ADDR cost C mtu M triggered T queued Q answers A`, what came there, and after it, on lines of their own,
/// what was refused of that.
fn write_interface<W: Write>(
    number: usize,
    interface: &Interface,
    status: LinkStatus,
    out: &mut W,
) -> io::Result<()>
    ensures { OnOk result (Appends (W.contents out.old) (W.contents out.new) (interface_line status.0 status.1 (number, interface.now))) }
{
    let Interface {
        addr,
        cost,
        mtu,
        ..
    } = *interface;
    writeln!(
        out,
        "interface {number} address {addr} cost {cost} mtu {mtu}{status}"
    )
}

/// Writes the lines of each interface, the sums, `asked N`, and `ok`.
fn write_status<S: RouteStore, L: Link, C: TimeSource, R: Rng + Drop, E, W: Write>(
    engine: &Engine<S, L, C, R>,
    monitor: &Monitor<E>,
    lost: Losses,
    out: &mut W,
) -> io::Result<()>
    ensures { OnOk result (Appends (W.contents out.old) (W.contents out.new)
        (status_answer engine.now.router.config.interfaces engine.now.router.last (map_of.len engine.now.fib) monitor.now.counts lost
        monitor.now.neighbors (links_seen monitor.now.links engine.now.queues))) }
{
    let router = engine.router();
    let interfaces = router.config().interfaces();
    for (number, interface) in interfaces.iter().enumerate() {
        let status = LinkStatus(monitor.link_at(number), engine.queue_at(number));
        write_interface(number, interface, status, out)?;
    }
    write_sums(router, engine.fib(), monitor, lost, out)?;
    write_asked(monitor.asked(), out)
}

/// Whether the interface of a change of cost exists.
fn names_interface(config: &RouterConfig, change: &Change) -> bool
    ensures { IsTrue result ↔ NamesInterface config.now change.now }
{
    match *change {
        Change::Cost { iface, .. } => iface < config.interfaces().len(),
        Change::Own { .. } | Change::Disown { .. } => true,
    }
}

/// The reply to a step of an engine, and whether the router goes on. `done` says so of a step that was done, or refused.
fn step_reply(stepped: Result<(), ChangeFault>, done: RunState) -> (Reply, RunState)
    ensures { result ≡ step_reply stepped done }
{
    match stepped {
        Ok(()) => (Reply::Done, done),
        Err(ChangeFault::Refused(why)) => (Reply::Refused(why), done),
        Err(ChangeFault::Ended) => (Reply::Ended, RunState::Ended),
    }
}

/// Does a command that is a step of an engine. Returns the reply, and whether the router goes on.
///
/// A stop shuts the router down twice: neighbors that lose a datagram of its last update receive the other one.
fn make_step<S: RouteStore, L: Link, C: TimeSource, R: Rng + Drop, W: Write>(
    engine: &mut Engine<S, L, C, R>,
    command: Command,
    log: &mut W,
) -> (Reply, RunState)
    requires { engine.old.ended ≡ false }
    ensures obeys { Obeys command (seen R.stream W.contents engine.old log.old) result.0
        (seen R.stream W.contents engine.new log.new) }
    ensures goes_on { result.1 ≢ RunState.Ended → engine.new.ended ≡ false }
    ensures stops { result.1 ≡ RunState.Stopped → command ≡ Command.Stop }
    ensures ends { command ≡ Command.Stop → result.1 ≢ RunState.Running }
{
    let config = engine.router().config();
    let interfaces = config.interfaces().len();
    match command {
        Command::Stop => match engine.shutdown(log) {
            Ok(()) => step_reply(engine.shutdown(log), RunState::Stopped),
            Err(fault) => step_reply(Err(fault), RunState::Stopped),
        },
        Command::LinkDown(iface) if iface < interfaces => {
            step_reply(engine.link_down(iface, log), RunState::Running)
        }
        Command::LinkUp(iface) if iface < interfaces => {
            step_reply(engine.link_up(iface, log), RunState::Running)
        }
        Command::Reconfigure(change) if names_interface(config, &change) => {
            step_reply(engine.reconfigure(change, log), RunState::Running)
        }
        _ => (Reply::NoSuchInterface, RunState::Running),
    }
}

/// Does a command, or begins to answer it, where `None` is a line that is no command. Returns the rest of the answer, and whether the
/// router goes on. `monitor` and `lost` have what the answer counts; `peering` changes the peers of the link.
pub(crate) fn respond<
    S: RouteStore,
    L: Link,
    C: TimeSource,
    R: Rng + Drop,
    P: LinkChange<L> + Peering,
    W: Write,
    E,
    O: Write,
>(
    engine: &mut Engine<S, L, C, R>,
    command: Option<Command>,
    monitor: &Monitor<E>,
    lost: Losses,
    peering: &mut P,
    log: &mut W,
    out: &mut O,
) -> (Rest, RunState)
    requires { engine.old.ended ≡ false }
    ensures answers { AnswersCommand command monitor.now.counts monitor.now.neighbors (links_seen monitor.now.links engine.old.queues) lost
        (seen R.stream W.contents engine.old log.old) (O.contents out.old) result.0 (seen R.stream W.contents engine.new log.new) (O.contents out.new) }
    ensures goes_on { result.1 ≢ RunState.Ended → engine.new.ended ≡ false }
    ensures stops { result.1 ≡ RunState.Stopped → (command ≡ Some Command.Stop) ⊎ (command ≡ Some Command.StopNow) }
    ensures ends { (command ≡ Some Command.Stop) ⊎ (command ≡ Some Command.StopNow) → result.1 ≢ RunState.Running }
    ensures links { (c : PeerChange) → command ≡ Some (Command.Link c)
        → GainsLines (O.contents out.old) result.0 (O.contents out.new) (reply_line (P.Peering.ended peering.new)) }
{
    match command {
        Some(Command::Routes) => (Rest::Routes(None), RunState::Running),
        Some(Command::Table) => (Rest::Table(None), RunState::Running),
        Some(Command::Lookup(destination)) => {
            let rest = write_lookup(engine.fib(), destination, out);
            (rest, RunState::Running)
        }
        Some(Command::Counts) => {
            let counts = monitor.counts();
            let asked = counts.asked;
            let written = writeln!(out, "{counts}\n{lost}\nasked {asked}\nok");
            (all_of(written), RunState::Running)
        }
        Some(Command::Neighbors) => {
            let neighbors = monitor.neighbors();
            (all_of(writeln!(out, "{neighbors}ok")), RunState::Running)
        }
        Some(Command::Status) => {
            let written = write_status(engine, monitor, lost, out);
            (all_of(written), RunState::Running)
        }
        Some(Command::StatusJson) => {
            let written = write_status_json(engine, monitor, lost, out);
            (all_of(written), RunState::Running)
        }
        Some(Command::StopNow) => (write_reply(Reply::Done, out), RunState::Stopped),
        Some(Command::Link(change)) => {
            peering.order(change);
            engine.change_link(peering);
            (write_reply(peering.reply(), out), RunState::Running)
        }
        Some(step) => {
            let (reply, state) = make_step(engine, step, log);
            (write_reply(reply, out), state)
        }
        None => (write_reply(Reply::NoSuchCommand, out), RunState::Running),
    }
}

/// Writes the next piece of an answer, at most 256 lines, and returns the rest.
pub(crate) fn write_rest<S: RouteStore, O: Write>(
    router: &Router<S>,
    fib: &Fib,
    rest: Rest,
    out: &mut O,
) -> Rest
    ensures { Continues router.now fib.now rest (O.contents out.old) result (O.contents out.new) }
{
    match rest {
        Rest::Routes(after) => match write_routes(router.routes(), router.last(), after, out) {
            Ok(Some(last)) => Rest::Routes(Some(last)),
            Ok(None) => write_reply(Reply::Done, out),
            Err(_) => Rest::Lost,
        },
        Rest::Table(after) => match write_table(fib, after, out) {
            Ok(Some(last)) => Rest::Table(Some(last)),
            Ok(None) => write_reply(Reply::Done, out),
            Err(_) => Rest::Lost,
        },
        Rest::Nothing | Rest::Lost => rest,
    }
}
