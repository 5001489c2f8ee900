//! `run`: one router over UDP sockets, of loopback or of real links. All options take the same path.

ghost use Rattle.std.specs.Prelude.{◌≡◌, ◌≢◌, ◌⊎◌, [], IfErr, IfOk, List, None, OnOk, Some, false, length, option_map, ℕ};
ghost use Rattle.ripngd_daemon.specs.Common.{HasOneEach, MayFail, FailsBound, IsCutOff, IsRan, ShowsRun, links_of, lines_of};

use crate::check_command::write_refusal;
use crate::failure::Failure;
use crate::files::FileSource;
use crate::history::History;
use crate::run_log::{RunLog, refuse_own_config};
use crate::turns::{UdpEngine, show_turns, tell_of_log};
use crate::warnings::write_echoes;
use rand_pcg::Pcg32;
use ripngd_command_line::{Ask, Order};
use ripngd_config::{Config, read_config};
use ripngd_control::{Clients, ListenFault, Monitor};
use ripngd_engine::Engine;
use ripngd_udp::{Udp, Uptime};
use router_core::RouterConfig;
use std::alloc::Global;
use std::fs::File;
use std::io::Write;
use std::net::Net;
use std::rt::{Clock, Files};

/// The size of a large piece of memory that is given back at the start, in bytes: glibc then keeps up to twice as many freed bytes for
/// the next update.
const KEPT: usize = 4 << 20;

/// What a router needs of the system: memory, files, standard output, the clock and sockets.
pub trait System: AllocGlobal + Files<File = File> + Print + Clock + Net {}

impl<R: AllocGlobal + Files<File = File> + Print + Clock + Net> System for R {}

/// A router that is ready to start: its ports are bound, and its log is open.
#[derive(Drop)]
struct Ready<'r, R: Clock> {
    router: RouterConfig,
    link: Udp<'r, R>,
    rng: Pcg32,
    log: RunLog<'r, R>,
    /// Whether a link of it is real, so that anybody there may be a sender.
    is_real: bool,
}

/// Lets the C library keep the memory of an update for the next one. Where more than 128 KiB are free at the end of the heap, glibc gives
/// them back to the system, and takes them anew page by page; that bound rises to twice the size of a large piece that is given back
/// (mallopt(3)). This one is never written to, so it takes no memory.
fn keep_memory(alloc: Global) {
    let _ = Vec::<u8>::with_capacity(alloc, KEPT);
}

/// Runs the router of a configuration until it has made its turns, its seconds have passed, or a client stops it. Then it writes the
/// forwarding table, a line for each entry.
///
/// - A configuration that is refused is written as `refused ..`, and the result is `false`; `err` gets the place of its fault, as from
///   `check`. No other file is touched.
/// - The log, if one is ordered, gets a line for each change of a route. It is emptied once all ports are bound; with `--append` it gets
///   a line `start` instead.
/// - With a control path the router listens there once all ports are bound, and serves its clients between turns.
/// - `err` gets a line for each interface that is its own peer, `ripngd: running, N interfaces` once the log is begun, and a line when
///   the log fails. With `-d` it also gets a line for each datagram and entry that is refused, and the counts at the end. A failure of
///   `err` changes nothing else.
/// - `history` has the past of the run, also if it failed. Where nothing was bound it is as before; where the router did not start, it has
///   no calls.
///
/// # Errors
/// The first failure of these: the log is the configuration; reading the configuration; opening or locking the log; binding a port;
/// listening; beginning the log; the link; memory; `out`.
pub fn run<'a, R: System, F: FileSource, O: Write, E: Write>(
    rt: &R,
    files: &F,
    order: Order<'a>,
    history: &mut History,
    out: &mut O,
    err: &mut E,
) -> Result<bool, Failure<'a>>
    ensures ran { IfOk result (λ accepted. (config : List ℕ) × F.holds files.now order.entry.config.now config
        × IsRan order.entry config history.new accepted (O.contents out.old) (O.contents out.new)) }
    ensures own_config { IfOk result (λ _. option_map (λ s. s.now) order.entry.log ≢ Some order.entry.config.now) }
    ensures refused { IfOk result (λ accepted. accepted ≡ false → history.new ≡ history.old) }
    ensures cut_off { IfErr result (λ failure. (history.new ≡ history.old) ⊎ ((config : List ℕ) × F.holds files.now order.entry.config.now config
        × IsCutOff order.entry config failure history.new)) }
    ensures failed { IfErr result (MayFail (Ask.Run order.entry)) }
{
    refuse_own_config(rt, order)?;
    let text = files.read(order.config)?;
    match read_config(rt.alloc(), text.as_slice(), order.tag, order.quiet) {
        Ok(config) => {
            run_configured(rt, order, config, history, out, err)?;
            Ok(true)
        }
        Err(fault) => Ok(write_refusal(order.config, &fault, out, err)?),
    }
}

/// Listens for clients, if a path is ordered for them. One that connects ends a wait of the link.
///
/// # Errors
/// `Listen` with the path.
fn clients_of<'a, R: Files + Net + Clock>(
    rt: &R,
    order: Order<'a>,
    link: &Udp<'_, R>,
) -> Result<Option<Clients>, Failure<'a>>
    ensures untold { IfOk result (λ clients. lines_of clients ≡ []) }
    ensures alone { IfOk result (λ clients. order.entry.control ≡ None → clients ≡ None) }
    ensures failed { IfErr result (MayFail (Ask.Run order.entry)) }
{
    let Some(path) = order.control else {
        return Ok(None);
    };
    let mut clients = Clients::open(rt, path).map_err(|why| Failure::Listen(path, why))?;
    match clients.fd() {
        Some(fd) if link.watch(fd).is_ok() => Ok(Some(clients)),
        _ => {
            clients.close(rt, path);
            Err(Failure::Listen(path, ListenFault::Failed))
        }
    }
}

/// Opens the log, binds the ports, listens, and runs.
fn run_configured<'a, R: System, O: Write, E: Write>(
    rt: &R,
    order: Order<'a>,
    config: Config,
    history: &mut History,
    out: &mut O,
    err: &mut E,
) -> Result<(), Failure<'a>>
    requires { HasOneEach config }
    ensures bound { OnOk result (history.new.ports.on_links ≡ Some (links_of config)) }
    ensures alone { OnOk result (order.entry.control ≡ None → lines_of history.new.clients ≡ []) }
    ensures ran { OnOk result (ShowsRun order.entry config.router config.rng history.new (O.contents out.old) (O.contents out.new)) }
    ensures cut_off { IfErr result (λ failure. (history.new ≡ history.old) ⊎ ((history.new.ports.on_links ≡ Some (links_of config))
        × FailsBound order.entry config.router config.rng failure history.new)) }
    ensures failed { IfErr result (MayFail (Ask.Run order.entry)) }
{
    keep_memory(rt.alloc());
    let log = RunLog::open(rt, order)?;
    let _ = write_echoes(&config, err);
    let peers = config.peers;
    let places = config.places.as_slice();
    let is_real = places.iter().any(|place| place.socket.is_real());
    let link = history.ports.bind(rt, rt.alloc(), places, peers)?;
    history.clients = clients_of(rt, order, &link)?;
    let ready = Ready {
        router: config.router,
        link,
        rng: config.rng,
        log,
        is_real,
    };
    let outcome = run_ready(rt, order, ready, history, out, err);
    history.stop_listening(rt, order.control);
    outcome
}

/// Begins the log, starts the router, makes its turns, and writes its forwarding table. With `-d` it writes what is refused, and the
/// counts.
fn run_ready<'r, 'a, R: System, O: Write, E: Write>(
    rt: &'r R,
    order: Order<'a>,
    ready: Ready<'r, R>,
    history: &mut History,
    out: &mut O,
    err: &mut E,
) -> Result<(), Failure<'a>>
    requires interfaces { ready.link.interfaces ≡ length ready.router.interfaces }
    requires uncalled { ready.link.calls ≡ [] }
    requires untold { lines_of history.old.clients ≡ [] }
    requires unwritten { ready.log.written.past.bytes ≡ [] }
    requires unclosed { history.old.ports.calls ≡ None }
    ensures bound { history.new.ports.on_links ≡ history.old.ports.on_links }
    ensures alone { history.old.clients ≡ None → history.new.clients ≡ None }
    ensures ran { OnOk result (ShowsRun order.entry ready.entry.router ready.entry.rng history.new (O.contents out.old) (O.contents out.new)) }
    ensures cut_off { IfErr result (λ failure. FailsBound order.entry ready.entry.router ready.entry.rng failure history.new) }
    ensures failed { IfErr result (MayFail (Ask.Run order.entry)) }
{
    let mut log = ready.log;
    log.begin(order)?;
    let interfaces = ready.router.interfaces().len();
    let plural = if interfaces == 1 { "" } else { "s" };
    let _ = writeln!(err, "ripngd: running, {interfaces} interface{plural}");
    let Ok(mut monitor) = Monitor::new(rt.alloc(), err, !order.debug, ready.is_real, interfaces)
    else {
        return Err(Failure::OutOfMemory);
    };
    let clock = Uptime::new(rt);
    let mut engine: UdpEngine<'r, R> = Engine::start(
        rt.alloc(),
        ready.router,
        ready.link,
        clock,
        ready.rng,
        &mut log,
    )?;
    tell_of_log(&engine, order.log.is_none(), &mut monitor);
    let outcome = show_turns(
        rt,
        order,
        &mut engine,
        &mut history.clients,
        &mut log,
        &mut monitor,
        out,
    );
    if order.debug {
        monitor.write_counts();
    }
    history.close(order.log, engine, log);
    outcome
}
