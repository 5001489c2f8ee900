//! The questions of a running router: what it takes for a loss, and the Requests that it then sends on each of its links.

ghost use Rattle.std.specs.Prelude.{◌≡◌, ◌↔◌, ◌≤◌, ◌+◌, IfSome, IsTrue, None, false, true};
ghost use Rattle.ripngd_daemon.specs.Common.{AsksAll, AsksIfDue, AsksOn, HasLost, Minds, seen, sizes_in, words_of};

use crate::asking::Asking;
use crate::turns::UdpEngine;
use ripngd_control::Monitor;
use ripngd_engine::ChangeFault;
use route_table::RouteStore;
use std::io::Write;
use std::rt::Clock;

/// How many prefixes a router forwards to, and how many of its routes are unreachable.
#[derive(Clone, Copy, Debug, PartialEq, Eq)]
pub(crate) struct Sizes {
    forwarded: usize,
    unreachable: usize,
}

/// The sizes of a router.
pub(crate) fn sizes_of<R: Clock>(engine: &UdpEngine<'_, R>) -> Sizes
    ensures { result ≡ sizes_in engine.now.router engine.now.fib }
{
    let forwarded = engine.fib().len();
    let routes = engine.router().routes().len();
    Sizes {
        forwarded,
        unreachable: routes.saturating_sub(forwarded),
    }
}

/// Whether a route was lost between these sizes: the router forwards to fewer prefixes, or more of its routes are unreachable.
fn has_lost(before: Sizes, after: Sizes) -> bool
    ensures { IsTrue result ↔ HasLost before after }
{
    after.forwarded < before.forwarded || before.unreachable < after.unreachable
}

/// Minds a loss, if a router that had these sizes has lost a route since. The random share is that of its next regular update.
pub(crate) fn mind_loss<R: Clock>(asking: &mut Asking, before: Sizes, engine: &UdpEngine<'_, R>)
    ensures minds { Minds (HasLost before (sizes_in engine.now.router engine.now.fib)) asking.old asking.new }
    ensures soon { HasLost before (sizes_in engine.now.router engine.now.fib) → asking.old.due ≡ None → asking.old.free_at ≤ engine.now.router.last
        → IfSome asking.new.due (λ d. d ≤ engine.now.router.last + 1000) }
{
    if has_lost(before, sizes_of(engine)) {
        let router = engine.router();
        asking.lose(router.last(), router.regular().ms());
    }
}

/// Asks on a link for whole tables, unless memory is refused for that. Returns whether the router goes on.
fn ask_on<R: Clock, W: Write, E: Write>(
    engine: &mut UdpEngine<'_, R>,
    iface: usize,
    log: &mut W,
    monitor: &mut Monitor<E>,
) -> bool
    requires { engine.old.ended ≡ false }
    ensures asks { AsksOn iface (seen words_of W.contents engine.old log.old) (seen words_of W.contents engine.new log.new) }
    ensures goes_on { result ≡ true → engine.new.ended ≡ false }
{
    match engine.link_up(iface, log) {
        Ok(()) => {
            monitor.count_question();
            true
        }
        Err(ChangeFault::Refused(_)) => true,
        Err(ChangeFault::Ended) => false,
    }
}

/// Asks on each link for whole tables, one after another. Returns whether the router goes on.
fn ask_all<R: Clock, W: Write, E: Write>(
    engine: &mut UdpEngine<'_, R>,
    log: &mut W,
    monitor: &mut Monitor<E>,
) -> bool
    requires going { engine.old.ended ≡ false }
    requires told { engine.old.router.config.quiet ≡ false }
    ensures asks { AsksAll (seen words_of W.contents engine.old log.old) (seen words_of W.contents engine.new log.new) }
    ensures goes_on { result ≡ true → engine.new.ended ≡ false }
{
    for iface in 0..engine.router().config().interfaces().len() {
        if !ask_on(engine, iface, log, monitor) {
            return false;
        }
    }
    true
}

/// Asks on each link, if that is due. Returns whether the router goes on.
pub(crate) fn ask_if_due<R: Clock, W: Write, E: Write>(
    engine: &mut UdpEngine<'_, R>,
    asking: &mut Asking,
    log: &mut W,
    monitor: &mut Monitor<E>,
) -> bool
    requires { engine.old.ended ≡ false }
    ensures asks { AsksIfDue asking.old (seen words_of W.contents engine.old log.old) asking.new (seen words_of W.contents engine.new log.new) }
    ensures goes_on { result ≡ true → engine.new.ended ≡ false }
{
    let router = engine.router();
    if !asking.is_due(router.last(), router.config().is_quiet()) {
        return true;
    }
    let goes_on = ask_all(engine, log, monitor);
    asking.asked(engine.router().last());
    goes_on
}
