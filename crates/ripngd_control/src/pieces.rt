//! The lines of routes and of a forwarding table, a piece at a time, so that a long answer never holds the router up.

ghost use Rattle.std.specs.Prelude.{IfOk, Some};
ghost use Rattle.ripngd_control.specs.Common.{ShowsEntries, ShowsRoutes, clock_text, origin_text, status_text};

use fib::Fib;
use prefix6::Prefix;
use ripngd_engine::RouteLine;
use route_table::{Clock, Moment, Origin, Route, RouteStore};
use std::fmt::{self, Display};
use std::io::{self, Write};

/// How many lines a piece has at most.
const PIECE: usize = 256;

/// A route to a prefix at a moment, written `PREFIX metric M tag T ORIGIN CLOCK`, with ` marked` at its end if its route change flag is
/// set.
#[derive(Clone, Copy)]
struct RouteStatus(Prefix, Route, Moment);

/// `own`, or `via ADDR iface I from ADDR`.
#[derive(Clone, Copy)]
struct OriginText(Origin);

impl Display for OriginText {
    ghost output = { λ o. Some (origin_text o.0) };

    fn fmt<W: fmt::Write>(&self, f: &mut fmt::Formatter<W>) -> fmt::Result {
        match self.0 {
            Origin::Own => write!(f, "own"),
            Origin::Learned {
                iface,
                from,
                next_hop,
            } => write!(f, "via {next_hop} iface {iface} from {from}"),
        }
    }
}

/// A route's clock at a moment: `fixed` of an own route, `live MS` until its timeout, or `dying MS` until it is deleted.
#[derive(Clone, Copy)]
struct ClockText(Clock, Moment);

impl Display for ClockText {
    ghost output = { λ c. Some (clock_text c.0 c.1) };

    fn fmt<W: fmt::Write>(&self, f: &mut fmt::Formatter<W>) -> fmt::Result {
        let now = self.1.ms();
        match self.0 {
            Clock::Fixed => write!(f, "fixed"),
            Clock::Live(until) => write!(f, "live {}", until.ms().saturating_sub(now)),
            Clock::Dying(until) => write!(f, "dying {}", until.ms().saturating_sub(now)),
        }
    }
}

impl Display for RouteStatus {
    ghost output = { λ s. Some (status_text s.0 s.1 s.2) };

    fn fmt<W: fmt::Write>(&self, f: &mut fmt::Formatter<W>) -> fmt::Result {
        let RouteStatus(prefix, route, moment) = *self;
        let metric = route.metric();
        let tag = route.tag();
        let origin = OriginText(route.origin());
        let clock = ClockText(route.clock(), moment);
        let mark = if route.is_changed() { " marked" } else { "" };
        write!(
            f,
            "{prefix} metric {metric} tag {tag} {origin} {clock}{mark}"
        )
    }
}

/// Writes the next routes of a table as they are at a moment: the first ones, or those after a prefix. Returns the last prefix, if
/// there may be more.
pub(crate) fn write_routes<S: RouteStore, W: Write>(
    routes: &S,
    moment: Moment,
    after: Option<Prefix>,
    out: &mut W,
) -> io::Result<Option<Prefix>>
    ensures { IfOk result (λ more. ShowsRoutes (S.table routes.now) moment after more (W.contents out.old) (W.contents out.new)) }
{
    let mut last = after;
    for _done in 0..PIECE {
        let Some((prefix, route)) = routes.walk(last) else {
            return Ok(None);
        };
        let status = RouteStatus(prefix, route, moment);
        writeln!(out, "{status}")?;
        last = Some(prefix);
    }
    Ok(last)
}

/// Writes the next entries of a forwarding table: the first ones, or those after a prefix. Returns the last prefix, if there may be
/// more.
pub(crate) fn write_table<W: Write>(
    fib: &Fib,
    after: Option<Prefix>,
    out: &mut W,
) -> io::Result<Option<Prefix>>
    ensures { IfOk result (λ more. ShowsEntries fib.now after more (W.contents out.old) (W.contents out.new)) }
{
    let mut entries = fib.entries_after(after);
    let mut last = None;
    for _done in 0..PIECE {
        let Some((prefix, hop, metric)) = entries.next() else {
            return Ok(last);
        };
        let line = RouteLine {
            prefix,
            hop,
            metric,
        };
        writeln!(out, "{line}")?;
        last = Some(prefix);
    }
    Ok(last)
}
