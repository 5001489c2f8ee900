//! Lines of text: one for each change of a route, as the log has them, and one for each entry of a forwarding table.

ghost use Rattle.std.specs.Prelude.{◌≡◌, ◌∷◌, ◌++◌, [], true, false, IfSome, IsNone, OnOk, Some};
ghost use Rattle.ripngd_engine.specs.Common.{Appends, HasNoLineFeed, hop_text, route_text, change_text, entry_lines, log_of};

use fib::{Entries, Hop, RouteChange};
use prefix6::Prefix;
use std::fmt::{self, Display};
use std::io::{self, Write};

/// A hop, written `direct` or `via ADDR iface I`.
#[derive(Clone, Copy)]
struct HopText(Hop);

impl Display for HopText {
    ghost output = { λ h. Some (hop_text h.0) };

    fn fmt<W: fmt::Write>(&self, f: &mut fmt::Formatter<W>) -> fmt::Result {
        match self.0 {
            Hop::Direct => write!(f, "direct"),
            Hop::Via { iface, next_hop } => write!(f, "via {next_hop} iface {iface}"),
        }
    }
}

/// An entry of a forwarding table, written `PREFIX metric M direct` or `PREFIX metric M via ADDR iface I`.
#[derive(Clone, Copy, Debug, PartialEq, Eq)]
pub struct RouteLine {
    pub prefix: Prefix,
    pub hop: Hop,
    pub metric: u8,
}

impl Display for RouteLine {
    ghost output = { λ r. Some (route_text r.prefix r.hop r.metric) };

    fn fmt<W: fmt::Write>(&self, f: &mut fmt::Formatter<W>) -> fmt::Result {
        let (prefix, metric) = (self.prefix, self.metric);
        write!(f, "{prefix} metric {metric} {}", HopText(self.hop))
    }
}

/// A change of a route, written as its line in the log: `add` and the entry, or `del PREFIX`.
#[derive(Clone, Copy, Debug, PartialEq, Eq)]
pub struct ChangeLine(pub RouteChange);

impl Display for ChangeLine {
    ghost output = { λ c. Some (change_text c.0) };

    fn fmt<W: fmt::Write>(&self, f: &mut fmt::Formatter<W>) -> fmt::Result {
        match self.0 {
            RouteChange::Install {
                prefix,
                hop,
                metric,
            } => {
                let route = RouteLine {
                    prefix,
                    hop,
                    metric,
                };
                write!(f, "add {route}")
            }
            RouteChange::Withdraw { prefix } => write!(f, "del {prefix}"),
        }
    }
}

/// The first line, without its line feed, and what comes after it; `None` where there is no line feed.
pub fn first_line(text: &[u8]) -> Option<(&[u8], &[u8])>
    ensures none { IsNone result → HasNoLineFeed text.now }
    ensures spelled { IfSome result (λ parts. text.now ≡ parts.0.now ++ (10 ∷ parts.1.now)) }
    ensures line { IfSome result (λ parts. HasNoLineFeed parts.0.now) }
{
    let end = text.iter().position(|byte| *byte == b'\n')?;
    Some((&text[..end], &text[end + 1..]))
}

/// Writes a line for each of these entries of a forwarding table, as a [`RouteLine`].
///
/// # Errors
/// Of the writer.
pub fn write_entries<W: Write>(entries: Entries<'_>, out: &mut W) -> io::Result<()>
    ensures { OnOk result (Appends (W.contents out.old) (W.contents out.new) (entry_lines entries.entry)) }
{
    for entry in entries {
        let (prefix, hop, metric) = entry;
        let line = RouteLine {
            prefix,
            hop,
            metric,
        };
        writeln!(out, "{line}")?;
    }
    Ok(())
}

/// Writes the line of a change, in one write if there is memory for it. `line` is where it is made.
fn write_line<W: Write>(change: RouteChange, line: &mut Vec<u8>, log: &mut W) -> io::Result<()>
    ensures { OnOk result (Appends (W.contents log.old) (W.contents log.new) (change_text change ++ 10 ∷ [])) }
{
    let text = ChangeLine(change);
    line.clear();
    match writeln!(line, "{text}") {
        Ok(()) => log.write_all(line.as_slice()),
        Err(_) => writeln!(log, "{text}"),
    }
}

/// Writes a line for each change, unless the log has failed before, and returns whether it has failed now. No line is written
/// after a write that failed.
pub(crate) fn write_lines<W: Write>(
    changes: &[RouteChange],
    failed: bool,
    line: &mut Vec<u8>,
    log: &mut W,
) -> bool
    ensures ended { failed ≡ true → (result ≡ true) × (log.new ≡ log.old) }
    ensures lines { result ≡ false → Appends (W.contents log.old) (W.contents log.new) (log_of changes.now) }
{
    if failed {
        return true;
    }
    for change in changes {
        if write_line(*change, line, log).is_err() {
            return true;
        }
    }
    false
}
