//! The observer of a script, the one that writes what lines print, and the names that a script gives its routers.

ghost use Rattle.std.specs.Prelude.{⊤, ℕ, OnErr, OnOk};
ghost use Rattle.ripng_lab.specs.Common.{LabValue, Aside, Broken, NextLine, aside_of};

use crate::context::{OrNone, name_of};
use crate::expecting::FATES;
use crate::forms::first_word;
use crate::horizon::HORIZONS;
use crate::script::words_in;
use crate::{Counts, Horizon, Loss, MadePhases, Network, Obstacle, Refusal, Routes, Unmet, Way};
use prefix6::Prefix;
use ripng_world::{Event, PathEnd};
use route_table::{Moment, Origin, Route, RouteStore};
use router_core::{Answer, Destination};
use std::alloc::{AllocError, Global};
use std::fmt;
use std::io::{self, Write};

/// What a line did, beside events.
#[derive(Drop)]
pub enum Notice<'a> {
    /// `print` asks for the routes of this router, or of all, to this prefix, or to all.
    Routes(&'a Network, Option<usize>, Option<&'a Prefix>),
    /// `sent` asks for the datagram of that number, or for all.
    Datagrams(&'a Network, Option<usize>),
    /// `path`: where packets go.
    Way(Way),
    /// `say`: its text.
    Said(&'a str),
    /// `horizon`: a router has another one from now on.
    Horizon {
        router: usize,
        horizon: Horizon,
    },
    /// With `asking`: a router asks its neighbors at this time, since it has lost a route. Its Requests are the next events.
    Asks {
        router: usize,
        now: Moment,
        loss: Loss,
    },
    /// `lose`: the datagram of this number is lost.
    Lost(usize),
    /// `rounds`: how many were made.
    Rounds(usize),
    /// `phases`: how many were made, and in which of them tables last changed.
    Phases(MadePhases),
    /// `run`: time has passed until this moment, at random by this seed.
    Ran {
        until: Moment,
        seed: u64,
    },
    /// `counts`: what has happened since the start, in numbers.
    Counts(Counts),
    /// A forged Response came, as the datagram of an outside host, and left the network like this. The answer is that of the router; its
    /// sends are the datagrams from the number after it on, and are not in the answer. It came by a line `liar`, or from the router of
    /// the last number, which is no router of RIPng.
    Lied(&'a Network, &'a Event<'a>, &'a Answer, usize, Option<usize>),
    /// The line is refused, and ends the script.
    Refused(Ending),
    /// The line expects what is not so, and ends the script.
    Unmet(Unmet),
}

/// An observer of a script. It is notified of each thing as soon as that is done, in order; of events as an observer of the network.
pub trait Watch: ripng_world::Observer<Routes, Fault = io::Error> {
    // What the start of a lab makes of it: how it was, the lab, the moment, and how it is then.
    ghost starts: { Self → LabValue → ℕ → Self → Type 0 };
    // What a notification makes of it that is of no event of the network: how it was, what it is notified of, and how it is then;
    // and what becomes of it where such a notification, or that of a start, fails.
    ghost notes: { Self → Aside → Self → Type 0 };

    /// The line of this number, from 1, is next; notifications from now on are of that line.
    fn at_line(&mut self, number: usize)
        ensures { notes self.old (NextLine number) self.new };

    /// The line `cold`: all routers have started at this moment.
    ///
    /// # Errors
    /// Of what the observer writes to, or out of memory; so are those below.
    fn started(&mut self, lab: &Network, now: Moment) -> io::Result<()>
        ensures starts { OnOk result (starts self.old lab.now now self.new) }
        ensures broken { OnErr result (notes self.old Broken self.new) };

    /// A line did this, beside events.
    fn noticed(&mut self, notice: Notice<'_>) -> io::Result<()>
        ensures notes { OnOk result (notes self.old (aside_of notice.entry) self.new) }
        ensures broken { OnErr result (notes self.old Broken self.new) };
}

/// Prints the routes and the datagrams that lines ask for, and the line that is refused or expects what is not so. Of events it
/// says nothing.
#[derive(Drop)]
pub struct Printer<'a, W: Write> {
    alloc: Global,
    names: Names<'a>,
    /// The number of the line that is done, from 1.
    pub line: usize,
    /// How a refused line has ended the script, if one has.
    pub ending: Option<Ending>,
    out: &'a mut W,
}

/// What is known of a script that a refused line has ended.
#[derive(Clone, Copy, Debug, PartialEq, Eq)]
pub struct Ending {
    /// The number of the line, from 1.
    pub line: usize,
    /// Why it is refused.
    pub refusal: Refusal,
    /// How many datagrams were sent.
    pub sent: usize,
    /// How many of them the line has sent.
    pub sent_by_line: usize,
}

impl<'a, W: Write> Printer<'a, W> {
    /// Nothing has happened yet.
    pub fn new(alloc: Global, names: Names<'a>, out: &'a mut W) -> Printer<'a, W> {
        Printer {
            alloc,
            names,
            line: 0,
            ending: None,
            out,
        }
    }

    /// Writes the routes of a router, or of all, to a prefix, or to all, in the order of routers, then of addresses, then of lengths.
    fn print(&mut self, lab: &Network, of: Option<usize>, to: Option<&Prefix>) -> io::Result<()> {
        for number in 0..lab.routers() {
            if of.is_none_or(|asked| asked == number)
                && let Some(router) = lab.router(number)
            {
                let mut routes = Vec::with_capacity(self.alloc, router.routes().len())?;
                router.routes().list(&mut routes);
                for (prefix, route) in &routes {
                    if to.is_none_or(|asked| asked == prefix) {
                        self.print_route(number, *prefix, *route)?;
                    }
                }
            }
        }
        Ok(())
    }

    fn print_route(&mut self, router: usize, prefix: Prefix, route: Route) -> io::Result<()> {
        let (name, metric, tag) = (self.names.of(router), route.metric(), route.tag());
        write!(self.out, "{name} {prefix} metric {metric} tag {tag} ")?;
        match route.origin() {
            Origin::Own => writeln!(self.out, "own"),
            Origin::Learned {
                iface,
                from,
                next_hop,
            } => writeln!(self.out, "via {next_hop} iface {iface} from {from}"),
        }
    }

    /// Writes the datagram of that number, or all that were ever sent, in order.
    fn print_sent(&mut self, lab: &Network, asked: Option<usize>) -> io::Result<()> {
        for (number, sent) in lab.sent().iter().enumerate() {
            if asked.is_none_or(|asked| asked == number) {
                let hex = hex::encode(self.alloc, sent.bytes.as_slice())?;
                let (router, iface) = (self.names.of(sent.router), sent.iface);
                write!(self.out, "{number} router {router} iface {iface} ")?;
                match sent.to {
                    Destination::Group => write!(self.out, "group ")?,
                    Destination::Peer { addr, port } => write!(self.out, "peer {addr} {port} ")?,
                }
                writeln!(self.out, "{hex}")?;
            }
        }
        Ok(())
    }

    fn print_way(&mut self, way: &Way) -> io::Result<()> {
        let (from, addr) = (self.names.of(way.router), way.addr);
        write!(self.out, "{from} {addr} path {from}")?;
        for hop in way.path.hops.iter() {
            write!(self.out, " {}", self.names.of(hop.router))?;
        }
        match way.path.end {
            PathEnd::Delivered => writeln!(self.out, " delivered")?,
            PathEnd::NoRoute => writeln!(self.out, " no route")?,
            PathEnd::NextHopIsNobodys => writeln!(self.out, " next hop is nobody's")?,
            PathEnd::Loops { from } => writeln!(self.out, " loops from {}", self.names.of(from))?,
        }
        match way.obstacle {
            Some(Obstacle::CutLink { router, link }) => {
                let at = self.names.of(router);
                writeln!(self.out, "{from} {addr} lost at {at}: link {link} is cut")
            }
            Some(Obstacle::SilentRouter { router }) => {
                let at = self.names.of(router);
                writeln!(self.out, "{from} {addr} lost at {at}: silent")
            }
            None => Ok(()),
        }
    }
}

impl<'a, W: Write> ripng_world::Observer<Routes> for Printer<'a, W> {
    type Fault = io::Error;

    ghost takes = { λ _ _ _. ⊤ };

    ghost fails = { λ _ _ _. ⊤ };

    fn happened(&mut self, _: &Network, _: &Event<'_>, _: &Answer, _: usize) -> io::Result<()> {
        Ok(())
    }
}

impl<'a, W: Write> Watch for Printer<'a, W> {
    ghost starts = { λ _ _ _ _. ⊤ };

    ghost notes = { λ _ _ _. ⊤ };

    fn at_line(&mut self, number: usize) {
        self.line = number;
    }

    fn started(&mut self, _: &Network, _: Moment) -> io::Result<()> {
        Ok(())
    }

    fn noticed(&mut self, notice: Notice<'_>) -> io::Result<()> {
        match notice {
            Notice::Routes(lab, router, prefix) => self.print(lab, router, prefix),
            Notice::Datagrams(lab, asked) => self.print_sent(lab, asked),
            Notice::Way(way) => self.print_way(&way),
            Notice::Horizon { router, horizon } => {
                let (router, name) = (self.names.of(router), name_of(&horizon, &HORIZONS));
                let words = match horizon {
                    Horizon::Poison => "as RIPng, but nothing is promised",
                    _ => "not RIPng, nothing is promised",
                };
                writeln!(self.out, "{router} horizon {name}: {words}")
            }
            Notice::Said(text) => writeln!(self.out, "{text}"),
            Notice::Asks { .. }
            | Notice::Lost(_)
            | Notice::Rounds(_)
            | Notice::Ran { .. }
            | Notice::Lied(..) => Ok(()),
            Notice::Counts(counts) => writeln!(self.out, "{counts}"),
            Notice::Phases(made) => writeln!(self.out, "{made}"),
            Notice::Refused(ending) => {
                self.ending = Some(ending);
                writeln!(self.out, "line {} refused {}", self.line, ending.refusal)
            }
            Notice::Unmet(unmet) => {
                write!(self.out, "line {} ", self.line)?;
                print_unmet(self.names, &unmet, self.out)?;
                writeln!(self.out)
            }
        }
    }
}

/// Writes what is not as a line expects, as it stands after `line L `, without the end of the line.
///
/// # Errors
/// Of the writer.
pub fn print_unmet<W: Write>(names: Names<'_>, unmet: &Unmet, out: &mut W) -> io::Result<()> {
    match unmet {
        Unmet::Metric(expected, found) => {
            let (router, found) = (names.of(expected.router), OrNone(*found));
            let (prefix, metric) = (expected.prefix, OrNone(expected.metric));
            write!(out, "expected {router} {prefix} {metric} found {found}")
        }
        Unmet::Fate {
            router,
            addr,
            expected,
            found,
        } => {
            let router = names.of(*router);
            let (fate, found) = (name_of(expected, &FATES), name_of(found, &FATES));
            write!(out, "expected path {router} {addr} {fate} found {found}")
        }
        Unmet::Settled { by, change } => {
            let router = names.of(change.router);
            let (by, at, prefix) = (by.ms(), change.at.ms(), change.prefix);
            write!(out, "expected settled {by} found {router} {prefix} at {at}")
        }
        Unmet::Healed {
            router,
            prefix,
            found,
        } => {
            let (router, found) = (names.of(*router), OrNone(*found));
            write!(out, "expected healed found {router} {prefix} {found}")
        }
        Unmet::Refusal(name, found) => {
            write!(out, "expected refused {} found ", name.word())?;
            match found {
                Some(found) => write!(out, "refused {found}"),
                None => write!(out, "done"),
            }
        }
        Unmet::End(name) => write!(out, "expected refused {} found end", name.word()),
    }
}

/// The names of a script's routers: that of each router, in order; empty for one without a name.
#[derive(Clone, Copy, Debug)]
pub struct Names<'a>(&'a [&'a str]);

/// A router of a script. Its text is its name, or its number if it has none.
#[derive(Clone, Copy, Debug)]
pub struct Named<'a> {
    pub name: Option<&'a str>,
    pub router: usize,
}

impl<'a> Names<'a> {
    /// These names, as [`names_of`] has them.
    pub fn new(names: &'a [&'a str]) -> Names<'a> {
        Names(names)
    }

    /// The router of that number.
    pub fn of(self, router: usize) -> Named<'a> {
        let name = self.0.get(router).copied().filter(|name| !name.is_empty());
        Named { name, router }
    }
}

impl<'a> fmt::Display for Named<'a> {
    fn fmt<W: fmt::Write>(&self, f: &mut fmt::Formatter<W>) -> fmt::Result {
        match self.name {
            Some(name) => f.write_str(name),
            None => write!(f, "{}", self.router),
        }
    }
}

/// The name of each router that a script lists, in order; empty for one without a name.
///
/// # Errors
/// Out of memory.
pub fn names_of<'a>(alloc: Global, script: &'a [u8]) -> Result<Vec<&'a str>, AllocError> {
    script
        .split(|byte| *byte == b'\n')
        .map(|line| words_in(line))
        .filter(|words| first_word(*words) == "router")
        .map(|words| words.rsplit_once(' ').map_or("", |(_, name)| name))
        .map(|name| if name == "quiet" { "" } else { name })
        .collect(alloc)
}
