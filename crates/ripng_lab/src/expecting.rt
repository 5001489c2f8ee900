//! What a script expects of a table, and whether the table has it. And where packets go: the path that the tables give them, and where
//! on it they are lost for a reason that no table has.

ghost use Rattle.std.specs.Prelude.{◌≡◌, IfErr, IfOk, OnOk, Some};
ghost use Rattle.ripng_lab.specs.Common.{forwardings_of, IsPath, HasMissed, HasMoved, IsSettled, metric_at, fate_of};

use crate::{Counter, Network, Outages, Outcome, Refusal, Stop, Unmet};
use prefix6::{Addr6, Prefix};
use ripng_world::{LabError, Path, PathEnd, Running};
use route_table::{Moment, RouteStore};
use std::io;

/// What a script expects of a router's table.
#[derive(Clone, Copy, Debug, PartialEq, Eq)]
pub struct Expected {
    /// The number of the router.
    pub router: usize,
    pub prefix: Prefix,
    /// The metric of the route to the prefix, 16 if it is unreachable; `None` if no route is expected.
    pub metric: Option<u8>,
}

/// Meets an expectation exactly where the router's table has that metric for the prefix, or no route where none is expected.
///
/// # Errors
/// What was found in its place, or that there is no such router.
pub fn meet<S: RouteStore>(lab: &Running<S>, expected: Expected) -> Outcome
    ensures met { OnOk result (metric_at lab.now.world.states expected.router expected.prefix ≡ Some expected.metric) }
    ensures missed { IfErr result (HasMissed lab.now.world.states expected) }
{
    let Some(router) = lab.router(expected.router) else {
        return Err(Stop::Refused(Refusal::Event(LabError::NoSuchRouter)));
    };
    let route = router.routes().get(&expected.prefix);
    let found = route.map(|route| route.metric());
    if found == expected.metric {
        return Ok(());
    }
    Err(Stop::Unmet(Unmet::Metric(expected, found)))
}

/// Meets an expectation exactly where no forwarding table has changed after a moment, as it was counted.
///
/// # Errors
/// What changed last; or memory ran out for the counter.
pub fn settle(counter: &Counter, by: Moment) -> Outcome
    ensures met { OnOk result (IsSettled counter.now.counts by) }
    ensures missed { IfErr result (HasMoved counter.now by) }
{
    let counts = match counter.counts() {
        Ok(counts) => counts,
        Err(error) => return Err(Stop::Failed(io::Error::from(error))),
    };
    match counts.last {
        Some(change) if change.at.ms() > by.ms() => {
            Err(Stop::Unmet(Unmet::Settled { by, change }))
        }
        _ => Ok(()),
    }
}

/// What becomes of packets.
#[derive(Clone, Copy, Debug, PartialEq, Eq)]
pub enum Fate {
    /// They come to an owner of their longest prefix.
    Arrives,
    /// They go round until their hop limit is used up.
    Loops,
    /// They are dropped.
    Lost,
}

/// What each is called.
pub const FATES: [(&str, Fate); 3] = [
    ("arrives", Fate::Arrives),
    ("loops", Fate::Loops),
    ("lost", Fate::Lost),
];

/// Why packets get no further than a router, though its table forwards them.
#[derive(Clone, Copy, Debug, PartialEq, Eq)]
pub enum Obstacle {
    /// The link that they would cross is cut.
    CutLink { router: usize, link: u32 },
    /// The router is silent.
    SilentRouter { router: usize },
}

/// The way of packets for an address from a router.
#[derive(Debug, Drop)]
pub struct Way {
    pub router: usize,
    pub addr: Addr6,
    /// What the tables say.
    pub path: Path,
    /// The first obstacle on that path, of which the tables know nothing.
    pub obstacle: Option<Obstacle>,
}

impl Way {
    /// The way of packets for an address from a router, as the tables and the outages are.
    ///
    /// # Errors
    /// `NoSuchRouter`, or out of memory.
    pub fn of(lab: &Network, outages: &Outages, router: usize, addr: Addr6) -> Result<Way, Stop>
        ensures path { IfOk result (λ way. IsPath lab.now.network (forwardings_of lab.now.world) addr router way.path) }
        ensures asked { IfOk result (λ way. (way.router ≡ router) × (way.addr ≡ addr)) }
    {
        let path = lab.path(router, addr)?;
        let obstacle = obstacle_on(lab, outages, router, &path);
        Ok(Way {
            router,
            addr,
            path,
            obstacle,
        })
    }

    /// What becomes of the packets.
    pub fn fate(&self) -> Fate
        ensures { result ≡ fate_of self.now.path.end self.now.obstacle }
    {
        match (self.obstacle, self.path.end) {
            (None, PathEnd::Delivered) => Fate::Arrives,
            (None, PathEnd::Loops { .. }) => Fate::Loops,
            _ => Fate::Lost,
        }
    }
}

fn obstacle_on(lab: &Network, outages: &Outages, from: usize, path: &Path) -> Option<Obstacle> {
    let mut router = from;
    for hop in path.hops.iter() {
        if outages.silent.contains(&router) {
            break;
        }
        if let Some(link) = lab.link(router, hop.iface)
            && outages.cut.contains(&(link as usize))
        {
            return Some(Obstacle::CutLink { router, link });
        }
        router = hop.router;
    }
    let is_silent = outages.silent.contains(&router);
    is_silent.then_some(Obstacle::SilentRouter { router })
}
