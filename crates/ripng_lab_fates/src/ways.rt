//! Where packets for an address go, router by router: what each one's table does with them, and what becomes of them from there on.

ghost use Rattle.std.specs.Prelude.{◌≡◌, ◌↔◌, [], IfOk, IsTrue, OnOk, slice_set};
ghost use Rattle.fib.specs.Forwarding.{prefix_of};
ghost use Rattle.prefix6.specs.Prefix.{Holds};
ghost use Rattle.ripng_world.specs.Events.{event_of};
ghost use Rattle.ripng_world.specs.Packets.{forwardings_of};
ghost use Rattle.ripng_lab_fates.specs.Ways.{AreSteps, IsStep, fate_at, has_change, is_about, may_turn, pass, passed_by, way_by};

use crate::outages::{Change, Thing, is_cut, is_out};
use fib::RouteChange;
use prefix6::Addr6;
use ripng_lab::Network;
use ripng_world::{Event, PathEnd};
use router_core::Answer;
use std::alloc::{AllocError, Global};

/// What a router does with the packets, by its table.
#[derive(Clone, Copy, Debug, PartialEq, Eq)]
pub(crate) enum Step {
    /// It hands them on to that router, across that link.
    On { router: usize, link: Option<u32> },
    /// Their way ends here.
    Ends(PathEnd),
}

/// What becomes of the packets.
#[derive(Clone, Copy, Debug, PartialEq, Eq)]
pub(crate) enum Fate {
    /// They come to an owner of their longest prefix.
    Arrives,
    /// They are dropped by a router without a route.
    NoRoute,
    /// They are handed to an address that no other router of the link has.
    NextHopIsNobodys,
    /// They go round until their hop limit is used up.
    Loops,
    /// They are lost at a link that is cut.
    CutLink,
    /// They are lost at a router that is silent.
    SilentRouter,
}

/// What becomes of packets, and at which router. If they go round, it is the first one that they come to twice.
#[derive(Clone, Copy, Debug, PartialEq, Eq)]
pub(crate) struct Way {
    pub fate: Fate,
    pub at: usize,
}

// ---- steps

/// What a router does with packets for an address.
///
/// # Errors
/// Out of memory; so are those below.
pub(crate) fn step_of(lab: &Network, router: usize, addr: Addr6) -> Result<Step, AllocError>
    ensures { IfOk result (IsStep lab.now.network (forwardings_of lab.now.world) addr router) }
{
    let Ok(path) = lab.path(router, addr) else {
        return Err(AllocError);
    };
    match path.hops.first() {
        Some(hop) => Ok(Step::On {
            router: hop.router,
            link: lab.link(router, hop.iface),
        }),
        None => Ok(Step::Ends(path.end)),
    }
}

/// The same of each router, in order.
pub(crate) fn steps_of(alloc: Global, lab: &Network, addr: Addr6) -> Result<Vec<Step>, AllocError>
    ensures { IfOk result (λ steps. AreSteps lab.now addr steps.items) }
{
    let mut steps = Vec::new(alloc);
    for router in 0..lab.routers() {
        steps.push(step_of(lab, router, addr)?)?;
    }
    Ok(steps)
}

/// A router does this from now on, if it is there.
pub(crate) fn set_step(steps: &mut [Step], router: usize, step: Step)
    ensures { steps.new ≡ slice_set steps.old router step }
{
    if router < steps.len() {
        steps[router] = step;
    }
}

/// Whether a change of a forwarding entry is one for a prefix that holds the address.
fn is_about(change: &RouteChange, addr: Addr6) -> bool
    ensures { result ≡ is_about addr change.now }
{
    match change {
        RouteChange::Install { prefix, .. } | RouteChange::Withdraw { prefix } => {
            prefix.contains(addr)
        }
    }
}

/// Whether one of some changes is.
fn has_change(changes: &[RouteChange], addr: Addr6) -> bool
    ensures { result ≡ has_change addr changes.now }
{
    for change in changes {
        if is_about(change, addr) {
            return true;
        }
    }
    false
}

/// Whether an event may change what its router does with packets for an address: it restarts, or its table changes at a prefix that holds
/// the address.
pub(crate) fn may_turn(event: &Event<'_>, answer: &Answer, addr: Addr6) -> bool
    ensures { result ≡ may_turn addr (event_of event.entry.now) answer.now }
{
    match event {
        Event::Restart { .. } => true,
        _ => has_change(answer.changes.as_slice(), addr),
    }
}

// ---- ways

/// What becomes of packets where their way ends so.
fn fate_at(end: PathEnd) -> Fate
    ensures { result ≡ fate_at end }
{
    match end {
        PathEnd::Delivered => Fate::Arrives,
        PathEnd::NoRoute => Fate::NoRoute,
        PathEnd::NextHopIsNobodys => Fate::NextHopIsNobodys,
        PathEnd::Loops { .. } => Fate::Loops,
    }
}

/// To which router a step takes packets, or why they get no further.
fn pass_by(changes: &[Change], step: Step) -> Result<usize, Fate>
    ensures { result ≡ passed_by changes.now step }
{
    match step {
        Step::On { router, link } => {
            if is_cut(changes, link) {
                Err(Fate::CutLink)
            } else {
                Ok(router)
            }
        }
        Step::Ends(end) => Err(fate_at(end)),
    }
}

/// To which router packets go from another, or why they get no further.
fn pass(steps: &[Step], changes: &[Change], at: usize) -> Result<usize, Fate>
    ensures { result ≡ pass steps.now changes.now at }
{
    if is_out(changes, Thing::Router(at)) {
        return Err(Fate::SilentRouter);
    }
    match steps.get(at) {
        Some(step) => pass_by(changes, *step),
        None => Err(Fate::NoRoute),
    }
}

/// What becomes of packets from a router. No router hands them on twice before they come back to one, so there are at most as many steps
/// as routers.
pub(crate) fn way_from(
    alloc: Global,
    steps: &[Step],
    changes: &[Change],
    router: usize,
) -> Result<Way, AllocError>
    ensures { IfOk result (λ way. way ≡ way_by steps.now steps.now changes.now [] router) }
{
    let mut passed = Vec::new(alloc);
    let mut at = router;
    for _step in steps {
        match pass(steps, changes, at) {
            Err(fate) => return Ok(Way { fate, at }),
            Ok(next) => {
                passed.push(at)?;
                at = next;
            }
        }
        if passed.contains(&at) {
            let fate = Fate::Loops;
            return Ok(Way { fate, at });
        }
    }
    let fate = Fate::Loops;
    Ok(Way { fate, at })
}
