//! Where packets go by the tables of routers that run: from router to router, each by its longest match, until the way ends.

ghost use Rattle.std.specs.Prelude.{◌≡◌, ◌<◌, ◌≤◌, ◌≢◌, ◌^◌, ◌⊎◌, ◌↔◌, IfErr, IfOk, IfSome, IsNone, length, option_map};
ghost use Rattle.ripng_world.specs.Common.{IsLongestMatch, IsMatch, Prefix6, cleared, forwards, network_now, HandsOn, forwardings_of, EndsAt, IsPath, LeadsTo, Hop as WalkHop, past_of, PathValue};
ghost use Rattle.std.specs.FinMap as map_of;

use crate::event::LabError;
use crate::lab::Lab;
use crate::running::Running;
use crate::station::interface_at;
use fib::Hop;
use prefix6::{Addr6, Prefix};
use route_table::{INFINITY, Origin, RouteStore};
use std::marker::Model;

/// A hop of packets, across a link to another router.
#[derive(Clone, Copy, Debug, PartialEq, Eq)]
pub struct PathHop {
    /// The interface by which they leave the router where they are.
    pub iface: usize,
    /// The router that they come to.
    pub router: usize,
    /// The interface of that router on the link. It has the address of the next hop.
    pub router_iface: usize,
}

impl Model for PathHop {
    ghost use Rattle.ripng_world.specs.Walks as walks;

    ghost Value = { walks.Hop };

    ghost view = { λ h. record { iface = h.iface; router = h.router; router_iface = h.router_iface } };

    ghost inverse = { λ v. record { iface = v.iface; router = v.router; router_iface = v.router_iface } };
}

/// How a way ends, at its last router.
#[derive(Clone, Copy, Debug, PartialEq, Eq)]
pub enum PathEnd {
    /// That router owns the longest prefix of its table that holds the address.
    Delivered,
    /// No prefix of that router's table holds the address: it drops the packets.
    NoRoute,
    /// That router forwards to an address that no other router of the link has: nobody takes the packets.
    NextHopIsNobodys,
    /// That router, `from`, has handed the packets on before: they go round from it until their hop limit is used up.
    Loops { from: usize },
}

/// The way of packets for an address from a router, as the tables are.
#[derive(Debug, Drop)]
pub struct Path {
    /// The hops, in order.
    pub hops: Vec<PathHop>,
    /// How it ends.
    pub end: PathEnd,
}

impl Model for Path {
    ghost Value = { PathValue };

    ghost view = { λ p. record { hops = p.hops.items; end = p.end } };
}

/// Where packets go by the prefix of that length that holds the address, if the table forwards to it.
fn hop_at<S: RouteStore>(routes: &S, addr: Addr6, len: u8) -> Option<Hop>
    requires { len ≤ 128 }
    ensures value { result ≡ option_map (λ f. f.hop) (map_of.get (forwards (S.table routes.now)) (cleared addr len)) }
    ensures in_range { addr < 2 ^ 128 }
{
    let Ok(prefix) = Prefix::new(addr, len) else {
        unreachable!()
    };
    let route = routes.get(&prefix)?;
    if route.metric() >= INFINITY {
        return None;
    }
    match route.origin() {
        Origin::Own => Some(Hop::Direct),
        Origin::Learned {
            iface,
            next_hop,
            ..
        } => Some(Hop::Via { iface, next_hop }),
    }
}

/// The hop of the longest prefix that the table forwards to and that holds the address (RFC 4632, section 5.1; RFC 7608, section 2),
/// in at most 129 look-ups.
fn longest_match<S: RouteStore>(routes: &S, addr: Addr6) -> Option<Hop>
    ensures found { IfSome result (IsLongestMatch (forwards (S.table routes.now)) addr) }
    ensures none { IsNone result → (p : Prefix6) → ¬ (IsMatch (forwards (S.table routes.now)) addr p) }
{
    (0..129).rev().find_map(|len| hop_at(routes, addr, len))
}

impl<S: RouteStore> Running<S> {
    /// The hop from a router by one of its interfaces to that other router, if it has the next hop's address on the link.
    fn hop_to(&self, router: usize, iface: usize, next_hop: Addr6, other: usize) -> Option<PathHop>
        ensures found { IfSome result (LeadsTo self.now.network router iface next_hop) }
        ensures none { IsNone result → (h : WalkHop) → LeadsTo self.now.network router iface next_hop h → h.router ≢ other }
    {
        if other == router {
            return None;
        }
        let here = interface_at(&self.stations, router, iface)?;
        let station = self.stations.get(other)?;
        let router_iface = station
            .interfaces()
            .iter()
            .position(|i| i.link == here.link && i.interface.addr == next_hop)?;
        Some(PathHop {
            iface,
            router: other,
            router_iface,
        })
    }

    /// The hop from a router by one of its interfaces to the next hop's address, if another router of the link has it.
    fn neighbor(&self, router: usize, iface: usize, next_hop: Addr6) -> Option<PathHop>
        ensures found { IfSome result (LeadsTo self.now.network router iface next_hop) }
        ensures none { IsNone result → (h : WalkHop) → ¬ (LeadsTo self.now.network router iface next_hop h) }
    {
        (0..self.routers()).find_map(|other| self.hop_to(router, iface, next_hop, other))
    }

    /// The hop by which a router hands on packets for the address, or how the way ends there.
    fn hand_on(&self, router: usize, addr: Addr6) -> Result<PathHop, PathEnd>
        ensures hop { IfOk result (HandsOn self.now.network (forwardings_of self.now.world) addr router) }
        ensures end { IfErr result (EndsAt self.now.network (forwardings_of self.now.world) addr router) }
    {
        let here = self.router(router).ok_or(PathEnd::NoRoute)?;
        match longest_match(here.routes(), addr).ok_or(PathEnd::NoRoute)? {
            Hop::Direct => Err(PathEnd::Delivered),
            Hop::Via { iface, next_hop } => self
                .neighbor(router, iface, next_hop)
                .ok_or(PathEnd::NextHopIsNobodys),
        }
    }

    /// The way of packets for an address from a router: each router hands them on by the longest match of its table.
    ///
    /// # Errors
    /// `NoSuchRouter` exactly where the network has no such router, else out of memory.
    pub fn path(&self, router: usize, addr: Addr6) -> Result<Path, LabError>
        ensures path { IfOk result (IsPath self.now.network (forwardings_of self.now.world) addr router) }
        ensures missing { (result ≡ Err LabError.NoSuchRouter) ↔ (length self.now.network ≤ router) }
        ensures refused { IfErr result (λ why. (why ≡ LabError.NoSuchRouter) ⊎ (why ≡ LabError.OutOfMemory)) }
    {
        if router >= self.routers() {
            return Err(LabError::NoSuchRouter);
        }
        let mut hops = Vec::new(self.alloc);
        let mut passed = Vec::new(self.alloc);
        let mut at = router;
        while !passed.contains(&at) {
            match self.hand_on(at, addr) {
                Err(end) => return Ok(Path { hops, end }),
                Ok(hop) => {
                    passed.push(at).map_err(|_| LabError::OutOfMemory)?;
                    hops.push(hop).map_err(|_| LabError::OutOfMemory)?;
                    at = hop.router;
                }
            }
        }
        let end = PathEnd::Loops { from: at };
        Ok(Path { hops, end })
    }
}

impl<S: RouteStore> Lab<S> {
    /// The way of packets for an address from a router, in the network as it is now: each router hands them on by the longest match
    /// of its table. Where packets arrive, as in a lab that has healed, the way ends at an owner (`path_arrives`).
    ///
    /// # Errors
    /// `NoSuchRouter` exactly where the network has no such router, else out of memory.
    pub fn path(&self, router: usize, addr: Addr6) -> Result<Path, LabError>
        ensures path { IfOk result (IsPath (network_now (past_of self.now.network self.now.world)) (forwardings_of self.now.world) addr router) }
        ensures missing { (result ≡ Err LabError.NoSuchRouter) ↔ (length self.now.network ≤ router) }
        ensures refused { IfErr result (λ why. (why ≡ LabError.NoSuchRouter) ⊎ (why ≡ LabError.OutOfMemory)) }
    {
        self.running().path(router, addr)
    }
}
