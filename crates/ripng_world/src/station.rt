//! A router that runs in a network.

ghost use Rattle.std.specs.Prelude.{◌≡◌, ℕ, ◌+◌, ◌≤◌, ◌++◌, IfErr, IfOk, OnErr, map, length, vec_len, vec_capacity};
ghost use Rattle.ripng_world.specs.Common.{Happening, Moves, Starts, event_of, IsFor, address_at, config_of, interface_at, IsPlaced, most_sends, network_of, own_refusal, sent_by, Sent as SentValue, StationValue, coded_states};

use crate::event::{Event, LabError, Sent};
use crate::network::{NetInterface, NetRouter, Node};
use prefix6::Addr6;
use route_table::{Moment, RouteStore};
use router_core::{Answer, Arrival, Listed, Outgoing, Router};
use std::alloc::{AllocError, Global};
use std::marker::Model;

/// A router, and what it was configured to be when it started. Its costs and owned prefixes may have changed since.
#[derive(Drop)]
pub struct Station<S: RouteStore> {
    node: Node,
    router: Router<S>,
}

impl<S: RouteStore> Model for Station<S> {
    ghost Value = { StationValue };

    ghost coded = { Prim.hlevel coded_states };

    ghost view = { λ s. record { node = s.node; state = s.router } };

    ghost invariant = { λ s. length s.router.config.interfaces ≡ length s.node.interfaces };
}

/// An interface of a router of the network.
pub fn interface_at<S: RouteStore>(
    stations: &[Station<S>],
    router: usize,
    iface: usize,
) -> Option<NetInterface>
    ensures { result ≡ interface_at (network_of stations.now) router iface }
{
    stations.get(router)?.interfaces().get(iface).copied()
}

/// The address from which a datagram comes: that of the interface that sent it.
pub fn source_of<S: RouteStore>(stations: &[Station<S>], datagram: &Sent) -> Addr6
    ensures { result ≡ address_at (network_of stations.now) datagram.now.router datagram.now.iface }
{
    let sender = interface_at(stations, datagram.router, datagram.iface);
    sender.map_or(Addr6::from_bits(0), |i| i.interface.addr)
}

/// What a router sent is added to all that was ever sent.
pub fn file(sent: &mut Vec<Sent>, router: usize, sends: Listed<Outgoing>)
    requires { vec_len sent.old + length sends ≤ vec_capacity sent.old }
    ensures { sent.new.items ≡ sent.old.items ++ map (sent_by router) sends }
{
    for outgoing in sends.into_vec() {
        sent.push_reserved(Sent {
            router,
            iface: outgoing.iface,
            to: outgoing.to,
            bytes: outgoing.bytes,
        });
    }
}

impl<S: RouteStore> Station<S> {
    /// The router of a network starts, or memory is refused.
    pub fn start(
        alloc: Global,
        router: NetRouter,
        now: Moment,
    ) -> Result<(Station<S>, Answer), AllocError>
        ensures node { IfOk result (λ r. r.0.node ≡ router) }
        ensures starts { IfOk result (λ r. Starts (config_of router) now r.1 r.0.state) }
    {
        let NetRouter { interfaces, config } = router;
        let node = Node {
            interfaces,
            prefixes: Vec::from_slice(alloc, config.prefixes())?,
            quiet: config.is_quiet(),
        };
        let (router, answer) = Router::start(alloc, config, now)?;
        Ok((Station { node, router }, answer))
    }

    /// The router.
    pub fn router(&self) -> &Router<S>
        ensures { result.now ≡ self.now.state }
    {
        &self.router
    }

    /// Its interfaces as they were configured when it started.
    pub fn interfaces(&self) -> &[NetInterface]
        ensures { result.now ≡ self.now.node.interfaces }
    {
        &self.node.interfaces
    }

    /// The most datagrams in an answer to an event, which may deliver one of those that were sent.
    pub fn room(&self, event: &Event<'_>, sent: &[Sent]) -> usize
        requires { IsPlaced self.now.node sent.now (event_of event.now) }
        ensures value { (address : SentValue → ℕ) (h : Happening) → IsFor address sent.now (event_of event.entry.now) h → result ≡ most_sends self.now.state h }
        ensures interfaces { length self.now.state.config.interfaces ≡ length self.now.node.interfaces }
    {
        let routes = self.router.routes().len();
        let interfaces = self.router.config().interfaces().len();
        match event {
            Event::Deliver { datagram, .. } => {
                routes.max(sent[*datagram].bytes.as_slice().len() / 20)
            }
            Event::Stranger { arrival, .. } => routes.max(arrival.bytes.len() / 20),
            Event::Tick { .. } | Event::Shutdown { .. } => routes * interfaces,
            Event::Restart { .. } => interfaces,
            Event::LinkUp { .. } => 1,
            Event::LinkDown { .. } | Event::Reconfigure { .. } => 0,
        }
    }

    /// An event happens at the router. A delivery brings one of the datagrams that were sent, from that address. A change of the
    /// configuration may be refused, else only memory; the router is then unchanged.
    pub fn happen(
        &mut self,
        event: &Event<'_>,
        sent: &[Sent],
        source: Addr6,
    ) -> Result<Answer, LabError>
        requires { IsPlaced self.old.node sent.now (event_of event.now) }
        ensures moves { IfOk result (λ answer. (h : Happening) → IsFor (λ _. source) sent.now (event_of event.entry.now) h → Moves self.old.state h answer self.new.state) }
        ensures few { IfOk result (λ answer. (h : Happening) → IsFor (λ _. source) sent.now (event_of event.entry.now) h → length answer.sends ≤ most_sends self.old.state h) }
        ensures node { self.new.node ≡ self.old.node }
        ensures refused { IfErr result (λ why. why ≡ own_refusal self.old.state (event_of event.entry.now)) }
        ensures err { OnErr result (self.new ≡ self.old) }
    {
        match event {
            Event::Deliver {
                datagram,
                iface,
                now,
                ..
            } => {
                let arrival = sent[*datagram].arrival(source, *iface, *now);
                Ok(self.router.arrive(arrival)?)
            }
            Event::Stranger { arrival, .. } => Ok(self.router.arrive(Arrival { ..*arrival })?),
            Event::Tick { now, word, .. } => Ok(self.router.tick(*now, *word)?),
            Event::Restart { now, .. } => Ok(self.router.restart(*now)?),
            Event::Shutdown { now, .. } => Ok(self.router.shutdown(*now)?),
            Event::LinkDown { now, iface, .. } => Ok(self.router.link_down(*now, *iface)?),
            Event::LinkUp { now, iface, .. } => Ok(self.router.link_up(*now, *iface)?),
            Event::Reconfigure { now, change, .. } => Ok(self.router.reconfigure(*now, *change)?),
        }
    }
}
