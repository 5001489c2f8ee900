//! The ports of a run: which were bound, and the past of the link over them since it was closed.

ghost use Rattle.std.specs.Prelude.{◌≡◌, IfErr, IfOk, None, OnErr, OnOk, Some, length, map, vec_len, option_map};
ghost use Rattle.ripngd_udp.specs.Common.{links_at, NamesSocketOf, new_link, PortsState};

use crate::udp::{Udp, UdpError};
use ripngd_engine::{Entry, Peer, Place, Transcript};
use std::alloc::Global;
use std::marker::Model;
use std::net::Net;
use std::rt::Clock;

/// The ports of a run. Contracts see the peers on the links that were bound last, and each call of the link that was closed since,
/// with what `recv` returned.
#[derive(Drop)]
pub struct Ports {
    bound: Option<Transcript>,
    closed: Option<Transcript>,
}

impl Model for Ports {
    ghost Value = { PortsState };

    ghost view = { λ ports. record {
      on_links = option_map (λ t. links_at t.past.places t.past.peers) ports.bound;
      calls = option_map (λ t. t.past.calls) ports.closed;
    } };
}

impl Ports {
    /// No port was bound.
    pub fn new() -> Ports
        ensures { result ≡ record { on_links = None; calls = None } }
    {
        Ports {
            bound: None,
            closed: None,
        }
    }

    /// Binds ports, as [`Udp::bind`] does.
    ///
    /// # Errors
    /// Those of [`Udp::bind`].
    pub fn bind<'a, R: Clock + Net>(
        &mut self,
        rt: &'a R,
        alloc: Global,
        places: &[Place],
        peers: Vec<Vec<Peer>>,
    ) -> Result<Udp<'a, R>, UdpError>
        requires { length places.now ≡ vec_len peers }
        ensures bound { IfOk result (λ link. link ≡ new_link places.now (map (λ v. v.items) peers.items)) }
        ensures ports { OnOk result (self.new
            ≡ record { on_links = Some (links_at places.now (map (λ v. v.items) peers.items)); calls = None }) }
        ensures refused { IfErr result (NamesSocketOf places.now) }
        ensures err { OnErr result (self.new ≡ self.old) }
    {
        let bound = Transcript::of(&Entry::Bound(places, peers.as_slice()));
        let link = Udp::bind(rt, alloc, places, peers)?;
        self.bound = Some(bound);
        self.closed = None;
        Ok(link)
    }

    /// Closes the sockets of a link.
    pub fn close<R: Clock>(&mut self, link: Udp<'_, R>)
        ensures { self.new ≡ record self.old { calls = Some link.entry.calls } }
    {
        self.closed = Some(link.transcript);
    }
}
