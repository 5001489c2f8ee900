//! How links carry datagrams, and what takes part.

ghost use Rattle.std.specs.Prelude.{◌≡◌, IfOk, IfSome, IsTrue, None, Some, false, slice_get};
ghost use Rattle.ripng_clock.specs.Common.{Asked, Sent as SentValue, address_in, is_address, is_carried, is_for, receivers_of, takes_part};

use prefix6::Addr6;
use ripng_world::{Running, Sent};
use route_table::{Moment, RouteStore};
use router_core::Destination;
use std::alloc::AllocError;
use std::marker::Model;

/// How a link carries datagrams.
#[derive(Clone, Copy, Debug, PartialEq, Eq)]
pub struct Carriage {
    /// How long each is under way, in milliseconds.
    pub delay_ms: u32,
    /// How many in a hundred are lost at each interface, by a random word.
    pub loss: u8,
}

impl Carriage {
    /// A link on which each datagram comes at once.
    pub const PROMPT: Carriage = Carriage {
        delay_ms: 0,
        loss: 0,
    };
}

/// What is asked of a run.
#[derive(Drop)]
pub struct Span<'a> {
    /// Until when time passes. What is due at this moment still happens.
    pub until: Moment,
    /// The number of a datagram. It and those after it set out as the run begins.
    pub first: usize,
    /// Routers that are silent, by number: they neither tick nor receive, and what they have sent does not come.
    pub silent: &'a [usize],
    /// Links that nothing crosses, by number.
    pub cut: &'a [usize],
    /// Datagrams that are lost, by number.
    pub lost: &'a [usize],
}

impl<'a> Model for Span<'a> {
    ghost Value = { Asked };

    ghost view = { λ s. record {
      until = s.until;
      first = s.first;
      silent = s.silent.now;
      cut = s.cut.now;
      lost = s.lost.now;
    } };
}

impl<'a> Span<'a> {
    /// Whether a router ticks and receives.
    pub(crate) fn has(&self, router: usize) -> bool
        ensures { result ≡ takes_part self.now router }
    {
        !self.silent.contains(&router)
    }

    /// Whether a datagram that was sent gets on its way: it is not lost, its sender is not silent, and its link is not cut.
    fn lets_out<S: RouteStore>(&self, running: &Running<S>, datagram: usize, sent: &Sent) -> bool
        ensures { result ≡ is_carried self.now running.now datagram sent.now }
    {
        if self.lost.contains(&datagram) || !self.has(sent.router) {
            return false;
        }
        match running.link(sent.router, sent.iface) {
            Some(link) => !self.cut.contains(&(link as usize)),
            None => true,
        }
    }

    /// The datagram of that number, if there is one and it gets on its way.
    pub(crate) fn carried<'b, S: RouteStore>(
        &self,
        running: &'b Running<S>,
        datagram: usize,
    ) -> Option<&'b Sent>
        ensures there { IfSome result (λ d. slice_get running.now.world.sent datagram ≡ Some d.now) }
        ensures out { IfSome result (λ d. IsTrue (is_carried self.now running.now datagram d.now)) }
        ensures none { result ≡ None → (d : SentValue) → slice_get running.now.world.sent datagram ≡ Some d → is_carried self.now running.now datagram d ≡ false }
    {
        let sent = running.sent().get(datagram)?;
        if self.lets_out(running, datagram, sent) {
            Some(sent)
        } else {
            None
        }
    }

    /// Where a datagram comes, if nothing is lost: each other interface of its link of a router that is not silent. One to an asker
    /// comes to the interfaces of its address alone.
    ///
    /// # Errors
    /// Out of memory.
    pub(crate) fn receivers<S: RouteStore>(
        &self,
        running: &Running<S>,
        sent: &Sent,
    ) -> Result<Vec<(usize, usize)>, AllocError>
        ensures { IfOk result (λ receivers. receivers.items ≡ receivers_of self.now running.now sent.now) }
    {
        let mut receivers = running.receivers(sent)?;
        receivers.retain(|&(router, iface)| {
            self.has(router) && is_for(running, sent, router, iface)
        });
        Ok(receivers)
    }
}

/// Whether a datagram is for an interface: it goes to the group of its link, or to the interface's own address.
fn is_for<S: RouteStore>(running: &Running<S>, sent: &Sent, router: usize, iface: usize) -> bool
    ensures { result ≡ is_for running.now.world sent.now.to router iface }
{
    match sent.to {
        Destination::Group => true,
        Destination::Peer { addr, .. } => is_at(running, addr, router, iface),
    }
}

/// Whether that is the address of an interface.
fn is_at<S: RouteStore>(running: &Running<S>, addr: Addr6, router: usize, iface: usize) -> bool
    ensures { result ≡ is_address addr (address_in running.now.world router iface) }
{
    match address(running, router, iface) {
        Some(own) => addr == own,
        None => false,
    }
}

/// The address of an interface, if there is one.
fn address<S: RouteStore>(running: &Running<S>, router: usize, iface: usize) -> Option<Addr6>
    ensures { result ≡ address_in running.now.world router iface }
{
    let interface = running.router(router)?.config().interfaces().get(iface)?;
    Some(interface.addr)
}
