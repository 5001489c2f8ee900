//! What is under way on the links of a network.

ghost use Rattle.std.specs.Prelude.{◌≡◌, ℕ, ◌==◌, cond, IsTrue, OnErr, OnOk, Some, slice_get};
ghost use Rattle.ripng_clock.specs.Common.{Has, IsAdded, IsFirst, IsRemoved, carriage_of, carriage_on, prompt};

use crate::agenda::Agenda;
use crate::carrying::Carriage;
use ripng_world::{Running, Sent};
use route_table::RouteStore;
use std::alloc::{AllocError, Global};
use std::collections::BTreeMap;

/// Which datagrams are under way and when each comes, how links carry them, and until when time has passed. It is kept from one run
/// to the next.
#[derive(Drop)]
pub struct Timetable {
    /// How links carry datagrams. Each other one is prompt.
    links: BTreeMap<u32, Carriage>,
    /// When each datagram comes, in milliseconds.
    pub(crate) under_way: Agenda,
    /// The end of the last run, in milliseconds, or 0.
    pub(crate) over: u64,
}

impl Timetable {
    /// Nothing is under way, and each link is prompt.
    pub fn new(alloc: Global) -> Timetable
        ensures links { (link : ℕ) → carriage_on result link ≡ prompt }
        ensures empty { (time datagram : ℕ) → Has result.under_way time datagram → ⊥ }
        ensures over { result.over ≡ 0 }
    {
        Timetable {
            links: BTreeMap::new(alloc),
            under_way: Agenda::new(alloc),
            over: 0,
        }
    }

    /// A link carries datagrams so from now on. Those that are under way come when they were to come.
    ///
    /// # Errors
    /// Out of memory, and the link carries as before.
    pub fn set(&mut self, link: u32, carriage: Carriage) -> Result<(), AllocError>
        ensures set { OnOk result ((other : ℕ) → carriage_on self.new other ≡ cond (link == other) carriage (carriage_on self.old other)) }
        ensures same { OnErr result ((other : ℕ) → carriage_on self.new other ≡ carriage_on self.old other) }
        ensures under_way { self.new.under_way ≡ self.old.under_way }
        ensures over { self.new.over ≡ self.old.over }
    {
        self.links.insert(link, carriage)?;
        Ok(())
    }

    /// How a link carries datagrams.
    pub fn carriage(&self, link: u32) -> Carriage
        ensures { result ≡ carriage_on self.now link }
    {
        match self.links.get(&link) {
            Some(carriage) => *carriage,
            None => Carriage::PROMPT,
        }
    }

    /// How the link of a datagram carries it.
    pub(crate) fn carriage_of<S: RouteStore>(&self, running: &Running<S>, sent: &Sent) -> Carriage
        ensures { result ≡ carriage_of self.now running.now sent.now }
    {
        match running.link(sent.router, sent.iface) {
            Some(link) => self.carriage(u32::from(link)),
            None => Carriage::PROMPT,
        }
    }

    /// Whether nothing is under way.
    pub fn is_empty(&self) -> bool
        ensures { IsTrue result → (time datagram : ℕ) → Has self.now.under_way time datagram → ⊥ }
    {
        self.under_way.is_empty()
    }
}
