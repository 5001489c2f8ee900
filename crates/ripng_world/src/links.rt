//! Which interfaces are on each link of a network: lists that are made once, since a network's links never change.

ghost use Rattle.std.specs.Prelude.{◌≡◌, ℕ, ◌++◌, [], OnOk, IfOk};
ghost use Rattle.ripng_world.specs.Common.{AreListed, interfaces_there, listed_on, network_of, place_if};

use crate::network::NetInterface;
use crate::station::Station;
use route_table::RouteStore;
use std::alloc::{AllocError, Global};
use std::collections::BTreeMap;

/// The interfaces on each link, each after its router's number, in order.
#[derive(Drop)]
pub struct Links {
    places: BTreeMap<u32, Vec<(usize, usize)>>,
}

impl Links {
    /// The interfaces on each link of the network of these routers.
    pub fn of<S: RouteStore>(alloc: Global, stations: &[Station<S>]) -> Result<Links, AllocError>
        ensures { IfOk result (AreListed (network_of stations.now)) }
    {
        let mut links = Links {
            places: BTreeMap::new(alloc),
        };
        for (router, station) in stations.iter().enumerate() {
            links.add_router(router, station.interfaces())?;
        }
        Ok(links)
    }

    /// The interfaces of one more router go to the ends of their links' lists.
    fn add_router(&mut self, router: usize, interfaces: &[NetInterface]) -> Result<(), AllocError>
        ensures { OnOk result ((link : ℕ) → listed_on self.new link ≡ listed_on self.old link ++ interfaces_there router interfaces.now link) }
    {
        for (iface, interface) in interfaces.iter().enumerate() {
            self.add(interface.link, (router, iface))?;
        }
        Ok(())
    }

    /// An interface goes to the end of its link's list.
    fn add(&mut self, link: u32, place: (usize, usize)) -> Result<(), AllocError>
        ensures { OnOk result ((other : ℕ) → listed_on self.new other ≡ listed_on self.old other ++ place_if other link place) }
    {
        self.places.entry(link)?.or_default().push(place)?;
        Ok(())
    }

    /// The interfaces on a link.
    pub fn on(&self, link: u32) -> &[(usize, usize)]
        ensures { result.now ≡ listed_on self.now link }
    {
        self.places
            .get(&link)
            .map_or(&[], |places| places.as_slice())
    }
}
