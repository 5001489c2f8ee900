//! A table as a sorted vector of sorted blocks of routes: the store of the program.

ghost use Rattle.route_table.specs.Common.{from_sorted, joined, IsStore, Table};
ghost use Rattle.route_table.specs.Coding.{coded_table};

use crate::block::Block;
use crate::blocks::{self, Place};
use crate::moment::Moment;
use crate::route::Route;
use crate::store::{AddRefused, RouteStore, TABLE_LIMIT};
use crate::summary::Summary;
use crate::wanted::Wanted;
use prefix6::Prefix;
use std::alloc::Global;
use std::marker::Model;

/// A table of routes in the order of their prefixes, in blocks that are not empty. Adding or removing a route moves only what
/// follows it in its block. A search for ended timers or route change flags looks at a bound of all first, then at each block's.
#[derive(Drop)]
pub struct SortedRoutes {
    alloc: Global,
    count: usize,
    blocks: Vec<Block>,
    /// A bound of all routes. An update widens it, and `unmark` makes it as good as those of the blocks.
    bound: Summary,
    /// The place after the route that was updated last. The next update looks there first, since neighbors advertise routes in the
    /// order of their prefixes. It is not part of the value, and any route or none may stand there.
    next: Place,
}

impl Model for SortedRoutes {
    ghost Value = { Table };

    ghost coded = { coded_table };

    ghost view = { λ s. from_sorted (joined s.blocks.items) };

    ghost invariant = { λ s. IsStore s.count s.bound s.blocks.items };
}

impl RouteStore for SortedRoutes {
    ghost table = { λ s. s };

    fn empty(alloc: Global) -> Self {
        SortedRoutes {
            alloc,
            count: 0,
            blocks: Vec::new(alloc),
            bound: Summary::nothing(),
            next: (0, 0),
        }
    }

    fn len(&self) -> usize {
        self.count
    }

    fn get(&self, prefix: &Prefix) -> Option<Route> {
        blocks::get(&self.blocks, prefix)
    }

    fn first_wanted(&self, after: Option<Prefix>, wanted: Wanted) -> Option<(Prefix, Route)> {
        if !wanted.may_be_in(&self.bound) {
            return None;
        }
        blocks::first_wanted(&self.blocks, &after, wanted)
    }

    fn least_due_ms(&self) -> Option<u64> {
        blocks::due_ms(&self.blocks)
    }

    fn list(&self, out: &mut Vec<(Prefix, Route)>) {
        blocks::list(&self.blocks, out);
    }

    fn list_wanted(
        &self,
        after: Option<Prefix>,
        wanted: Wanted,
        most: usize,
        out: &mut Vec<(Prefix, Route)>,
    ) {
        blocks::list_wanted(&self.blocks, &after, wanted, most, out);
    }

    fn add(&mut self, prefix: Prefix, route: Route) -> Result<(), AddRefused> {
        if self.count >= TABLE_LIMIT {
            return Err(AddRefused::Full);
        }
        let Ok(()) = blocks::insert(&mut self.blocks, self.alloc, prefix, route) else {
            return Err(AddRefused::NoMemory);
        };
        self.count += 1;
        self.bound = self.bound.and(Summary::of(&route));
        Ok(())
    }

    fn replace(&mut self, prefix: &Prefix, route: Route) {
        let _ = self.update(prefix, |held: &mut Route| *held = route);
    }

    fn update<T, F: FnOnce(&mut Route) -> T>(&mut self, prefix: &Prefix, change: F) -> Option<T> {
        let (blocks, bound) = (&mut self.blocks, &mut self.bound);
        blocks::update(blocks, bound, &mut self.next, prefix, change)
    }

    fn unmark(&mut self) {
        self.bound = blocks::unmark(&mut self.blocks);
    }

    fn remove(&mut self, prefix: &Prefix) {
        blocks::remove(&mut self.blocks, prefix);
        self.count -= 1;
    }
}
