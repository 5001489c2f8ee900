//! A table as a trie of routes.

ghost use Rattle.std.specs.Prelude.{◌≡◌, IfSome, option_map};
ghost use Rattle.route_table.specs.Common.{from_sorted, Table, linked, IsTrie, table_with};
ghost use Rattle.route_table.specs.Coding.{coded_table};
ghost use Rattle.std.specs.FinMap as map_of;

use crate::route::Route;
use crate::store::{AddRefused, RouteStore, TABLE_LIMIT};
use crate::trie::{self, Node};
use crate::wanted::Wanted;
use prefix6::Prefix;
use std::alloc::Global;
use std::marker::Model;
use std::mem;

/// A table of routes in a trie, by the bits of their prefixes.
#[derive(Drop)]
pub struct TrieRoutes {
    alloc: Global,
    count: usize,
    root: Node,
}

impl Model for TrieRoutes {
    ghost Value = { Table };

    ghost coded = { coded_table };

    ghost view = { λ s. from_sorted (linked s.root) };

    ghost invariant = { λ s. IsTrie s.count s.root };
}

impl TrieRoutes {
    /// Replaces the route to a prefix by what `make` returns for it: the route before and after, if there is one.
    fn make<F: FnOnce(Route) -> Route>(
        &mut self,
        prefix: &Prefix,
        make: F,
    ) -> Option<(Route, Route)>
        requires { F.IsAlwaysCallable make }
        ensures before { option_map (λ made. made.0) result ≡ map_of.get self.old prefix.now }
        ensures by { IfSome result (λ made. F.post make made.0 made.1) }
        ensures after { self.new ≡ table_with prefix.now result self.old }
    {
        let mut made = None;
        let _ = trie::update(&mut self.root, prefix, make, &mut made);
        made
    }
}

impl RouteStore for TrieRoutes {
    ghost table = { λ s. s };

    fn empty(alloc: Global) -> Self {
        TrieRoutes {
            alloc,
            count: 0,
            root: Node::Empty,
        }
    }

    fn len(&self) -> usize {
        self.count
    }

    fn get(&self, prefix: &Prefix) -> Option<Route> {
        trie::get(&self.root, prefix)
    }

    fn first_wanted(&self, after: Option<Prefix>, wanted: Wanted) -> Option<(Prefix, Route)> {
        match after {
            None => trie::first(&self.root, wanted).copied(),
            Some(after) => trie::first_past(&self.root, &after, wanted).copied(),
        }
    }

    fn least_due_ms(&self) -> Option<u64> {
        trie::due_ms(&self.root)
    }

    fn list(&self, out: &mut Vec<(Prefix, Route)>) {
        trie::list(&self.root, out);
    }

    fn add(&mut self, prefix: Prefix, route: Route) -> Result<(), AddRefused> {
        if self.count >= TABLE_LIMIT {
            return Err(AddRefused::Full);
        }
        let Ok((leaf, spare)) = trie::boxes(self.alloc, prefix, route) else {
            return Err(AddRefused::NoMemory);
        };
        let root = mem::replace(&mut self.root, Node::Empty);
        self.root = trie::add(root, leaf, spare);
        self.count += 1;
        Ok(())
    }

    fn replace(&mut self, prefix: &Prefix, route: Route) {
        let _ = self.make(prefix, |_| route);
    }

    fn unmark(&mut self) {
        trie::unmark(&mut self.root);
    }

    fn remove(&mut self, prefix: &Prefix) {
        let root = mem::replace(&mut self.root, Node::Empty);
        self.root = trie::remove(root, prefix);
        self.count -= 1;
    }
}
