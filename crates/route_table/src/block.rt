//! A block: a few routes in the order of their prefixes, with a bound that lets a search skip them.

ghost use Rattle.std.specs.Prelude.{◌≡◌, ◌+◌, ◌-◌, ◌<◌, ◌≤◌, ◌↔◌, [], ◌∷◌, ◌++◌, length, take, drop, IsTrue, IfOk, IfSome, OnOk, OnErr, All, None, Some, T, if◌then◌else◌, vec_len, vec_capacity};
ghost use Rattle.route_table.specs.Common.{FnOnceReturnsAtMut, find, is_sorted, Less, put, prefix_cmp, IsAt, block_limit, half_block, StartsAt, Covers, earlier, first_where, without_mark, meets, summary_of, summary_of_route, wanted_of, map_entries, past, without, ChangesEntry, Entries, IsBlock};
ghost use Rattle.route_table.specs.Coding.{coded_entries};

use crate::route::Route;
use crate::run;
use crate::summary::{self, Summary};
use crate::wanted::Wanted;
use prefix6::Prefix;
use std::alloc::{AllocError, Global};
use std::marker::Model;

/// The most routes of a block.
const LIMIT: usize = 128;

/// How many routes a full block keeps when it is split, and the most that two blocks have together when they are joined: at least that
/// number of routes come or go between a split and a join.
const HALF: usize = 64;

/// At most `LIMIT` routes. The summary is a bound: no deadline is earlier, and no route change flag is set unless it says so.
#[derive(Drop)]
pub struct Block {
    first: Prefix,
    bound: Summary,
    /// How many routes were changed or removed since the bound was exact. It is not part of the value.
    changes: usize,
    routes: Vec<(Prefix, Route)>,
}

impl Model for Block {
    ghost Value = { Entries };

    ghost coded = { Prim.hlevel coded_entries };

    ghost view = { λ b. b.routes.items };

    ghost invariant = { λ b. IsBlock b.first b.bound b.routes.items };
}

/// The prefix of the first route, or another prefix if there is none.
fn first_of(routes: &[(Prefix, Route)], other: Prefix) -> Prefix
    ensures { StartsAt result routes.now }
{
    match routes.first() {
        Some(entry) => entry.0,
        None => other,
    }
}

/// How many routes were changed or removed since the bound was exact, after one more before an index, and whether the bound is now made
/// exact. That is so after as many as there are, so that a pass over all, in whatever order, ends so and costs no more than one look at
/// each; and at the last route, where a pass in order ends, even if some routes were changed out of turn.
fn count_more(changes: usize, next: usize, len: usize) -> (usize, bool) {
    let count = changes.saturating_add(1);
    if count < len && next < len {
        (count, false)
    } else {
        (0, true)
    }
}

/// A bound of these routes, given one, which may be made exact.
fn bound_of(routes: &[(Prefix, Route)], is_exact: bool, bound: Summary) -> Summary
    requires { Covers bound routes.now }
    ensures { Covers result routes.now }
{
    if is_exact { run::sum_up(routes) } else { bound }
}

impl Block {
    /// A block of one route.
    ///
    /// # Errors
    /// Only out of memory.
    pub fn of(alloc: Global, prefix: Prefix, route: Route) -> Result<Block, AllocError>
        ensures { IfOk result (λ block. block ≡ (prefix, route) ∷ []) }
    {
        let mut routes = Vec::new(alloc);
        routes.reserve(1)?;
        routes.push_reserved((prefix, route));
        Ok(Block {
            first: prefix,
            bound: Summary::of(&route),
            changes: 0,
            routes,
        })
    }

    /// How many routes the block holds.
    pub fn len(&self) -> usize
        ensures value { result ≡ length self.now }
        ensures bound { result ≤ block_limit }
    {
        self.routes.len()
    }

    /// Whether the block has `LIMIT` routes.
    pub fn is_full(&self) -> bool
        ensures { IsTrue result ↔ (block_limit ≤ length self.now) }
    {
        self.routes.len() >= LIMIT
    }

    /// The prefix of its first route.
    pub fn first(&self) -> Prefix
        ensures { StartsAt result self.now }
    {
        self.first
    }

    /// Whether all its prefixes come before this one.
    pub fn ends_before(&self, prefix: &Prefix) -> bool
        ensures { IsTrue result → All (λ e. prefix_cmp e.0 prefix.now ≡ Less) self.now }
    {
        let len = self.routes.len();
        if len == 0 {
            return true;
        }
        self.routes[len - 1].0 < *prefix
    }

    /// Whether the prefix is at this place.
    pub fn has_at(&self, at: usize, prefix: &Prefix) -> bool
        ensures { IsTrue result → IsAt self.now prefix.now at }
    {
        at < self.routes.len() && self.routes[at].0 == *prefix
    }

    /// The place of a prefix, if it is in the block.
    pub fn place(&self, prefix: &Prefix) -> Option<usize>
        ensures found { IfSome result (IsAt self.now prefix.now) }
        ensures absent { result ≡ None → find prefix_cmp prefix.now self.now ≡ None }
    {
        match run::search(&self.routes, prefix) {
            Ok(at) => Some(at),
            Err(_) => None,
        }
    }

    /// The route to a prefix, if it is in the block.
    pub fn get(&self, prefix: &Prefix) -> Option<Route>
        ensures { result ≡ find prefix_cmp prefix.now self.now }
    {
        match run::search(&self.routes, prefix) {
            Ok(at) => Some(self.routes[at].1),
            Err(_) => None,
        }
    }

    /// The first route past the prefix that is wanted. Where the bound says that there is none, no route is looked at.
    pub fn first_wanted(&self, after: &Option<Prefix>, wanted: Wanted) -> Option<(Prefix, Route)>
        ensures { result ≡ first_where (meets wanted) after.now self.now }
    {
        if !wanted.may_be_in(&self.bound) {
            return None;
        }
        run::first_wanted(&self.routes, *after, wanted)
    }

    /// The earlier of a deadline and the least of the block. No route is looked at if the bound says that the latter is not earlier.
    pub fn earlier_due(&self, due: Option<u64>) -> Option<u64>
        ensures { result ≡ earlier due (summary_of self.now).due }
    {
        if !self.bound.is_due_before(due) {
            return due;
        }
        summary::earlier(due, run::sum_up(&self.routes).due_ms())
    }

    /// Appends the routes in their order. The vector must have room for them.
    pub fn list(&self, out: &mut Vec<(Prefix, Route)>)
        requires room { vec_len out.old + length self.now ≤ vec_capacity out.old }
        ensures items { out.new.items ≡ out.old.items ++ self.now }
        ensures len { vec_len out.new ≡ vec_len out.old + length self.now }
        ensures capacity { vec_capacity out.old ≤ vec_capacity out.new }
    {
        let Ok(()) = out.extend_from_slice(&self.routes) else {
            unreachable!()
        };
    }

    /// Appends the first routes past the prefix, at most `most`, for which the vector must have room: how many are still wanted.
    fn list_run(&self, after: &Option<Prefix>, most: usize, out: &mut Vec<(Prefix, Route)>) -> usize
        requires room { vec_len out.old + most ≤ vec_capacity out.old }
        ensures items { out.new.items ≡ out.old.items ++ take most (past after.now self.now) }
        ensures left { result ≡ most - length (past after.now self.now) }
        ensures room { vec_len out.new + result ≤ vec_capacity out.new }
    {
        let rest = run::past(&self.routes, *after);
        let count = most.min(rest.len());
        let Ok(()) = out.extend_from_slice(&rest[..count]) else {
            unreachable!()
        };
        most - count
    }

    /// The same among the routes that are wanted. Where the bound says that there is none, no route is looked at.
    pub fn list_wanted(
        &self,
        after: &Option<Prefix>,
        wanted: Wanted,
        most: usize,
        out: &mut Vec<(Prefix, Route)>,
    ) -> usize
        requires room { vec_len out.old + most ≤ vec_capacity out.old }
        ensures items { out.new.items ≡ out.old.items ++ take most (wanted_of wanted (past after.now self.now)) }
        ensures left { result ≡ most - length (wanted_of wanted (past after.now self.now)) }
        ensures room { vec_len out.new + result ≤ vec_capacity out.new }
    {
        if let Wanted::Any = wanted {
            return self.list_run(after, most, out);
        }
        if !wanted.may_be_in(&self.bound) {
            return most;
        }
        run::list_wanted(run::past(&self.routes, *after), wanted, most, out)
    }

    /// Inserts the route to a prefix that has none.
    ///
    /// # Errors
    /// Only out of memory.
    pub fn insert(&mut self, prefix: Prefix, route: Route) -> Result<(), AllocError>
        requires room { length self.old < block_limit }
        requires absent { find prefix_cmp prefix self.old ≡ None }
        ensures ok { OnOk result (self.new ≡ put prefix_cmp prefix route self.old) }
        ensures err { OnErr result (self.new ≡ self.old) }
    {
        self.routes.reserve(1)?;
        let Err(at) = run::search_from_end(&self.routes, &prefix) else {
            unreachable!()
        };
        let Ok(()) = self.routes.insert(at, (prefix, route)) else {
            unreachable!()
        };
        self.first = first_of(&self.routes, self.first);
        self.bound = self.bound.and(Summary::of(&route));
        // Where others were changed, it counts as one that was, and else the bound is as exact as before.
        self.changes = self.changes.saturating_add(self.changes.min(1));
        Ok(())
    }

    /// Splits a full block: the upper half is returned.
    ///
    /// # Errors
    /// Only out of memory.
    pub fn split(&mut self) -> Result<Block, AllocError>
        requires { block_limit ≤ length self.old }
        ensures ok { OnOk result (self.new ≡ take half_block self.old) }
        ensures upper { IfOk result (λ upper. upper ≡ drop half_block self.old) }
        ensures room { IfOk result (λ upper. length upper < block_limit) }
        ensures err { OnErr result (self.new ≡ self.old) }
    {
        let routes = self.routes.split_off(HALF)?;
        let first = first_of(&routes, self.first);
        let bound = run::sum_up(&routes);
        self.bound = run::sum_up(&self.routes);
        self.changes = 0;
        Ok(Block {
            first,
            bound,
            changes: 0,
            routes,
        })
    }

    /// Appends the routes of the block behind it, if the two have at most `HALF` together and there is room for them: whether it did.
    /// No memory is taken.
    pub fn absorb(&mut self, upper: &Block) -> bool
        requires some { 0 < length self.old }
        requires ordered { T (is_sorted prefix_cmp (self.old ++ upper.now)) }
        ensures { self.new ≡ (if result then self.old ++ upper.now else self.old) }
    {
        if self.len() + upper.len() > HALF.min(self.routes.capacity()) {
            return false;
        }
        let Ok(()) = self.routes.extend_from_slice(&upper.routes) else {
            unreachable!()
        };
        self.bound = self.bound.and(upper.bound);
        self.changes = self.changes.saturating_add(upper.changes);
        true
    }

    /// Changes the route at a place, which is that of the prefix. Returns what `change` does, and the summary of the route then.
    pub fn update<T, F: FnOnce(&mut Route) -> T>(
        &mut self,
        at: usize,
        prefix: &Prefix,
        change: F,
    ) -> (T, Summary)
        requires callable { F.IsAlwaysCallable change }
        requires place { IsAt self.old prefix.now at }
        ensures { (it : ChangesEntry (FnOnceReturnsAtMut F.FnOnce change) prefix.now self.old result.0 self.new) × (result.1 ≡ summary_of_route it.after) }
    {
        let route = &mut self.routes[at].1;
        let before = Summary::of(route);
        let answer = change(route);
        let summary = Summary::of(route);
        let bound = self.bound.and(summary);
        // Where the summary stays, the bound is as exact as before.
        let (changes, is_exact) = if summary.is_same(&before) {
            (self.changes, false)
        } else {
            count_more(self.changes, at.saturating_add(1), self.routes.len())
        };
        self.changes = changes;
        self.bound = bound_of(&self.routes, is_exact, bound);
        (answer, summary)
    }

    /// Clears all route change flags. Where the bound says that none is set, no route is looked at. The result is a bound.
    pub fn unmark(&mut self) -> Summary
        ensures unmarked { self.new ≡ map_entries without_mark self.old }
        ensures covered { Covers result self.new }
    {
        if !self.bound.has_changed() {
            return self.bound;
        }
        run::unmark(&mut self.routes);
        self.bound = self.bound.without_mark();
        self.bound
    }

    /// Removes the route at a place.
    pub fn remove(&mut self, at: usize, prefix: &Prefix)
        requires { IsAt self.old prefix.now at }
        ensures { self.new ≡ without prefix.now self.old }
    {
        let _ = self.routes.remove(at);
        self.first = first_of(&self.routes, self.first);
        let (changes, is_exact) = count_more(self.changes, at, self.routes.len());
        self.changes = changes;
        self.bound = bound_of(&self.routes, is_exact, self.bound);
    }
}
