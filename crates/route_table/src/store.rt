//! What a table of routes does, however it is stored.

ghost use Rattle.std.specs.Prelude.{◌≡◌, ◌≤◌, ◌+◌, ◌++◌, ◌↔◌, None, IsTrue, IsSome, take, OnOk, OnErr, vec_len, vec_capacity};
ghost use Rattle.route_table.specs.Common.{Table, table_limit, first_past, past, add_refused_name, add_refused_number, first_due, first_changed, first_where, least_deadline, next_due, unmarked, FnOnceReturnsAtMut, meets, wanted_of, Updates};
ghost use Rattle.std.specs.FinMap as map;

use crate::moment::{Deadline, Moment};
use crate::route::Route;
use crate::wanted::Wanted;
use prefix6::Prefix;
use std::alloc::Global;
use thiserror::Error;

/// The most routes of a table: this project's choice.
pub const TABLE_LIMIT: usize = 65_536;

/// Why a route was not added. The table is then unchanged.
#[derive(Clone, Copy, Debug, PartialEq, Eq, Error)]
pub enum AddRefused {
    /// The table holds `TABLE_LIMIT` routes.
    #[error("the table of routes is full")]
    Full = 1,

    /// Out of memory.
    #[error("no memory for another route")]
    NoMemory = 2,
}

impl AddRefused {
    /// The number of the refusal, 1 or 2.
    pub fn number(self) -> u8
        ensures { result ≡ add_refused_number self }
    {
        self as u8
    }

    /// The name of the refusal, one word.
    pub fn name(self) -> &'static str
        ensures { result.now ≡ add_refused_name self }
    {
        match self {
            AddRefused::Full => "Full",
            AddRefused::NoMemory => "NoMemory",
        }
    }
}

/// A table of routes: a finite map from prefix to route, of at most `TABLE_LIMIT` routes (RFC 2080, section 2.2). Only `add` takes
/// memory.
pub trait RouteStore: Drop {
    /// The map from prefix to route that contracts see.
    ghost table: { Self → Table };

    /// A table without a route.
    fn empty(alloc: Global) -> Self
        ensures { table result ≡ map.empty };

    /// How many routes the table holds, at most `TABLE_LIMIT`.
    fn len(&self) -> usize
        ensures value { result ≡ map.len (table self.now) }
        ensures bound { result ≤ table_limit };

    /// Whether the table holds no route.
    fn is_empty(&self) -> bool
        ensures { IsTrue result ↔ (map.len (table self.now) ≡ 0) }
    {
        self.len() == 0
    }

    /// The route to exactly this prefix, if there is one.
    fn get(&self, prefix: &Prefix) -> Option<Route>
        ensures { result ≡ map.get (table self.now) prefix.now };

    /// The first route past the prefix, or of all, that a search looks for. Prefixes are in the order of address, then length.
    fn first_wanted(&self, after: Option<Prefix>, wanted: Wanted) -> Option<(Prefix, Route)>
        ensures { result ≡ first_where (meets wanted) after (map.entries (table self.now)) };

    /// The least deadline of all timers, in milliseconds (RFC 2080, section 2.3).
    fn least_due_ms(&self) -> Option<u64>
        ensures { result ≡ least_deadline (map.entries (table self.now)) };

    /// The route of the least prefix past the given one, or of the least prefix of all.
    fn walk(&self, after: Option<Prefix>) -> Option<(Prefix, Route)>
        ensures { result ≡ first_past after (table self.now) }
    {
        self.first_wanted(after, Wanted::Any)
    }

    /// The same among routes whose timer has ended: their deadline is reached (RFC 2080, section 2.3).
    fn walk_due(&self, after: Option<Prefix>, now: Moment) -> Option<(Prefix, Route)>
        ensures { result ≡ first_due now after (table self.now) }
    {
        self.first_wanted(after, Wanted::Due(now.ms()))
    }

    /// The same among routes whose route change flag is set (RFC 2080, section 2.5.1).
    fn walk_changed(&self, after: Option<Prefix>) -> Option<(Prefix, Route)>
        ensures { result ≡ first_changed after (table self.now) }
    {
        self.first_wanted(after, Wanted::Changed)
    }

    /// The least deadline of all timers, with the first prefix whose route has it.
    fn next_due(&self) -> Option<(Deadline, Prefix)>
        ensures { result ≡ next_due (table self.now) }
    {
        let least = self.least_due_ms()?;
        let entry = self.first_wanted(None, Wanted::Due(least))?;
        let until = entry.1.deadline()?;
        Some((until, entry.0))
    }

    /// Appends all routes in the order of their prefixes. The vector must have room for them, so no memory is taken.
    fn list(&self, out: &mut Vec<(Prefix, Route)>)
        requires room { vec_len out.old + map.len (table self.now) ≤ vec_capacity out.old }
        ensures { out.new.items ≡ out.old.items ++ map.entries (table self.now) };

    /// Appends the first routes past the prefix that a search looks for, in their order: `most` of them, or all if there are fewer.
    /// The vector must have room for `most`, so no memory is taken.
    fn list_wanted(
        &self,
        after: Option<Prefix>,
        wanted: Wanted,
        most: usize,
        out: &mut Vec<(Prefix, Route)>,
    )
        requires room { vec_len out.old + most ≤ vec_capacity out.old }
        ensures { out.new.items ≡ out.old.items ++ take most (wanted_of wanted (past after (map.entries (table self.now)))) }
    {
        let mut after = after;
        for _done in 0..most {
            let Some(entry) = self.first_wanted(after, wanted) else {
                return;
            };
            out.push_reserved((entry.0, entry.1));
            after = Some(entry.0);
        }
    }

    /// Adds a route to a prefix that has none.
    ///
    /// # Errors
    /// `Full` is tested first, then `NoMemory`. The table is then unchanged.
    fn add(&mut self, prefix: Prefix, route: Route) -> Result<(), AddRefused>
        requires absent { map.get (table self.old) prefix ≡ None }
        ensures ok { OnOk result (table self.new ≡ map.insert (table self.old) prefix route) }
        ensures full { (result ≡ Err AddRefused.Full) ↔ (table_limit ≤ map.len (table self.old)) }
        ensures err { OnErr result (table self.new ≡ table self.old) };

    /// Replaces the route to this prefix.
    fn replace(&mut self, prefix: &Prefix, route: Route)
        requires present { IsSome (map.get (table self.old) prefix.now) }
        ensures { table self.new ≡ map.insert (table self.old) prefix.now route };

    /// Changes the route to this prefix in place, and returns what `change` does. `None` if there is no route; `change` is not called then.
    fn update<T, F: FnOnce(&mut Route) -> T>(&mut self, prefix: &Prefix, change: F) -> Option<T>
        requires { F.IsAlwaysCallable change }
        ensures { Updates (FnOnceReturnsAtMut F.FnOnce change) prefix.now (table self.old) result (table self.new) }
    {
        let mut route = self.get(prefix)?;
        let answer = change(&mut route);
        self.replace(prefix, route);
        Some(answer)
    }

    /// Clears all route change flags (RFC 2080, section 2.5.1).
    fn unmark(&mut self)
        ensures { table self.new ≡ unmarked (table self.old) };

    /// Removes the route to this prefix.
    fn remove(&mut self, prefix: &Prefix)
        requires present { IsSome (map.get (table self.old) prefix.now) }
        ensures { table self.new ≡ map.remove (table self.old) prefix.now };
}
