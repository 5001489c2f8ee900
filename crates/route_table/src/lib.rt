//! Routes, their timers, and the tables that hold the routes of a router (RFC 2080, sections 2.2 and 2.3).
//!
//! **In** go routes, one to each prefix. **Out** come the route to exactly one prefix, all routes in the order of prefixes, those
//! whose timer has ended, those whose route change flag is set, and the least deadline. A table has at most [`TABLE_LIMIT`]
//! routes. Only `add` takes memory, and if that fails nothing changes.
//!
//! A [`Route`] has a metric, a tag, an [`Origin`], a [`Clock`] and the route change flag. The clock is its timer:
//!
//! ```text
//!   Fixed             local: no timer
//!   Live(deadline)    valid: the timeout runs, 180 s from the last offer of its gateway
//!   Dying(deadline)   metric 16: the garbage-collection timer runs, 120 s, then the route is deleted
//! ```
//!
//! The crate `router_core` moves routes from one clock to another, and draws how. Here the clock is only kept.
//!
//! Contracts see a table as a finite map, `Table` in specs/Table.antt, of `RouteValue` in specs/Route.antt; `IsRoute` there says
//! which routes are lawful. The trait [`RouteStore`] judges a store: it says of each call what that does to the map, so that a
//! router is proved over any store. There are two. [`SortedRoutes`] is the one of the program: a sorted vector of blocks, each with a
//! bound on the deadlines and flags of its routes, so that a search skips what it does not want. [`TrieRoutes`] is a binary trie
//! with compressed paths, in which each fork keeps the same. Tests run both.
//!
//! Begin with src/route.rt and src/store.rt, then src/sorted.rt and src/blocks.rt.
#![tactic(auto)]

mod block;
mod blocks;
mod laws;
mod moment;
mod route;
mod run;
mod sorted;
mod store;
mod summary;
mod trie;
mod trie_routes;
mod wanted;

pub use laws::next_due_is_the_least;
pub use moment::{Deadline, Moment};
pub use route::{Clock, INFINITY, Origin, Route};
pub use sorted::SortedRoutes;
pub use store::{AddRefused, RouteStore, TABLE_LIMIT};
pub use trie_routes::TrieRoutes;
pub use wanted::Wanted;
