//! One router of RIPng as a state machine, without sockets or a clock (RFC 2080, sections 2.1 to 2.6).
//!
//! **In** go the calls of a [`Router`]: `arrive` with a datagram, `tick` with a moment and a random number, `reconfigure`,
//! `link_down`, `link_up`, `shutdown` and `restart`. **Out** comes one [`Answer`] for each: datagrams to send, changes of forwarding
//! entries, and why a datagram was refused or an entry of it skipped. The caller has the sockets, the clock and the random numbers.
//! A call fails only when memory runs out, or at a change that is refused, and the router is then unchanged.
//!
//! The state between two calls is small: the configuration, the table of routes, and three moments, namely the last call, the
//! next regular update, and the end of the delay of triggered updates. What happens to a route in time is in its
//! [`Clock`](route_table::Clock):
//!
//! ```text
//!              offer              timeout, metric 16 or link down
//!   (none) ------------> Live --------------------------------------> Dying ------------> (none)
//!                       | ^  ^                                         |  ^    120 s later
//!    its gateway again: | |  |        usable offer, any gateway        |  |
//!    180 s from now     +-+  +-----------------------------------------+  |
//!                                                                         |
//!   (any)  ------------> Fixed -------------------------------------------+
//!               own                          disown
//! ```
//!
//! A `Fixed` route is local and has no timer. A `Live` one is valid until its timeout, 180 s after the last offer of its gateway,
//! unless a better offer of another gateway replaces it. A `Dying` one is advertised with metric 16 until garbage collection
//! deletes it.
//!
//! Two moments decide what a `tick` sends. It sends one update at most (RFC 2080, sections 2.3 and 2.5.1):
//!
//! | `regular` is reached | `hold` is reached and a route has changed | what is sent | what then changes |
//! |---|---|---|---|
//! | yes | yes or no | all routes | `regular`: 15 to 45 s from now |
//! | no | yes | the routes that have changed | `hold`: 1 to 5 s from now |
//! | no | no | nothing | neither |
//!
//! After an update no route counts as changed. Of the other calls none moves these moments but `restart`. What each call changes:
//!
//! | call | configuration | table | `last` | `regular`, `hold` |
//! |---|---|---|---|---|
//! | `arrive` | | what is offered | now | |
//! | `tick` | | what has timed out | now | by the table above |
//! | `reconfigure` | a cost, or a prefix that is owned | its routes | now | |
//! | `link_down` | | what was learned there | now | |
//! | `link_up`, `shutdown` | | | now | |
//! | `restart` | | what is owned, and nothing else | now | now, both |
//!
//! Here `now` is the moment of the call, or `last` if that is later; at a `restart` it is the moment of the call.
//!
//! `Moves` in specs/Machine.antt judges every call: which answers and which states after it are allowed. It stands on `fault`
//! (specs/Faults.antt), the rules of adoption (specs/Adoption.antt), `aged` (specs/Ageing.antt) and the messages of
//! specs/Output.antt. Begin with `arrive` in src/router.rt, then src/faults.rt, hear.rt and adopt.rt; then `tick`, age.rt and
//! tell.rt. Lemmas on the whole are in src/laws.rt.
#![tactic(auto)]

mod adopt;
mod age;
mod answer;
mod arrival;
mod config;
mod cut;
mod entries;
mod faults;
mod filter;
mod forwarding;
mod hear;
mod laws;
mod link_down;
mod listed;
mod listing;
mod offered;
mod quota;
mod reason;
mod reconfiguring;
mod reply;
mod router;
mod start;
mod tell;
mod ticking;
mod timers;

pub use answer::{Answer, Destination, Note, NoteKind, Outgoing};
pub use arrival::{Arrival, Fault, MAX_HOP_LIMIT, RIPNG_PORT};
pub use config::{
    ConfigRefused, INTERFACE_LIMIT, Interface, LEAST_MTU, MOST_MTU, OWNED_LIMIT, RouterConfig,
};
pub use filter::{Action, Filter, Limit};
pub use laws::{
    adopted_by_row, asks_on_all, brought_is_held, changes_replay, held_is_size, limit_holds,
    nothing_is_kept_back, nothing_is_refused, owned_routes_stay, passive_interfaces_ask_nothing,
    pieces_join, replies_keep_to_lists, start_replays, updates_keep_to_lists,
};
pub use listed::Listed;
pub use offered::Offered;
pub use reason::Reason;
pub use reconfiguring::{Change, ReconfigureRefused};
pub use router::Router;
