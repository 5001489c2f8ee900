//! Lemmas on the steps of a router. Each is the contract of an empty function: it follows from the definitions alone.

ghost use Rattle.std.specs.Prelude.{◌≡◌, ℕ, ◌+◌, ◌<◌, ◌≤◌, ◌==◌, ◌&&◌, if◌then◌else◌, All, Bool, true, false, List, [], ◌∷◌, Option, length, map, flat_map, slice_get, Some, None};
ghost use Rattle.router_core.specs.Common.{Replays, Prefix6, Rte, RouteValue, Table, Gateway, adopted, by_reason, reason, forwards, Config, Hearing, Heard, route_after, held_after, held_by, brought_after, refusal_at, limit_at, State, Happening, Moves, Starts, forwards_before, Offer, pieces, OwnsOnce, HoldsOwned, Answer, Advertises, KeepsToLists, Received, announced, asked_on, asks_for_all, every_route, infinity, is_announced, is_passive, link_up_messages, prefix_named, reply, reply_entry, reply_messages, reply_on, request_on, responses, ripng_port, start_messages, told, update_messages, Group, Peer};
ghost use Rattle.std.specs.List.{enumerate_from};
ghost use Rattle.std.specs.FinMap as map_of;

/// The changes of each answer, replayed onto the forwarding table before it, give that after it.
pub fn changes_replay()
    ensures { (old new : State) (happening : Happening) (answer : Answer) → Moves old happening answer new
        → Replays (forwards_before old happening) answer.changes (forwards new.table) }
{}

/// What an offer does to the route to its prefix is what its row of the table of adoption says.
pub fn adopted_by_row()
    ensures { (gateway : Gateway) (held : Option RouteValue) (offer : Offer)
        → adopted gateway held offer ≡ by_reason (reason gateway held offer) gateway held offer }
{}

/// A table that agrees with a Response processed up to some entry has as many routes as `held_after` counts.
pub fn held_is_size()
    ensures { (h : Hearing) (place : ℕ) → place ≤ length h.entries
        → (t : Table) → ((p : Prefix6) → map_of.get t p ≡ route_after h place p) → map_of.len t ≡ held_after h place }
{}

/// Such a table has as many routes by way of the interface as `brought_after` counts.
pub fn brought_is_held()
    ensures { (h : Hearing) (place : ℕ) → place ≤ length h.entries
        → (t : Table) → ((p : Prefix6) → map_of.get t p ≡ route_after h place p) → held_by h.gateway.iface t ≡ brought_after h place }
{}

/// A Response takes the routes by way of its interface to the limit at most, if they were not past it before.
pub fn limit_holds()
    ensures { (h : Hearing) (after : Table) (limit : ℕ) → Heard h after → limit_at h.config h.gateway.iface ≡ Some limit
        → held_by h.gateway.iface h.before ≤ limit → held_by h.gateway.iface after ≤ limit }
{}

/// Without filters and limits an interface refuses nothing.
pub fn nothing_is_refused()
    ensures { (h : Hearing) (place : ℕ) (e : Rte) → h.config.filters ≡ [] → h.config.limits ≡ [] → refusal_at h place e ≡ None }
{}

/// The changes of a start, replayed onto an empty forwarding table, give that of the router.
pub fn start_replays()
    ensures { (config : Config) (now : ℕ) (answer : Answer) (new : State) → Starts config now answer new
        → Replays map_of.empty answer.changes (forwards new.table) }
{}

/// The pieces of a list, joined, are the list. All but the last are full, and the last has at least one element.
pub fn pieces_join()
    ensures joined { (size : ℕ) (xs : List Rte) → 0 < size → flat_map (λ p. p) (pieces size xs) ≡ xs }
    ensures full { (size place : ℕ) (xs piece : List Rte) → 0 < size → place + 1 < length (pieces size xs)
        → slice_get (pieces size xs) place ≡ Some piece → length piece ≡ size }
    ensures sized { (size place : ℕ) (xs piece : List Rte) → 0 < size → slice_get (pieces size xs) place ≡ Some piece
        → (0 < length piece) × (length piece ≤ size) }
{}

/// A router has a local route to each prefix that it owns, from its start on and after every step.
pub fn owned_routes_stay()
    ensures starts { (config : Config) (now : ℕ) (answer : Answer) (new : State)
        → OwnsOnce config.prefixes → Starts config now answer new → HoldsOwned new.config new.table }
    ensures moves { (old new : State) (happening : Happening) (answer : Answer)
        → Moves old happening answer new → HoldsOwned old.config old.table → HoldsOwned new.config new.table }
{}

/// An update has only routes that are announced on its interface, and goes out on no passive one: a regular, a triggered and a last one.
pub fn updates_keep_to_lists()
    ensures { (config : Config) (which : RouteValue → Bool) (table : Table)
        → All (KeepsToLists config table) (update_messages config which table) }
{}

/// The reply to a Request for the whole table has only routes that are announced on its interface. In one entry by entry, what is not
/// announced there has metric 16 and the tag that was asked with.
pub fn replies_keep_to_lists()
    ensures whole { (config : Config) (iface : ℕ) (table : Table) (asked : List Rte) → asks_for_all asked ≡ true
        → All (Advertises config iface table) (reply config iface table asked) }
    ensures each { (config : Config) (iface : ℕ) (table : Table) (asked : Rte) → is_announced config iface (prefix_named asked) ≡ false
        → reply_on config iface table asked ≡ record asked { metric = infinity } }
{}

/// On a passive interface a router asks nothing of its own accord, and a Request from port 521 gets no reply.
pub fn passive_interfaces_ask_nothing()
    ensures starts { (config : Config) → All (λ m. is_passive config m.iface ≡ false) (start_messages config) }
    ensures link_ups { (config : Config) (iface : ℕ) → is_passive config iface ≡ true → link_up_messages config iface ≡ [] }
    ensures replies { (config : Config) (table : Table) (arrival : Received) (asked : List Rte) → is_passive config arrival.iface ≡ true
        → arrival.source_port ≡ ripng_port → reply_messages config table arrival asked ≡ [] }
{}

/// Without passive interfaces a router that is not quiet asks on each, and one that is on none.
pub fn asks_on_all()
    ensures starts { (config : Config) → config.passive ≡ []
        → start_messages config ≡ if config.quiet then [] else map (λ t. request_on t.0) (enumerate_from 0 config.interfaces) }
    ensures one { (config : Config) (iface : ℕ) → config.passive ≡ []
        → asked_on config iface ≡ if config.quiet then [] else request_on iface ∷ [] }
{}

/// Without passive interfaces and filters of what goes out nothing is kept back: updates and replies are of the table.
pub fn nothing_is_kept_back()
    ensures announced { (config : Config) (iface : ℕ) (table : Table) → config.announcements ≡ [] → announced config iface table ≡ table }
    ensures updates { (config : Config) (which : RouteValue → Bool) (table : Table) → config.passive ≡ [] → config.announcements ≡ []
        → update_messages config which table ≡ if config.quiet then []
        else flat_map (λ t. responses config t.0 Group (told t.0 which table)) (enumerate_from 0 config.interfaces) }
    ensures replies { (config : Config) (table : Table) (arrival : Received) (asked : List Rte) → config.passive ≡ []
        → config.announcements ≡ []
        → reply_messages config table arrival asked ≡ if config.quiet && arrival.source_port == ripng_port then []
        else responses config arrival.iface (Peer arrival.source arrival.source_port)
        (if asks_for_all asked then told arrival.iface every_route table else map (reply_entry table) asked) }
{}
