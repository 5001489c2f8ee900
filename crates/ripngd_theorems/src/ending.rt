//! Laws of how routes end: a neighbor's routes by a router that shuts down, and a router's routes by a link that goes down.

ghost use Rattle.std.specs.Prelude.{◌≡◌, ◌≢◌, ◌↔◌, ℕ, ◌<◌, ◌≤◌, List, [], ◌∷◌, length, Some, slice_get, true, false, IsTrue};
ghost use Rattle.ripngd_theorems.specs.Common.{Forward, Via, Prefix6, IsPrefix, is_routable, RouteValue, forwards, is_announced, is_passive, mtu_at, State, Happening, ShutsDown, LinkGoesDown, Moves, is_learned_on, Answer, Network, AreLinked, IsNetwork, World, Event, Shutdown, Happens, IsCold, WorldRun, address_at, AreRoutes, HasNoneBy, HearsFrom, IsDeliveredWhole, IsHeardWhole, sent_on};
ghost use Rattle.std.specs.FinMap as map_of;

use ripng_world::shutdown_tells_losses;

/// A router shuts down whose interface on a link is not passive. A neighbor receives its whole last update on that link, in any order
/// and any number of times, and nothing else that it sent there. Then the neighbor has no reachable route by that router to any
/// prefix of that router's table that is announced on the link, whatever else happens to the neighbor meanwhile. `heard` says so of one router and its gateway, `delivered` of two
/// routers of a network that runs.
pub fn shutdown_ends_routes()
    ensures heard { (a a' b b' : State) (now iface on from : ℕ) (answer : Answer) (happenings : List Happening) (heard : List (List ℕ))
        → is_passive a.config iface ≡ false → iface < length a.config.interfaces → 1280 ≤ mtu_at a.config iface → Moves a (ShutsDown now) answer a'
        → AreRoutes b.table → HearsFrom on from b happenings heard b' → IsHeardWhole (sent_on iface answer.sends) heard
        → (p : Prefix6) (r : RouteValue) → map_of.get a.table p ≡ Some r → IsTrue (is_announced a.config iface p) → IsPrefix p → IsTrue (is_routable p) → HasNoneBy on from b'.table p }
    ensures delivered { (net : Network) (moments : List ℕ) (events later : List Event) (cold w w' end : World) (router iface other on now : ℕ) (answer : Answer) (s t : State)
        → IsNetwork net → IsCold net moments cold → WorldRun net cold events w → slice_get w.states router ≡ Some s → is_passive s.config iface ≡ false
        → Happens net w (Shutdown router now) answer w' → WorldRun net w' later end → slice_get end.states other ≡ Some t
        → router ≢ other → AreLinked net router iface other on → IsDeliveredWhole w w' end router iface other on later
        → (p : Prefix6) (r : RouteValue) → map_of.get s.table p ≡ Some r → IsTrue (is_announced s.config iface p) → HasNoneBy on (address_at net router iface) t.table p }
{
    shutdown_tells_losses()
}

/// When the link of an interface goes down, the router has no reachable route by that interface left, whatever the gateway, and
/// forwards nothing there. Its own routes, and those that it learned on other interfaces, are unchanged.
pub fn link_down_ends_routes()
    ensures none_left { (old new : State) (now iface : ℕ) (answer : Answer) → Moves old (LinkGoesDown now iface) answer new
        → (p : Prefix6) (from : ℕ) → HasNoneBy iface from new.table p }
    ensures none_forwarded { (old new : State) (now iface : ℕ) (answer : Answer) → Moves old (LinkGoesDown now iface) answer new
        → (p : Prefix6) (f : Forward) (next_hop : ℕ) → map_of.get (forwards new.table) p ≡ Some f → f.hop ≢ Via iface next_hop }
    ensures others_stay { (old new : State) (now iface : ℕ) (answer : Answer) → Moves old (LinkGoesDown now iface) answer new
        → (p : Prefix6) (r : RouteValue) → is_learned_on iface r.origin ≡ false
        → (map_of.get old.table p ≡ Some r) ↔ (map_of.get new.table p ≡ Some r) }
{}
