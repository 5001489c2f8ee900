//! Laws of networks. Each is the contract of an empty function: it follows from the definitions alone.

ghost use Rattle.std.specs.Prelude.{◌≡◌, ℕ, ◌<◌, ◌≤◌, nat_eq, List, [], ◌∷◌, ◌++◌, length, Some, slice_get};
ghost use Rattle.ripng_world.specs.Common.{AllByRecursion, IsDistinct, Prefix6, FibHop, RouteValue, infinity, Table, Spells, Response, Rte, Learned, aged_table, Config, Hearing, Heard, State, Happening, Moves, IsNamed, reconfigured_table, Answer, Change, Network, HasDistinctAddresses, IsNetwork, OwnsPrefixes, Forwardings, ForwardsBy, ArriveBy, AreThere, PacketsArrive, forwardings_of, routers_of, IsPath, PathValue, Delivered, Hop, IsWalk, BeginsAs, Reaches, cost, IsTableBacked, IsLeast, Past, ReachesSince, IsTableBackedSince, IsLeastSince, IsNeverQuiet, FitsTables, AreConverged, Round, SynchronousRounds, AreWithinTimeout, events_of_rounds, AreWithinGarbageTime, AreHealed, FitsTablesSince, network_now, IsNeighbor, IsSoundTable, IsSoundEntry, IsSoundDatagram, IsNeighborSince, IsSoundTableSince, IsSoundEntrySince, IsSoundDatagramSince, World, Event, IsCold, WorldRun, past_of, reconfigurations_in};
ghost use Rattle.std.specs.FinMap as map_of;

/// A router whose routes are backed sends only entries with the cost and tag of a walk. `since` is for all costs and owners in
/// force since a cold start, `fixed` for a network whose costs and owners never change.
pub fn tells_only_walks()
    ensures since { (past : Past) (router : ℕ) (old new : State) (happening : Happening) (answer : Answer)
        → IsSoundTableSince past router old.table → Moves old happening answer new
        → AllByRecursion (λ o. IsSoundDatagramSince past router o.bytes) answer.sends }
    ensures fixed { (net : Network) (router : ℕ) (old new : State) (happening : Happening) (answer : Answer)
        → IsSoundTable net router old.table → Moves old happening answer new
        → AllByRecursion (λ o. IsSoundDatagram net router o.bytes) answer.sends }
{}

/// A router that shuts down advertises only unreachable routes: each entry of each of its datagrams has metric 16.
pub fn shutdown_tells_losses()
    ensures { (old : State) (now : ℕ) (answer : Answer) (new : State) → Moves old (Happening.ShutsDown now) answer new
        → AllByRecursion (λ o. (entries : List Rte) → Spells Response entries o.bytes → AllByRecursion (λ e. e.metric ≡ infinity) entries) answer.sends }
{}

/// Routes stay backed when a router processes such entries from a neighbor, ages its table, or changes its configuration.
pub fn keeps_routes_backed()
    ensures heard { (past : Past) (router sender sender_iface : ℕ) (h : Hearing) (after : Table)
        → IsNeighborSince past router h.gateway sender sender_iface
        → AllByRecursion (IsSoundEntrySince past sender) h.entries
        → IsSoundTableSince past router h.before → Heard h after → IsSoundTableSince past router after }
    ensures aged { (past : Past) (router now : ℕ) (table : Table)
        → IsSoundTableSince past router table → IsSoundTableSince past router (aged_table now table) }
    ensures changed { (net : Network) (reconfigurations : List (ℕ × Change)) (router now : ℕ) (config : Config) (table : Table) (c : Change)
        → IsNamed config c
        → IsSoundTableSince (record { net = net; reconfigurations = reconfigurations }) router table
        → IsSoundTableSince (record { net = net; reconfigurations = reconfigurations ++ (router, c) ∷ [] }) router (reconfigured_table now table c) }
    ensures heard_fixed { (net : Network) (router sender sender_iface : ℕ) (h : Hearing) (after : Table)
        → IsNeighbor net router h.gateway sender sender_iface
        → AllByRecursion (IsSoundEntry net sender) h.entries
        → IsSoundTable net router h.before → Heard h after → IsSoundTable net router after }
    ensures aged_fixed { (net : Network) (router now : ℕ) (table : Table)
        → IsSoundTable net router table → IsSoundTable net router (aged_table now table) }
{}

/// The main theorem. In every network, after every list of events, changes of configuration among them, every route is backed by
/// a walk, at costs in force since the cold start, to a router that has owned the prefix with the route's tag. So its metric is
/// not below the least such cost. Interfaces may have any addresses.
pub fn invents_no_distance()
    ensures backed { (net : Network) (moments : List ℕ) (events : List Event) (cold w : World)
        → OwnsPrefixes net → IsCold net moments cold → WorldRun net cold events w
        → (router : ℕ) (state : State) → slice_get w.states router ≡ Some state → IsTableBackedSince (past_of net w) router state.table }
    ensures least { (net : Network) (moments : List ℕ) (events : List Event) (cold w : World)
        → OwnsPrefixes net → IsCold net moments cold → WorldRun net cold events w
        → (router : ℕ) (state : State) (p : Prefix6) (r : RouteValue) (metric : ℕ)
        → slice_get w.states router ≡ Some state → map_of.get state.table p ≡ Some r → r.metric < infinity
        → IsLeastSince (past_of net w) router p metric → metric ≤ r.metric }
    ensures sent { (net : Network) (moments : List ℕ) (events : List Event) (cold w : World)
        → OwnsPrefixes net → IsCold net moments cold → WorldRun net cold events w
        → AllByRecursion (λ d. IsSoundDatagramSince (past_of net w) d.router d.bytes) w.sent }
    ensures done { (net : Network) (moments : List ℕ) (events : List Event) (cold w : World)
        → IsCold net moments cold → WorldRun net cold events w → w.reconfigurations ≡ reconfigurations_in events }
{}

/// The same while no configuration was changed: every route is backed by a walk of the network as it is, and so its metric is not
/// below the least cost.
pub fn invents_no_distance_unchanged()
    ensures backed { (net : Network) (moments : List ℕ) (events : List Event) (cold w : World)
        → OwnsPrefixes net → IsCold net moments cold → WorldRun net cold events w → w.reconfigurations ≡ []
        → (router : ℕ) (state : State) → slice_get w.states router ≡ Some state → IsTableBacked net router state.table }
    ensures least { (net : Network) (moments : List ℕ) (events : List Event) (cold w : World)
        → OwnsPrefixes net → IsCold net moments cold → WorldRun net cold events w → w.reconfigurations ≡ []
        → (router : ℕ) (state : State) (p : Prefix6) (r : RouteValue) (metric : ℕ)
        → slice_get w.states router ≡ Some state → map_of.get state.table p ≡ Some r → r.metric < infinity
        → IsLeast net router p metric → metric ≤ r.metric }
    ensures sent { (net : Network) (moments : List ℕ) (events : List Event) (cold w : World)
        → OwnsPrefixes net → IsCold net moments cold → WorldRun net cold events w → w.reconfigurations ≡ []
        → AllByRecursion (λ d. IsSoundDatagram net d.router d.bytes) w.sent }
{}

/// With no change done, walks at costs in force since the cold start are the walks of the network. The converse always holds.
pub fn generalises_walks()
    ensures unchanged { (past : Past) (from : ℕ) (p : Prefix6) (metric tag : ℕ) (walk : List Hop)
        → past.reconfigurations ≡ [] → ReachesSince past from p metric tag walk → Reaches past.net from p metric tag walk }
    ensures still { (past : Past) (from : ℕ) (p : Prefix6) (metric tag : ℕ) (walk : List Hop)
        → Reaches past.net from p metric tag walk → ReachesSince past from p metric tag walk }
{}

/// Where addresses are distinct on each link, a learned route has one gateway. All walks that begin as its origin says have the
/// same first hop, to the interface with the gateway's address.
pub fn names_one_gateway()
    ensures { (net : Network) (router iface from next_hop : ℕ) (a b : Hop) (rest rest' : List Hop) → HasDistinctAddresses net
        → IsWalk net router (a ∷ rest) → BeginsAs net (Learned iface from next_hop) (a ∷ rest)
        → IsWalk net router (b ∷ rest') → BeginsAs net (Learned iface from next_hop) (b ∷ rest') → a ≡ b }
{}

/// After k synchronous rounds from a cold start, every router has exactly the least costs of walks of at most k hops.
pub fn converges_in_rounds()
    ensures exact { (net : Network) (moments : List ℕ) (rounds : List Round) (cold w : World)
        → IsNetwork net → IsNeverQuiet net → FitsTables net
        → IsCold net moments cold → SynchronousRounds net cold rounds w → AreWithinTimeout rounds
        → AreConverged net (length rounds) w }
    ensures fourteen { (net : Network) (at : ℕ) (walk : List Hop) → IsNetwork net → IsWalk net at walk
        → cost net at walk < infinity → length walk ≤ 14 }
    ensures settled { (net : Network) (moments : List ℕ) (rounds : List Round) (cold w : World)
        → IsNetwork net → IsNeverQuiet net → FitsTables net
        → IsCold net moments cold → SynchronousRounds net cold rounds w → AreWithinTimeout rounds → 14 ≤ length rounds
        → (router : ℕ) (state : State) (p : Prefix6) (metric : ℕ) → slice_get w.states router ≡ Some state
        → IsLeast net router p metric → metric < infinity
        → (r : RouteValue) × (map_of.get state.table p ≡ Some r) × (r.metric ≡ metric) }
{}

/// A network heals, whatever happened since a cold start: losses, restarts, changes of configuration. After 26 synchronous rounds
/// each table has exactly the least costs of now, by the costs and owners of now, and nothing else below infinity.
pub fn heals_in_rounds()
    ensures { (net : Network) (moments : List ℕ) (events : List Event) (rounds : List Round) (cold w end : World)
        → IsNetwork net → IsNeverQuiet net → IsCold net moments cold → WorldRun net cold events w → FitsTablesSince (past_of net w)
        → SynchronousRounds net w rounds end → AreWithinGarbageTime rounds → 26 ≤ length rounds
        → AreHealed (network_now (past_of net end)) end }
{}

/// Where a network has healed, packets arrive: from every router, for every address that its forwarding table matches, so for every
/// address of a prefix that a walk of cost below 16 reaches. They go from router to router, through none twice, to an owner of a
/// prefix that holds the address. As long as they follow one prefix, they cost no more than the first router's metric. There is
/// at most one way.
pub fn packets_arrive()
    ensures healed { (net : Network) (w : World) → IsNetwork net → AreThere net w → AreHealed net w → PacketsArrive net w }
    ensures one_way { (net : Network) (fibs : Forwardings) (addr router : ℕ) (way other : List Hop) → HasDistinctAddresses net
        → ArriveBy net fibs addr router way → ArriveBy net fibs addr router other → way ≡ other }
    ensures after_rounds { (net : Network) (moments : List ℕ) (events : List Event) (rounds : List Round) (cold w end : World)
        → IsNetwork net → IsNeverQuiet net → IsCold net moments cold → WorldRun net cold events w → FitsTablesSince (past_of net w)
        → SynchronousRounds net w rounds end → AreWithinGarbageTime rounds → 26 ≤ length rounds
        → PacketsArrive (network_now (past_of net end)) end }
{}

/// Where no two interfaces of a link have one address, the way of packets for an address from a router is one, and so is its end.
pub fn path_is_one()
    ensures { (net : Network) (fibs : Forwardings) (addr router : ℕ) (path other : PathValue) → HasDistinctAddresses net
        → IsPath net fibs addr router path → IsPath net fibs addr router other → path ≡ other }
{}

/// Where packets arrive, as in a network that has healed, their way from every router that forwards them ends at an owner. It
/// passes no router twice.
pub fn path_arrives()
    ensures delivered { (net : Network) (w : World) (addr router : ℕ) (hop : FibHop) (path : PathValue) → HasDistinctAddresses net → PacketsArrive net w
        → ForwardsBy (forwardings_of w) addr router hop → IsPath net (forwardings_of w) addr router path → path.end ≡ Delivered }
    ensures once { (net : Network) (w : World) (addr router : ℕ) (hop : FibHop) (path : PathValue) → HasDistinctAddresses net → PacketsArrive net w
        → ForwardsBy (forwardings_of w) addr router hop → IsPath net (forwardings_of w) addr router path → IsDistinct nat_eq (routers_of router path.hops) }
{}

/// Synchronous rounds are a run of exactly their events.
pub fn rounds_are_run()
    ensures { (net : Network) (rounds : List Round) (w end : World) → SynchronousRounds net w rounds end → WorldRun net w (events_of_rounds rounds) end }
{}

/// Rounds after rounds are rounds: two calls are as good as one.
pub fn rounds_go_on()
    ensures { (net : Network) (rounds later : List Round) (w mid end : World)
        → SynchronousRounds net w rounds mid → SynchronousRounds net mid later end → SynchronousRounds net w (rounds ++ later) end }
{}

/// A run after a run is a run.
pub fn runs_go_on()
    ensures { (net : Network) (events later : List Event) (w mid end : World)
        → WorldRun net w events mid → WorldRun net mid later end → WorldRun net w (events ++ later) end }
{}
