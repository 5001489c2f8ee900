//! Laws of phases. Each is the contract of an empty function: it follows from the definitions alone.

ghost use Rattle.std.specs.Prelude.{◌≡◌, ℕ, ◌+◌, ◌-◌, ◌*◌, ◌<◌, ◌≤◌, List, ◌++◌, length, All, Some, slice_get};
ghost use Rattle.ripng_phases.specs.Common.{AllByRecursion, Prefix6, RouteValue, infinity, State, IsNeverQuiet, network_now, FitsTablesSince, AreHealed, Network, IsNetwork, OwnsPrefixes, PacketsArrive, IsBackedSince, IsTableBackedSince, IsLeastSince, OwnsSince, Round, SynchronousRounds, IsSoundDatagramSince, World, Event, IsCold, WorldRun, past_of, Timed, AreFrom, IsTimely, untimed, IsAwake, IsRecent, past_from, Step, Begun, Phases, AreClose, ArePhases, steps_of, events_of, reached};
ghost use Rattle.std.specs.FinMap as map_of;

/// Phases are a run of exactly their events.
pub fn phases_are_run()
    ensures { (net : Network) (phases : List (List Step)) (w end : World) → Phases net w phases end
        → WorldRun net w (events_of (steps_of phases)) end }
{}

/// Phases may be cut off after any of them, and what was run until then are phases.
pub fn phases_go_on()
    ensures { (net : Network) (phases later : List (List Step)) (w end : World) → Phases net w (phases ++ later) end
        → Phases net w phases (reached w (steps_of phases)) }
{}

/// At every moment of phases, whatever happened before them, each route is backed by a walk, and so is all that was sent.
pub fn phases_keep_routes_backed()
    ensures backed { (net : Network) (moments : List ℕ) (events : List Event) (phases : List (List Step)) (before after : List Step) (cold w end : World)
        → OwnsPrefixes net → IsCold net moments cold → WorldRun net cold events w → Phases net w phases end
        → steps_of phases ≡ before ++ after
        → let now = reached w before in (router : ℕ) (state : State) → slice_get now.states router ≡ Some state
        → IsTableBackedSince (past_of net now) router state.table }
    ensures sent { (net : Network) (moments : List ℕ) (events : List Event) (phases : List (List Step)) (before after : List Step) (cold w end : World)
        → OwnsPrefixes net → IsCold net moments cold → WorldRun net cold events w → Phases net w phases end
        → steps_of phases ≡ before ++ after
        → let now = reached w before in AllByRecursion (λ d. IsSoundDatagramSince (past_of net now) d.router d.bytes) now.sent }
{}

/// Each phase takes each router 15 seconds at least: so far apart are its regular updates, by its own clock in milliseconds.
pub fn phases_take_time()
    ensures { (net : Network) (phases : List (List Step)) (w end : World) (router : ℕ) (first last : State)
        → Phases net w phases end → router < length net
        → slice_get w.states router ≡ Some first → slice_get end.states router ≡ Some last
        → first.regular + 15_000 * length phases ≤ last.regular }
{}

/// A network heals by itself: whatever happened before, 28 phases leave each table with exactly the least costs of now and nothing
/// else below infinity. So it is at every moment of all further phases, and while the next is not over yet.
pub fn heals_in_phases()
    ensures healed { (net : Network) (moments : List ℕ) (events : List Event) (phases : List (List Step)) (cold w end : World)
        → IsNetwork net → IsNeverQuiet net → IsCold net moments cold → WorldRun net cold events w → FitsTablesSince (past_of net w)
        → Phases net w phases end → 28 ≤ length phases
        → AreHealed (network_now (past_of net end)) end }
    ensures stays { (net : Network) (moments : List ℕ) (events : List Event) (phases later : List (List Step)) (before after : List Step) (cold w end : World)
        → IsNetwork net → IsNeverQuiet net → IsCold net moments cold → WorldRun net cold events w → FitsTablesSince (past_of net w)
        → Phases net w (phases ++ later) end → 28 ≤ length phases → steps_of later ≡ before ++ after
        → let now = reached w (steps_of phases ++ before) in AreHealed (network_now (past_of net now)) now }
    ensures goes_on { (net : Network) (moments : List ℕ) (events : List Event) (phases : List (List Step)) (since : List Step) (cold w end : World)
        → IsNetwork net → IsNeverQuiet net → IsCold net moments cold → WorldRun net cold events w → FitsTablesSince (past_of net w)
        → Begun net w phases since end → 28 ≤ length phases
        → AreHealed (network_now (past_of net end)) end }
{}

/// Packets arrive in it: after 28 phases, and at every moment from then on.
pub fn packets_arrive_in_phases()
    ensures { (net : Network) (moments : List ℕ) (events : List Event) (phases : List (List Step)) (since : List Step) (cold w end : World)
        → IsNetwork net → IsNeverQuiet net → IsCold net moments cold → WorldRun net cold events w → FitsTablesSince (past_of net w)
        → Begun net w phases since end → 28 ≤ length phases
        → PacketsArrive (network_now (past_of net end)) end }
{}

/// By one true clock: where links keep order, lose no regular update and take less than 15 seconds, so that each minute is a phase,
/// each table has exactly the least costs of now 28 minutes after the last change, and from then on.
pub fn heals_in_minutes()
    ensures healed { (net : Network) (moments : List ℕ) (events : List Event) (history : List Timed) (start stop : ℕ) (cold w end : World)
        → IsNetwork net → IsNeverQuiet net → IsCold net moments cold → WorldRun net cold events w → FitsTablesSince (past_of net w)
        → IsTimely net w history start stop end → start + 28 * 60_000 ≤ stop
        → AreHealed (network_now (past_of net end)) end }
    ensures stays { (net : Network) (moments : List ℕ) (events : List Event) (history before after : List Timed) (start until stop : ℕ) (cold w end : World)
        → IsNetwork net → IsNeverQuiet net → IsCold net moments cold → WorldRun net cold events w → FitsTablesSince (past_of net w)
        → IsTimely net w history start stop end → start + 28 * 60_000 ≤ until → until ≤ stop
        → history ≡ before ++ after → All (λ t. t.at < until) before → AreFrom until after
        → let now = reached w (untimed before) in AreHealed (network_now (past_of net now)) now }
{}

/// Packets arrive in it by then, and at every moment from then on.
pub fn packets_arrive_in_minutes()
    ensures arrive { (net : Network) (moments : List ℕ) (events : List Event) (history : List Timed) (start stop : ℕ) (cold w end : World)
        → IsNetwork net → IsNeverQuiet net → IsCold net moments cold → WorldRun net cold events w → FitsTablesSince (past_of net w)
        → IsTimely net w history start stop end
        → start + 28 * 60_000 ≤ stop → PacketsArrive (network_now (past_of net end)) end }
    ensures stays { (net : Network) (moments : List ℕ) (events : List Event) (history before after : List Timed) (start until stop : ℕ) (cold w end : World)
        → IsNetwork net → IsNeverQuiet net → IsCold net moments cold → WorldRun net cold events w → FitsTablesSince (past_of net w)
        → IsTimely net w history start stop end
        → start + 28 * 60_000 ≤ until → until ≤ stop → history ≡ before ++ after → All (λ t. t.at < until) before → AreFrom until after
        → let now = reached w (untimed before) in PacketsArrive (network_now (past_of net now)) now }
{}

/// Synchronous rounds are phases, where a router's moments in a round and the next lie less than 120 seconds apart: so what is said
/// of phases is said of such rounds.
pub fn rounds_are_phases()
    ensures { (net : Network) (rounds : List Round) (w end : World) → SynchronousRounds net w rounds end → AreClose rounds
        → ArePhases net w rounds end }
{}

/// News does not outlive 46 minutes, whatever is lost, repeated or overtaken, and whichever routers start anew, shut down or are
/// reconfigured. Datagrams come in less than 15 seconds or never, a router that does anything ticks each second, and its clock
/// loses at most a second. Then each route rests on costs and owners in force at some moment of the last 46 minutes, and a route of a
/// lower metric on younger ones: 197 seconds for each metric above 1. A prefix that nobody has owned for so long is nowhere reachable.
/// This holds at every moment (`always`): of each route, since so long before.
pub fn forgets_old_news()
    ensures by_metric { (net : Network) (moments : List ℕ) (events : List Event) (history : List Timed) (start stop : ℕ) (cold w end : World)
        → IsNetwork net → IsCold net moments cold → WorldRun net cold events w → IsRecent net w history start end
        → (router : ℕ) (state : State) (p : Prefix6) (r : RouteValue) → slice_get end.states router ≡ Some state → IsAwake history router stop
        → map_of.get state.table p ≡ Some r → r.metric < infinity → start + (r.metric - 1) * 197_000 ≤ stop
        → IsBackedSince (past_from net w history) router p r }
    ensures backed { (net : Network) (moments : List ℕ) (events : List Event) (history : List Timed) (start stop : ℕ) (cold w end : World)
        → IsNetwork net → IsCold net moments cold → WorldRun net cold events w → IsRecent net w history start end → start + 46 * 60_000 ≤ stop
        → (router : ℕ) (state : State) → slice_get end.states router ≡ Some state → IsAwake history router stop
        → IsTableBackedSince (past_from net w history) router state.table }
    ensures least { (net : Network) (moments : List ℕ) (events : List Event) (history : List Timed) (start stop : ℕ) (cold w end : World)
        → IsNetwork net → IsCold net moments cold → WorldRun net cold events w → IsRecent net w history start end → start + 46 * 60_000 ≤ stop
        → (router : ℕ) (state : State) (p : Prefix6) (r : RouteValue) (metric : ℕ) → slice_get end.states router ≡ Some state → IsAwake history router stop
        → map_of.get state.table p ≡ Some r → r.metric < infinity → IsLeastSince (past_from net w history) router p metric → metric ≤ r.metric }
    ensures gone { (net : Network) (moments : List ℕ) (events : List Event) (history : List Timed) (start stop : ℕ) (cold w end : World)
        → IsNetwork net → IsCold net moments cold → WorldRun net cold events w → IsRecent net w history start end → start + 46 * 60_000 ≤ stop
        → (router : ℕ) (state : State) (p : Prefix6) (r : RouteValue) → slice_get end.states router ≡ Some state → IsAwake history router stop
        → ((owner tag : ℕ) → OwnsSince (past_from net w history) owner p tag → ⊥)
        → map_of.get state.table p ≡ Some r → infinity ≤ r.metric }
    ensures always { (net : Network) (moments : List ℕ) (events : List Event) (early between late : List Timed) (start from until : ℕ) (cold w end : World)
        → IsNetwork net → IsCold net moments cold → WorldRun net cold events w → IsRecent net w (early ++ (between ++ late)) start end
        → start ≤ from → All (λ t. t.at < from) early → AreFrom from (between ++ late)
        → let then = reached w (untimed early) in let now = reached then (untimed between) in
        (router : ℕ) (state : State) (p : Prefix6) (r : RouteValue) → slice_get now.states router ≡ Some state → IsAwake (early ++ between) router until
        → map_of.get state.table p ≡ Some r → r.metric < infinity → from + (r.metric - 1) * 197_000 ≤ until
        → IsBackedSince (past_from net then between) router p r }
{}
