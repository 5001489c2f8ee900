//! What is met. Each law is the contract of an empty function.

ghost use Rattle.std.specs.Prelude.{◌≡◌, ℕ, ◌+◌, ◌-◌, ◌*◌, ◌≤◌, List, [], Option, Some, None, slice_get};
ghost use Rattle.ripngd_examples.specs.Common.{Stream, Prefix6, RouteValue, State, Network, IsNetwork, World, IsCold, Timed, IsAwake, IsRecent, Dated, Machine, GoOnAnyhow};
ghost use Rattle.std.specs.FinMap as map_of;

/// The premises of `forgets_old_news` can be met. A history of 200 seconds from a cold start meets `IsRecent`: an update is lost, a
/// router starts anew, and a clock loses 200 ms. At its end a router that is awake holds a route of metric 2, of which the law speaks.
pub fn premises_of_old_news_are_met()
    ensures { (net : Network) × IsNetwork net × (moments : List ℕ) × (cold : World) × IsCold net moments cold
        × (history : List Timed) × (stop : World) × IsRecent net cold history 0 stop
        × (router : ℕ) × (state : State) × (slice_get stop.states router ≡ Some state) × IsAwake history router 200_000
        × (p : Prefix6) × (r : RouteValue) × (map_of.get state.table p ≡ Some r) × (0 + (r.metric - 1) * 197_000 ≤ 200_000) }
{}

/// So can those of `daemons_forget_old_news`, whatever the daemons' random words: two daemons start, the first answers the Request of
/// the second, the second starts anew, hears an update, and holds a route of metric 2.
pub fn premises_of_daemons_are_met()
    ensures { (stream : Stream) → (net : Network) × IsNetwork net × (history : List Dated) × (daemons : ℕ → Option Machine)
        × GoOnAnyhow net [] (λ router. None) history 0 daemons
        × (router : ℕ) × (m : Machine) × (daemons router ≡ Some m)
        × (p : Prefix6) × (r : RouteValue) × (map_of.get m.router.table p ≡ Some r) × (r.metric ≡ 2) }
{}
