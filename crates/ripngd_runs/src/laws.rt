//! Laws of runs of the program, and of networks of them. Each is the contract of an empty function: it follows from the definitions
//! alone.

ghost use Rattle.std.specs.Prelude.{◌≡◌, ℕ, ◌+◌, ◌-◌, ◌*◌, ◌<◌, ◌≤◌, ◌++◌, List, length, Option, None, Some, slice_get, true, false};
ghost use Rattle.ripngd_runs.specs.Common.{Appends, Forwarding, Prefix6, Lcg, Network, OwnsPrefixes, IsBacked, Order, Configuration, IsConfigured, Failure, HasFailed, HasRun, IsRan, lines_of, table_text, History, Call, Machine, all_joined, Seen, Deed, in_force, traces_of, RouteValue, infinity, Config, Change, IsLife, IsUnderWay, IsNeverQuiet, FitsTablesSince, network_now, Node, config_of, IsNetwork, PacketsArriveBy, IsBackedSince, OwnsSince, IsAwake, past_since, Happened, reconfigurations_by, AllGoOn, forwardings_by, past_of_daemons, Dated, undated, AreLives, HasNoEntry, HoldsLeast, IsLastRun, RunAnyhow, RunOnTime, daemons_of, AreInTurn, AreRunning, HoldsOnlyWalks, LinkCall, OrdersNoChange, Program, WereOrdered};
ghost use Rattle.std.specs.FinMap as map_of;

use ripngd_theorems::{
    daemons_deliver, daemons_forget_old_news, daemons_heal, daemons_invent_no_distance,
};

/// A run of the program, as the contract of `ripngd run` has it (`IsRan`, and in it `HasRun`), is a daemon's life: it starts, goes on by
/// turns, does what its clients' lines order, and ends. The calls of its link and the moments of its clock are those of these deeds, and
/// the table that it prints is the forwarding table to which they led. `so_far` says the same of a run that goes on, or was cut off between two steps, and of one
/// that starts again with the configuration in force. `failed` says it of a run that failed after its router had started, as the
/// contract of `ripngd run` has it (`HasFailed`): a `recv` that failed is the last of its deeds.
pub fn runs_are_lives()
    ensures ran { (order : Order) (text : List ℕ) (history : History) (old new : Option (List ℕ)) → IsRan order text history true old new
        → (config : Configuration) × IsConfigured text order.tag order.quiet config
        × (deeds : List Deed) × (now : Seen) × IsLife config.router None order (lines_of history.clients) deeds now
        × (history.ports.calls ≡ Some (all_joined (traces_of deeds)).calls) × Appends old new (table_text now.machine.fib) × (now.machine.ended ≡ false) }
    ensures whole { (order : Order) (router : Config) (rng : Lcg) (history : History) (table : Forwarding) → (run : HasRun order router rng history table)
        → (deeds : List Deed) × IsLife router None order (lines_of history.clients) deeds run.done
        × (history.ports.calls ≡ Some (all_joined (traces_of deeds)).calls) × (run.moments ≡ (all_joined (traces_of deeds)).moments) × (table ≡ run.done.machine.fib) × (run.done.machine.ended ≡ false) }
    ensures so_far { (order : Order) (config : Config) (before : Option Machine) (rng : Lcg) (calls : List Call) (lines : List (List ℕ)) (now : Seen)
        → (run : IsUnderWay order (in_force config before) rng calls lines now)
        → (deeds : List Deed) × IsLife config before order lines deeds now
        × (calls ≡ (all_joined (traces_of deeds)).calls) × (run.moments ≡ (all_joined (traces_of deeds)).moments) }
    ensures failed { (order : Order) (router : Config) (rng : Lcg) (failure : Failure) (history : History) → (run : HasFailed order router rng failure history)
        → (deeds : List Deed) × IsLife router None order (lines_of history.clients) deeds run.end
        × (history.ports.calls ≡ Some (all_joined (traces_of deeds)).calls) }
    ensures whole_so_far { (order : Order) (router : Config) (rng : Lcg) (history : History) (table : Forwarding) → (run : HasRun order router rng history table)
        → IsUnderWay order router rng run.calls (lines_of history.clients) run.done }
{}

/// So programs invent no distance. Each router of a network is `ripngd run`, run once or again and again, in whatever order their
/// steps happened, over links that give only what was handed to them before, or what routers refuse. Then all that any of these runs
/// holds, at its end or now, is backed: each route below 16, and each entry of its forwarding table, which is what it prints at its
/// end. The walks are at costs, and to owners, that were in force since the first starts: as configured, or as clients ordered. Where
/// no client ordered a change, they are walks of the network as it is configured.
pub fn programs_invent_no_distance()
    ensures backed { (net : Network) (runs : ℕ → List Program) (order : List LinkCall) → OwnsPrefixes net → AreRunning net runs order
        → (changes : List (ℕ × Change)) × WereOrdered net runs changes
        × ((router place : ℕ) (run : Program) → router < length net → slice_get (runs router) place ≡ Some run
        → HoldsOnlyWalks (record { net = net; reconfigurations = changes }) router run) }
    ensures backed_fixed { (net : Network) (runs : ℕ → List Program) (order : List LinkCall) → OwnsPrefixes net → AreRunning net runs order
        → ((router place : ℕ) (run : Program) → router < length net → slice_get (runs router) place ≡ Some run → OrdersNoChange run)
        → (router place : ℕ) (run : Program) (p : Prefix6) (r : RouteValue) → router < length net → slice_get (runs router) place ≡ Some run
        → map_of.get run.now.machine.router.table p ≡ Some r → r.metric < infinity → IsBacked net router p r }
{
    daemons_invent_no_distance()
}

/// And programs forget old news. Let runs go on for 46 minutes of a true clock that none of them sees, whatever is lost, repeated or
/// overtaken, and whatever runs start, stop or are changed. What a link gives was handed over less than 15 seconds before. A run that
/// does anything ticks each second, no tick is lost for memory, and its clock loses at most a second. Then each route that the last
/// run of a router holds, each entry that it forwards by, and each entry that it prints rests on costs and owners in force in these 46
/// minutes (`backed`), a route of metric m in the last 197 (m - 1) seconds (`by_metric`). A prefix that nobody has owned for so long is
/// in no forwarding table and is not printed (`gone`). The changes among the deeds are those that clients ordered (`ordered`), and
/// runs that start in turn always have such deeds (`lives`).
pub fn programs_forget_old_news()
    ensures backed { (net : Network) (runs : ℕ → List Program) (before : List Happened) (daemons : ℕ → Option Machine) (history : List Dated) (start stop : ℕ)
        → IsNetwork net → RunAnyhow net runs before daemons history start → start + 46 * 60_000 ≤ stop
        → (router : ℕ) (run : Program) → router < length net → IsLastRun runs router run → IsAwake history router stop
        → HoldsOnlyWalks (past_since net before history) router run }
    ensures by_metric { (net : Network) (runs : ℕ → List Program) (before : List Happened) (daemons : ℕ → Option Machine) (history : List Dated) (start stop : ℕ)
        → IsNetwork net → RunAnyhow net runs before daemons history start
        → (router : ℕ) (run : Program) (p : Prefix6) (r : RouteValue) → router < length net → IsLastRun runs router run → IsAwake history router stop
        → map_of.get run.now.machine.router.table p ≡ Some r → r.metric < infinity → start + (r.metric - 1) * 197_000 ≤ stop
        → IsBackedSince (past_since net before history) router p r }
    ensures gone { (net : Network) (runs : ℕ → List Program) (before : List Happened) (daemons : ℕ → Option Machine) (history : List Dated) (start stop : ℕ)
        → IsNetwork net → RunAnyhow net runs before daemons history start
        → start + 46 * 60_000 ≤ stop → (router : ℕ) (run : Program) (p : Prefix6) → router < length net → IsLastRun runs router run → IsAwake history router stop
        → ((owner tag : ℕ) → OwnsSince (past_since net before history) owner p tag → ⊥) → HasNoEntry p run }
    ensures ordered { (net : Network) (runs : ℕ → List Program) (before : List Happened) (daemons : ℕ → Option Machine) (history : List Dated) (start : ℕ)
        → RunAnyhow net runs before daemons history start → WereOrdered net runs (reconfigurations_by (before ++ undated history)) }
    ensures lives { (config : Config) (runs : List Program) → AreInTurn config runs → (deeds : List Deed) × AreLives config None runs deeds }
{
    daemons_forget_old_news()
}

/// Programs heal by themselves, 28 minutes after the last start, change or lost link, where each ticks every half second, memory
/// suffices, and links keep order, lose no regular update and take less than 13 seconds. Then each run holds, forwards by and prints
/// exactly the least costs of now.
pub fn programs_heal()
    ensures { (net : Network) (runs : ℕ → List Program) (before : List Happened) (daemons : ℕ → Option Machine) (history : List Dated) (start stop : ℕ)
        → IsNetwork net → IsNeverQuiet net → FitsTablesSince (past_of_daemons net before)
        → RunOnTime net runs before daemons history start stop → start + 28 * 60_000 ≤ stop
        → (router : ℕ) → router < length net → (run : Program) × IsLastRun runs router run × HoldsLeast (network_now (past_of_daemons net before)) router run }
{
    daemons_heal()
}

/// Then packets arrive, by the forwarding tables of the runs, while none of them has ended.
pub fn programs_deliver()
    ensures { (net : Network) (runs : ℕ → List Program) (before : List Happened) (daemons : ℕ → Option Machine) (history : List Dated) (start stop : ℕ)
        → IsNetwork net → IsNeverQuiet net → FitsTablesSince (past_of_daemons net before)
        → RunOnTime net runs before daemons history start stop → start + 28 * 60_000 ≤ stop
        → AllGoOn net (daemons_of runs) → PacketsArriveBy (network_now (past_of_daemons net before)) (forwardings_by net (daemons_of runs)) }
{
    daemons_deliver()
}
