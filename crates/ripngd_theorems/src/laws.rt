//! Laws of networks of daemons. Each is the contract of an empty function: it follows from the definitions alone.

ghost use Rattle.std.specs.Prelude.{◌≡◌, ℕ, ◌+◌, ◌-◌, ◌*◌, ◌<◌, ◌≤◌, List, [], ◌∷◌, ◌++◌, length, Contains, Option, Some, Result, false};
ghost use Rattle.ripngd_theorems.specs.Common.{AllByRecursion, Stream, Forward, Prefix6, RouteValue, infinity, forward, forwards, Config, IsNeverQuiet, FitsTablesSince, IsHealed, network_now, Network, IsNetwork, OwnsPrefixes, IsBacked, IsLeast, IsBackedSince, IsLeastSince, OwnsSince, IsSoundDatagramSince, Sent, Change, LinkComesUpOnce, LinkGoesDownOnce, ReconfigureAnswer, ShutsDownOnce, StepAnswer, Machine, all_joined, Seen, Outside, Shows, Started, TurnsAnswer, EngineFault, ChangeFault, Deed, Start, Happened, Lives, reconfigurations_by, in_force, traces_of, HaveRun, IsRunOf, LiveOn, all_handed, past_of_daemons, AreOnTime, Dated, ForwardsLeast, GoOn, HappenFrom, undated, AllGoOn, forwardings_by, PacketsArriveBy, GoOnAnyhow, IsAwake, past_since};
ghost use Rattle.std.specs.FinMap as map_of;

/// What the contracts of an engine say is a daemon's life: its start, whatever was before; its turns, also those that end early
/// because a link failed or memory ran out; changes of its configuration, shutdowns and links that go down or come up, also those
/// that are refused. The outside gained exactly what the deeds of that life did.
pub fn engines_live()
    ensures start { (config : Config) (stream : Stream) (a : Outside) (b : Seen) (before : Option Machine) → Started (in_force config before) stream a b
        → (deed : Deed) × (deed.act ≡ Start) × Lives config before (deed ∷ []) (Some b.machine) × Shows a deed.trace b.outside }
    ensures turns { (config : Config) (count : ℕ) (a : Seen) (result : Result (Unit {0}) EngineFault) (b : Seen) → TurnsAnswer count a result b
        → (deeds : List Deed) × Lives config (Some a.machine) deeds (Some b.machine) × Shows a.outside (all_joined (traces_of deeds)) b.outside }
    ensures reconfigurations { (config : Config) (c : Change) (a : Seen) (result : Result (Unit {0}) ChangeFault) (b : Seen) → a.machine.ended ≡ false → ReconfigureAnswer c a result b
        → (deeds : List Deed) × Lives config (Some a.machine) deeds (Some b.machine) × Shows a.outside (all_joined (traces_of deeds)) b.outside }
    ensures shutdowns { (config : Config) (a : Seen) (result : Result (Unit {0}) ChangeFault) (b : Seen) → a.machine.ended ≡ false → StepAnswer ShutsDownOnce a result b
        → (deeds : List Deed) × Lives config (Some a.machine) deeds (Some b.machine) × Shows a.outside (all_joined (traces_of deeds)) b.outside }
    ensures link_downs { (config : Config) (iface : ℕ) (a : Seen) (result : Result (Unit {0}) ChangeFault) (b : Seen) → a.machine.ended ≡ false → StepAnswer (LinkGoesDownOnce iface) a result b
        → (deeds : List Deed) × Lives config (Some a.machine) deeds (Some b.machine) × Shows a.outside (all_joined (traces_of deeds)) b.outside }
    ensures link_ups { (config : Config) (iface : ℕ) (a : Seen) (result : Result (Unit {0}) ChangeFault) (b : Seen) → a.machine.ended ≡ false → StepAnswer (LinkComesUpOnce iface) a result b
        → (deeds : List Deed) × Lives config (Some a.machine) deeds (Some b.machine) × Shows a.outside (all_joined (traces_of deeds)) b.outside }
    ensures on { (config : Config) (a b c : Option Machine) (deeds later : List Deed)
        → Lives config a deeds b → Lives config b later c → Lives config a (deeds ++ later) c }
{}

/// A network of daemons runs as a network of the model does: what its daemons did is a run of events from a cold start. At its end
/// each router is as its daemon is.
pub fn daemons_run_as_networks()
    ensures { (net : Network) (order : List Happened) (daemons : ℕ → Option Machine) → HaveRun net order daemons → IsRunOf net order daemons }
{}

/// So daemons invent no distance: each route of each daemon below 16 is backed by a walk at costs in force since the first starts,
/// and none is below the least such cost. With no change done, the walk is one of the network as it is configured. The forwarding
/// table of a daemon that has not ended is that of its routes, and each entry that a daemon ever advertised is true. Interfaces may
/// have any addresses; those of a router on one link are in one zone.
pub fn daemons_invent_no_distance()
    ensures backed { (net : Network) (order : List Happened) (daemons : ℕ → Option Machine) → OwnsPrefixes net → HaveRun net order daemons
        → (router : ℕ) (m : Machine) (p : Prefix6) (r : RouteValue) → router < length net → daemons router ≡ Some m
        → map_of.get m.router.table p ≡ Some r → r.metric < infinity → IsBackedSince (past_of_daemons net order) router p r }
    ensures least { (net : Network) (order : List Happened) (daemons : ℕ → Option Machine) → OwnsPrefixes net → HaveRun net order daemons
        → (router : ℕ) (m : Machine) (p : Prefix6) (r : RouteValue) (metric : ℕ) → router < length net → daemons router ≡ Some m
        → map_of.get m.router.table p ≡ Some r → r.metric < infinity → IsLeastSince (past_of_daemons net order) router p metric → metric ≤ r.metric }
    ensures backed_fixed { (net : Network) (order : List Happened) (daemons : ℕ → Option Machine) → OwnsPrefixes net → HaveRun net order daemons → reconfigurations_by order ≡ []
        → (router : ℕ) (m : Machine) (p : Prefix6) (r : RouteValue) → router < length net → daemons router ≡ Some m
        → map_of.get m.router.table p ≡ Some r → r.metric < infinity → IsBacked net router p r }
    ensures least_fixed { (net : Network) (order : List Happened) (daemons : ℕ → Option Machine) → OwnsPrefixes net → HaveRun net order daemons → reconfigurations_by order ≡ []
        → (router : ℕ) (m : Machine) (p : Prefix6) (r : RouteValue) (metric : ℕ) → router < length net → daemons router ≡ Some m
        → map_of.get m.router.table p ≡ Some r → r.metric < infinity → IsLeast net router p metric → metric ≤ r.metric }
    ensures forwards { (net : Network) (order : List Happened) (daemons : ℕ → Option Machine) → HaveRun net order daemons
        → (router : ℕ) (m : Machine) → router < length net → daemons router ≡ Some m → m.ended ≡ false → m.fib ≡ forwards m.router.table }
    ensures entries { (net : Network) (order : List Happened) (daemons : ℕ → Option Machine) → OwnsPrefixes net → HaveRun net order daemons
        → (router : ℕ) (m : Machine) (p : Prefix6) (f : Forward) → router < length net → daemons router ≡ Some m → m.ended ≡ false
        → map_of.get m.fib p ≡ Some f
        → (r : RouteValue) × (map_of.get m.router.table p ≡ Some r) × (forward r ≡ Some f) × IsBackedSince (past_of_daemons net order) router p r }
    ensures told { (net : Network) (order : List Happened) (daemons : ℕ → Option Machine) → OwnsPrefixes net → HaveRun net order daemons
        → (d : Sent) → Contains (all_handed order) d → IsSoundDatagramSince (past_of_daemons net order) d.router d.bytes }
{}

/// Networks of daemons heal by themselves. Whatever was before, let daemons run for 28 minutes of a true clock that none of them
/// sees. No daemon starts, shuts down or is reconfigured, no link goes down, each daemon ticks every half second, and memory suffices.
/// Links keep order, lose no regular update, and take less than 13 seconds. Links may come up meanwhile, and daemons may ask for tables
/// whenever they like. Then each daemon holds, and forwards by, exactly the least costs of now, at each moment from then on while
/// these conditions last.
pub fn daemons_heal()
    ensures healed { (net : Network) (before : List Happened) (daemons daemons' : ℕ → Option Machine) (history : List Dated) (start stop : ℕ)
        → IsNetwork net → IsNeverQuiet net → HaveRun net before daemons → FitsTablesSince (past_of_daemons net before)
        → GoOn net before daemons history start stop daemons' → AreOnTime net before daemons history start stop → start + 28 * 60_000 ≤ stop
        → (router : ℕ) (m : Machine) → router < length net → daemons' router ≡ Some m → IsHealed (network_now (past_of_daemons net before)) router m.router.table }
    ensures forwards { (net : Network) (before : List Happened) (daemons daemons' : ℕ → Option Machine) (history : List Dated) (start stop : ℕ)
        → IsNetwork net → IsNeverQuiet net → HaveRun net before daemons → FitsTablesSince (past_of_daemons net before)
        → GoOn net before daemons history start stop daemons' → AreOnTime net before daemons history start stop → start + 28 * 60_000 ≤ stop
        → (router : ℕ) (m : Machine) → router < length net → daemons' router ≡ Some m → m.ended ≡ false
        → ForwardsLeast (network_now (past_of_daemons net before)) router m.fib }
    ensures up { (net : Network) (before : List Happened) (daemons daemons' : ℕ → Option Machine) (history : List Dated) (start stop : ℕ)
        → IsNetwork net → IsNeverQuiet net → HaveRun net before daemons → FitsTablesSince (past_of_daemons net before)
        → GoOn net before daemons history start stop daemons' → AreOnTime net before daemons history start stop → start + 28 * 60_000 ≤ stop
        → (router : ℕ) → router < length net → (m : Machine) × (daemons' router ≡ Some m) }
    ensures stays { (net : Network) (before : List Happened) (daemons now daemons' : ℕ → Option Machine) (early late : List Dated) (start until stop : ℕ)
        → IsNetwork net → IsNeverQuiet net → HaveRun net before daemons → FitsTablesSince (past_of_daemons net before)
        → GoOn net before daemons (early ++ late) start stop daemons' → AreOnTime net before daemons (early ++ late) start stop
        → start + 28 * 60_000 ≤ until → until ≤ stop → AllByRecursion (λ t. t.at < until) early → HappenFrom until late
        → LiveOn net (undated early) daemons now → LiveOn net (undated late) now daemons'
        → (router : ℕ) (m : Machine) → router < length net → now router ≡ Some m
        → IsHealed (network_now (past_of_daemons net before)) router m.router.table × (m.ended ≡ false → ForwardsLeast (network_now (past_of_daemons net before)) router m.fib) }
{}

/// Then packets arrive, by the daemons' own forwarding tables, while none of the daemons has ended: from each of them, for every
/// address that its table matches. This holds 28 minutes after the last change, and at each moment from then on.
pub fn daemons_deliver()
    ensures deliver { (net : Network) (before : List Happened) (daemons daemons' : ℕ → Option Machine) (history : List Dated) (start stop : ℕ)
        → IsNetwork net → IsNeverQuiet net → HaveRun net before daemons → FitsTablesSince (past_of_daemons net before)
        → GoOn net before daemons history start stop daemons' → AreOnTime net before daemons history start stop → start + 28 * 60_000 ≤ stop
        → AllGoOn net daemons' → PacketsArriveBy (network_now (past_of_daemons net before)) (forwardings_by net daemons') }
    ensures stays { (net : Network) (before : List Happened) (daemons now daemons' : ℕ → Option Machine) (early late : List Dated) (start until stop : ℕ)
        → IsNetwork net → IsNeverQuiet net → HaveRun net before daemons → FitsTablesSince (past_of_daemons net before)
        → GoOn net before daemons (early ++ late) start stop daemons' → AreOnTime net before daemons (early ++ late) start stop
        → start + 28 * 60_000 ≤ until
        → until ≤ stop → AllByRecursion (λ t. t.at < until) early → HappenFrom until late
        → LiveOn net (undated early) daemons now → LiveOn net (undated late) now daemons'
        → AllGoOn net now → PacketsArriveBy (network_now (past_of_daemons net before)) (forwardings_by net now) }
{}

/// Daemons forget old news, whatever is lost, repeated or overtaken, and whichever daemons start anew, shut down, are reconfigured or
/// lose a link. What a link gives was handed over less than 15 seconds before. A daemon that does anything ticks each second, no
/// tick is lost for memory, and its clock loses at most a second. Then each route, and each entry that a daemon forwards by, rests on
/// costs and owners in force at some moment of the last 46 minutes. A prefix that nobody has owned for so long is forwarded nowhere.
/// Healing asks for all of this, and for more.
pub fn daemons_forget_old_news()
    ensures by_metric { (net : Network) (before : List Happened) (daemons daemons' : ℕ → Option Machine) (history : List Dated) (start stop : ℕ)
        → IsNetwork net → HaveRun net before daemons → GoOnAnyhow net before daemons history start daemons'
        → (router : ℕ) (m : Machine) (p : Prefix6) (r : RouteValue) → router < length net → daemons' router ≡ Some m → IsAwake history router stop
        → map_of.get m.router.table p ≡ Some r → r.metric < infinity → start + (r.metric - 1) * 197_000 ≤ stop
        → IsBackedSince (past_since net before history) router p r }
    ensures by_age { (net : Network) (before : List Happened) (daemons daemons' : ℕ → Option Machine) (early late : List Dated) (start from stop : ℕ)
        → IsNetwork net → HaveRun net before daemons → GoOnAnyhow net before daemons (early ++ late) start daemons'
        → start ≤ from → AllByRecursion (λ t. t.at < from) early → HappenFrom from late
        → (router : ℕ) (m : Machine) (p : Prefix6) (r : RouteValue) → router < length net → daemons' router ≡ Some m → IsAwake (early ++ late) router stop
        → map_of.get m.router.table p ≡ Some r → r.metric < infinity → from + (r.metric - 1) * 197_000 ≤ stop
        → IsBackedSince (past_since net (before ++ undated early) late) router p r }
    ensures backed { (net : Network) (before : List Happened) (daemons daemons' : ℕ → Option Machine) (history : List Dated) (start stop : ℕ)
        → IsNetwork net → HaveRun net before daemons → GoOnAnyhow net before daemons history start daemons' → start + 46 * 60_000 ≤ stop
        → (router : ℕ) (m : Machine) (p : Prefix6) (f : Forward) → router < length net → daemons' router ≡ Some m → m.ended ≡ false → IsAwake history router stop
        → map_of.get m.fib p ≡ Some f
        → (r : RouteValue) × (map_of.get m.router.table p ≡ Some r) × (forward r ≡ Some f) × IsBackedSince (past_since net before history) router p r }
    ensures gone { (net : Network) (before : List Happened) (daemons daemons' : ℕ → Option Machine) (history : List Dated) (start stop : ℕ)
        → IsNetwork net → HaveRun net before daemons → GoOnAnyhow net before daemons history start daemons' → start + 46 * 60_000 ≤ stop
        → (router : ℕ) (m : Machine) (p : Prefix6) (f : Forward) → router < length net → daemons' router ≡ Some m → m.ended ≡ false → IsAwake history router stop
        → ((owner tag : ℕ) → OwnsSince (past_since net before history) owner p tag → ⊥)
        → map_of.get m.fib p ≡ Some f → ⊥ }
    ensures weaker { (net : Network) (before : List Happened) (daemons daemons' : ℕ → Option Machine) (history : List Dated) (start stop : ℕ)
        → GoOn net before daemons history start stop daemons' → AreOnTime net before daemons history start stop
        → GoOnAnyhow net before daemons history start daemons' }
{}
