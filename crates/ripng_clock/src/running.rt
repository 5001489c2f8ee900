//! A run: what is due happens, in the order of time, until a moment.

ghost use Rattle.std.specs.Prelude.{◌≡◌, ◌≤◌, ℕ, IfErr, IfOk, IsTrue, List, OnOk, false, length, true};
ghost use Rattle.ripng_clock.specs.Common.{AreAlarms, AreLater, AreTurns, HasPassed, IsCutShort, IsDone, IsLatest, IsNothingDue, IsRun, IsRunInPart, IsTimelyRun, IsTurn, LabValue, Step, Ticks, place, takes_part};

use crate::acting::{bring, tick};
use crate::carrying::Span;
use crate::due::{Course, Due, alarms_of, moment_by};
use crate::refused::RunRefused;
use crate::runs::Runs;
use crate::timetable::Timetable;
use rand_core::Rng;
use ripng_world::{Observer, Running, Stopped};
use route_table::RouteStore;
use std::alloc::Global;

/// How often something may come next in a run.
const TURN_LIMIT: u64 = 1 << 40;

/// The last moment of all routers.
fn latest<S: RouteStore>(running: &Running<S>) -> u64
    ensures { IsLatest running.now.world.states (length running.now.network) result }
{
    let mut latest = 0;
    for router in 0..running.routers() {
        if let Some(router) = running.router(router) {
            latest = router.last().ms().max(latest);
        }
    }
    latest
}

/// What is due happens now.
fn act<S: RouteStore, L: Runs<S>, V: Observer<S>, R: Rng>(
    lab: &mut L,
    timetable: &mut Timetable,
    course: &mut Course,
    span: &Span<'_>,
    due: Due,
    rng: &mut R,
    watch: &mut V,
) -> Result<(), Stopped<RunRefused, V::Fault>>
    requires alarms { AreAlarms span.now (L.value lab.old) course.old.alarms }
    requires part { (router : ℕ) → due ≡ Ticks router → IsTrue (takes_part span.now router) }
    ensures done { OnOk result ((steps : List Step) × IsDone V.takes span.now due (place (L.value lab.old) watch.old timetable.old course.old) steps (place (L.value lab.new) watch.new timetable.new course.new)) }
    ensures stopped { IfErr result (λ why. (s : LabValue × V) (begin : ℕ) → HasPassed V.takes span.now s begin course.old.moment (L.value lab.old, watch.old) → IsCutShort V.takes V.fails span.now s begin why (L.value lab.new, watch.new)) }
    ensures links { timetable.new.links ≡ timetable.old.links }
{
    match due {
        Due::Comes { time, datagram } => {
            bring(lab, timetable, course, span, datagram, rng, watch)?;
            timetable.under_way.remove(time, datagram);
            Ok(())
        }
        Due::Ticks { router } => {
            let word = rng.next_u32();
            tick(lab, timetable, course, span, router, word, watch)
        }
    }
}

/// What comes next happens. Returns whether anything was due.
fn go_on<S: RouteStore, L: Runs<S>, V: Observer<S>, R: Rng>(
    lab: &mut L,
    timetable: &mut Timetable,
    course: &mut Course,
    span: &Span<'_>,
    rng: &mut R,
    watch: &mut V,
) -> Result<bool, Stopped<RunRefused, V::Fault>>
    requires alarms { AreAlarms span.now (L.value lab.old) course.old.alarms }
    requires in_time { course.old.moment ≤ span.now.until }
    ensures turn { IfOk result (λ went. went ≡ true → (steps : List Step) × IsTurn V.takes span.now (place (L.value lab.old) watch.old timetable.old course.old) steps (place (L.value lab.new) watch.new timetable.new course.new)) }
    ensures stays { IfOk result (λ went. went ≡ false → place (L.value lab.new) watch.new timetable.new course.new ≡ place (L.value lab.old) watch.old timetable.old course.old) }
    ensures over { IfOk result (λ went. went ≡ false → AreLater course.new.alarms timetable.new.under_way span.now.until) }
    ensures stopped { IfErr result (λ why. (s : LabValue × V) (begin : ℕ) → HasPassed V.takes span.now s begin course.old.moment (L.value lab.old, watch.old) → IsCutShort V.takes V.fails span.now s begin why (L.value lab.new, watch.new)) }
    ensures links { timetable.new.links ≡ timetable.old.links }
{
    let Some((moment, due)) = course.next_due(timetable, span.until) else {
        return Ok(false);
    };
    course.moment = moment;
    act(lab, timetable, course, span, due, rng, watch)?;
    Ok(true)
}

/// What is due happens, one after another, until nothing is.
fn pass<S: RouteStore, L: Runs<S>, V: Observer<S>, R: Rng>(
    lab: &mut L,
    timetable: &mut Timetable,
    course: &mut Course,
    span: &Span<'_>,
    rng: &mut R,
    watch: &mut V,
) -> Result<(), Stopped<RunRefused, V::Fault>>
    requires alarms { AreAlarms span.now (L.value lab.old) course.old.alarms }
    requires in_time { course.old.moment ≤ span.now.until }
    ensures turns { OnOk result ((turns : List (List Step)) × AreTurns V.takes span.now (place (L.value lab.old) watch.old timetable.old course.old) turns (place (L.value lab.new) watch.new timetable.new course.new)) }
    ensures over { OnOk result (AreLater course.new.alarms timetable.new.under_way span.now.until) }
    ensures stopped { IfErr result (λ why. (s : LabValue × V) (begin : ℕ) → HasPassed V.takes span.now s begin course.old.moment (L.value lab.old, watch.old) → IsCutShort V.takes V.fails span.now s begin why (L.value lab.new, watch.new)) }
    ensures links { timetable.new.links ≡ timetable.old.links }
{
    for _ in 0..TURN_LIMIT {
        if !go_on(lab, timetable, course, span, rng, watch)? {
            return Ok(());
        }
    }
    Err(Stopped::Refused(RunRefused::TooManyEvents))
}

/// Time passes until a moment. Each router that takes part ticks when it next has something to do, with a random word, and each
/// datagram comes to its receivers after its link's delay, or is lost, by a random word. All happens in the order of time: of what
/// happens together datagrams come first, in the order in which they were sent, and then routers tick, by their numbers. Datagrams
/// that are still under way come in the next run. Nothing is due any more at the end.
///
/// The run begins at the last moment of all routers, or where the last run ended if that is later.
///
/// # Errors
/// The run would end before it begins, or begin past the last moment, 2^60 milliseconds, and nothing is done; too many events; out of
/// memory, also where a router skipped an entry for that reason; or the observer's, and then it failed at the last event that was
/// done. All earlier events are done.
pub fn run_until<S: RouteStore, L: Runs<S>, V: Observer<S>, R: Rng>(
    alloc: Global,
    lab: &mut L,
    timetable: &mut Timetable,
    span: &Span<'_>,
    rng: &mut R,
    watch: &mut V,
) -> Result<(), Stopped<RunRefused, V::Fault>>
    ensures network { (L.value lab.new).network ≡ (L.value lab.old).network }
    ensures ran { OnOk result (IsRun V.takes span.now timetable.old (L.value lab.old, watch.old) (L.value lab.new, watch.new)) }
    ensures stopped { IfErr result (λ why. IsRunInPart V.takes V.fails span.now timetable.old (L.value lab.old, watch.old) why (L.value lab.new, watch.new)) }
    ensures over { OnOk result (IsNothingDue span.now (L.value lab.new) timetable.new.under_way) }
    ensures timely { OnOk result (IsTimelyRun span.now timetable.old (L.value lab.old) (L.value lab.new)) }
    ensures end { OnOk result (timetable.new.over ≡ span.now.until) }
    ensures links { timetable.new.links ≡ timetable.old.links }
{
    let begin = latest(lab.running()).max(timetable.over);
    let Some(moment) = moment_by(begin, span.until) else {
        return Err(Stopped::Refused(RunRefused::BeforeBegin { begin }));
    };
    let Ok(alarms) = alarms_of(alloc, lab.running(), span) else {
        return Err(Stopped::Refused(RunRefused::OutOfMemory));
    };
    let mut course = Course {
        moment,
        alarms,
        next: span.first,
    };
    let Ok(()) = course.set_out(lab.running(), timetable, span) else {
        return Err(Stopped::Refused(RunRefused::OutOfMemory));
    };
    pass(lab, timetable, &mut course, span, rng, watch)?;
    timetable.over = span.until.ms();
    Ok(())
}
