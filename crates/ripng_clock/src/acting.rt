//! The actions of a run: a router ticks, and a datagram comes.

ghost use Rattle.std.specs.Prelude.{◌≡◌, ◌<◌, ◌∷◌, ℕ, [], IfErr, IsTrue, List, OnOk, length};
ghost use Rattle.ripng_clock.specs.Common.{AreAlarms, AreSteps, HasPassed, IfRefused, IsBroughtBy, IsCutShort, IsDone, IsLast, IsOwnAt, IsStep, LabValue, OutOfMemory, Step, Ticks, WatchedRun, event_of, events_of, heard, place, router_of, takes_part};

use crate::carrying::Span;
use crate::due::Course;
use crate::refused::RunRefused;
use crate::runs::Runs;
use crate::timetable::Timetable;
use rand_core::Rng;
use ripng_world::{Event, Observer, Stopped, wants_memory};
use route_table::RouteStore;

/// An event happens, and the observer is notified of it.
fn occur<S: RouteStore, L: Runs<S>, V: Observer<S>>(
    lab: &mut L,
    event: &Event<'_>,
    watch: &mut V,
) -> Result<(), Stopped<RunRefused, V::Fault>>
    ensures network { (L.value lab.new).network ≡ (L.value lab.old).network }
    ensures there { OnOk result (router_of (event_of event.entry.now) < length (L.value lab.old).network) }
    ensures done { OnOk result (WatchedRun V.takes heard (L.value lab.old).network ((L.value lab.old).world, watch.old) (event_of event.entry.now ∷ []) ((L.value lab.new).world, watch.new)) }
    ensures stopped { IfErr result (λ why. IsLast V.takes V.fails (λ e. e ≡ event_of event.entry.now) (L.value lab.old).network ((L.value lab.old).world, watch.old) why ((L.value lab.new).world, watch.new)) }
    ensures memory { IfErr result (λ why. IfRefused why (λ refusal. refusal ≡ OutOfMemory)) }
{
    let answer = match lab.step_watched(event, watch) {
        Ok(answer) => answer,
        // The router, the datagram and the interface on its link exist: only memory can have run out.
        Err(stopped) => return Err(stopped.refused_as(RunRefused::OutOfMemory)),
    };
    if wants_memory(answer.notes.as_slice()) {
        return Err(Stopped::Refused(RunRefused::OutOfMemory));
    }
    Ok(())
}

/// An event happens. What is sent in it sets out, and its router has its next time.
fn happen<S: RouteStore, L: Runs<S>, V: Observer<S>>(
    lab: &mut L,
    timetable: &mut Timetable,
    course: &mut Course,
    span: &Span<'_>,
    event: &Event<'_>,
    watch: &mut V,
) -> Result<(), Stopped<RunRefused, V::Fault>>
    requires own { IsOwnAt span.now course.old.moment (event_of event.now) }
    requires alarms { AreAlarms span.now (L.value lab.old) course.old.alarms }
    ensures step { OnOk result ((x : Step) × (x.event ≡ event_of event.now) × IsStep V.takes span.now (place (L.value lab.old) watch.old timetable.old course.old) x (place (L.value lab.new) watch.new timetable.new course.new)) }
    ensures stopped { IfErr result (λ why. (s : LabValue × V) (begin : ℕ) → HasPassed V.takes span.now s begin course.old.moment (L.value lab.old, watch.old) → IsCutShort V.takes V.fails span.now s begin why (L.value lab.new, watch.new)) }
    ensures links { timetable.new.links ≡ timetable.old.links }
{
    occur(lab, event, watch)?;
    match course.follow(lab.running(), timetable, span, event.router()) {
        Ok(()) => Ok(()),
        Err(_) => Err(Stopped::Refused(RunRefused::OutOfMemory)),
    }
}

/// A router ticks.
pub fn tick<S: RouteStore, L: Runs<S>, V: Observer<S>>(
    lab: &mut L,
    timetable: &mut Timetable,
    course: &mut Course,
    span: &Span<'_>,
    router: usize,
    word: u32,
    watch: &mut V,
) -> Result<(), Stopped<RunRefused, V::Fault>>
    requires part { IsTrue (takes_part span.now router) }
    requires alarms { AreAlarms span.now (L.value lab.old) course.old.alarms }
    ensures done { OnOk result ((steps : List Step) × IsDone V.takes span.now (Ticks router) (place (L.value lab.old) watch.old timetable.old course.old) steps (place (L.value lab.new) watch.new timetable.new course.new)) }
    ensures stopped { IfErr result (λ why. (s : LabValue × V) (begin : ℕ) → HasPassed V.takes span.now s begin course.old.moment (L.value lab.old, watch.old) → IsCutShort V.takes V.fails span.now s begin why (L.value lab.new, watch.new)) }
    ensures links { timetable.new.links ≡ timetable.old.links }
{
    let now = course.moment;
    happen(
        lab,
        timetable,
        course,
        span,
        &Event::Tick { router, now, word },
        watch,
    )
}

/// A datagram comes to each of its receivers, or is lost there.
pub fn bring<S: RouteStore, L: Runs<S>, V: Observer<S>, R: Rng>(
    lab: &mut L,
    timetable: &mut Timetable,
    course: &mut Course,
    span: &Span<'_>,
    datagram: usize,
    rng: &mut R,
    watch: &mut V,
) -> Result<(), Stopped<RunRefused, V::Fault>>
    requires { AreAlarms span.now (L.value lab.old) course.old.alarms }
    ensures brought { OnOk result ((steps : List Step) × AreSteps V.takes span.now (place (L.value lab.old) watch.old timetable.old course.old) steps (place (L.value lab.new) watch.new timetable.new course.new)
        × IsBroughtBy span.now timetable.old (L.value lab.old) datagram course.old.moment (events_of steps)) }
    ensures stopped { IfErr result (λ why. (s : LabValue × V) (begin : ℕ) → HasPassed V.takes span.now s begin course.old.moment (L.value lab.old, watch.old) → IsCutShort V.takes V.fails span.now s begin why (L.value lab.new, watch.new)) }
    ensures links { timetable.new.links ≡ timetable.old.links }
{
    let running = lab.running();
    let Some(sent) = span.carried(running, datagram) else {
        return Ok(());
    };
    let loss = timetable.carriage_of(running, sent).loss;
    let Ok(receivers) = span.receivers(running, sent) else {
        return Err(Stopped::Refused(RunRefused::OutOfMemory));
    };
    let now = course.moment;
    for &(router, iface) in &receivers {
        if rng.next_u32() % 100 >= u32::from(loss) {
            let delivery = Event::Deliver {
                datagram,
                router,
                iface,
                now,
            };
            happen(lab, timetable, course, span, &delivery, watch)?;
        }
    }
    Ok(())
}
