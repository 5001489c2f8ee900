//! Phases are made: at random, within the rules of a phase.
//!
//! A phase takes a minute by a true clock. First routers tick at random, some of them before their regular update is due, and
//! datagrams are handed on at random, in the order in which they were sent. Those of no regular update of this phase may be lost.
//! Then each router that has not sent its regular update sends it, and all datagrams up to the last of these are handed on. What
//! is left comes in the next phase.

ghost use Rattle.std.specs.Prelude.{◌≡◌, ◌↔◌, ℕ, ◌+◌, ◌^◌, ◌<◌, ◌≤◌, ◌⊎◌, max, IfErr, IfOk, IfSome, IsTrue, OnOk, None, Some, length, slice_get};
ghost use Rattle.ripng_phases.specs.Common.{State, shown_in, AreMadeInPart, AreMadePhases, GoesOn, HealsIn, IsCutShort, IsLatest, IsMadePhase, LetsArriveIn, Update as UpdateValue};

use crate::acting::{Course, PHASE_MS, hand_on, tick};
use crate::refused::PhaseRefused;
use crate::shown::shown_routes;
use rand_core::Rng;
use ripng_world::{Lab, Observer, Stopped};
use route_table::{Moment, RouteStore};
use std::alloc::Global;

/// How many random ticks there are in a phase, for each router.
const TURNS: usize = 3;

/// How long these take at most, if each waits for as long as it may, in milliseconds. It may be longer than the minute.
const TURNS_MS: usize = 90_000;

/// What was sent is handed on, up to the datagram with a number.
fn hand_until<S: RouteStore, V: Observer<S>, R: Rng>(
    lab: &mut Lab<S>,
    course: &mut Course,
    end: usize,
    rng: &mut R,
    watch: &mut V,
) -> Result<(), Stopped<PhaseRefused, V::Fault>>
    ensures network { lab.new.network ≡ lab.old.network }
    ensures goes { GoesOn V.takes V.fails result (lab.old, watch.old) course.old (lab.new, watch.new) course.new }
    ensures told { course.new.told.items ≡ course.old.told.items }
    ensures until { course.new.until ≡ course.old.until }
    ensures over { OnOk result ((end ≤ course.new.next) ⊎ (length lab.new.world.sent ≤ course.new.next)) }
{
    while course.next < end && course.next < lab.sent().len() {
        hand_on(lab, course, rng, watch)?;
    }
    Ok(())
}

/// Time passes, some router ticks, and some datagrams are handed on, again and again at random.
fn make_turns<S: RouteStore, V: Observer<S>, R: Rng>(
    lab: &mut Lab<S>,
    course: &mut Course,
    rng: &mut R,
    watch: &mut V,
) -> Result<(), Stopped<PhaseRefused, V::Fault>>
    ensures network { lab.new.network ≡ lab.old.network }
    ensures goes { GoesOn V.takes V.fails result (lab.old, watch.old) course.old (lab.new, watch.new) course.new }
    ensures routers { length course.new.told.items ≡ length course.old.told.items }
{
    let turns = lab.routers().saturating_mul(TURNS);
    let most_ms = (TURNS_MS / turns.max(1)).max(1) as u32;
    for _ in 0..turns {
        course.pass(rng.next_u32() % most_ms);
        let router = rng.next_u32() as usize % lab.routers().max(1);
        tick(lab, course, router, rng.next_u32(), watch)?;
        let end = course.next.saturating_add(rng.next_u32() as usize % 8);
        hand_until(lab, course, end, rng, watch)?;
    }
    Ok(())
}

/// When the regular update of a router is due, if that is before the minute is over.
fn due_moment<S: RouteStore>(lab: &Lab<S>, course: &Course, router: usize) -> Option<Moment>
    ensures due { IfSome result (λ due. (state : State) × (slice_get lab.now.world.states router ≡ Some state) × (state.regular ≤ max state.last due)) }
    ensures inside { IfSome result (λ due. course.now.moment < course.now.end → (course.now.moment ≤ due) × (due < course.now.end)) }
    ensures late { result ≡ None → course.now.moment < course.now.end → (state : State) → slice_get lab.now.world.states router ≡ Some state
        → (course.now.end ≤ state.regular) ⊎ (2 ^ 60 < state.regular) }
{
    let due = lab.router(router)?.regular().ms().max(course.moment.ms());
    Moment::new(due).filter(|_| due < course.end)
}

/// Each router that has not sent its regular update sends it, as soon as it is due.
fn tell_rest<S: RouteStore, V: Observer<S>, R: Rng>(
    lab: &mut Lab<S>,
    course: &mut Course,
    rng: &mut R,
    watch: &mut V,
) -> Result<(), Stopped<PhaseRefused, V::Fault>>
    requires { length course.old.told.items ≡ length lab.old.network }
    ensures network { lab.new.network ≡ lab.old.network }
    ensures goes { GoesOn V.takes V.fails result (lab.old, watch.old) course.old (lab.new, watch.new) course.new }
    ensures told { OnOk result ((router : ℕ) → router < length lab.old.network → (u : UpdateValue) × (slice_get course.new.told.items router ≡ Some (Some u))) }
{
    for router in 0..lab.routers() {
        if !course.has_told(router) {
            let word = rng.next_u32();
            course.moment = due_moment(lab, course, router).ok_or(PhaseRefused::NoUpdateInTime {
                router,
            })?;
            tick(lab, course, router, word, watch)?;
        }
    }
    Ok(())
}

/// One phase, from a moment and a datagram on. Returns the datagram with which the next begins, and whether all tables are as they
/// were before.
fn make_phase<S: RouteStore, V: Observer<S>, R: Rng>(
    alloc: Global,
    lab: &mut Lab<S>,
    begin: u64,
    first: usize,
    rng: &mut R,
    watch: &mut V,
) -> Result<(usize, bool), Stopped<PhaseRefused, V::Fault>>
    requires { first ≤ length lab.old.world.sent }
    ensures made { IfOk result (λ r. IsMadePhase V.takes (lab.old, watch.old) first begin r.0 (lab.new, watch.new)) }
    ensures stopped { IfErr result (λ why. IsCutShort V.takes V.fails (lab.old, watch.old) first begin why (lab.new, watch.new)) }
    ensures in_time { OnOk result (begin ≤ 2 ^ 60) }
    ensures compared { IfOk result (λ r. IsTrue r.1 ↔ (shown_in lab.old.network lab.new.world ≡ shown_in lab.old.network lab.old.world)) }
{
    let Ok(before) = shown_routes(alloc, lab) else {
        return Err(Stopped::Refused(PhaseRefused::OutOfMemory));
    };
    let moment = Moment::new(begin).ok_or(PhaseRefused::PastLastMoment)?;
    let Ok(told) = vec![in alloc; None; lab.routers()] else {
        return Err(Stopped::Refused(PhaseRefused::OutOfMemory));
    };
    let mut course = Course {
        moment,
        end: begin + PHASE_MS,
        next: first,
        until: lab.sent().len(),
        told,
    };
    make_turns(lab, &mut course, rng, watch)?;
    tell_rest(lab, &mut course, rng, watch)?;
    let end = course.until;
    hand_until(lab, &mut course, end, rng, watch)?;
    let Ok(after) = shown_routes(alloc, lab) else {
        return Err(Stopped::Refused(PhaseRefused::OutOfMemory));
    };
    Ok((course.next, after.as_slice() == before.as_slice()))
}

/// The last moment of all routers.
fn latest<S: RouteStore>(lab: &Lab<S>) -> u64
    ensures { IsLatest lab.now.world.states (length lab.now.network) result }
{
    let mut latest = 0;
    for router in 0..lab.routers() {
        if let Some(router) = lab.router(router) {
            latest = router.last().ms().max(latest);
        }
    }
    latest
}

/// Phases are made one after another, at random, until one is refused, and an observer is notified of each event. Returns how many were
/// made. If all were, returns also the last of them, numbered from 0, in which some table changed (clocks and route change flags
/// aside), or none. 28 phases leave each table with the least costs of now, and nothing else below 16, whatever happened before.
/// Packets then arrive, from every router that has a route to their address.
///
/// The first begins at the last moment of all routers, and brings no datagram that was sent before it.
///
/// # Errors
/// A router whose regular update is not due in time, or a phase past the last moment; out of memory, also where a router skipped
/// an entry for that reason; or the observer's, and then it failed at the last event that was done. All earlier events are done.
pub fn run_phases<S: RouteStore, V: Observer<S>, R: Rng>(
    alloc: Global,
    lab: &mut Lab<S>,
    phases: usize,
    rng: &mut R,
    watch: &mut V,
) -> (
    usize,
    Result<Option<usize>, Stopped<PhaseRefused, V::Fault>>,
)
    ensures network { lab.new.network ≡ lab.old.network }
    ensures all { OnOk result.1 (result.0 ≡ phases) }
    ensures made { IfOk result.1 (λ last. AreMadePhases V.takes lab.old.network (lab.old.world, watch.old) result.0 last (lab.new.world, watch.new)) }
    ensures heals { OnOk result.1 (HealsIn lab.old.network lab.old.world result.0 lab.new.world) }
    ensures arrives { OnOk result.1 (LetsArriveIn lab.old.network lab.old.world result.0 lab.new.world) }
    ensures stopped { IfErr result.1 (λ why. AreMadeInPart V.takes V.fails lab.old.network (lab.old.world, watch.old) result.0 why (lab.new.world, watch.new)) }
{
    lab.has_run();
    let mut begin = latest(lab);
    let mut first = lab.sent().len();
    let mut last = None;
    for done in 0..phases {
        match make_phase(alloc, lab, begin, first, rng, watch) {
            Ok((next, stays)) => {
                first = next;
                last = if stays { last } else { Some(done) };
            }
            Err(stopped) => return (done, Err(stopped)),
        }
        begin += PHASE_MS;
    }
    (phases, Ok(last))
}
