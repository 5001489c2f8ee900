//! How far a phase has come, and its actions: a router ticks, and a datagram comes to its receivers.

ghost use Rattle.std.specs.Prelude.{◌≡◌, ℕ, ◌<◌, ◌≤◌, ◌+◌, ◌^◌, ◌∷◌, [], IsTrue, IfErr, OnOk, Some, length, slice_get};
ghost use Rattle.ripng_phases.specs.Common.{event_of, IsDueTick, IfRefused, WatchedRun, heard, Tick, GoesOn, IsAdded, IsKept, IsLast, Update as UpdateValue};

use crate::refused::PhaseRefused;
use rand_core::Rng;
use ripng_world::{Event, Lab, Observer, Stopped, wants_memory};
use route_table::{Moment, RouteStore};

/// How long a phase takes, by the true clock, in milliseconds.
pub const PHASE_MS: u64 = 60_000;

/// The datagrams of a regular update, from a number up to another.
#[derive(Clone, Copy, Debug, PartialEq, Eq)]
pub struct Update {
    /// The number of its first datagram.
    pub first: usize,
    /// One more than that of its last.
    pub end: usize,
}

/// How far a phase has come.
#[derive(Drop)]
pub struct Course {
    /// The moment that it is by the true clock.
    pub moment: Moment,
    /// When the minute of the phase is over, in milliseconds.
    pub end: u64,
    /// The number of the next datagram to be handed on. All before were delivered, or are lost.
    pub next: usize,
    /// Before this one all have to be handed on before the phase is over.
    pub until: usize,
    /// The last regular update of each router in this phase.
    pub told: Vec<Option<Update>>,
}

impl Course {
    /// Time passes, while the minute is not over.
    pub fn pass(&mut self, by_ms: u32)
        ensures later { self.old.moment ≤ self.new.moment }
        ensures inside { self.old.moment < self.old.end → self.new.moment < self.old.end }
        ensures same { self.new ≡ record self.old { moment = self.new.moment } }
    {
        let later = self.moment.later(by_ms).ms();
        if let Some(moment) = Moment::new(later).filter(|_| later < self.end) {
            self.moment = moment;
        }
    }

    /// Whether a router has sent its regular update in this phase.
    pub fn has_told(&self, router: usize) -> bool
        ensures { IsTrue result → (update : UpdateValue) × (slice_get self.now.told.items router ≡ Some (Some update)) }
    {
        matches!(self.told.get(router), Some(Some(_)))
    }

    /// Whether a datagram is of a regular update, and so must not be lost.
    pub fn keeps(&self, datagram: usize) -> bool
        ensures { IsKept self.now.told.items datagram → IsTrue result }
    {
        let of = |update: Update| update.first <= datagram && datagram < update.end;
        self.told.iter().any(|told| told.is_some_and(of))
    }

    /// A router has sent its regular update. All datagrams up to its end have to be handed on.
    pub fn add(&mut self, router: usize, update: Update)
        ensures told { IsAdded self.old.told.items router update self.new.told.items }
        ensures same { self.new ≡ record self.old { told = self.new.told; until = update.end } }
    {
        self.until = update.end;
        if router < self.told.len() {
            self.told[router] = Some(update);
        }
    }
}

/// An event happens, and the observer is notified of it.
fn happen<S: RouteStore, V: Observer<S>>(
    lab: &mut Lab<S>,
    event: &Event<'_>,
    watch: &mut V,
) -> Result<(), Stopped<PhaseRefused, V::Fault>>
    ensures network { lab.new.network ≡ lab.old.network }
    ensures done { OnOk result (WatchedRun V.takes heard lab.old.network (lab.old.world, watch.old) (event_of event.entry.now ∷ []) (lab.new.world, watch.new)) }
    ensures stopped { IfErr result (λ why. IsLast V.takes V.fails lab.old.network (lab.old.world, watch.old) why (lab.new.world, watch.new)) }
    ensures memory { IfErr result (λ why. IfRefused why (λ refusal. refusal ≡ PhaseRefused.OutOfMemory)) }
{
    let answer = match lab.step_watched(event, watch) {
        Ok(answer) => answer,
        // The router, the datagram and the interface on its link exist: only memory can have run out.
        Err(stopped) => return Err(stopped.refused_as(PhaseRefused::OutOfMemory)),
    };
    if wants_memory(answer.notes.as_slice()) {
        return Err(Stopped::Refused(PhaseRefused::OutOfMemory));
    }
    Ok(())
}

/// A router ticks. While its regular update is due it sends that, else nothing or a triggered update.
pub fn tick<S: RouteStore, V: Observer<S>>(
    lab: &mut Lab<S>,
    course: &mut Course,
    router: usize,
    word: u32,
    watch: &mut V,
) -> Result<(), Stopped<PhaseRefused, V::Fault>>
    ensures network { lab.new.network ≡ lab.old.network }
    ensures goes { GoesOn V.takes V.fails result (lab.old, watch.old) course.old (lab.new, watch.new) course.new }
    ensures told { OnOk result (IsDueTick lab.old.world (Tick router course.old.moment word) → router < length course.old.told.items
        → (u : UpdateValue) × (slice_get course.new.told.items router ≡ Some (Some u))) }
    ensures kept { (other : ℕ) (u : UpdateValue) → slice_get course.old.told.items other ≡ Some (Some u) → (v : UpdateValue) × (slice_get course.new.told.items other ≡ Some (Some v)) }
    ensures routers { length course.new.told.items ≡ length course.old.told.items }
{
    let now = course.moment;
    let due = lab.is_due(router, now);
    let first = lab.sent().len();
    happen(lab, &Event::Tick { router, now, word }, watch)?;
    if !due {
        return Ok(());
    }
    let end = lab.sent().len();
    course.add(router, Update { first, end });
    Ok(())
}

/// The next datagram comes to each other interface of its link. Unless it is of a regular update of this phase, each of them may
/// lose it.
pub fn hand_on<S: RouteStore, V: Observer<S>, R: Rng>(
    lab: &mut Lab<S>,
    course: &mut Course,
    rng: &mut R,
    watch: &mut V,
) -> Result<(), Stopped<PhaseRefused, V::Fault>>
    requires next { course.old.next < length lab.old.world.sent }
    requires fits { course.old.next + 1 < 2 ^ 64 }
    ensures network { lab.new.network ≡ lab.old.network }
    ensures goes { GoesOn V.takes V.fails result (lab.old, watch.old) course.old (lab.new, watch.new) course.new }
    ensures next { OnOk result (course.new.next ≡ course.old.next + 1) }
    ensures same { course.new.until ≡ course.old.until }
    ensures told { course.new.told.items ≡ course.old.told.items }
{
    let datagram = course.next;
    let now = course.moment;
    let keeps = course.keeps(datagram);
    let Ok(receivers) = lab.running().receivers(&lab.sent()[datagram]) else {
        return Err(Stopped::Refused(PhaseRefused::OutOfMemory));
    };
    for &(router, iface) in &receivers {
        // One in four is lost.
        if !keeps && rng.next_u32() % 4 == 0 {
            continue;
        }
        let delivery = Event::Deliver {
            datagram,
            router,
            iface,
            now,
        };
        happen(lab, &delivery, watch)?;
    }
    course.next += 1;
    Ok(())
}
