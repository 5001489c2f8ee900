//! What comes next in a run.

ghost use Rattle.std.specs.Prelude.{◌≡◌, ◌<◌, ◌≤◌, ◌⊎◌, ℕ, IfOk, IfSome, None, OnOk, Some, length, max, slice_get, slice_set};
ghost use Rattle.ripng_clock.specs.Common.{Agenda, AreAlarms, AreLater, Has, HaveSetOut, IsDue, IsNext, NoDatagramSooner, NoTickSooner, alarm_of};

use crate::alarms::Alarms;
use crate::carrying::Span;
use crate::timetable::Timetable;
use ripng_world::Running;
use route_table::{Moment, RouteStore};
use std::alloc::{AllocError, Global};

/// What comes next.
#[derive(Clone, Copy, Debug, PartialEq, Eq)]
pub enum Due {
    /// A datagram comes, whose time, in milliseconds, is this.
    Comes { time: u64, datagram: usize },
    /// A router ticks.
    Ticks { router: usize },
}

/// How far a run has come.
#[derive(Drop)]
pub struct Course {
    /// The moment that it is.
    pub moment: Moment,
    /// When each router that takes part next has something to do.
    pub alarms: Alarms,
    /// The number of the first datagram that has not set out.
    pub next: usize,
}

/// When a router next has something to do, in milliseconds, if it takes part.
fn alarm_of<S: RouteStore>(running: &Running<S>, span: &Span<'_>, router: usize) -> Option<u64>
    ensures { result ≡ alarm_of span.now running.now.world router }
{
    if !span.has(router) {
        return None;
    }
    match running.router(router) {
        Some(router) => Some(router.wakes_at().ms()),
        None => None,
    }
}

/// The times of all routers.
///
/// # Errors
/// Out of memory.
pub fn alarms_of<S: RouteStore>(
    alloc: Global,
    running: &Running<S>,
    span: &Span<'_>,
) -> Result<Alarms, AllocError>
    ensures { IfOk result (AreAlarms span.now running.now) }
{
    let mut alarms = Alarms::new(alloc, running.routers())?;
    for router in 0..running.routers() {
        alarms.set(router, alarm_of(running, span, router))?;
    }
    Ok(alarms)
}

impl Course {
    /// Each datagram that was sent by now and has not set out does so.
    ///
    /// # Errors
    /// Out of memory.
    pub fn set_out<S: RouteStore>(
        &mut self,
        running: &Running<S>,
        timetable: &mut Timetable,
        span: &Span<'_>,
    ) -> Result<(), AllocError>
        ensures set_out { OnOk result (HaveSetOut span.now running.now self.old.moment timetable.old self.old.next self.new.next timetable.new) }
        ensures next { OnOk result (self.new.next ≡ max self.old.next (length running.now.world.sent)) }
        ensures links { timetable.new.links ≡ timetable.old.links }
        ensures moment { self.new.moment ≡ self.old.moment }
        ensures alarms { self.new.alarms ≡ self.old.alarms }
    {
        while self.next < running.sent().len() {
            if let Some(sent) = span.carried(running, self.next) {
                let delay_ms = timetable.carriage_of(running, sent).delay_ms;
                timetable
                    .under_way
                    .add(self.moment.later(delay_ms).ms(), self.next)?;
            }
            self.next += 1;
        }
        Ok(())
    }

    /// What routers have sent sets out, and a router has its next time.
    ///
    /// # Errors
    /// Out of memory.
    pub fn follow<S: RouteStore>(
        &mut self,
        running: &Running<S>,
        timetable: &mut Timetable,
        span: &Span<'_>,
        router: usize,
    ) -> Result<(), AllocError>
        requires { router < length self.old.alarms }
        ensures set_out { OnOk result (HaveSetOut span.now running.now self.old.moment timetable.old self.old.next self.new.next timetable.new) }
        ensures next { OnOk result (self.new.next ≡ max self.old.next (length running.now.world.sent)) }
        ensures links { timetable.new.links ≡ timetable.old.links }
        ensures moment { self.new.moment ≡ self.old.moment }
        ensures alarms { OnOk result (self.new.alarms ≡ slice_set self.old.alarms router (alarm_of span.now running.now.world router)) }
    {
        self.set_out(running, timetable, span)?;
        self.alarms.set(router, alarm_of(running, span, router))
    }

    /// What comes next and when, if that is not after a moment: the earliest, a datagram before a tick. What is overdue comes now.
    pub fn next_due(&self, timetable: &Timetable, until: Moment) -> Option<(Moment, Due)>
        requires { self.now.moment ≤ until }
        ensures next { IfSome result (λ n. IsNext self.now.alarms timetable.now.under_way self.now.moment until n.0 n.1) }
        ensures none { result ≡ None → AreLater self.now.alarms timetable.now.under_way until }
    {
        let (time, due) = earlier(self.first_datagram(timetable), self.first_tick())?;
        let moment = moment_by(time, until)?;
        Some((moment, due))
    }

    /// The datagram that comes first, and when.
    fn first_datagram(&self, timetable: &Timetable) -> Option<(u64, Due)>
        ensures due { IfSome result (λ n. IsDue self.now.alarms timetable.now.under_way self.now.moment n.0 n.1) }
        ensures later { IfSome result (λ n. self.now.moment ≤ n.0) }
        ensures first { IfSome result (λ n. NoDatagramSooner timetable.now.under_way self.now.moment n.0) }
        ensures none { result ≡ None → (time datagram : ℕ) → Has timetable.now.under_way time datagram → ⊥ }
    {
        match timetable.under_way.first() {
            Some((time, datagram)) => Some((
                time.max(self.moment.ms()),
                Due::Comes { time, datagram },
            )),
            None => None,
        }
    }

    /// The router that ticks first, and when.
    fn first_tick(&self) -> Option<(u64, Due)>
        ensures due { (under_way : Agenda) → IfSome result (λ n. IsDue self.now.alarms under_way self.now.moment n.0 n.1) }
        ensures later { IfSome result (λ n. self.now.moment ≤ n.0) }
        ensures first { IfSome result (λ n. NoTickSooner self.now.alarms self.now.moment n.0) }
        ensures none { result ≡ None → (router time : ℕ) → slice_get self.now.alarms router ≡ Some (Some time) → ⊥ }
    {
        match self.alarms.first() {
            Some((time, router)) => Some((time.max(self.moment.ms()), Due::Ticks { router })),
            None => None,
        }
    }
}

/// The moment of that many milliseconds, if it is not after another.
pub fn moment_by(ms: u64, until: Moment) -> Option<Moment>
    ensures some { IfSome result (λ moment. (moment ≡ ms) × (ms ≤ until)) }
    ensures none { result ≡ None → until < ms }
{
    if ms <= until.ms() {
        Moment::new(ms)
    } else {
        None
    }
}

/// The earlier of two, or the only one: the first, if they are at one time.
fn earlier(first: Option<(u64, Due)>, second: Option<(u64, Due)>) -> Option<(u64, Due)>
    ensures one { IfSome result (λ n. (first ≡ Some n) ⊎ (second ≡ Some n)) }
    ensures not_after_first { IfSome result (λ n. IfSome first (λ m. n.0 ≤ m.0)) }
    ensures not_after_second { IfSome result (λ n. IfSome second (λ m. n.0 ≤ m.0)) }
    ensures none { result ≡ None → (first ≡ None) × (second ≡ None) }
{
    match (first, second) {
        (Some(first), Some(second)) if second.0 < first.0 => Some(second),
        (Some(first), _) => Some(first),
        (None, second) => second,
    }
}
