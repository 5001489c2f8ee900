//! When each router next has something to do, and whose turn is first.

ghost use Rattle.std.specs.Prelude.{◌≡◌, ℕ, ◌<◌, IfOk, IfSome, List, None, OnErr, OnOk, Option, Some, length, slice_get, slice_set};
ghost use Rattle.ripng_clock.specs.Agenda.{AreTimes, IsUpTo};

use crate::agenda::Agenda;
use std::alloc::{AllocError, Global};
use std::marker::Model;

/// The time of each router, in milliseconds, or none; and which of them comes first.
#[derive(Drop)]
pub struct Alarms {
    times: Vec<Option<u64>>,
    order: Agenda,
}

impl Model for Alarms {
    ghost Value = { List (Option ℕ) };

    ghost view = { λ a. a.times.items };

    ghost invariant = { λ a. AreTimes a.times.items a.order };
}

impl Alarms {
    /// No router of a number of them has a time.
    pub fn new(alloc: Global, routers: usize) -> Result<Alarms, AllocError>
        ensures routers { IfOk result (λ a. length a ≡ routers) }
        ensures none { IfOk result (λ a. (router time : ℕ) → slice_get a router ≡ Some (Some time) → ⊥) }
    {
        Ok(Alarms {
            times: vec![in alloc; None; routers]?,
            order: Agenda::new(alloc),
        })
    }

    /// A router has no time from now on.
    fn clear(&mut self, router: usize)
        requires { router < length self.old }
        ensures { self.new ≡ slice_set self.old router None }
    {
        if let Some(old) = self.times[router] {
            self.order.remove(old, router);
        }
        self.times[router] = None;
    }

    /// A router that has none has a time from now on.
    fn put(&mut self, router: usize, time: u64) -> Result<(), AllocError>
        requires there { router < length self.old }
        requires free { slice_get self.old router ≡ Some None }
        ensures put { OnOk result (self.new ≡ slice_set self.old router (Some time)) }
        ensures err { OnErr result (self.new ≡ self.old) }
    {
        self.order.add(time, router)?;
        self.times[router] = Some(time);
        Ok(())
    }

    /// A router has that time from now on, or none.
    ///
    /// # Errors
    /// Out of memory, and the router then has none.
    pub fn set(&mut self, router: usize, time: Option<u64>) -> Result<(), AllocError>
        requires { router < length self.old }
        ensures { OnOk result (self.new ≡ slice_set self.old router time) }
    {
        self.clear(router);
        match time {
            Some(time) => self.put(router, time),
            None => Ok(()),
        }
    }

    /// The first time, and its router: of those with the same time, the one with the least number.
    pub fn first(&self) -> Option<(u64, usize)>
        ensures there { IfSome result (λ f. slice_get self.now f.1 ≡ Some (Some f.0)) }
        ensures least { IfSome result (λ f. (router time : ℕ) → slice_get self.now router ≡ Some (Some time) → IsUpTo f.0 f.1 time router) }
        ensures none { result ≡ None → (router time : ℕ) → slice_get self.now router ≡ Some (Some time) → ⊥ }
    {
        self.order.first()
    }
}
