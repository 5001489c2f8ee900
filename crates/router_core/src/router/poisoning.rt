//! A router shuts down: its last update advertises every route as unreachable.

ghost use Rattle.std.specs.Prelude.{◌≡◌, ◌≤◌, ◌*◌, IfOk, OnErr, length};
ghost use Rattle.router_core.specs.Common.{Replays, forwards, shutdown_messages, Happening, Moves, AreSpelled};
ghost use Rattle.std.specs.FinMap as map_of;

use super::Router;
use crate::answer::{Answer, Outgoing, answer_of};
use crate::tell::{Selection, updates};
use route_table::{Moment, RouteStore};
use std::alloc::AllocError;

impl<S: RouteStore> Router<S> {
    /// The datagrams of the last update.
    fn last_update(&self, now: Moment) -> Result<Vec<Outgoing>, AllocError>
        ensures spelled { IfOk result (λ sends. AreSpelled (shutdown_messages self.now.config now self.now.table) sends.items) }
        ensures few { IfOk result (λ sends. length sends.items ≤ map_of.len self.now.table * length self.now.config.interfaces) }
    {
        updates(
            self.alloc,
            &self.config,
            &self.store,
            Selection::Unreachable,
            now,
        )
    }

    /// The router shuts down: unless it is passive, an update on each interface advertises every route with metric 16. So
    /// neighbors look for other ways at once, and not at their timeout. Its configuration, routes and timers stay.
    ///
    /// # Errors
    /// Only out of memory. The router is then unchanged.
    pub fn shutdown(&mut self, now: Moment) -> Result<Answer, AllocError>
        ensures moves { IfOk result (λ answer. Moves self.old (Happening.ShutsDown now) answer self.new) }
        ensures err { OnErr result (self.new ≡ self.old) }
        ensures config { self.new.config ≡ self.old.config }
        ensures table { self.new.table ≡ self.old.table }
        ensures few { IfOk result (λ answer. length answer.sends ≤ map_of.len self.old.table * length self.old.config.interfaces) }
        ensures replays { IfOk result (λ answer. Replays (forwards self.old.table) answer.changes (forwards self.new.table)) }
    {
        let now = self.effective(now);
        let sends = self.last_update(now)?;
        self.last = now;
        Ok(answer_of(sends, Vec::new(self.alloc), Vec::new(self.alloc)))
    }
}
