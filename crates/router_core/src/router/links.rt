//! Links of a router go down and come up.

ghost use Rattle.std.specs.Prelude.{◌≡◌, ◌≤◌, IfOk, OnErr, [], length};
ghost use Rattle.router_core.specs.Common.{Replays, forwards, Happening, Moves};

use super::Router;
use crate::answer::{Answer, answer_of};
use crate::link_down::{changes_of_link_down, lose_all_on};
use crate::start::request_on;
use route_table::{Moment, RouteStore};
use std::alloc::AllocError;

impl<S: RouteStore> Router<S> {
    /// The link of an interface goes down: each route that was learned there is withdrawn at once, as at its timeout, and the
    /// next tick advertises that (RFC 2080, sections 2.3 and 2.5.1). Nothing is sent.
    ///
    /// # Errors
    /// Only out of memory. The router is then unchanged.
    pub fn link_down(&mut self, now: Moment, iface: usize) -> Result<Answer, AllocError>
        ensures moves { IfOk result (λ answer. Moves self.old (Happening.LinkGoesDown now iface) answer self.new) }
        ensures err { OnErr result (self.new ≡ self.old) }
        ensures config { self.new.config ≡ self.old.config }
        ensures sends { IfOk result (λ answer. answer.sends ≡ []) }
        ensures replays { IfOk result (λ answer. Replays (forwards self.old.table) answer.changes (forwards self.new.table)) }
    {
        let now = self.effective(now);
        let changes = changes_of_link_down(self.alloc, &self.store, iface, now)?;
        lose_all_on(&mut self.store, iface, now);
        self.last = now;
        Ok(answer_of(Vec::new(self.alloc), changes, Vec::new(self.alloc)))
    }

    /// The link of an interface comes up: unless the router is passive, it asks the neighbors there for their tables, as at its start
    /// (RFC 2080, section 2.4.1). No route changes. Nothing is sent where there is no such interface.
    ///
    /// # Errors
    /// Only out of memory. The router is then unchanged.
    pub fn link_up(&mut self, now: Moment, iface: usize) -> Result<Answer, AllocError>
        ensures moves { IfOk result (λ answer. Moves self.old (Happening.LinkComesUp now iface) answer self.new) }
        ensures err { OnErr result (self.new ≡ self.old) }
        ensures config { self.new.config ≡ self.old.config }
        ensures table { self.new.table ≡ self.old.table }
        ensures few { IfOk result (λ answer. length answer.sends ≤ 1) }
        ensures replays { IfOk result (λ answer. Replays (forwards self.old.table) answer.changes (forwards self.new.table)) }
    {
        let now = self.effective(now);
        let sends = request_on(self.alloc, &self.config, iface)?;
        self.last = now;
        Ok(answer_of(sends, Vec::new(self.alloc), Vec::new(self.alloc)))
    }
}
