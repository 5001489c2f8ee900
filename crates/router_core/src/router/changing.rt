//! A step of a router: its configuration changes while it runs.

ghost use Rattle.std.specs.Prelude.{◌≡◌, ℕ, ◌≤◌, max, None, IsOk, IfErr, IfOk, OnErr, OnOk, [], length, unwrap_or};
ghost use Rattle.router_core.specs.Common.{cons_option, Replays, IsPrefix, change, forwards, Happening, Moves, IsNamed, NamesInterface, reconfigure_fault, reconfigured_config, reconfigured_table, changes_of_reconfiguring};

use super::Router;
use crate::answer::{Answer, answer_of};
use crate::forwarding::change;
use crate::hear::put;
use crate::reconfiguring::{Change, ReconfigureRefused, check};
use crate::timers::GARBAGE_TIME_MS;
use fib::RouteChange;
use prefix6::Prefix;
use route_table::{Moment, Route, RouteStore};
use std::alloc::AllocError;

impl<S: RouteStore> Router<S> {
    /// The change of one forwarding entry, as a list of one or none.
    fn changes_at(
        &self,
        prefix: Prefix,
        old: Option<Route>,
        new: Option<Route>,
    ) -> Result<Vec<RouteChange>, AllocError>
        ensures { IfOk result (λ v. v.items ≡ cons_option (change prefix old new) []) }
    {
        let mut changes = Vec::with_capacity(self.alloc, 1)?;
        if let Some(change) = change(prefix, old, new) {
            changes.push_reserved(change);
        }
        Ok(changes)
    }

    /// The prefix is owned from now on: the changes of forwarding entries.
    fn own(&mut self, prefix: Prefix, tag: u16) -> Result<Vec<RouteChange>, AllocError>
        requires prefix { IsPrefix prefix }
        requires allowed { reconfigure_fault self.old.config self.old.table (Change.Own prefix tag) ≡ None }
        ensures done { OnOk result (self.new ≡ record self.old {
          config = reconfigured_config self.old.config (Change.Own prefix tag);
          table = reconfigured_table self.old.last self.old.table (Change.Own prefix tag);
        }) }
        ensures changes { IfOk result (λ v. v.items ≡ changes_of_reconfiguring self.old.last self.old.table (Change.Own prefix tag)) }
        ensures err { OnErr result (self.new ≡ self.old) }
    {
        let old = self.store.get(&prefix);
        let route = Route::own(tag).with_mark(true);
        let changes = self.changes_at(prefix, old, Some(route))?;
        self.config.own(prefix, tag)?;
        match put(&mut self.store, prefix, old.is_some(), route) {
            Ok(()) => Ok(changes),
            // The table was tested for room, so this can only be out of memory.
            Err(_) => {
                self.config.disown(prefix);
                Err(AllocError)
            }
        }
    }

    /// The prefix is no longer owned: the changes of forwarding entries. Its route is withdrawn as at a timeout, so that the
    /// neighbors learn of it (RFC 2080, section 2.3).
    fn disown(&mut self, prefix: Prefix, now: Moment) -> Result<Vec<RouteChange>, AllocError>
        ensures done { OnOk result (self.new ≡ record self.old {
          config = reconfigured_config self.old.config (Change.Disown prefix);
          table = reconfigured_table now self.old.table (Change.Disown prefix);
        }) }
        ensures changes { IfOk result (λ v. v.items ≡ changes_of_reconfiguring now self.old.table (Change.Disown prefix)) }
        ensures err { OnErr result (self.new ≡ self.old) }
    {
        let Some(route) = self.store.get(&prefix) else {
            self.config.disown(prefix);
            return Ok(Vec::new(self.alloc));
        };
        let lost = route.lost(now.later(GARBAGE_TIME_MS));
        let changes = self.changes_at(prefix, Some(route), Some(lost))?;
        self.store.replace(&prefix, lost);
        self.config.disown(prefix);
        Ok(changes)
    }

    /// Makes a change that is not refused: the changes of forwarding entries.
    fn obey(&mut self, change: Change, now: Moment) -> Result<Vec<RouteChange>, AllocError>
        requires named { IsNamed self.old.config change }
        requires allowed { reconfigure_fault self.old.config self.old.table change ≡ None }
        ensures done { OnOk result (self.new ≡ record self.old {
          config = reconfigured_config self.old.config change;
          table = reconfigured_table now self.old.table change;
        }) }
        ensures changes { IfOk result (λ v. v.items ≡ changes_of_reconfiguring now self.old.table change) }
        ensures err { OnErr result (self.new ≡ self.old) }
        ensures cost_is_free { (iface cost : ℕ) → change ≡ Change.Cost iface cost → IsOk result }
    {
        match change {
            Change::Cost { iface, cost } => {
                self.config.set_cost(iface, cost);
                Ok(Vec::new(self.alloc))
            }
            Change::Own { prefix, tag } => self.own(prefix, tag),
            Change::Disown { prefix } => self.disown(prefix, now),
        }
    }

    /// The configuration is changed while the router runs. Nothing is sent: the changed route gets its route change flag, and the
    /// next tick advertises it.
    ///
    /// # Errors
    /// The first reason to refuse the change, or out of memory. The router is then unchanged. A cost takes no memory.
    pub fn reconfigure(&mut self, now: Moment, change: Change) -> Result<Answer, ReconfigureRefused>
        requires { NamesInterface self.old.config change }
        ensures moves { IfOk result (λ answer. Moves self.old (Happening.Reconfigures now change) answer self.new) }
        ensures refused { IfErr result (λ why. why ≡ unwrap_or (reconfigure_fault self.old.config self.old.table change) ReconfigureRefused.OutOfMemory) }
        ensures err { OnErr result (self.new ≡ self.old) }
        ensures sends { IfOk result (λ answer. answer.sends ≡ []) }
        ensures interfaces { length self.new.config.interfaces ≡ length self.old.config.interfaces }
        ensures replays { IfOk result (λ answer. Replays (forwards self.old.table) answer.changes (forwards self.new.table)) }
        ensures cost_is_free { (iface cost : ℕ) → change ≡ Change.Cost iface cost
            → reconfigure_fault self.old.config self.old.table change ≡ None → IsOk result }
    {
        let now = self.effective(now);
        check(&self.config, &self.store, &change)?;
        let changes = self.obey(change, now)?;
        self.last = now;
        Ok(answer_of(Vec::new(self.alloc), changes, Vec::new(self.alloc)))
    }
}
