//! The lists of a configuration: what its interfaces take and announce, and which of them are passive.

ghost use Rattle.std.specs.Prelude.{◌≡◌, ◌==◌};
ghost use Rattle.router_core.specs.Common.{list_any, IsConfig, announcing, is_passive, is_accepted, is_announced, limit_at};

use super::RouterConfig;
use crate::filter::{Filter, Limit, lets_through};
use prefix6::Prefix;

/// Whether an interface is one of those that are listed by their numbers.
fn is_listed(numbers: &[usize], iface: usize) -> bool
    ensures { result ≡ list_any (λ n. n == iface) numbers.now }
{
    numbers.iter().any(|&n| n == iface)
}

impl RouterConfig {
    /// The same configuration with these filters of what comes in, and limits, in place of those that it had. Takes no memory.
    pub fn filtered(self, filters: Vec<Filter>, limits: Vec<Limit>) -> RouterConfig
        ensures value { result ≡ record self { filters = filters.items; limits = limits.items } }
        ensures lawful { IsConfig result }
    {
        RouterConfig {
            interfaces: self.interfaces,
            prefixes: self.prefixes,
            quiet: self.quiet,
            filters,
            limits,
            passive: self.passive,
            announcements: self.announcements,
        }
    }

    /// The same configuration with these passive interfaces and filters of what goes out, in place of those that it had. A passive
    /// interface is given by its number; where there is none of that number it does nothing. Takes no memory.
    pub fn announcing(self, passive: Vec<usize>, announcements: Vec<Filter>) -> RouterConfig
        ensures value { result ≡ announcing self passive.items announcements.items }
        ensures lawful { IsConfig result }
    {
        RouterConfig {
            interfaces: self.interfaces,
            prefixes: self.prefixes,
            quiet: self.quiet,
            filters: self.filters,
            limits: self.limits,
            passive,
            announcements,
        }
    }

    /// The filters of all interfaces, of what comes in.
    pub fn filters(&self) -> &[Filter]
        ensures { result.now ≡ self.now.filters }
    {
        &self.filters
    }

    /// The limits of all interfaces.
    pub fn limits(&self) -> &[Limit]
        ensures { result.now ≡ self.now.limits }
    {
        &self.limits
    }

    /// The passive interfaces, by their numbers. All are passive where the router is quiet.
    pub fn passive(&self) -> &[usize]
        ensures { result.now ≡ self.now.passive }
    {
        &self.passive
    }

    /// The filters of all interfaces, of what goes out.
    pub fn announcements(&self) -> &[Filter]
        ensures { result.now ≡ self.now.announcements }
    {
        &self.announcements
    }

    /// Whether an interface is passive: the router sends no Request of its own and no update there, and replies only to Requests from
    /// other ports than 521. Each is where the router is quiet.
    pub fn is_passive(&self, iface: usize) -> bool
        ensures value { result ≡ is_passive self.now iface }
        ensures lawful { IsConfig self.now }
    {
        self.quiet || is_listed(&self.passive, iface)
    }

    /// Whether an interface takes routes to the prefix: its filters of what comes in let it through.
    pub fn is_accepted(&self, iface: usize, prefix: Prefix) -> bool
        ensures { result ≡ is_accepted self.now iface prefix }
    {
        lets_through(&self.filters, iface, prefix)
    }

    /// Whether an interface announces routes to the prefix: its filters of what goes out let it through.
    pub fn is_announced(&self, iface: usize, prefix: Prefix) -> bool
        ensures { result ≡ is_announced self.now iface prefix }
    {
        lets_through(&self.announcements, iface, prefix)
    }

    /// The most routes that the table may hold by way of an interface, if it has a limit: the first that is given for it.
    pub fn limit_at(&self, iface: usize) -> Option<usize>
        ensures { result ≡ limit_at self.now iface }
    {
        self.limits
            .iter()
            .find(|l| l.iface == iface)
            .map(|l| l.routes)
    }
}
