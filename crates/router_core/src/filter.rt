//! Which routes an interface takes or announces: filters that name prefixes, and a limit. RFC 2080 knows neither.

ghost use Rattle.std.specs.Prelude.{◌≡◌, ◌==◌, true, IsTrue};
ghost use Rattle.router_core.specs.Common.{list_any, Prefix6, is_accept, is_within, names, is_rejected_by, is_accepted_by, accepts_named_alone, lets_through};

use prefix6::Prefix;

/// What a filter does with the routes that it names: one of what comes in with those that are offered, one of what goes out with those that
/// are advertised.
#[derive(Clone, Copy, Debug, PartialEq, Eq)]
pub enum Action {
    /// They are let through. An interface with such a filter lets no others through.
    Accept,
    /// They are not let through, whatever else accepts them.
    Reject,
}

impl Action {
    fn is_accept(self) -> bool
        ensures { result ≡ is_accept self }
    {
        match self {
            Action::Accept => true,
            Action::Reject => false,
        }
    }
}

/// A filter of an interface: it names prefixes, and says whether routes to them are let through there, in or out.
#[derive(Clone, Copy, Debug, PartialEq, Eq)]
pub struct Filter {
    /// The number of the interface. Where there is no such interface the filter does nothing.
    pub iface: usize,
    pub action: Action,
    /// The prefix that it names.
    pub prefix: Prefix,
    /// Whether it names every longer prefix within that one as well.
    pub is_longer: bool,
}

/// The most routes by way of an interface.
#[derive(Clone, Copy, Debug, PartialEq, Eq)]
pub struct Limit {
    /// The number of the interface.
    pub iface: usize,
    /// How many routes the table holds at most by way of it, those that are being garbage-collected among them.
    pub routes: usize,
}

/// Whether a prefix is another, or lies within it.
fn is_within(prefix: Prefix, other: Prefix) -> bool
    ensures { result ≡ is_within prefix other }
{
    prefix.len() <= other.len() && prefix.contains(other.addr())
}

impl Filter {
    /// Whether it names a prefix.
    fn names(&self, prefix: Prefix) -> bool
        ensures { result ≡ names self.now prefix }
    {
        if self.is_longer {
            is_within(self.prefix, prefix)
        } else {
            self.prefix.addr() == prefix.addr() && self.prefix.len() == prefix.len()
        }
    }
}

/// Whether a filter of the interface rejects the prefix.
fn is_rejected_by(filters: &[Filter], iface: usize, prefix: Prefix) -> bool
    ensures { result ≡ is_rejected_by filters.now iface prefix }
{
    filters.iter().any(|f| f.iface == iface && !f.action.is_accept() && f.names(prefix))
}

/// Whether a filter of the interface accepts the prefix.
fn is_accepted_by(filters: &[Filter], iface: usize, prefix: Prefix) -> bool
    ensures { result ≡ is_accepted_by filters.now iface prefix }
{
    filters.iter().any(|f| f.iface == iface && f.action.is_accept() && f.names(prefix))
}

/// Whether the interface accepts what is named alone.
fn accepts_named_alone(filters: &[Filter], iface: usize) -> bool
    ensures { result ≡ accepts_named_alone filters.now iface }
{
    filters
        .iter()
        .any(|f| f.iface == iface && f.action.is_accept())
}

/// Whether the filters of an interface let a prefix through: none rejects it, and one accepts it if there are any that accept.
pub fn lets_through(filters: &[Filter], iface: usize, prefix: Prefix) -> bool
    ensures { result ≡ lets_through filters.now iface prefix }
{
    !is_rejected_by(filters, iface, prefix)
        && (!accepts_named_alone(filters, iface) || is_accepted_by(filters, iface, prefix))
}

/// Whether the interface has a filter.
fn has_filter(filters: &[Filter], iface: usize) -> bool
    ensures { result ≡ list_any (λ f. f.iface == iface) filters.now }
{
    filters.iter().any(|f| f.iface == iface)
}

/// Whether the interface has no filter, and so lets every prefix through.
pub fn lets_all_through(filters: &[Filter], iface: usize) -> bool
    ensures { IsTrue result → (p : Prefix6) → lets_through filters.now iface p ≡ true }
{
    !has_filter(filters, iface)
}
