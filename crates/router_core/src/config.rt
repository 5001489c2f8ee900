//! The configuration of a router: its interfaces, the prefixes that it owns, where it is passive, and what its interfaces take and
//! announce.

ghost use Rattle.std.specs.Prelude.{◌≡◌, ◌<◌, ◌≤◌, true, false, not, All, Bool, IfOk, OnErr, OnOk, Some, length};
ghost use Rattle.router_core.specs.Common.{result_err, IsPrefix, is_routable, same_prefix, first_reason, IsConfig, config, config_fault, reasons_of_each, interface_reasons, prefix_reasons, is_own_address, is_address_of_one, has_address, has_prefix, is_usable_cost, is_usable_mtu, config_refused_text, reconfigured_config, Config, config_with, announcing, mtu_at};

mod lists;

use crate::filter::{Filter, Limit};
use crate::reconfiguring::Change;
use prefix6::{Addr6, Prefix};
use route_table::INFINITY;
use std::alloc::AllocError;
use std::fmt::{self, Display};
use std::marker::Model;

/// An interface of a router.
#[derive(Clone, Copy, Debug, PartialEq, Eq)]
pub struct Interface {
    /// Its link-local address, from which it sends (RFC 2080, section 2.5.2).
    pub addr: Addr6,
    /// Its cost, 1 to 15 hops: it is added to each metric that comes in (RFC 2080, section 2.4.2).
    pub cost: u8,
    /// The MTU of its link, 1,280 to 65,535 bytes: it limits the entries of a datagram (RFC 2080, section 2.1).
    pub mtu: u32,
    /// The zone of its link, any number (RFC 4007, section 6): a link-local address means something in its zone alone. Interfaces to one
    /// link have one zone. Where each address of a router is another, all zones may be 0.
    pub zone: u16,
}

/// The most interfaces of a router.
pub const INTERFACE_LIMIT: usize = 256;

/// The least MTU of an IPv6 link, in bytes (RFC 8200, section 5).
pub const LEAST_MTU: u32 = 1_280;

/// The greatest MTU of an interface, in bytes: the length of a UDP datagram is given in 16 bits (RFC 768).
pub const MOST_MTU: u32 = 65_535;

/// The most prefixes that a router owns. Its table has room for all of them.
pub const OWNED_LIMIT: usize = 1_024;

const _: () = prove!(OWNED_LIMIT <= route_table::TABLE_LIMIT);

/// Why a configuration is refused: the first reason that applies, in this order.
#[derive(Clone, Copy, Debug, PartialEq, Eq)]
pub enum ConfigRefused {
    /// It has no interface: a router needs at least one.
    NoInterface,
    /// It has more than `INTERFACE_LIMIT` interfaces. Divide them among routers.
    TooManyInterfaces,
    /// The address of an interface is not link-local: give the interface's own address of FE80::/10, not a global one.
    AddressNotLinkLocal,
    /// The address of an interface is that of an earlier one of its zone. VLANs of one card often share theirs: give them zones of
    /// their own, or one another address.
    AddressTwice,
    /// The cost of an interface is not 1 to 15 hops: at 16 nothing would be reachable over it.
    BadCost,
    /// The MTU of an interface is not 1,280 to 65,535 bytes, as IPv6 and UDP require.
    BadMtu,
    /// It has more than `OWNED_LIMIT` prefixes. Own an aggregate in place of many.
    TooManyPrefixes,
    /// A prefix is an earlier one. Bits past the length do not make two prefixes differ.
    PrefixTwice,
    /// A prefix is multicast or link-local, which no router may advertise (RFC 2080, section 2.4.2).
    PrefixNotAllowed,
}

/// `NUMBER NAME`, as it is printed.
impl Display for ConfigRefused {
    ghost output = { λ why. Some (config_refused_text why) };

    fn fmt<W: fmt::Write>(&self, f: &mut fmt::Formatter<W>) -> fmt::Result {
        match self {
            ConfigRefused::NoInterface => write!(f, "1 NoInterface"),
            ConfigRefused::TooManyInterfaces => write!(f, "2 TooManyInterfaces"),
            ConfigRefused::AddressNotLinkLocal => write!(f, "3 AddressNotLinkLocal"),
            ConfigRefused::AddressTwice => write!(f, "4 AddressTwice"),
            ConfigRefused::BadCost => write!(f, "5 BadCost"),
            ConfigRefused::BadMtu => write!(f, "6 BadMtu"),
            ConfigRefused::TooManyPrefixes => write!(f, "7 TooManyPrefixes"),
            ConfigRefused::PrefixTwice => write!(f, "8 PrefixTwice"),
            ConfigRefused::PrefixNotAllowed => write!(f, "9 PrefixNotAllowed"),
        }
    }
}

/// A configuration that has passed [`RouterConfig::check`].
#[derive(Drop)]
pub struct RouterConfig {
    interfaces: Vec<Interface>,
    prefixes: Vec<(Prefix, u16)>,
    quiet: bool,
    filters: Vec<Filter>,
    limits: Vec<Limit>,
    passive: Vec<usize>,
    announcements: Vec<Filter>,
}

impl Model for RouterConfig {
    ghost Value = { Config };

    ghost view = { λ c. announcing (config_with c.interfaces.items c.prefixes.items c.quiet c.filters.items c.limits.items)
        c.passive.items c.announcements.items };

    ghost invariant = { λ c. IsConfig (config_with c.interfaces.items c.prefixes.items c.quiet c.filters.items c.limits.items) };
}

/// Whether one of the interfaces of a zone has the address.
fn has_address(interfaces: &[Interface], zone: u16, addr: Addr6) -> bool
    ensures { result ≡ has_address interfaces.now zone addr }
{
    interfaces.iter().any(|i| i.zone == zone && i.addr == addr)
}

/// Whether the prefix is one of those that are owned.
fn has_prefix(owned: &[(Prefix, u16)], prefix: Prefix) -> bool
    ensures value { result ≡ has_prefix owned.now prefix }
    ensures lawful { IsPrefix prefix }
{
    let (addr, len) = (prefix.addr(), prefix.len());
    owned
        .iter()
        .any(|(p, _)| p.addr() == addr && p.len() == len)
}

/// Whether a route over an interface of this cost may be usable: 1 to 15 hops (RFC 2080, section 2.4.2).
pub fn is_usable_cost(cost: u8) -> bool
    ensures { result ≡ is_usable_cost cost }
{
    1 <= cost && cost < INFINITY
}

/// Whether packets of IPv6 fit the MTU, and the length of a UDP datagram its field.
fn is_usable_mtu(mtu: u32) -> bool
    ensures { result ≡ is_usable_mtu mtu }
{
    LEAST_MTU <= mtu && mtu <= MOST_MTU
}

/// The first reason to refuse an interface that follows earlier ones.
fn check_interface(earlier: &[Interface], interface: &Interface) -> Result<(), ConfigRefused>
    ensures { result_err result ≡ first_reason (interface_reasons earlier.now interface.now) }
{
    // Updates and Requests are sent from a link-local address (RFC 2080, section 2.5.2).
    if !interface.addr.is_link_local() {
        Err(ConfigRefused::AddressNotLinkLocal)
    } else if has_address(earlier, interface.zone, interface.addr) {
        // One address on two interfaces of a zone would make a neighbor's datagram look like the router's own (section 2.4.2).
        Err(ConfigRefused::AddressTwice)
    } else if !is_usable_cost(interface.cost) {
        // A cost is a metric, below infinity (section 2.1). With 0 a loop would not count up.
        Err(ConfigRefused::BadCost)
    } else if !is_usable_mtu(interface.mtu) {
        // The MTU limits the entries of a datagram (section 2.1).
        Err(ConfigRefused::BadMtu)
    } else {
        Ok(())
    }
}

/// The first reason to refuse the interfaces, each after those before it.
fn check_interfaces(interfaces: &[Interface]) -> Result<(), ConfigRefused>
    ensures { result_err result ≡ first_reason (reasons_of_each interface_reasons interfaces.now) }
{
    for (place, interface) in interfaces.iter().enumerate() {
        check_interface(&interfaces[..place], interface)?;
    }
    Ok(())
}

/// The first reason to refuse an owned prefix that follows earlier ones.
fn check_prefix(earlier: &[(Prefix, u16)], owned: &(Prefix, u16)) -> Result<(), ConfigRefused>
    ensures fault { result_err result ≡ first_reason (prefix_reasons earlier.now owned.now) }
    ensures prefix { OnOk result (IsPrefix owned.now.0) }
{
    // A table has one route to each prefix (RFC 2080, section 2.2).
    if has_prefix(earlier, owned.0) {
        Err(ConfigRefused::PrefixTwice)
    } else if !owned.0.is_routable() {
        // Neighbors would skip a multicast or link-local prefix (section 2.4.2).
        Err(ConfigRefused::PrefixNotAllowed)
    } else {
        Ok(())
    }
}

/// The first reason to refuse the owned prefixes, each after those before it.
fn check_prefixes(prefixes: &[(Prefix, u16)]) -> Result<(), ConfigRefused>
    ensures fault { result_err result ≡ first_reason (reasons_of_each prefix_reasons prefixes.now) }
    ensures prefixes { OnOk result (All (λ t. IsPrefix t.0) prefixes.now) }
{
    for (place, owned) in prefixes.iter().enumerate() {
        check_prefix(&prefixes[..place], owned)?;
    }
    Ok(())
}

/// The first reason to refuse interfaces and owned prefixes.
fn check_lists(interfaces: &[Interface], prefixes: &[(Prefix, u16)]) -> Result<(), ConfigRefused>
    ensures fault { (quiet : Bool) → result_err result ≡ config_fault (config interfaces.now prefixes.now quiet) }
    ensures prefixes { OnOk result (All (λ t. IsPrefix t.0) prefixes.now) }
{
    // RFC 2080 sets no limits on these numbers. They are this project's choice, so that sizes are known in advance.
    if interfaces.is_empty() {
        return Err(ConfigRefused::NoInterface);
    }
    if interfaces.len() > INTERFACE_LIMIT {
        return Err(ConfigRefused::TooManyInterfaces);
    }
    check_interfaces(interfaces)?;
    if prefixes.len() > OWNED_LIMIT {
        return Err(ConfigRefused::TooManyPrefixes);
    }
    check_prefixes(prefixes)
}

impl RouterConfig {
    /// A configuration of these interfaces and owned prefixes, each with its route tag. A quiet router is passive: it listens,
    /// and replies only to Requests from other ports than 521. Takes no memory.
    ///
    /// # Errors
    /// The first reason that applies. What was given is dropped.
    pub fn check(
        interfaces: Vec<Interface>,
        prefixes: Vec<(Prefix, u16)>,
        is_quiet: bool,
    ) -> Result<RouterConfig, ConfigRefused>
        ensures refused { result_err result ≡ config_fault (config interfaces.items prefixes.items is_quiet) }
        ensures kept { IfOk result (λ c. c ≡ config interfaces.items prefixes.items is_quiet) }
        ensures lawful { IfOk result IsConfig }
    {
        check_lists(&interfaces, &prefixes)?;
        let alloc = *interfaces.allocator();
        Ok(RouterConfig {
            interfaces,
            prefixes,
            quiet: is_quiet,
            filters: Vec::new(alloc),
            limits: Vec::new(alloc),
            passive: Vec::new(alloc),
            announcements: Vec::new(alloc),
        })
    }

    /// The interfaces, numbered from 0.
    pub fn interfaces(&self) -> &[Interface]
        ensures value { result.now ≡ self.now.interfaces }
        ensures lawful { IsConfig self.now }
    {
        &self.interfaces
    }

    /// The owned prefixes with their route tags.
    pub fn prefixes(&self) -> &[(Prefix, u16)]
        ensures value { result.now ≡ self.now.prefixes }
        ensures lawful { IsConfig self.now }
    {
        &self.prefixes
    }

    /// Whether the router is quiet, that is, passive on each interface.
    pub fn is_quiet(&self) -> bool
        ensures { result ≡ self.now.quiet }
    {
        self.quiet
    }

    /// Whether the address is the router's own on the link of an interface: that of an interface in its zone.
    pub fn is_own_address(&self, iface: usize, addr: Addr6) -> bool
        ensures { result ≡ is_own_address self.now iface addr }
    {
        let zone = self.interfaces.get(iface).map_or(0, |i| i.zone);
        has_address(&self.interfaces, zone, addr)
    }

    /// Whether the address is that of an interface, on whatever link.
    pub fn is_address_of_one(&self, addr: Addr6) -> bool
        ensures { result ≡ is_address_of_one self.now addr }
    {
        self.interfaces.iter().any(|i| i.addr == addr)
    }

    /// Whether the prefix is owned, with any tag.
    pub fn owns(&self, prefix: Prefix) -> bool
        ensures value { result ≡ has_prefix self.now.prefixes prefix }
        ensures lawful { IsPrefix prefix }
    {
        has_prefix(&self.prefixes, prefix)
    }

    /// Sets the cost of an interface, in hops.
    pub(crate) fn set_cost(&mut self, iface: usize, cost: u8)
        requires there { iface < length self.old.interfaces }
        requires usable { is_usable_cost cost ≡ true }
        ensures { self.new ≡ reconfigured_config self.old (Change.Cost iface cost) }
    {
        self.interfaces[iface].cost = cost;
    }

    /// Adds an owned prefix.
    ///
    /// # Errors
    /// Only out of memory. The configuration is then unchanged.
    pub(crate) fn own(&mut self, prefix: Prefix, tag: u16) -> Result<(), AllocError>
        requires prefix { IsPrefix prefix }
        requires routable { is_routable prefix ≡ true }
        requires new { has_prefix self.old.prefixes prefix ≡ false }
        requires room { length self.old.prefixes < OWNED_LIMIT }
        ensures done { OnOk result (self.new ≡ reconfigured_config self.old (Change.Own prefix tag)) }
        ensures err { OnErr result (self.new ≡ self.old) }
    {
        self.prefixes.push((prefix, tag))?;
        Ok(())
    }

    /// Removes an owned prefix.
    pub(crate) fn disown(&mut self, prefix: Prefix)
        ensures { self.new ≡ reconfigured_config self.old (Change.Disown prefix) }
    {
        let (addr, len) = (prefix.addr(), prefix.len());
        self.prefixes
            .retain(|(p, _)| !(p.addr() == addr && p.len() == len));
    }
}

/// The MTU of an interface in bytes, 1,280 to 65,535.
pub fn mtu_at(config: &RouterConfig, iface: usize) -> u32
    ensures value { result ≡ mtu_at config.now iface }
    ensures low { 1280 ≤ result }
    ensures high { result ≤ 65535 }
{
    match config.interfaces().get(iface) {
        Some(interface) => interface.mtu,
        None => LEAST_MTU,
    }
}
