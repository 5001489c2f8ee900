//! Networks: routers with interfaces on links, and which of them are lawful.

ghost use Rattle.std.specs.Prelude.{◌≡◌, ◌≢◌, All, map, None, Some, IfErr, IfOk, OnOk};
ghost use Rattle.ripng_world.specs.Common.{list_any, result_err, first_reason, IsConfig, reasons_of_each, IsNetwork, HasNoLists, HaveNoLists, AreZoned, config_of, address_reasons, addresses, faults_of_router, names_zone, net_refused_name, network_fault, router_reasons, Network};
ghost use Rattle.ripng_world.specs.declared.network.NetRefused.TheVariants.{OutOfMemory};

use prefix6::{Addr6, Prefix};
use router_core::{ConfigRefused, Interface, RouterConfig};
use std::alloc::{AllocError, Global};
use std::marker::Model;

/// The most routers of a network.
pub const ROUTER_LIMIT: usize = 4_096;

/// An interface of a router in a network.
#[derive(Clone, Copy, Debug, PartialEq, Eq)]
pub struct NetInterface {
    pub interface: Interface,
    /// The number of its link: interfaces of one link receive from each other.
    pub link: u32,
}

/// The configuration of one router of a network. In a laboratory it has no filters, no limits and no passive interfaces of its own.
#[derive(Drop)]
pub struct Node {
    /// Its interfaces, numbered from 0.
    pub interfaces: Vec<NetInterface>,
    /// The prefixes that it owns, each with its route tag.
    pub prefixes: Vec<(Prefix, u16)>,
    /// Whether it is passive: it learns, and answers only management queries.
    pub quiet: bool,
}

impl Model for Node {
    ghost use Rattle.std.specs.Prelude.{[]};
    ghost use Rattle.ripng_world.specs.Network as network;

    ghost Value = { network.Node };

    ghost view = { λ n. record {
      interfaces = n.interfaces.items;
      prefixes = n.prefixes.items;
      quiet = n.quiet;
      filters = [];
      limits = [];
      passive = [];
      announcements = [];
    } };
}

/// Why a network is refused: the first reason to refuse it, or out of memory. Each router is tested before the addresses that
/// routers share.
#[derive(Clone, Copy, Debug, PartialEq, Eq)]
pub enum NetRefused {
    /// It has more than `ROUTER_LIMIT` routers.
    TooManyRouters,
    /// An interface is in a zone other than 0: in a laboratory all links are of one zone.
    ZoneNamed,
    /// Two interfaces of the network have one address.
    AddressSharedInNetwork,
    /// The configuration of a router is refused: the first such router, numbered from 0, and why.
    BadRouter {
        router: usize,
        refusal: ConfigRefused,
    },
    /// Memory was refused.
    OutOfMemory,
}

impl NetRefused {
    /// The name of the refusal, one word, and its number, 1 to 5.
    pub fn name_and_number(self) -> (&'static str, u8)
        ensures { (result.0.now, result.1) ≡ net_refused_name self }
    {
        match self {
            NetRefused::TooManyRouters => ("TooManyRouters", 1),
            NetRefused::AddressSharedInNetwork => ("AddressSharedInNetwork", 2),
            NetRefused::BadRouter { .. } => ("BadRouter", 3),
            NetRefused::OutOfMemory => ("OutOfMemory", 4),
            NetRefused::ZoneNamed => ("ZoneNamed", 5),
        }
    }
}

impl From<AllocError> for NetRefused {
    ghost from_gives = { λ _ refusal. refusal ≡ OutOfMemory };

    fn from(_error: AllocError) -> NetRefused {
        NetRefused::OutOfMemory
    }
}

/// A router of a lawful network: its configuration, and its interfaces with their links.
#[derive(Drop)]
pub struct NetRouter {
    pub(crate) interfaces: Vec<NetInterface>,
    pub(crate) config: RouterConfig,
}

impl Model for NetRouter {
    ghost use Rattle.std.specs.Prelude.{◌≡◌, [], map};
    ghost use Rattle.ripng_world.specs.Network as network;

    ghost Value = { network.Node };

    ghost view = { λ r. record {
      interfaces = r.interfaces.items;
      prefixes = r.config.prefixes;
      quiet = r.config.quiet;
      filters = [];
      limits = [];
      passive = [];
      announcements = [];
    } };

    ghost invariant = { λ r. (map (λ i. i.interface) r.interfaces.items ≡ r.config.interfaces) × (r.config.filters ≡ []) × (r.config.limits ≡ []) × (r.config.passive ≡ []) × (r.config.announcements ≡ []) };
}

/// A lawful network.
#[derive(Drop)]
pub struct NetConfig {
    pub(crate) routers: Vec<NetRouter>,
}

impl Model for NetConfig {
    ghost Value = { Network };

    ghost view = { λ n. n.routers.items };

    ghost invariant = { λ n. IsNetwork n.routers.items × AreZoned n.routers.items };
}

/// Whether an interface of the router is in a zone other than 0.
fn names_zone(node: &Node) -> bool
    ensures { result ≡ names_zone node.now }
{
    node.interfaces.iter().any(|i| i.interface.zone != 0)
}

/// Whether one of the routers has such an interface.
fn name_zones(nodes: &[Node]) -> bool
    ensures { result ≡ list_any names_zone nodes.now }
{
    nodes.iter().any(|node| names_zone(node))
}

/// A router of its configuration, if that is lawful.
fn check_router(alloc: Global, router: usize, node: Node) -> Result<NetRouter, NetRefused>
    ensures kept { IfOk result (λ r. r ≡ node) }
    ensures passes { OnOk result (first_reason (faults_of_router router node) ≡ None) }
    ensures lawful { OnOk result (IsConfig (config_of node) × HasNoLists node) }
    ensures refused { IfErr result (λ why. why ≢ NetRefused.OutOfMemory → first_reason (faults_of_router router node) ≡ Some why) }
{
    let Node {
        interfaces,
        prefixes,
        quiet,
    } = node;
    let without_links = interfaces.iter().map(|i| i.interface).collect(alloc)?;
    match RouterConfig::check(without_links, prefixes, quiet) {
        Ok(config) => Ok(NetRouter { interfaces, config }),
        Err(refusal) => Err(NetRefused::BadRouter { router, refusal }),
    }
}

/// The addresses of all interfaces, router by router.
fn addresses(alloc: Global, routers: &[NetRouter]) -> Result<Vec<Addr6>, AllocError>
    ensures { IfOk result (λ v. v.items ≡ addresses routers.now) }
{
    let mut all = Vec::new(alloc);
    for router in routers {
        all.extend(router.interfaces.iter().map(|i| i.interface.addr))?;
    }
    Ok(all)
}

/// Whether some address is an earlier one. Sorts them, so that equal ones are neighbors.
fn check_addresses(addresses: &mut [Addr6]) -> Result<(), NetRefused>
    ensures { result_err result ≡ first_reason (reasons_of_each address_reasons addresses.old) }
{
    addresses.sort_unstable();
    if addresses.is_sorted_by(|one, next| one < next) {
        Ok(())
    } else {
        Err(NetRefused::AddressSharedInNetwork)
    }
}

/// Each router, if all are lawful.
fn check_routers(alloc: Global, nodes: Vec<Node>) -> Result<Vec<NetRouter>, NetRefused>
    ensures kept { IfOk result (λ v. v.items ≡ nodes.items) }
    ensures passes { OnOk result (first_reason (reasons_of_each router_reasons nodes.items) ≡ None) }
    ensures lawful { OnOk result (All (λ node. IsConfig (config_of node) × HasNoLists node) nodes.items) }
    ensures refused { IfErr result (λ why. why ≢ NetRefused.OutOfMemory → first_reason (reasons_of_each router_reasons nodes.items) ≡ Some why) }
{
    let mut routers = Vec::with_capacity(alloc, nodes.len())?;
    for node in nodes {
        let number = routers.len();
        routers.push_reserved(check_router(alloc, number, node)?);
    }
    Ok(routers)
}

impl NetConfig {
    /// A network of these routers, numbered from 0.
    ///
    /// # Errors
    /// The first reason that applies, or out of memory; what was given is dropped.
    pub fn check(alloc: Global, routers: Vec<Node>) -> Result<NetConfig, NetRefused>
        ensures kept { IfOk result (λ network. network ≡ routers.items) }
        ensures passes { OnOk result (network_fault routers.items ≡ None) }
        ensures lawful { IfOk result IsNetwork }
        ensures zoned { IfOk result AreZoned }
        ensures unlisted { IfOk result HaveNoLists }
        ensures refused { IfErr result (λ why. why ≢ NetRefused.OutOfMemory → network_fault routers.items ≡ Some why) }
    {
        if routers.len() > ROUTER_LIMIT {
            return Err(NetRefused::TooManyRouters);
        }
        if name_zones(&routers) {
            return Err(NetRefused::ZoneNamed);
        }
        let routers = check_routers(alloc, routers)?;
        let mut addresses = addresses(alloc, &routers)?;
        check_addresses(&mut addresses)?;
        Ok(NetConfig { routers })
    }
}
