//! Changes of the configuration of a running router, and why one is refused.

ghost use Rattle.std.specs.Prelude.{◌≡◌, OnOk, Some};
ghost use Rattle.router_core.specs.Common.{result_err, IsPrefix, IsNamed, NamesInterface, reconfigure_fault, reconfigure_name, reconfigure_number, reconfigure_text, OutOfMemory};

use crate::config::{OWNED_LIMIT, RouterConfig, is_usable_cost};
use prefix6::Prefix;
use route_table::{RouteStore, TABLE_LIMIT};
use std::alloc::AllocError;
use std::fmt::{self, Display};

/// A change of the configuration of a running router.
#[derive(Clone, Copy, Debug, PartialEq, Eq)]
pub enum Change {
    /// Another cost of an interface. Routes keep their metrics; later offers are counted with the new cost.
    Cost {
        /// The number of the interface.
        iface: usize,
        /// 1 to 15 hops.
        cost: u8,
    },
    /// The router owns a prefix from now on: a local route replaces the learned one.
    Own {
        prefix: Prefix,
        /// The route tag that it is advertised with (RFC 2080, section 2.1).
        tag: u16,
    },
    /// The router no longer owns a prefix: its route is withdrawn, and deleted after garbage collection.
    Disown {
        prefix: Prefix,
    },
}

/// Why a change is refused: the first reason that applies, in the order below. Nothing is changed then.
#[derive(Clone, Copy, Debug, PartialEq, Eq)]
pub enum ReconfigureRefused {
    /// The cost is not 1 to 15 hops: at 16 nothing would be reachable.
    BadCost = 31,
    /// The prefix is multicast or link-local, which no router may advertise (RFC 2080, section 2.4.2).
    PrefixNotAllowed = 32,
    /// The prefix is owned already, with any tag. To change its tag, disown it first.
    AlreadyOwned = 33,
    /// The router owns `OWNED_LIMIT` prefixes. Disown one, or own an aggregate.
    OwnedFull = 34,
    /// The table is full and has no route to the prefix. This is tested after the other reasons to refuse a prefix to own.
    TableFull = 36,
    /// The prefix is not owned. Look at its length too.
    NotOwned = 35,
    /// Out of memory: try again later.
    OutOfMemory = 37,
}

impl ReconfigureRefused {
    /// The number of the refusal, 31 to 37.
    pub fn number(self) -> u8
        ensures { result ≡ reconfigure_number self }
    {
        self as u8
    }

    /// The name of the refusal, one word.
    pub fn name(self) -> &'static str
        ensures { result.now ≡ reconfigure_name self }
    {
        match self {
            ReconfigureRefused::BadCost => "BadCost",
            ReconfigureRefused::PrefixNotAllowed => "PrefixNotAllowed",
            ReconfigureRefused::AlreadyOwned => "AlreadyOwned",
            ReconfigureRefused::OwnedFull => "OwnedFull",
            ReconfigureRefused::TableFull => "TableFull",
            ReconfigureRefused::NotOwned => "NotOwned",
            ReconfigureRefused::OutOfMemory => "OutOfMemory",
        }
    }
}

/// `NUMBER NAME`, as it is printed.
impl Display for ReconfigureRefused {
    ghost output = { λ why. Some (reconfigure_text why) };

    fn fmt<W: fmt::Write>(&self, f: &mut fmt::Formatter<W>) -> fmt::Result {
        write!(f, "{} {}", self.number(), self.name())
    }
}

impl From<AllocError> for ReconfigureRefused {
    ghost from_gives = { λ _ refusal. refusal ≡ OutOfMemory };

    fn from(_error: AllocError) -> ReconfigureRefused {
        ReconfigureRefused::OutOfMemory
    }
}

/// The first reason to refuse a prefix to own. The order is this project's choice.
fn check_own<S: RouteStore>(
    config: &RouterConfig,
    store: &S,
    prefix: Prefix,
    tag: u16,
) -> Result<(), ReconfigureRefused>
    ensures fault { result_err result ≡ reconfigure_fault config.now (S.table store.now) (Change.Own prefix tag) }
    ensures prefix { OnOk result (IsPrefix prefix) }
{
    // Neighbors would skip a multicast or link-local prefix (RFC 2080, section 2.4.2).
    if !prefix.is_routable() {
        Err(ReconfigureRefused::PrefixNotAllowed)
    } else if config.owns(prefix) {
        // A table has one route to each prefix (RFC 2080, section 2.2).
        Err(ReconfigureRefused::AlreadyOwned)
    } else if config.prefixes().len() >= OWNED_LIMIT {
        // The limit is that of a configuration at the start.
        Err(ReconfigureRefused::OwnedFull)
    } else if store.get(&prefix).is_none() && store.len() >= TABLE_LIMIT {
        // A learned route to the prefix makes room for the local one, so the table needs room only where there is none.
        Err(ReconfigureRefused::TableFull)
    } else {
        Ok(())
    }
}

/// The first reason to refuse a change, if there is one. Takes no memory.
pub fn check<S: RouteStore>(
    config: &RouterConfig,
    store: &S,
    change: &Change,
) -> Result<(), ReconfigureRefused>
    ensures fault { result_err result ≡ reconfigure_fault config.now (S.table store.now) change.now }
    ensures named { OnOk result (NamesInterface config.now change.now → IsNamed config.now change.now) }
{
    match *change {
        Change::Cost { cost, .. } => {
            // A cost is a metric below infinity (RFC 2080, section 2.1).
            if is_usable_cost(cost) {
                Ok(())
            } else {
                Err(ReconfigureRefused::BadCost)
            }
        }
        Change::Own { prefix, tag } => check_own(config, store, prefix, tag),
        Change::Disown { prefix } => {
            if config.owns(prefix) {
                Ok(())
            } else {
                // A learned route is withdrawn by its gateway or its timeout, and not by hand (section 2.3).
                Err(ReconfigureRefused::NotOwned)
            }
        }
    }
}
