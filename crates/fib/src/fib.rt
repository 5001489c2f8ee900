//! The forwarding table: where packets go, by the longest prefix that contains their destination.

ghost use Rattle.std.specs.Prelude.{◌≡◌, ◌↔◌, ℕ, map as each, IsTrue, IsOk, IsSome, OnOk, OnErr, IfOk, IfErr, IsNone, IfSome, option_map, count_by};
ghost use Rattle.fib.specs.Common.{Prefix6, forward_in, is_install, Replays, IsMatch, IsLongestMatch, listed, AreAfter, AreAllPast, IsLastOf, IsLookedUp, codes, from_sorted, prefix_cmp, joined, IsFib, Forwarding};
ghost use Rattle.std.specs.FinMap as map;
ghost use Rattle.prefix6.specs.contracts.prefix.Prefix as prefix;

use crate::block::Block;
use crate::blocks;
use crate::change::{Hop, RouteChange};
use crate::replaying::{install_all, undo_all, withdraw_all};
use crate::walk::Entries;
use prefix6::{Addr6, Prefix};
use std::alloc::{AllocError, Global};
use std::marker::Model;

/// A forwarding table: the hop and the metric of each of its prefixes, in the order of address, then
/// length, in blocks that are not empty. Contracts see it as a finite map from prefixes.
#[derive(Debug, Drop)]
pub struct Fib {
    count: usize,
    blocks: Vec<Block>,
}

impl Model for Fib {
    ghost Value = { Forwarding };

    ghost coded = { map.code {R = prefix_cmp} prefix.the_row.coded (Prim.hlevel codes) };

    ghost view = { λ f. from_sorted (joined f.blocks.items) };

    ghost invariant = { λ f. IsFib f.count f.blocks.items };
}

impl Fib {
    /// The table without entries. It takes no memory.
    pub fn new(alloc: Global) -> Fib
        ensures { result ≡ map.empty }
    {
        Fib {
            count: 0,
            blocks: Vec::new(alloc),
        }
    }

    /// How many prefixes have an entry.
    pub fn len(&self) -> usize
        ensures { result ≡ map.len self.now }
    {
        self.count
    }

    /// Whether no prefix has an entry.
    pub fn is_empty(&self) -> bool
        ensures { IsTrue result ↔ (self.now ≡ map.empty) }
    {
        self.count == 0
    }

    /// Adds the entry of a prefix, or replaces it: the hop and the metric that the prefix had.
    pub(crate) fn put(
        &mut self,
        prefix: Prefix,
        hop: Hop,
        metric: u8,
    ) -> Result<Option<(Hop, u8)>, AllocError>
        ensures was { IfOk result (λ was. option_map forward_in was ≡ map.get self.old prefix) }
        ensures ok { OnOk result (self.new ≡ map.insert self.old prefix (record { hop = hop; metric = metric })) }
        ensures err { OnErr result (self.new ≡ self.old) }
        ensures present { IsSome (map.get self.old prefix) → IsOk result }
    {
        let entry = (prefix, hop, metric);
        match blocks::locate(&self.blocks, &prefix) {
            Ok(place) => Ok(Some(blocks::replace(&mut self.blocks, place, entry))),
            Err(place) => {
                let Some(count) = self.count.checked_add(1) else {
                    return Err(AllocError);
                };
                blocks::add(&mut self.blocks, place, entry)?;
                self.count = count;
                Ok(None)
            }
        }
    }

    /// Removes the entry of a prefix, if there is one.
    pub(crate) fn remove(&mut self, prefix: &Prefix)
        ensures { self.new ≡ map.remove self.old prefix.now }
    {
        if let Ok(place) = blocks::locate(&self.blocks, prefix) {
            blocks::remove(&mut self.blocks, place, prefix);
            self.count -= 1;
        }
    }

    /// Replays the changes of a router's step, in order: an install adds or replaces the entry of its
    /// prefix, and a withdrawal removes it, if there is one.
    ///
    /// A change of a table of n entries costs log2(n) comparisons, and where an entry comes or goes,
    /// moves of the entries after it in its block. A withdrawal before installs is compared with each
    /// of them, since it is passed over if one is of its prefix.
    ///
    /// # Errors
    /// Only out of memory for the entries that are installed. The table is then unchanged.
    pub fn apply(&mut self, changes: &[RouteChange]) -> Result<(), AllocError>
        ensures ok { OnOk result (Replays self.old changes.now self.new) }
        ensures err { OnErr result (self.new ≡ self.old) }
        ensures withdrawals { count_by is_install changes.now ≡ 0 → IsOk result }
    {
        let mut done = Vec::new(*self.blocks.allocator());
        if let Err(refused) = install_all(self, &mut done, changes) {
            undo_all(self, &mut done);
            return Err(refused);
        }
        withdraw_all(self, changes);
        Ok(())
    }

    /// The last entry whose prefix is this one or comes before it.
    fn last_up_to(&self, prefix: &Prefix) -> Option<(Prefix, Hop, u8)>
        ensures found { IfSome result (IsLastOf (listed self.now) prefix.now) }
        ensures none { IsNone result → AreAllPast (listed self.now) prefix.now 0 }
    {
        blocks::last_entry(&self.blocks, prefix)
    }

    /// The entry of the longest prefix of the table that contains the address, or `None` if no prefix
    /// does (RFC 4632, section 5.1; RFC 7608, section 2).
    ///
    /// Each turn takes the last entry up to a bound, at first the address with length 128. If its
    /// prefix contains the address, it is the longest that does. Otherwise every one that does is at
    /// most as long as what prefix and bound have in common, and that is the next bound. A turn costs
    /// log2(n) comparisons for n entries. Bounds get shorter, so there are at most 129 turns, and
    /// about log2(n) / 2 for random prefixes.
    pub fn longest_match(&self, addr: Addr6) -> Option<(Prefix, Hop, u8)>
        ensures { IsLookedUp self.now addr result }
    {
        let Ok(mut bound) = Prefix::new(addr, 128) else {
            unreachable!()
        };
        while let Some(entry) = self.last_up_to(&bound) {
            let common = entry.0.meet(&bound);
            if common == entry.0 {
                return Some(entry);
            }
            bound = common;
        }
        None
    }

    /// The hop of the [longest match](Fib::longest_match) of an address.
    pub fn lookup(&self, addr: Addr6) -> Option<Hop>
        ensures found { IfSome result (IsLongestMatch self.now addr) }
        ensures none { IsNone result ↔ ((p : Prefix6) → ¬ (IsMatch self.now addr p)) }
    {
        match self.longest_match(addr) {
            Some(entry) => Some(entry.1),
            None => None,
        }
    }

    /// The entries, each with its prefix, hop and metric, in the order of address, then length.
    pub fn entries(&self) -> Entries<'_>
        ensures { result ≡ listed self.now }
    {
        Entries {
            run: &[],
            blocks: &self.blocks,
        }
    }

    /// The entries whose prefixes come after this one, or all of them, in the order of address, then
    /// length. The first is found by log2(n) comparisons.
    pub fn entries_after(&self, after: Option<Prefix>) -> Entries<'_>
        ensures { AreAfter (listed self.now) after result }
    {
        match after {
            Some(prefix) => Entries::behind(&self.blocks, &prefix),
            None => self.entries(),
        }
    }
}
