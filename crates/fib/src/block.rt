//! A block: a few entries in the order of their prefixes.

ghost use Rattle.std.specs.Prelude.{◌≡◌, ◌<◌, ◌≤◌, ◌↔◌, [], ◌∷◌, length, take, drop, map as each, IsTrue, IfOk, IfErr, OnOk, OnErr, Some};
ghost use Rattle.fib.specs.Common.{find, put, IsAt, IsGap, prefix_cmp, block_limit, forward_in, forward_of_entry, half_block, without, StartsAt, at_prefix, codes, Pairs, IsBlock};
ghost use Rattle.prefix6.specs.contracts.prefix.Prefix as prefix;

use crate::change::Hop;
use crate::searching::{Entry, place_of};
use prefix6::Prefix;
use std::alloc::{AllocError, Global};
use std::marker::Model;

/// A block with this many entries or more is full.
const LIMIT: usize = 128;

/// How many entries a full block keeps when it is split.
const HALF: usize = 64;

/// Some entries. Contracts see it as the list of them, each as the table has it at its prefix.
#[derive(Debug, Drop)]
pub(crate) struct Block {
    first: Prefix,
    entries: Vec<Entry>,
}

impl Model for Block {
    ghost Value = { Pairs };

    ghost coded = { Prim.hlevel (codes, prefix.the_row.coded) };

    ghost view = { λ b. each at_prefix b.entries.items };

    ghost invariant = { λ b. IsBlock b.first (each at_prefix b.entries.items) };
}

/// The prefix of the first entry, or another prefix if there is none.
fn first_of(entries: &[Entry], other: Prefix) -> Prefix
    ensures { StartsAt result (each at_prefix entries.now) }
{
    match entries.first() {
        Some(entry) => entry.0,
        None => other,
    }
}

impl Block {
    /// A block of one entry.
    ///
    /// # Errors
    /// Only out of memory.
    pub(crate) fn of(alloc: Global, entry: Entry) -> Result<Block, AllocError>
        ensures { IfOk result (λ block. block ≡ at_prefix entry ∷ []) }
    {
        let (first, hop, metric) = entry;
        let mut entries = Vec::new(alloc);
        entries.reserve(1)?;
        entries.push_reserved((first, hop, metric));
        Ok(Block { first, entries })
    }

    /// Whether the block has no entry.
    pub(crate) fn is_empty(&self) -> bool
        ensures { IsTrue result ↔ (length self.now ≡ 0) }
    {
        self.entries.is_empty()
    }

    /// Whether the block has as many entries as it should.
    pub(crate) fn is_full(&self) -> bool
        ensures { IsTrue result ↔ (block_limit ≤ length self.now) }
    {
        self.entries.len() >= LIMIT
    }

    /// The prefix of its first entry.
    pub(crate) fn first(&self) -> Prefix
        ensures { StartsAt result self.now }
    {
        self.first
    }

    /// Its entries, in order.
    pub(crate) fn entries(&self) -> &[Entry]
        ensures { each at_prefix result.now ≡ self.now }
    {
        &self.entries
    }

    /// The index of the entry of a prefix, or as an error the index where it would go.
    pub(crate) fn place(&self, prefix: &Prefix) -> Result<usize, usize>
        ensures found { IfOk result (IsAt self.now prefix.now) }
        ensures absent { IfErr result (IsGap self.now prefix.now) }
    {
        place_of(&self.entries, prefix)
    }

    /// The hop and the metric of a prefix.
    pub(crate) fn get(&self, at: usize, prefix: &Prefix) -> (Hop, u8)
        requires { IsAt self.now prefix.now at }
        ensures { find prefix_cmp prefix.now self.now ≡ Some (forward_in result) }
    {
        let (_, hop, metric) = self.entries[at];
        (hop, metric)
    }

    /// Replaces the entry of a prefix: the hop and the metric that it had.
    pub(crate) fn replace(&mut self, at: usize, entry: Entry) -> (Hop, u8)
        requires { IsAt self.old entry.0 at }
        ensures was { find prefix_cmp entry.0 self.old ≡ Some (forward_in result) }
        ensures now { self.new ≡ put prefix_cmp entry.0 (forward_of_entry entry) self.old }
    {
        let was = self.get(at, &entry.0);
        self.entries[at] = entry;
        was
    }

    /// Inserts an entry where it belongs.
    ///
    /// # Errors
    /// Only out of memory. The block is then unchanged.
    pub(crate) fn insert(&mut self, at: usize, entry: Entry) -> Result<(), AllocError>
        requires { IsGap self.old entry.0 at }
        ensures ok { OnOk result (self.new ≡ put prefix_cmp entry.0 (forward_of_entry entry) self.old) }
        ensures err { OnErr result (self.new ≡ self.old) }
    {
        self.entries.insert(at, entry)?;
        self.first = first_of(&self.entries, self.first);
        Ok(())
    }

    /// Splits a full block: the upper half is returned.
    ///
    /// # Errors
    /// Only out of memory. The block is then unchanged.
    pub(crate) fn split(&mut self) -> Result<Block, AllocError>
        requires { block_limit ≤ length self.old }
        ensures ok { OnOk result (self.new ≡ take half_block self.old) }
        ensures upper { IfOk result (λ upper. upper ≡ drop half_block self.old) }
        ensures err { OnErr result (self.new ≡ self.old) }
    {
        let entries = self.entries.split_off(HALF)?;
        let first = first_of(&entries, self.first);
        Ok(Block { first, entries })
    }

    /// Removes the entry of a prefix.
    pub(crate) fn remove(&mut self, at: usize, prefix: &Prefix)
        requires { IsAt self.old prefix.now at }
        ensures { self.new ≡ without prefix.now self.old }
    {
        let _ = self.entries.remove(at);
        self.first = first_of(&self.entries, self.first);
    }
}
