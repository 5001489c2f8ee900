//! A list of blocks of entries, none of them empty, in the order of their prefixes.

ghost use Rattle.std.specs.Prelude.{◌≡◌, ◌+◌, ◌<◌, ◌≤◌, length, map as each, option_map, take, drop, All, IfOk, IfErr, IfSome, IsNone, OnOk, OnErr, Some};
ghost use Rattle.fib.specs.Common.{Less, find, put, IsGap, prefix_cmp, block_at, block_limit, joined, without, forward_in, forward_of_entry, AreBlocks, AreFilled, IsHome, IsFrom, IsPlaced, IsVacant, fib_entry, AreAllPast, IsLastOf};

use crate::block::Block;
use crate::change::Hop;
use crate::searching::{Entry, last_up_to};
use prefix6::Prefix;
use std::alloc::AllocError;

/// The index of a block, and an index in it.
pub(crate) type Place = (usize, usize);

/// The index of the block that has a prefix, or would get it. The last is looked at first, since routes are learned in order.
pub(crate) fn home(blocks: &[Block], prefix: &Prefix) -> usize
    requires ordered { AreBlocks blocks.now }
    requires some { 0 < length blocks.now }
    ensures home { IsHome blocks.now prefix.now result }
    ensures from { IsFrom blocks.now prefix.now result }
{
    let mut low = 0;
    let mut high = blocks.len();
    let mut middle = high - 1;
    while low + 1 < high {
        if *prefix < blocks[middle].first() {
            high = middle;
        } else {
            low = middle;
        }
        middle = low + (high - low) / 2;
    }
    low
}

/// The index of the block of a prefix and its index there, or as an error those where it would go.
pub(crate) fn locate(blocks: &[Block], prefix: &Prefix) -> Result<Place, Place>
    requires { AreBlocks blocks.now }
    ensures found { IfOk result (IsPlaced blocks.now prefix.now) }
    ensures absent { IfErr result (IsVacant blocks.now prefix.now) }
{
    if blocks.is_empty() {
        return Err((0, 0));
    }
    let block = home(blocks, prefix);
    match blocks[block].place(prefix) {
        Ok(at) => Ok((block, at)),
        Err(at) => Err((block, at)),
    }
}

/// The last entry whose prefix is this one or comes before it.
pub(crate) fn last_entry(blocks: &[Block], prefix: &Prefix) -> Option<Entry>
    requires { AreBlocks blocks.now }
    ensures found { IfSome result (IsLastOf (each fib_entry (joined blocks.now)) prefix.now) }
    ensures none { IsNone result → AreAllPast (each fib_entry (joined blocks.now)) prefix.now 0 }
{
    if blocks.is_empty() {
        return None;
    }
    let entries = blocks[home(blocks, prefix)].entries();
    match last_up_to(entries, prefix) {
        Some(at) => Some(entries[at]),
        None => None,
    }
}

/// Inserts a block of one entry between others.
fn insert_block(blocks: &mut Vec<Block>, at: usize, entry: Entry) -> Result<(), AllocError>
    requires within { at ≤ length blocks.old.items }
    requires filled { AreFilled blocks.old.items }
    requires below { All (λ e. prefix_cmp e.0 entry.0 ≡ Less) (joined (take at blocks.old.items)) }
    requires above { All (λ e. prefix_cmp entry.0 e.0 ≡ Less) (joined (drop at blocks.old.items)) }
    ensures ok { OnOk result (joined blocks.new.items ≡ put prefix_cmp entry.0 (forward_of_entry entry) (joined blocks.old.items)) }
    ensures err { OnErr result (joined blocks.new.items ≡ joined blocks.old.items) }
    ensures filled { AreFilled blocks.new.items }
{
    let block = Block::of(*blocks.allocator(), entry)?;
    blocks.insert(at, block)?;
    Ok(())
}

/// Splits a full block in two. No entry changes.
fn part(blocks: &mut Vec<Block>, at: usize) -> Result<(), AllocError>
    requires ordered { AreBlocks blocks.old.items }
    requires within { at < length blocks.old.items }
    requires full { block_limit ≤ length (block_at blocks.old.items at) }
    ensures same { joined blocks.new.items ≡ joined blocks.old.items }
    ensures filled { AreFilled blocks.new.items }
{
    blocks.reserve(1)?;
    let upper = blocks[at].split()?;
    let Ok(()) = blocks.insert(at + 1, upper) else {
        unreachable!()
    };
    Ok(())
}

/// Replaces the entry of a prefix: the hop and the metric that it had.
pub(crate) fn replace(blocks: &mut Vec<Block>, place: Place, entry: Entry) -> (Hop, u8)
    requires filled { AreFilled blocks.old.items }
    requires placed { IsPlaced blocks.old.items entry.0 place }
    ensures was { find prefix_cmp entry.0 (joined blocks.old.items) ≡ Some (forward_in result) }
    ensures now { joined blocks.new.items ≡ put prefix_cmp entry.0 (forward_of_entry entry) (joined blocks.old.items) }
    ensures filled { AreFilled blocks.new.items }
{
    blocks[place.0].replace(place.1, entry)
}

/// Inserts the entry of a prefix that has none into its block.
fn insert(blocks: &mut Vec<Block>, place: Place, entry: Entry) -> Result<(), AllocError>
    requires ordered { AreBlocks blocks.old.items }
    requires home { IsHome blocks.old.items entry.0 place.0 }
    requires gap { IsGap (block_at blocks.old.items place.0) entry.0 place.1 }
    ensures ok { OnOk result (joined blocks.new.items ≡ put prefix_cmp entry.0 (forward_of_entry entry) (joined blocks.old.items)) }
    ensures err { OnErr result (joined blocks.new.items ≡ joined blocks.old.items) }
    ensures filled { AreFilled blocks.new.items }
{
    blocks[place.0].insert(place.1, entry)
}

/// Splits the full block where the entry of a prefix that has none belongs, and inserts the entry.
fn insert_parted(blocks: &mut Vec<Block>, place: Place, entry: Entry) -> Result<(), AllocError>
    requires ordered { AreBlocks blocks.old.items }
    requires home { IsHome blocks.old.items entry.0 place.0 }
    requires gap { IsGap (block_at blocks.old.items place.0) entry.0 place.1 }
    requires full { block_limit ≤ length (block_at blocks.old.items place.0) }
    ensures ok { OnOk result (joined blocks.new.items ≡ put prefix_cmp entry.0 (forward_of_entry entry) (joined blocks.old.items)) }
    ensures err { OnErr result (joined blocks.new.items ≡ joined blocks.old.items) }
    ensures filled { AreFilled blocks.new.items }
{
    part(blocks, place.0)?;
    let Err(place) = locate(blocks, &entry.0) else {
        unreachable!()
    };
    insert(blocks, place, entry)
}

/// Adds the entry of a prefix that has none. If its block is full, a block is begun after it, or it is split.
///
/// # Errors
/// Only out of memory. No entry changes.
pub(crate) fn add(blocks: &mut Vec<Block>, place: Place, entry: Entry) -> Result<(), AllocError>
    requires ordered { AreBlocks blocks.old.items }
    requires vacant { IsVacant blocks.old.items entry.0 place }
    ensures ok { OnOk result (joined blocks.new.items ≡ put prefix_cmp entry.0 (forward_of_entry entry) (joined blocks.old.items)) }
    ensures err { OnErr result (joined blocks.new.items ≡ joined blocks.old.items) }
    ensures filled { AreFilled blocks.new.items }
{
    if blocks.is_empty() {
        return insert_block(blocks, 0, entry);
    }
    if !blocks[place.0].is_full() {
        return insert(blocks, place, entry);
    }
    if place.1 == blocks[place.0].entries().len() {
        return insert_block(blocks, place.0 + 1, entry);
    }
    insert_parted(blocks, place, entry)
}

/// Removes the entry of a prefix, and its block if that is left empty.
pub(crate) fn remove(blocks: &mut Vec<Block>, place: Place, prefix: &Prefix)
    requires filled { AreFilled blocks.old.items }
    requires placed { IsPlaced blocks.old.items prefix.now place }
    ensures left { joined blocks.new.items ≡ without prefix.now (joined blocks.old.items) }
    ensures filled { AreFilled blocks.new.items }
{
    blocks[place.0].remove(place.1, prefix);
    if blocks[place.0].is_empty() {
        let _ = blocks.remove(place.0);
    }
}
