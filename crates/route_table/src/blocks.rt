//! A list of blocks of routes, in the order of their prefixes.

ghost use Rattle.std.specs.Prelude.{◌≡◌, ◌+◌, ◌<◌, ◌≤◌, ◌++◌, length, take, IfOk, IfSome, OnOk, OnErr, All, IsSome, IsTrue, [], ◌∷◌, false, None, Some, option_map, vec_len, vec_capacity};
ghost use Rattle.route_table.specs.Common.{FnOnceReturnsAtMut, Less, find, put, prefix_cmp, block_at, block_limit, joined, AreBlocks, AreFilled, Covers, HasRoom, IsHome, IsPlaced, IsStart, first_where, least_deadline, without_mark, meets, wanted_of, map_entries, past, without, UpdatesEntries};

use crate::block::Block;
use crate::route::Route;
use crate::summary::Summary;
use crate::wanted::Wanted;
use prefix6::Prefix;
use std::alloc::{AllocError, Global};

/// The index of a block, and an index in it.
pub type Place = (usize, usize);

/// The index of the block that has a prefix, or would get it. The last is looked at first, since routes are learned in order.
fn home(blocks: &[Block], prefix: &Prefix) -> usize
    requires ordered { AreBlocks blocks.now }
    requires some { 0 < length blocks.now }
    ensures { IsHome blocks.now prefix.now result }
{
    let mut low = 0;
    let mut high = blocks.len();
    let mut middle = high - 1;
    while low + 1 < high {
        if *prefix < blocks[middle].first() {
            high = middle;
        } else {
            low = middle;
        }
        middle = low + (high - low) / 2;
    }
    low
}

/// The block of a prefix and its place there, if it has one.
fn locate(blocks: &[Block], prefix: &Prefix) -> Option<Place>
    requires { AreBlocks blocks.now }
    ensures found { IfSome result (IsPlaced blocks.now prefix.now) }
    ensures absent { result ≡ None → find prefix_cmp prefix.now (joined blocks.now) ≡ None }
{
    if blocks.is_empty() {
        return None;
    }
    let block = home(blocks, prefix);
    match blocks[block].place(prefix) {
        Some(at) => Some((block, at)),
        None => None,
    }
}

/// The same, but one place is looked at first.
fn locate_from(blocks: &[Block], first: Place, prefix: &Prefix) -> Option<Place>
    requires { AreBlocks blocks.now }
    ensures found { IfSome result (IsPlaced blocks.now prefix.now) }
    ensures absent { result ≡ None → find prefix_cmp prefix.now (joined blocks.now) ≡ None }
{
    if first.0 < blocks.len() && blocks[first.0].has_at(first.1, prefix) {
        return Some(first);
    }
    locate(blocks, prefix)
}

/// The place after another.
fn behind(blocks: &[Block], place: Place) -> Place {
    let next = place.1.saturating_add(1);
    if place.0 < blocks.len() && next < blocks[place.0].len() {
        (place.0, next)
    } else {
        (place.0.saturating_add(1), 0)
    }
}

/// The route to a prefix, if there is one.
pub fn get(blocks: &[Block], prefix: &Prefix) -> Option<Route>
    requires { AreBlocks blocks.now }
    ensures { result ≡ find prefix_cmp prefix.now (joined blocks.now) }
{
    if blocks.is_empty() {
        return None;
    }
    blocks[home(blocks, prefix)].get(prefix)
}

/// The index of the first block with routes past a prefix.
fn start(blocks: &[Block], after: &Option<Prefix>) -> usize
    requires { AreBlocks blocks.now }
    ensures { IsStart blocks.now after.now result }
{
    match after {
        Some(prefix) if !blocks.is_empty() => home(blocks, prefix),
        _ => 0,
    }
}

/// The first route past the prefix that is wanted.
pub fn first_wanted(
    blocks: &[Block],
    after: &Option<Prefix>,
    wanted: Wanted,
) -> Option<(Prefix, Route)>
    requires { AreBlocks blocks.now }
    ensures { result ≡ first_where (meets wanted) after.now (joined blocks.now) }
{
    for k in start(blocks, after)..blocks.len() {
        let found = blocks[k].first_wanted(after, wanted);
        if found.is_some() {
            return found;
        }
    }
    None
}

/// The least deadline of the routes, in milliseconds.
pub fn due_ms(blocks: &[Block]) -> Option<u64>
    ensures { result ≡ least_deadline (joined blocks.now) }
{
    let mut due = None;
    for block in blocks.iter() {
        due = block.earlier_due(due);
    }
    due
}

/// Appends all routes in their order. The vector must have room for them.
pub fn list(blocks: &[Block], out: &mut Vec<(Prefix, Route)>)
    requires room { vec_len out.old + length (joined blocks.now) ≤ vec_capacity out.old }
    ensures { out.new.items ≡ out.old.items ++ joined blocks.now }
{
    for block in blocks.iter() {
        block.list(out);
    }
}

/// Appends the first routes past the prefix that are wanted, at most `most`. The vector must have room for them.
pub fn list_wanted(
    blocks: &[Block],
    after: &Option<Prefix>,
    wanted: Wanted,
    most: usize,
    out: &mut Vec<(Prefix, Route)>,
)
    requires ordered { AreBlocks blocks.now }
    requires room { vec_len out.old + most ≤ vec_capacity out.old }
    ensures { out.new.items ≡ out.old.items ++ take most (wanted_of wanted (past after.now (joined blocks.now))) }
{
    let mut left = most;
    for k in start(blocks, after)..blocks.len() {
        if left == 0 {
            return;
        }
        left = blocks[k].list_wanted(after, wanted, left, out);
    }
}

/// Changes the route to a prefix in place, if there is one, and returns what `change` does. The bound of all routes is widened, and the
/// place to look at first becomes the one after it.
pub fn update<T, F: FnOnce(&mut Route) -> T>(
    blocks: &mut Vec<Block>,
    bound: &mut Summary,
    next: &mut Place,
    prefix: &Prefix,
    change: F,
) -> Option<T>
    requires callable { F.IsAlwaysCallable change }
    requires ordered { AreBlocks blocks.old.items }
    requires covered { Covers bound.old (joined blocks.old.items) }
    ensures updates { UpdatesEntries (FnOnceReturnsAtMut F.FnOnce change) prefix.now (joined blocks.old.items) result (joined blocks.new.items) }
    ensures filled { AreFilled blocks.new.items }
    ensures covered { Covers bound.new (joined blocks.new.items) }
{
    let Some((block, at)) = locate_from(blocks, *next, prefix) else {
        return None;
    };
    *next = behind(blocks, (block, at));
    let (answer, summary) = blocks[block].update(at, prefix, change);
    *bound = bound.and(summary);
    Some(answer)
}

/// Clears all route change flags. The result is a bound of all routes.
pub fn unmark(blocks: &mut Vec<Block>) -> Summary
    requires { AreFilled blocks.old.items }
    ensures unmarked { joined blocks.new.items ≡ map_entries without_mark (joined blocks.old.items) }
    ensures filled { AreFilled blocks.new.items }
    ensures covered { Covers result (joined blocks.new.items) }
{
    let mut bound = Summary::nothing();
    for k in 0..blocks.len() {
        bound = bound.and(blocks[k].unmark());
    }
    bound
}

/// Joins a block with the one before it, if both are small and there is room for both in that one.
fn join(blocks: &mut Vec<Block>, at: usize)
    requires { AreBlocks blocks.old.items }
    ensures same { joined blocks.new.items ≡ joined blocks.old.items }
    ensures filled { AreFilled blocks.new.items }
{
    if at == 0 || at >= blocks.len() {
        return;
    }
    let (lower, upper) = blocks.split_at_mut(at);
    if lower[at - 1].absorb(&upper[0]) {
        let _ = blocks.remove(at);
    }
}

/// Removes the route to a prefix, and its block if that is left empty, or else joins this with the block after it or before it if they
/// are small. Two blocks side by side then have more than 64 routes, or the first never had room for more.
///
/// The worst case is a bisection over the blocks, a look at the 128 routes of one, and twice a copy of at most 63 routes and a move of
/// all blocks behind.
pub fn remove(blocks: &mut Vec<Block>, prefix: &Prefix)
    requires ordered { AreBlocks blocks.old.items }
    requires present { IsSome (find prefix_cmp prefix.now (joined blocks.old.items)) }
    ensures kept { joined blocks.new.items ≡ without prefix.now (joined blocks.old.items) }
    ensures filled { AreFilled blocks.new.items }
{
    let Some((block, at)) = locate(blocks, prefix) else {
        unreachable!()
    };
    blocks[block].remove(at, prefix);
    if blocks[block].len() == 0 {
        let _ = blocks.remove(block);
        return;
    }
    join(blocks, block + 1);
    join(blocks, block);
}

/// Whether a prefix that has no route is to begin a block after all others. It does so if the last block is full, so that routes
/// that are learned in order fill their blocks.
fn begins_block(blocks: &[Block], prefix: &Prefix) -> bool
    requires { AreBlocks blocks.now }
    ensures behind { IsTrue result → All (λ e. prefix_cmp e.0 prefix.now ≡ Less) (joined blocks.now) }
    ensures some { result ≡ false → 0 < length blocks.now }
{
    let len = blocks.len();
    if len == 0 {
        return true;
    }
    let last = &blocks[len - 1];
    if !last.is_full() {
        return false;
    }
    last.ends_before(prefix)
}

/// Adds a block of one route after all others.
fn append(
    blocks: &mut Vec<Block>,
    alloc: Global,
    prefix: Prefix,
    route: Route,
) -> Result<(), AllocError>
    requires behind { All (λ e. prefix_cmp e.0 prefix ≡ Less) (joined blocks.old.items) }
    requires filled { AreFilled blocks.old.items }
    ensures ok { OnOk result (joined blocks.new.items ≡ put prefix_cmp prefix route (joined blocks.old.items)) }
    ensures err { OnErr result (joined blocks.new.items ≡ joined blocks.old.items) }
    ensures filled { AreFilled blocks.new.items }
{
    blocks.reserve(1)?;
    let block = Block::of(alloc, prefix, route)?;
    blocks.push_reserved(block);
    Ok(())
}

/// Splits a full block in two: the index of the one into which a prefix goes.
fn part(blocks: &mut Vec<Block>, at: usize, prefix: &Prefix) -> Result<usize, AllocError>
    requires ordered { AreBlocks blocks.old.items }
    requires home { IsHome blocks.old.items prefix.now at }
    requires full { block_limit ≤ length (block_at blocks.old.items at) }
    ensures ok { IfOk result (HasRoom blocks.new.items prefix.now) }
    ensures same { joined blocks.new.items ≡ joined blocks.old.items }
    ensures filled { AreFilled blocks.new.items }
{
    blocks.reserve(1)?;
    let upper = blocks[at].split()?;
    let first = upper.first();
    let Ok(()) = blocks.insert(at + 1, upper) else {
        unreachable!()
    };
    Ok(if *prefix < first { at } else { at + 1 })
}

/// The index of the block into which a prefix goes, with room for it.
fn home_with_room(blocks: &mut Vec<Block>, prefix: &Prefix) -> Result<usize, AllocError>
    requires ordered { AreBlocks blocks.old.items }
    requires some { 0 < length blocks.old.items }
    ensures ok { IfOk result (HasRoom blocks.new.items prefix.now) }
    ensures same { joined blocks.new.items ≡ joined blocks.old.items }
    ensures filled { AreFilled blocks.new.items }
{
    let at = home(blocks, prefix);
    if blocks[at].is_full() {
        return part(blocks, at, prefix);
    }
    Ok(at)
}

/// Inserts the route to a prefix that has none.
///
/// # Errors
/// Only out of memory.
pub fn insert(
    blocks: &mut Vec<Block>,
    alloc: Global,
    prefix: Prefix,
    route: Route,
) -> Result<(), AllocError>
    requires ordered { AreBlocks blocks.old.items }
    requires absent { find prefix_cmp prefix (joined blocks.old.items) ≡ None }
    ensures ok { OnOk result (joined blocks.new.items ≡ put prefix_cmp prefix route (joined blocks.old.items)) }
    ensures err { OnErr result (joined blocks.new.items ≡ joined blocks.old.items) }
    ensures filled { AreFilled blocks.new.items }
{
    if begins_block(blocks, &prefix) {
        return append(blocks, alloc, prefix, route);
    }
    let at = home_with_room(blocks, &prefix)?;
    blocks[at].insert(prefix, route)
}
