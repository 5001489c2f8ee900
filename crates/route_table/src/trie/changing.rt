//! Adding a route to a trie, and removing one.

ghost use Rattle.std.specs.Prelude.{◌≡◌, ◌≢◌, [], ◌∷◌, IfOk};
ghost use Rattle.route_table.specs.Common.{put, prefix_cmp, IsUnder, linked, owned, fork_entries, without, AreParts, HasEntries, AreIn};

use super::{Entry, Fork, Node};
use crate::route::Route;
use prefix6::Prefix;
use std::alloc::{AllocError, Global};
use std::mem;

/// The boxes that one more route may need: its leaf, and a fork above it.
///
/// # Errors
/// Only out of memory.
pub fn boxes(
    alloc: Global,
    key: Prefix,
    route: Route,
) -> Result<(Box<Entry>, Box<Fork>), AllocError>
    ensures { IfOk result (λ pair. pair.0.value ≡ (key, route)) }
{
    let leaf = Box::new(alloc, (key, route))?;
    let spare = Box::new(alloc, Fork::empty(key))?;
    Ok((leaf, spare))
}

/// Adds a leaf below a node. The spare fork is used if the leaf needs one above it, and otherwise freed.
pub fn add(node: Node, leaf: Box<Entry>, spare: Box<Fork>) -> Node
    requires { HasEntries node }
    ensures some { HasEntries result }
    ensures put { linked result ≡ put prefix_cmp leaf.value.0 leaf.value.1 (linked node) }
{
    let key = leaf.0;
    match node {
        Node::Empty => Node::Leaf(leaf),
        Node::Leaf(old) => add_to_leaf(old, leaf, spare),
        Node::Fork(mut fork) => {
            let Fork {
                prefix,
                own,
                low,
                high,
                ..
            } = mem::replace(&mut *fork, Fork::empty(key));
            if key == prefix {
                closed(fork, prefix, Some(leaf), low, high)
            } else if !prefix.is_above(&key) {
                let whole = closed(fork, prefix, own, low, high);
                add_over(whole, &prefix, leaf, spare)
            } else if prefix.is_before_middle(&key) {
                closed(fork, prefix, own, add(low, leaf, spare), high)
            } else {
                closed(fork, prefix, own, low, add(high, leaf, spare))
            }
        }
    }
}

/// Adds a leaf where there is another: in its place, below it, above it or beside it.
fn add_to_leaf(old: Box<Entry>, leaf: Box<Entry>, spare: Box<Fork>) -> Node
    ensures some { HasEntries result }
    ensures put { linked result ≡ put prefix_cmp leaf.value.0 leaf.value.1 (old.value ∷ []) }
{
    let prefix = old.0;
    let key = leaf.0;
    if key == prefix {
        Node::Leaf(leaf)
    } else if !prefix.is_above(&key) {
        add_over(Node::Leaf(old), &prefix, leaf, spare)
    } else if prefix.is_before_middle(&key) {
        closed(spare, prefix, Some(old), Node::Leaf(leaf), Node::Empty)
    } else {
        closed(spare, prefix, Some(old), Node::Empty, Node::Leaf(leaf))
    }
}

/// Adds a leaf above or beside the node of a prefix, where the leaf does not lie below that prefix.
fn add_over(below: Node, prefix: &Prefix, leaf: Box<Entry>, spare: Box<Fork>) -> Node
    requires entries { AreIn prefix.now (linked below) }
    requires some { HasEntries below }
    requires other { prefix.now ≢ leaf.value.0 }
    requires outside { ¬ (IsUnder prefix.now leaf.value.0) }
    ensures some { HasEntries result }
    ensures put { linked result ≡ put prefix_cmp leaf.value.0 leaf.value.1 (linked below) }
{
    let key = leaf.0;
    let meet = prefix.meet(&key);
    if meet == key {
        if meet.is_before_middle(prefix) {
            closed(spare, meet, Some(leaf), below, Node::Empty)
        } else {
            closed(spare, meet, Some(leaf), Node::Empty, below)
        }
    } else if meet.is_before_middle(&key) {
        closed(spare, meet, None, Node::Leaf(leaf), below)
    } else {
        closed(spare, meet, None, below, Node::Leaf(leaf))
    }
}

/// Removes the route to a prefix below a node, and a fork that is no longer needed.
pub fn remove(node: Node, key: &Prefix) -> Node
    requires { HasEntries node }
    ensures some { HasEntries result }
    ensures kept { linked result ≡ without key.now (linked node) }
{
    match node {
        Node::Empty => Node::Empty,
        Node::Leaf(leaf) => {
            if *key == leaf.0 {
                Node::Empty
            } else {
                Node::Leaf(leaf)
            }
        }
        Node::Fork(mut fork) => {
            let Fork {
                prefix,
                own,
                low,
                high,
                ..
            } = mem::replace(&mut *fork, Fork::empty(*key));
            if *key == prefix {
                closed(fork, prefix, None, low, high)
            } else if prefix.is_before_middle(key) {
                closed(fork, prefix, own, remove(low, key), high)
            } else {
                closed(fork, prefix, own, low, remove(high, key))
            }
        }
    }
}

/// The node of these parts: a fork, in the box that is given, or the one part that is not empty.
fn closed(
    mut fork: Box<Fork>,
    prefix: Prefix,
    own: Option<Box<Entry>>,
    low: Node,
    high: Node,
) -> Node
    requires parts { AreParts prefix (owned own) (linked low) (linked high) }
    requires low_some { HasEntries low }
    requires high_some { HasEntries high }
    ensures some { HasEntries result }
    ensures kept { linked result ≡ fork_entries own low high }
{
    if low.is_empty() && high.is_empty() {
        return match own {
            Some(leaf) => Node::Leaf(leaf),
            None => Node::Empty,
        };
    }
    if own.is_none() {
        if low.is_empty() {
            return high;
        }
        if high.is_empty() {
            return low;
        }
    }
    *fork = Fork::of(prefix, own, low, high);
    Node::Fork(fork)
}
