//! A binary trie of routes with compressed paths: a fork stands only where prefixes part, or where a
//! prefix that has a route lies above others.
//!
//! Each route has a leaf of its own, a box that it keeps from `add` to `remove`. A fork has a
//! prefix, the leaf of exactly that prefix if there is one, and the nodes under the next bit 0 and 1.
//! A trie of n routes has n leaves and at most n - 1 forks.

ghost use Rattle.std.specs.Prelude.{◌≡◌, ◌↔◌, false, ◌+◌, ◌≤◌, [], ◌∷◌, ◌++◌, length, None, Some, option_map, IsSome, IsTrue, vec_len, vec_capacity};
ghost use Rattle.route_table.specs.Common.{option_copied, find, put, Prefix6, prefix_cmp, first_where, least_deadline, RouteValue, summary_of, meets, linked, owned, fork_entries, AreParts, AreShared, HasEntries};

mod changing;
mod updating;

use crate::route::Route;
use crate::summary::Summary;
use crate::wanted::Wanted;
pub use changing::{add, boxes, remove};
use prefix6::Prefix;
use std::marker::Model;
pub use updating::{unmark, update};

/// A prefix and its route.
pub type Entry = (Prefix, Route);

/// A node of the trie.
#[cycle(trie)]
#[derive(Drop)]
pub enum Node {
    Empty,
    Leaf(Box<Entry>),
    Fork(Box<Fork>),
}

/// A prefix, its own route if it has one, and the longer prefixes in its lower and its upper half.
#[cycle(trie)]
#[derive(Drop)]
pub struct Fork {
    prefix: Prefix,
    summary: Summary,
    low: Node,
    high: Node,
    own: Option<Box<Entry>>,
}

impl Model for Fork {
    ghost use Rattle.std.specs.Prelude.{length};
    ghost use Rattle.route_table.specs.Place.{Entries};
    ghost use Rattle.route_table.specs.Coding.{coded_entries};

    ghost Value = { Entries };

    ghost coded = { Prim.hlevel coded_entries };

    ghost use Rattle.route_table.specs.Trie.{fork_entries, IsFork};

    ghost view = { λ f. fork_entries f.own f.low f.high };

    ghost invariant = { λ f. IsFork f.prefix f.summary f.own f.low f.high };

    ghost size = { length };

    ghost use Rattle.route_table.specs.TrieFalls.{children_smaller};

    ghost size_decreases = { λ f h. children_smaller f.prefix f.summary f.own f.low f.high h.shared h.low_some h.high_some };
}

impl Fork {
    /// An empty fork: one that is to be filled, or to be freed.
    fn empty(prefix: Prefix) -> Fork
        ensures { result ≡ [] }
    {
        Fork {
            prefix,
            summary: Summary::nothing(),
            own: None,
            low: Node::Empty,
            high: Node::Empty,
        }
    }

    /// A fork of these parts.
    fn of(prefix: Prefix, own: Option<Box<Entry>>, low: Node, high: Node) -> Fork
        requires parts { AreParts prefix (owned own) (linked low) (linked high) }
        requires shared { AreShared (owned own) (linked low) (linked high) }
        requires low_some { HasEntries low }
        requires high_some { HasEntries high }
        ensures { result ≡ fork_entries own low high }
    {
        let summary = summary_of_parts(&own, &low, &high);
        Fork {
            prefix,
            summary,
            own,
            low,
            high,
        }
    }

    /// The summary of the routes below the fork.
    fn summary(&self) -> Summary
        ensures { result ≡ summary_of self.now }
    {
        self.summary
    }
}

impl Node {
    /// Whether there is no route below the node.
    fn is_empty(&self) -> bool
        requires { HasEntries self.now }
        ensures { IsTrue result ↔ (length (linked self.now) ≡ 0) }
    {
        matches!(self, Node::Empty)
    }

    /// The summary of the routes below the node.
    fn summary(&self) -> Summary
        ensures { result ≡ summary_of (linked self.now) }
    {
        match self {
            Node::Empty => Summary::nothing(),
            Node::Leaf(leaf) => Summary::of(&leaf.1),
            Node::Fork(fork) => fork.summary(),
        }
    }
}

/// The summary of a fork of these parts.
fn summary_of_parts(own: &Option<Box<Entry>>, low: &Node, high: &Node) -> Summary
    ensures { result ≡ summary_of (fork_entries own.now low.now high.now) }
{
    let below = low.summary().and(high.summary());
    match own {
        None => below,
        Some(leaf) => Summary::of(&leaf.1).and(below),
    }
}

/// The least deadline of the routes below a node, in milliseconds.
pub fn due_ms(node: &Node) -> Option<u64>
    ensures { result ≡ least_deadline (linked node.now) }
{
    node.summary().due_ms()
}

/// The route to a prefix below a node.
pub fn get(node: &Node, key: &Prefix) -> Option<Route>
    ensures { result ≡ find prefix_cmp key.now (linked node.now) }
{
    let entry = seek(node, key)?;
    Some(entry.1)
}

/// The entry of a prefix below a node. This is a recursion since a loop is slower: it is compiled to a conditional move in place
/// of a branch, and prefixes mostly come in their order, so that the branch is predicted.
fn seek<'a>(node: &'a Node, key: &Prefix) -> Option<&'a Entry>
    ensures { option_map (λ (e : Prefix6 × RouteValue). e.1) (option_copied result) ≡ find prefix_cmp key.now (linked node.now) }
{
    match node {
        Node::Empty => None,
        Node::Leaf(leaf) => at_leaf(leaf, key),
        Node::Fork(fork) => {
            let fork: &Fork = fork;
            if key.len() <= fork.prefix.len() {
                at_own(&fork.own, key)
            } else if fork.prefix.is_before_middle(key) {
                seek(&fork.low, key)
            } else {
                seek(&fork.high, key)
            }
        }
    }
}

/// The entry of a leaf, if it is the one of this prefix.
fn at_leaf<'a>(leaf: &'a Entry, key: &Prefix) -> Option<&'a Entry>
    ensures { option_map (λ (e : Prefix6 × RouteValue). e.1) (option_copied result) ≡ find prefix_cmp key.now (leaf.now ∷ []) }
{
    if *key == leaf.0 { Some(leaf) } else { None }
}

/// The entry of a fork's own prefix, if it is the one of this prefix.
fn at_own<'a>(own: &'a Option<Box<Entry>>, key: &Prefix) -> Option<&'a Entry>
    ensures { option_map (λ (e : Prefix6 × RouteValue). e.1) (option_copied result) ≡ find prefix_cmp key.now (owned own.now) }
{
    match own {
        None => None,
        Some(leaf) => at_leaf(leaf, key),
    }
}

/// The entry of a leaf, if it is wanted.
fn wanted_leaf(leaf: &Entry, wanted: Wanted) -> Option<&Entry>
    ensures { option_copied result ≡ first_where (meets wanted) None (leaf.now ∷ []) }
{
    if wanted.is_met_by(&leaf.1) {
        Some(leaf)
    } else {
        None
    }
}

/// The entry of a fork's own prefix, if it is wanted.
fn wanted_own(own: &Option<Box<Entry>>, wanted: Wanted) -> Option<&Entry>
    ensures { option_copied result ≡ first_where (meets wanted) None (owned own.now) }
{
    match own {
        None => None,
        Some(leaf) => wanted_leaf(leaf, wanted),
    }
}

/// The first entry below a node that is wanted. Where the summary says that there is none, nothing
/// below is looked at.
pub fn first(node: &Node, wanted: Wanted) -> Option<&Entry>
    ensures { option_copied result ≡ first_where (meets wanted) None (linked node.now) }
{
    match node {
        Node::Empty => None,
        Node::Leaf(leaf) => wanted_leaf(leaf, wanted),
        Node::Fork(fork) => {
            let fork: &Fork = fork;
            if !wanted.may_be_in(&fork.summary) {
                return None;
            }
            if let Some(entry) = wanted_own(&fork.own, wanted) {
                return Some(entry);
            }
            match first(&fork.low, wanted) {
                Some(entry) => Some(entry),
                None => first(&fork.high, wanted),
            }
        }
    }
}

/// The first entry below a node that is past a prefix and wanted.
pub fn first_past<'a>(node: &'a Node, after: &Prefix, wanted: Wanted) -> Option<&'a Entry>
    ensures { option_copied result ≡ first_where (meets wanted) (Some after.now) (linked node.now) }
{
    match node {
        Node::Empty => None,
        Node::Leaf(leaf) => {
            if *after < leaf.0 {
                wanted_leaf(leaf, wanted)
            } else {
                None
            }
        }
        Node::Fork(fork) => {
            let fork: &Fork = fork;
            if !wanted.may_be_in(&fork.summary) {
                return None;
            }
            if *after < fork.prefix {
                return first(node, wanted);
            }
            if !fork.prefix.is_before_middle(after) {
                return first_past(&fork.high, after, wanted);
            }
            match first_past(&fork.low, after, wanted) {
                Some(entry) => Some(entry),
                None => first(&fork.high, wanted),
            }
        }
    }
}

/// Appends the entries below a node in their order. The vector must have room for them.
pub fn list(node: &Node, out: &mut Vec<Entry>)
    requires { vec_len out.old + length (linked node.now) ≤ vec_capacity out.old }
    ensures items { out.new.items ≡ out.old.items ++ linked node.now }
    ensures len { vec_len out.new ≡ vec_len out.old + length (linked node.now) }
    ensures capacity { vec_capacity out.new ≡ vec_capacity out.old }
{
    match node {
        Node::Empty => {}
        Node::Leaf(leaf) => out.push_reserved(**leaf),
        Node::Fork(fork) => {
            let fork: &Fork = fork;
            if let Some(leaf) = &fork.own {
                out.push_reserved(**leaf);
            }
            list(&fork.low, out);
            list(&fork.high, out);
        }
    }
}
