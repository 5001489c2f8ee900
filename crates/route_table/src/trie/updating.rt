//! Replacing routes of a trie.

ghost use Rattle.std.specs.Prelude.{◌≡◌, false, [], ◌∷◌, None, option_map, IfSome};
ghost use Rattle.route_table.specs.Common.{find, prefix_cmp, without_mark, summary_of, map_entries, linked, owned, fork_entries, entries_with, HasEntries};

use super::{Entry, Fork, Node, summary_of_parts};
use crate::route::Route;
use crate::summary::Summary;
use prefix6::Prefix;

/// The route to a prefix before and after an update.
pub type Made = Option<(Route, Route)>;

/// Replaces the route to a prefix below a node by what `make` returns for it: the route before and after, if there is one. The
/// flag says whether the summary of the node may have changed; if not, no summary above it is looked at.
pub fn update<F: FnOnce(Route) -> Route>(
    node: &mut Node,
    key: &Prefix,
    make: F,
    made: &mut Made,
) -> bool
    requires callable { F.IsAlwaysCallable make }
    requires untold { made.old ≡ None }
    requires some { HasEntries node.old }
    ensures some { HasEntries node.new }
    ensures before { option_map (λ m. m.0) made.new ≡ find prefix_cmp key.now (linked node.old) }
    ensures by { IfSome made.new (λ m. F.post make m.0 m.1) }
    ensures after { linked node.new ≡ entries_with key.now made.new (linked node.old) }
    ensures kept { result ≡ false → summary_of (linked node.new) ≡ summary_of (linked node.old) }
{
    match node {
        Node::Empty => false,
        Node::Leaf(leaf) => update_leaf(leaf, key, make, made),
        Node::Fork(fork) => {
            let fork: &mut Fork = fork;
            if key.len() <= fork.prefix.len() {
                let changed = update_own(&mut fork.own, key, make, made);
                renew(&mut fork.summary, changed, &fork.own, &fork.low, &fork.high)
            } else if fork.prefix.is_before_middle(key) {
                let changed = update(&mut fork.low, key, make, made);
                renew(&mut fork.summary, changed, &fork.own, &fork.low, &fork.high)
            } else {
                let changed = update(&mut fork.high, key, make, made);
                renew(&mut fork.summary, changed, &fork.own, &fork.low, &fork.high)
            }
        }
    }
}

/// The same for a leaf, if it is the one of this prefix.
fn update_leaf<F: FnOnce(Route) -> Route>(
    leaf: &mut Entry,
    key: &Prefix,
    make: F,
    made: &mut Made,
) -> bool
    requires callable { F.IsAlwaysCallable make }
    requires untold { made.old ≡ None }
    ensures before { option_map (λ m. m.0) made.new ≡ find prefix_cmp key.now (leaf.old ∷ []) }
    ensures by { IfSome made.new (λ m. F.post make m.0 m.1) }
    ensures after { leaf.new ∷ [] ≡ entries_with key.now made.new (leaf.old ∷ []) }
    ensures kept { result ≡ false → summary_of (leaf.new ∷ []) ≡ summary_of (leaf.old ∷ []) }
{
    if *key != leaf.0 {
        return false;
    }
    let before = leaf.1;
    let after = make(before);
    leaf.1 = after;
    *made = Some((before, after));
    !Summary::of(&before).is_same(&Summary::of(&after))
}

/// The same for a fork's own prefix, if it is the one of this prefix.
#[inline(never)]
fn update_own<F: FnOnce(Route) -> Route>(
    own: &mut Option<Box<Entry>>,
    key: &Prefix,
    make: F,
    made: &mut Made,
) -> bool
    requires callable { F.IsAlwaysCallable make }
    requires untold { made.old ≡ None }
    ensures before { option_map (λ m. m.0) made.new ≡ find prefix_cmp key.now (owned own.old) }
    ensures by { IfSome made.new (λ m. F.post make m.0 m.1) }
    ensures after { owned own.new ≡ entries_with key.now made.new (owned own.old) }
    ensures kept { result ≡ false → summary_of (owned own.new) ≡ summary_of (owned own.old) }
{
    match own {
        None => false,
        Some(leaf) => update_leaf(leaf, key, make, made),
    }
}

/// Computes the summary of a fork anew if that of one of its parts may have changed. The flag says whether it is another now.
fn renew(
    summary: &mut Summary,
    changed: bool,
    own: &Option<Box<Entry>>,
    low: &Node,
    high: &Node,
) -> bool
    requires { changed ≡ false → summary.old ≡ summary_of (fork_entries own.now low.now high.now) }
    ensures summed { summary.new ≡ summary_of (fork_entries own.now low.now high.now) }
    ensures kept { result ≡ false → summary.new ≡ summary.old }
{
    if changed {
        sum_up(summary, own, low, high)
    } else {
        false
    }
}

/// Computes the summary of a fork anew, which few forks on the way up need. The flag says whether it is another now.
#[inline(never)]
fn sum_up(summary: &mut Summary, own: &Option<Box<Entry>>, low: &Node, high: &Node) -> bool
    ensures summed { summary.new ≡ summary_of (fork_entries own.now low.now high.now) }
    ensures kept { result ≡ false → summary.new ≡ summary.old }
{
    summary.set(summary_of_parts(own, low, high))
}

/// Clears the route change flags below a node. Where the summary says that none is set, nothing below is looked at.
pub fn unmark(node: &mut Node)
    requires { HasEntries node.old }
    ensures some { HasEntries node.new }
    ensures unmarked { linked node.new ≡ map_entries without_mark (linked node.old) }
{
    match node {
        Node::Empty => {}
        Node::Leaf(leaf) => unmark_leaf(leaf),
        Node::Fork(fork) => {
            let fork: &mut Fork = fork;
            if fork.summary.has_changed() {
                unmark_own(&mut fork.own);
                unmark(&mut fork.low);
                unmark(&mut fork.high);
                fork.summary = fork.summary.without_mark();
            }
        }
    }
}

fn unmark_leaf(leaf: &mut Entry)
    ensures { leaf.new ∷ [] ≡ map_entries without_mark (leaf.old ∷ []) }
{
    leaf.1 = leaf.1.with_mark(false);
}

fn unmark_own(own: &mut Option<Box<Entry>>)
    ensures { owned own.new ≡ map_entries without_mark (owned own.old) }
{
    match own {
        None => {}
        Some(leaf) => unmark_leaf(leaf),
    }
}
