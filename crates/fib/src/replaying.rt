//! Replaying changes: first all installs, which may take memory, and then the withdrawals, which take none.

ghost use Rattle.std.specs.Prelude.{◌≡◌, ℕ, ◌≤◌, ◌++◌, [], ◌∷◌, false, IsOk, OnOk, OnErr, None, cond, count_by, drop};
ghost use Rattle.fib.specs.Common.{filter, Prefix6, is_install, Replays, undone, undo_of, has_install, is_gone, restored, CanRestore, CanUndo};
ghost use Rattle.std.specs.FinMap as map;

use crate::change::{Hop, RouteChange};
use crate::fib::Fib;
use prefix6::Prefix;
use std::alloc::AllocError;

/// A prefix, and the hop and the metric that it had before an install, if it had an entry.
pub(crate) type Undo = (Prefix, Option<(Hop, u8)>);

/// Installs the entry of a prefix, and notes what the prefix had.
fn install(
    fib: &mut Fib,
    done: &mut Vec<Undo>,
    prefix: Prefix,
    hop: Hop,
    metric: u8,
) -> Result<(), AllocError>
    ensures ok { OnOk result (fib.new ≡ map.insert fib.old prefix (record { hop = hop; metric = metric })) }
    ensures noted { OnOk result (done.new.items ≡ done.old.items ++ undo_of prefix (map.get fib.old prefix) ∷ []) }
    ensures err { OnErr result ((fib.new ≡ fib.old) × (done.new.items ≡ done.old.items)) }
{
    done.reserve(1)?;
    let was = fib.put(prefix, hop, metric)?;
    done.push_reserved((prefix, was));
    Ok(())
}

/// Replays the changes that install an entry, in order, and notes how they are undone.
///
/// # Errors
/// Only out of memory. What is noted is then what was done.
pub(crate) fn install_all(
    fib: &mut Fib,
    done: &mut Vec<Undo>,
    changes: &[RouteChange],
) -> Result<(), AllocError>
    requires { done.old.items ≡ [] }
    ensures ok { OnOk result (Replays fib.old (filter is_install changes.now) fib.new) }
    ensures noted { undone done.new.items fib.new ≡ fib.old }
    ensures can_undo { CanUndo done.new.items fib.new }
    ensures withdrawals { count_by is_install changes.now ≡ 0 → IsOk result }
{
    for change in changes {
        if let RouteChange::Install {
            prefix,
            hop,
            metric,
        } = *change
        {
            install(fib, done, prefix, hop, metric)?;
        }
    }
    Ok(())
}

/// Gives a prefix back what it had.
fn restore(fib: &mut Fib, undo: Undo)
    requires { CanRestore undo fib.old }
    ensures { fib.new ≡ restored undo fib.old }
{
    let (prefix, was) = undo;
    match was {
        Some((hop, metric)) => {
            let Ok(_) = fib.put(prefix, hop, metric) else {
                unreachable!()
            };
        }
        None => fib.remove(&prefix),
    }
}

/// Undoes what is noted, the last first.
pub(crate) fn undo_all(fib: &mut Fib, done: &mut Vec<Undo>)
    requires { CanUndo done.old.items fib.old }
    ensures { fib.new ≡ undone done.old.items fib.old }
{
    while let Some(undo) = done.pop() {
        restore(fib, undo);
    }
}

/// The index after the last change that installs an entry.
fn installs_end(changes: &[RouteChange]) -> usize
    ensures { (k : ℕ) (p : Prefix6) → result ≤ k → has_install (drop k changes.now) p ≡ false }
{
    let mut end = 0;
    for k in 0..changes.len() {
        if changes[k].is_install() {
            end = k + 1;
        }
    }
    end
}

/// Whether one of the changes installs an entry of the prefix.
fn is_installed(changes: &[RouteChange], prefix: &Prefix) -> bool
    ensures { result ≡ has_install changes.now prefix.now }
{
    for change in changes {
        if change.is_install() && change.prefix() == *prefix {
            return true;
        }
    }
    false
}

/// Replays the changes that withdraw an entry, but for those before an install of the same prefix.
pub(crate) fn withdraw_all(fib: &mut Fib, changes: &[RouteChange])
    ensures { (p : Prefix6) → map.get fib.new p ≡ cond (is_gone changes.now p) None (map.get fib.old p) }
{
    let end = installs_end(changes);
    for k in 0..changes.len() {
        if let RouteChange::Withdraw { prefix } = changes[k] {
            if k >= end || !is_installed(&changes[k + 1..], &prefix) {
                fib.remove(&prefix);
            }
        }
    }
}
