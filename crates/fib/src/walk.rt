//! The entries of a forwarding table, one after the other.

ghost use Rattle.std.specs.Prelude.{◌≡◌, Some, length, map as each, ◌++◌, List};
ghost use Rattle.fib.specs.Common.{YieldsFirst, item_count, joined, AreBlocks, fib_entry, AreAfter, AreFilled, Entry as EntryValue};

use crate::block::Block;
use crate::blocks::home;
use crate::change::Hop;
use crate::searching::{Entry, passed};
use prefix6::Prefix;
use std::marker::Model;

/// The entries of a table that are left, in the order of address, then length. It takes no memory.
#[derive(Debug, Drop)]
pub struct Entries<'a> {
    pub(crate) run: &'a [Entry],
    pub(crate) blocks: &'a [Block],
}

impl<'a> Model for Entries<'a> {
    ghost Value = { List EntryValue };

    ghost view = { λ e. e.run.now ++ each fib_entry (joined e.blocks.now) };

    ghost invariant = { λ e. AreFilled e.blocks.now };
}

impl<'a> Entries<'a> {
    /// The entries of blocks after a prefix.
    pub(crate) fn behind(blocks: &'a [Block], prefix: &Prefix) -> Entries<'a>
        requires { AreBlocks blocks.now }
        ensures { AreAfter (each fib_entry (joined blocks.now)) (Some prefix.now) result }
    {
        if blocks.is_empty() {
            return Entries { run: &[], blocks };
        }
        let at = home(blocks, prefix);
        let run = blocks[at].entries();
        Entries {
            run: &run[passed(run, prefix)..],
            blocks: &blocks[at + 1..],
        }
    }
}

impl<'a> Iterator for Entries<'a> {
    type Item = (Prefix, Hop, u8);

    ghost next_gives = { YieldsFirst (λ e. e) };

    ghost remaining = { item_count (λ e. e) };

    fn next(&mut self) -> Option<(Prefix, Hop, u8)> {
        if let Some((entry, run)) = self.run.split_first() {
            self.run = run;
            return Some(*entry);
        }
        let (block, blocks) = self.blocks.split_first()?;
        let Some((entry, run)) = block.entries().split_first() else {
            unreachable!()
        };
        self.run = run;
        self.blocks = blocks;
        Some(*entry)
    }
}
