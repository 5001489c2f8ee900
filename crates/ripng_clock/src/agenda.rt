//! Times in their order, each with a number.

ghost use Rattle.std.specs.Prelude.{◌≡◌, ℕ, IfSome, IsTrue, None, OnErr, OnOk};
ghost use Rattle.ripng_clock.specs.Common.{Has, IsAdded, IsFirst, IsRemoved};

use std::alloc::{AllocError, Global};
use std::collections::BTreeSet;

/// Times in milliseconds, each with the number of what is to happen then.
#[derive(Drop)]
pub struct Agenda {
    entries: BTreeSet<(u64, usize)>,
}

impl Agenda {
    /// With no times.
    pub fn new(alloc: Global) -> Agenda
        ensures { (time number : ℕ) → Has result time number → ⊥ }
    {
        Agenda {
            entries: BTreeSet::new(alloc),
        }
    }

    /// Whether there is no time.
    pub fn is_empty(&self) -> bool
        ensures { IsTrue result → (time number : ℕ) → Has self.now time number → ⊥ }
    {
        self.entries.is_empty()
    }

    /// A number has a time, beside those that it has.
    ///
    /// # Errors
    /// Out of memory, and nothing is changed.
    pub fn add(&mut self, time: u64, number: usize) -> Result<(), AllocError>
        ensures added { OnOk result (IsAdded self.old time number self.new) }
        ensures unchanged { OnErr result (self.new.entries.keys ≡ self.old.entries.keys) }
    {
        self.entries.insert((time, number))?;
        Ok(())
    }

    /// A number has that time no longer.
    pub fn remove(&mut self, time: u64, number: usize)
        ensures { IsRemoved self.old time number self.new }
    {
        self.entries.remove(&(time, number));
    }

    /// The first time and its number: the least of those with the same time.
    pub fn first(&self) -> Option<(u64, usize)>
        ensures first { IfSome result (λ f. IsFirst self.now f.0 f.1) }
        ensures none { result ≡ None → (time number : ℕ) → Has self.now time number → ⊥ }
    {
        self.entries.first().copied()
    }
}
