//! Lists in the public types of this crate: a `Vec` that contracts see as the list of its elements.

ghost use Rattle.std.specs.Prelude.{◌≡◌, List};

use std::alloc::Global;
use std::marker::Model;
use std::mem;

/// A `Vec` that contracts see as the list of its elements. A plain `Vec` shows its capacity too, which no caller needs.
#[derive(Drop)]
pub struct Listed<T> {
    items: Vec<T>,
}

impl<T> Model for Listed<T> {
    ghost Value = { List T };

    ghost view = { λ l. l.items.items };
}

impl<T> Listed<T> {
    /// The list of a vector's elements. Takes no memory.
    pub fn from_vec(items: Vec<T>) -> Listed<T>
        ensures { result ≡ items.items }
    {
        Listed { items }
    }

    /// The vector that was given. Takes no memory.
    pub fn into_vec(self) -> Vec<T>
        ensures { result.items ≡ self }
    {
        self.items
    }

    /// Its elements, in order.
    pub fn as_slice(&self) -> &[T]
        ensures { result.now ≡ self.now }
    {
        self.items.as_slice()
    }
}

/// What a vector has. One that has nothing stays, with its room.
pub fn taken<T: Drop>(alloc: Global, items: &mut Vec<T>) -> Vec<T>
    ensures { result.items ≡ items.old.items }
{
    if items.is_empty() {
        return Vec::new(alloc);
    }
    mem::replace(items, Vec::new(alloc))
}
