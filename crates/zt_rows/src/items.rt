//! Lists in rows, calls and replies.

ghost use Rattle.std.specs.Prelude.{◌≡◌, IfOk, length};

use std::alloc::{AllocError, Global};
use std::marker::Model;

/// A list in a row, a call or a reply. It wraps a `Vec`.
#[derive(Debug, Drop)]
pub struct Items<T> {
    items: Vec<T>,
}

impl<T> Model for Items<T> {
    ghost use Rattle.std.specs.Prelude.{List};

    ghost Value = { List T };

    ghost view = { λ l. l.items.items };
}

impl<T> Items<T> {
    /// Makes a list of these elements. Never allocates.
    pub fn new(items: Vec<T>) -> Items<T>
        ensures { result ≡ items.items }
    {
        Items { items }
    }

    /// Returns the elements as a `Vec`. Never allocates.
    pub fn into_vec(self) -> Vec<T>
        ensures { result.items ≡ self }
    {
        let Items { items } = self;
        items
    }

    /// The elements in their order.
    pub fn as_slice(&self) -> &[T]
        ensures { result.now ≡ self.now }
    {
        self.items.as_slice()
    }

    /// The allocator that gave the list its memory.
    pub(crate) fn allocator(&self) -> Global {
        *self.items.allocator()
    }

    /// How many elements there are.
    pub fn len(&self) -> usize
        ensures { result ≡ length self.now }
    {
        self.items.len()
    }
}

impl<T: Copy> Items<T> {
    /// Copies the list into memory of its own.
    pub fn copy(&self) -> Result<Items<T>, AllocError>
        ensures { IfOk result (λ copied. copied ≡ self.now) }
    {
        let items = Vec::from_slice(*self.items.allocator(), self.items.as_slice())?;
        Ok(Items { items })
    }
}

impl<T: PartialEq> PartialEq for Items<T> {
    ghost use Rattle.std.specs.Cmp.Lexicographic.{pointwise, lists_per};

    ghost eq = { λ x y. pointwise T.eq x y };

    ghost laws = { lists_per T.laws };

    fn eq(&self, other: &Self) -> bool {
        self.items == other.items
    }
}
