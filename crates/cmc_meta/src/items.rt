//! Lists of things that can be copied and compared.
ghost use Rattle.std.specs.Prelude.{◌≡◌, ◌↔◌, ◌++◌, ◌∷◌, [], IsTrue, IfOk, OnOk, OnErr};

use std::alloc::{AllocError, Global};
use std::marker::Model;

/// What a list can hold, so that the whole list can be copied and compared.
pub trait Item: Drop {
    /// An equal value. An error is one of memory.
    fn copy(&self) -> Result<Self, AllocError>
        ensures { IfOk result (λ x. x ≡ self.now) };

    /// Whether both are equal.
    fn same(&self, other: &Self) -> bool
        ensures { IsTrue result ↔ (self.now ≡ other.now) };
}

/// A list of things; contracts see the list of what they are.
pub struct Items<T> {
    items: Vec<T>,
}

impl<T: Drop> Drop for Items<T> {
    fn drop(self) {
        let Items { items: _items } = self;
    }
}

impl<T> Model for Items<T> {
    ghost use Rattle.std.specs.Prelude.{List};
    ghost use Rattle.std.specs.Coded.{coded_list};

    ghost Value = { List T };

    ghost coded = { coded_list T.code };

    ghost view = { λ t. t.items.items };
}

impl<T: Drop> Items<T> {
    /// No items. It takes no memory.
    pub fn new(alloc: Global) -> Items<T>
        ensures { result ≡ [] }
    {
        Items {
            items: Vec::new(alloc),
        }
    }

    /// No items, with room for so many.
    pub fn with_capacity(alloc: Global, items: usize) -> Result<Items<T>, AllocError>
        ensures { IfOk result (λ t. t ≡ []) }
    {
        Ok(Items {
            items: Vec::with_capacity(alloc, items)?,
        })
    }

    /// Adds an item at the end.
    pub fn push(&mut self, item: T) -> Result<(), AllocError>
        ensures ok { OnOk result (self.new ≡ self.old ++ item ∷ []) }
        ensures err { OnErr result (self.new ≡ self.old) }
    {
        self.items.push(item)?;
        Ok(())
    }

    /// The items, as a slice.
    pub fn as_slice(&self) -> &[T]
        ensures { result.now ≡ self.now }
    {
        self.items.as_slice()
    }
}

impl<T: Item> Items<T> {
    /// An equal list.
    pub fn copy(&self) -> Result<Items<T>, AllocError>
        ensures { IfOk result (λ t. t ≡ self.now) }
    {
        Ok(Items {
            items: copy_items(*self.items.allocator(), self.items.as_slice())?,
        })
    }

    /// Whether both have the same items in the same order.
    pub fn same(&self, other: &Items<T>) -> bool
        ensures { IsTrue result ↔ (self.now ≡ other.now) }
    {
        same_items(self.items.as_slice(), other.items.as_slice())
    }
}

impl<T: Item> Item for Items<T> {
    fn copy(&self) -> Result<Items<T>, AllocError> {
        Items::copy(self)
    }

    fn same(&self, other: &Items<T>) -> bool {
        Items::same(self, other)
    }
}

/// A copy of each item, in the same order.
pub fn copy_items<T: Item>(alloc: Global, items: &[T]) -> Result<Vec<T>, AllocError>
    ensures { IfOk result (λ v. v.items ≡ items.now) }
{
    let mut copies = Vec::with_capacity(alloc, items.len())?;
    for item in items {
        copies.push(item.copy()?)?;
    }
    Ok(copies)
}

/// Whether both slices have the same items in the same order.
pub fn same_items<T: Item>(left: &[T], right: &[T]) -> bool
    ensures { IsTrue result ↔ (left.now ≡ right.now) }
{
    if left.len() != right.len() {
        return false;
    }
    for (i, item) in left.iter().enumerate() {
        if !item.same(&right[i]) {
            return false;
        }
    }
    true
}

/// An equal value, where there is one.
pub fn copy_optional<T: Item>(value: &Option<T>) -> Result<Option<T>, AllocError>
    ensures { IfOk result (λ v. v ≡ value.now) }
{
    match value {
        Some(value) => Ok(Some(value.copy()?)),
        None => Ok(None),
    }
}

/// Whether both are equal, or neither is there.
pub fn same_optional<T: Item>(left: &Option<T>, right: &Option<T>) -> bool
    ensures { IsTrue result ↔ (left.now ≡ right.now) }
{
    match (left, right) {
        (Some(left), Some(right)) => left.same(right),
        (None, None) => true,
        _ => false,
    }
}
