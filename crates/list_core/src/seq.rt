//! A growing list.
ghost use Rattle.std.specs.Prelude.{◌≡◌, ◌↔◌, [], ◌∷◌, ◌++◌, length, IfOk, IfErr, IsTrue, OnOk, OnErr};

use crate::duplicate::Duplicate;
use std::alloc::{AllocError, AllocFailed, Global};
use std::marker::Model;

/// A growing list. A contract sees the list of its items, and neither room nor place in memory.
#[derive(Debug, Drop)]
pub struct Seq<T> {
    items: Vec<T>,
}

impl<T> Model for Seq<T> {
    ghost use Rattle.std.specs.Prelude.{List};
    ghost use Rattle.std.specs.Coded.{coded_list};

    ghost Value = { List T };

    ghost coded = { coded_list T.code };

    ghost view = { λ s. s.items.items };
}

impl<T> Seq<T> {
    /// An empty list, which grows by that allocator.
    pub fn new(alloc: Global) -> Self
        ensures { result ≡ [] }
    {
        Seq {
            items: Vec::new(alloc),
        }
    }

    /// The items of a vector, without taking memory.
    pub fn of(items: Vec<T>) -> Self
        ensures { result ≡ items.items }
    {
        Seq { items }
    }

    /// The items as a vector, without taking memory.
    pub fn into_vec(self) -> Vec<T>
        ensures { result.items ≡ self }
    {
        let Seq { items } = self;
        items
    }

    pub fn as_slice(&self) -> &[T]
        ensures { result.now ≡ self.now }
    {
        self.items.as_slice()
    }

    /// The number of items.
    pub fn len(&self) -> usize
        ensures { result ≡ length self.now }
    {
        self.items.len()
    }

    pub fn is_empty(&self) -> bool
        ensures { IsTrue result ↔ (self.now ≡ []) }
    {
        self.items.is_empty()
    }

    /// Appends an item. Without memory nothing is changed, and the item comes back.
    pub fn push(&mut self, item: T) -> Result<(), AllocFailed<T>>
        ensures ok { OnOk result (self.new ≡ self.old ++ item ∷ []) }
        ensures err { OnErr result (self.new ≡ self.old) }
        ensures value_returned { IfErr result (λ failed. failed.value ≡ item) }
    {
        self.items.push(item)
    }
}

impl<T: Duplicate> Seq<T> {
    /// A list of items that equal those of a slice.
    pub fn duplicate_of(alloc: Global, items: &[T]) -> Result<Seq<T>, AllocError>
        ensures { IfOk result (λ list. list ≡ items.now) }
    {
        let mut copies = Vec::with_capacity(alloc, items.len())?;
        for item in items {
            copies.push(item.duplicate(alloc)?)?;
        }
        Ok(Seq { items: copies })
    }
}

impl<T: Duplicate> Duplicate for Seq<T> {
    fn duplicate(&self, alloc: Global) -> Result<Seq<T>, AllocError> {
        Seq::duplicate_of(alloc, self.as_slice())
    }
}
