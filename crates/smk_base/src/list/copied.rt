ghost use Rattle.std.specs.Prelude.{◌≡◌, IfOk};

use crate::book::plan::{Agg, Item};
use crate::value::Value;
use std::alloc::{AllocError, Global};

/// A type whose values are copied into new memory, each copy equal to its original.
pub trait Copied: Sized + Drop {
    /// Copies of all the items, in order.
    fn copy_items(alloc: Global, items: &[Self]) -> Result<Vec<Self>, AllocError>
        ensures { IfOk result (λ copies. copies.items ≡ items.now) };
}

impl Copied for u8 {
    fn copy_items(alloc: Global, items: &[u8]) -> Result<Vec<u8>, AllocError> {
        Vec::from_slice(alloc, items)
    }
}

impl Copied for u32 {
    fn copy_items(alloc: Global, items: &[u32]) -> Result<Vec<u32>, AllocError> {
        Vec::from_slice(alloc, items)
    }
}

impl Copied for (u32, u32) {
    fn copy_items(alloc: Global, items: &[(u32, u32)]) -> Result<Vec<(u32, u32)>, AllocError> {
        Vec::from_slice(alloc, items)
    }
}

impl Copied for Item {
    fn copy_items(alloc: Global, items: &[Item]) -> Result<Vec<Item>, AllocError> {
        Vec::from_slice(alloc, items)
    }
}

impl Copied for Agg {
    fn copy_items(alloc: Global, items: &[Agg]) -> Result<Vec<Agg>, AllocError> {
        Vec::from_slice(alloc, items)
    }
}

impl Copied for Value {
    fn copy_items(alloc: Global, items: &[Value]) -> Result<Vec<Value>, AllocError> {
        let mut copies = Vec::with_capacity(alloc, items.len())?;
        for item in items {
            copies.push_reserved(item.copy(alloc)?);
        }
        Ok(copies)
    }
}
