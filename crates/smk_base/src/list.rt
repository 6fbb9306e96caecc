ghost use Rattle.std.specs.Prelude.{◌≡◌, [], ◌∷◌, ◌++◌, IfOk, OnOk, OnErr};

pub(crate) mod copied;
pub(crate) mod picks;
pub(crate) mod table_rids;

use crate::list::copied::Copied;
use crate::value::Value;
use std::alloc::{AllocError, Global};
use std::hash::{Hash, Hasher};
use std::marker::Model;

/// Values in order. Contracts see the list of them.
#[derive(Drop)]
pub struct ListOf<T> {
    items: Vec<T>,
}

/// Bytes: a name, a field or a line. Nothing says that they are UTF-8.
pub type Text = ListOf<u8>;

/// The values of one row, by column.
pub type Row = ListOf<Value>;

/// Row ids: places of rows in a table or a view, from 0.
pub type Rids = ListOf<u32>;

/// Names, as those of views.
pub type Names = ListOf<Text>;

impl<T> Model for ListOf<T> {
    ghost use Rattle.std.specs.Prelude.{List};

    ghost Value = { List T };

    ghost view = { λ a. a.items.items };
}

impl<T> ListOf<T> {
    /// The empty list. It takes no memory.
    pub fn new(alloc: Global) -> ListOf<T>
        ensures { result ≡ [] }
    {
        ListOf {
            items: Vec::new(alloc),
        }
    }

    /// The list of a vector's items.
    pub fn from_vec(items: Vec<T>) -> ListOf<T>
        ensures { result ≡ items.items }
    {
        ListOf { items }
    }

    /// The vector of the members.
    pub fn into_vec(self) -> Vec<T>
        ensures { result.items ≡ self }
    {
        let ListOf { items } = self;
        items
    }

    /// The members.
    pub fn as_slice(&self) -> &[T]
        ensures { result.now ≡ self.now }
    {
        self.items.as_slice()
    }
}

impl<T: Drop> ListOf<T> {
    /// Puts the item last. On an error the item is dropped.
    pub fn push(&mut self, item: T) -> Result<(), AllocError>
        ensures pushed { OnOk result (self.new ≡ self.old ++ item ∷ []) }
        ensures kept { OnErr result (self.new ≡ self.old) }
    {
        self.items.push(item)?;
        Ok(())
    }

    /// Drops the members and keeps the memory.
    pub fn clear(&mut self)
        ensures { self.new ≡ [] }
    {
        self.items.clear();
    }
}

impl<T: Copied> ListOf<T> {
    /// A copy that is equal to its original.
    pub fn copy(&self, alloc: Global) -> Result<ListOf<T>, AllocError>
        ensures { IfOk result (λ copy. copy ≡ self.now) }
    {
        let items = T::copy_items(alloc, self.items.as_slice())?;
        Ok(ListOf { items })
    }
}

impl<T: PartialEq> PartialEq for ListOf<T> {
    ghost use Rattle.std.specs.{Cmp.Lexicographic.pointwise, Cmp.Rules.comparing};
    ghost use Rattle.std.proofs.Common.{rules};

    ghost eq = { pointwise T.eq };

    ghost laws = { Prim.search (comparing, rules) };

    fn eq(&self, other: &ListOf<T>) -> bool {
        self.items.as_slice() == other.items.as_slice()
    }
}

impl<T: Eq> Eq for ListOf<T> {
    ghost use Rattle.std.specs.Cmp.Rules.{comparing};
    ghost use Rattle.std.proofs.Common.{rules};

    ghost laws = { Prim.search (comparing, rules) };
}

impl<T: Hash> Hash for ListOf<T> {
    ghost use Rattle.std.specs.Hash as fed;
    ghost use Rattle.std.specs.Hash.{items_Alike};

    ghost hash_input = { fed.slice T.hash_input };

    ghost respects_eq = { (items_Alike (record { fed = T.respects_eq })).fed };

    fn hash<H: Hasher>(&self, state: &mut H) {
        self.items.as_slice().hash(state);
    }
}
