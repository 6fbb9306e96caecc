ghost use Rattle.std.specs.{Prelude.{◌≡◌, ◌<◌, ◌∷◌, ◌++◌, [], false, List, length, map, position, IfSome, OnOk, OnErr}, List.list_any};

use indexmap::IndexSet;
use smk_base::ListOf;
use std::alloc::{AllocError, Global};
use std::hash::Hash;
use std::marker::Model;

/// What is declared under a key.
pub trait Keyed {
    type Key: Eq + Hash + Drop;

    ghost key_of: { Self → Self.Key };

    /// What a book keeps of all that is declared.
    ghost kept: { List Self → Type 0 } = { λ _. Unit {0} };
}

/// A list in the order of declaration. The keys of its members are in a hashed set beside it, so that no look-up goes over the list. Contracts see the list.
#[derive(Drop)]
pub struct Indexed<T: Keyed> {
    list: Vec<T>,
    keys: IndexSet<T::Key>,
}

impl<T: Keyed> Model for Indexed<T> {
    ghost Value = { List T };

    ghost view = { λ a. a.list.items };

    ghost invariant = { λ a. (a.keys.keys ≡ map T.key_of a.list.items) × T.kept a.list.items };
}

impl<T: Keyed> Indexed<T> {
    /// The empty list. It takes no memory.
    pub fn new(alloc: Global) -> Indexed<T>
        requires { T.kept [] }
        ensures { result ≡ [] }
    {
        Indexed {
            list: Vec::new(alloc),
            keys: IndexSet::new(alloc),
        }
    }

    /// Whether a member has this key.
    pub fn has(&self, key: &T::Key) -> bool
        ensures has { result ≡ list_any (T.Key.eq key.now) (map T.key_of self.now) }
        ensures kept { T.kept self.now }
    {
        self.keys.contains(key)
    }

    /// The place of the member with this key.
    pub fn place_of(&self, key: &T::Key) -> Option<usize>
        ensures place { result ≡ position (T.Key.eq key.now) (map T.key_of self.now) }
        ensures within { IfSome result (λ place. place < length self.now) }
        ensures kept { T.kept self.now }
    {
        self.keys.get_index_of(key)
    }

    /// The members.
    pub fn as_slice(&self) -> &[T]
        ensures members { result.now ≡ self.now }
        ensures kept { T.kept self.now }
    {
        self.list.as_slice()
    }

    /// The list alone.
    pub fn into_list(self) -> ListOf<T>
        ensures members { result ≡ self }
        ensures kept { T.kept self }
    {
        let Indexed { list, keys: _ } = self;
        ListOf::from_vec(list)
    }
}

impl<T: Keyed + Drop> Indexed<T> {
    /// Appends a member whose key is new. On an error the list is as it was.
    pub fn push(&mut self, key: T::Key, member: T) -> Result<(), AllocError>
        requires own { key ≡ T.key_of member }
        requires fresh { list_any (T.Key.eq key) (map T.key_of self.old) ≡ false }
        requires kept { T.kept (self.old ++ member ∷ []) }
        ensures put { OnOk result (self.new ≡ self.old ++ member ∷ []) }
        ensures same { OnErr result (self.new ≡ self.old) }
    {
        self.list.reserve(1)?;
        self.keys.insert(key)?;
        self.list.push_reserved(member);
        Ok(())
    }
}
