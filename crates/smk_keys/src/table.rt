ghost use Rattle.std.specs.Prelude.{◌≡◌, ◌<◌, ◌≤◌, ◌*◌, [], length, IfOk, OnOk, OnErr, slice_index_or};
ghost use Rattle.smk_base.specs.declared.rel.TheConstants.{ROW_LIMIT};
ghost use Rattle.smk_keys.specs.Keys.{AreKeys, place_of, place_or_last, with_key};

use indexmap::IndexSet;
use smk_base::{ListOf, Row, Seeded, Value};
use std::alloc::{AllocError, Global};
use std::marker::Model;

/// Distinct keys, each at the place of its first occurrence. Contracts see the list of them.
#[derive(Drop)]
pub struct KeyTable {
    keys: IndexSet<ListOf<Value>, Seeded>,
}

impl Model for KeyTable {
    ghost use Rattle.std.specs.Prelude.{List, length, ◌≤◌, ◌*◌};
    ghost use Rattle.smk_base.specs.{declared.rel.TheConstants.ROW_LIMIT, declared.value.Value.Value as Cell};
    ghost use Rattle.smk_keys.specs.Keys.{AreKeys};

    ghost Value = { List (List Cell) };

    ghost view = { λ a. a.keys.keys };

    ghost invariant = { λ a. AreKeys a.keys.keys × (length a.keys.keys ≤ 2 * ROW_LIMIT) };
}

impl KeyTable {
    /// No key. It takes no memory.
    pub fn new(alloc: Global) -> KeyTable
        ensures { result ≡ [] }
    {
        KeyTable::seeded(alloc, 0)
    }

    /// No key; more are found by the hashes of a seed. It takes no memory.
    pub fn seeded(alloc: Global, seed: u64) -> KeyTable
        ensures { result ≡ [] }
    {
        KeyTable {
            keys: IndexSet::with_hasher(alloc, Seeded::new(seed)),
        }
    }

    /// How many keys there are.
    pub fn len(&self) -> u32
        ensures count { result ≡ length self.now }
        ensures distinct { AreKeys self.now }
    {
        self.keys.len() as u32
    }

    /// The key at a place.
    pub fn key(&self, i: u32) -> &Row
        requires { i < length self.now }
        ensures { result.now ≡ slice_index_or self.now i [] }
    {
        match self.keys.get_index(i as usize) {
            Some(key) => key,
            None => unreachable!(),
        }
    }

    /// The place of a key, None exactly if it isn't there.
    pub fn find(&self, key: &Row) -> Option<u32>
        ensures { result ≡ place_of self.now key.now }
    {
        match self.keys.get_index_of(key) {
            Some(place) => Some(place as u32),
            None => None,
        }
    }

    /// The place of a key, which is added at the end if it isn't there. After an error the table is as before.
    pub fn find_or_add(&mut self, key: Row) -> Result<u32, AllocError>
        requires { length self.old < 2 * ROW_LIMIT }
        ensures place { IfOk result (λ place. place ≡ place_or_last self.old key) }
        ensures keys { OnOk result (self.new ≡ with_key self.old key) }
        ensures kept { OnErr result (self.new ≡ self.old) }
    {
        let (place, _) = self.keys.insert_full(key)?;
        Ok(place as u32)
    }
}
