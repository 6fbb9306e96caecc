ghost use Rattle.std.specs.{Prelude.{◌≡◌, ◌<◌, ◌≤◌, [], length, IfOk, OnOk, OnErr}, List.All};
ghost use Rattle.smk_base.specs.Places.{list_at, pairs_of};
ghost use Rattle.smk_rid.specs.Maps.{with_list, with_rid_at};

use crate::hold::packed::Packed;
use crate::hold::short::ShortRids;
use crate::map::{PAIR_LIMIT, RidMap};
use std::alloc::{AllocError, Global};
use std::marker::Model;

/// Lists of rids whose sizes aren't known yet. Contracts see the lists and their bound.
#[derive(Drop)]
pub struct RidGrow {
    lists: Vec<ShortRids>,
    bound: u32,
    pairs: u32,
}

impl Model for RidGrow {
    ghost use Rattle.smk_base.specs.Places.{Lists};
    ghost use Rattle.smk_rid.specs.Grow.{IsGrown};

    ghost Value = { Lists };

    ghost view = { λ a. record { lists = a.lists.items; bound = a.bound } };

    ghost invariant = { λ a. IsGrown (record { lists = a.lists.items; bound = a.bound }) a.pairs };
}

impl RidGrow {
    /// No list.
    pub fn new(alloc: Global, bound: u32) -> RidGrow
        ensures { result ≡ record { lists = []; bound = bound } }
    {
        RidGrow {
            lists: Vec::new(alloc),
            bound,
            pairs: 0,
        }
    }

    /// Appends an empty list.
    pub fn more(&mut self) -> Result<(), AllocError>
        requires { length self.old.lists < 4294967295 }
        ensures put { OnOk result (self.new ≡ with_list self.old []) }
        ensures kept { OnErr result (self.new ≡ self.old) }
    {
        let list = ShortRids::new(*self.lists.allocator());
        self.lists.push(list)?;
        Ok(())
    }

    /// Appends a rid to a list.
    pub fn add(&mut self, i: u32, rid: u32) -> Result<(), AllocError>
        requires place { i < length self.old.lists }
        requires below { rid < self.old.bound }
        requires above { All (λ r. r < rid) (list_at self.old i) }
        requires few { pairs_of self.old.lists < PAIR_LIMIT }
        ensures put { OnOk result (self.new ≡ with_rid_at self.old i rid) }
        ensures kept { OnErr result (self.new ≡ self.old) }
    {
        let list = &mut self.lists[i as usize];
        list.push(rid)?;
        self.pairs += 1;
        Ok(())
    }

    /// The lists, packed. On an error they are dropped.
    pub fn done(self, alloc: Global) -> Result<RidMap, AllocError>
        ensures { IfOk result (λ made. made ≡ self) }
    {
        let mut packed = Packed::with_room(alloc, self.lists.len(), self.pairs as usize)?;
        for list in &self.lists {
            packed.put(list.as_slice())?;
        }
        Ok(RidMap::of_packed(packed, self.bound))
    }
}
