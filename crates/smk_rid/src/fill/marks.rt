ghost use Rattle.std.specs.Prelude.{◌≡◌, ◌<◌, ◌≤◌, ◌↔◌, [], length, IfOk, IsTrue};
ghost use Rattle.smk_base.specs.Places.{empty_lists, list_at};
ghost use Rattle.smk_rid.specs.Maps.{with_rid_at};

use crate::hold::array::{NONE, RidArray};
use crate::map::{PAIR_LIMIT, RidMap};
use std::alloc::{AllocError, Global};
use std::marker::Model;

/// Lists of at most one rid, each empty until its rid is set. Contracts see the lists so far and their bound.
#[derive(Drop)]
pub struct RidMarks {
    rids: Vec<u32>,
    bound: u32,
    pairs: u32,
}

impl Model for RidMarks {
    ghost use Rattle.std.specs.Prelude.{◌≤◌, length, map};
    ghost use Rattle.smk_base.specs.Places.{Lists};
    ghost use Rattle.smk_rid.specs.{declared.map.TheConstants.PAIR_LIMIT, Grow.IsGrown, Packing.one_of};

    ghost Value = { Lists };

    ghost view = { λ a. record { lists = map one_of a.rids.items; bound = a.bound } };

    ghost invariant = { λ a. IsGrown (record { lists = map one_of a.rids.items; bound = a.bound }) a.pairs × (length a.rids.items ≤ PAIR_LIMIT) };
}

impl RidMarks {
    /// So many empty lists.
    pub fn new(alloc: Global, len: u32, bound: u32) -> Result<RidMarks, AllocError>
        requires { len ≤ PAIR_LIMIT }
        ensures { IfOk result (λ made. made ≡ empty_lists len bound) }
    {
        let rids = vec![in alloc; NONE; len as usize]?;
        Ok(RidMarks {
            rids,
            bound,
            pairs: 0,
        })
    }

    /// Whether a list has no rid yet.
    pub fn is_free(&self, i: u32) -> bool
        requires { i < length self.now.lists }
        ensures { IsTrue result ↔ (list_at self.now i ≡ []) }
    {
        self.rids[i as usize] == NONE
    }

    /// Sets the rid of a list that has none yet.
    pub fn set(&mut self, i: u32, rid: u32)
        requires place { i < length self.old.lists }
        requires below { rid < self.old.bound }
        requires free { list_at self.old i ≡ [] }
        ensures { self.new ≡ with_rid_at self.old i rid }
    {
        self.rids[i as usize] = rid;
        self.pairs += 1;
    }

    /// The lists as they are.
    pub fn done(self) -> RidMap
        ensures { result ≡ self }
    {
        RidMap::of_array(RidArray::of(self.rids), self.bound, self.pairs)
    }
}
