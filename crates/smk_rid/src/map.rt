ghost use Rattle.std.specs.{Prelude.{◌≡◌, ◌<◌, ◌≤◌, ◌↔◌, [], ◌∷◌, ◌++◌, length, map, nat_lt, take, slice_index_or, IfOk, IfSome, IsTrue, OnOk, is_none, is_some, Option}, List.{All, concat, filter, flat_map}, Option.option_to_list};
ghost use Rattle.smk_base.specs.{Places.{IsPlaces, pairs_of, own_lists, empty_lists, list_at}, declared.rel.TheConstants.ROW_LIMIT};
ghost use Rattle.smk_rid.specs.Maps.{IsMap, IsSingle, array_lists};

use crate::hold::array::{NONE, RidArray};
use crate::hold::packed::Packed;
use smk_base::numbers_below;
use std::alloc::{AllocError, Global};
use std::marker::Model;

/// How many pairs of a row and a rid a RidMap may have.
pub const PAIR_LIMIT: u32 = 16_777_216;

/// For each row of one list the rids that it has in another, ascending without repeats and below a bound: at most 16,777,216 together. Lists of at most one rid each are a rid array, of one, two or four bytes a list, and of no memory if it was made of empty lists alone. Other lists are a rid index. Contracts see the lists and the bound.
#[derive(Drop)]
pub struct RidMap {
    storage: Storage,
    bound: u32,
    pairs: u32,
}

// A rid array where each list has at most one rid, else a rid index.
#[derive(Drop)]
enum Storage {
    Array(RidArray),
    Index(Packed),
}

impl Model for RidMap {
    ghost use Rattle.std.specs.Prelude.{◌≡◌};
    ghost use Rattle.smk_base.specs.Places.{Lists, pairs_of};
    ghost use Rattle.smk_rid.specs.{Maps.IsMap, Storage.{lists_of, IsStored}};

    ghost Value = { Lists };

    ghost view = { λ a. record { lists = lists_of a.storage; bound = a.bound } };

    ghost invariant = { λ a. IsStored a.storage a.bound a.pairs };
}

impl RidMap {
    /// One list for each of so many places, of that place alone.
    pub fn identity(alloc: Global, len: u32) -> Result<RidMap, AllocError>
        requires { len ≤ ROW_LIMIT }
        ensures { IfOk result (λ made. made ≡ own_lists len) }
    {
        let rids = numbers_below(alloc, len)?;
        Ok(RidMap::of_array(RidArray::of(rids), len, len))
    }

    /// So many empty lists.
    pub fn of_none(len: u32, bound: u32) -> RidMap
        ensures { result ≡ empty_lists len bound }
    {
        RidMap::of_array(RidArray::of_none(len as usize), bound, 0)
    }

    /// So many empty lists.
    pub fn empty(_alloc: Global, len: u32, bound: u32) -> Result<RidMap, AllocError>
        ensures { IfOk result (λ made. made ≡ empty_lists len bound) }
    {
        Ok(RidMap::of_none(len, bound))
    }

    /// One list for each of these, of its rid alone, or empty.
    pub fn from_array(alloc: Global, of: &[Option<u32>], bound: u32) -> Result<RidMap, AllocError>
        requires few { length of.now ≤ ROW_LIMIT }
        requires below { All (λ rid. IfSome rid (λ r. r < bound)) of.now }
        ensures { IfOk result (λ made. made ≡ array_lists of.now bound) }
    {
        let mut rids = Vec::with_capacity(alloc, of.len())?;
        let mut pairs = 0;
        for rid in of {
            match *rid {
                Some(r) => {
                    rids.push_reserved(r);
                    pairs += 1;
                }
                None => rids.push_reserved(NONE),
            }
        }
        Ok(RidMap::of_array(RidArray::of(rids), bound, pairs))
    }

    /// One list for each of these rids, of it alone, in their memory.
    pub fn of_rids(rids: Vec<u32>, bound: u32) -> RidMap
        requires few { length rids.items ≤ ROW_LIMIT }
        requires below { All (λ rid. rid < bound) rids.items }
        ensures { result ≡ record { lists = map (λ rid. rid ∷ []) rids.items; bound = bound } }
    {
        let pairs = rids.len() as u32;
        RidMap::of_array(RidArray::of(rids), bound, pairs)
    }

    /// How many lists there are.
    pub fn len(&self) -> u32
        ensures { result ≡ length self.now.lists }
    {
        match &self.storage {
            Storage::Array(lists) => lists.len() as u32,
            Storage::Index(lists) => lists.len() as u32,
        }
    }

    /// What each rid is below.
    pub fn bound(&self) -> u32
        ensures { result ≡ self.now.bound }
    {
        self.bound
    }

    /// How many rids all lists have together.
    pub fn pairs(&self) -> u32
        ensures counted { result ≡ pairs_of self.now.lists }
        ensures few { result ≤ PAIR_LIMIT }
        ensures keeps { IsMap self.now }
    {
        self.pairs
    }

    /// These lists, in less room if there is a way: those of at most one rid take one byte each at a bound of up to 255, and two at one of up to 65,535, if they are at least twice as many as the bound.
    pub fn narrowed(self, alloc: Global) -> Result<RidMap, AllocError>
        ensures { IfOk result (λ made. made ≡ self) }
    {
        let RidMap {
            storage,
            bound,
            pairs,
        } = self;
        match storage {
            Storage::Array(lists) => {
                let lists = lists.narrowed(alloc, bound)?;
                Ok(RidMap::of_array(lists, bound, pairs))
            }
            storage => Ok(RidMap {
                storage,
                bound,
                pairs,
            }),
        }
    }

    /// A copy.
    pub fn copy(&self, alloc: Global) -> Result<RidMap, AllocError>
        ensures { IfOk result (λ copy. copy ≡ self.now) }
    {
        let storage = match &self.storage {
            Storage::Array(lists) => Storage::Array(lists.copy(alloc)?),
            Storage::Index(lists) => Storage::Index(lists.copy(alloc)?),
        };
        Ok(RidMap {
            storage,
            bound: self.bound,
            pairs: self.pairs,
        })
    }

    /// The rids of a list.
    pub fn at(&self, i: u32) -> &[u32]
        requires { i < length self.now.lists }
        ensures rids { result.now ≡ slice_index_or self.now.lists i [] }
        ensures set { IsPlaces self.now.bound result.now }
        ensures below { All (λ rid. rid < self.now.bound) result.now }
    {
        self.storage.at(i as usize)
    }

    /// Appends the rids of the lists at these places, place by place. After an error the Vec is of no use.
    pub fn put_at(&self, rids: &mut Vec<u32>, places: &[u32]) -> Result<(), AllocError>
        requires { All (λ p. p < length self.now.lists) places.now }
        ensures { OnOk result (rids.new.items ≡ rids.old.items ++ flat_map (list_at self.now) places.now) }
    {
        rids.reserve(places.len())?;
        match &self.storage {
            Storage::Array(lists) => {
                lists.put_at(rids, places);
                Ok(())
            }
            Storage::Index(lists) => lists.put_at(rids, places),
        }
    }

    /// Those of these places whose lists aren't empty, in their order.
    pub fn kept_at(&self, alloc: Global, places: &[u32]) -> Result<Vec<u32>, AllocError>
        requires { All (λ p. p < length self.now.lists) places.now }
        ensures { IfOk result (λ kept. kept.items ≡ filter (λ p. nat_lt 0 (length (list_at self.now p))) places.now) }
    {
        let mut kept = Vec::with_capacity(alloc, places.len())?;
        match &self.storage {
            Storage::Array(lists) => lists.keep_at(&mut kept, places),
            Storage::Index(lists) => lists.keep_at(&mut kept, places),
        }
        Ok(kept)
    }

    /// How many rids the lists before i have. It is read off, except in an array with empty lists, where the rids before i are counted.
    pub fn start(&self, i: u32) -> u32
        requires { i ≤ length self.now.lists }
        ensures { result ≡ pairs_of (take i self.now.lists) }
    {
        match &self.storage {
            Storage::Array(lists) => {
                if self.pairs as usize == lists.len() {
                    lists.start_of_full(i)
                } else {
                    lists.start(i)
                }
            }
            Storage::Index(lists) => lists.start(i as usize),
        }
    }

    /// All lists one after the other; None if none has two rids or more.
    pub fn packed(&self) -> Option<&[u32]>
        ensures none { IsTrue (is_none result) ↔ IsSingle self.now.lists }
        ensures all { IfSome result (λ rids. rids.now ≡ concat self.now.lists) }
    {
        match &self.storage {
            Storage::Array(_) => None,
            Storage::Index(lists) => Some(lists.all()),
        }
    }

    // The array that it is, where each list has at most one rid.
    pub(crate) fn array(&self) -> Option<&RidArray>
        ensures lists { IfSome result (λ a. a.now ≡ self.now.lists) }
        ensures single { IfSome result (λ a. IsSingle a.now) }
        ensures chosen { IsSingle self.now.lists → IsTrue (is_some result) }
    {
        match &self.storage {
            Storage::Array(lists) => Some(lists),
            Storage::Index(_) => None,
        }
    }

    // The map that has these lists.
    pub(crate) fn of_array(lists: RidArray, bound: u32, pairs: u32) -> RidMap
        requires map { IsMap (record { lists = lists; bound = bound }) }
        requires single { IsSingle lists }
        requires pairs { pairs ≡ pairs_of lists }
        ensures { result ≡ record { lists = lists; bound = bound } }
    {
        RidMap {
            storage: Storage::Array(lists),
            bound,
            pairs,
        }
    }

    // The map that has these lists, as an array where each has at most one rid.
    pub(crate) fn of_packed(lists: Packed, bound: u32) -> RidMap
        requires { IsMap (record { lists = lists; bound = bound }) }
        ensures { result ≡ record { lists = lists; bound = bound } }
    {
        let pairs = lists.pairs();
        if lists.is_single() {
            return RidMap::of_array(lists.into_array(), bound, pairs);
        }
        RidMap {
            storage: Storage::Index(lists),
            bound,
            pairs,
        }
    }
}

impl Storage {
    ghost use Rattle.smk_rid.specs.Storage.{lists_of};

    // The rids of a list.
    fn at(&self, i: usize) -> &[u32]
        requires { i < length (lists_of self.now) }
        ensures { result.now ≡ slice_index_or (lists_of self.now) i [] }
    {
        match self {
            Storage::Array(lists) => lists.at(i),
            Storage::Index(lists) => lists.at(i),
        }
    }
}
