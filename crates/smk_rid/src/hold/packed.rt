ghost use Rattle.std.specs.{Prelude.{◌≡◌, ◌<◌, ◌≤◌, ◌+◌, ◌↔◌, [], ◌∷◌, ◌++◌, length, map, take, slice_index_or, IfOk, IfErr, OnOk, IsTrue, nat_lt, if◌then◌else◌, slice_index, slice_range, vec_len, vec_capacity}, List.{All, concat, filter, flat_map}};
ghost use Rattle.smk_base.specs.Places.{pairs_of};
ghost use Rattle.smk_rid.specs.{Maps.IsSingle, declared.fault.RidFault.TheVariants.Pairs};

use crate::fault::RidFault;
use crate::hold::array::{NONE, RidArray};
use crate::map::PAIR_LIMIT;
use std::alloc::{AllocError, Global};
use std::marker::Model;

/// Lists one after the other, with an array of their offsets. Contracts see the lists.
#[derive(Drop)]
pub struct Packed {
    starts: Vec<u32>,
    rids: Vec<u32>,
}

impl Model for Packed {
    ghost use Rattle.std.specs.Prelude.{List, ℕ};
    ghost use Rattle.smk_rid.specs.Packing.{cut, IsPacking};

    ghost Value = { List (List ℕ) };

    ghost view = { λ a. cut a.starts.items a.rids.items };

    ghost invariant = { λ a. IsPacking a.starts.items a.rids.items (cut a.starts.items a.rids.items) };
}

impl Packed {
    ghost use Rattle.smk_rid.specs.Packing.{cut, IsPacking};

    /// No list, with memory for so many lists of so many rids together.
    pub fn with_room(alloc: Global, lists: usize, rids: usize) -> Result<Packed, AllocError>
        requires { lists < 4294967296 }
        ensures { IfOk result (λ made. made ≡ []) }
    {
        let mut starts = Vec::with_capacity(alloc, lists + 1)?;
        starts.push_reserved(0);
        let rids = Vec::with_capacity(alloc, rids)?;
        Ok(Packed { starts, rids })
    }

    /// The lists that these offsets cut out of these rids.
    pub fn of_parts(starts: Vec<u32>, rids: Vec<u32>) -> Packed
        requires { IsPacking starts.items rids.items (cut starts.items rids.items) }
        ensures { result ≡ cut starts.items rids.items }
    {
        Packed { starts, rids }
    }

    /// A copy.
    pub fn copy(&self, alloc: Global) -> Result<Packed, AllocError>
        ensures { IfOk result (λ copy. copy ≡ self.now) }
    {
        let starts = Vec::from_slice(alloc, self.starts.as_slice())?;
        let rids = Vec::from_slice(alloc, self.rids.as_slice())?;
        Ok(Packed { starts, rids })
    }

    /// How many lists there are.
    pub fn len(&self) -> usize
        ensures { result ≡ length self.now }
    {
        self.starts.len() - 1
    }

    /// How many rids all lists have together.
    pub fn pairs(&self) -> u32
        ensures counted { result ≡ pairs_of self.now }
        ensures few { result ≤ PAIR_LIMIT }
    {
        self.rids.len() as u32
    }

    /// The rids of a list.
    pub fn at(&self, i: usize) -> &[u32]
        requires { i < length self.now }
        ensures { result.now ≡ slice_index_or self.now i [] }
    {
        between(self.rids.as_slice(), self.starts[i], self.starts[i + 1])
    }

    /// Appends the rids of the lists at these places.
    pub fn put_at(&self, rids: &mut Vec<u32>, places: &[u32]) -> Result<(), AllocError>
        requires { All (λ p. p < length self.now) places.now }
        ensures { OnOk result (rids.new.items ≡ rids.old.items ++ flat_map (λ p. slice_index_or self.now p []) places.now) }
    {
        for p in places {
            rids.extend_from_slice(self.at(*p as usize))?;
        }
        Ok(())
    }

    /// Appends those of these places whose lists aren't empty. There is room for them.
    pub fn keep_at(&self, kept: &mut Vec<u32>, places: &[u32])
        requires within { All (λ p. p < length self.now) places.now }
        requires room { vec_len kept.old + length places.now ≤ vec_capacity kept.old }
        ensures { kept.new.items ≡ kept.old.items ++ filter (λ p. nat_lt 0 (length (slice_index_or self.now p []))) places.now }
    {
        for p in places {
            if self.at(*p as usize).len() > 0 {
                kept.push_reserved(*p);
            }
        }
    }

    /// How many rids the lists before i have.
    pub fn start(&self, i: usize) -> u32
        requires { i ≤ length self.now }
        ensures { result ≡ pairs_of (take i self.now) }
    {
        self.starts[i]
    }

    /// All lists one after the other.
    pub fn all(&self) -> &[u32]
        ensures { result.now ≡ concat self.now }
    {
        self.rids.as_slice()
    }

    /// Appends one list.
    pub fn put(&mut self, list: &[u32]) -> Result<(), AllocError>
        requires { pairs_of self.old + length list.now ≤ PAIR_LIMIT }
        ensures put { IfOk result (λ _. self.new ≡ self.old ++ list.now ∷ []) }
    {
        self.starts.reserve(1)?;
        self.rids.extend_from_slice(list)?;
        let end = self.rids.len() as u32;
        self.starts.push_reserved(end);
        Ok(())
    }

    /// Appends one list, its rids moved up by a number.
    pub fn put_moved(&mut self, list: &[u32], by: u32) -> Result<(), AllocError>
        requires few { pairs_of self.old + length list.now ≤ PAIR_LIMIT }
        requires below { All (λ rid. by + rid < 4294967296) list.now }
        ensures put { IfOk result (λ _. self.new ≡ self.old ++ map (λ i. by + i) list.now ∷ []) }
    {
        self.starts.reserve(1)?;
        self.rids.reserve(list.len())?;
        push_moved(&mut self.rids, list, by);
        let end = self.rids.len() as u32;
        self.starts.push_reserved(end);
        Ok(())
    }

    /// Appends one list, unless there are too many pairs then.
    pub fn put_within(&mut self, list: &[u32]) -> Result<(), RidFault>
        ensures put { OnOk result (self.new ≡ self.old ++ list.now ∷ []) }
        ensures few { OnOk result (pairs_of self.old + length list.now ≤ PAIR_LIMIT) }
        ensures many { IfErr result (λ e. e ≡ Pairs → PAIR_LIMIT < pairs_of self.old + length list.now) }
    {
        if list.len() > (PAIR_LIMIT - self.pairs()) as usize {
            return Err(RidFault::Pairs);
        }
        self.put(list)?;
        Ok(())
    }

    /// Whether each list has at most one rid.
    pub fn is_single(&self) -> bool
        ensures { IsTrue result ↔ IsSingle self.now }
    {
        for i in 0..self.starts.len() - 1 {
            if self.starts[i + 1] - self.starts[i] > 1 {
                return false;
            }
        }
        true
    }

    /// These lists as an array, in the memory of the offsets.
    pub fn into_array(self) -> RidArray
        requires single { IsSingle self }
        requires below { All (All (λ rid. rid < NONE)) self }
        ensures { result ≡ self }
    {
        let Packed { mut starts, rids } = self;
        for i in 0..starts.len() - 1 {
            starts[i] = first_between(rids.as_slice(), starts[i], starts[i + 1]);
        }
        let _ = starts.pop();
        RidArray::of(starts)
    }
}

// Appends these rids, moved up by a number. There is room for them.
fn push_moved(rids: &mut Vec<u32>, list: &[u32], by: u32)
    requires room { vec_len rids.old + length list.now ≤ vec_capacity rids.old }
    requires below { All (λ rid. by + rid < 4294967296) list.now }
    ensures { rids.new.items ≡ rids.old.items ++ map (λ i. by + i) list.now }
{
    for rid in list {
        rids.push_reserved(by + *rid);
    }
}

// The rids between two offsets.
fn between(rids: &[u32], from: u32, end: u32) -> &[u32]
    requires ordered { from ≤ end }
    requires within { end ≤ length rids.now }
    ensures { result.now ≡ slice_range rids.now from end }
{
    &rids[from as usize..end as usize]
}

// The rid at the first of two offsets, or none where they are equal.
fn first_between(rids: &[u32], from: u32, end: u32) -> u32
    requires { end ≤ length rids.now }
    ensures { result ≡ (if nat_lt from end then slice_index rids.now from else NONE) }
{
    if from < end {
        rids[from as usize]
    } else {
        NONE
    }
}
