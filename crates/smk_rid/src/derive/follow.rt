ghost use Rattle.std.specs.{Prelude.{◌≡◌, ◌+◌, ◌<◌, ◌≤◌, ◌++◌, length, map, IfOk, OnOk}, List.All};
ghost use Rattle.smk_base.specs.Places.{pairs_of, followed};
ghost use Rattle.smk_rid.specs.Packing.{one_of};

use crate::hold::array::{NONE, RidArray};
use crate::hold::packed::Packed;
use crate::map::{PAIR_LIMIT, RidMap};
use std::alloc::{AllocError, Global};

impl RidMap {
    /// These lists, followed by those of the other, whose rids are moved up by this bound.
    pub fn followed_by(&self, alloc: Global, other: &RidMap) -> Result<RidMap, AllocError>
        requires lists { length self.now.lists + length other.now.lists < 4294967296 }
        requires bound { self.now.bound + other.now.bound < 4294967296 }
        requires few { pairs_of self.now.lists + pairs_of other.now.lists ≤ PAIR_LIMIT }
        ensures { IfOk result (λ made. made ≡ followed self.now other.now) }
    {
        let pairs = self.pairs() + other.pairs();
        let by = self.bound();
        let bound = by + other.bound();
        match (self.array(), other.array()) {
            (Some(first), Some(second)) => {
                let lists = followed_arrays(alloc, first, second, by)?;
                Ok(RidMap::of_array(lists, bound, pairs))
            }
            _ => {
                let lists = followed_lists(alloc, self, other, pairs)?;
                Ok(RidMap::of_packed(lists, bound))
            }
        }
    }
}

// The lists of an array, and after them those of another with their rids moved.
fn followed_arrays(
    alloc: Global,
    first: &RidArray,
    second: &RidArray,
    by: u32,
) -> Result<RidArray, AllocError>
    requires few { length first.now + length second.now < 4294967296 }
    requires below { All (All (λ rid. by + rid < NONE)) second.now }
    ensures { IfOk result (λ made. made ≡ first.now ++ map (map (λ i. by + i)) second.now) }
{
    let mut rids = Vec::with_capacity(alloc, first.len() + second.len())?;
    first.put_numbers(&mut rids)?;
    for i in 0..second.len() {
        rids.push_reserved(moved(second.number(i), by));
    }
    Ok(RidArray::of(rids))
}

// The number that stands for the list of a number's rid, moved.
fn moved(number: u32, by: u32) -> u32
    requires { All (λ rid. by + rid < NONE) (one_of number) }
    ensures { one_of result ≡ map (λ i. by + i) (one_of number) }
{
    if number == NONE { NONE } else { by + number }
}

// The lists of a map, and after them those of another with their rids moved, packed.
fn followed_lists(
    alloc: Global,
    first: &RidMap,
    second: &RidMap,
    pairs: u32,
) -> Result<Packed, AllocError>
    requires lists { length first.now.lists + length second.now.lists < 4294967296 }
    requires bound { first.now.bound + second.now.bound < 4294967296 }
    requires few { pairs_of first.now.lists + pairs_of second.now.lists ≤ PAIR_LIMIT }
    ensures { IfOk result (λ made. made ≡ first.now.lists ++ map (map (λ i. first.now.bound + i)) second.now.lists) }
{
    let lists = first.len() as usize + second.len() as usize;
    let mut made = Packed::with_room(alloc, lists, pairs as usize)?;
    put_lists_of(&mut made, first)?;
    put_moved_lists(&mut made, second, first.bound())?;
    Ok(made)
}

// Appends the lists of a map.
fn put_lists_of(made: &mut Packed, map: &RidMap) -> Result<(), AllocError>
    requires few { pairs_of made.old + pairs_of map.now.lists ≤ PAIR_LIMIT }
    ensures { OnOk result (made.new ≡ made.old ++ map.now.lists) }
{
    for i in 0..map.len() {
        made.put(map.at(i))?;
    }
    Ok(())
}

// Appends the lists of a map, their rids moved.
fn put_moved_lists(made: &mut Packed, of: &RidMap, by: u32) -> Result<(), AllocError>
    requires bound { by + of.now.bound < 4294967296 }
    requires few { pairs_of made.old + pairs_of of.now.lists ≤ PAIR_LIMIT }
    ensures { OnOk result (made.new ≡ made.old ++ map (map (λ i. by + i)) of.now.lists) }
{
    for i in 0..of.len() {
        made.put_moved(of.at(i), by)?;
    }
    Ok(())
}
