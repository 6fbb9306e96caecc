ghost use Rattle.std.specs.{Prelude.{◌≡◌, ◌<◌, ◌≤◌, ◌+◌, ◌∷◌, ◌++◌, [], length, slice_index_or, IfOk, IfErr, OnOk}, List.{All, flat_map}};
ghost use Rattle.smk_base.specs.Places.{IsPlaces, composed, members_at, pairs_of, upto};
ghost use Rattle.smk_rid.specs.{Maps.{IsMap, IsSingle}, Packing.one_of, declared.fault.RidFault.TheVariants.Pairs};

use crate::derive::distinct::{count_at, is_dense, make_set, marked_at, set_of};
use crate::fault::RidFault;
use crate::hold::array::{NONE, RidArray};
use crate::hold::packed::Packed;
use crate::map::{PAIR_LIMIT, RidMap};
use smk_base::Rids;
use std::alloc::{AllocError, Global};

impl RidMap {
    /// The rids of the lists at these places, ascending without repeats.
    pub fn join_up(&self, alloc: Global, places: &[u32]) -> Result<Rids, AllocError>
        requires { All (λ p. p < length self.now.lists) places.now }
        ensures rids { IfOk result (λ rids. rids ≡ members_at self.now places.now) }
        ensures set { IfOk result (λ rids. IsPlaces self.now.bound rids) }
    {
        let rids = joined(alloc, self, places)?;
        Ok(Rids::from_vec(rids))
    }

    /// The rids of all lists, ascending without repeats.
    pub fn join_all(&self, alloc: Global) -> Result<Rids, AllocError>
        ensures rids { IfOk result (λ rids. rids ≡ members_at self.now (upto (length self.now.lists))) }
        ensures set { IfOk result (λ rids. IsPlaces self.now.bound rids) }
    {
        let rids = joined_all(alloc, self)?;
        Ok(Rids::from_vec(rids))
    }

    /// For each list the rids of the lists of `next` at its places. Pairs comes as soon as the rids so far are too many.
    pub fn compose(&self, alloc: Global, next: &RidMap) -> Result<RidMap, RidFault>
        requires { self.now.bound ≤ length next.now.lists }
        ensures made { IfOk result (λ made. made ≡ composed self.now next.now) }
        ensures few { IfOk result (λ _. pairs_of (composed self.now next.now).lists ≤ PAIR_LIMIT) }
        ensures many { IfErr result (λ e. e ≡ Pairs → PAIR_LIMIT < pairs_of (composed self.now next.now).lists) }
    {
        let _pairs = self.pairs();
        let _sets = next.pairs();
        match (self.array(), next.array()) {
            (Some(first), Some(second)) => {
                Ok(composed_arrays(alloc, first, second, next.bound())?)
            }
            _ => composed_lists(alloc, self, next),
        }
    }
}

// For each list of an array the list of another at its rid. Each number is looked up once, and no list is packed.
fn composed_arrays(
    alloc: Global,
    first: &RidArray,
    second: &RidArray,
    bound: u32,
) -> Result<RidMap, AllocError>
    requires map { IsMap (record { lists = first.now; bound = length second.now }) }
    requires single { IsSingle first.now }
    requires sets { All (IsPlaces bound) second.now }
    ensures made { IfOk result (λ made. made ≡ composed (record { lists = first.now; bound = length second.now }) (record { lists = second.now; bound = bound })) }
    ensures few { IfOk result (λ made. pairs_of made.lists ≤ PAIR_LIMIT) }
{
    let mut rids = Vec::with_capacity(alloc, first.len())?;
    let mut pairs = 0;
    for i in 0..first.len() {
        let rid = number_through(second, first.number(i));
        rids.push_reserved(rid);
        pairs += u32::from(rid != NONE);
    }
    Ok(RidMap::of_array(RidArray::of(rids), bound, pairs))
}

// What stands for the list at the place that a number stands for, none where it stands for none.
fn number_through(lists: &RidArray, place: u32) -> u32
    requires { All (λ p. p < length lists.now) (one_of place) }
    ensures list { one_of result ≡ flat_map (λ p. slice_index_or lists.now p []) (one_of place) }
    ensures fewer { length (one_of result) ≤ length (one_of place) }
{
    if place == NONE {
        NONE
    } else {
        lists.number(place as usize)
    }
}

// For each list of a map the rids of the lists of another at its places, packed one after the other.
fn composed_lists(alloc: Global, first: &RidMap, second: &RidMap) -> Result<RidMap, RidFault>
    requires { first.now.bound ≤ length second.now.lists }
    ensures made { IfOk result (λ made. made ≡ composed first.now second.now) }
    ensures few { IfOk result (λ _. pairs_of (composed first.now second.now).lists ≤ PAIR_LIMIT) }
    ensures many { IfErr result (λ e. e ≡ Pairs → PAIR_LIMIT < pairs_of (composed first.now second.now).lists) }
{
    let room = room_for(first, second);
    let mut made = Packed::with_room(alloc, first.len() as usize, room)?;
    let mut rids = Vec::new(alloc);
    for i in 0..first.len() {
        put_members(alloc, &mut made, &mut rids, second, first.at(i))?;
    }
    Ok(RidMap::of_packed(made, second.bound()))
}

// How many rids the lists of a composed map may have together, where that is known without a look at the lists.
fn room_for(first: &RidMap, second: &RidMap) -> usize {
    if second.packed().is_some() {
        return 0;
    }
    let most = first.len() as usize * second.bound() as usize;
    most.min(first.pairs() as usize)
}

// The rids of the lists at these places, ascending without repeats: marked where they are many, so that no list is copied, else gathered.
fn joined(alloc: Global, map: &RidMap, places: &[u32]) -> Result<Vec<u32>, AllocError>
    requires { All (λ p. p < length map.now.lists) places.now }
    ensures { IfOk result (λ rids. rids.items ≡ members_at map.now places.now) }
{
    let count = count_at(map, places);
    if places.len() > 1 && is_dense(count, map.bound()) {
        return marked_at(alloc, map, places, count);
    }
    let mut rids = Vec::with_capacity(alloc, count as usize)?;
    gather(alloc, &mut rids, map, places)?;
    Ok(rids)
}

// The rids of all lists, ascending without repeats.
fn joined_all(alloc: Global, map: &RidMap) -> Result<Vec<u32>, AllocError>
    ensures { IfOk result (λ rids. rids.items ≡ members_at map.now (upto (length map.now.lists))) }
{
    // Its clauses say that each list is a set of rids below the bound, and that they are few.
    let _pairs = map.pairs();
    match (map.array(), map.packed()) {
        (Some(lists), _) => set_of_numbers(alloc, lists, map.bound()),
        (None, Some(all)) => set_of(alloc, all, map.bound()),
        (None, None) => unreachable!(),
    }
}

// Appends the rids of the lists at these places, as one list, unless there are too many pairs then. The memory of `rids` is used again for each list that is made of several.
fn put_members(
    alloc: Global,
    made: &mut Packed,
    rids: &mut Vec<u32>,
    map: &RidMap,
    places: &[u32],
) -> Result<(), RidFault>
    requires { All (λ p. p < length map.now.lists) places.now }
    ensures put { OnOk result (made.new ≡ made.old ++ members_at map.now places.now ∷ []) }
    ensures few { OnOk result (pairs_of made.old + length (members_at map.now places.now) ≤ PAIR_LIMIT) }
    ensures many { IfErr result (λ e. e ≡ Pairs → PAIR_LIMIT < pairs_of made.old + length (members_at map.now places.now)) }
{
    if places.len() == 1 {
        return made.put_within(map.at(places[0]));
    }
    gather(alloc, rids, map, places)?;
    made.put_within(rids.as_slice())
}

// The rids of the lists at these places, ascending without repeats, in place of what the Vec has.
fn gather(
    alloc: Global,
    rids: &mut Vec<u32>,
    map: &RidMap,
    places: &[u32],
) -> Result<(), AllocError>
    requires { All (λ p. p < length map.now.lists) places.now }
    ensures { OnOk result (rids.new.items ≡ members_at map.now places.now) }
{
    // Its clauses say that each list is a set of rids below the bound.
    let _pairs = map.pairs();
    match map.array() {
        Some(lists) => gather_numbers(alloc, rids, lists, places, map.bound()),
        None => gather_lists(alloc, rids, map, places),
    }
}

// The rids at these places of lists of any length, ascending without repeats, in place of what the Vec has. One list is taken as it is.
fn gather_lists(
    alloc: Global,
    rids: &mut Vec<u32>,
    map: &RidMap,
    places: &[u32],
) -> Result<(), AllocError>
    requires { All (λ p. p < length map.now.lists) places.now }
    ensures { OnOk result (rids.new.items ≡ members_at map.now places.now) }
{
    // Its clauses say that each list is a set of rids below the bound.
    let _pairs = map.pairs();
    rids.clear();
    map.put_at(rids, places)?;
    let several = places.len() > 1;
    if several {
        make_set(alloc, rids, map.bound())?;
    }
    Ok(())
}

// The rids at these places of lists of at most one rid, ascending without repeats, in place of what the Vec has. Places in order often have rids in order, one perhaps at several places that follow each other: put as they come, these are the set already.
fn gather_numbers(
    alloc: Global,
    rids: &mut Vec<u32>,
    lists: &RidArray,
    places: &[u32],
    bound: u32,
) -> Result<(), AllocError>
    requires within { All (λ p. p < length lists.now) places.now }
    requires sets { All (IsPlaces bound) lists.now }
    ensures { OnOk result (rids.new.items ≡ members_at (record { lists = lists.now; bound = bound }) places.now) }
{
    rids.clear();
    rids.reserve(places.len())?;
    let rises = lists.put_rising(rids, places);
    if !rises {
        make_set(alloc, rids, bound)?;
    }
    Ok(())
}

// The rids of lists of at most one rid, ascending without repeats.
fn set_of_numbers(alloc: Global, lists: &RidArray, bound: u32) -> Result<Vec<u32>, AllocError>
    requires sets { All (IsPlaces bound) lists.now }
    ensures { IfOk result (λ set. set.items ≡ members_at (record { lists = lists.now; bound = bound }) (upto (length lists.now))) }
{
    let mut rids = Vec::with_capacity(alloc, lists.len())?;
    for i in 0..lists.len() {
        let rid = lists.number(i);
        if rid != NONE {
            rids.push_reserved(rid);
        }
    }
    make_set(alloc, &mut rids, bound)?;
    Ok(rids)
}
