//! The answers of a split: the rids of a stretch of its order that some lists of places reach.
ghost use Rattle.std.specs.{Prelude.{◌≡◌, ◌+◌, ◌<◌, ◌≤◌, ◌&&◌, ◌++◌, nat_le, nat_lt, length, All, IfOk, OnOk}, List.{filter, flat_map, AllPairs}, List.Sorted.IsPartitionPoint};
ghost use Rattle.smk_base.specs.{Places.{places, has, list_at}, declared.rel.TheConstants.ROW_LIMIT};
ghost use Rattle.smk_skip.specs.Parts.{run};

use smk_base::Rids;
use smk_rid::RidMap;
use std::alloc::{AllocError, Global};

/// The rids of a stretch of an order, from `start` on, that the lists of places at these marks reach, ascending without repeats.
pub(crate) fn joined_runs(
    alloc: Global,
    lists: &RidMap,
    marks: &[u32],
    start: u32,
    rids: &[u32],
    bound: u32,
) -> Result<Rids, AllocError>
    requires marks { All (λ mark. mark < length lists.now.lists) marks.now }
    requires within { start + length rids.now ≤ ROW_LIMIT }
    requires below { All (λ rid. rid < bound) rids.now }
    ensures { IfOk result (λ made. made ≡ places (has (flat_map (λ mark. run start rids.now (list_at lists.now mark)) marks.now)) bound) }
{
    let mut made = Vec::new(alloc);
    for mark in marks {
        put_run(&mut made, lists.at(*mark), start, rids)?;
    }
    made.sort_unstable();
    made.dedup();
    Ok(Rids::from_vec(made))
}

// Appends the rids of a stretch that these ascending places reach.
fn put_run(made: &mut Vec<u32>, places: &[u32], start: u32, rids: &[u32]) -> Result<(), AllocError>
    requires rises { AllPairs (λ j k. j < k) places.now }
    requires within { start + length rids.now ≤ ROW_LIMIT }
    ensures { OnOk result (made.new.items ≡ made.old.items ++ run start rids.now places.now) }
{
    let part = between(places, start, start + rids.len() as u32);
    made.reserve(part.len())?;
    for k in part {
        made.push(rids[(*k - start) as usize])?;
    }
    Ok(())
}

#[tactic(auto, using(crate::proofs::Stretches::cuts_ordered))]
// Those of these ascending places that lie from `start` on and before `end`.
fn between(places: &[u32], start: u32, end: u32) -> &[u32]
    requires rises { AllPairs (λ j k. j < k) places.now }
    requires ordered { start ≤ end }
    ensures places { result.now ≡ filter (λ k. nat_le start k && nat_lt k end) places.now }
    ensures low { All (λ k. start ≤ k) result.now }
    ensures high { All (λ k. k < end) result.now }
{
    let from = before(places, start);
    let to = before(places, end);
    &places[from..to]
}

// How many of these ascending places come before t.
fn before(places: &[u32], t: u32) -> usize
    requires { AllPairs (λ j k. j < k) places.now }
    ensures cut { IsPartitionPoint (λ k. k < t) (λ k. t ≤ k) places.now result }
    ensures within { result ≤ length places.now }
{
    places.partition_point(|k| *k < t)
}
