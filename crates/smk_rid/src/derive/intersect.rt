//! What two ascending lists of rids have in common.

ghost use Rattle.std.specs.{Prelude.{◌≡◌, ◌≢◌, ◌<◌, ◌≤◌, ℕ, length, slice_index, All, IfOk}, Bool.{OnTrue, OnFalse}, List.filter};
ghost use Rattle.smk_base.specs.{Picks.IsAscending, Places.has};

use crate::derive::distinct::marks_of;
use smk_base::Rids;
use std::alloc::{AllocError, Global};

// How many rids are passed at a time while all of them are less.
const STRIDE: usize = 8;

// Rids are marked where the list is longer than one in so many below their bound.
const MARKED_SHARE: usize = 64;

// A place from this one on, before which all rids are less: whole strides are passed.
fn strides_from(rids: &[u32], from: usize, rid: u32) -> usize
    requires rising { IsAscending rids.now }
    requires within { from ≤ length rids.now }
    ensures after { from ≤ result }
    ensures within { result ≤ length rids.now }
    ensures less { (k : ℕ) → from ≤ k → k < result → slice_index rids.now k < rid }
{
    let mut place = from;
    while rids.len() - place > STRIDE && rids[place + STRIDE] < rid {
        place += STRIDE;
    }
    place
}

// The first place, from this one on, whose rid isn't less.
fn place_from(rids: &[u32], from: usize, rid: u32) -> usize
    requires rising { IsAscending rids.now }
    requires within { from ≤ length rids.now }
    ensures after { from ≤ result }
    ensures within { result ≤ length rids.now }
    ensures less { (k : ℕ) → from ≤ k → k < result → slice_index rids.now k < rid }
    ensures not_less { result < length rids.now → rid ≤ slice_index rids.now result }
{
    let mut place = strides_from(rids, from, rid);
    while place < rids.len() && rids[place] < rid {
        place += 1;
    }
    place
}

// Whether the rid at a place is this one.
fn is_at(rids: &[u32], place: usize, rid: u32) -> bool
    ensures found { OnTrue result (place < length rids.now × (slice_index rids.now place ≡ rid)) }
    ensures other { OnFalse result (place < length rids.now → slice_index rids.now place ≢ rid) }
{
    place < rids.len() && rids[place] == rid
}

// The rids of one ascending list that another has, in one pass over the two.
fn passed_of(alloc: Global, ones: &[u32], others: &[u32]) -> Result<Rids, AllocError>
    requires ones { IsAscending ones.now }
    requires others { IsAscending others.now }
    ensures { IfOk result (λ made. made ≡ filter (has others.now) ones.now) }
{
    let mut made = Vec::new(alloc);
    let mut place = 0;
    for rid in ones {
        place = place_from(others, place, *rid);
        if is_at(others, place, *rid) {
            made.push(*rid)?;
        }
    }
    Ok(Rids::from_vec(made))
}

// What all rids of an ascending list are below.
fn end_of(rids: &[u32]) -> usize
    requires { IsAscending rids.now }
    ensures { All (λ rid. rid < result) rids.now }
{
    match rids.last() {
        Some(last) => *last as usize + 1,
        None => 0,
    }
}

// The rids of one list that another has, where each of the other is marked.
fn marked_of(alloc: Global, ones: &[u32], others: &[u32], bound: usize) -> Result<Rids, AllocError>
    requires ones { All (λ rid. rid < bound) ones.now }
    requires others { All (λ rid. rid < bound) others.now }
    ensures { IfOk result (λ made. made ≡ filter (has others.now) ones.now) }
{
    let marks = marks_of(alloc, others, bound)?;
    let mut made = Vec::new(alloc);
    for rid in ones {
        if marks[*rid as usize] {
            made.push(*rid)?;
        }
    }
    Ok(Rids::from_vec(made))
}

// The rids of one ascending list that another has: by marks where both lists are long, so that no step waits for a comparison, and else in one pass, which passes many of the other at a time.
fn kept_of(alloc: Global, ones: &[u32], others: &[u32]) -> Result<Rids, AllocError>
    requires ones { IsAscending ones.now }
    requires others { IsAscending others.now }
    ensures { IfOk result (λ made. made ≡ filter (has others.now) ones.now) }
{
    let bound = end_of(ones).max(end_of(others));
    if ones.len() > bound / MARKED_SHARE && others.len() / STRIDE < ones.len() {
        marked_of(alloc, ones, others, bound)
    } else {
        passed_of(alloc, ones, others)
    }
}

/// The rids that both ascending lists have: those of the shorter that are in the longer, of which many are skipped at a time.
pub fn intersection(alloc: Global, ones: &[u32], others: &[u32]) -> Result<Rids, AllocError>
    requires ones { IsAscending ones.now }
    requires others { IsAscending others.now }
    ensures { IfOk result (λ made. made ≡ filter (has others.now) ones.now) }
{
    if ones.len() <= others.len() {
        kept_of(alloc, ones, others)
    } else {
        kept_of(alloc, others, ones)
    }
}
