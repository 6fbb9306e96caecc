//! The rows of a grouping, from the groups of its rows, and beside them the places of each group.

ghost use Rattle.std.specs.{Prelude.{◌≡◌, ◌<◌, IfOk, Some, length, map}, Thread.IsSync};
ghost use Rattle.smk_base.specs.{Places.inverted, Plans.Grouping};
ghost use Rattle.smk_keys.specs.Classes.{classes_of};
ghost use Rattle.smk_model.specs.{Kinds.{GroupFits, kinds1}, Locals.singles, Plain.{key_of, step1}};
ghost use Rattle.smk_body.specs.{Bounds.IsPartition, Locals.wanted, Parts.{AreAggsOf, ArePlacesOf, aggregates_of, columns_of}};

use crate::keep::lists::{counted, sized_lists, turned_lists_if};
use crate::make::agg_columns::{agg_column, group_rows, sized_group_rows};
use crate::make::gather::{both_of, columns_at};
use smk_base::{Agg, Rel};
use smk_jobs::{Crew, LEAST_ROWS, Work};
use smk_keys::Classes;
use smk_rid::RidMap;
use std::alloc::{AllocError, Global};
use std::marker::Sync;
use std::thread::{Threads, join};

/// The rows of a grouping, and the places of each group if they are wanted. One aggregate or none over few groups isn't worth a thread.
pub(crate) fn grouped_and_turned<R: Threads + Sync, C: Crew + Sync>(
    work: &Work<'_, R, C>,
    rel: &Rel,
    groups: &Classes,
    keys: &[u32],
    aggs: &[Agg],
    asked: bool,
) -> Result<(Rel, Option<RidMap>), AllocError>
    requires fits { GroupFits rel.now.kinds keys.now aggs.now }
    requires groups { groups.now ≡ classes_of (map (key_of keys.now) rel.now.rows) }
    requires stand { IsPartition groups.now }
    ensures kinds { IfOk result (λ made. made.0.kinds ≡ kinds1 (Grouping keys.now aggs.now) rel.now.kinds) }
    ensures rows { IfOk result (λ made. made.0.rows ≡ step1 (Grouping keys.now aggs.now) rel.now.rows) }
    ensures turned { IfOk result (λ made. made.1 ≡ wanted asked (inverted (singles groups.now.of (length groups.now.firsts)))) }
{
    let few = aggs.len() < 2 && groups.firsts().len() < LEAST_ROWS;
    if few || work.is_alone(rel.len() as usize) {
        return grouped_alone(work.alloc, rel, groups, keys, aggs, asked);
    }
    grouped_beside(work, rel, groups, keys, aggs, asked)
}

// The rows and the places in this thread alone.
fn grouped_alone(
    alloc: Global,
    rel: &Rel,
    groups: &Classes,
    keys: &[u32],
    aggs: &[Agg],
    asked: bool,
) -> Result<(Rel, Option<RidMap>), AllocError>
    requires fits { GroupFits rel.now.kinds keys.now aggs.now }
    requires groups { groups.now ≡ classes_of (map (key_of keys.now) rel.now.rows) }
    requires stand { IsPartition groups.now }
    ensures kinds { IfOk result (λ made. made.0.kinds ≡ kinds1 (Grouping keys.now aggs.now) rel.now.kinds) }
    ensures rows { IfOk result (λ made. made.0.rows ≡ step1 (Grouping keys.now aggs.now) rel.now.rows) }
    ensures turned { IfOk result (λ made. made.1 ≡ wanted asked (inverted (singles groups.now.of (length groups.now.firsts)))) }
{
    // Where each group has one row the lists are marks, and no size is counted.
    if asked && groups.firsts().len() < rel.len() as usize {
        return sized_and_turned(alloc, rel, groups, keys, aggs);
    }
    let rows = group_rows(alloc, rel, groups, keys, aggs)?;
    let lists = turned_lists_if(alloc, asked, groups.of(), groups.firsts().len() as u32)?;
    Ok((rows, lists))
}

// The rows with the places: the sizes of the groups are counted once, for both.
fn sized_and_turned(
    alloc: Global,
    rel: &Rel,
    groups: &Classes,
    keys: &[u32],
    aggs: &[Agg],
) -> Result<(Rel, Option<RidMap>), AllocError>
    requires fits { GroupFits rel.now.kinds keys.now aggs.now }
    requires groups { groups.now ≡ classes_of (map (key_of keys.now) rel.now.rows) }
    requires stand { IsPartition groups.now }
    ensures kinds { IfOk result (λ made. made.0.kinds ≡ kinds1 (Grouping keys.now aggs.now) rel.now.kinds) }
    ensures rows { IfOk result (λ made. made.0.rows ≡ step1 (Grouping keys.now aggs.now) rel.now.rows) }
    ensures turned { IfOk result (λ made. made.1 ≡ Some (inverted (singles groups.now.of (length groups.now.firsts)))) }
{
    let of = groups.of();
    let count = groups.firsts().len() as u32;
    let sizes = counted(alloc, of, count)?;
    let rows = sized_group_rows(alloc, rel, groups, Some(sizes.as_slice()), keys, aggs)?;
    let lists = sized_lists(alloc, of, sizes.as_slice())?;
    Ok((rows, Some(lists)))
}

// The rows of a grouping and those lists at the same time.
fn grouped_beside<R: Threads + Sync, C: Crew + Sync>(
    work: &Work<'_, R, C>,
    rel: &Rel,
    groups: &Classes,
    keys: &[u32],
    aggs: &[Agg],
    asked: bool,
) -> Result<(Rel, Option<RidMap>), AllocError>
    requires fits { GroupFits rel.now.kinds keys.now aggs.now }
    requires groups { groups.now ≡ classes_of (map (key_of keys.now) rel.now.rows) }
    requires stand { IsPartition groups.now }
    ensures kinds { IfOk result (λ both. both.0.kinds ≡ kinds1 (Grouping keys.now aggs.now) rel.now.kinds) }
    ensures rows { IfOk result (λ both. both.0.rows ≡ step1 (Grouping keys.now aggs.now) rel.now.rows) }
    ensures turned { IfOk result (λ both. both.1 ≡ wanted asked (inverted (singles groups.now.of (length groups.now.firsts)))) }
{
    let turn = || -> Result<Option<RidMap>, AllocError>
        requires { IsPartition groups.now }
        ensures { IfOk result (λ made. made ≡ wanted asked (inverted (singles groups.entry.now.of (length groups.entry.now.firsts)))) }
    { turned_lists_if(work.alloc, asked, groups.of(), groups.firsts().len() as u32) };
    let make = || -> Result<Rel, AllocError>
        requires { IsSync R.row × IsSync C.row × GroupFits rel.now.kinds keys.now aggs.now × (groups.now ≡ classes_of (map (key_of keys.now) rel.now.rows)) × IsPartition groups.now }
        ensures { IfOk result (λ made. (made.kinds ≡ kinds1 (Grouping keys.entry.now aggs.entry.now) rel.entry.now.kinds) × (made.rows ≡ step1 (Grouping keys.entry.now aggs.entry.now) rel.entry.now.rows)) }
    { keys_and_aggs(work, rel, groups, keys, aggs) };
    let (lists, rows) = join(work.rt, turn, make);
    both_of(rows, lists)
}

// The rows of a grouping: the keys beside the aggregates, which are made at the same time.
fn keys_and_aggs<R: Threads + Sync, C: Crew + Sync>(
    work: &Work<'_, R, C>,
    rel: &Rel,
    groups: &Classes,
    keys: &[u32],
    aggs: &[Agg],
) -> Result<Rel, AllocError>
    requires fits { GroupFits rel.now.kinds keys.now aggs.now }
    requires groups { groups.now ≡ classes_of (map (key_of keys.now) rel.now.rows) }
    requires stand { IsPartition groups.now }
    ensures { IfOk result (λ made. (made.kinds ≡ kinds1 (Grouping keys.now aggs.now) rel.now.kinds) × (made.rows ≡ step1 (Grouping keys.now aggs.now) rel.now.rows)) }
{
    let firsts = groups.firsts();
    let first = || -> Result<Rel, AllocError>
        requires { ArePlacesOf rel.now firsts.now keys.now }
        ensures { IfOk result (λ made. made ≡ columns_of rel.entry.now firsts.entry.now keys.entry.now) }
    { columns_at(work.alloc, rel, firsts, keys) };
    let over = || -> Result<Rel, AllocError>
        requires { IsSync R.row × IsSync C.row × AreAggsOf rel.now groups.now aggs.now }
        ensures { IfOk result (λ made. made ≡ aggregates_of rel.entry.now groups.entry.now aggs.entry.now) }
    { agg_columns(work, rel, groups, aggs) };
    let (lefts, rights) = join(work.rt, first, over);
    let (left, right) = both_of(lefts, rights)?;
    left.beside(right)
}

// The aggregates over the rows of each group, all at the same time.
#[cycle(aggregates)]
fn agg_columns<R: Threads + Sync, C: Crew + Sync>(
    work: &Work<'_, R, C>,
    rel: &Rel,
    groups: &Classes,
    aggs: &[Agg],
) -> Result<Rel, AllocError>
    requires { AreAggsOf rel.now groups.now aggs.now }
    ensures { IfOk result (λ made. made ≡ aggregates_of rel.now groups.now aggs.now) }
{
    if aggs.len() < 2 {
        return few_columns(work.alloc, rel, groups, aggs);
    }
    let (low, high) = aggs.split_at(aggs.len() / 2);
    let lower = || -> Result<Rel, AllocError>
        requires { IsSync R.row × IsSync C.row × AreAggsOf rel.now groups.now low.now }
        ensures { IfOk result (λ made. made ≡ aggregates_of rel.entry.now groups.entry.now low.entry.now) }
    { agg_columns(work, rel, groups, low) };
    let upper = || -> Result<Rel, AllocError>
        requires { IsSync R.row × IsSync C.row × AreAggsOf rel.now groups.now high.now }
        ensures { IfOk result (λ made. made ≡ aggregates_of rel.entry.now groups.entry.now high.entry.now) }
    { agg_columns(work, rel, groups, high) };
    let (lefts, rights) = join(work.rt, lower, upper);
    let (left, right) = both_of(lefts, rights)?;
    left.beside(right)
}

// The aggregates where there is one or none.
fn few_columns(alloc: Global, rel: &Rel, groups: &Classes, aggs: &[Agg]) -> Result<Rel, AllocError>
    requires aggs { AreAggsOf rel.now groups.now aggs.now }
    requires few { length aggs.now < 2 }
    ensures { IfOk result (λ made. made ≡ aggregates_of rel.now groups.now aggs.now) }
{
    let _rows = rel.len();
    if aggs.len() == 0 {
        return columns_at(alloc, rel, groups.firsts(), &[]);
    }
    agg_column(alloc, rel, groups, None, &aggs[0])
}
