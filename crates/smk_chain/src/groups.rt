//! The groups of two parts, put together: each key once, by first occurrence, with its aggregates over both.

ghost use Rattle.std.specs.Prelude.{◌≡◌, ◌+◌, ◌<◌, ◌≤◌, All, IfOk, length};
ghost use Rattle.smk_base.specs.{Rels.RowFits, declared.rel.TheConstants.COLUMN_LIMIT};
ghost use Rattle.smk_model.specs.{Kinds.AggFits, Growth.all_over_parts};
ghost use Rattle.smk_chain.specs.Runs.{joint_classes, joint_groups};

use smk_base::{Agg, Aggs, Kind, Rel, numbers_below};
use smk_body::group_rows;
use smk_keys::Classes;
use std::alloc::{AllocError, Global};

/// One row for each key of these groups, whose first columns are the keys and whose other columns have these aggregates, and the classes of their keys.
pub(crate) fn regrouped(
    alloc: Global,
    both: &Rel,
    keys: u32,
    aggs: &[Agg],
) -> Result<(Rel, Classes), AllocError>
    requires some { 0 < keys + length aggs.now }
    requires columns { keys + length aggs.now ≡ length both.now.kinds }
    requires each { All (AggFits both.now.kinds) (all_over_parts keys aggs.now) }
    requires fits { All (RowFits both.now.kinds) (joint_groups keys aggs.now both.now.rows) }
    ensures rows { IfOk result (λ made. made.0 ≡ record { kinds = both.now.kinds; rows = joint_groups keys aggs.now both.now.rows }) }
    ensures classes { IfOk result (λ made. made.1 ≡ joint_classes keys both.now.rows) }
{
    let _rows = both.len();
    let columns = numbers_below(alloc, keys)?;
    let columns = columns.as_slice();
    let classes = Classes::of_rows(alloc, both, columns)?;
    let over = aggs_over_parts(alloc, keys, aggs)?;
    let over = over.as_slice();
    let groups = group_rows(alloc, both, &classes, columns, over)?;
    // These are aggregates over all rows, so they fit the kinds that those of the parts have.
    let kinds = rel_kinds(alloc, both)?;
    let kinds = kinds.as_slice();
    let rel = groups.with_kinds(alloc, kinds)?;
    Ok((rel, classes))
}

// Aggregates that are in the columns from one on of the groupings of parts, taken once more.
fn aggs_over_parts(alloc: Global, from: u32, aggs: &[Agg]) -> Result<Aggs, AllocError>
    requires { from + length aggs.now ≤ COLUMN_LIMIT }
    ensures { IfOk result (λ over. over ≡ all_over_parts from aggs.now) }
{
    let mut over = Aggs::new(alloc);
    for i in 0..aggs.len() {
        over.push(aggs[i].over_parts(from + i as u32))?;
    }
    Ok(over)
}

// The kinds of the columns.
fn rel_kinds(alloc: Global, rel: &Rel) -> Result<Vec<Kind>, AllocError>
    ensures { IfOk result (λ kinds. kinds.items ≡ rel.now.kinds) }
{
    let mut kinds = Vec::with_capacity(alloc, rel.width() as usize)?;
    for c in 0..rel.width() {
        kinds.push(rel.kind(c))?;
    }
    Ok(kinds)
}
