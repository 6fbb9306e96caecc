//! One grouping: the groups of some rows.
ghost use Rattle.std.specs.Prelude.{◌≡◌, ◌<◌, ◌≤◌, ◌+◌, ◌++◌, length, map, All, IfOk};
ghost use Rattle.smk_base.specs.{Places.upto, Rels.{row_in, rows_at}, declared.rel.TheConstants.{COLUMN_LIMIT, ROW_LIMIT}};
ghost use Rattle.smk_body.specs.Halves.{AreNumbered, class_places};
ghost use Rattle.smk_keys.specs.Classes.{classes_of};
ghost use Rattle.smk_model.specs.{Kinds.{AggFits, kind_of_agg}, Plain.aggregate};
ghost use Rattle.smk_push.specs.Inputs.{IsInput, cube_from};

use crate::classes::number_classes;
use crate::input::Input;
use smk_base::{Agg, Rel, numbers_at};
use smk_body::agg_column;
use smk_keys::Classes;
use std::alloc::{AllocError, Global};

/// The grouping of the rows at these rids, in their order. The table has a place for each class, and may hold anything.
pub(crate) fn group_at(
    alloc: Global,
    input: &Input,
    rids: &[u32],
    table: &mut [u32],
) -> Result<Rel, AllocError>
    requires is { IsInput input.now.keys input.now.classes input.now.rows input.now.aggs }
    requires within { All (λ rid. rid < length input.now.keys.rows) rids.now }
    requires few { length rids.now ≤ ROW_LIMIT }
    requires wide { length table.old ≡ length input.now.classes.firsts }
    ensures made { IfOk result (λ made. made ≡ cube_from input.now.keys input.now.rows input.now.aggs rids.now) }
    ensures wide { length table.new ≡ length table.old }
{
    let classes = classes_at(alloc, input, rids, table)?;
    let firsts = numbers_at(alloc, rids, classes.firsts())?;
    let keys = input.keys.gather(alloc, firsts.as_slice())?;
    let rows = input.rows.gather(alloc, rids)?;
    with_aggregates(alloc, keys, &rows, &classes, input.aggs.as_slice())
}

// The classes of the keys at these rids: those of the classes that the keys have among all.
fn classes_at(
    alloc: Global,
    input: &Input,
    rids: &[u32],
    table: &mut [u32],
) -> Result<Classes, AllocError>
    requires is { IsInput input.now.keys input.now.classes input.now.rows input.now.aggs }
    requires within { All (λ rid. rid < length input.now.keys.rows) rids.now }
    requires few { length rids.now ≤ ROW_LIMIT }
    requires wide { length table.old ≡ length input.now.classes.firsts }
    ensures classes { IfOk result (λ made. made ≡ classes_of (rows_at input.now.keys.rows rids.now)) }
    ensures wide { length table.new ≡ length table.old }
{
    let numbers = numbers_at(alloc, input.classes.of(), rids)?;
    number_classes(alloc, numbers.as_slice(), table)
}

// The keys of classes, and beside them the aggregates over the rows of each class.
fn with_aggregates(
    alloc: Global,
    keys: Rel,
    rows: &Rel,
    classes: &Classes,
    aggs: &[Agg],
) -> Result<Rel, AllocError>
    requires fits { All (AggFits rows.now.kinds) aggs.now }
    requires few { length keys.kinds + length aggs.now ≤ COLUMN_LIMIT }
    requires keys { length keys.rows ≡ length classes.now.firsts }
    requires classes { AreNumbered (length rows.now.rows) classes.now }
    ensures { IfOk result (λ made. made ≡ record { kinds = keys.kinds ++ map (kind_of_agg rows.now.kinds) aggs.now; rows = map (λ p. row_in keys.rows p ++ map (aggregate (rows_at rows.now.rows (class_places classes.now.of (length rows.now.rows) p))) aggs.now) (upto (length classes.now.firsts)) }) }
{
    let mut made = keys;
    for agg in aggs {
        let column = agg_column(alloc, rows, classes, None, agg)?;
        made = made.beside(column)?;
    }
    Ok(made)
}
