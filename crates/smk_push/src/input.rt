//! What the groupings of the rows at any rids are made from, made once for all of them.
ghost use Rattle.std.specs.Prelude.{◌≡◌, ◌<◌, ◌≤◌, ℕ, List, length, All, IfOk};
ghost use Rattle.smk_base.specs.declared.rel.TheConstants.{COLUMN_LIMIT};
ghost use Rattle.smk_model.specs.Kinds.{AggFits, GroupFits};
ghost use Rattle.smk_push.specs.{Cubes.cube_of, Inputs.{AreRead, IsInput, cube_from}};

use smk_base::{Agg, Aggs, Rel, numbers_below};
use smk_keys::Classes;
use smk_table::Chosen;
use std::alloc::{AllocError, Global};

/// Keys of rows and their classes, and aggregates with the columns of the rows that they read.
#[derive(Drop)]
pub(crate) struct Input {
    pub(crate) keys: Rel,
    pub(crate) classes: Classes,
    pub(crate) rows: Rel,
    pub(crate) aggs: Aggs,
}

/// What a grouping of any of these rows is made from.
pub(crate) fn input_of(
    alloc: Global,
    keys: &[u32],
    aggs: &[Agg],
    all: &Chosen,
) -> Result<Input, AllocError>
    requires { GroupFits all.now.kinds keys.now aggs.now }
    ensures is { IfOk result (λ made. IsInput made.keys made.classes made.rows made.aggs) }
    ensures long { IfOk result (λ made. length made.keys.rows ≡ length all.now.rows) }
    ensures cubes { IfOk result (λ made. (rids : List ℕ) → All (λ rid. rid < length all.now.rows) rids → cube_from made.keys made.rows made.aggs rids ≡ cube_of all.now keys.now aggs.now rids) }
{
    let columns = numbers_below(alloc, keys.len() as u32)?;
    let keys = all.columns(alloc, keys)?;
    let classes = Classes::of_rows(alloc, &keys, columns.as_slice())?;
    let (aggs, rows) = read_columns(alloc, aggs, all)?;
    Ok(Input {
        keys,
        classes,
        rows,
        aggs,
    })
}

// The aggregates over no columns but those that they read, and the rows with these columns.
fn read_columns(alloc: Global, aggs: &[Agg], all: &Chosen) -> Result<(Aggs, Rel), AllocError>
    requires fits { All (AggFits all.now.kinds) aggs.now }
    requires few { length aggs.now ≤ COLUMN_LIMIT }
    ensures { IfOk result (λ made. AreRead all.now aggs.now made.1 made.0) }
{
    let mut over = Aggs::new(alloc);
    let mut cols = Vec::new(alloc);
    for agg in aggs {
        over.push(agg.over(cols.len() as u32))?;
        if let Some(c) = agg.column() {
            cols.push(c)?;
        }
    }
    let rows = all.columns(alloc, cols.as_slice())?;
    Ok((over, rows))
}
