ghost use Rattle.std.specs.{Prelude.{◌≡◌, ◌<◌, ◌≤◌, ◌+◌, ◌++◌, All, IfOk, OnOk, Some, length}, List.list_all};
ghost use Rattle.smk_base.specs.declared.rel.TheConstants.{ROW_LIMIT};
ghost use Rattle.smk_model.specs.Lineage.{sub};
ghost use Rattle.smk_marks.specs.{Marks.{reads_none, kept, marks_at}, Views.{looks_of_reach, rows_reached}};

use crate::view::KeptView;
use smk_base::{Agg, Rids};
use smk_outside::Steps;
use smk_rid::RidMap;
use smk_table::{Chosen, Table};
use std::alloc::{AllocError, Global};
use std::sync::ledger::Ledger;

/// The marks that chosen rows of a view's table reach, and these rows, which are there if an aggregate reads a column.
#[derive(Drop)]
pub struct Reached {
    pub marks: Rids,
    pub rows: Option<Chosen>,
}

/// What the rows at these rids reach in a view. It is at most one look for each row that reaches a mark, and none if all aggregates are counts.
pub fn reach<L: Ledger>(
    alloc: Global,
    view: &KeptView<'_>,
    table: &Table,
    chosen: &[u32],
    steps: &mut Steps<L>,
) -> Result<Reached, AllocError>
    requires inside { All (λ rid. rid < length table.now.rows) chosen.now }
    requires long { length view.now.forward.now.lists ≡ length table.now.rows }
    requires few { length chosen.now ≤ ROW_LIMIT }
    ensures marks { IfOk result (λ reached. reached.marks ≡ marks_at view.now.forward.now chosen.now) }
    ensures rows { IfOk result (λ reached. reached.rows ≡ rows_reached view.now table.now chosen.now) }
    ensures looks { steps.new ≤ steps.old + looks_of_reach view.now chosen.now }
{
    if are_counts(view.plan.aggs.as_slice()) {
        let marks = marks_reached(alloc, view.forward, chosen)?;
        Ok(Reached { marks, rows: None })
    } else {
        reach_rows(alloc, view.forward, table, chosen, steps)
    }
}

// The marks that the rids reach, and the rows of the table that reach one, a look each.
fn reach_rows<L: Ledger>(
    alloc: Global,
    forward: &RidMap,
    table: &Table,
    chosen: &[u32],
    steps: &mut Steps<L>,
) -> Result<Reached, AllocError>
    requires inside { All (λ rid. rid < length table.now.rows) chosen.now }
    requires long { length forward.now.lists ≡ length table.now.rows }
    requires few { length chosen.now ≤ ROW_LIMIT }
    ensures marks { IfOk result (λ reached. reached.marks ≡ marks_at forward.now chosen.now) }
    ensures rows { IfOk result (λ reached. reached.rows ≡ Some (record { kinds = table.now.kinds; rows = sub table.now.rows (kept forward.now chosen.now) })) }
    ensures looks { steps.new ≤ steps.old + length (kept forward.now chosen.now) }
{
    let marks = marks_reached(alloc, forward, chosen)?;
    let rids = forward.kept_at(alloc, chosen)?;
    let rows = table.choose(alloc, rids.as_slice(), steps)?;
    Ok(Reached {
        marks,
        rows: Some(rows),
    })
}

// Whether these aggregates read no column.
fn are_counts(aggs: &[Agg]) -> bool
    ensures { result ≡ list_all reads_none aggs.now }
{
    aggs.iter().all(|agg| reads_none(*agg))
}

// Whether an aggregate reads no column.
fn reads_none(agg: Agg) -> bool
    ensures { result ≡ reads_none agg }
{
    agg.column().is_none()
}

// The marks that the rids reach, those of each rid after those of the one before.
fn marks_reached(alloc: Global, forward: &RidMap, chosen: &[u32]) -> Result<Rids, AllocError>
    requires { All (λ rid. rid < length forward.now.lists) chosen.now }
    ensures { IfOk result (λ marks. marks ≡ marks_at forward.now chosen.now) }
{
    let mut marks = Vec::new(alloc);
    forward.put_at(&mut marks, chosen)?;
    Ok(Rids::from_vec(marks))
}
