ghost use Rattle.std.specs.Prelude.{◌≡◌, ℕ, ◌<◌, ◌≤◌, ◌+◌, [], ◌∷◌, true, All, IfOk, Some, length, map};
ghost use Rattle.smk_base.specs.{Aggregates.read_by, PlanImage.expr_of, declared.rel.TheConstants.ROW_LIMIT};
ghost use Rattle.smk_body.specs.Halves.{AreNumbered, class_values};
ghost use Rattle.smk_model.specs.{Growth.is_chain, Kinds.kind_of_agg, Selection.plan_kinds};
ghost use Rattle.smk_marks.specs.{Marks.made, Views.{CanGroup, Reads, chain_values, groups_of, grouped_by_marks}};

use crate::columns::{chain_column, keys_at, mark_classes};
use crate::reached::Reached;
use crate::view::KeptView;
use smk_base::{Agg, Plan, Rel, numbers_at};
use smk_keys::Classes;
use smk_table::Chosen;
use std::alloc::{AllocError, Global};

// As many rows as these: of those of a column that an aggregate reads what a chain makes of it, and of no column where it reads none.
fn column_read(alloc: Global, chain: &Plan, rows: &Chosen, agg: Agg) -> Result<Rel, AllocError>
    requires chain { is_chain (expr_of chain.now) ≡ true }
    requires reads { Reads (expr_of chain.now) rows.now.kinds agg }
    ensures long { IfOk result (λ made. length made.rows ≡ length rows.now.rows) }
    ensures column { IfOk result (λ made. (c : ℕ) → read_by agg ≡ Some c → made ≡ chain_values (expr_of chain.now) rows.now c) }
{
    match agg.column() {
        Some(c) => chain_column(alloc, chain, rows, c),
        None => rows.columns(alloc, &[]),
    }
}

// An aggregate over what a chain makes of the rows of each class.
fn agg_column(
    alloc: Global,
    classes: &Classes,
    chain: &Plan,
    rows: &Chosen,
    agg: Agg,
) -> Result<Rel, AllocError>
    requires classes { AreNumbered (length rows.now.rows) classes.now }
    requires chain { is_chain (expr_of chain.now) ≡ true }
    requires reads { Reads (expr_of chain.now) rows.now.kinds agg }
    ensures { IfOk result (λ column. column ≡ record { kinds = kind_of_agg (plan_kinds (expr_of chain.now) (rows.now.kinds ∷ [])) agg ∷ []; rows = class_values classes.now (map (made (expr_of chain.now)) rows.now.rows) agg }) }
{
    let read = column_read(alloc, chain, rows, agg)?;
    let made = smk_body::agg_column(alloc, &read, classes, None, &agg.over(0))?;
    Ok(made)
}

// For each mark, in the order in which each comes first, the key of the content's row at the mark and the aggregates over what the chain makes of the rows that have the mark.
fn groups(
    alloc: Global,
    view: &KeptView<'_>,
    marks: &[u32],
    rows: &Chosen,
) -> Result<Rel, AllocError>
    requires few_marks { length marks.now ≤ ROW_LIMIT }
    requires long { length marks.now ≡ length rows.now.rows }
    requires within { All (λ mark. mark < length view.now.content.now.rows) marks.now }
    requires chain { is_chain (expr_of view.now.plan.chain.now) ≡ true }
    requires reads { All (Reads (expr_of view.now.plan.chain.now) rows.now.kinds) view.now.plan.aggs.now }
    requires keyed { length view.now.plan.keys.now ≤ length view.now.content.now.kinds }
    requires few { length view.now.plan.keys.now + length view.now.plan.aggs.now ≤ 16 }
    ensures { IfOk result (λ made. made ≡ groups_of view.now marks.now rows.now) }
{
    let classes = mark_classes(alloc, marks, view.content.len())?;
    let first_marks = numbers_at(alloc, marks, classes.firsts())?;
    let firsts = first_marks.as_slice();
    let keys = view.plan.keys.as_slice();
    let mut made = keys_at(alloc, view.content, keys.len() as u32, firsts)?;
    let aggs = view.plan.aggs.as_slice();
    for agg in aggs {
        let column = agg_column(alloc, &classes, view.plan.chain, rows, *agg)?;
        made = made.beside(column)?;
    }
    Ok(made)
}

/// The content of a view over chosen rows of its table, from what these rows reach in what is kept of it.
pub fn content_by_marks(
    alloc: Global,
    view: &KeptView<'_>,
    reached: &Reached,
) -> Result<Rel, AllocError>
    requires { CanGroup view.now reached.now }
    ensures { IfOk result (λ made. made ≡ grouped_by_marks view.now reached.now) }
{
    let marks = reached.marks.as_slice();
    match &reached.rows {
        Some(rows) => groups(alloc, view, marks, rows),
        None => {
            let rows = Chosen::of_rel(Rel::of_counts(alloc, 0, marks)?);
            groups(alloc, view, marks, &rows)
        }
    }
}
