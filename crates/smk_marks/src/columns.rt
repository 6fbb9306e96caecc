ghost use Rattle.std.specs.Prelude.{◌≡◌, ◌≢◌, ◌<◌, ◌≤◌, ◌≤ℤ◌, [], ◌∷◌, pos, true, All, IfOk, length, map, nat_eq, take, slice_index_or};
ghost use Rattle.smk_base.specs.{PlanImage.expr_of, Places.upto, Rels.{bin_of, kind_in, value_in}, declared.rel.TheConstants.ROW_LIMIT};
ghost use Rattle.smk_base.specs.declared.value.Kind.TheVariants as kinds;
ghost use Rattle.smk_keys.specs.Classes.{classing_of};
ghost use Rattle.smk_model.specs.{Growth.is_chain, Lineage.row_at, Selection.{PlanFits, plan_kinds}};
ghost use Rattle.smk_marks.specs.Views.{chain_values};

use smk_base::{Item, Op1, Plan, Rel, numbers_below};
use smk_keys::Classes;
use smk_table::Chosen;
use std::alloc::{AllocError, Global};

// Classes of marks are found by a table of all marks where there are more marks than one in so many; else by their values, so that few marks never pay for such a table.
const TABLE_SHARE: u32 = 16;

// The classes of marks below a bound.
pub(crate) fn mark_classes(alloc: Global, marks: &[u32], bound: u32) -> Result<Classes, AllocError>
    requires few { length marks.now ≤ ROW_LIMIT }
    requires below { All (λ mark. mark < bound) marks.now }
    ensures { IfOk result (λ made. made ≡ classing_of nat_eq marks.now) }
{
    if marks.len() > (bound / TABLE_SHARE) as usize {
        return Classes::of_numbers(alloc, marks, bound);
    }
    let column = Rel::of_counts(alloc, 0, marks)?;
    Classes::of_rows(alloc, &column, &[0])
}

// The keys of groups at these marks: the first values of the rows there.
pub(crate) fn keys_at(
    alloc: Global,
    content: &Rel,
    width: u32,
    marks: &[u32],
) -> Result<Rel, AllocError>
    requires within { All (λ mark. mark < length content.now.rows) marks.now }
    requires few { length marks.now ≤ ROW_LIMIT }
    requires keyed { width ≤ length content.now.kinds }
    ensures { IfOk result (λ made. made ≡ record { kinds = map (kind_in content.now.kinds) (upto width); rows = map (λ mark. take width (row_at content.now.rows mark)) marks.now }) }
{
    let _rows = content.len();
    let columns = numbers_below(alloc, width)?;
    let keys = content.pick_columns(alloc, columns.as_slice())?;
    let made = keys.gather(alloc, marks)?;
    Ok(made)
}

// The bins of the numbers of one column.
fn binned(alloc: Global, column: Rel, width: i64) -> Result<Rel, AllocError>
    requires column { 0 < length column.kinds }
    requires int { kind_in column.kinds 0 ≢ kinds.Text }
    requires width { pos 1 ≤ℤ width }
    ensures { IfOk result (λ made. made ≡ record { kinds = kind_in column.kinds 0 ∷ []; rows = map (λ row. bin_of width (value_in row 0) ∷ []) column.rows }) }
{
    column.bins(alloc, 0, width)
}

// Column c of what a chain makes of rows that pass: of the rows no other column is gathered.
pub(crate) fn chain_column(
    alloc: Global,
    chain: &Plan,
    rows: &Chosen,
    c: u32,
) -> Result<Rel, AllocError>
    requires chain { is_chain (expr_of chain.now) ≡ true }
    requires fits { PlanFits (expr_of chain.now) (rows.now.kinds ∷ []) }
    requires column { c < length (plan_kinds (expr_of chain.now) (rows.now.kinds ∷ [])) }
    ensures { IfOk result (λ column. column ≡ chain_values (expr_of chain.now) rows.now c) }
{
    match chain {
        Plan::Scan(_) => rows.columns(alloc, &[c]),
        Plan::One(Op1::Select(_), input) => chain_column(alloc, input, rows, c),
        Plan::One(Op1::Project(items), input) => match &items.as_slice()[c as usize] {
            Item::Col(col) => chain_column(alloc, input, rows, *col),
            Item::Bin { col, width } => {
                let below = chain_column(alloc, input, rows, *col)?;
                let column = binned(alloc, below, *width)?;
                Ok(column)
            }
        },
        _ => unreachable!(),
    }
}
