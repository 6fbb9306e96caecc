ghost use Rattle.std.specs.Prelude.{◌≡◌, ◌+◌, ◌<◌, ◌≤◌, ◌++◌, true, None, length, IfOk};
ghost use Rattle.smk_base.specs.{PlanImage.expr_of, declared.rel.TheConstants.ROW_LIMIT};
ghost use Rattle.smk_model.specs.{Composed.table_at, LineageLaws.selected_table, Selection.{each_kinds, each_rows, leaf_kinds, PlanFits, ScansFit}, Growth.is_growing};
ghost use Rattle.smk_compose.specs.KeptMaps.{NeedFits};
ghost use Rattle.smk_chain.specs.{Parts.{joint_maps, AreMaps}, Runs.{chain_run, group_run, run_over, tables_before, tables_behind, CanJoin, CanRegroup}};

use crate::chains::{LastGrouping, grouping_of};
use crate::groups::regrouped;
use crate::maps::{ChainTables, OldAndNew, maps_of_both};
use smk_base::{Need, Plan, Rel};
use smk_compose::Run;
use smk_marks::scanned_table;
use smk_table::Table;
use std::alloc::{AllocError, Global};

/// What a growing chain gives over its longer table, from what it gave for the old rows and what it gives for the new rows alone: its rows, and the needed lineage. The tables have the new rows already, after the first `len` rows of the chain's table. After an error both parts are as they were.
///
/// A row of a last grouping keeps its place and has its aggregates over all rows; groups of new keys come last. Lists have the new rids at their ends.
pub fn grown(
    alloc: Global,
    plan: &Plan,
    need: &Need,
    tables: &[Table],
    len: u32,
    old: &Run,
    new: &Run,
) -> Result<Run, AllocError>
    requires growing { is_growing (expr_of plan.now) ≡ true }
    requires scans { ScansFit (length tables.now) (expr_of plan.now) }
    requires fits { PlanFits (expr_of plan.now) (leaf_kinds (expr_of plan.now) (each_kinds tables.now)) }
    requires need { NeedFits (length tables.now) need.now }
    requires len { len ≤ length (table_at (each_rows tables.now) (selected_table (expr_of plan.now))) }
    requires old { old.now ≡ run_over (expr_of plan.now) (each_kinds tables.now) (tables_before (each_rows tables.now) (selected_table (expr_of plan.now)) len) need.now }
    requires new { new.now ≡ run_over (expr_of plan.now) (each_kinds tables.now) (tables_behind (each_rows tables.now) (selected_table (expr_of plan.now)) len) need.now }
    ensures { IfOk result (λ run. run ≡ run_over (expr_of plan.now) (each_kinds tables.now) (each_rows tables.now) need.now) }
{
    let scanned = scanned_table(plan);
    // Its clauses say that the rows are few and fit columns of level 0.
    let _rows = tables[scanned as usize].len();
    let traced = ChainTables {
        tables,
        need: need.as_slice(),
        scanned,
    };
    match grouping_of(plan) {
        Some(last) => grown_groups(alloc, last, &traced, old, new),
        None => grown_chain(alloc, &traced, old, new),
    }
}

// A chain without a grouping: the new rows come after the old ones.
fn grown_chain(
    alloc: Global,
    traced: &ChainTables<'_>,
    old: &Run,
    new: &Run,
) -> Result<Run, AllocError>
    requires { CanJoin None traced.now.scanned (length traced.now.tables.now) traced.now.need.now old.now new.now }
    ensures { IfOk result (λ run. run ≡ chain_run traced.now.scanned (each_rows traced.now.tables.now) traced.now.need.now old.now new.now) }
{
    let rel = rows_of_both(alloc, &old.rel, &new.rel)?;
    run_of(
        alloc,
        rel,
        traced,
        &OldAndNew {
            groups: &None,
            old: old.kept.as_slice(),
            new: new.kept.as_slice(),
        },
    )
}

// A chain that ends in a grouping: the groups of both, each key once.
fn grown_groups(
    alloc: Global,
    last: LastGrouping<'_>,
    traced: &ChainTables<'_>,
    old: &Run,
    new: &Run,
) -> Result<Run, AllocError>
    requires { CanRegroup (length last.keys.now) last.aggs.now traced.now.scanned (length traced.now.tables.now) traced.now.need.now old.now new.now }
    ensures { IfOk result (λ run. run ≡ group_run (length last.entry.keys.now) last.entry.aggs.now traced.now.scanned (each_rows traced.now.tables.now) traced.now.need.now old.now new.now) }
{
    // Its clauses say that the columns are few.
    let _width = old.rel.width();
    let rows = rows_of_both(alloc, &old.rel, &new.rel)?;
    let keys = last.keys.as_slice().len() as u32;
    let (rel, classes) = regrouped(alloc, &rows, keys, last.aggs.as_slice())?;
    drop(rows);
    run_of(
        alloc,
        rel,
        traced,
        &OldAndNew {
            groups: &Some(classes),
            old: old.kept.as_slice(),
            new: new.kept.as_slice(),
        },
    )
}

// The rows of both, the new ones after the old ones.
fn rows_of_both(alloc: Global, old: &Rel, new: &Rel) -> Result<Rel, AllocError>
    requires kinds { new.now.kinds ≡ old.now.kinds }
    requires few { length old.now.rows + length new.now.rows ≤ ROW_LIMIT }
    ensures { IfOk result (λ made. made ≡ record { kinds = old.now.kinds; rows = old.now.rows ++ new.now.rows }) }
{
    let rows = old.copy(alloc)?;
    rows.followed_by(alloc, new)
}

// These rows, with the maps of the needed tables, from those of the old rows and of the new ones.
fn run_of(
    alloc: Global,
    rel: Rel,
    traced: &ChainTables<'_>,
    both: &OldAndNew<'_>,
) -> Result<Run, AllocError>
    requires { AreMaps both.now.groups.now traced.now.scanned (length traced.now.tables.now) traced.now.need.now both.now.old.now both.now.new.now }
    ensures { IfOk result (λ run. run ≡ record { rel = rel; kept = joint_maps both.now.groups.now traced.now.scanned (length rel.rows) (each_rows traced.now.tables.now) traced.now.need.now both.now.old.now both.now.new.now }) }
{
    let rows = rel.len();
    let rel = rel.shared(alloc)?;
    match maps_of_both(alloc, rows, traced, both) {
        Ok(kept) => Ok(Run { rel, kept }),
        Err(error) => {
            drop(rel);
            Err(error)
        }
    }
}
