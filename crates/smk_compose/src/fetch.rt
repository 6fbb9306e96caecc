ghost use Rattle.std.specs.{Prelude.{◌≡◌, ◌+◌, ◌<◌, ◌≤◌, ◌++◌, length, map, All, IfOk, OnOk, nat_eq}, Option.option_copied, List.find};
ghost use Rattle.smk_base.specs.PlanImage.{expr_of};
ghost use Rattle.smk_model.specs.{Plain.{leaves as leaf_tables, width}, Selection.{each_rows, each_kinds, selected, over, leaf_kinds, rows_in, PickFits, ScansFit}};
ghost use Rattle.smk_compose.specs.Fetched.{leaf_over};

use crate::leaves::Leaves;
use crate::rows::choose_rids;
use smk_base::{Pick, Picks, Plan};
use smk_outside::Steps;
use smk_table::{Chosen, Table};
use std::alloc::{AllocError, Global};
use std::sync::ledger::Ledger;

/// The rows of a plan's leaves, one Rel per leaf, left to right: the picked rows of a table that is picked, by ascending rid, else the whole table. Each row is one look, even if memory runs out.
#[tactic(auto, using(crate::proofs::Lists::over_rows, crate::proofs::Lists::over_kinds, crate::proofs::Lists::over_long))]
pub fn fetch_leaves<L: Ledger>(
    alloc: Global,
    plan: &Plan,
    tables: &[Table],
    picks: &Picks,
    steps: &mut Steps<L>,
) -> Result<Leaves, AllocError>
    requires scans { ScansFit (length tables.now) (expr_of plan.now) }
    requires picks { All (PickFits (each_rows tables.now)) picks.now }
    ensures rows { IfOk result (λ made. each_rows made ≡ over (expr_of plan.now) (each_rows tables.now) picks.now) }
    ensures kinds { IfOk result (λ made. each_kinds made ≡ leaf_kinds (expr_of plan.now) (each_kinds tables.now)) }
    ensures count { IfOk result (λ made. length made ≡ width (expr_of plan.now)) }
    ensures looks { steps.new ≤ steps.old + rows_in (over (expr_of plan.now) (each_rows tables.now) picks.now) }
{
    let mut leaves = Leaves::new(alloc);
    fetch_node(alloc, plan, tables, picks, &mut leaves, steps)?;
    Ok(leaves)
}

#[tactic(auto, using(crate::proofs::Lists::map_two, crate::proofs::Lists::rows_two))]
// Puts the leaves of a plan after those that are there.
fn fetch_node<L: Ledger>(
    alloc: Global,
    plan: &Plan,
    tables: &[Table],
    picks: &Picks,
    leaves: &mut Leaves,
    steps: &mut Steps<L>,
) -> Result<(), AllocError>
    requires scans { ScansFit (length tables.now) (expr_of plan.now) }
    requires picks { All (PickFits (each_rows tables.now)) picks.now }
    ensures added { OnOk result (leaves.new ≡ leaves.old ++ map (leaf_over tables.now picks.now) (leaf_tables (expr_of plan.now))) }
    ensures looks { steps.new ≤ steps.old + rows_in (over (expr_of plan.now) (each_rows tables.now) picks.now) }
{
    match plan {
        Plan::Scan(table) => {
            let leaf = fetch_leaf(alloc, *table, tables, picks, steps)?;
            leaves.push_chosen(leaf)
        }
        Plan::One(_, input) => fetch_node(alloc, input, tables, picks, leaves, steps),
        Plan::Two(_, left, right) => {
            fetch_node(alloc, left, tables, picks, leaves, steps)?;
            fetch_node(alloc, right, tables, picks, leaves, steps)
        }
    }
}

#[tactic(auto, using(crate::proofs::Lists::leaf_found, crate::proofs::Lists::leaf_whole, crate::proofs::Lists::leaf_rows))]
// The rows of a leaf that scans this table.
fn fetch_leaf<L: Ledger>(
    alloc: Global,
    table: u32,
    tables: &[Table],
    picks: &Picks,
    steps: &mut Steps<L>,
) -> Result<Chosen, AllocError>
    requires known { table < length tables.now }
    requires picks { All (PickFits (each_rows tables.now)) picks.now }
    ensures leaf { IfOk result (λ leaf. leaf ≡ leaf_over tables.now picks.now table) }
    ensures looks { steps.new ≤ steps.old + length (selected (each_rows tables.now) picks.now table) }
{
    let scanned = &tables[table as usize];
    match pick_of(picks.as_slice(), table) {
        Some(pick) => choose_rids(alloc, scanned, pick.rids.as_slice(), steps),
        None => scanned.choose_all(alloc, steps),
    }
}

// What is picked of a table.
fn pick_of(picks: &[Pick], table: u32) -> Option<&Pick>
    ensures { option_copied result ≡ find (λ pick. nat_eq pick.table table) picks.now }
{
    picks.iter().find(|pick| pick.table == table)
}
