ghost use Rattle.std.specs.Prelude.{◌≡◌, ◌||◌, ◌+◌, ◌<◌, ◌≤◌, ◌^◌, ℕ, IsTrue, nat_eq, length, map, slice_index_or, IfOk, IfErr, OnOk, None};
ghost use Rattle.smk_base.specs.PlanImage.{expr_of};
ghost use Rattle.smk_model.specs.{Plain.whole, Composed.{rows_over, table_at}, Selection.{each_rows, each_kinds, leaf_kinds, plan_kinds, rows_in, PlanFits, ScansFit, nodes}, NodeFaults.{first_fault, asked_of}};
ghost use Rattle.smk_compose.specs.{KeptMaps.{NeedFits, kept_at}, Through.{IsFirst, filled, map_at, no_need}};

use crate::fault::RunFault;
use crate::fetch::fetch_leaves;
use crate::fill::fill;
use crate::kept_maps::{Kepts, Run};
use crate::leaves::Leaves;
use crate::passing::Walked;
use crate::walk::{Traced, walk_all};
use smk_base::{Need, Needed, Picks, Plan};
use smk_body::OpBody;
use smk_jobs::Work;
use smk_outside::Steps;
use smk_table::Table;
use std::alloc::{AllocError, Global};
use std::sync::ledger::Ledger;
use std::thread::Threads;

/// A plan over whole tables: its rows, and exactly the needed lineage, in the order of need. A needed table that the plan doesn't scan has empty lists.
///
/// It is refused exactly if some node has too many rows, or too many pairs with a needed table, at the first such node in post-order, and there at its rows and then at the first such table. Each row of a leaf is at most one look, even if it is refused.
#[tactic(auto, using(crate::proofs::Walks::over_whole))]
pub fn run_plan<R: Threads + Sync, B: OpBody + Sync, L: Ledger>(
    rt: &R,
    alloc: Global,
    body: &B,
    plan: &Plan,
    tables: &[Table],
    need: &Need,
    steps: &mut Steps<L>,
) -> Result<Run, RunFault>
    requires scans { ScansFit (length tables.now) (expr_of plan.now) }
    requires nodes { nodes (expr_of plan.now) < 2 ^ 32 }
    requires fits { PlanFits (expr_of plan.now) (leaf_kinds (expr_of plan.now) (each_kinds tables.now)) }
    requires need { NeedFits (length tables.now) need.now }
    requires captured { IsTrue (B.may_capture body.now || nat_eq (length need.now) 0) }
    ensures rows { IfOk result (λ run. run.rel.rows ≡ rows_over (expr_of plan.now) (each_rows tables.now)) }
    ensures kinds { IfOk result (λ run. run.rel.kinds ≡ plan_kinds (expr_of plan.now) (leaf_kinds (expr_of plan.now) (each_kinds tables.now))) }
    ensures kept { IfOk result (λ run. run.kept ≡ map (kept_at (expr_of plan.now) (each_rows tables.now)) need.now) }
    ensures none { OnOk result (first_fault (expr_of plan.now) (whole (expr_of plan.now) (each_rows tables.now)) (asked_of (each_rows tables.now) need.now) ≡ None) }
    ensures fault { IfErr result (λ e. IsFirst e (first_fault (expr_of plan.now) (whole (expr_of plan.now) (each_rows tables.now)) (asked_of (each_rows tables.now) need.now))) }
    ensures looks { steps.new ≤ steps.old + rows_in (whole (expr_of plan.now) (each_rows tables.now)) }
{
    let leaves = fetch_leaves(alloc, plan, tables, &Picks::new(alloc), steps)?;
    run_leaves(rt, alloc, body, plan, tables, need, leaves)
}

/// A plan over leaves that are its tables whole: what `run_plan` answers, without a look.
pub fn run_leaves<R: Threads + Sync, B: OpBody + Sync>(
    rt: &R,
    alloc: Global,
    body: &B,
    plan: &Plan,
    tables: &[Table],
    need: &Need,
    leaves: Leaves,
) -> Result<Run, RunFault>
    requires scans { ScansFit (length tables.now) (expr_of plan.now) }
    requires nodes { nodes (expr_of plan.now) < 2 ^ 32 }
    requires fits { PlanFits (expr_of plan.now) (leaf_kinds (expr_of plan.now) (each_kinds tables.now)) }
    requires need { NeedFits (length tables.now) need.now }
    requires captured { IsTrue (B.may_capture body.now || nat_eq (length need.now) 0) }
    requires rows { each_rows leaves ≡ whole (expr_of plan.now) (each_rows tables.now) }
    requires kinds { each_kinds leaves ≡ leaf_kinds (expr_of plan.now) (each_kinds tables.now) }
    ensures rows { IfOk result (λ run. run.rel.rows ≡ rows_over (expr_of plan.now) (each_rows tables.now)) }
    ensures kinds { IfOk result (λ run. run.rel.kinds ≡ plan_kinds (expr_of plan.now) (leaf_kinds (expr_of plan.now) (each_kinds tables.now))) }
    ensures kept { IfOk result (λ run. run.kept ≡ map (kept_at (expr_of plan.now) (each_rows tables.now)) need.now) }
    ensures none { OnOk result (first_fault (expr_of plan.now) (whole (expr_of plan.now) (each_rows tables.now)) (asked_of (each_rows tables.now) need.now) ≡ None) }
    ensures fault { IfErr result (λ e. IsFirst e (first_fault (expr_of plan.now) (whole (expr_of plan.now) (each_rows tables.now)) (asked_of (each_rows tables.now) need.now))) }
{
    let work = Work {
        rt,
        alloc,
        crew: body,
    };
    let need = need.as_slice();
    let walked = walk_all(&work, plan, &Traced { tables, need }, leaves)?;
    Ok(filled_run(alloc, walked, tables, need)?)
}

// What a walk has made, in columns that copies share, with an empty map for each that is needed and isn't there.
fn filled_run(
    alloc: Global,
    walked: Walked,
    tables: &[Table],
    need: &[Needed],
) -> Result<Run, AllocError>
    requires long { length walked.kept ≡ length need.now }
    requires known { NeedFits (length tables.now) need.now }
    ensures rel { IfOk result (λ run. run.rel ≡ walked.rel) }
    ensures long { IfOk result (λ run. length run.kept ≡ length walked.kept) }
    ensures each { IfOk result (λ run. (i : ℕ) → i < length need.now → let n = slice_index_or need.now i no_need in map_at run.kept i ≡ filled n.dir (length walked.rel.rows) (length (table_at (each_rows tables.now) n.table)) (map_at walked.kept i)) }
{
    let Walked { rel, kept } = walked;
    let rows = rel.len();
    let mut maps = kept.into_vec();
    let kept = fill(alloc, &mut maps, need, rows, tables)?;
    let rel = rel.shared(alloc)?;
    Ok(Run {
        rel,
        kept: Kepts::from_vec(kept),
    })
}
