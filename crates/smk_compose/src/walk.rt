ghost use Rattle.std.specs.Prelude.{◌≡◌, ◌||◌, ◌+◌, ◌<◌, ◌≤◌, ◌^◌, IsTrue, nat_eq, length, map, drop, All, None, IfOk, IfErr, OnOk};
ghost use Rattle.smk_base.specs.{declared.rel.TheConstants.{COLUMN_LIMIT, ROW_LIMIT}, PlanImage.{binary_of, expr_of, unary_of}, Rels.{kind_in, picked}};
ghost use Rattle.smk_model.specs.{Plain.{width, eval}, Selection.{each_rows, each_kinds, plan_kinds, PlanFits, nodes}, NodeFaults.{first_fault_from, asked_of}};
ghost use Rattle.smk_compose.specs.{KeptMaps.held_at, Through.{IsFirst, scan_at}, Walk.{AreDirected, WholeWhereNeeded, IsWalked, IsWidth, width1, width2}};

use crate::fault::RunFault;
use crate::leaves::Leaves;
use crate::passing::{Walked, scan_maps};
use crate::step::{run_one, run_two};
use smk_base::{Needed, Op1, Op2, Plan, numbers_below};
use smk_body::OpBody;
use smk_jobs::Work;
use smk_table::{Chosen, Table, narrow_one, narrow_two};
use std::alloc::{AllocError, Global};
use std::thread::Threads;

/// The tables of a plan, and what lineage to them is needed.
#[derive(Clone, Copy)]
pub(crate) struct Traced<'a> {
    pub(crate) tables: &'a [Table],
    pub(crate) need: &'a [Needed],
}

/// A plan over these leaves, with the needed lineage to the tables that it scans. Its nodes are numbered from 0 on.
pub(crate) fn walk_all<R: Threads + Sync, B: OpBody + Sync>(
    work: &Work<'_, R, B>,
    plan: &Plan,
    traced: &Traced<'_>,
    leaves: Leaves,
) -> Result<Walked, RunFault>
    requires enough { width (expr_of plan.now) ≤ length leaves }
    requires few_nodes { nodes (expr_of plan.now) < 2 ^ 32 }
    requires fits { PlanFits (expr_of plan.now) (each_kinds leaves) }
    requires captured { IsTrue (B.may_capture work.now.crew.now || nat_eq (length traced.now.need.now) 0) }
    requires directed { AreDirected traced.now.need.now }
    requires whole { WholeWhereNeeded (expr_of plan.now) (each_rows leaves) (each_rows traced.now.tables.now) traced.now.need.now }
    ensures rows { IfOk result (λ run. run.rel.rows ≡ eval (expr_of plan.now) (each_rows leaves)) }
    ensures kinds { IfOk result (λ run. run.rel.kinds ≡ plan_kinds (expr_of plan.now) (each_kinds leaves)) }
    ensures kept { IfOk result (λ run. run.kept ≡ map (held_at (expr_of plan.now) (each_rows traced.now.tables.now)) traced.now.need.now) }
    ensures none { OnOk result (first_fault_from (expr_of plan.now) (each_rows leaves) (asked_of (each_rows traced.now.tables.now) traced.now.need.now) 0 ≡ None) }
    ensures fault { IfErr result (λ e. IsFirst e (first_fault_from (expr_of plan.now) (each_rows leaves) (asked_of (each_rows traced.now.tables.now) traced.now.need.now) 0)) }
{
    let mut rest = leaves;
    let mut number = 0;
    let (width, _) = plan_width(plan, &rest, 0);
    let cols = numbers_below(work.alloc, width)?;
    walk(work, plan, cols.as_slice(), traced, &mut rest, &mut number)
}

// These columns of a plan over the first of these leaves, which it takes out, with the needed lineage to the tables that it scans. Of each leaf no columns are gathered but those that the plan reads for them. The nodes are numbered from `number` on, which then is the number after them.
fn walk<R: Threads + Sync, B: OpBody + Sync>(
    work: &Work<'_, R, B>,
    plan: &Plan,
    cols: &[u32],
    traced: &Traced<'_>,
    leaves: &mut Leaves,
    number: &mut u32,
) -> Result<Walked, RunFault>
    requires enough { width (expr_of plan.now) ≤ length leaves.old }
    requires few_nodes { number.old + nodes (expr_of plan.now) < 2 ^ 32 }
    requires fits { PlanFits (expr_of plan.now) (each_kinds leaves.old) }
    requires captured { IsTrue (B.may_capture work.now.crew.now || nat_eq (length traced.now.need.now) 0) }
    requires within { All (λ c. c < length (plan_kinds (expr_of plan.now) (each_kinds leaves.old))) cols.now }
    requires few { length cols.now ≤ COLUMN_LIMIT }
    requires directed { AreDirected traced.now.need.now }
    requires whole { WholeWhereNeeded (expr_of plan.now) (each_rows leaves.old) (each_rows traced.now.tables.now) traced.now.need.now }
    ensures rest { OnOk result (leaves.new ≡ drop (width (expr_of plan.now)) leaves.old) }
    ensures counted { OnOk result (number.new ≡ number.old + nodes (expr_of plan.now)) }
    ensures made { IfOk result (λ run. IsWalked (expr_of plan.now) cols.now leaves.old (each_rows traced.now.tables.now) traced.now.need.now number.old run) }
    ensures fault { IfErr result (λ e. IsFirst e (first_fault_from (expr_of plan.now) (each_rows leaves.old) (asked_of (each_rows traced.now.tables.now) traced.now.need.now) number.old)) }
{
    match plan {
        Plan::Scan(table) => {
            let leaf = walk_leaf(work.alloc, *table, leaves.take_first(), cols, traced.need)?;
            *number += 1;
            Ok(leaf)
        }
        Plan::One(op, input) => {
            let input = &**input;
            let (width, _) = plan_width(input, leaves, 0);
            let step = narrow_one(work.alloc, op, cols, width)?;
            let below = walk(work, input, step.read.as_slice(), traced, leaves, number)?;
            let node = *number;
            *number += 1;
            run_one(work, &step, below, node)
        }
        Plan::Two(op, left, right) => {
            let left = &**left;
            let right = &**right;
            let (width, middle) = plan_width(left, leaves, 0);
            let (behind, _) = plan_width(right, leaves, middle);
            let step = narrow_two(work.alloc, op, cols, width, behind)?;
            let l = walk(work, left, step.left.as_slice(), traced, leaves, number)?;
            let r = walk(work, right, step.right.as_slice(), traced, leaves, number)?;
            let node = *number;
            *number += 1;
            run_two(work, &step, l, r, node)
        }
    }
}

// The number of columns of a plan over the leaves from the k-th on, and the number of the leaf after these.
fn plan_width(plan: &Plan, leaves: &Leaves, k: usize) -> (u32, usize)
    requires enough { k + width (expr_of plan.now) ≤ length leaves.now }
    requires fits { PlanFits (expr_of plan.now) (drop k (each_kinds leaves.now)) }
    ensures is { IsWidth (expr_of plan.now) (drop k (each_kinds leaves.now)) (drop k (each_rows leaves.now)) result.0 }
    ensures next { result.1 ≡ k + width (expr_of plan.now) }
{
    match plan {
        Plan::Scan(_) => (leaves.width_at(k), k + 1),
        Plan::One(op, input) => {
            let (below, behind) = plan_width(input, leaves, k);
            (width_one(op, below), behind)
        }
        Plan::Two(op, left, right) => {
            let (l, middle) = plan_width(left, leaves, k);
            let (r, behind) = plan_width(right, leaves, middle);
            (width_two(op, l, r), behind)
        }
    }
}

fn width_one(op: &Op1, below: u32) -> u32
    requires { width1 (unary_of op.now) below ≤ COLUMN_LIMIT }
    ensures { result ≡ width1 (unary_of op.now) below }
{
    match op {
        Op1::Select(_) => below,
        Op1::Project(items) => items.as_slice().len() as u32,
        Op1::Distinct(items) => items.as_slice().len() as u32,
        Op1::Group(keys, aggs) => {
            let keyed = keys.as_slice().len() as u32;
            keyed + aggs.as_slice().len() as u32
        }
    }
}

fn width_two(op: &Op2, left: u32, right: u32) -> u32
    requires { width2 (binary_of op.now) left right ≤ COLUMN_LIMIT }
    ensures { result ≡ width2 (binary_of op.now) left right }
{
    match op {
        Op2::UnionAll | Op2::Union => left,
        _ => left + right,
    }
}

// These columns of a leaf that scans the table with this number: each of its rows comes from itself.
fn walk_leaf(
    alloc: Global,
    table: u32,
    leaf: Chosen,
    cols: &[u32],
    need: &[Needed],
) -> Result<Walked, AllocError>
    requires within { All (λ c. c < length leaf.kinds) cols.now }
    requires few { length cols.now ≤ COLUMN_LIMIT }
    ensures rel { IfOk result (λ run. run.rel ≡ record { kinds = map (kind_in leaf.kinds) cols.now; rows = map (picked cols.now) leaf.rows }) }
    ensures few { OnOk result (length leaf.rows ≤ ROW_LIMIT) }
    ensures kept { IfOk result (λ run. run.kept ≡ map (scan_at table (length leaf.rows)) need.now) }
{
    let leaf = leaf.shared(alloc)?;
    let rel = leaf.columns(alloc, cols)?;
    let kept = scan_maps(alloc, table, leaf.len(), need)?;
    Ok(Walked { rel, kept })
}
