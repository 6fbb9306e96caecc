// What steps make of rows.
ghost use Rattle.std.specs.Prelude.{◌≡◌, ◌≤◌, ◌<◌, ◌^◌, [], ◌∷◌, map, length, None, Ok, Err, IfOk, OnOk, ◌≢◌};
ghost use Rattle.smk_base.specs.{PlanImage.{expr_of, unary_of}, TreeImage.ask_step_image, declared.book.type_fault.TypeFault.TheVariants.NoMemory, declared.rel.TheConstants.COLUMN_LIMIT};
ghost use Rattle.smk_model.specs.{Asks.{chain, steps_reply, typed_steps}, Limits.KeepsSteps, Names.column_kinds, Plain.{eval, width}, Selection.{PlanFits, first_full, nodes, plan_kinds}, Typing.column_of};
ghost use Rattle.smk_typing.specs.Images.{steps_image};

use crate::chained::plan_of;
use smk_base::{AskRefusal, AskReply, AskSteps, ColDecls, Plan, Rel, TypeFault};
use smk_compose::{EvalFault, Leaves, eval_leaves};
use smk_plain::Plain;
use smk_report::type_words;
use smk_typing::{Ops, TypedSteps, check_steps};
use std::alloc::{AllocError, Global};
use std::thread::Threads;

// The rows of a plan over its one leaf, where no node has too many rows.
fn rows_over<R: Threads + Sync>(
    rt: &R,
    alloc: Global,
    plan: &Plan,
    rows: Rel,
) -> Result<Rel, AllocError>
    requires leaf { width (expr_of plan.now) ≡ 1 }
    requires nodes { nodes (expr_of plan.now) < 2 ^ 32 }
    requires fits { PlanFits (expr_of plan.now) (rows.kinds ∷ []) }
    requires small { first_full (expr_of plan.now) (rows.rows ∷ []) ≡ None }
    ensures rows { IfOk result (λ rel. rel.rows ≡ eval (expr_of plan.now) (rows.rows ∷ [])) }
    ensures kinds { IfOk result (λ rel. rel.kinds ≡ plan_kinds (expr_of plan.now) (rows.kinds ∷ [])) }
{
    let leaves = Leaves::one(alloc, rows)?;
    match eval_leaves(rt, alloc, &Plain, plan, leaves) {
        Ok(rel) => Ok(rel),
        Err(EvalFault::NoMemory) => Err(AllocError),
        Err(EvalFault::Rows { .. }) => unreachable!(),
    }
}

// The rows of steps over rows. No step adds rows, so no node has too many.
fn evaluated<R: Threads + Sync>(
    rt: &R,
    alloc: Global,
    ops: Ops,
    rows: Rel,
) -> Result<Rel, AllocError>
    requires few { length ops ≤ 64 }
    requires fits { PlanFits (chain (map unary_of ops)) (rows.kinds ∷ []) }
    ensures rows { IfOk result (λ rel. rel.rows ≡ eval (chain (map unary_of ops)) (rows.rows ∷ [])) }
    ensures kinds { IfOk result (λ rel. rel.kinds ≡ plan_kinds (chain (map unary_of ops)) (rows.kinds ∷ [])) }
{
    let _few = rows.len();
    match plan_of(alloc, ops) {
        Ok(plan) => {
            let made = rows_over(rt, alloc, &plan, rows);
            drop(plan);
            made
        }
        Err(e) => {
            drop(rows);
            Err(e)
        }
    }
}

// What typed steps make of rows.
fn told_of<R: Threads + Sync>(
    rt: &R,
    alloc: Global,
    typed: TypedSteps,
    rows: Rel,
) -> Result<AskReply, AllocError>
    requires few { length typed.ops ≤ 64 }
    requires fits { PlanFits (chain (map unary_of typed.ops)) (rows.kinds ∷ []) }
    requires kinds { plan_kinds (chain (map unary_of typed.ops)) (rows.kinds ∷ []) ≡ typed.kinds }
    ensures { IfOk result (λ told. told ≡ steps_reply (Ok (steps_image typed)) rows.rows) }
{
    let TypedSteps { ops, names, kinds } = typed;
    drop(kinds);
    match evaluated(rt, alloc, ops, rows) {
        Ok(rel) => Ok(AskReply::Rows { names, rel }),
        Err(e) => {
            drop(names);
            Err(e)
        }
    }
}

/// What steps make of rows of a table with these columns, and the names of their columns, or the refusal of steps that aren't well typed. It makes no look.
pub fn stepped<R: Threads + Sync>(
    rt: &R,
    alloc: Global,
    cols: &ColDecls,
    steps: &AskSteps,
    rows: Rel,
) -> Result<AskReply, AllocError>
    requires width { length cols.now ≤ COLUMN_LIMIT }
    requires kept { KeepsSteps (map ask_step_image steps.now) }
    requires kinds { rows.kinds ≡ column_kinds (map column_of cols.now) }
    ensures { IfOk result (λ told. told ≡ steps_reply (typed_steps (map column_of cols.now) (map ask_step_image steps.now)) rows.rows) }
{
    match check_steps(alloc, cols, steps) {
        Ok(typed) => told_of(rt, alloc, typed, rows),
        Err(fault) => {
            drop(rows);
            refused(fault)
        }
    }
}

// The refusal of steps for a fault; lack of memory isn't one.
fn refused(fault: TypeFault) -> Result<AskReply, AllocError>
    ensures told { IfOk result (λ told. told ≡ steps_reply (Err fault) []) }
    ensures place { OnOk result (fault ≢ NoMemory) }
{
    match fault {
        TypeFault::NoMemory => Err(AllocError),
        _ => {
            let (_, at) = type_words(fault);
            Ok(AskReply::Refused(AskRefusal::Steps { at, fault }))
        }
    }
}
