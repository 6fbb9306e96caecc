ghost use Rattle.std.specs.Prelude.{◌≡◌, ◌<◌, ◌^◌, ℕ, length, Some, None, IfOk, IfErr, OnOk};
ghost use Rattle.smk_base.specs.PlanImage.{expr_of};
ghost use Rattle.smk_model.specs.{Plain.{width, eval}, Selection.{each_rows, each_kinds, plan_kinds, PlanFits, nodes, first_full}};
ghost use Rattle.smk_compose.specs.declared.fault.EvalFault.TheVariants.{Rows};

use crate::fault::{EvalFault, RunFault};
use crate::leaves::Leaves;
use crate::passing::Walked;
use crate::walk::{Traced, walk_all};
use smk_base::{Plan, Rel};
use smk_body::OpBody;
use smk_jobs::Work;
use std::alloc::Global;
use std::thread::Threads;

/// The rows of a plan over one Rel for each of its leaves, its steps carried out by a body. It makes no look. It is refused for `Rows` exactly if some node has more than 1,048,576 rows, at the first such node in post-order.
#[tactic(auto, using(crate::proofs::Walks::unasked_few, crate::proofs::Walks::unasked_many, crate::proofs::Walks::unasked_pairs))]
pub fn eval_leaves<R: Threads + Sync, B: OpBody + Sync>(
    rt: &R,
    alloc: Global,
    body: &B,
    plan: &Plan,
    leaves: Leaves,
) -> Result<Rel, EvalFault>
    requires leaves { length leaves ≡ width (expr_of plan.now) }
    requires nodes { nodes (expr_of plan.now) < 2 ^ 32 }
    requires fits { PlanFits (expr_of plan.now) (each_kinds leaves) }
    ensures rows { IfOk result (λ rel. rel.rows ≡ eval (expr_of plan.now) (each_rows leaves)) }
    ensures kinds { IfOk result (λ rel. rel.kinds ≡ plan_kinds (expr_of plan.now) (each_kinds leaves)) }
    ensures few { OnOk result (first_full (expr_of plan.now) (each_rows leaves) ≡ None) }
    ensures many { IfErr result (λ e. (node : ℕ) → e ≡ Rows node → first_full (expr_of plan.now) (each_rows leaves) ≡ Some node) }
{
    let work = Work {
        rt,
        alloc,
        crew: body,
    };
    let traced = Traced {
        tables: &[],
        need: &[],
    };
    match walk_all(&work, plan, &traced, leaves) {
        Ok(Walked { rel, kept }) => {
            drop(kept);
            Ok(rel)
        }
        Err(RunFault::Rows { node }) => Err(EvalFault::Rows { node }),
        Err(RunFault::Pairs { .. }) => unreachable!(),
        Err(RunFault::NoMemory) => Err(EvalFault::NoMemory),
    }
}
