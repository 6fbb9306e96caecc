// Steps with one input as a plan.
ghost use Rattle.std.specs.Prelude.{◌≡◌, map, IfOk, OnOk};
ghost use Rattle.smk_base.specs.{PlanImage.{expr_of, unary_of}, Plans.{Apply, Leaf}};
ghost use Rattle.smk_model.specs.Asks.{chain};

use smk_base::{Op1, Plan};
use smk_typing::Ops;
use std::alloc::{AllocError, Global};
use std::mem;

// A plan in a box.
fn boxed(alloc: Global, plan: Plan) -> Result<Box<Plan>, AllocError>
    ensures { IfOk result (λ made. made.value ≡ plan) }
{
    Ok(Box::new(alloc, plan)?)
}

// Puts a step over a plan. On an error the plan is lost.
fn put_over(alloc: Global, op: Op1, plan: &mut Plan) -> Result<(), AllocError>
    ensures { OnOk result (expr_of plan.new ≡ Apply (unary_of op) (expr_of plan.old)) }
{
    match boxed(alloc, mem::replace(plan, Plan::Scan(0))) {
        Ok(input) => {
            *plan = Plan::One(op, input);
            Ok(())
        }
        Err(e) => {
            drop(op);
            Err(e)
        }
    }
}

// Puts steps over a leaf, one after the other. On an error the plan is lost.
fn put_each(alloc: Global, ops: Vec<Op1>, plan: &mut Plan) -> Result<(), AllocError>
    requires { expr_of plan.old ≡ Leaf 0 }
    ensures { OnOk result (expr_of plan.new ≡ chain (map unary_of ops.items)) }
{
    for op in ops {
        put_over(alloc, op, plan)?;
    }
    Ok(())
}

/// The plan of steps over its one leaf.
pub(crate) fn plan_of(alloc: Global, ops: Ops) -> Result<Plan, AllocError>
    ensures { IfOk result (λ plan. expr_of plan ≡ chain (map unary_of ops)) }
{
    let mut plan = Plan::Scan(0);
    match put_each(alloc, ops.into_vec(), &mut plan) {
        Ok(()) => Ok(plan),
        Err(e) => {
            drop(plan);
            Err(e)
        }
    }
}
