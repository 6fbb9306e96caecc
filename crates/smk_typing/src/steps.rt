ghost use Rattle.std.specs.Prelude.{◌≡◌, ◌≤◌, [], ◌∷◌, map, length, All, Ok, IfOk};
ghost use Rattle.smk_base.specs.{PlanImage.{expr_of, unary_of}, TreeImage.ask_step_image, declared.book.limits.TheConstants.NODE_LIMIT, declared.rel.TheConstants.COLUMN_LIMIT};
ghost use Rattle.smk_model.specs.{Asks.{asked_plan, chain, typed_steps}, Limits.{KeepsAskStep, KeepsSteps}, Names.{in_turn, column_kinds}, Selection.{PlanFits, plan_kinds}, Typing.column_of};
ghost use Rattle.smk_typing.specs.{Answers.Finds, Images.{plan_of, steps_image}, Steps.{IsChain, asked_after}};

use crate::book::declared::names_and_kinds;
use crate::draft::columns_of;
use crate::draft::indexed::Indexed;
use crate::plan::put_step;
use crate::plan::typed::Typed;
use smk_base::{AskStep, AskSteps, ColDecls, ColNames, Kinds, ListOf, Op1, Plan, TypeFault};
use std::alloc::Global;

/// Steps with one input, each over what the one before it makes.
pub type Ops = ListOf<Op1>;

/// Typed steps, and the names and the kinds of the columns that they make.
#[derive(Drop)]
pub struct TypedSteps {
    pub ops: Ops,
    pub names: ColNames,
    pub kinds: Kinds,
}

/// The steps of an `ask` line over the columns of its table, typed as the steps of a view over a scan of that table: with every name looked up and every kind checked, or the first fault.
pub fn check_steps(
    alloc: Global,
    cols: &ColDecls,
    steps: &AskSteps,
) -> Result<TypedSteps, TypeFault>
    requires width { length cols.now ≤ COLUMN_LIMIT }
    requires kept { KeepsSteps (map ask_step_image steps.now) }
    ensures steps { Finds result (typed_steps (map column_of cols.now) (map ask_step_image steps.now)) steps_image }
    ensures fits { IfOk result (λ typed. PlanFits (chain (map unary_of typed.ops)) (column_kinds (map column_of cols.now) ∷ [])) }
    ensures kinds { IfOk result (λ typed. plan_kinds (chain (map unary_of typed.ops)) (column_kinds (map column_of cols.now) ∷ []) ≡ typed.kinds) }
    ensures named { IfOk result (λ typed. length typed.names ≡ length typed.kinds) }
    ensures few { IfOk result (λ typed. length typed.ops ≤ NODE_LIMIT) }
{
    let columns = columns_of(alloc, cols)?;
    let mut typed = Typed {
        plan: Plan::Scan(0),
        columns,
    };
    match add_steps(alloc, steps.as_slice(), &mut typed) {
        Ok(()) => taken_apart(alloc, typed),
        Err(fault) => {
            drop(typed);
            Err(fault)
        }
    }
}

// Puts steps in turn over a typed input.
fn add_steps(alloc: Global, steps: &[AskStep], typed: &mut Typed) -> Result<(), TypeFault>
    requires width { length typed.old.columns ≤ COLUMN_LIMIT }
    requires kept { All (λ step. KeepsAskStep step.what) (map ask_step_image steps.now) }
    ensures { Finds result (in_turn asked_after (plan_of typed.old) steps.now) (λ _. plan_of typed.new) }
{
    let tables = Indexed::new(alloc);
    for step in steps {
        put_step(alloc, &tables, &step.what, step.at, typed)?;
    }
    Ok(())
}

// The steps of a typed chain, with the names and the kinds of its columns.
fn taken_apart(alloc: Global, typed: Typed) -> Result<TypedSteps, TypeFault>
    requires { IsChain (expr_of typed.plan) }
    ensures { Finds result (Ok (asked_plan (plan_of typed))) steps_image }
{
    match names_and_kinds(alloc, typed.columns.as_slice()) {
        Ok((names, kinds)) => with_ops(alloc, typed.plan, names, kinds),
        Err(fault) => {
            drop(typed);
            Err(fault)
        }
    }
}

// The steps of a chain, with these names and kinds.
fn with_ops(
    alloc: Global,
    plan: Plan,
    names: ColNames,
    kinds: Kinds,
) -> Result<TypedSteps, TypeFault>
    requires { IsChain (expr_of plan) }
    ensures { Finds result (Ok (record { plan = expr_of plan; names = names; kinds = kinds })) steps_image }
{
    let mut ops = Ops::new(alloc);
    match put_ops(plan, &mut ops) {
        Ok(()) => Ok(TypedSteps { ops, names, kinds }),
        Err(fault) => {
            drop(ops);
            drop(names);
            drop(kinds);
            Err(fault)
        }
    }
}

// Puts the steps of a chain one after the other, the one at its leaf first. It has few steps, so the recursion is shallow.
fn put_ops(plan: Plan, ops: &mut Ops) -> Result<(), TypeFault>
    requires chain { IsChain (expr_of plan) }
    requires none { ops.old ≡ [] }
    ensures { Finds result (Ok (expr_of plan)) (λ _. chain (map unary_of ops.new)) }
{
    match plan {
        Plan::Scan(_) => Ok(()),
        Plan::One(op, input) => match put_ops(Box::into_inner(input), ops) {
            Ok(()) => {
                ops.push(op)?;
                Ok(())
            }
            Err(fault) => {
                drop(op);
                Err(fault)
            }
        },
        Plan::Two(_, _, _) => unreachable!(),
    }
}
