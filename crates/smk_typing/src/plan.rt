ghost use Rattle.std.specs.Prelude.{◌≡◌, ◌≤◌, cond, length, Ok, IfOk, OnOk};
ghost use Rattle.smk_base.specs.{Plans.{Apply, Combine}, PlanImage.{expr_of, unary_of, binary_of}, Trees.ScanNode, TreeImage.{pred_image, tree_image, step_image}, declared.rel.TheConstants.COLUMN_LIMIT};
ghost use Rattle.smk_model.specs.Limits.{KeepsTree, KeepsStep};
ghost use Rattle.smk_model.specs.TypedSteps as steps;
ghost use Rattle.smk_model.specs.Typing as typing;
ghost use Rattle.smk_typing.specs.{Answers.Finds, Images.plan_of};

pub(crate) mod columns;
pub(crate) mod lists;
pub(crate) mod places;
mod predicate;
mod sides;
pub(crate) mod typed;

use crate::draft::indexed::Indexed;
use crate::draft::{columns_at, table_by_word};
use crate::plan::lists::{typed_group, typed_items, typed_pairs};
use crate::plan::places::{boxed, boxes, put};
use crate::plan::predicate::typed_pred;
use crate::plan::sides::{join_columns, united};
use crate::plan::typed::{Typed, TypedGrouping};
use smk_base::{
    AggTree, Columns, ItemTree, Op1, Op2, PairTree, Plan, PredTree, StepTree, TableInfo, Tree,
    TypeFault, Word,
};
use std::alloc::Global;
use std::mem;

/// Puts the scan of the table that a word names in place of what is there.
fn put_scan(
    alloc: Global,
    tables: &Indexed<TableInfo>,
    word: &Word,
    typed: &mut Typed,
) -> Result<(), TypeFault>
    ensures plan { Finds result (typing.typed_plan tables.now (ScanNode word.now)) (λ _. plan_of typed.new) }
    ensures width { OnOk result (length typed.new.columns ≤ COLUMN_LIMIT) }
{
    let number = table_by_word(tables, word)?;
    let columns = columns_at(alloc, tables, number)?;
    put(
        typed,
        Typed {
            plan: Plan::Scan(number),
            columns,
        },
    );
    Ok(())
}

/// Takes a plan out of its place, where a scan is left.
fn taken(plan: &mut Plan) -> Plan
    ensures { result ≡ plan.old }
{
    mem::replace(plan, Plan::Scan(0))
}

/// Puts a step over a plan; these are its output columns. On an error the plan is lost.
fn apply(alloc: Global, op: Op1, typed: &mut Typed) -> Result<(), TypeFault>
    ensures plan { Finds result (Ok (record { plan = Apply (unary_of op) (expr_of typed.old.plan); columns = typed.old.columns })) (λ _. plan_of typed.new) }
    ensures columns { OnOk result (typed.new.columns ≡ typed.old.columns) }
{
    match boxed(alloc, taken(&mut typed.plan)) {
        Ok(input) => {
            put(&mut typed.plan, Plan::One(op, input));
            Ok(())
        }
        Err(fault) => {
            drop(op);
            Err(fault)
        }
    }
}

/// A step over two plans.
fn over_two(op: Op2, inputs: (Box<Plan>, Box<Plan>)) -> Plan
    ensures { expr_of result ≡ Combine (binary_of op) (expr_of inputs.0.value) (expr_of inputs.1.value) }
{
    let (left, right) = inputs;
    Plan::Two(op, left, right)
}

/// Puts a step over a plan and a right one; these are its output columns. On an error the plans are lost.
fn combine(alloc: Global, op: Op2, left: &mut Typed, right: &mut Typed) -> Result<(), TypeFault>
    ensures plan { Finds result (Ok (record { plan = Combine (binary_of op) (expr_of left.old.plan) (expr_of right.old.plan); columns = left.old.columns })) (λ _. plan_of left.new) }
    ensures columns { OnOk result (left.new.columns ≡ left.old.columns) }
{
    match boxes(alloc, taken(&mut left.plan), taken(&mut right.plan)) {
        Ok(inputs) => {
            put(&mut left.plan, over_two(op, inputs));
            Ok(())
        }
        Err(fault) => {
            drop(op);
            Err(fault)
        }
    }
}

/// Puts `where` over a typed input.
fn select(alloc: Global, left: &mut Typed, tree: &PredTree) -> Result<(), TypeFault>
    requires { length left.old.columns ≤ COLUMN_LIMIT }
    ensures plan { Finds result (steps.selected_plan (plan_of left.old) (pred_image tree.now)) (λ _. plan_of left.new) }
    ensures width { OnOk result (length left.new.columns ≤ COLUMN_LIMIT) }
{
    let pred = typed_pred(alloc, left.columns.as_slice(), tree)?;
    apply(alloc, Op1::Select(pred), left)
}

/// Puts `project`, or `distinct`, over a typed input.
fn project(
    alloc: Global,
    is_distinct: bool,
    left: &mut Typed,
    trees: &[ItemTree],
) -> Result<(), TypeFault>
    requires width { length left.old.columns ≤ COLUMN_LIMIT }
    requires few { length trees.now ≤ COLUMN_LIMIT }
    ensures plan { Finds result (cond is_distinct (steps.distinct (plan_of left.old) trees.now) (steps.projected (plan_of left.old) trees.now)) (λ _. plan_of left.new) }
    ensures width { OnOk result (length left.new.columns ≤ COLUMN_LIMIT) }
{
    let (items, made) = typed_items(alloc, left.columns.as_slice(), trees)?;
    put(&mut left.columns, made);
    if is_distinct {
        apply(alloc, Op1::Distinct(items), left)
    } else {
        apply(alloc, Op1::Project(items), left)
    }
}

/// Puts `group` over a typed input, at its place.
fn group(
    alloc: Global,
    at: u64,
    left: &mut Typed,
    words: &[Word],
    trees: &[AggTree],
) -> Result<(), TypeFault>
    requires { length left.old.columns ≤ COLUMN_LIMIT }
    ensures plan { Finds result (steps.grouped_plan at (plan_of left.old) words.now trees.now) (λ _. plan_of left.new) }
    ensures width { OnOk result (length left.new.columns ≤ COLUMN_LIMIT) }
{
    let TypedGrouping {
        keys,
        aggs,
        columns,
    } = typed_group(alloc, left.columns.as_slice(), at, words, trees)?;
    put(&mut left.columns, columns);
    apply(alloc, Op1::Group(keys, aggs), left)
}

/// Puts `join` over two typed inputs, at its place.
fn join(
    alloc: Global,
    at: u64,
    left: &mut Typed,
    right: &mut Typed,
    trees: &[PairTree],
) -> Result<(), TypeFault>
    requires left { length left.old.columns ≤ COLUMN_LIMIT }
    requires right { length right.old.columns ≤ COLUMN_LIMIT }
    ensures plan { Finds result (steps.joined_plan at trees.now (plan_of left.old) (plan_of right.old)) (λ _. plan_of left.new) }
    ensures width { OnOk result (length left.new.columns ≤ COLUMN_LIMIT) }
{
    let pairs = typed_pairs(
        alloc,
        left.columns.as_slice(),
        right.columns.as_slice(),
        trees,
    )?;
    join_columns(alloc, at, &mut left.columns, &mut right.columns)?;
    combine(alloc, Op2::Join(pairs), left, right)
}

/// Puts `theta` over two typed inputs, at its place.
fn theta(
    alloc: Global,
    at: u64,
    left: &mut Typed,
    right: &mut Typed,
    tree: &PredTree,
) -> Result<(), TypeFault>
    requires left { length left.old.columns ≤ COLUMN_LIMIT }
    requires right { length right.old.columns ≤ COLUMN_LIMIT }
    ensures plan { Finds result (steps.theta_plan at (pred_image tree.now) (plan_of left.old) (plan_of right.old)) (λ _. plan_of left.new) }
    ensures width { OnOk result (length left.new.columns ≤ COLUMN_LIMIT) }
{
    join_columns(alloc, at, &mut left.columns, &mut right.columns)?;
    let pred = typed_pred(alloc, left.columns.as_slice(), tree)?;
    combine(alloc, Op2::Theta(pred), left, right)
}

/// Puts `product` over two typed inputs, at its place.
fn product(alloc: Global, at: u64, left: &mut Typed, right: &mut Typed) -> Result<(), TypeFault>
    requires left { length left.old.columns ≤ COLUMN_LIMIT }
    requires right { length right.old.columns ≤ COLUMN_LIMIT }
    ensures plan { Finds result (steps.product_plan at (plan_of left.old) (plan_of right.old)) (λ _. plan_of left.new) }
    ensures width { OnOk result (length left.new.columns ≤ COLUMN_LIMIT) }
{
    join_columns(alloc, at, &mut left.columns, &mut right.columns)?;
    combine(alloc, Op2::Product, left, right)
}

/// Puts a union over two typed inputs, at its place.
fn unite(
    alloc: Global,
    op: Op2,
    at: u64,
    left: &mut Typed,
    right: &mut Typed,
) -> Result<(), TypeFault>
    requires { length left.old.columns ≤ COLUMN_LIMIT }
    ensures plan { Finds result (steps.united_plan (binary_of op) at (plan_of left.old) (plan_of right.old)) (λ _. plan_of left.new) }
    ensures width { OnOk result (length left.new.columns ≤ COLUMN_LIMIT) }
{
    match united(alloc, at, left.columns.as_slice(), right.columns.as_slice()) {
        Ok(columns) => {
            put(&mut left.columns, columns);
            combine(alloc, op, left, right)
        }
        Err(fault) => {
            drop(op);
            Err(fault)
        }
    }
}

/// No plan yet, and no columns. It takes no memory.
pub fn blank(alloc: Global) -> Typed
    ensures { length result.columns ≡ 0 }
{
    Typed {
        plan: Plan::Scan(0),
        columns: Columns::new(alloc),
    }
}

/// Puts a plan over the tables so far in place of what is there. It has few nodes and parentheses, so the recursion is shallow.
#[cycle(plan)]
pub fn put_plan(
    alloc: Global,
    tables: &Indexed<TableInfo>,
    tree: &Tree,
    typed: &mut Typed,
) -> Result<(), TypeFault>
    requires kept { KeepsTree (tree_image tree.now) }
    ensures plan { Finds result (typing.typed_plan tables.now (tree_image tree.now)) (λ _. plan_of typed.new) }
    ensures width { OnOk result (length typed.new.columns ≤ COLUMN_LIMIT) }
{
    match tree {
        Tree::Scan(word) => put_scan(alloc, tables, word, typed),
        Tree::Step { at, input, what } => {
            put_plan(alloc, tables, input, typed)?;
            let mut right = blank(alloc);
            let added = add_step(alloc, tables, what, *at, typed, &mut right);
            drop(right);
            added
        }
    }
}

/// Puts a step at its place over a typed input, and the plan of its second source in place of the right one. On a fault nothing is said of either.
#[cycle(plan)]
fn add_step(
    alloc: Global,
    tables: &Indexed<TableInfo>,
    what: &StepTree,
    at: u64,
    left: &mut Typed,
    right: &mut Typed,
) -> Result<(), TypeFault>
    requires kept { KeepsStep (step_image what.now) }
    requires width { length left.old.columns ≤ COLUMN_LIMIT }
    ensures plan { Finds result (typing.typed_step tables.now (step_image what.now) at (plan_of left.old)) (λ _. plan_of left.new) }
    ensures width { OnOk result (length left.new.columns ≤ COLUMN_LIMIT) }
{
    match what {
        StepTree::Select(pred) => select(alloc, left, pred),
        StepTree::Project(items) => project(alloc, false, left, items.as_slice()),
        StepTree::Distinct(items) => project(alloc, true, left, items.as_slice()),
        StepTree::Group(keys, aggs) => group(alloc, at, left, keys.as_slice(), aggs.as_slice()),
        StepTree::Join(source, pairs) => match put_plan(alloc, tables, source, right) {
            Ok(()) => join(alloc, at, left, right, pairs.as_slice()),
            Err(fault) => Err(fault),
        },
        StepTree::Theta(source, pred) => match put_plan(alloc, tables, source, right) {
            Ok(()) => theta(alloc, at, left, right, pred),
            Err(fault) => Err(fault),
        },
        StepTree::Product(source) => match put_plan(alloc, tables, source, right) {
            Ok(()) => product(alloc, at, left, right),
            Err(fault) => Err(fault),
        },
        StepTree::UnionAll(source) => match put_plan(alloc, tables, source, right) {
            Ok(()) => unite(alloc, Op2::UnionAll, at, left, right),
            Err(fault) => Err(fault),
        },
        StepTree::Union(source) => match put_plan(alloc, tables, source, right) {
            Ok(()) => unite(alloc, Op2::Union, at, left, right),
            Err(fault) => Err(fault),
        },
    }
}

/// Puts a step at its place over a typed input. On a fault nothing is said of it.
pub fn put_step(
    alloc: Global,
    tables: &Indexed<TableInfo>,
    what: &StepTree,
    at: u64,
    typed: &mut Typed,
) -> Result<(), TypeFault>
    requires kept { KeepsStep (step_image what.now) }
    requires width { length typed.old.columns ≤ COLUMN_LIMIT }
    ensures plan { Finds result (typing.typed_step tables.now (step_image what.now) at (plan_of typed.old)) (λ _. plan_of typed.new) }
    ensures width { OnOk result (length typed.new.columns ≤ COLUMN_LIMIT) }
{
    let mut right = blank(alloc);
    let added = add_step(alloc, tables, what, at, typed, &mut right);
    drop(right);
    added
}
