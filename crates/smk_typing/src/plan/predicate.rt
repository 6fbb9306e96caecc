ghost use Rattle.std.specs.Prelude.{◌≤◌, cond, length, Ok};
ghost use Rattle.smk_base.specs.{PlanImage.formula_of, Plans.{Conjunction, Disjunction}, TreeImage.pred_image, Trees.CompareNode, declared.rel.TheConstants.COLUMN_LIMIT};
ghost use Rattle.smk_model.specs.TypedSteps as steps;
ghost use Rattle.smk_typing.specs.Answers.{Finds};

use crate::plan::columns::{column_named, is_same_sort, term_place, typed_term};
use crate::plan::places::{boxed, boxes};
use smk_base::{CmpOp, Column, Pred, PredTree, Term, TypeFault, Word};
use std::alloc::Global;

/// A comparison over columns.
fn typed_cmp(
    alloc: Global,
    columns: &[Column],
    word: &Word,
    op: CmpOp,
    term: &Term,
) -> Result<Pred, TypeFault>
    requires { length columns.now ≤ COLUMN_LIMIT }
    ensures { Finds result (steps.typed_pred columns.now (CompareNode word.now op term.now)) formula_of }
{
    let (left, left_kind) = column_named(columns, word)?;
    let (right, right_kind) = typed_term(alloc, columns, term)?;
    if !is_same_sort(left_kind, right_kind) {
        drop(right);
        return Err(TypeFault::KindMismatch {
            at: term_place(term),
        });
    }
    Ok(Pred::Cmp(left, op, right))
}

/// Both tests together, or either of them.
fn together(alloc: Global, is_and: bool, left: Pred, right: Pred) -> Result<Pred, TypeFault>
    ensures { Finds result (Ok (cond is_and (Conjunction (formula_of left) (formula_of right)) (Disjunction (formula_of left) (formula_of right)))) formula_of }
{
    let (left, right) = boxes(alloc, left, right)?;
    if is_and {
        Ok(Pred::And(left, right))
    } else {
        Ok(Pred::Or(left, right))
    }
}

/// A predicate over columns.
pub fn typed_pred(alloc: Global, columns: &[Column], tree: &PredTree) -> Result<Pred, TypeFault>
    requires { length columns.now ≤ COLUMN_LIMIT }
    ensures { Finds result (steps.typed_pred columns.now (pred_image tree.now)) formula_of }
{
    match tree {
        PredTree::Cmp(word, op, term) => typed_cmp(alloc, columns, word, *op, term),
        PredTree::And(left, right) => {
            let left = typed_pred(alloc, columns, left)?;
            match typed_pred(alloc, columns, right) {
                Ok(right) => together(alloc, true, left, right),
                Err(fault) => {
                    drop(left);
                    Err(fault)
                }
            }
        }
        PredTree::Or(left, right) => {
            let left = typed_pred(alloc, columns, left)?;
            match typed_pred(alloc, columns, right) {
                Ok(right) => together(alloc, false, left, right),
                Err(fault) => {
                    drop(left);
                    Err(fault)
                }
            }
        }
        PredTree::Not(inner) => {
            let inner = typed_pred(alloc, columns, inner)?;
            Ok(Pred::Not(boxed(alloc, inner)?))
        }
    }
}
