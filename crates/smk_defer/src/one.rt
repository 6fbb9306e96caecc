//! The lineage of a step with one input, from what was kept of it.

ghost use Rattle.std.specs.Prelude.{◌≡◌, IfOk};
ghost use Rattle.smk_base.specs.{PlanImage.{formula_of, unary_of}, Plans.Selection};
ghost use Rattle.smk_model.specs.{Kinds.{Fits1, FormulaFits}, Ways.way};
ghost use Rattle.smk_body.specs.Locals.{local1};
ghost use Rattle.smk_defer.specs.Kept.{keys1};

use crate::keys::{key_way, row_way};
use smk_base::{Dir, Op1, Pred, Rel};
use smk_body::{Local, Way, images, marked_lists_if, no_side, selected_places};
use smk_keys::KeyTable;
use std::alloc::{AllocError, Global};

/// The wanted lineage of a step with one input, from its keys.
pub(crate) fn lineage1(
    alloc: Global,
    op: &Op1,
    input: &Rel,
    keys: &KeyTable,
    want: Dir,
) -> Result<Local, AllocError>
    requires fits { Fits1 (unary_of op.now) input.now.kinds }
    requires keys { keys.now ≡ keys1 (unary_of op.now) input.now.rows }
    ensures { IfOk result (λ local. local ≡ local1 (unary_of op.now) input.now.rows want) }
{
    if !want.back && !want.fwd {
        return Ok(Local::of_one(no_side()));
    }
    let way = way_again(alloc, op, input, keys, want.fwd)?;
    smk_body::lineage1(alloc, way, want)
}

// The way of a step: each row of a distinct reaches the one that its image equals, each of a grouping that of its key.
#[tactic(auto, using(crate::proofs::Keyed::known))]
fn way_again(
    alloc: Global,
    op: &Op1,
    input: &Rel,
    keys: &KeyTable,
    asked: bool,
) -> Result<Way, AllocError>
    requires fits { Fits1 (unary_of op.now) input.now.kinds }
    requires keys { keys.now ≡ keys1 (unary_of op.now) input.now.rows }
    ensures { IfOk result (λ it. it ≡ way (unary_of op.now) input.now.rows) }
{
    match op {
        Op1::Select(pred) => selection(alloc, input, pred, asked),
        Op1::Project(_) => Ok(Way::own(input.len())),
        Op1::Distinct(items) => {
            let all = images(alloc, input, items.as_slice())?;
            row_way(alloc, &all, keys)
        }
        Op1::Group(cols, _) => key_way(alloc, input, cols.as_slice(), keys),
    }
}

// Each row of a selection comes from the row at its place. No two have one place, so the forward lists are made by marks.
fn selection(alloc: Global, input: &Rel, pred: &Pred, asked: bool) -> Result<Way, AllocError>
    requires { FormulaFits input.now.kinds (formula_of pred.now) }
    ensures { IfOk result (λ it. it ≡ way (Selection (formula_of pred.now)) input.now.rows) }
{
    let rows = input.len();
    let places = selected_places(alloc, input, pred, 0, rows)?;
    let fwd = marked_lists_if(alloc, asked, places.as_slice(), rows)?;
    Ok(Way::sources(places, rows, fwd))
}
