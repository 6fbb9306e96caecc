//! The distinct keys of each step by first occurrence, from its rows.

ghost use Rattle.std.specs.Prelude.{◌≡◌, ◌<◌, All, IfOk, length, map};
ghost use Rattle.smk_base.specs.PlanImage.{binary_of, unary_of};
ghost use Rattle.smk_model.specs.{Kinds.{Fits1, Fits2, kinds1}, Plain.{firsts, key_of, step1, step2}};
ghost use Rattle.smk_body.specs.Halves.{right_columns_of};
ghost use Rattle.smk_defer.specs.Kept.{keys1, keys2};

use crate::keys::{class_keys, first_keys, row_keys};
use smk_base::{Op1, Op2, Rel};
use smk_body::right_columns;
use smk_keys::KeyTable;
use std::alloc::{AllocError, Global};

/// The keys of a step with one input: those of a grouping are the first columns of its rows.
#[tactic(auto, using(crate::proofs::Keyed::firsts_twice, crate::proofs::Keyed::group_first, crate::proofs::Keyed::keys_within))]
pub(crate) fn distinct1(
    alloc: Global,
    op: &Op1,
    input: &Rel,
    rel: &Rel,
) -> Result<KeyTable, AllocError>
    requires fits { Fits1 (unary_of op.now) input.now.kinds }
    requires kinds { rel.now.kinds ≡ kinds1 (unary_of op.now) input.now.kinds }
    requires rows { rel.now.rows ≡ step1 (unary_of op.now) input.now.rows }
    ensures { IfOk result (λ keys. keys ≡ keys1 (unary_of op.now) input.now.rows) }
{
    match op {
        Op1::Select(_) => Ok(KeyTable::new(alloc)),
        Op1::Project(_) => Ok(KeyTable::new(alloc)),
        Op1::Distinct(_) => row_keys(alloc, rel),
        Op1::Group(cols, _) => first_keys(alloc, rel, cols.as_slice().len() as u32),
    }
}

/// The keys of a step with two inputs: those of an equijoin are made from its right rows.
#[tactic(auto, using(crate::proofs::Keyed::firsts_twice))]
pub(crate) fn distinct2(
    alloc: Global,
    op: &Op2,
    left: &Rel,
    right: &Rel,
    rel: &Rel,
) -> Result<KeyTable, AllocError>
    requires fits { Fits2 (binary_of op.now) left.now.kinds right.now.kinds }
    requires rows { rel.now.rows ≡ step2 (binary_of op.now) left.now.rows right.now.rows }
    ensures { IfOk result (λ keys. keys ≡ keys2 (binary_of op.now) left.now.rows right.now.rows) }
{
    match op {
        Op2::Join(pairs) => right_keys(alloc, right, pairs.as_slice()),
        Op2::Union => row_keys(alloc, rel),
        Op2::Theta(_) => Ok(KeyTable::new(alloc)),
        Op2::Product => Ok(KeyTable::new(alloc)),
        Op2::UnionAll => Ok(KeyTable::new(alloc)),
    }
}

// The right rows' values in the pairs of an equijoin.
fn right_keys(alloc: Global, right: &Rel, pairs: &[(u32, u32)]) -> Result<KeyTable, AllocError>
    requires { All (λ c. c < length right.now.kinds) (right_columns_of pairs.now) }
    ensures { IfOk result (λ made. made ≡ firsts (map (key_of (right_columns_of pairs.now)) right.now.rows)) }
{
    let cols = right_columns(alloc, pairs)?;
    class_keys(alloc, right, cols.as_slice())
}
