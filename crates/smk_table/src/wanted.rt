//! What a step reads of its inputs if some of its columns are wanted, and the step over these columns alone.

ghost use Rattle.std.specs.Prelude.{◌≡◌, ◌<◌, ◌≤◌, ◌+◌, length, All, IfOk};
ghost use Rattle.smk_base.specs.{PlanImage.{binary_of, unary_of}, Places.places, declared.rel.TheConstants.COLUMN_LIMIT};
ghost use Rattle.smk_table.specs.Wanted as wanted;

use crate::among::{
    aggs_among, both_columns, is_in_aggs, is_in_formula, is_in_items, is_in_keys, is_in_pairs,
    items_among, keys_among, pairs_among, pred_among,
};
use smk_base::{Keys, Op1, Op2};
use std::alloc::{AllocError, Global};

/// A step with one input over the columns that it reads if some of its own are wanted.
#[derive(Drop)]
pub struct NarrowedOne {
    pub op: Op1,
    /// The columns that it reads, ascending.
    pub read: Keys,
    /// Where the wanted columns are among those that it makes of these.
    pub after: Keys,
}

/// A step with two inputs over the columns that it reads if some of its own are wanted.
#[derive(Drop)]
pub struct NarrowedTwo {
    pub op: Op2,
    pub left: Keys,
    pub right: Keys,
    pub after: Keys,
}

/// A step over what it reads of its input, which has so many columns, if these of its own are wanted.
pub fn narrow_one(
    alloc: Global,
    op: &Op1,
    cols: &[u32],
    width: u32,
) -> Result<NarrowedOne, AllocError>
    requires { width ≤ COLUMN_LIMIT }
    ensures op { IfOk result (λ made. unary_of made.op ≡ wanted.among1 (unary_of op.now) made.read) }
    ensures read { IfOk result (λ made. made.read ≡ wanted.below (unary_of op.now) cols.now width) }
    ensures within { IfOk result (λ made. All (λ c. c < width) made.read) }
    ensures few { IfOk result (λ made. length made.read ≤ width) }
    ensures after { IfOk result (λ made. made.after ≡ wanted.after1 (unary_of op.now) made.read cols.now) }
    ensures long { IfOk result (λ made. length made.after ≡ length cols.now) }
{
    let read = read_below(alloc, op, cols, width)?;
    let among = op1_among(alloc, op, read.as_slice())?;
    let after = after1(alloc, op, read.as_slice(), cols)?;
    Ok(NarrowedOne {
        op: among,
        read,
        after,
    })
}

/// A step over what it reads of its inputs, which have so many columns each, if these of its own are wanted.
pub fn narrow_two(
    alloc: Global,
    op: &Op2,
    cols: &[u32],
    width: u32,
    behind: u32,
) -> Result<NarrowedTwo, AllocError>
    requires left { width ≤ COLUMN_LIMIT }
    requires right { behind ≤ COLUMN_LIMIT }
    ensures op { IfOk result (λ made. binary_of made.op ≡ wanted.among2 (binary_of op.now) width made.left made.right) }
    ensures left { IfOk result (λ made. made.left ≡ wanted.below_left (binary_of op.now) cols.now width) }
    ensures right { IfOk result (λ made. made.right ≡ wanted.below_right (binary_of op.now) cols.now width behind) }
    ensures left_within { IfOk result (λ made. All (λ c. c < width) made.left) }
    ensures right_within { IfOk result (λ made. All (λ c. c < behind) made.right) }
    ensures left_few { IfOk result (λ made. length made.left ≤ width) }
    ensures right_few { IfOk result (λ made. length made.right ≤ behind) }
    ensures after { IfOk result (λ made. made.after ≡ wanted.after2 (binary_of op.now) width made.left made.right cols.now) }
    ensures long { IfOk result (λ made. length made.after ≡ length cols.now) }
{
    let left = read_from(alloc, op, cols, width, 0, width)?;
    let right = read_from(alloc, op, cols, width, width, behind)?;
    let among = op2_among(alloc, op, left.as_slice(), right.as_slice(), width)?;
    let after = after2(alloc, op, left.as_slice(), right.as_slice(), width, cols)?;
    Ok(NarrowedTwo {
        op: among,
        left,
        right,
        after,
    })
}

// The columns that it reads of its input.
fn read_below(alloc: Global, op: &Op1, cols: &[u32], width: u32) -> Result<Keys, AllocError>
    ensures read { IfOk result (λ read. read ≡ wanted.below (unary_of op.now) cols.now width) }
    ensures few { IfOk result (λ read. length read ≤ width) }
    ensures within { IfOk result (λ read. All (λ c. c < width) read) }
{
    let mut read = Keys::new(alloc);
    for c in 0..width {
        if is_read(op, cols, c) {
            read.push(c)?;
        }
    }
    Ok(read)
}

fn is_read(op: &Op1, cols: &[u32], c: u32) -> bool
    ensures { result ≡ wanted.is_read (unary_of op.now) cols.now c }
{
    match op {
        Op1::Select(pred) => is_in_keys(cols, c) || is_in_formula(pred, c),
        Op1::Project(items) => is_in_items(items.as_slice(), c),
        Op1::Distinct(items) => is_in_items(items.as_slice(), c),
        Op1::Group(keys, aggs) => {
            is_in_keys(keys.as_slice(), c) || is_in_aggs(aggs.as_slice(), c)
        }
    }
}

// The columns that it reads of those of both inputs one after the other, of which the left one has a width: of so many from one on, counted from that one.
fn read_from(
    alloc: Global,
    op: &Op2,
    cols: &[u32],
    width: u32,
    from: u32,
    len: u32,
) -> Result<Keys, AllocError>
    requires { from + len ≤ 32 }
    ensures read { IfOk result (λ read. read ≡ places (λ c. wanted.is_met (binary_of op.now) width cols.now (from + c)) len) }
    ensures few { IfOk result (λ read. length read ≤ len) }
    ensures within { IfOk result (λ read. All (λ c. c < len) read) }
{
    let mut read = Keys::new(alloc);
    for c in 0..len {
        if is_met(op, cols, width, from + c) {
            read.push(c)?;
        }
    }
    Ok(read)
}

fn is_met(op: &Op2, cols: &[u32], width: u32, c: u32) -> bool
    ensures { result ≡ wanted.is_met (binary_of op.now) width cols.now c }
{
    match op {
        Op2::Join(pairs) => is_in_keys(cols, c) || is_in_pairs(pairs.as_slice(), width, c),
        Op2::Theta(pred) => is_in_keys(cols, c) || is_in_formula(pred, c),
        Op2::Product => is_in_keys(cols, c),
        Op2::UnionAll => true,
        Op2::Union => true,
    }
}

// The step over these columns of its input alone.
fn op1_among(alloc: Global, op: &Op1, read: &[u32]) -> Result<Op1, AllocError>
    requires { length read.now ≤ 32 }
    ensures { IfOk result (λ made. unary_of made ≡ wanted.among1 (unary_of op.now) read.now) }
{
    match op {
        Op1::Select(pred) => Ok(Op1::Select(pred_among(alloc, pred, read)?)),
        Op1::Project(items) => Ok(Op1::Project(items_among(alloc, items.as_slice(), read)?)),
        Op1::Distinct(items) => Ok(Op1::Distinct(items_among(alloc, items.as_slice(), read)?)),
        Op1::Group(keys, aggs) => Ok(Op1::Group(
            keys_among(alloc, keys.as_slice(), read)?,
            aggs_among(alloc, aggs.as_slice(), read)?,
        )),
    }
}

// The step over these columns of both inputs alone, of which the left one has a width.
fn op2_among(
    alloc: Global,
    op: &Op2,
    lefts: &[u32],
    rights: &[u32],
    width: u32,
) -> Result<Op2, AllocError>
    requires few { length lefts.now + length rights.now ≤ 32 }
    requires within { All (λ c. width + c < 32) rights.now }
    ensures { IfOk result (λ made. binary_of made ≡ wanted.among2 (binary_of op.now) width lefts.now rights.now) }
{
    match op {
        Op2::Join(pairs) => Ok(Op2::Join(pairs_among(alloc, pairs.as_slice(), lefts, rights)?)),
        Op2::Theta(pred) => {
            let both = both_columns(alloc, lefts, rights, width)?;
            Ok(Op2::Theta(pred_among(alloc, pred, both.as_slice())?))
        }
        _ => op.copy(alloc),
    }
}

// Where the wanted columns are in what the step makes of these columns of its input.
fn after1(alloc: Global, op: &Op1, read: &[u32], cols: &[u32]) -> Result<Keys, AllocError>
    requires { length read.now ≤ 32 }
    ensures made { IfOk result (λ made. made ≡ wanted.after1 (unary_of op.now) read.now cols.now) }
    ensures long { IfOk result (λ made. length made ≡ length cols.now) }
{
    match op {
        Op1::Select(_) => keys_among(alloc, cols, read),
        _ => Ok(Keys::from_vec(Vec::from_slice(alloc, cols)?)),
    }
}

// Where they are in what it makes of these columns of both inputs.
fn after2(
    alloc: Global,
    op: &Op2,
    lefts: &[u32],
    rights: &[u32],
    width: u32,
    cols: &[u32],
) -> Result<Keys, AllocError>
    requires few { length lefts.now + length rights.now ≤ 32 }
    requires within { All (λ c. width + c < 32) rights.now }
    ensures made { IfOk result (λ made. made ≡ wanted.after2 (binary_of op.now) width lefts.now rights.now cols.now) }
    ensures long { IfOk result (λ made. length made ≡ length cols.now) }
{
    match op {
        Op2::UnionAll | Op2::Union => Ok(Keys::from_vec(Vec::from_slice(alloc, cols)?)),
        _ => {
            let both = both_columns(alloc, lefts, rights, width)?;
            keys_among(alloc, cols, both.as_slice())
        }
    }
}
