ghost use Rattle.std.specs.{Prelude.{◌≡◌, ◌<◌, ◌≤◌, ◌+◌, ◌-◌, ◌++◌, IfOk, IfErr, All, length, map, take, slice_index}, List.AllZip};
ghost use Rattle.smk_model.specs.{Plain.firsts, Kinds.{AreAlike, wider_kinds}};
ghost use Rattle.smk_keys.specs.Classes.{classes_of};
ghost use Rattle.smk_body.specs.declared.fault.OpFault.TheVariants.{Rows};

use crate::fault::OpFault;
use smk_base::{Kind, ROW_LIMIT, Rel, numbers_below};
use smk_keys::Classes;
use std::alloc::{AllocError, Global};

/// The left rows, then the right rows, which are few together.
pub(crate) fn all_rows(alloc: Global, left: &Rel, right: &Rel) -> Result<Rel, AllocError>
    requires alike { AllZip AreAlike left.now.kinds right.now.kinds }
    requires few { length left.now.rows + length right.now.rows ≤ ROW_LIMIT }
    ensures kinds { IfOk result (λ made. made.kinds ≡ wider_kinds left.now.kinds right.now.kinds) }
    ensures rows { IfOk result (λ made. made.rows ≡ left.now.rows ++ right.now.rows) }
{
    let lefts = left.copy(alloc)?;
    put_behind(alloc, lefts, right)
}

// The left rows, then the right rows, which are few.
fn put_behind(alloc: Global, left: Rel, right: &Rel) -> Result<Rel, AllocError>
    requires alike { AllZip AreAlike left.kinds right.now.kinds }
    requires few { length left.rows + length right.now.rows ≤ ROW_LIMIT }
    ensures kinds { IfOk result (λ made. made.kinds ≡ wider_kinds left.kinds right.now.kinds) }
    ensures rows { IfOk result (λ made. made.rows ≡ left.rows ++ right.now.rows) }
{
    let _left_rows = left.len();
    let _right_rows = right.len();
    let kinds = union_kinds(alloc, &left, right)?;
    let wide = left.with_kinds(alloc, kinds.as_slice())?;
    wide.followed_by(alloc, right)
}

/// The rows of both sides, left first, in classes of equal ones. It is refused for `Rows` exactly if there are more than 1,048,576 classes.
pub(crate) fn union_classes(alloc: Global, left: &Rel, right: &Rel) -> Result<Classes, OpFault>
    requires { AllZip AreAlike left.now.kinds right.now.kinds }
    ensures classes { IfOk result (λ made. made ≡ classes_of (left.now.rows ++ right.now.rows)) }
    ensures few { IfOk result (λ made. length made.firsts ≤ ROW_LIMIT) }
    ensures many { IfErr result (λ e. e ≡ Rows → ROW_LIMIT < length (firsts (left.now.rows ++ right.now.rows))) }
{
    let _right_rows = right.len();
    let columns = numbers_below(alloc, left.width())?;
    let classes = Classes::of_both(alloc, left, columns.as_slice(), right, columns.as_slice())?;
    if classes.firsts().len() > ROW_LIMIT as usize {
        return Err(OpFault::Rows);
    }
    Ok(classes)
}

/// The rows of both sides, left first, each at its first occurrence, from their classes.
pub(crate) fn union_rows(
    alloc: Global,
    left: &Rel,
    right: &Rel,
    classes: &Classes,
) -> Result<Rel, AllocError>
    requires alike { AllZip AreAlike left.now.kinds right.now.kinds }
    requires classes { classes.now ≡ classes_of (left.now.rows ++ right.now.rows) }
    requires few { length classes.now.firsts ≤ ROW_LIMIT }
    ensures kinds { IfOk result (λ made. made.kinds ≡ wider_kinds left.now.kinds right.now.kinds) }
    ensures rows { IfOk result (λ made. made.rows ≡ firsts (left.now.rows ++ right.now.rows)) }
{
    let _right_rows = right.len();
    let len = left.len();
    let firsts = classes.firsts();
    let count = count_below(firsts, len);
    let more = lowered(alloc, &firsts[count..], len)?;
    let lefts = left.gather(alloc, &firsts[..count])?;
    let rights = right.gather(alloc, more.as_slice())?;
    put_behind(alloc, lefts, &rights)
}

// How many of the first places are below a bound.
fn count_below(places: &[u32], bound: u32) -> usize
    ensures within { result ≤ length places.now }
    ensures below { All (λ i. i < bound) (take result places.now) }
    ensures next { result < length places.now → bound ≤ slice_index places.now result }
{
    for k in 0..places.len() {
        if bound <= places[k] {
            return k;
        }
    }
    places.len()
}

// Places that are at least a number, less that number.
fn lowered(alloc: Global, places: &[u32], by: u32) -> Result<Vec<u32>, AllocError>
    requires { All (λ i. by ≤ i) places.now }
    ensures { IfOk result (λ v. v.items ≡ map (λ i. i - by) places.now) }
{
    places.iter().map(|i| *i - by).collect(alloc)
}

// The wider kind in each place.
fn union_kinds(alloc: Global, left: &Rel, right: &Rel) -> Result<Vec<Kind>, AllocError>
    requires { AllZip AreAlike left.now.kinds right.now.kinds }
    ensures { IfOk result (λ kinds. kinds.items ≡ wider_kinds left.now.kinds right.now.kinds) }
{
    let mut kinds = Vec::with_capacity(alloc, left.width() as usize)?;
    for c in 0..left.width() {
        kinds.push(left.kind(c).wider(right.kind(c)))?;
    }
    Ok(kinds)
}
