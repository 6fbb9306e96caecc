ghost use Rattle.std.specs.{Prelude.{◌≡◌, ℕ, pos, ◌<◌, ◌≤◌, ◌++◌, Bool, false, IfOk, OnOk, All, filter, length, map, slice_index, slice_index_or}, Ordering.int_cmp, declared.cmp.Ordering.TheVariants.{Less, Equal, Greater}};
ghost use Rattle.smk_base.specs.{Cells.value_of_cell, PlanImage.formula_of, Plans.Comparison, declared.book.plan.CmpOp.CmpOp};
ghost use Rattle.smk_base.specs.declared.book.plan.Operand.TheVariants as operands;
ghost use Rattle.smk_base.specs.declared.value.Value.TheVariants as values;
ghost use Rattle.smk_model.specs.{Kinds.FormulaFits, Lineage.row_at, Plain.meets_together, Values.{holds, meets, value_cmp}};
ghost use Rattle.smk_body.specs.Halves.{meeting_below};

use crate::comparisons::{cell_of_both, compare, meets_at, meets_together_at, says, turned};
use smk_base::{CellRef, CmpOp, Dict, Ints, Operand, Pred, Rel};
use std::alloc::{AllocError, Global};
use std::cmp::Ordering;

/// The places of the rows that meet a predicate, from one place up to another: after those below the first, they complete those below the second.
pub fn selected_places(
    alloc: Global,
    rel: &Rel,
    pred: &Pred,
    from: u32,
    to: u32,
) -> Result<Vec<u32>, AllocError>
    requires fits { FormulaFits rel.now.kinds (formula_of pred.now) }
    requires order { from ≤ to }
    requires within { to ≤ length rel.now.rows }
    ensures { IfOk result (λ v. meeting_below (formula_of pred.now) rel.now.rows from ++ v.items ≡ meeting_below (formula_of pred.now) rel.now.rows to) }
{
    let mut places: Vec<u32> = (from..to).collect(alloc)?;
    keep_meeting(alloc, rel, pred, &mut places)?;
    places.shrink_to_fit();
    Ok(places)
}

// Keeps the places whose rows meet a predicate. The second part of a conjunction is read at the places alone that the first keeps.
fn keep_meeting(
    alloc: Global,
    rel: &Rel,
    pred: &Pred,
    places: &mut Vec<u32>,
) -> Result<(), AllocError>
    requires fits { FormulaFits rel.now.kinds (formula_of pred.now) }
    requires within { All (λ i. i < length rel.now.rows) places.old.items }
    ensures kept { OnOk result (places.new.items ≡ filter (λ i. meets (formula_of pred.now) (row_at rel.now.rows i)) places.old.items) }
    ensures below { OnOk result (All (λ i. i < length rel.now.rows) places.new.items) }
{
    match pred {
        Pred::And(a, b) => {
            keep_meeting(alloc, rel, a, places)?;
            keep_meeting(alloc, rel, b, places)
        }
        Pred::Cmp(c, op, Operand::Lit(value)) => {
            keep_standing(alloc, rel, *c, *op, value.as_cell(), places)
        }
        _ => {
            keep_where(places, &|i: u32| -> bool { meets_at(rel, i, pred) });
            Ok(())
        }
    }
}

/// Keeps the places whose rows, after a left row, meet a predicate: a comparison of columns of both sides is one with the left value.
pub(crate) fn keep_beside(
    alloc: Global,
    left: &Rel,
    i: u32,
    rel: &Rel,
    pred: &Pred,
    places: &mut Vec<u32>,
) -> Result<(), AllocError>
    requires row { i < length left.now.rows }
    requires fits { FormulaFits (left.now.kinds ++ rel.now.kinds) (formula_of pred.now) }
    requires within { All (λ j. j < length rel.now.rows) places.old.items }
    ensures kept { OnOk result (places.new.items ≡ filter (λ j. meets_together (formula_of pred.now) (row_at left.now.rows i) (row_at rel.now.rows j)) places.old.items) }
    ensures below { OnOk result (All (λ j. j < length rel.now.rows) places.new.items) }
{
    match pred {
        Pred::And(a, b) => {
            keep_beside(alloc, left, i, rel, a, places)?;
            keep_beside(alloc, left, i, rel, b, places)
        }
        Pred::Cmp(c, op, Operand::Col(d)) => keep_across(alloc, left, i, rel, *c, *op, *d, places),
        _ => {
            keep_where(
                places,
                &|j: u32| -> bool { meets_together_at(left, i, rel, j, pred) },
            );
            Ok(())
        }
    }
}

// Keeps the places where two columns, one of each side, compare so.
fn keep_across(
    alloc: Global,
    left: &Rel,
    i: u32,
    rel: &Rel,
    c: u32,
    op: CmpOp,
    d: u32,
    places: &mut Vec<u32>,
) -> Result<(), AllocError>
    requires row { i < length left.now.rows }
    requires fits { FormulaFits (left.now.kinds ++ rel.now.kinds) (Comparison c op (operands.Col d)) }
    requires within { All (λ j. j < length rel.now.rows) places.old.items }
    ensures { OnOk result (places.new.items ≡ filter (λ j. meets_together (Comparison c op (operands.Col d)) (row_at left.now.rows i) (row_at rel.now.rows j)) places.old.items) }
{
    let width = left.width();
    if c < width && width <= d {
        return keep_standing(alloc, rel, d - width, turned(op), left.cell(i, c), places);
    }
    if d < width && width <= c {
        return keep_standing(alloc, rel, c - width, op, left.cell(i, d), places);
    }
    keep_where(
        places,
        &|j: u32| -> bool {
            says(
                op,
                compare(
                    cell_of_both(left, i, rel, j, c),
                    cell_of_both(left, i, rel, j, d),
                ),
            )
        },
    );
    Ok(())
}

// Keeps the places where a column compares so with a value; the comparison is read once. Each text is compared once, if the column has no more texts than there are places.
fn keep_standing(
    alloc: Global,
    rel: &Rel,
    c: u32,
    op: CmpOp,
    value: CellRef,
    places: &mut Vec<u32>,
) -> Result<(), AllocError>
    requires fits { FormulaFits rel.now.kinds (Comparison c op (operands.Lit (value_of_cell value))) }
    requires within { All (λ i. i < length rel.now.rows) places.old.items }
    ensures { OnOk result (places.new.items ≡ filter (λ i. meets (Comparison c op (operands.Lit (value_of_cell value.entry))) (row_at rel.now.rows i)) places.old.items) }
{
    match value {
        CellRef::Int(n) => {
            if let Ints::Small(items) = rel.ints(c) {
                keep_ints(items, op, n, places);
                return Ok(());
            }
        }
        CellRef::Text(_) => {
            let _rows = rel.len();
            if rel.dict(c).len() as usize <= places.len() {
                let standing = texts_standing(alloc, rel.dict(c), op, value)?;
                keep_codes(rel.codes(c), standing.as_slice(), places);
                return Ok(());
            }
        }
    }
    keep_where(
        places,
        &|i: u32| -> bool { says(op, compare(rel.cell(i, c), value)) },
    );
    Ok(())
}

// Keeps the places of the small ints that compare so with an int.
fn keep_ints(items: &[i64], op: CmpOp, n: i128, places: &mut Vec<u32>)
    requires { All (λ i. i < length items.now) places.old.items }
    ensures { places.new.items ≡ filter (λ i. holds op (int_cmp (slice_index_or items.now i (pos 0)) n)) places.old.items }
{
    let less = says(op, Ordering::Less);
    let equal = says(op, Ordering::Equal);
    let greater = says(op, Ordering::Greater);
    keep_where(
        places,
        &|i: u32| -> bool { stands(less, equal, greater, i128::from(items[i as usize]), n) },
    );
}

// Keeps the places of the codes of texts that are marked.
fn keep_codes(codes: &[u32], standing: &[bool], places: &mut Vec<u32>)
    requires codes { All (λ code. code < length standing.now) codes.now }
    requires places { All (λ i. i < length codes.now) places.old.items }
    ensures { places.new.items ≡ filter (λ i. slice_index_or standing.now (slice_index codes.now i) false) places.old.items }
{
    keep_where(
        places,
        &|i: u32| -> bool { standing[codes[i as usize] as usize] },
    );
}

// Whether each text of a column compares so with a value.
fn texts_standing(
    alloc: Global,
    dict: &Dict,
    op: CmpOp,
    value: CellRef,
) -> Result<Vec<bool>, AllocError>
    ensures { IfOk result (λ told. told.items ≡ map (λ text. holds op (value_cmp (values.Text text) (value_of_cell value.entry))) dict.now.texts) }
{
    let mut standing = Vec::new(alloc);
    for code in 0..dict.len() {
        standing.push(says(op, compare(CellRef::Text(dict.text(code)), value)))?;
    }
    Ok(standing)
}

// Keeps the places that pass a test. Each is written at the end of those kept, and the next one overwrites it unless it passes, so that no branch depends on the test.
fn keep_where<F: Fn(u32) -> bool>(places: &mut Vec<u32>, test: &F)
    requires { All (F.pre test.now) places.old.items }
    ensures { (f : ℕ → Bool) → All (λ i. (told : Bool) → F.post test.now i told → told ≡ f i) places.old.items → places.new.items ≡ filter f places.old.items }
{
    let items = places.as_mut_slice();
    let mut count = 0;
    for k in 0..items.len() {
        let i = items[k];
        items[count] = i;
        if test(i) {
            count += 1;
        }
    }
    places.truncate(count);
}

// What a comparison says of two ints, from what it says of each order: in two choices of a value, where a match on the order would be a branch.
#[inline(always)]
fn stands(less: bool, equal: bool, greater: bool, x: i128, n: i128) -> bool
    ensures { (op : CmpOp) → less ≡ holds op Less → equal ≡ holds op Equal → greater ≡ holds op Greater → result ≡ holds op (int_cmp x n) }
{
    if x < n {
        less
    } else if n < x {
        greater
    } else {
        equal
    }
}
