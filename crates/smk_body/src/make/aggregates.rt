ghost use Rattle.std.specs.Prelude.{◌≡◌, ◌<◌, ◌≤◌, pos, IfOk, All, length, map, slice_index_or, vec_len};
ghost use Rattle.smk_base.specs.{Places.upto, Rels.{IsWithin, kind_in}, declared.rel.TheConstants.ROW_LIMIT};
ghost use Rattle.smk_model.specs.{Values.value_at, Plain.{number_of, total}, Lineage.row_at, Kinds.IsSummed};
ghost use Rattle.smk_body.specs.Halves.{AreNumbered, best_place, bests_of, class_places, improves_on};
ghost use Rattle.smk_base.specs.declared.value.Value.TheVariants as values;

use crate::comparisons::compare;
use smk_base::{Ints, Kind, Rel};
use smk_keys::Classes;
use std::alloc::{AllocError, Global};

/// The sum of the ints in column c over each class.
pub(crate) fn sums(
    alloc: Global,
    rel: &Rel,
    c: u32,
    of: &[u32],
    count: u32,
) -> Result<Vec<i128>, AllocError>
    requires column { c < length rel.now.kinds }
    requires int { IsSummed (kind_in rel.now.kinds c) }
    requires long { length of.now ≡ length rel.now.rows }
    requires below { All (λ p. p < count) of.now }
    ensures sums { IfOk result (λ v. v.items ≡ map (λ p. total (map (λ i. number_of (value_at (row_at rel.now.rows i) c)) (class_places of.now (length rel.now.rows) p))) (upto count)) }
    ensures long { IfOk result (λ v. vec_len v ≡ count) }
{
    let _rows = rel.len();
    match rel.ints(c) {
        Ints::Small(numbers) => small_sums(alloc, numbers, of, count),
        Ints::Wide(numbers) => wide_sums(alloc, numbers, of, count),
    }
}

// The sum of these small ints over each class.
fn small_sums(
    alloc: Global,
    numbers: &[i64],
    of: &[u32],
    count: u32,
) -> Result<Vec<i128>, AllocError>
    requires long { length of.now ≡ length numbers.now }
    requires few { length numbers.now ≤ ROW_LIMIT }
    requires within { All (IsWithin 2) numbers.now }
    requires below { All (λ p. p < count) of.now }
    ensures sums { IfOk result (λ v. v.items ≡ map (λ p. total (map (λ i. slice_index_or numbers.now i (pos 0)) (class_places of.now (length of.now) p))) (upto count)) }
    ensures long { IfOk result (λ v. vec_len v ≡ count) }
{
    let mut sums = vec![in alloc; 0i128; count as usize]?;
    for i in 0..of.len() {
        let p = of[i] as usize;
        let more = sums[p] + numbers[i] as i128;
        sums[p] = more;
    }
    Ok(sums)
}

// The sum of these wide ints over each class.
fn wide_sums(
    alloc: Global,
    numbers: &[i128],
    of: &[u32],
    count: u32,
) -> Result<Vec<i128>, AllocError>
    requires long { length of.now ≡ length numbers.now }
    requires few { length numbers.now ≤ ROW_LIMIT }
    requires within { All (IsWithin 2) numbers.now }
    requires below { All (λ p. p < count) of.now }
    ensures sums { IfOk result (λ v. v.items ≡ map (λ p. total (map (λ i. slice_index_or numbers.now i (pos 0)) (class_places of.now (length of.now) p))) (upto count)) }
    ensures long { IfOk result (λ v. vec_len v ≡ count) }
{
    let mut sums = vec![in alloc; 0i128; count as usize]?;
    for i in 0..of.len() {
        let p = of[i] as usize;
        let more = sums[p] + numbers[i];
        sums[p] = more;
    }
    Ok(sums)
}

/// The place of the least or the greatest value of column c in each class, the first of equal ones.
pub(crate) fn best_places(
    alloc: Global,
    rel: &Rel,
    c: u32,
    classes: &Classes,
    greatest: bool,
) -> Result<Vec<u32>, AllocError>
    requires column { c < length rel.now.kinds }
    requires classes { AreNumbered (length rel.now.rows) classes.now }
    ensures within { IfOk result (λ v. All (λ i. i < length rel.now.rows) v.items) }
    ensures places { IfOk result (λ v. v.items ≡ map (λ p. best_place greatest (λ i. value_at (row_at rel.now.rows i) c) (slice_index_or classes.now.firsts p 0) (class_places classes.now.of (length rel.now.rows) p)) (upto (length classes.now.firsts))) }
{
    let _rows = rel.len();
    match rel.kind(c) {
        Kind::Text => best_cells(alloc, rel, c, classes, greatest),
        Kind::Int { .. } => match rel.ints(c) {
            Ints::Small(numbers) => best_small(alloc, numbers, classes, greatest),
            Ints::Wide(_) => best_cells(alloc, rel, c, classes, greatest),
        },
    }
}

// The place of the least or the greatest of these small ints in each class.
fn best_small(
    alloc: Global,
    numbers: &[i64],
    classes: &Classes,
    greatest: bool,
) -> Result<Vec<u32>, AllocError>
    requires few { length numbers.now ≤ ROW_LIMIT }
    requires classes { AreNumbered (length numbers.now) classes.now }
    ensures within { IfOk result (λ v. All (λ i. i < length numbers.now) v.items) }
    ensures places { IfOk result (λ v. v.items ≡ bests_of greatest (λ i. values.Int (slice_index_or numbers.now i (pos 0))) classes.now (length numbers.now)) }
{
    let mut best = Vec::from_slice(alloc, classes.firsts())?;
    let of = classes.of();
    for i in 0..numbers.len() as u32 {
        let p = of[i as usize] as usize;
        if beats(numbers[i as usize], numbers[best[p] as usize], greatest) {
            best[p] = i;
        }
    }
    Ok(best)
}

// Whether an int is less, or greater, than another.
fn beats(n: i64, other: i64, greatest: bool) -> bool
    ensures { result ≡ improves_on greatest (values.Int n) (values.Int other) }
{
    if greatest { other < n } else { n < other }
}

// These places for any column, cell by cell.
fn best_cells(
    alloc: Global,
    rel: &Rel,
    c: u32,
    classes: &Classes,
    greatest: bool,
) -> Result<Vec<u32>, AllocError>
    requires column { c < length rel.now.kinds }
    requires classes { AreNumbered (length rel.now.rows) classes.now }
    ensures within { IfOk result (λ v. All (λ i. i < length rel.now.rows) v.items) }
    ensures places { IfOk result (λ v. v.items ≡ bests_of greatest (λ i. value_at (row_at rel.now.rows i) c) classes.now (length rel.now.rows)) }
{
    let mut best = Vec::from_slice(alloc, classes.firsts())?;
    let of = classes.of();
    for i in 0..rel.len() {
        let p = of[i as usize] as usize;
        if improves(rel, i, best[p], c, greatest) {
            best[p] = i;
        }
    }
    Ok(best)
}

// Whether the value in column c of row i is less, or greater, than that of row j.
fn improves(rel: &Rel, i: u32, j: u32, c: u32, greatest: bool) -> bool
    requires row { i < length rel.now.rows }
    requires other { j < length rel.now.rows }
    requires column { c < length rel.now.kinds }
    ensures { result ≡ improves_on greatest (value_at (row_at rel.now.rows i) c) (value_at (row_at rel.now.rows j) c) }
{
    let order = compare(rel.cell(i, c), rel.cell(j, c));
    if greatest {
        order.is_gt()
    } else {
        order.is_lt()
    }
}
