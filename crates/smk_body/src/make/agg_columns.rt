ghost use Rattle.std.specs.Prelude.{◌≡◌, ◌<◌, ◌≤◌, [], ◌∷◌, pos, IfOk, IfSome, All, length, map};
ghost use Rattle.smk_base.specs.{Places.upto, Plans.Grouping, Rels.kind_in, declared.value.Kind.TheVariants.Int, declared.book.plan.Agg.TheVariants.Sum, declared.rel.TheConstants.ROW_LIMIT};
ghost use Rattle.smk_base.specs.declared.value.Value.TheVariants as values;
ghost use Rattle.smk_model.specs.{Values.value_at, Plain.{combined, key_of, step1}, Lineage.row_at, Kinds.{AggFits, GroupFits, IsSummed, kind_of_agg, kinds1, summed}};
ghost use Rattle.smk_keys.specs.Classes.{classes_of};
ghost use Rattle.smk_body.specs.Halves.{AreNumbered, better, class_places, class_sizes, class_values};

use crate::keep::lists::counted;
use crate::make::aggregates::{best_places, sums};
use crate::make::gather::columns_at;
use smk_base::{Agg, Kind, Rel};
use smk_keys::Classes;
use std::alloc::{AllocError, Global};

/// One row for each key by first occurrence, the key and the aggregates over its rows, from the classes of the keys.
pub fn group_rows(
    alloc: Global,
    rel: &Rel,
    classes: &Classes,
    keys: &[u32],
    aggs: &[Agg],
) -> Result<Rel, AllocError>
    requires fits { GroupFits rel.now.kinds keys.now aggs.now }
    requires classes { classes.now ≡ classes_of (map (key_of keys.now) rel.now.rows) }
    ensures kinds { IfOk result (λ made. made.kinds ≡ kinds1 (Grouping keys.now aggs.now) rel.now.kinds) }
    ensures rows { IfOk result (λ made. made.rows ≡ step1 (Grouping keys.now aggs.now) rel.now.rows) }
{
    sized_group_rows(alloc, rel, classes, None, keys, aggs)
}

/// These rows, with the sizes of the classes if they are known.
pub(crate) fn sized_group_rows(
    alloc: Global,
    rel: &Rel,
    classes: &Classes,
    sizes: Option<&[u32]>,
    keys: &[u32],
    aggs: &[Agg],
) -> Result<Rel, AllocError>
    requires fits { GroupFits rel.now.kinds keys.now aggs.now }
    requires classes { classes.now ≡ classes_of (map (key_of keys.now) rel.now.rows) }
    requires sizes { IfSome sizes (λ known. known.now ≡ class_sizes classes.now) }
    ensures kinds { IfOk result (λ made. made.kinds ≡ kinds1 (Grouping keys.now aggs.now) rel.now.kinds) }
    ensures rows { IfOk result (λ made. made.rows ≡ step1 (Grouping keys.now aggs.now) rel.now.rows) }
{
    let _rows = rel.len();
    let mut made = columns_at(alloc, rel, classes.firsts(), keys)?;
    for agg in aggs {
        let column = agg_column(alloc, rel, classes, sizes, agg)?;
        made = made.beside(column)?;
    }
    Ok(made)
}

/// An aggregate over the rows of each class.
pub fn agg_column(
    alloc: Global,
    rel: &Rel,
    classes: &Classes,
    sizes: Option<&[u32]>,
    agg: &Agg,
) -> Result<Rel, AllocError>
    requires fits { AggFits rel.now.kinds agg.now }
    requires classes { AreNumbered (length rel.now.rows) classes.now }
    requires sizes { IfSome sizes (λ known. known.now ≡ class_sizes classes.now) }
    ensures { IfOk result (λ made. made ≡ record { kinds = kind_of_agg rel.now.kinds agg.now ∷ []; rows = class_values classes.now rel.now.rows agg.now }) }
{
    let _rows = rel.len();
    match agg {
        Agg::Count => count_column(alloc, classes, sizes),
        Agg::Sum(c) => sum_column(alloc, rel, *c, classes),
        Agg::Min(c) => best_column(alloc, rel, *c, classes, false),
        Agg::Max(c) => best_column(alloc, rel, *c, classes, true),
    }
}

// The number of rows of each class, from the sizes of the classes where they are known.
fn count_column(alloc: Global, classes: &Classes, sizes: Option<&[u32]>) -> Result<Rel, AllocError>
    requires few { length classes.now.of ≤ ROW_LIMIT }
    requires classes { AreNumbered (length classes.now.of) classes.now }
    requires sizes { IfSome sizes (λ known. known.now ≡ class_sizes classes.now) }
    ensures { IfOk result (λ made. made ≡ record { kinds = Int 0 ∷ []; rows = map (λ size. values.Int (pos size) ∷ []) (class_sizes classes.now) }) }
{
    match sizes {
        Some(known) => Rel::of_counts(alloc, 0, known),
        None => {
            let count = classes.firsts().len() as u32;
            let made = counted(alloc, classes.of(), count)?;
            Rel::of_counts(alloc, 0, made.as_slice())
        }
    }
}

// The sum of the ints in column c over the rows of each class.
fn sum_column(alloc: Global, rel: &Rel, c: u32, classes: &Classes) -> Result<Rel, AllocError>
    requires column { c < length rel.now.kinds }
    requires int { IsSummed (kind_in rel.now.kinds c) }
    requires classes { AreNumbered (length rel.now.rows) classes.now }
    ensures { IfOk result (λ made. made ≡ record { kinds = summed (kind_in rel.now.kinds c) ∷ []; rows = class_values classes.now rel.now.rows (Sum c) }) }
{
    let _rows = rel.len();
    let count = classes.firsts().len() as u32;
    let level = sum_level(rel, c);
    let numbers = sums(alloc, rel, c, classes.of(), count)?;
    let made = Rel::of_ints(alloc, level, numbers)?;
    Ok(made)
}

// The level of a sum.
fn sum_level(rel: &Rel, c: u32) -> u8
    requires column { c < length rel.now.kinds }
    requires summed { IsSummed (kind_in rel.now.kinds c) }
    ensures level { Int result ≡ summed (kind_in rel.now.kinds c) }
    ensures low { result ≤ 3 }
{
    match rel.kind(c) {
        Kind::Int { level } => level + 1,
        Kind::Text => unreachable!(),
    }
}

// The least or the greatest value of column c in each class.
fn best_column(
    alloc: Global,
    rel: &Rel,
    c: u32,
    classes: &Classes,
    greatest: bool,
) -> Result<Rel, AllocError>
    requires column { c < length rel.now.kinds }
    requires classes { AreNumbered (length rel.now.rows) classes.now }
    ensures { IfOk result (λ made. made ≡ record { kinds = kind_in rel.now.kinds c ∷ []; rows = map (λ p. combined (better greatest) (map (λ i. value_at (row_at rel.now.rows i) c) (class_places classes.now.of (length rel.now.rows) p)) ∷ []) (upto (length classes.now.firsts)) }) }
{
    let _rows = rel.len();
    let places = best_places(alloc, rel, c, classes, greatest)?;
    columns_at(alloc, rel, places.as_slice(), &[c])
}
