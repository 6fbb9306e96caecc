//! Whether output columns, keys, aggregates, pairs or predicates read a column, and the same over fewer columns alone.

ghost use Rattle.std.specs.{Prelude.{◌≡◌, ◌<◌, ◌≤◌, ◌+◌, ◌++◌, Ok, length, map, nat_eq, position, All, IfOk}, List.list_any};
ghost use Rattle.smk_base.specs.{Places.has, PlanImage.formula_of};
ghost use Rattle.smk_table.specs.{Named.{is_of, reads, place_of, item_among, agg_among, pair_among, behind, is_paired}, Wanted.{in_operand, in_formula, operand_among, formula_among}};

use smk_base::{Agg, Aggs, Item, Items, Keys, Operand, Pairs, Pred};
use std::alloc::{AllocError, Global};

pub(crate) fn is_in_items(items: &[Item], c: u32) -> bool
    ensures { result ≡ list_any (is_of c) items.now }
{
    items.iter().any(|item| is_under(*item, c))
}

pub(crate) fn is_in_keys(keys: &[u32], c: u32) -> bool
    ensures { result ≡ has keys.now c }
{
    keys.iter().any(|key| c == *key)
}

pub(crate) fn is_in_aggs(aggs: &[Agg], c: u32) -> bool
    ensures { result ≡ list_any (reads c) aggs.now }
{
    aggs.iter().any(|agg| is_read(*agg, c))
}

// Whether an output column is made of a column.
fn is_under(item: Item, c: u32) -> bool
    ensures { result ≡ is_of c item }
{
    match item {
        Item::Col(col) => c == col,
        Item::Bin { col, .. } => c == col,
    }
}

// Whether an aggregate reads a column.
fn is_read(agg: Agg, c: u32) -> bool
    ensures { result ≡ reads c agg }
{
    match agg.column() {
        Some(col) => c == col,
        None => false,
    }
}

/// Output columns over these columns alone.
pub(crate) fn items_among(alloc: Global, items: &[Item], cols: &[u32]) -> Result<Items, AllocError>
    requires { length cols.now ≤ 32 }
    ensures { IfOk result (λ made. made ≡ map (item_among cols.now) items.now) }
{
    let made = items.iter().map(|item| one_item_among(*item, cols));
    Ok(Items::from_vec(made.collect(alloc)?))
}

/// Keys over these columns alone.
pub(crate) fn keys_among(alloc: Global, keys: &[u32], cols: &[u32]) -> Result<Keys, AllocError>
    requires { length cols.now ≤ 32 }
    ensures { IfOk result (λ made. made ≡ map (place_of cols.now) keys.now) }
{
    let made = keys.iter().map(|key| place_among(cols, *key));
    Ok(Keys::from_vec(made.collect(alloc)?))
}

/// Aggregates over these columns alone.
pub(crate) fn aggs_among(alloc: Global, aggs: &[Agg], cols: &[u32]) -> Result<Aggs, AllocError>
    requires { length cols.now ≤ 32 }
    ensures { IfOk result (λ made. made ≡ map (agg_among cols.now) aggs.now) }
{
    // One that reads no column stays what it is over any.
    let made = aggs.iter().map(|agg| agg.over(place_among(cols, agg.column().unwrap_or(0))));
    Ok(Aggs::from_vec(made.collect(alloc)?))
}

fn one_item_among(item: Item, cols: &[u32]) -> Item
    requires { length cols.now ≤ 32 }
    ensures { result ≡ item_among cols.now item }
{
    match item {
        Item::Col(col) => Item::Col(place_among(cols, col)),
        Item::Bin { col, width } => Item::Bin {
            col: place_among(cols, col),
            width,
        },
    }
}

#[tactic(auto, using(crate::proofs::Narrows::place_found, crate::proofs::Narrows::place_missing))]
// The place of a column among these, or 0 if it isn't there.
fn place_among(cols: &[u32], c: u32) -> u32
    requires { length cols.now ≤ 32 }
    ensures { result ≡ place_of cols.now c }
{
    match first_place(cols, c) {
        Some(place) => place as u32,
        None => 0,
    }
}

fn first_place(cols: &[u32], c: u32) -> Option<usize>
    ensures { result ≡ position (nat_eq c) cols.now }
{
    cols.iter().position(|col| c == *col)
}

pub(crate) fn is_in_pairs(pairs: &[(u32, u32)], width: u32, c: u32) -> bool
    ensures { result ≡ list_any (is_paired width c) pairs.now }
{
    pairs.iter().any(|pair| is_in_pair(*pair, width, c))
}

// Whether a pair names a column of a join's rows.
fn is_in_pair(pair: (u32, u32), width: u32, c: u32) -> bool
    ensures { result ≡ is_paired width c pair }
{
    c == pair.0 || is_behind(pair.1, width, c)
}

// Whether a column of a join's rows is this one of the right side.
fn is_behind(right: u32, width: u32, c: u32) -> bool
    ensures { result ≡ nat_eq c (width + right) }
{
    c >= width && c - width == right
}

/// Columns of the left side, and those of the right side, moved up by the left width.
pub(crate) fn both_columns(
    alloc: Global,
    lefts: &[u32],
    rights: &[u32],
    width: u32,
) -> Result<Vec<u32>, AllocError>
    requires { All (λ c. width + c < 32) rights.now }
    ensures cols { IfOk result (λ cols. cols.items ≡ lefts.now ++ behind width rights.now) }
    ensures long { IfOk result (λ cols. length cols.items ≡ length lefts.now + length rights.now) }
{
    let mut cols = Vec::from_slice(alloc, lefts)?;
    for c in rights {
        cols.push(width + *c)?;
    }
    Ok(cols)
}

/// Pairs over these columns of both sides alone.
pub(crate) fn pairs_among(
    alloc: Global,
    pairs: &[(u32, u32)],
    lefts: &[u32],
    rights: &[u32],
) -> Result<Pairs, AllocError>
    requires left { length lefts.now ≤ 32 }
    requires right { length rights.now ≤ 32 }
    ensures { IfOk result (λ made. made ≡ map (pair_among lefts.now rights.now) pairs.now) }
{
    let made = pairs.iter().map(|pair| (place_among(lefts, pair.0), place_among(rights, pair.1)));
    Ok(Pairs::from_vec(made.collect(alloc)?))
}

/// Whether a predicate reads a column.
pub(crate) fn is_in_formula(pred: &Pred, c: u32) -> bool
    ensures { result ≡ in_formula c (formula_of pred.now) }
{
    match pred {
        Pred::Cmp(col, _, right) => c == *col || is_in_operand(right, c),
        Pred::And(left, right) => is_in_formula(left, c) || is_in_formula(right, c),
        Pred::Or(left, right) => is_in_formula(left, c) || is_in_formula(right, c),
        Pred::Not(inner) => is_in_formula(inner, c),
    }
}

fn is_in_operand(right: &Operand, c: u32) -> bool
    ensures { result ≡ in_operand c right.now }
{
    match right {
        Operand::Col(col) => c == *col,
        Operand::Lit(_) => false,
    }
}

/// A predicate over these columns alone.
pub(crate) fn pred_among(alloc: Global, pred: &Pred, cols: &[u32]) -> Result<Pred, AllocError>
    requires { length cols.now ≤ 32 }
    ensures { IfOk result (λ made. formula_of made ≡ formula_among cols.now (formula_of pred.now)) }
{
    match pred {
        Pred::Cmp(col, op, right) => Ok(Pred::Cmp(
            place_among(cols, *col),
            *op,
            operand_among(alloc, right, cols)?,
        )),
        Pred::And(left, right) => Ok(Pred::And(
            boxed(alloc, pred_among(alloc, left, cols))?,
            boxed(alloc, pred_among(alloc, right, cols))?,
        )),
        Pred::Or(left, right) => Ok(Pred::Or(
            boxed(alloc, pred_among(alloc, left, cols))?,
            boxed(alloc, pred_among(alloc, right, cols))?,
        )),
        Pred::Not(inner) => Ok(Pred::Not(boxed(alloc, pred_among(alloc, inner, cols))?)),
    }
}

// What is made in a box, if there is one.
fn boxed(alloc: Global, made: Result<Pred, AllocError>) -> Result<Box<Pred>, AllocError>
    ensures { IfOk result (λ held. made ≡ Ok held.value) }
{
    Ok(Box::new(alloc, made?)?)
}

fn operand_among(alloc: Global, right: &Operand, cols: &[u32]) -> Result<Operand, AllocError>
    requires { length cols.now ≤ 32 }
    ensures { IfOk result (λ made. made ≡ operand_among cols.now right.now) }
{
    match right {
        Operand::Col(col) => Ok(Operand::Col(place_among(cols, *col))),
        Operand::Lit(_) => right.copy(alloc),
    }
}
