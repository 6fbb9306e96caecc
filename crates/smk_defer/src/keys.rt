//! Keys of rows: a table of them, and the place of each row's key in a table.

ghost use Rattle.std.specs.{Prelude.{◌≡◌, ◌<◌, ◌≤◌, All, IfOk, length, map}, Bool.OnTrue};
ghost use Rattle.smk_base.specs.{Cells.value_of_cell, Places.upto, Rels.{picked, row_in, rows_at}, declared.rel.TheConstants.ROW_LIMIT};
ghost use Rattle.smk_keys.specs.Keys.{place_or_last};
ghost use Rattle.smk_model.specs.{Classes.places_in, Plain.firsts, Ways.Targets};

use smk_base::{CellRef, Rel, Row, Value, numbers_at, numbers_below};
use smk_body::Way;
use smk_keys::{Classes, KeyTable};
use std::alloc::{AllocError, Global};

/// The keys of rows in these columns, each at its first occurrence, from the classes of the keys.
pub(crate) fn class_keys(alloc: Global, rel: &Rel, cols: &[u32]) -> Result<KeyTable, AllocError>
    requires { All (λ c. c < length rel.now.kinds) cols.now }
    ensures { IfOk result (λ made. made ≡ firsts (map (picked cols.now) rel.now.rows)) }
{
    let _rows = rel.len();
    let classes = Classes::of_rows(alloc, rel, cols)?;
    let made = keys_at(alloc, rel, cols, classes.firsts())?;
    Ok(made)
}

/// The rows as keys, each at its first occurrence.
pub(crate) fn row_keys(alloc: Global, rel: &Rel) -> Result<KeyTable, AllocError>
    ensures { IfOk result (λ made. made ≡ firsts rel.now.rows) }
{
    first_keys(alloc, rel, rel.width())
}

/// The first `count` columns of the rows as keys, each at its first occurrence.
pub(crate) fn first_keys(alloc: Global, rel: &Rel, count: u32) -> Result<KeyTable, AllocError>
    requires { count ≤ length rel.now.kinds }
    ensures { IfOk result (λ made. made ≡ firsts (map (picked (upto count)) rel.now.rows)) }
{
    let cols = numbers_below(alloc, count)?;
    let places = numbers_below(alloc, rel.len())?;
    let made = keys_at(alloc, rel, cols.as_slice(), places.as_slice())?;
    Ok(made)
}

// The keys of the rows at these places, each at its first occurrence.
fn keys_at(alloc: Global, rel: &Rel, cols: &[u32], places: &[u32]) -> Result<KeyTable, AllocError>
    requires columns { All (λ c. c < length rel.now.kinds) cols.now }
    requires within { All (λ i. i < length rel.now.rows) places.now }
    requires few { length places.now ≤ ROW_LIMIT }
    ensures { IfOk result (λ made. made ≡ firsts (map (picked cols.now) (rows_at rel.now.rows places.now))) }
{
    let mut made = KeyTable::seeded(alloc, rel.seed());
    for k in 0..places.len() {
        made.find_or_add(key_at(alloc, rel, places[k], cols)?)?;
    }
    Ok(made)
}

/// For each row the place of its key among these keys, and their number if it isn't there. Rows with equal keys are put into classes first, so that a key is looked up once for all of them.
pub(crate) fn key_places(
    alloc: Global,
    rel: &Rel,
    cols: &[u32],
    keys: &KeyTable,
) -> Result<Vec<u32>, AllocError>
    requires { All (λ c. c < length rel.now.kinds) cols.now }
    ensures places { IfOk result (λ made. made.items ≡ places_in keys.now (map (picked cols.now) rel.now.rows)) }
    ensures few { IfOk result (λ made. length made.items ≤ ROW_LIMIT) }
{
    let _rows = rel.len();
    let classes = Classes::of_rows(alloc, rel, cols)?;
    let table = found_at(alloc, rel, cols, classes.firsts(), keys)?;
    let made = numbers_at(alloc, table.as_slice(), classes.of())?;
    Ok(made)
}

/// The way in which each of these rows reaches the row of its key among these keys, in their order.
pub(crate) fn key_way(
    alloc: Global,
    rel: &Rel,
    cols: &[u32],
    keys: &KeyTable,
) -> Result<Way, AllocError>
    requires columns { All (λ c. c < length rel.now.kinds) cols.now }
    requires known { All (λ p. p < length keys.now) (places_in keys.now (map (picked cols.now) rel.now.rows)) }
    ensures { IfOk result (λ it. it ≡ Targets (places_in keys.now (map (picked cols.now) rel.now.rows)) (length keys.now)) }
{
    let places = key_places(alloc, rel, cols, keys)?;
    Ok(Way::targets(places, keys.len(), None))
}

/// This way, if the rows are the keys.
pub(crate) fn row_way(alloc: Global, rel: &Rel, keys: &KeyTable) -> Result<Way, AllocError>
    requires { All (λ p. p < length keys.now) (places_in keys.now rel.now.rows) }
    ensures { IfOk result (λ it. it ≡ Targets (places_in keys.now rel.now.rows) (length keys.now)) }
{
    let cols = numbers_below(alloc, rel.width())?;
    key_way(alloc, rel, cols.as_slice(), keys)
}

// For each of these places the place of its row's key among the keys, and their number if it isn't there.
fn found_at(
    alloc: Global,
    rel: &Rel,
    cols: &[u32],
    places: &[u32],
    keys: &KeyTable,
) -> Result<Vec<u32>, AllocError>
    requires columns { All (λ c. c < length rel.now.kinds) cols.now }
    requires within { All (λ i. i < length rel.now.rows) places.now }
    requires few { length places.now ≤ ROW_LIMIT }
    ensures { IfOk result (λ made. made.items ≡ places_in keys.now (map (picked cols.now) (rows_at rel.now.rows places.now))) }
{
    let mut made = Vec::with_capacity(alloc, places.len())?;
    for k in 0..places.len() {
        made.push(place_of_key(alloc, rel, places[k], cols, keys, k as u32)?)?;
    }
    Ok(made)
}

// The place of the key of row i among the keys, and their number if it isn't there. The keys are mostly those of the same rows in their order, so where it is expected it is compared first: that makes no key, and hashes none.
fn place_of_key(
    alloc: Global,
    rel: &Rel,
    i: u32,
    cols: &[u32],
    keys: &KeyTable,
    expected: u32,
) -> Result<u32, AllocError>
    requires row { i < length rel.now.rows }
    requires columns { All (λ c. c < length rel.now.kinds) cols.now }
    ensures { IfOk result (λ place. place ≡ place_or_last keys.now (picked cols.now (row_in rel.now.rows i))) }
{
    if expected < keys.len() && is_key_of(keys.key(expected), rel, i, cols) {
        return Ok(expected);
    }
    let key = key_at(alloc, rel, i, cols)?;
    Ok(place_or_len(keys, &key))
}

// Whether this is the key of row i.
fn is_key_of(key: &Row, rel: &Rel, i: u32, cols: &[u32]) -> bool
    requires row { i < length rel.now.rows }
    requires columns { All (λ c. c < length rel.now.kinds) cols.now }
    ensures { OnTrue result (key.now ≡ picked cols.now (row_in rel.now.rows i)) }
{
    let values = key.as_slice();
    if values.len() != cols.len() {
        return false;
    }
    for k in 0..cols.len() {
        if !is_value_of(&values[k], rel.cell(i, cols[k])) {
            return false;
        }
    }
    true
}

// Whether a value is that of a cell.
fn is_value_of(value: &Value, cell: CellRef) -> bool
    ensures { OnTrue result (value.now ≡ value_of_cell cell.entry) }
{
    match (value, cell) {
        (Value::Int(a), CellRef::Int(b)) => *a == b,
        (Value::Text(a), CellRef::Text(b)) => a.as_slice() == b,
        (Value::Int(_), CellRef::Text(_)) => false,
        (Value::Text(_), CellRef::Int(_)) => false,
    }
}

// The place of a key, and the number of keys if it isn't there.
fn place_or_len(keys: &KeyTable, key: &Row) -> u32
    ensures { result ≡ place_or_last keys.now key.now }
{
    match keys.find(key) {
        Some(place) => place,
        None => keys.len(),
    }
}

// The key of row i.
fn key_at(alloc: Global, rel: &Rel, i: u32, cols: &[u32]) -> Result<Row, AllocError>
    requires row { i < length rel.now.rows }
    requires columns { All (λ c. c < length rel.now.kinds) cols.now }
    ensures { IfOk result (λ key. key ≡ picked cols.now (row_in rel.now.rows i)) }
{
    let mut values = Vec::with_capacity(alloc, cols.len())?;
    for c in cols {
        values.push(rel.cell(i, *c).to_value(alloc)?)?;
    }
    Ok(Row::from_vec(values))
}
