//! The values of a split: the distinct ones of a column, and the rids with each of them.
ghost use Rattle.std.specs.{Prelude.{◌≡◌, ◌<◌, ◌≤◌, ℕ, Bool, false, length, All, IfOk, slice_index_or, pos, position}, List.{concat, filter}};
ghost use Rattle.smk_base.specs.{Places.places, Values.value_eq, declared.value.Value.TheVariants.Int};
ghost use Rattle.smk_skip.specs.Parts.{values_in, lists_by, HasAll};

use indexmap::IndexSet;
use smk_base::{Rel, Seeded, Value};
use smk_body::turned_lists;
use smk_keys::Classes;
use smk_rid::RidMap;
use std::alloc::{AllocError, Global};

/// The values of a column, each at its first occurrence, and for each of them the rids of its rows.
pub(crate) fn parted(
    alloc: Global,
    rel: &Rel,
    col: u32,
) -> Result<(IndexSet<Value, Seeded>, RidMap), AllocError>
    requires { col < length rel.now.kinds }
    ensures whole { IfOk result (λ made. HasAll rel.now.rows col made.0.keys) }
    ensures lists { IfOk result (λ made. made.1.lists ≡ lists_by rel.now.rows col made.0.keys) }
    ensures bound { IfOk result (λ made. made.1.bound ≡ length rel.now.rows) }
    ensures once { IfOk result (λ made. (t : ℕ → Bool) → length (filter t (concat made.1.lists)) ≤ length (places t (length rel.now.rows))) }
{
    let _rows = rel.len();
    let classes = Classes::of_rows(alloc, rel, &[col])?;
    let values = values_at(alloc, rel, col, classes.firsts())?;
    let count = classes.firsts().len() as u32;
    let lists = turned_lists(alloc, classes.of(), count)?;
    Ok((values, lists))
}

// The values of a column at these rows, no two of which are equal.
fn values_at(
    alloc: Global,
    rel: &Rel,
    col: u32,
    rids: &[u32],
) -> Result<IndexSet<Value, Seeded>, AllocError>
    requires column { col < length rel.now.kinds }
    requires within { All (λ rid. rid < length rel.now.rows) rids.now }
    requires apart { (i j : ℕ) → i < j → j < length rids.now → value_eq (slice_index_or (values_in rel.now.rows col rids.now) j (Int (pos 0))) (slice_index_or (values_in rel.now.rows col rids.now) i (Int (pos 0))) ≡ false }
    ensures { IfOk result (λ made. made.keys ≡ values_in rel.now.rows col rids.now) }
{
    let mut values = IndexSet::with_capacity_and_hasher(
        alloc,
        rids.len(),
        Seeded::new(rel.seed()),
    )?;
    for rid in rids {
        let value = rel.cell(*rid, col).to_value(alloc)?;
        values.insert_full(value)?;
    }
    Ok(values)
}

/// The place of a value among the values, None if it isn't there.
pub(crate) fn place_of(values: &IndexSet<Value, Seeded>, v: &Value) -> Option<usize>
    ensures { result ≡ position (value_eq v.now) values.now.keys }
{
    values.get_index_of(v)
}
