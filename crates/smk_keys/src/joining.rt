//! The classes of rows from those of parts of them.

ghost use Rattle.std.specs.Prelude.{◌≡◌, ◌<◌, ◌≤◌, ◌+◌, ◌++◌, IfOk, OnOk, All, length, map, slice_index};
ghost use Rattle.smk_base.specs.declared.rel.TheConstants.{ROW_LIMIT};
ghost use Rattle.smk_keys.specs.Joined.{key_total, numbers_from};

use crate::classes::Classes;
use smk_base::numbers_at;
use std::alloc::{AllocError, Global};

/// The classes of all rows from those of their parts, which lie one behind the other: the keys of the parts are numbered one part after the other, `places` are the places of their first rows, and `keys` are their classes. There are `rows` rows.
pub fn joined(
    alloc: Global,
    parts: &[Classes],
    places: &[u32],
    keys: &Classes,
    rows: usize,
) -> Result<Classes, AllocError>
    requires few { key_total parts.now ≤ ROW_LIMIT }
    requires within { All (λ number. number < length keys.now.of) (numbers_from 0 parts.now) }
    requires firsts { All (λ key. key < length places.now) keys.now.firsts }
    ensures { IfOk result (λ made. made ≡ record { of = map (slice_index keys.now.of) (numbers_from 0 parts.now); firsts = map (slice_index places.now) keys.now.firsts }) }
{
    let of = renumbered(alloc, parts, keys.of(), rows)?;
    let firsts = numbers_at(alloc, places, keys.firsts())?;
    Ok(Classes::of_parts(of, firsts))
}

// For each row of these parts the entry that a table has for its key, whose keys are numbered one part after the other.
fn renumbered(
    alloc: Global,
    parts: &[Classes],
    table: &[u32],
    rows: usize,
) -> Result<Vec<u32>, AllocError>
    requires few { key_total parts.now ≤ ROW_LIMIT }
    requires within { All (λ number. number < length table.now) (numbers_from 0 parts.now) }
    ensures { IfOk result (λ of. of.items ≡ map (slice_index table.now) (numbers_from 0 parts.now)) }
{
    let mut of = Vec::with_capacity(alloc, rows)?;
    let mut from = 0;
    for part in parts {
        push_entries(&mut of, table, from, part.of())?;
        from += part.firsts().len() as u32;
    }
    Ok(of)
}

// Appends the entry that a table has for each of these classes, numbered from one number on.
fn push_entries(
    of: &mut Vec<u32>,
    table: &[u32],
    from: u32,
    classes: &[u32],
) -> Result<(), AllocError>
    requires { All (λ class. from + class < length table.now) classes.now }
    ensures { OnOk result (of.new.items ≡ of.old.items ++ map (λ class. slice_index table.now (from + class)) classes.now) }
{
    of.extend(
        classes
            .iter()
            .map(|class| table[from as usize + *class as usize]),
    )
}
