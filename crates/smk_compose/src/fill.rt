ghost use Rattle.std.specs.Prelude.{◌≡◌, ◌<◌, ℕ, length, slice_index_or, IfOk, OnOk};
ghost use Rattle.smk_model.specs.{Selection.each_rows, Composed.table_at};
ghost use Rattle.smk_compose.specs.{KeptMaps.NeedFits, Through.{filled, or_empty, map_at, no_need}};

use crate::chain::put;
use crate::kept_maps::KeptMap;
use crate::passing::Passing;
use smk_base::{Dir, Needed};
use smk_rid::RidMap;
use smk_table::Table;
use std::alloc::{AllocError, Global};

/// The maps as lists, with an empty one for each that is needed and isn't there. Those that are there are narrowed.
pub(crate) fn fill(
    alloc: Global,
    maps: &mut [Passing],
    need: &[Needed],
    rows: u32,
    tables: &[Table],
) -> Result<Vec<KeptMap>, AllocError>
    requires long { length maps.old ≡ length need.now }
    requires known { NeedFits (length tables.now) need.now }
    ensures long { IfOk result (λ made. length made.items ≡ length maps.old) }
    ensures each { IfOk result (λ made. (i : ℕ) → i < length need.now → let n = slice_index_or need.now i no_need in map_at made.items i ≡ filled n.dir rows (length (table_at (each_rows tables.now) n.table)) (map_at maps.old i)) }
{
    let mut made = Vec::with_capacity(alloc, need.len())?;
    for i in 0..need.len() {
        let n = need[i];
        let size = tables[n.table as usize].len();
        let mut lists = maps[i].take(alloc)?;
        fill_one(alloc, &mut lists, n.dir, rows, size)?;
        made.push(lists)?;
    }
    Ok(made)
}

// Puts an empty map where one is needed and isn't there.
fn fill_one(
    alloc: Global,
    map: &mut KeptMap,
    dir: Dir,
    rows: u32,
    size: u32,
) -> Result<(), AllocError>
    ensures { OnOk result (map.new ≡ filled dir rows size map.old) }
{
    fill_map(alloc, &mut map.back, dir.back, rows, size)?;
    fill_map(alloc, &mut map.fwd, dir.fwd, size, rows)
}

fn fill_map(
    alloc: Global,
    map: &mut Option<RidMap>,
    is_needed: bool,
    len: u32,
    bound: u32,
) -> Result<(), AllocError>
    ensures { OnOk result (map.new ≡ or_empty is_needed map.old len bound) }
{
    if is_needed && map.is_none() {
        put(map, Some(RidMap::of_none(len, bound)));
    }
    narrow(alloc, map)
}

/// Narrows the lists, if there are any. After an error the map is of no use.
pub fn narrow(alloc: Global, map: &mut Option<RidMap>) -> Result<(), AllocError>
    ensures { OnOk result (map.new ≡ map.old) }
{
    if let Some(lists) = map.take() {
        put(map, Some(lists.narrowed(alloc)?));
    }
    Ok(())
}
