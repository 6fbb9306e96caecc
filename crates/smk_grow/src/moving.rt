// The lineage to a table of the views that don't scan it, over more rows of it or fewer: it stays empty. None of it takes memory.
ghost use Rattle.std.specs.Prelude.{◌≡◌, length, map, option_map};
ghost use Rattle.smk_base.specs.{CatalogImage.catalog_image, Places.empty_lists};
ghost use Rattle.smk_grow.specs.Renewed.{moved_kept, moved_view, moved_views};

use smk_compose::{KeptMap, Kepts};
use smk_rid::RidMap;
use smk_session::{Opened, view_scans};
use smk_typing::TypedBook;
use std::alloc::Global;
use std::mem::replace;

// As many empty lists, where there are lists.
fn empty(map: &mut Option<RidMap>, len: u32, bound: u32)
    ensures { map.new ≡ option_map (λ map. empty_lists len bound) map.old }
{
    if map.is_some() {
        *map = Some(RidMap::of_none(len, bound));
    }
}

// The lineage to a table of a view of so many rows that doesn't scan the table, which now has so many rows.
fn move_map(kept: &mut KeptMap, table: u32, rows: u32, size: u32)
    ensures { kept.new ≡ moved_kept table rows size kept.old }
{
    if kept.table == table {
        empty(&mut kept.back, rows, size);
        empty(&mut kept.fwd, size, rows);
    }
}

fn move_maps(kepts: &mut [KeptMap], table: u32, rows: u32, size: u32)
    ensures { kepts.new ≡ map (moved_kept table rows size) kepts.old }
{
    for kept in kepts.iter_mut() {
        move_map(kept, table, rows, size);
    }
}

fn move_view(alloc: Global, view: &mut Opened, table: u32, size: u32)
    ensures { view.new ≡ moved_view table size view.old }
{
    let rows = view.rel.len();
    let mut kepts = replace(&mut view.kept, Kepts::new(alloc)).into_vec();
    move_maps(kepts.as_mut_slice(), table, rows, size);
    view.kept = Kepts::from_vec(kepts);
}

// Moves all views that don't scan a table to the rows that the table has now.
pub(crate) fn move_views(
    alloc: Global,
    book: &TypedBook,
    views: &mut [Opened],
    table: u32,
    size: u32,
)
    requires { length views.old ≡ length book.now.views }
    ensures { views.new ≡ moved_views (catalog_image book.now) table size views.old }
{
    let count = book.catalog().views.as_slice().len();
    for v in 0..count as u32 {
        if !view_scans(book, table, v) {
            move_view(alloc, &mut views[v as usize], table, size);
        }
    }
}
