// Which views scan a table, and which of these are growing chains.
ghost use Rattle.std.specs.Prelude.{◌≡◌, ◌<◌, length, IfOk};
ghost use Rattle.smk_base.specs.CatalogImage.{catalog_image};
ghost use Rattle.smk_model.specs.Appends.{scanning};
ghost use Rattle.smk_grow.specs.Renewed.{chains};

use smk_base::Rids;
use smk_marks::is_growing;
use smk_session::{view_of, view_scans};
use smk_typing::TypedBook;
use std::alloc::{AllocError, Global};

// Whether a view is a growing chain on a table.
pub(crate) fn view_chains(book: &TypedBook, table: u32, v: u32) -> bool
    requires { v < length book.now.views }
    ensures { result ≡ chains (catalog_image book.now) table v }
{
    view_scans(book, table, v) && is_growing(&view_of(book.catalog(), v).plan)
}

// The views that scan a table, in the book's order.
pub(crate) fn scanning_views(
    alloc: Global,
    book: &TypedBook,
    table: u32,
) -> Result<Rids, AllocError>
    ensures { IfOk result (λ views. views ≡ scanning (catalog_image book.now) table) }
{
    let count = book.catalog().views.as_slice().len();
    let mut views = Rids::new(alloc);
    for v in 0..count as u32 {
        if view_scans(book, table, v) {
            views.push(v)?;
        }
    }
    Ok(views)
}
