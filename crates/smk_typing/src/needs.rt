ghost use Rattle.std.specs.{Prelude.{◌≡◌, ◌<◌, length, All, IfOk}, List.list_any};
ghost use Rattle.smk_base.specs.{CatalogImage.catalog_image, Places.has};
ghost use Rattle.smk_model.specs.Workload.{is_back, is_link, is_fwd, is_linked, declares_back, declares_fwd, needed_at, needs};

use crate::book::typed_book::TypedBook;
use smk_base::{Back, Catalog, Dir, Fwd, LinkInfo, Need, Needed};
use std::alloc::{AllocError, Global};

/// The lineage that the declared queries of a view need: exactly their tables, in their directions.
#[tactic(auto, using(crate::proofs::NeedsBelow::needs_below))]
pub fn needed(alloc: Global, book: &TypedBook, view: u32) -> Result<Need, AllocError>
    ensures needs { IfOk result (λ need. need ≡ needs (catalog_image book.now) view) }
    ensures tables { IfOk result (λ need. All (λ needed. needed.table < length book.now.tables) need) }
{
    let catalog = book.catalog();
    let mut need = Need::new(alloc);
    for table in 0..catalog.tables.as_slice().len() as u32 {
        let one = at_table(catalog, view, table);
        if one.dir.back || one.dir.fwd {
            need.push(one)?;
        }
    }
    Ok(need)
}

// A table in the directions of the declared queries of the view.
fn at_table(catalog: &Catalog, view: u32, table: u32) -> Needed
    ensures { result ≡ needed_at (catalog_image catalog.now) view table }
{
    let dir = Dir {
        back: has_back(catalog, view, table),
        fwd: has_fwd(catalog, view, table),
    };
    Needed { table, dir }
}

// Whether the backward query of the view to the table is declared.
fn has_back(catalog: &Catalog, view: u32, table: u32) -> bool
    ensures { result ≡ declares_back (catalog_image catalog.now) view table }
{
    in_backs(catalog.backs.as_slice(), view, table)
        || in_links_from(catalog.links.as_slice(), view, table)
}

// Whether the forward query of the table to the view is declared.
fn has_fwd(catalog: &Catalog, view: u32, table: u32) -> bool
    ensures { result ≡ declares_fwd (catalog_image catalog.now) view table }
{
    in_fwds(catalog.fwds.as_slice(), view, table)
        || in_links_to(catalog.links.as_slice(), view, table)
}

// Whether some backward declaration is of the view and the table.
fn in_backs(backs: &[Back], view: u32, table: u32) -> bool
    ensures { result ≡ list_any (is_back view table) backs.now }
{
    backs.iter().any(|b| b.view == view && b.table == table)
}

// Whether some forward declaration is of the table and the view.
fn in_fwds(fwds: &[Fwd], view: u32, table: u32) -> bool
    ensures { result ≡ list_any (is_fwd view table) fwds.now }
{
    fwds.iter().any(|f| f.view == view && f.table == table)
}

// Whether some link leads from the view on the table.
fn in_links_from(links: &[LinkInfo], view: u32, table: u32) -> bool
    ensures { result ≡ list_any (is_link view table) links.now }
{
    links.iter().any(|l| l.view == view && l.table == table)
}

// Whether some link leads to the view on the table.
fn in_links_to(links: &[LinkInfo], view: u32, table: u32) -> bool
    ensures { result ≡ list_any (is_linked view table) links.now }
{
    links.iter().any(|l| leads_to(l, view) && l.table == table)
}

// Whether the link leads to the view.
fn leads_to(link: &LinkInfo, view: u32) -> bool
    ensures { result ≡ has link.now.to view }
{
    link.to.as_slice().iter().any(|w| view == *w)
}
