// The links of a book, and what follows a brush.
ghost use Rattle.std.specs.{Prelude.{◌≡◌, ◌&&◌, IfOk}, List.list_any};
ghost use Rattle.smk_base.specs.{Places.has, CatalogImage.catalog_image};
ghost use Rattle.smk_model.specs.Session as sessions;
ghost use Rattle.smk_model.specs.Workload as workload;
ghost use Rattle.smk_session.specs.Sessions as kept;

use smk_base::{BrushOn, Catalog, LinkInfo};
use std::alloc::{AllocError, Global};

// Whether a link is of a view on a table.
pub(crate) fn is_link(v: u32, t: u32, link: &LinkInfo) -> bool
    ensures { result ≡ workload.is_link v t link.now }
{
    link.view == v && link.table == t
}

// Whether a view has a link on a table, of at most 64.
pub(crate) fn has_link(catalog: &Catalog, v: u32, t: u32) -> bool
    ensures { result ≡ list_any (workload.is_link v t) catalog.now.links }
{
    catalog
        .links
        .as_slice()
        .iter()
        .any(|link| is_link(v, t, link))
}

// The views that the links of a view on a table name.
pub(crate) fn linked(
    alloc: Global,
    catalog: &Catalog,
    v: u32,
    t: u32,
) -> Result<Vec<u32>, AllocError>
    ensures { IfOk result (λ views. views.items ≡ sessions.linked (catalog_image catalog.now) v t) }
{
    let links = catalog.links.as_slice();
    let mut views = Vec::new(alloc);
    for link in links {
        if is_link(v, t, link) {
            views.extend_from_slice(link.to.as_slice())?;
        }
    }
    Ok(views)
}

// Whether a link names a view.
fn names(link: &LinkInfo, w: u32) -> bool
    ensures { result ≡ has link.now.to w }
{
    link.to.as_slice().iter().any(|to| w == *to)
}

// Whether one of these links is of a view on a table and names a view.
fn some_names(links: &[LinkInfo], v: u32, t: u32, w: u32) -> bool
    ensures { result ≡ list_any (λ link. workload.is_link v t link && has link.to w) links.now }
{
    links
        .iter()
        .any(|link| is_link(v, t, link) && names(link, w))
}

// Whether the links of a view on a table name a view.
#[tactic(auto, using(crate::proofs::Linked::has_linked))]
fn is_named(catalog: &Catalog, v: u32, t: u32, w: u32) -> bool
    ensures { result ≡ has (sessions.linked (catalog_image catalog.now) v t) w }
{
    some_names(catalog.links.as_slice(), v, t, w)
}

// Whether a brush selects rows of a table for a view.
pub(crate) fn concerns(catalog: &Catalog, w: u32, t: u32, brush: &BrushOn) -> bool
    ensures { result ≡ sessions.concerns (catalog_image catalog.now) w t brush.now }
{
    brush.table == t && is_named(catalog, brush.view, t, w)
}

// Whether a view follows one of the brushes.
pub(crate) fn follows_some(catalog: &Catalog, brushes: &[BrushOn], w: u32) -> bool
    ensures { result ≡ list_any (kept.follows (catalog_image catalog.now) w) brushes.now }
{
    brushes
        .iter()
        .any(|brush| is_named(catalog, brush.view, brush.table, w))
}
