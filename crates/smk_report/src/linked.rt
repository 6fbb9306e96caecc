// The texts of the views that follow a brush.
ghost use Rattle.std.specs.{Prelude.{◌≡◌, ◌++◌, All, IfOk}, List.flat_map};
ghost use Rattle.smk_base.specs.CatalogImage.{catalog_image};
ghost use Rattle.smk_model.specs.ReplyTexts as texts;

use crate::lines::{add_counted, add_line_around};
use crate::lookup::view_at;
use crate::texts::with_rows;
use smk_base::{Catalog, Linked};
use std::alloc::{AllocError, Global};

// A text followed by the content of a linked view.
fn with_content(
    alloc: Global,
    catalog: &Catalog,
    front: Vec<u8>,
    linked: &Linked,
) -> Result<Vec<u8>, AllocError>
    requires { texts.IsLinkedIn (catalog_image catalog.now) linked.now }
    ensures { IfOk result (λ text. text.items ≡ front.items ++ texts.linked_rows_text (catalog_image catalog.now) linked.now) }
{
    let view = view_at(catalog, linked.view);
    let mut text = front;
    add_line_around(
        &mut text,
        &[b"view ", view.name.as_slice(), b" "],
        linked.rel.len() as u64,
        &[],
    )?;
    with_rows(alloc, text, &view.names, &linked.rel)
}

// A text followed by the text of a linked view: its marks, and its content.
fn with_one(
    alloc: Global,
    catalog: &Catalog,
    front: Vec<u8>,
    linked: &Linked,
) -> Result<Vec<u8>, AllocError>
    requires { texts.IsLinkedIn (catalog_image catalog.now) linked.now }
    ensures { IfOk result (λ text. text.items ≡ front.items ++ texts.linked_text (catalog_image catalog.now) linked.now) }
{
    let name = view_at(catalog, linked.view).name.as_slice();
    let mut text = front;
    add_counted(
        &mut text,
        &[b"linked ", name, b" "],
        b"marks",
        linked.marks.as_slice(),
    )?;
    with_content(alloc, catalog, text, linked)
}

/// A text followed by the contents of linked views, without their marks.
pub fn with_contents(
    alloc: Global,
    catalog: &Catalog,
    front: Vec<u8>,
    linked: &[Linked],
) -> Result<Vec<u8>, AllocError>
    requires { All (texts.IsLinkedIn (catalog_image catalog.now)) linked.now }
    ensures { IfOk result (λ text. text.items ≡ front.items ++ flat_map (texts.linked_rows_text (catalog_image catalog.now)) linked.now) }
{
    let mut text = front;
    for view in linked {
        text = with_content(alloc, catalog, text, view)?;
    }
    Ok(text)
}

/// A text followed by the texts of linked views.
pub fn with_linked(
    alloc: Global,
    catalog: &Catalog,
    front: Vec<u8>,
    linked: &[Linked],
) -> Result<Vec<u8>, AllocError>
    requires { All (texts.IsLinkedIn (catalog_image catalog.now)) linked.now }
    ensures { IfOk result (λ text. text.items ≡ front.items ++ flat_map (texts.linked_text (catalog_image catalog.now)) linked.now) }
{
    let mut text = front;
    for view in linked {
        text = with_one(alloc, catalog, text, view)?;
    }
    Ok(text)
}
