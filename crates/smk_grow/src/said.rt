// The texts of answers to `append` lines.
ghost use Rattle.std.specs.{Prelude.{◌≡◌, ◌<◌, ◌++◌, ◌∷◌, [], length, codes, decimal, All, IfOk}, List.flat_map};
ghost use Rattle.smk_base.specs.CatalogImage.{catalog_image};
ghost use Rattle.smk_model.specs.AppendTexts as texts;
ghost use Rattle.smk_model.specs.{Session.view_at, Texts.line, Typing.info_at, ViewTexts.text_of_view};
ghost use Rattle.smk_session.specs.Sessions.{workbook_of};

use smk_base::{AppendRefusal, AppendReply, Catalog, Text};
use smk_report::{line_around, line_of, view_text};
use smk_session::Session;
use std::alloc::{AllocError, Global};

// A text followed by that of a view.
fn with_view(
    alloc: Global,
    front: Vec<u8>,
    session: &Session,
    view: u32,
) -> Result<Vec<u8>, AllocError>
    requires { view < length session.now.catalog.views }
    ensures { IfOk result (λ text. text.items ≡ front.items ++ text_of_view (workbook_of session.now) (view_at (catalog_image session.now.catalog) view)) }
{
    let info = &session.catalog().views.as_slice()[view as usize];
    let more = view_text(alloc, &info.name, &info.names, session.first(view))?;
    let mut text = front;
    text.extend_from_slice(more.as_slice())?;
    Ok(text)
}

// A text followed by those of some views.
fn with_views(
    alloc: Global,
    front: Vec<u8>,
    session: &Session,
    views: &[u32],
) -> Result<Vec<u8>, AllocError>
    requires { All (λ v. v < length (catalog_image session.now.catalog).views) views.now }
    ensures { IfOk result (λ text. text.items ≡ front.items ++ flat_map (λ v. text_of_view (workbook_of session.now) (view_at (catalog_image session.now.catalog) v)) views.now) }
{
    let mut text = front;
    for view in views {
        text = with_view(alloc, text, session, *view)?;
    }
    Ok(text)
}

// How many rows were appended.
pub(crate) fn added_line(alloc: Global, table: &Text, rows: u32) -> Result<Vec<u8>, AllocError>
    ensures { IfOk result (λ text. text.items ≡ line (codes "append " ∷ table.now ∷ codes " " ∷ decimal rows ∷ [])) }
{
    line_around(
        alloc,
        &[b"append ", table.as_slice(), b" "],
        rows as u64,
        &[],
    )
}

// How many rows were appended, and the views that scan the table.
fn added_text(
    alloc: Global,
    session: &Session,
    table: &Text,
    rows: u32,
    views: &[u32],
) -> Result<Vec<u8>, AllocError>
    requires { All (λ v. v < length (catalog_image session.now.catalog).views) views.now }
    ensures { IfOk result (λ text. text.items ≡ texts.added_text (workbook_of session.now) table.now rows views.now) }
{
    let front = added_line(alloc, table, rows)?;
    with_views(alloc, front, session, views)
}

// A view that would have a node with too many rows.
fn rows_text(alloc: Global, cat: &Catalog, view: u32, node: u32) -> Result<Vec<u8>, AllocError>
    requires { view < length cat.now.views }
    ensures { IfOk result (λ text. text.items ≡ line (codes "refused too many rows in " ∷ (view_at (catalog_image cat.now) view).name ∷ codes " at node " ∷ decimal node ∷ [])) }
{
    let name = cat.views.as_slice()[view as usize].name.as_slice();
    line_around(
        alloc,
        &[b"refused too many rows in ", name, b" at node "],
        node as u64,
        &[],
    )
}

// A view that would have a node with too many pairs with a table.
fn pairs_text(
    alloc: Global,
    cat: &Catalog,
    view: u32,
    node: u32,
    table: u32,
) -> Result<Vec<u8>, AllocError>
    requires view { view < length cat.now.views }
    requires table { table < length cat.now.tables }
    ensures { IfOk result (λ text. text.items ≡ line (codes "refused too much lineage of " ∷ (view_at (catalog_image cat.now) view).name ∷ codes " at node " ∷ decimal node ∷ codes " to table " ∷ (info_at cat.now.tables table).name ∷ [])) }
{
    let name = cat.views.as_slice()[view as usize].name.as_slice();
    let to = cat.tables.as_slice()[table as usize].name.as_slice();
    line_around(
        alloc,
        &[b"refused too much lineage of ", name, b" at node "],
        node as u64,
        &[b" to table ", to],
    )
}

// Why a line is refused.
pub(crate) fn refused_text(
    alloc: Global,
    cat: &Catalog,
    table: &Text,
    refusal: AppendRefusal,
) -> Result<Vec<u8>, AllocError>
    requires { texts.IsRefusalIn (catalog_image cat.now) refusal }
    ensures { IfOk result (λ text. text.items ≡ texts.append_refusal_text (catalog_image cat.now) table.now refusal) }
{
    match refusal {
        AppendRefusal::UnknownTable => {
            line_of(alloc, &[b"refused unknown table ", table.as_slice()])
        }
        AppendRefusal::TableRows => {
            line_of(
                alloc,
                &[b"refused too many rows in table ", table.as_slice()],
            )
        }
        AppendRefusal::ViewRows { view, node } => rows_text(alloc, cat, view, node),
        AppendRefusal::ViewPairs { view, node, table } => {
            pairs_text(alloc, cat, view, node, table)
        }
    }
}

/// The text of an answer to a line that appends to the table with this name: how many rows were appended, and the texts of the views that scan the table, as the session has them after it; or why it is refused.
pub fn append_text(
    alloc: Global,
    session: &Session,
    table: &Text,
    reply: &AppendReply,
) -> Result<Vec<u8>, AllocError>
    requires { texts.IsAppendReply (catalog_image session.now.catalog) reply.now }
    ensures { IfOk result (λ text. text.items ≡ texts.append_text (workbook_of session.now) table.now reply.now) }
{
    match reply {
        AppendReply::Added { rows, views } => {
            added_text(alloc, session, table, *rows, views.as_slice())
        }
        AppendReply::Refused(refusal) => refused_text(alloc, session.catalog(), table, *refusal),
    }
}
