ghost use Rattle.std.specs.{Prelude.{◌≡◌, ◌++◌, All, IfOk}, List.flat_map};
ghost use Rattle.smk_base.specs.{CatalogImage.catalog_image, declared.reply.Reply.Reply as ReplyShape};
ghost use Rattle.smk_model.specs.ReplyTexts as texts;
ghost use Rattle.smk_model.specs.OwnTexts as own;
ghost use Rattle.smk_model.specs.Texts.{brush_heading, brush_text};

use crate::answers::{brush_text, fwd_text, group_text};
use crate::lines::{line_around, line_of};
use crate::linked::{with_contents, with_linked};
use crate::lookup::{grouping_named, table_named, view_named};
use crate::refusals::refusal_text;
use crate::texts::{rids_text, view_text};
use smk_base::{Catalog, Line, Linked, Rel, Reply, Rids, Text};
use std::alloc::{AllocError, Global};

// The text of the content of a view.
fn content_text(
    alloc: Global,
    catalog: &Catalog,
    view: &Text,
    rel: &Rel,
) -> Result<Vec<u8>, AllocError>
    requires { texts.IsContent (catalog_image catalog.now) view.now rel.now }
    ensures { IfOk result (λ text. text.items ≡ texts.content_text (catalog_image catalog.now) view.now rel.now.rows) }
{
    match view_named(catalog, view) {
        Some(info) => view_text(alloc, view, &info.names, rel),
        None => unreachable!(),
    }
}

// The text of rows of a table with their rids.
fn found_text(
    alloc: Global,
    catalog: &Catalog,
    view: &Text,
    table: &Text,
    rids: &Rids,
    rows: &Rel,
) -> Result<Vec<u8>, AllocError>
    requires { texts.AreRowsOf (catalog_image catalog.now) table.now rids.now rows.now }
    ensures { IfOk result (λ text. text.items ≡ texts.rids_text (catalog_image catalog.now) view.now table.now rids.now rows.now.rows) }
{
    match table_named(catalog, table) {
        Some(info) => rids_text(alloc, view, table, &info.cols, rids, rows),
        None => unreachable!(),
    }
}

// The text of groups.
fn groups_text(
    alloc: Global,
    catalog: &Catalog,
    view: &Text,
    table: &Text,
    rel: &Rel,
) -> Result<Vec<u8>, AllocError>
    requires { texts.AreGroupsOf (catalog_image catalog.now) view.now table.now rel.now }
    ensures { IfOk result (λ text. text.items ≡ texts.groups_text (catalog_image catalog.now) view.now table.now rel.now.rows) }
{
    match grouping_named(catalog, view, table) {
        Some(names) => group_text(alloc, view, table, names, rel),
        None => unreachable!(),
    }
}

// The text of a brush, and of the views that follow it.
fn brushed_text(
    alloc: Global,
    catalog: &Catalog,
    view: &Text,
    table: &Text,
    rids: &Rids,
    linked: &[Linked],
) -> Result<Vec<u8>, AllocError>
    requires { All (texts.IsLinkedIn (catalog_image catalog.now)) linked.now }
    ensures { IfOk result (λ text. text.items ≡ brush_text view.now table.now rids.now ++ flat_map (texts.linked_text (catalog_image catalog.now)) linked.now) }
{
    let front = brush_text(alloc, view, table, rids.as_slice())?;
    with_linked(alloc, catalog, front, linked)
}

// The text of the end of a brush, and of the views that followed it.
fn cleared_text(
    alloc: Global,
    catalog: &Catalog,
    view: &Text,
    table: &Text,
    linked: &[Linked],
) -> Result<Vec<u8>, AllocError>
    requires { All (texts.IsLinkedIn (catalog_image catalog.now)) linked.now }
    ensures { IfOk result (λ text. text.items ≡ texts.cleared_line view.now table.now ++ flat_map (texts.linked_text (catalog_image catalog.now)) linked.now) }
{
    let front = cleared_line(alloc, view, table)?;
    with_linked(alloc, catalog, front, linked)
}

// The first line of the end of a brush.
fn cleared_line(alloc: Global, view: &Text, table: &Text) -> Result<Vec<u8>, AllocError>
    ensures { IfOk result (λ text. text.items ≡ texts.cleared_line view.now table.now) }
{
    line_of(
        alloc,
        &[b"cleared ", view.as_slice(), b" on ", table.as_slice()],
    )
}

// The first line of a brush that selects so many rids.
fn brush_heading(
    alloc: Global,
    view: &Text,
    table: &Text,
    count: u32,
) -> Result<Vec<u8>, AllocError>
    ensures { IfOk result (λ text. text.items ≡ brush_heading view.now table.now count) }
{
    line_around(
        alloc,
        &[b"brush ", view.as_slice(), b" on ", table.as_slice(), b" "],
        count as u64,
        &[],
    )
}

/// The text of a reply to a line that changes brushes, without rids and marks: its first line, with the number of rids that a brush selects, and the contents of the linked views. The lists of the reply aren't read.
pub fn brief_text(
    alloc: Global,
    cat: &Catalog,
    line: &Line,
    reply: &Reply,
    count: u32,
) -> Result<Vec<u8>, AllocError>
    requires { texts.IsReplyTo (catalog_image cat.now) line.now reply.now }
    ensures { IfOk result (λ text. (told : ReplyShape) → own.unlisted told ≡ own.unlisted reply.now → own.brushed_rids told ≡ count → text.items ≡ own.brief_text (catalog_image cat.now) line.now told) }
{
    match reply {
        Reply::Brush { linked, .. } => match line {
            Line::Brush { view, table, .. } => {
                let front = brush_heading(alloc, view, table, count)?;
                with_contents(alloc, cat, front, linked.as_slice())
            }
            _ => unreachable!(),
        },
        Reply::ClearedOne { linked } => match line {
            Line::ClearOne { view, table } => {
                let front = cleared_line(alloc, view, table)?;
                with_contents(alloc, cat, front, linked.as_slice())
            }
            _ => unreachable!(),
        },
        Reply::View { .. }
        | Reply::Back { .. }
        | Reply::Grouped { .. }
        | Reply::Fwd { .. }
        | Reply::Cleared
        | Reply::Refused(_) => reply_text(alloc, cat, line, reply),
    }
}

/// The text of a reply to a line of a script.
pub fn reply_text(
    alloc: Global,
    cat: &Catalog,
    line: &Line,
    reply: &Reply,
) -> Result<Vec<u8>, AllocError>
    requires { texts.IsReplyTo (catalog_image cat.now) line.now reply.now }
    ensures { IfOk result (λ text. text.items ≡ texts.reply_text (catalog_image cat.now) line.now reply.now) }
{
    match reply {
        Reply::View { rel } => match line {
            Line::Show { view } => content_text(alloc, cat, view, rel),
            _ => unreachable!(),
        },
        Reply::Back { rids, rows } => match line {
            Line::Back { view, table, .. } => found_text(alloc, cat, view, table, rids, rows),
            _ => unreachable!(),
        },
        Reply::Grouped { rel } => match line {
            Line::Back { view, table, .. } => groups_text(alloc, cat, view, table, rel),
            _ => unreachable!(),
        },
        Reply::Fwd { marks } => match line {
            Line::Fwd { table, view, .. } => fwd_text(alloc, table, view, marks.as_slice()),
            _ => unreachable!(),
        },
        Reply::Brush { rids, linked } => match line {
            Line::Brush { view, table, .. } => {
                brushed_text(alloc, cat, view, table, rids, linked.as_slice())
            }
            _ => unreachable!(),
        },
        Reply::Cleared => line_of(alloc, &[b"cleared"]),
        Reply::ClearedOne { linked } => match line {
            Line::ClearOne { view, table } => {
                cleared_text(alloc, cat, view, table, linked.as_slice())
            }
            _ => unreachable!(),
        },
        Reply::Refused(refusal) => refusal_text(alloc, cat, line, *refusal),
    }
}
