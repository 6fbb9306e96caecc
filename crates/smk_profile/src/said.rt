// The texts of answers to `fd` lines.
ghost use Rattle.std.specs.Prelude.{◌≡◌, ◌++◌, ◌∷◌, [], length, map, codes, decimal, All, IfOk, OnOk};
ghost use Rattle.smk_base.specs.CatalogImage.{catalog_image};
ghost use Rattle.smk_model.specs.ProfileTexts as texts;
ghost use Rattle.smk_model.specs.Texts.{line};

use itoa::Buffer;
use smk_base::{Catalog, ColDecls, Group, ProfileRefusal, ProfileReply, Text};
use smk_report::{add_line_around, line_around, line_of, with_numbered_rows, with_table_header};
use std::alloc::{AllocError, Global};

// Writes the line of a mark at the end of a text: the mark, and how many rows it has. After an error the text is of no use.
pub(crate) fn add_mark(text: &mut Vec<u8>, mark: u64, rows: u64) -> Result<(), AllocError>
    ensures { OnOk result (text.new.items ≡ text.old.items ++ line (codes "mark " ∷ decimal mark ∷ codes " " ∷ decimal rows ∷ [])) }
{
    let mut count = Buffer::new();
    add_line_around(
        text,
        &[b"mark "],
        mark,
        &[b" ", count.format(rows).as_bytes()],
    )
}

// A text followed by the rows of a mark.
fn with_mark(alloc: Global, front: Vec<u8>, mark: u64, group: &Group) -> Result<Vec<u8>, AllocError>
    requires { texts.IsPlaced group.now }
    ensures { IfOk result (λ text. text.items ≡ front.items ++ texts.mark_text mark group.now) }
{
    let mut text = front;
    add_mark(&mut text, mark, group.rows.len() as u64)?;
    with_numbered_rows(alloc, text, group.rids.as_slice(), &group.rows)
}

// A text followed by the rows of all marks.
fn with_marks(alloc: Global, front: Vec<u8>, groups: &[Group]) -> Result<Vec<u8>, AllocError>
    requires { All texts.IsPlaced groups.now }
    ensures { IfOk result (λ text. text.items ≡ front.items ++ texts.mark_texts_to groups.now (length groups.now)) }
{
    let mut text = front;
    for mark in 0..groups.len() {
        text = with_mark(alloc, text, mark as u64, &groups[mark])?;
    }
    Ok(text)
}

// The text of what violates a dependency.
fn found_text(
    alloc: Global,
    view: &Text,
    columns: &ColDecls,
    groups: &[Group],
) -> Result<Vec<u8>, AllocError>
    requires { All texts.IsPlaced groups.now }
    ensures { IfOk result (λ text. text.items ≡ texts.found_text view.now (map (λ column. column.name) columns.now) groups.now) }
{
    let front = line_around(
        alloc,
        &[b"fd ", view.as_slice(), b" "],
        groups.len() as u64,
        &[],
    )?;
    let headed = with_table_header(alloc, front, columns)?;
    with_marks(alloc, headed, groups)
}

/// The line of an `fd` line that is refused.
pub(crate) fn refused_text(
    alloc: Global,
    view: &Text,
    refusal: ProfileRefusal,
) -> Result<Vec<u8>, AllocError>
    ensures { IfOk result (λ text. text.items ≡ texts.profile_refusal_text view.now refusal) }
{
    match refusal {
        ProfileRefusal::UnknownView => line_of(alloc, &[b"refused unknown view ", view.as_slice()]),
        ProfileRefusal::NotProfile => line_of(alloc, &[b"refused no dependency ", view.as_slice()]),
    }
}

/// The text of an answer to an `fd` line.
pub fn profile_text(
    alloc: Global,
    cat: &Catalog,
    line: &Text,
    reply: &ProfileReply,
) -> Result<Vec<u8>, AllocError>
    requires { texts.IsProfileReply (catalog_image cat.now) reply.now }
    ensures { IfOk result (λ text. text.items ≡ texts.profile_text (catalog_image cat.now) line.now reply.now) }
{
    match reply {
        ProfileReply::Found { table, marks } => {
            let columns = &cat.tables.as_slice()[*table as usize].cols;
            found_text(alloc, line, columns, marks.as_slice())
        }
        ProfileReply::Refused(refusal) => refused_text(alloc, line, *refusal),
    }
}
