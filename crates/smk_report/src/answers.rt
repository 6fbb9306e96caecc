// The texts of lineage, each by itself: groups, marks and rids.
ghost use Rattle.std.specs.Prelude.{◌≡◌, ◌++◌, ◌∷◌, [], length, map, decimal, IfOk};
ghost use Rattle.smk_model.specs.Texts as texts;

use crate::lines::{add_counted, line_around};
use crate::texts::with_rows;
use smk_base::{ListOf, Rel, Text};
use std::alloc::{AllocError, Global};

/// The text of a declared grouping of a backward answer, with the names of the grouping.
pub fn group_text(
    alloc: Global,
    view: &Text,
    table: &Text,
    columns: &ListOf<Text>,
    rel: &Rel,
) -> Result<Vec<u8>, AllocError>
    requires { length columns.now ≡ length rel.now.kinds }
    ensures { IfOk result (λ text. text.items ≡ texts.group_text view.now table.now columns.now rel.now.rows) }
{
    let front = line_around(
        alloc,
        &[b"group ", view.as_slice(), b" to ", table.as_slice(), b" "],
        rel.len() as u64,
        &[],
    )?;
    with_rows(alloc, front, columns, rel)
}

// A line of parts and of how many numbers there are, and the line of the numbers.
fn counted_text(
    alloc: Global,
    parts: &[&[u8]],
    word: &[u8],
    numbers: &[u32],
) -> Result<Vec<u8>, AllocError>
    ensures { IfOk result (λ text. text.items ≡ texts.line (map (λ part. part.now) parts.now ++ decimal (length numbers.now) ∷ []) ++ texts.numbers_line word.now numbers.now) }
{
    let mut text = Vec::new(alloc);
    add_counted(&mut text, parts, word, numbers)?;
    Ok(text)
}

/// The text of a forward answer: the marks of the view.
pub fn fwd_text(
    alloc: Global,
    table: &Text,
    view: &Text,
    marks: &[u32],
) -> Result<Vec<u8>, AllocError>
    ensures { IfOk result (λ text. text.items ≡ texts.fwd_text table.now view.now marks.now) }
{
    counted_text(
        alloc,
        &[b"fwd ", table.as_slice(), b" to ", view.as_slice(), b" "],
        b"marks",
        marks,
    )
}

/// The text of the rids that a brush selects.
pub fn brush_text(
    alloc: Global,
    view: &Text,
    table: &Text,
    rids: &[u32],
) -> Result<Vec<u8>, AllocError>
    ensures { IfOk result (λ text. text.items ≡ texts.brush_text view.now table.now rids.now) }
{
    counted_text(
        alloc,
        &[b"brush ", view.as_slice(), b" on ", table.as_slice(), b" "],
        b"rids",
        rids,
    )
}
