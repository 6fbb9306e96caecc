ghost use Rattle.std.specs.Prelude.{◌≡◌, ◌<◌, ◌≤◌, ◌+◌, ◌++◌, ◌∷◌, [], length, map, take, drop, codes, decimal, IfOk, IfSome, OnOk, slice_index_or};
ghost use Rattle.smk_base.specs.{Rels.{row_in, IsRelation}, declared.rel.TheConstants.{COLUMN_LIMIT, ROW_LIMIT}};
ghost use Rattle.smk_model.specs.Texts as texts;
ghost use Rattle.smk_report.specs.{Pages.{Adds, Says}, PieceTexts.number_in};

use crate::lines::line_around;
use crate::page::Page;
use itoa::Buffer;
use smk_base::{ColDecls, ListOf, Rel, Rids, Text};
use std::alloc::{AllocError, Global};

// How many bytes are reserved for a field; most are shorter.
const FIELD_BYTES: usize = 8;

// Writes the record of the names of the columns.
fn header(page: &mut Page, first: &[u8], columns: &ListOf<Text>) -> Result<(), AllocError>
    ensures { OnOk result (Adds page.old page.new (texts.record_line (first.now ∷ columns.now))) }
{
    page.field(first)?;
    for column in columns.as_slice() {
        page.field(column.as_slice())?;
    }
    page.end()
}

// Writes the record of a row: a number, and the row's values.
fn row(page: &mut Page, number: u32, rel: &Rel, i: u32) -> Result<(), AllocError>
    requires in_range { i < length rel.now.rows }
    requires keeps { IsRelation rel.now }
    ensures { OnOk result (Adds page.old page.new (texts.record_line (decimal number ∷ map texts.value_text (row_in rel.now.rows i)))) }
{
    page.number(number)?;
    for c in 0..rel.width() {
        page.cell(rel.cell(i, c))?;
    }
    page.end()
}

// The number of the record of row i: the rid at its place where rids are given, and else the place.
fn number_of(rids: Option<&[u32]>, i: u32) -> u32
    requires { IfSome rids (λ rids. i < length rids.now) }
    ensures { result ≡ number_in rids.entry i }
{
    match rids {
        Some(rids) => rids[i as usize],
        None => i,
    }
}

/// Writes the records of so many rows from a place on, with their rids if rids are given, else with their places.
pub fn numbered_lines(
    page: &mut Page,
    rids: Option<&[u32]>,
    rel: &Rel,
    from: u32,
    count: u32,
) -> Result<(), AllocError>
    requires in_range { from + count ≤ length rel.now.rows }
    requires keeps { IsRelation rel.now }
    requires rids { IfSome rids (λ given. length given.now ≡ length rel.now.rows) }
    ensures { OnOk result (Adds page.old page.new (texts.row_lines_to (λ k. number_in rids.entry (from + k)) (drop from rel.now.rows) count)) }
{
    for k in 0..count {
        row(page, number_of(rids, from + k), rel, from + k)?;
    }
    Ok(())
}

/// A page that begins with a text and has room for the records of so many rows of so many values, so that a long text rarely moves while it grows.
pub fn page_for(front: Vec<u8>, width: u32, rows: u32) -> Result<Page, AllocError>
    requires few_columns { width ≤ COLUMN_LIMIT }
    requires few_rows { rows ≤ ROW_LIMIT }
    ensures { IfOk result (λ page. Says page front.items []) }
{
    let fields = rows as usize * (width as usize + 1);
    let mut text = front;
    text.reserve(fields * FIELD_BYTES)?;
    Ok(Page::new(text))
}

/// A text followed by the record of the names of columns.
pub fn with_header(front: Vec<u8>, columns: &ListOf<Text>) -> Result<Vec<u8>, AllocError>
    ensures { IfOk result (λ text. text.items ≡ front.items ++ texts.record_line (codes "row" ∷ columns.now)) }
{
    let mut page = Page::new(front);
    header(&mut page, b"row", columns)?;
    page.finish()
}

/// A text followed by the records of the names of columns and of rows with their places.
pub fn with_rows(
    alloc: Global,
    front: Vec<u8>,
    columns: &ListOf<Text>,
    rel: &Rel,
) -> Result<Vec<u8>, AllocError>
    requires { length columns.now ≡ length rel.now.kinds }
    ensures { IfOk result (λ text. text.items ≡ front.items ++ texts.record_line (codes "row" ∷ columns.now) ++ texts.row_lines (λ i. i) rel.now.rows) }
{
    with_numbered_part(alloc, front, columns, rel, 0, rel.len())
}

/// A text followed by the records of the names of columns and of so many rows from a place on, with their places.
pub fn with_numbered_part(
    alloc: Global,
    front: Vec<u8>,
    columns: &ListOf<Text>,
    rel: &Rel,
    from: u32,
    count: u32,
) -> Result<Vec<u8>, AllocError>
    requires names { length columns.now ≡ length rel.now.kinds }
    requires in_range { from + count ≤ length rel.now.rows }
    ensures { IfOk result (λ text. text.items ≡ front.items ++ texts.record_line (codes "row" ∷ columns.now) ++ texts.row_lines (λ k. from + k) (take count (drop from rel.now.rows))) }
{
    let mut page = page_for(front, rel.width(), count)?;
    header(&mut page, b"row", columns)?;
    numbered_lines(&mut page, None, rel, from, count)?;
    page.finish()
}

/// The first line of the text of a view with so many rows.
pub fn view_line(alloc: Global, name: &Text, rows: u32) -> Result<Vec<u8>, AllocError>
    ensures { IfOk result (λ text. text.items ≡ texts.line (texts.view_words name.now ++ decimal rows ∷ [])) }
{
    line_around(alloc, &[b"view ", name.as_slice(), b" "], rows as u64, &[])
}

/// The text of a view: its name and number of rows, the names of its columns, and its rows with their places.
pub fn view_text(
    alloc: Global,
    name: &Text,
    columns: &ListOf<Text>,
    rel: &Rel,
) -> Result<Vec<u8>, AllocError>
    requires { length columns.now ≡ length rel.now.kinds }
    ensures { IfOk result (λ text. text.items ≡ texts.view_text name.now columns.now rel.now.rows) }
{
    let front = view_line(alloc, name, rel.len())?;
    with_rows(alloc, front, columns, rel)
}

// Writes the record of the names of the columns that a table declares.
fn table_header(page: &mut Page, columns: &ColDecls) -> Result<(), AllocError>
    ensures { OnOk result (Adds page.old page.new (texts.record_line (codes "rid" ∷ map (λ column. column.name) columns.now))) }
{
    page.field(b"rid")?;
    for column in columns.as_slice() {
        page.field(column.name.as_slice())?;
    }
    page.end()
}

/// A text followed by the record of the names of the columns that a table declares.
pub fn with_table_header(
    alloc: Global,
    front: Vec<u8>,
    columns: &ColDecls,
) -> Result<Vec<u8>, AllocError>
    ensures { IfOk result (λ text. text.items ≡ front.items ++ texts.record_line (codes "rid" ∷ map (λ column. column.name) columns.now)) }
{
    let mut page = Page::new(front);
    table_header(&mut page, columns)?;
    page.finish()
}

/// A text followed by the records of rows with these numbers.
pub fn with_numbered_rows(
    alloc: Global,
    front: Vec<u8>,
    rids: &[u32],
    rel: &Rel,
) -> Result<Vec<u8>, AllocError>
    requires { length rids.now ≡ length rel.now.rows }
    ensures { IfOk result (λ text. text.items ≡ front.items ++ texts.row_lines (λ i. slice_index_or rids.now i 0) rel.now.rows) }
{
    let mut page = page_for(front, rel.width(), rel.len())?;
    numbered_lines(&mut page, Some(rids), rel, 0, rel.len())?;
    page.finish()
}

/// A text followed by the records of the names of the columns that a table declares, and of rows with these numbers.
pub fn with_placed_rows(
    alloc: Global,
    front: Vec<u8>,
    columns: &ColDecls,
    rids: &[u32],
    rel: &Rel,
) -> Result<Vec<u8>, AllocError>
    requires { length rids.now ≡ length rel.now.rows }
    ensures { IfOk result (λ text. text.items ≡ front.items ++ texts.record_line (codes "rid" ∷ map (λ column. column.name) columns.now) ++ texts.row_lines (λ i. slice_index_or rids.now i 0) rel.now.rows) }
{
    let mut page = page_for(front, rel.width(), rel.len())?;
    table_header(&mut page, columns)?;
    numbered_lines(&mut page, Some(rids), rel, 0, rel.len())?;
    page.finish()
}

/// The first line of the text of a backward answer of so many rows.
pub fn back_line(alloc: Global, view: &Text, table: &Text, rows: u32) -> Result<Vec<u8>, AllocError>
    ensures { IfOk result (λ text. text.items ≡ texts.line (texts.back_words view.now table.now ++ decimal rows ∷ [])) }
{
    line_around(
        alloc,
        &[b"back ", view.as_slice(), b" to ", table.as_slice(), b" "],
        rows as u64,
        &[],
    )
}

/// The text of a backward answer, with the columns that the table declares.
pub fn rids_text(
    alloc: Global,
    view: &Text,
    table: &Text,
    columns: &ColDecls,
    rids: &Rids,
    rel: &Rel,
) -> Result<Vec<u8>, AllocError>
    requires { length rids.now ≡ length rel.now.rows }
    ensures { IfOk result (λ text. text.items ≡ texts.back_text view.now table.now (map (λ column. column.name) columns.now) rids.now rel.now.rows) }
{
    let front = back_line(alloc, view, table, rel.len())?;
    with_placed_rows(alloc, front, columns, rids.as_slice(), rel)
}

/// The text of a refusal: a number that is no row, of so many rows.
pub fn no_row_text(alloc: Global, row: u32, rows: u32) -> Result<Vec<u8>, AllocError>
    ensures { IfOk result (λ text. text.items ≡ texts.no_row_text row rows) }
{
    let mut count = Buffer::new();
    line_around(
        alloc,
        &[b"refused no row "],
        row as u64,
        &[b" of ", count.format(rows).as_bytes()],
    )
}

/// The text of a line that isn't in the grammar: its number, and the place of its first wrong token.
pub fn bad_line_text(alloc: Global, number: u64, at: u64) -> Result<Vec<u8>, AllocError>
    ensures { IfOk result (λ text. text.items ≡ texts.bad_line_text number at) }
{
    let mut place = Buffer::new();
    line_around(
        alloc,
        &[b"line "],
        number,
        &[b" not read at byte ", place.format(at).as_bytes()],
    )
}

/// The line that says that memory ran out.
pub fn no_memory_text() -> &'static [u8]
    ensures { result.now ≡ texts.no_memory_text }
{
    b"smoke: no memory\n"
}
