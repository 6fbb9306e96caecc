// The text of the schema: tables and views with their rows and columns, and the declarations of a book.
ghost use Rattle.std.specs.{Prelude.{◌≡◌, ◌<◌, ◌++◌, ◌∷◌, [], All, length, map, codes, IfOk, OnOk}, List.flat_map};
ghost use Rattle.smk_base.specs.CatalogImage.{catalog_image};
ghost use Rattle.smk_model.specs.{Catalogs.{BackFits, FwdFits, LinkFits, IsCatalog}, Session.view_at as session_view_at, Typing.column_of};
ghost use Rattle.smk_model.specs.OwnTexts as texts;
ghost use Rattle.smk_model.specs.Texts as lines;
ghost use Rattle.smk_report.specs.Pages.{Adds, Says};
ghost use Rattle.smk_report.specs.Schemas as schemas;

use crate::lines::{add_line, add_line_around, add_parts, line_around};
use crate::lookup::view_at;
use crate::names::shown;
use crate::page::Page;
use itoa::Buffer;
use smk_base::{
    Back, BackExtra, Catalog, ColDecls, Fwd, Kind, LinkInfo, Names, TableInfo, Text, ViewInfo,
};
use std::alloc::{AllocError, Global};

// The word for what a column holds.
fn kind_word(kind: Kind) -> &'static [u8]
    ensures { result.now ≡ texts.kind_word kind }
{
    match kind {
        Kind::Int { .. } => b"int",
        Kind::Text => b"text",
    }
}

// Writes the record of a column: its name and its kind.
fn column(page: &mut Page, name: &Text, kind: Kind) -> Result<(), AllocError>
    ensures { OnOk result (Adds page.old page.new (lines.record_line (name.now ∷ texts.kind_word kind ∷ []))) }
{
    page.field(name.as_slice())?;
    page.field(kind_word(kind))?;
    page.end()
}

// A page that begins with a text and the record above those of columns.
fn columns_page(front: Vec<u8>) -> Result<Page, AllocError>
    ensures { IfOk result (λ page. Says page (front.items ++ lines.record_line (codes "column" ∷ codes "kind" ∷ [])) []) }
{
    let mut page = Page::new(front);
    page.field(b"column")?;
    page.field(b"kind")?;
    page.end()?;
    Ok(page)
}

// A text followed by the records of the columns that a table declares.
fn with_declared(front: Vec<u8>, columns: &ColDecls) -> Result<Vec<u8>, AllocError>
    ensures { IfOk result (λ text. text.items ≡ front.items ++ texts.columns_text (map column_of columns.now)) }
{
    let mut page = columns_page(front)?;
    for declared in columns.as_slice() {
        column(&mut page, &declared.name, declared.kind)?;
    }
    page.finish()
}

// A text followed by the records of the columns of a view.
fn with_view_columns(front: Vec<u8>, view: &ViewInfo) -> Result<Vec<u8>, AllocError>
    requires { length view.now.names ≡ length view.now.kinds }
    ensures { IfOk result (λ text. text.items ≡ front.items ++ texts.columns_text (texts.columns_of_view view.now.names view.now.kinds)) }
{
    let names = view.names.as_slice();
    let kinds = view.kinds.as_slice();
    let mut page = columns_page(front)?;
    for c in 0..kinds.len() {
        column(&mut page, &names[c], kinds[c])?;
    }
    page.finish()
}

// A text followed by a table.
fn with_table(front: Vec<u8>, table: &TableInfo, rows: u32) -> Result<Vec<u8>, AllocError>
    ensures { IfOk result (λ text. text.items ≡ front.items ++ texts.table_info_text table.now rows) }
{
    let mut text = front;
    add_line_around(
        &mut text,
        &[b"table ", table.name.as_slice(), b" "],
        rows as u64,
        &[],
    )?;
    with_declared(text, &table.cols)
}

// A text followed by a view.
fn with_view(front: Vec<u8>, view: &ViewInfo, rows: u32) -> Result<Vec<u8>, AllocError>
    requires { length view.now.names ≡ length view.now.kinds }
    ensures { IfOk result (λ text. text.items ≡ front.items ++ texts.view_info_text view.now.name view.now.names view.now.kinds rows) }
{
    let mut text = front;
    add_line_around(
        &mut text,
        &[b"view ", view.name.as_slice(), b" "],
        rows as u64,
        &[],
    )?;
    with_view_columns(text, view)
}

// A text followed by the tables, which have so many rows.
fn with_tables(front: Vec<u8>, catalog: &Catalog, rows: &[u32]) -> Result<Vec<u8>, AllocError>
    requires { length rows.now ≡ length catalog.now.tables }
    ensures { IfOk result (λ text. text.items ≡ front.items ++ schemas.tables_over (catalog_image catalog.now) rows.now) }
{
    let tables = catalog.tables.as_slice();
    let mut text = front;
    for t in 0..tables.len() {
        text = with_table(text, &tables[t], rows[t])?;
    }
    Ok(text)
}

// A text followed by the views, which have so many rows.
fn with_views(front: Vec<u8>, catalog: &Catalog, rows: &[u32]) -> Result<Vec<u8>, AllocError>
    requires checked { IsCatalog (catalog_image catalog.now) }
    requires long { length rows.now ≡ length catalog.now.views }
    ensures { IfOk result (λ text. text.items ≡ front.items ++ schemas.views_over (catalog_image catalog.now) rows.now) }
{
    let views = catalog.views.as_slice();
    let mut text = front;
    for v in 0..views.len() {
        text = with_view(text, &views[v], rows[v])?;
    }
    Ok(text)
}

// Writes the line of a backward declaration at the end of a text. After an error the text is of no use.
fn add_back(
    alloc: Global,
    text: &mut Vec<u8>,
    catalog: &Catalog,
    declared: &Back,
) -> Result<(), AllocError>
    requires { BackFits catalog.now.tables (length catalog.now.views) declared.now }
    ensures { OnOk result (text.new.items ≡ text.old.items ++ texts.back_schema (catalog_image catalog.now) declared.now) }
{
    let info = &catalog.tables.as_slice()[declared.table as usize];
    let view = view_at(catalog, declared.view).name.as_slice();
    let table = info.name.as_slice();
    match &declared.extra {
        BackExtra::Plain => add_line(text, &[b"back ", view, b" to ", table]),
        BackExtra::By(column) => {
            let name = shown(
                alloc,
                info.cols.as_slice()[*column as usize].name.as_slice(),
            )?;
            add_line(
                text,
                &[b"back ", view, b" to ", table, b" by ", name.as_slice()],
            )
        }
        BackExtra::Grouped { .. } => {
            add_line(text, &[b"back ", view, b" to ", table, b" group"])
        }
    }
}

// Writes the line of a forward declaration at the end of a text. After an error the text is of no use.
fn add_fwd(text: &mut Vec<u8>, catalog: &Catalog, declared: &Fwd) -> Result<(), AllocError>
    requires { FwdFits (length catalog.now.tables) (length catalog.now.views) declared.now }
    ensures { OnOk result (text.new.items ≡ text.old.items ++ texts.fwd_schema (catalog_image catalog.now) declared.now) }
{
    let table = catalog.tables.as_slice()[declared.table as usize]
        .name
        .as_slice();
    let view = view_at(catalog, declared.view).name.as_slice();
    add_line(text, &[b"fwd ", table, b" to ", view])
}

// Writes the names of views at the end of a text, each after a space. After an error the text is of no use.
fn add_names(text: &mut Vec<u8>, catalog: &Catalog, views: &[u32]) -> Result<(), AllocError>
    requires { All (λ w. w < length catalog.now.views) views.now }
    ensures { OnOk result (text.new.items ≡ text.old.items ++ flat_map (λ w. codes " " ++ (session_view_at (catalog_image catalog.now) w).name) views.now) }
{
    for view in views {
        add_parts(text, &[b" ", view_at(catalog, *view).name.as_slice()])?;
    }
    Ok(())
}

// Writes the line of a link at the end of a text. After an error the text is of no use.
fn add_link(text: &mut Vec<u8>, catalog: &Catalog, link: &LinkInfo) -> Result<(), AllocError>
    requires { LinkFits (length catalog.now.tables) (length catalog.now.views) link.now }
    ensures { OnOk result (text.new.items ≡ text.old.items ++ texts.link_schema (catalog_image catalog.now) link.now) }
{
    let view = view_at(catalog, link.view).name.as_slice();
    let table = catalog.tables.as_slice()[link.table as usize]
        .name
        .as_slice();
    add_parts(text, &[b"link ", view, b" on ", table, b" to"])?;
    add_names(text, catalog, link.to.as_slice())?;
    add_line(text, &[])
}

// Writes the lines of all declarations at the end of a text, and those of the dependencies of these names. After an error the text is of no use.
fn add_declarations(
    alloc: Global,
    text: &mut Vec<u8>,
    catalog: &Catalog,
    fds: &Names,
) -> Result<(), AllocError>
    requires { IsCatalog (catalog_image catalog.now) }
    ensures { OnOk result (text.new.items ≡ text.old.items ++ texts.declarations_text (catalog_image catalog.now) fds.now) }
{
    for back in catalog.backs.as_slice() {
        add_back(alloc, text, catalog, back)?;
    }
    for fwd in catalog.fwds.as_slice() {
        add_fwd(text, catalog, fwd)?;
    }
    for link in catalog.links.as_slice() {
        add_link(text, catalog, link)?;
    }
    for name in fds.as_slice() {
        add_line(text, &[b"fd ", name.as_slice()])?;
    }
    Ok(())
}

/// The text of the schema: the tables and the views, which have so many rows, with their columns, and then the declarations by kind, each kind in the book's order.
pub fn schema_text(
    alloc: Global,
    catalog: &Catalog,
    fds: &Names,
    table_rows: &[u32],
    view_rows: &[u32],
) -> Result<Vec<u8>, AllocError>
    requires checked { IsCatalog (catalog_image catalog.now) }
    requires tables { length table_rows.now ≡ length catalog.now.tables }
    requires views { length view_rows.now ≡ length catalog.now.views }
    ensures { IfOk result (λ text. text.items ≡ schemas.schema_over (catalog_image catalog.now) fds.now table_rows.now view_rows.now) }
{
    let mut count = Buffer::new();
    let views = count.format(catalog.views.as_slice().len() as u64);
    let front = line_around(
        alloc,
        &[b"schema "],
        catalog.tables.as_slice().len() as u64,
        &[b" ", views.as_bytes()],
    )?;
    let with_tables = with_tables(front, catalog, table_rows)?;
    let mut text = with_views(with_tables, catalog, view_rows)?;
    add_declarations(alloc, &mut text, catalog, fds)?;
    Ok(text)
}
