//! Books with their tables, from texts, and the lineage of their views as a text.

ghost use Rattle.std.specs.Prelude.{◌≡◌, ◌||◌, ◌<◌, IsTrue, nat_eq, length, All, Ok, IfOk};
ghost use Rattle.smk_base.specs.{CatalogImage.{CatalogImage, catalog_image}, TreeImage.book_image};
ghost use Rattle.smk_model.specs.{Expanded.HasNoDependency, Limits.KeepsLimits, Profiles.AreDependencies, Tables.AreColumns, Typing.types, Catalogs.{table_kinds, each_table_kinds}, Selection.each_kinds};
ghost use Rattle.smk_compose.specs.KeptMaps.{NeedFits};

use crate::rids::lists_shown;
use smk_base::{CellRef, Names, Need, Rel, TableInfo};
use smk_body::OpBody;
use smk_compose::{KeptMap, Run, RunFault, run_plan};
use smk_expand::{Expanded, expand};
use smk_outside::Steps;
use smk_parse::parse_book;
use smk_table::{Table, read_table};
use smk_typing::{TypedBook, check, needed};
use std::alloc::{AllocError, Global};
use std::marker::Brand;
use std::sync::ledger::{Blank, Ledger};
use std::test::Fail;
use std::thread::Threads;

/// A checked book, its tables, and the names of its dependencies.
#[derive(Drop)]
pub(crate) struct Opened {
    pub book: TypedBook,
    pub tables: Vec<Table>,
    pub fds: Names,
    ghost kinds: { each_kinds tables.items ≡ each_table_kinds book.tables },
}

// The statements of a text, with each dependency replaced.
#[tactic(auto, using(crate::proofs::Opening::keeps_limits, crate::proofs::Opening::is_replaced))]
fn parsed(alloc: Global, text: &str) -> Result<Expanded, Fail>
    ensures limits { IfOk result (λ made. KeepsLimits (book_image made.book)) }
    ensures replaced { IfOk result (λ made. HasNoDependency (book_image made.book)) }
    ensures shown { IfOk result (λ made. (catalog : CatalogImage) → types (book_image made.book) ≡ Ok catalog → AreDependencies catalog made.fds) }
{
    let Ok(book) = parse_book(alloc, text.as_bytes()) else {
        return Err(Fail::new("no tree of a book"));
    };
    Ok(expand(alloc, book)?)
}

// The table of the bytes of its file.
#[tactic(auto, using(crate::proofs::Opening::kinds_declared))]
fn table_of(alloc: Global, info: &TableInfo, bytes: &[u8]) -> Result<Table, Fail>
    requires { AreColumns info.now.cols }
    ensures { IfOk result (λ table. table.kinds ≡ table_kinds info.now) }
{
    match read_table(alloc, bytes, &info.cols) {
        Ok(table) => Ok(table),
        Err(_) => Err(Fail::new("no table")),
    }
}

// The tables of the bytes of their files, in the same order.
fn tables_of(alloc: Global, infos: &[TableInfo], files: &[&[u8]]) -> Result<Vec<Table>, Fail>
    requires { All (λ info. AreColumns info.cols) infos.now }
    ensures { IfOk result (λ tables. each_kinds tables.items ≡ each_table_kinds infos.now) }
{
    let mut tables = Vec::new(alloc);
    for i in 0..infos.len() {
        let bytes = match files.get(i) {
            Some(bytes) => *bytes,
            None => b"".as_slice(),
        };
        tables.push(table_of(alloc, &infos[i], bytes)?)?;
    }
    Ok(tables)
}

/// The book of a text, with tables of the bytes of their files.
pub(crate) fn open_book(alloc: Global, text: &str, files: &[&[u8]]) -> Result<Opened, Fail>
    ensures { IfOk result (λ opened. AreDependencies (catalog_image opened.book) opened.fds) }
{
    let Expanded { book, fds } = parsed(alloc, text)?;
    let Ok(book) = check(alloc, book) else {
        return Err(Fail::new("no catalog of a book"));
    };
    let tables = tables_of(alloc, book.catalog().tables.as_slice(), files)?;
    Ok(Opened { book, tables, fds })
}

/// What a view needs by the declared queries, of a body that captures.
#[tactic(auto, using(crate::proofs::Opening::as_many))]
pub(crate) fn need_of<B: OpBody>(
    alloc: Global,
    body: &B,
    opened: &Opened,
    view: u32,
) -> Result<Need, AllocError>
    ensures fits { IfOk result (λ need. NeedFits (length opened.now.tables.items) need) }
    ensures captured { IfOk result (λ need. IsTrue (B.may_capture body.now || nat_eq (length need) 0)) }
{
    if body.captures() {
        needed(alloc, &opened.book, view)
    } else {
        Ok(Need::new(alloc))
    }
}

// A run of a view with a counter of looks over this ledger.
fn counted<R: Threads + Sync + AllocGlobal, B: OpBody + Sync, L: Ledger>(
    rt: &R,
    system: HostRuntime,
    body: &B,
    opened: &Opened,
    view: u32,
    need: &Need,
    blank: Blank,
) -> Result<Run, RunFault>
    requires name { L.name ≡ blank.name }
    requires parts { L.parts ≡ blank.parts }
    requires some { 0 < blank.parts }
    requires view { view < length opened.now.book.views }
    requires need { NeedFits (length opened.now.tables.items) need.now }
    requires captured { IsTrue (B.may_capture body.now || nat_eq (length need.now) 0) }
{
    let mut steps: Steps<L> = Steps::new(system, blank);
    let info = &opened.book.catalog().views.as_slice()[view as usize];
    run_plan(
        rt,
        rt.alloc(),
        body,
        &info.plan,
        opened.tables.as_slice(),
        need,
        &mut steps,
    )
}

/// A view's rows and the needed lineage, by a body.
pub(crate) fn ran<R: Threads + Sync + AllocGlobal, B: OpBody + Sync>(
    rt: &R,
    system: HostRuntime,
    body: &B,
    opened: &Opened,
    view: u32,
    need: &Need,
) -> Result<Run, RunFault>
    requires view { view < length opened.now.book.views }
    requires need { NeedFits (length opened.now.tables.items) need.now }
    requires captured { IsTrue (B.may_capture body.now || nat_eq (length need.now) 0) }
{
    counted::<R, B, Brand>(rt, system, body, opened, view, need, Blank::new(1))
}

/// The cells of a relation, each with a space after it, a row a line.
pub(crate) fn rows_shown(alloc: Global, rel: &Rel) -> Result<String, Fail> {
    let mut text = String::new(alloc);
    for i in 0..rel.len() {
        for c in 0..rel.width() {
            match rel.cell(i, c) {
                CellRef::Int(number) => write!(text, "{number} ")?,
                CellRef::Text(bytes) => {
                    let word = str::from_utf8(bytes)?;
                    write!(text, "{word} ")?;
                }
            }
        }
        text.push('\n')?;
    }
    Ok(text)
}

/// The lists that are kept, a direction a line.
pub(crate) fn maps_shown(alloc: Global, kept: &[KeptMap]) -> Result<String, Fail> {
    let mut text = String::new(alloc);
    for map in kept {
        let table = map.table;
        writeln!(text, "table {table}")?;
        for (way, lists) in [("back", &map.back), ("fwd", &map.fwd)].as_slice() {
            if let Some(lists) = lists {
                let lists = lists_shown(alloc, lists)?;
                writeln!(text, "{way} {lists}")?;
            }
        }
    }
    Ok(text)
}
