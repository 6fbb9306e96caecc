ghost use Rattle.std.specs.Prelude.{◌≡◌, ◌≢◌, ℕ, List, Option, [], ◌∷◌, codes, decimal, unwrap_or, IfOk, IsSome};
ghost use Rattle.smk_base.specs.declared.fault.Fault.TheVariants as faults;
ghost use Rattle.smk_base.specs.declared.fault.BookFault.TheVariants as book;
ghost use Rattle.smk_base.specs.declared.fault.TableFault.TheVariants as table_faults;
ghost use Rattle.smk_model.specs.FaultTexts as texts;
ghost use Rattle.smk_model.specs.{ShownNames.shown as shown_name, Texts.line};

use crate::lines::{line_around, line_of, pair_text};
use crate::names::shown;
use smk_base::{BookFault, Fault, Many, TableFault, Text, TypeFault};
use std::alloc::{AllocError, Global};

// What a book has too many of.
fn many_words(what: Many) -> &'static [u8]
    ensures { result.now ≡ texts.many_words what }
{
    match what {
        Many::Tables => b"tables",
        Many::Views => b"views",
        Many::Lineages => b"lineages",
        Many::Links => b"links",
        Many::Columns => b"columns",
        Many::Nodes => b"nodes",
        Many::Compares => b"comparisons",
        Many::Depth => b"levels",
        Many::NameBytes => b"name bytes",
    }
}

// The line of a fault of a book: what is wrong, in two parts, and its place.
fn placed(alloc: Global, what: &[u8], more: &[u8], at: u64) -> Result<Vec<u8>, AllocError>
    ensures { IfOk result (λ text. text.items ≡ line (codes "smoke: book: " ∷ what.now ∷ more.now ∷ codes " at byte " ∷ decimal at ∷ [])) }
{
    line_around(
        alloc,
        &[b"smoke: book: ", what, more, b" at byte "],
        at,
        &[],
    )
}

// The line of a fault of a book's text.
fn book_text(alloc: Global, fault: BookFault) -> Result<Vec<u8>, AllocError>
    requires { fault ≢ book.NoMemory }
    ensures { IfOk result (λ text. text.items ≡ texts.fault_text (faults.Book fault)) }
{
    match fault {
        BookFault::BadToken { at } => placed(alloc, b"bad token", b"", at),
        BookFault::Unexpected { at } => placed(alloc, b"unexpected token", b"", at),
        BookFault::TooMany { at, what } => placed(alloc, b"too many ", many_words(what), at),
        BookFault::BadNumber { at } => placed(alloc, b"bad number", b"", at),
        BookFault::NoMemory => unreachable!(),
    }
}

/// The words for a fault of typing, and its place. `NoMemory` has neither.
pub fn type_words(fault: TypeFault) -> (&'static [u8], u64)
    ensures words { result.0.now ≡ texts.type_words fault }
    ensures place { result.1 ≡ texts.type_place fault }
{
    match fault {
        TypeFault::UnknownTable { at } => (b"unknown table", at),
        TypeFault::UnknownColumn { at } => (b"unknown column", at),
        TypeFault::UnknownView { at } => (b"unknown view", at),
        TypeFault::DuplicateName { at } => (b"duplicate name", at),
        TypeFault::KindMismatch { at } => (b"kind mismatch", at),
        TypeFault::SumTooDeep { at } => (b"sum too deep", at),
        TypeFault::UnionShape { at } => (b"union shape", at),
        TypeFault::EmptyList { at } => (b"empty list", at),
        TypeFault::SelfLink { at } => (b"self link", at),
        TypeFault::RepeatedDeclaration { at } => (b"repeated declaration", at),
        TypeFault::RowTooWide { at } => (b"row too wide", at),
        TypeFault::NoMemory => (b"", 0),
    }
}

// The line of a fault of typing.
fn type_text(alloc: Global, fault: TypeFault) -> Result<Vec<u8>, AllocError>
    ensures { IfOk result (λ text. text.items ≡ texts.fault_text (faults.Types fault)) }
{
    let (what, at) = type_words(fault);
    placed(alloc, what, b"", at)
}

// The name of the column of a table's fault, as a book writes it, and nothing where the fault is of no column.
fn column_shown(alloc: Global, column: &Option<Text>) -> Result<Vec<u8>, AllocError>
    ensures { IsSome column.now → IfOk result (λ text. text.items ≡ shown_name (unwrap_or column.now [])) }
{
    match column {
        Some(name) => shown(alloc, name.as_slice()),
        None => Ok(Vec::new(alloc)),
    }
}

// The line of a fault of a table's file, with the name of its column as a book writes it.
fn table_line(
    alloc: Global,
    table: &[u8],
    name: &[u8],
    fault: TableFault,
) -> Result<Vec<u8>, AllocError>
    requires rows { fault ≢ table_faults.TooManyRows }
    requires memory { fault ≢ table_faults.NoMemory }
    ensures { (column : Option (List ℕ)) → texts.NamesColumn fault column → (IsSome column → name.now ≡ shown_name (unwrap_or column []))
        → IfOk result (λ text. text.items ≡ texts.fault_text (faults.Table table.now column fault)) }
{
    match fault {
        TableFault::NoHeader => line_of(alloc, &[b"smoke: table ", table, b": no header"]),
        TableFault::MissingColumn { .. } => pair_text(
            alloc,
            b"smoke: table ",
            table,
            b": missing column ",
            name,
        ),
        TableFault::RepeatedColumn { .. } => pair_text(
            alloc,
            b"smoke: table ",
            table,
            b": repeated column ",
            name,
        ),
        TableFault::Ragged { nth } => line_around(
            alloc,
            &[b"smoke: table ", table, b": record "],
            nth as u64,
            &[b" has a wrong number of fields"],
        ),
        TableFault::BadInt { nth, .. } => line_around(
            alloc,
            &[b"smoke: table ", table, b": record "],
            nth as u64,
            &[b" column ", name, b" is no int"],
        ),
        TableFault::TooManyRows | TableFault::NoMemory => unreachable!(),
    }
}

// The line of a fault of a table's file.
fn table_text(
    alloc: Global,
    table: &Text,
    column: &Option<Text>,
    fault: TableFault,
) -> Result<Vec<u8>, AllocError>
    requires { texts.NamesColumn fault column.now }
    ensures { IfOk result (λ text. text.items ≡ texts.fault_text (faults.Table table.now column.now fault)) }
{
    let name = column_shown(alloc, column)?;
    table_line(alloc, table.as_slice(), name.as_slice(), fault)
}

/// The line that says a fault. Lack of memory has a text of its own, and a table with too many rows is said by `TableRows`.
pub fn fault_text(alloc: Global, fault: &Fault) -> Result<Vec<u8>, AllocError>
    requires { texts.IsSaid fault.now }
    ensures { IfOk result (λ text. text.items ≡ texts.fault_text fault.now) }
{
    match fault {
        Fault::Usage => line_of(
            alloc,
            &[b"usage: smoke [--mode inject|defer] [--workers 1..64] (BOOK [SCRIPT] | --demo N)"],
        ),
        Fault::Book(fault) => book_text(alloc, *fault),
        Fault::Types(fault) => type_text(alloc, *fault),
        Fault::Table { table, col, fault } => table_text(alloc, table, col, *fault),
        Fault::FileLong { file } => line_of(alloc, &[b"smoke: limit: file ", file.as_slice()]),
        Fault::TableRows { table } => line_of(
            alloc,
            &[b"smoke: limit: rows of table ", table.as_slice()],
        ),
        Fault::ViewRows { view, node } => {
            line_around(
                alloc,
                &[
                    b"smoke: limit: rows of view ",
                    view.as_slice(),
                    b" at node ",
                ],
                *node as u64,
                &[],
            )
        }
        Fault::ViewPairs { view, node, table } => {
            line_around(
                alloc,
                &[
                    b"smoke: limit: lineage of view ",
                    view.as_slice(),
                    b" at node ",
                ],
                *node as u64,
                &[b" to table ", table.as_slice()],
            )
        }
        Fault::Unread { file } => line_of(alloc, &[b"smoke: cannot read ", file.as_slice()]),
    }
}
