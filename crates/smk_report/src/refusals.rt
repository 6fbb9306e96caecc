// Why a line is refused.
ghost use Rattle.std.specs.Prelude.{◌≡◌, ◌<◌, ◌∷◌, [], length, codes, decimal, IfOk};
ghost use Rattle.smk_base.specs.{CatalogImage.catalog_image, TreeImage.ask_image};
ghost use Rattle.smk_base.specs.declared.reply.Refusal.TheVariants as refusals;
ghost use Rattle.smk_model.specs.{Asks.back_line, AskTexts.IsAskRefusalOf, FaultTexts.type_words, Session.view_at, ShownNames.shown as shown_name, Texts.line, Typing.nothing_declared};
ghost use Rattle.smk_model.specs.AskTexts as asks;
ghost use Rattle.smk_model.specs.ReplyTexts as texts;

use crate::faults::type_words as fault_words;
use crate::lines::{line_around, line_of, pair_text};
use crate::lookup::view_at;
use crate::names::shown;
use crate::texts::no_row_text;
use smk_base::{AskLine, AskRefusal, Catalog, Line, Refusal, Then, TypeFault};
use std::alloc::{AllocError, Global};

// The view that a line names.
fn view_in(asked: &Line) -> &[u8]
    ensures { result.now ≡ texts.view_in asked.now }
{
    match asked {
        Line::Show { view }
        | Line::Back { view, .. }
        | Line::Fwd { view, .. }
        | Line::Brush { view, .. }
        | Line::ClearOne { view, .. } => view.as_slice(),
        Line::Clear => b"",
    }
}

// The table that a line names.
fn table_in(asked: &Line) -> &[u8]
    ensures { result.now ≡ texts.table_in asked.now }
{
    match asked {
        Line::Back { table, .. }
        | Line::Fwd { table, .. }
        | Line::Brush { table, .. }
        | Line::ClearOne { table, .. } => table.as_slice(),
        Line::Show { .. } | Line::Clear => b"",
    }
}

// The column that a line names.
fn column_in(asked: &Line) -> &[u8]
    ensures { result.now ≡ texts.column_in asked.now }
{
    match asked {
        Line::Back {
            then: Then::Matching { col, .. },
            ..
        } => col.as_slice(),
        Line::Back { .. }
        | Line::Show { .. }
        | Line::Fwd { .. }
        | Line::Brush { .. }
        | Line::Clear
        | Line::ClearOne { .. } => b"",
    }
}

// A view that the book doesn't have.
fn unknown_view_text(alloc: Global, view: &[u8]) -> Result<Vec<u8>, AllocError>
    ensures { IfOk result (λ text. text.items ≡ line (codes "refused unknown view " ∷ view.now ∷ [])) }
{
    line_of(alloc, &[b"refused unknown view ", view])
}

/// The line of a refused line that names a table that the book doesn't have.
pub fn unknown_table_text(alloc: Global, table: &[u8]) -> Result<Vec<u8>, AllocError>
    ensures { IfOk result (λ text. text.items ≡ line (codes "refused unknown table " ∷ table.now ∷ [])) }
{
    line_of(alloc, &[b"refused unknown table ", table])
}

// A backward query that the book doesn't declare.
fn undeclared_back_text(alloc: Global, view: &[u8], table: &[u8]) -> Result<Vec<u8>, AllocError>
    ensures { IfOk result (λ text. text.items ≡ line (codes "refused undeclared back " ∷ view.now ∷ codes " to " ∷ table.now ∷ [])) }
{
    pair_text(alloc, b"refused undeclared back ", view, b" to ", table)
}

// A query that the book doesn't declare, as the line asks it.
fn undeclared_text(alloc: Global, catalog: &Catalog, asked: &Line) -> Result<Vec<u8>, AllocError>
    requires { texts.IsRefusalOf (catalog_image catalog.now) asked.now refusals.Undeclared }
    ensures { IfOk result (λ text. text.items ≡ texts.refusal_text (catalog_image catalog.now) asked.now refusals.Undeclared) }
{
    let view = view_in(asked);
    let table = table_in(asked);
    match asked {
        Line::Back { .. } => undeclared_back_text(alloc, view, table),
        Line::Fwd { .. } => pair_text(alloc, b"refused undeclared fwd ", table, b" to ", view),
        Line::Show { .. } | Line::Brush { .. } | Line::Clear | Line::ClearOne { .. } =>
            unreachable!(),
    }
}

// A split that the book doesn't declare.
fn no_split_text(alloc: Global, asked: &Line) -> Result<Vec<u8>, AllocError>
    ensures { IfOk result (λ text. text.items ≡ line (codes "refused no split of " ∷ texts.view_in asked.now ∷ codes " to " ∷ texts.table_in asked.now ∷ codes " by " ∷ shown_name (texts.column_in asked.now) ∷ [])) }
{
    let column = shown(alloc, column_in(asked))?;
    line_of(
        alloc,
        &[
            b"refused no split of ",
            view_in(asked),
            b" to ",
            table_in(asked),
            b" by ",
            column.as_slice(),
        ],
    )
}

// A literal that is not of the column's kind.
fn value_kind_text(alloc: Global, asked: &Line) -> Result<Vec<u8>, AllocError>
    ensures { IfOk result (λ text. text.items ≡ line (codes "refused wrong kind for " ∷ shown_name (texts.column_in asked.now) ∷ [])) }
{
    let column = shown(alloc, column_in(asked))?;
    line_of(alloc, &[b"refused wrong kind for ", column.as_slice()])
}

/// The line of a refused line after which a node of this view would have too many rows.
pub fn full_view_text(
    alloc: Global,
    catalog: &Catalog,
    view: u32,
    node: u32,
) -> Result<Vec<u8>, AllocError>
    requires { view < length catalog.now.views }
    ensures { IfOk result (λ text. text.items ≡ line (codes "refused too many rows in " ∷ (view_at (catalog_image catalog.now) view).name ∷ codes " at node " ∷ decimal node ∷ [])) }
{
    let info = view_at(catalog, view);
    line_around(
        alloc,
        &[
            b"refused too many rows in ",
            info.name.as_slice(),
            b" at node ",
        ],
        node as u64,
        &[],
    )
}

/// The line of a refused line.
#[tactic(auto, using(crate::proofs::FullViews::full_view))]
pub fn refusal_text(
    alloc: Global,
    catalog: &Catalog,
    asked: &Line,
    refusal: Refusal,
) -> Result<Vec<u8>, AllocError>
    requires { texts.IsRefusalOf (catalog_image catalog.now) asked.now refusal }
    ensures { IfOk result (λ text. text.items ≡ texts.refusal_text (catalog_image catalog.now) asked.now refusal) }
{
    let view = view_in(asked);
    let table = table_in(asked);
    match refusal {
        Refusal::UnknownView => unknown_view_text(alloc, view),
        Refusal::UnknownTable => unknown_table_text(alloc, table),
        Refusal::Undeclared => undeclared_text(alloc, catalog, asked),
        Refusal::NoRow { row, rows } => no_row_text(alloc, row, rows),
        Refusal::NoSplit => no_split_text(alloc, asked),
        Refusal::ValueKind => value_kind_text(alloc, asked),
        Refusal::NoGroup => pair_text(alloc, b"refused no grouping of ", view, b" to ", table),
        Refusal::NotLinked => pair_text(alloc, b"refused not linked ", view, b" on ", table),
        Refusal::RowsLimit { view, node } => full_view_text(alloc, catalog, view, node),
        Refusal::ManyMarks => line_of(alloc, &[b"refused more than one mark"]),
    }
}

// The line of an `ask` line whose `back` line is refused. It names nothing of a catalog.
fn back_refusal_text(
    alloc: Global,
    asked: &AskLine,
    refusal: Refusal,
) -> Result<Vec<u8>, AllocError>
    requires { texts.IsRefusalOf nothing_declared (back_line (ask_image asked.now)) refusal }
    ensures { IfOk result (λ text. text.items ≡ texts.refusal_text nothing_declared (back_line (ask_image asked.now)) refusal) }
{
    let view = asked.view.as_slice();
    let table = asked.table.as_slice();
    match refusal {
        Refusal::UnknownView => unknown_view_text(alloc, view),
        Refusal::UnknownTable => unknown_table_text(alloc, table),
        Refusal::Undeclared => undeclared_back_text(alloc, view, table),
        Refusal::NoRow { row, rows } => no_row_text(alloc, row, rows),
        Refusal::NoSplit
        | Refusal::ValueKind
        | Refusal::NoGroup
        | Refusal::NotLinked
        | Refusal::RowsLimit { .. }
        | Refusal::ManyMarks => unreachable!(),
    }
}

/// The line of steps that aren't well typed.
pub fn steps_refusal_text(alloc: Global, at: u64, fault: TypeFault) -> Result<Vec<u8>, AllocError>
    ensures { IfOk result (λ text. text.items ≡ line (codes "refused steps: " ∷ type_words fault ∷ codes " at byte " ∷ decimal at ∷ [])) }
{
    let (words, _) = fault_words(fault);
    line_around(alloc, &[b"refused steps: ", words, b" at byte "], at, &[])
}

/// The line of an `ask` line that is refused: as its `back` line is, or for a fault of its steps.
pub fn ask_refusal_text(
    alloc: Global,
    asked: &AskLine,
    refusal: AskRefusal,
) -> Result<Vec<u8>, AllocError>
    requires { IsAskRefusalOf (ask_image asked.now) refusal }
    ensures { IfOk result (λ text. text.items ≡ asks.ask_refusal_text (ask_image asked.now) refusal) }
{
    match refusal {
        AskRefusal::Back(refusal) => back_refusal_text(alloc, asked, refusal),
        AskRefusal::Steps { at, fault } => steps_refusal_text(alloc, at, fault),
    }
}
