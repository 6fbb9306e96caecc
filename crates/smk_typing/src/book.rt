ghost use Rattle.std.specs.Prelude.{◌≡◌, map, OnOk};
ghost use Rattle.smk_base.specs.{CatalogImage.catalog_image, TreeImage.{book_image, stmt_image}};
ghost use Rattle.smk_model.specs.{Catalogs.IsTyped, Expanded.HasNoDependency, Limits.KeepsLimits, Typing.{nothing_declared, types}};
ghost use Rattle.smk_typing.specs.{Answers.Finds, Drafts.draft_image};

pub(crate) mod declared;
pub(crate) mod links;
mod statements;
pub(crate) mod typed_book;

use crate::book::statements::stmt_after;
use crate::book::typed_book::TypedBook;
use crate::draft::Draft;
use smk_base::{Book, Stmt, TypeFault};
use std::alloc::Global;

/// The catalog of a book that keeps its limits and in which each dependency is replaced, with every name looked up and every kind checked, or the first fault. On a fault the book is dropped.
pub fn check(alloc: Global, book: Book) -> Result<TypedBook, TypeFault>
    requires limits { KeepsLimits (book_image book) }
    requires replaced { HasNoDependency (book_image book) }
    ensures { Finds result (types (book_image book)) catalog_image }
{
    checked(alloc, book.stmts.as_slice())
}

/// The checked book of these statements.
fn checked(alloc: Global, stmts: &[Stmt]) -> Result<TypedBook, TypeFault>
    requires limits { KeepsLimits (map stmt_image stmts.now) }
    requires replaced { HasNoDependency (map stmt_image stmts.now) }
    ensures { Finds result (types (map stmt_image stmts.now)) catalog_image }
{
    let mut draft = Draft::new(alloc);
    let added = add_each(alloc, &mut draft, stmts);
    let catalog = draft.into_catalog();
    match added {
        Ok(()) => Ok(TypedBook::of(catalog)),
        Err(fault) => {
            drop(catalog);
            Err(fault)
        }
    }
}

/// Adds the statements of a book to the draft of none.
fn add_each(alloc: Global, draft: &mut Draft, stmts: &[Stmt]) -> Result<(), TypeFault>
    requires none { draft_image draft.old ≡ nothing_declared }
    requires limits { KeepsLimits (map stmt_image stmts.now) }
    requires replaced { HasNoDependency (map stmt_image stmts.now) }
    ensures after { Finds result (types (map stmt_image stmts.now)) (λ _. draft_image draft.new) }
    ensures typed { OnOk result (IsTyped (draft_image draft.new)) }
{
    for stmt in stmts {
        stmt_after(alloc, draft, stmt)?;
    }
    Ok(())
}
