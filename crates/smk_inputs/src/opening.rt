// A book, from its file to its catalog and the names of its dependencies.
ghost use Rattle.std.specs.Prelude.{◌≡◌, ◌≤◌, IfOk};
ghost use Rattle.smk_base.specs.{CatalogImage.catalog_image, TreeImage.book_image};
ghost use Rattle.smk_model.specs.{Limits.KeepsLimits, Profiles.AreDependencies};
ghost use Rattle.smk_model.specs.Outcome as outcomes;
ghost use Rattle.smk_outside.specs.Outside.{Rose};
ghost use Rattle.smk_inputs.specs.{Loaded.book_said, Collecting.{Answers, ReadsNamed, IsSayable}};

use crate::files::content;
use crate::stop::Stop;
use smk_base::{Book, BookFault, Fault, Names, Text, TypeFault, without_mark};
use smk_expand::{Expanded, expand};
use smk_outside::Files;
use smk_parse::parse_book;
use smk_typing::{TypedBook, check};
use std::alloc::Global;

// The statements of a text.
#[tactic(auto, using(crate::proofs::FileReads::spelt, crate::proofs::FileReads::keeps_limits, crate::proofs::FileReads::misspelt))]
fn parsed(alloc: Global, text: &[u8]) -> Result<Book, Stop>
    ensures answers { Answers (outcomes.Parses text.now) book_image result }
    ensures kept { IfOk result (λ book. KeepsLimits (book_image book)) }
    ensures said { IsSayable result }
{
    match parse_book(alloc, text) {
        Ok(book) => Ok(book),
        Err(BookFault::NoMemory) => Err(Stop::Exhausted),
        Err(fault) => Err(Stop::At(Fault::Book(fault))),
    }
}

/// A checked book, in which the dependencies are replaced by the views that show them, and their names.
#[derive(Drop)]
pub struct OpenedBook {
    pub book: TypedBook,
    pub fds: Names,
}

// The checked book of statements.
fn checked(alloc: Global, book: Book) -> Result<OpenedBook, Stop>
    requires { KeepsLimits (book_image book) }
    ensures answers { Answers (λ answer. outcomes.statements_say (book_image book) ≡ answer) book_said result }
    ensures shown { IfOk result (λ opened. AreDependencies (catalog_image opened.book) opened.fds) }
    ensures said { IsSayable result }
{
    let Expanded { book, fds } = expand(alloc, book)?;
    match check(alloc, book) {
        Ok(book) => Ok(OpenedBook { book, fds }),
        Err(TypeFault::NoMemory) => Err(Stop::Exhausted),
        Err(fault) => Err(Stop::At(Fault::Types(fault))),
    }
}

// The checked book of the bytes of a file.
fn book_of(alloc: Global, bytes: &[u8]) -> Result<OpenedBook, Stop>
    ensures answers { Answers (outcomes.BookSays bytes.now) book_said result }
    ensures shown { IfOk result (λ opened. AreDependencies (catalog_image opened.book) opened.fds) }
    ensures said { IsSayable result }
{
    let book = parsed(alloc, without_mark(bytes))?;
    checked(alloc, book)
}

/// The checked book of a file.
pub fn open_book<F: Files>(alloc: Global, files: &mut F, name: &Text) -> Result<OpenedBook, Stop>
    ensures read { ReadsNamed (F.held files.old) (Rose (F.faults files.old) (F.faults files.new)) name.now
        (λ held. outcomes.OpensBook held name.now) book_said result }
    ensures shown { IfOk result (λ opened. AreDependencies (catalog_image opened.book) opened.fds) }
    ensures said { IsSayable result }
    ensures held { F.held files.new ≡ F.held files.old }
    ensures later { F.faults files.old ≤ F.faults files.new }
{
    let bytes = content(alloc, files, name)?;
    book_of(alloc, bytes.as_slice())
}
