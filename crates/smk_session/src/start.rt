// What a session begins with, over a book and its tables.
ghost use Rattle.std.specs.{Prelude.{◌≡◌, ◌≤◌, ◌+◌, None, length, map, IfOk, IfErr, OnOk}, List.sum_by};
ghost use Rattle.smk_base.specs.Places.{upto};
ghost use Rattle.smk_model.specs.{Catalogs.each_table_kinds, Looks.{looks_of_back, start_looks}, Opening.first_view_fault, Selection.each_kinds};
ghost use Rattle.smk_session.specs.{Making.{IsOpened, book_in}, Opened.{AreExtras, AreOpened, IsStartFault, workbook_image}};

mod abreast;
pub(crate) mod extras;
pub(crate) mod fault;
pub(crate) mod kept;
pub(crate) mod making;
pub(crate) mod mode;
pub(crate) mod opening;
pub(crate) mod scans;
pub(crate) mod workers;

use crate::start::extras::Extras;
use crate::start::fault::StartFault;
use crate::start::making::{Opening, make_extras};
use crate::start::mode::Mode;
use crate::start::opening::{no_contents, open_views};
use crate::start::workers::Workers;
use smk_base::Rel;
use smk_compose::Run;
use smk_jobs::Work;
use smk_outside::{Gate, Steps};
use smk_table::Table;
use smk_typing::TypedBook;
use std::alloc::AllocError;
use std::sync::ledger::Ledger;
use std::thread::Threads;

// What is kept besides the views.
#[derive(Drop)]
struct Beside {
    extras: Extras,
    contents: Vec<Option<Rel>>,
}

/// The first contents of the views, and what is kept besides them.
#[derive(Drop)]
pub struct Begun {
    pub views: Vec<Run>,
    pub extras: Extras,
    pub contents: Vec<Option<Rel>>,
}

// What is kept besides these views, with no brush in force.
fn keep_beside<R: Threads + Sync, G: Gate + Sync, L: Ledger>(
    work: &Work<'_, R, Workers<'_, G>>,
    opened: &Opening<'_>,
    steps: &mut Steps<L>,
) -> Result<Beside, AllocError>
    requires opened { IsOpened opened.now }
    requires whole { opened.now.grown ≡ None }
    ensures extras { IfOk result (λ made. AreExtras opened.now.book.now opened.now.tables.now made.extras.splits.items made.extras.cubes.items) }
    ensures contents { IfOk result (λ made. made.contents.items ≡ map (λ w. None) (upto (length opened.now.views.now))) }
    ensures looks { steps.new ≤ steps.old + sum_by (looks_of_back (book_in opened.now)) opened.now.book.now.backs }
{
    let contents = no_contents(work.alloc, opened.views.len())?;
    let extras = make_extras(work.rt, work.alloc, work.crew.workers, opened, steps)?;
    Ok(Beside { extras, contents })
}

/// What a session begins with, or the first view with a node that is too big.
pub fn begin<R: Threads + Sync, G: Gate + Sync, L: Ledger>(
    work: &Work<'_, R, Workers<'_, G>>,
    mode: Mode,
    book: &TypedBook,
    tables: &[Table],
    steps: &mut Steps<L>,
) -> Result<Begun, StartFault>
    requires kinds { each_kinds tables.now ≡ each_table_kinds book.now.tables }
    ensures opened { IfOk result (λ begun. AreOpened book.now tables.now begun.views.items) }
    ensures extras { IfOk result (λ begun. AreExtras book.now tables.now begun.extras.splits.items begun.extras.cubes.items) }
    ensures contents { IfOk result (λ begun. begun.contents.items ≡ map (λ w. None) (upto (length begun.views.items))) }
    ensures none { OnOk result (first_view_fault (workbook_image book.now tables.now) ≡ None) }
    ensures fault { IfErr result (λ e. IsStartFault e (first_view_fault (workbook_image book.now tables.now))) }
    ensures looks { steps.new ≤ steps.old + start_looks (workbook_image book.now tables.now) }
{
    let views = open_views(work, mode, book, tables, steps)?;
    let opened = Opening {
        book,
        tables,
        views: views.as_slice(),
        fresh: &[],
        grown: None,
    };
    let beside = keep_beside(work, &opened, steps)?;
    Ok(Begun {
        views,
        extras: beside.extras,
        contents: beside.contents,
    })
}
