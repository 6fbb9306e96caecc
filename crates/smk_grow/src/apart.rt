// The views that are growing chains, over the new rows alone.
ghost use Rattle.std.specs.{Prelude.{◌≡◌, ◌<◌, ◌≤◌, ◌+◌, length, map, set, IfOk}, List.sum_by};
ghost use Rattle.smk_base.specs.{CatalogImage.catalog_image, Places.upto};
ghost use Rattle.smk_session.specs.{Parts.parts_image, Opened.workbook_image, Sessions.{IsSession, workbook_of}};
ghost use Rattle.smk_session.specs.declared.start.fault.StartFault.TheVariants as faults;
ghost use Rattle.smk_compose.specs.Fetched.{table_of};
ghost use Rattle.smk_grow.specs.{Grown.rows_of, Renewals.{IsRenewal, book_of}, Renewed.{apart_view, looks_apart}};

use crate::renewal::Renewal;
use crate::scans::view_chains;
use smk_jobs::Work;
use smk_outside::{Gate, Steps};
use smk_session::{Opened, Parts, StartFault, Workers, open_view};
use smk_table::Table;
use std::alloc::AllocError;
use std::mem::swap;
use std::sync::ledger::Ledger;
use std::thread::Threads;

// The error of a view that is never too big and still isn't made.
fn wanting(fault: StartFault) -> AllocError
    requires { fault ≡ faults.NoMemory }
{
    match fault {
        StartFault::NoMemory => AllocError,
        StartFault::Rows { .. } | StartFault::Pairs { .. } => unreachable!(),
    }
}

// A view over tables, if it is a growing chain on one of them. Such a chain is never too big, so that only memory can run out.
fn view_apart<R: Threads + Sync, G: Gate + Sync, L: Ledger>(
    work: &Work<'_, R, Workers<'_, G>>,
    renewal: &Renewal<'_>,
    v: u32,
    steps: &mut Steps<L>,
) -> Result<Option<Opened>, AllocError>
    requires renewal { IsRenewal renewal.now }
    requires view { v < length renewal.now.book.now.views }
    ensures view { IfOk result (λ made. made ≡ apart_view renewal.now.table (book_of renewal.now) v) }
    ensures looks { steps.new ≤ steps.old + looks_apart renewal.now.table (catalog_image renewal.now.book.now) (length (rows_of renewal.now.tables.now renewal.now.table)) v }
{
    if view_chains(renewal.book, renewal.table, v) {
        match open_view(work, renewal.mode, renewal.book, renewal.tables, v, steps) {
            Ok(opened) => Ok(Some(opened)),
            Err(fault) => Err(wanting(fault)),
        }
    } else {
        Ok(None)
    }
}

// All views over tables that are growing chains on one of them, each at the place of its view.
fn each_apart<R: Threads + Sync, G: Gate + Sync, L: Ledger>(
    work: &Work<'_, R, Workers<'_, G>>,
    renewal: &Renewal<'_>,
    steps: &mut Steps<L>,
) -> Result<Vec<Option<Opened>>, AllocError>
    requires renewal { IsRenewal renewal.now }
    ensures views { IfOk result (λ made. made.items ≡ map (apart_view renewal.now.table (book_of renewal.now)) (upto (length (book_of renewal.now).catalog.views))) }
    ensures looks { steps.new ≤ steps.old + sum_by (looks_apart renewal.now.table (catalog_image renewal.now.book.now) (length (rows_of renewal.now.tables.now renewal.now.table))) (upto (length (book_of renewal.now).catalog.views)) }
{
    let count = renewal.book.catalog().views.as_slice().len();
    let mut views = Vec::with_capacity(work.alloc, count)?;
    for v in 0..count as u32 {
        views.push(view_apart(work, renewal, v, steps)?)?;
    }
    Ok(views)
}

// The views of a session that are growing chains on a table, over tables with only the new rows in its place. The session and the new rows are as before.
pub(crate) fn open_apart<R: Threads + Sync, G: Gate + Sync, L: Ledger>(
    work: &Work<'_, R, Workers<'_, G>>,
    parts: &mut Parts,
    table: u32,
    more: &mut Table,
    steps: &mut Steps<L>,
) -> Result<Vec<Option<Opened>>, AllocError>
    requires keeps { IsSession (parts_image parts.old) }
    requires table { table < length (parts_image parts.old).tables }
    requires more { more.old.kinds ≡ (table_of (parts_image parts.old).tables table).kinds }
    ensures parts { parts_image parts.new ≡ parts_image parts.old }
    ensures more { more.new ≡ more.old }
    ensures views { IfOk result (λ made. made.items ≡ map (apart_view table (workbook_image (parts_image parts.old).catalog (set (parts_image parts.old).tables table more.old))) (upto (length (workbook_of (parts_image parts.old)).catalog.views))) }
    ensures looks { steps.new ≤ steps.old + sum_by (looks_apart table (workbook_of (parts_image parts.old)).catalog (length more.old.rows)) (upto (length (workbook_of (parts_image parts.old)).catalog.views)) }
{
    // Its clauses say that the rows are not too many.
    let _rows = more.len();
    let tables = parts.tables.as_mut_slice();
    swap(&mut tables[table as usize], more);
    let renewal = Renewal {
        book: &parts.book,
        tables: &*tables,
        table,
        len: 0,
        mode: parts.mode,
    };
    let views = each_apart(work, &renewal, steps);
    swap(&mut tables[table as usize], more);
    views
}
