// The views of a book over its tables, with the lineage that its declared queries need.
ghost use Rattle.std.specs.{Prelude.{◌≡◌, ◌<◌, ◌≤◌, ◌+◌, None, Option, length, map, option_map, All, IfOk, IfErr, OnOk, IsTrue}, List.sum_by};
ghost use Rattle.smk_base.specs.{CatalogImage.{catalog_image, view_image}, Places.upto};
ghost use Rattle.smk_model.specs.{Catalogs.{IsCatalog, ViewFits, each_table_kinds}, Looks.looks_of_view, NodeFaults.NodeFault, Opening.{view_fault, first_view_fault}, Selection.each_kinds, Session.view_at};
ghost use Rattle.smk_compose.specs.Through.{IsFirst};
ghost use Rattle.smk_session.specs.{Openings.{CanOpen, OpensAs, faults_of, views_of}, Opened.{AreOpened, IsStartFault, fault_in, opened, workbook_image}};

use crate::start::abreast::{share_of, views_at_once};
use crate::start::fault::StartFault;
use crate::start::mode::Mode;
use crate::start::workers::Workers;
use smk_base::{Catalog, Picks, Rel, ViewInfo};
use smk_body::OpBody;
use smk_compose::{Leaves, Run, RunFault, fetch_leaves, run_leaves};
use smk_defer::Defer;
use smk_inject::Inject;
use smk_jobs::{Work, due, each_or_first};
use smk_outside::{Gate, Steps};
use smk_par::Pieces;
use smk_table::Table;
use smk_typing::{TypedBook, needed};
use std::alloc::{AllocError, Global};
use std::sync::ledger::Ledger;
use std::thread::Threads;

/// A view as it is first evaluated: its rows, and the lineage that its declared queries need.
pub type Opened = Run;

// The fault of a view.
fn at_view(view: u32, fault: RunFault) -> StartFault
    ensures { (first : Option NodeFault) → IsFirst fault first → IsStartFault result (option_map (fault_in view) first) }
{
    match fault {
        RunFault::Rows { node } => StartFault::Rows { view, node },
        RunFault::Pairs { node, table } => StartFault::Pairs { view, node, table },
        RunFault::NoMemory => StartFault::NoMemory,
    }
}

/// The view with this number.
pub fn view_of(catalog: &Catalog, v: u32) -> &ViewInfo
    requires checked { IsCatalog (catalog_image catalog.now) }
    requires view { v < length catalog.now.views }
    ensures view { view_image result.now ≡ view_at (catalog_image catalog.now) v }
    ensures fits { ViewFits catalog.now.tables (view_image result.now) }
{
    &catalog.views.as_slice()[v as usize]
}

// A view whose rows are fetched: its number, and the rows of its plan's leaves.
#[derive(Drop)]
pub(crate) struct Stocked {
    pub(crate) view: u32,
    pub(crate) leaves: Leaves,
}

// The view with this number, with the rows of its leaves, one look each.
pub(crate) fn stock<L: Ledger>(
    alloc: Global,
    book: &TypedBook,
    tables: &[Table],
    v: u32,
    steps: &mut Steps<L>,
) -> Result<Stocked, AllocError>
    requires kinds { each_kinds tables.now ≡ each_table_kinds book.now.tables }
    requires view { v < length book.now.views }
    ensures stocked { IfOk result (CanOpen book.now tables.now) }
    ensures view { IfOk result (λ made. made.view ≡ v) }
    ensures looks { steps.new ≤ steps.old + looks_of_view (workbook_image book.now tables.now) (view_at (workbook_image book.now tables.now).catalog v) }
{
    let plan = &view_of(book.catalog(), v).plan;
    let none = Picks::new(alloc);
    let leaves = fetch_leaves(alloc, plan, tables, &none, steps)?;
    Ok(Stocked { view: v, leaves })
}

// The view whose rows are fetched, its lineage captured by a body.
fn open_with<R: Threads + Sync, B: OpBody + Sync>(
    rt: &R,
    alloc: Global,
    body: &B,
    book: &TypedBook,
    tables: &[Table],
    stocked: Stocked,
) -> Result<Opened, StartFault>
    requires captures { IsTrue (B.may_capture body.now) }
    requires stocked { CanOpen book.now tables.now stocked }
    ensures run { IfOk result (λ run. run ≡ opened (workbook_image book.now tables.now) stocked.view) }
    ensures none { OnOk result (view_fault (workbook_image book.now tables.now) stocked.view ≡ None) }
    ensures fault { IfErr result (λ e. IsStartFault e (view_fault (workbook_image book.now tables.now) stocked.view)) }
{
    let Stocked { view: v, leaves } = stocked;
    let need = needed(alloc, book, v)?;
    let view = view_of(book.catalog(), v);
    match run_leaves(rt, alloc, body, &view.plan, tables, &need, leaves) {
        Ok(run) => Ok(run),
        Err(fault) => Err(at_view(v, fault)),
    }
}

// The view whose rows are fetched, its lineage captured by the body of `mode`, in as many pieces as there are workers.
pub(crate) fn open_stocked<R: Threads + Sync, G: Gate + Sync>(
    work: &Work<'_, R, Workers<'_, G>>,
    mode: Mode,
    book: &TypedBook,
    tables: &[Table],
    stocked: Stocked,
) -> Result<Opened, StartFault>
    requires { CanOpen book.now tables.now stocked }
    ensures run { IfOk result (λ run. run ≡ opened (workbook_image book.now tables.now) stocked.view) }
    ensures none { OnOk result (view_fault (workbook_image book.now tables.now) stocked.view ≡ None) }
    ensures fault { IfErr result (λ e. IsStartFault e (view_fault (workbook_image book.now tables.now) stocked.view)) }
{
    let crew = work.crew;
    match (mode, crew.workers) {
        (Mode::Inject, 1) => open_with(work.rt, work.alloc, &Inject, book, tables, stocked),
        (Mode::Defer, 1) => open_with(work.rt, work.alloc, &Defer, book, tables, stocked),
        (Mode::Inject, workers) => {
            let body = Pieces::new(Inject, crew.gate, workers);
            open_with(work.rt, work.alloc, &body, book, tables, stocked)
        }
        (Mode::Defer, workers) => {
            let body = Pieces::new(Defer, crew.gate, workers);
            open_with(work.rt, work.alloc, &body, book, tables, stocked)
        }
    }
}

/// The view with this number: its first content, and exactly the lineage that is needed for it; or its first node that is too big. Each row of a leaf is at most one look, even if the view is refused.
///
/// Lineage is captured by the body of `mode`, all in this thread with one worker, and above that in pieces of rows that may run at the same time; piece p passes the gate with p.
pub fn open_view<R: Threads + Sync, G: Gate + Sync, L: Ledger>(
    work: &Work<'_, R, Workers<'_, G>>,
    mode: Mode,
    book: &TypedBook,
    tables: &[Table],
    v: u32,
    steps: &mut Steps<L>,
) -> Result<Opened, StartFault>
    requires kinds { each_kinds tables.now ≡ each_table_kinds book.now.tables }
    requires view { v < length book.now.views }
    ensures run { IfOk result (λ run. run ≡ opened (workbook_image book.now tables.now) v) }
    ensures none { OnOk result (view_fault (workbook_image book.now tables.now) v ≡ None) }
    ensures fault { IfErr result (λ e. IsStartFault e (view_fault (workbook_image book.now tables.now) v)) }
    ensures looks { steps.new ≤ steps.old + looks_of_view (workbook_image book.now tables.now) (view_at (workbook_image book.now tables.now).catalog v) }
{
    let stocked = stock(work.alloc, book, tables, v, steps)?;
    open_stocked(work, mode, book, tables, stocked)
}

// A view that is opened beside others passes the gate first, with its number.
#[tactic(auto, using(crate::proofs::AtOnce::opening_made))]
fn open_beside<R: Threads + Sync, G: Gate + Sync>(
    work: &Work<'_, R, Workers<'_, G>>,
    most: u32,
    mode: Mode,
    book: &TypedBook,
    tables: &[Table],
    stocked: Stocked,
) -> Result<Opened, StartFault>
    requires { CanOpen book.now tables.now stocked }
    ensures { OpensAs (workbook_image book.now tables.now) stocked result }
{
    if most > 1 {
        work.crew.gate.arrive(stocked.view);
    }
    open_stocked(work, mode, book, tables, stocked)
}

// Views whose rows are fetched, so many of them opened at once and each by as many workers as `work` has, or the first fault among them.
fn open_each<R: Threads + Sync, G: Gate + Sync>(
    work: &Work<'_, R, Workers<'_, G>>,
    most: u32,
    mode: Mode,
    book: &TypedBook,
    tables: &[Table],
    all: Vec<Stocked>,
) -> Result<Vec<Opened>, StartFault>
    requires most { 1 ≤ most }
    requires stocked { All (CanOpen book.now tables.now) all.items }
    ensures opened { IfOk result (λ views. views.items ≡ map (opened (workbook_image book.now tables.now)) (views_of all.items)) }
    ensures none { OnOk result (faults_of (workbook_image book.now tables.now) all.items ≡ None) }
    ensures fault { IfErr result (λ e. IsStartFault e (faults_of (workbook_image book.now tables.now) all.items)) }
{
    each_or_first(
        work.rt,
        work.alloc,
        most,
        all,
        &|stocked: Stocked| -> Result<Opened, StartFault>
            requires { CanOpen book.now tables.now stocked }
            ensures { OpensAs (workbook_image book.entry.now tables.entry.now) stocked result }
        { open_beside(work, most, mode, book, tables, stocked) },
    )
}

// All views in the book's order, or the first that is too big, each by its share of the workers. So many are opened at once when their rows are fetched.
fn open_by<R: Threads + Sync, G: Gate + Sync, L: Ledger>(
    work: &Work<'_, R, Workers<'_, G>>,
    most: u32,
    mode: Mode,
    book: &TypedBook,
    tables: &[Table],
    steps: &mut Steps<L>,
) -> Result<Vec<Opened>, StartFault>
    requires most { 1 ≤ most }
    requires kinds { each_kinds tables.now ≡ each_table_kinds book.now.tables }
    ensures opened { IfOk result (λ views. AreOpened book.now tables.now views.items) }
    ensures none { OnOk result (first_view_fault (workbook_image book.now tables.now) ≡ None) }
    ensures fault { IfErr result (λ e. IsStartFault e (first_view_fault (workbook_image book.now tables.now))) }
    ensures looks { steps.new ≤ steps.old + sum_by (looks_of_view (workbook_image book.now tables.now)) (workbook_image book.now tables.now).catalog.views }
{
    let count = book.catalog().views.as_slice().len();
    let mut views = Vec::with_capacity(work.alloc, count)?;
    let mut waiting = Vec::new(work.alloc);
    for v in 0..count as u32 {
        let all = due(work.alloc, most, &mut waiting);
        let mut some = open_each(work, most, mode, book, tables, all)?;
        views.append(&mut some)?;
        waiting.push(stock(work.alloc, book, tables, v, steps)?)?;
    }
    let mut rest = open_each(work, most, mode, book, tables, waiting)?;
    views.append(&mut rest)?;
    Ok(views)
}

// All views in the book's order, or the first that is too big. Two or more are opened at once where there are several workers and rows enough, each by its share of them.
pub(crate) fn open_views<R: Threads + Sync, G: Gate + Sync, L: Ledger>(
    work: &Work<'_, R, Workers<'_, G>>,
    mode: Mode,
    book: &TypedBook,
    tables: &[Table],
    steps: &mut Steps<L>,
) -> Result<Vec<Opened>, StartFault>
    requires kinds { each_kinds tables.now ≡ each_table_kinds book.now.tables }
    ensures opened { IfOk result (λ views. AreOpened book.now tables.now views.items) }
    ensures none { OnOk result (first_view_fault (workbook_image book.now tables.now) ≡ None) }
    ensures fault { IfErr result (λ e. IsStartFault e (first_view_fault (workbook_image book.now tables.now))) }
    ensures looks { steps.new ≤ steps.old + sum_by (looks_of_view (workbook_image book.now tables.now)) (workbook_image book.now tables.now).catalog.views }
{
    let count = book.catalog().views.as_slice().len();
    let most = views_at_once(work.crew.workers, count as u32, tables);
    let crew = Workers {
        gate: work.crew.gate,
        workers: share_of(work.crew.workers, most),
    };
    let share = Work {
        rt: work.rt,
        alloc: work.alloc,
        crew: &crew,
    };
    open_by(&share, most, mode, book, tables, steps)
}

// No content besides the first ones of so many views.
pub(crate) fn no_contents(alloc: Global, count: usize) -> Result<Vec<Option<Rel>>, AllocError>
    ensures { IfOk result (λ contents. contents.items ≡ map (λ w. None) (upto count)) }
{
    let mut contents = Vec::with_capacity(alloc, count)?;
    for _view in 0..count {
        contents.push(None)?;
    }
    Ok(contents)
}
