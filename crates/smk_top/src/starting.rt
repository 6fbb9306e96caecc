// A session, from what a run reads.
ghost use Rattle.std.specs.Prelude.{◌≡◌, ◌≤◌, ◌+◌, [], List, Err, map, slice_index_or, IfOk};
ghost use Rattle.smk_base.specs.{CatalogImage.catalog_image, Marks.after_marks, Rels.Relation, declared.book.catalog.Catalog.Catalog as CatalogShape};
ghost use Rattle.smk_model.specs.{Lines.lines, Looks.start_looks, Profiles.AreDependencies, Opening.first_view_fault};
ghost use Rattle.smk_session.specs.{Opened.{IsStartFault, workbook_image}, Sessions.workbook_of};
ghost use Rattle.smk_inputs.specs.{Added.BringTables, Loaded.{workbook_read, script_bytes}, Collecting.{Starts, IsSayable}};
ghost use Rattle.smk_top.specs.declared.starting.Started.{Started as StartedShape};

use smk_base::{Catalog, Fault, ListOf, TableInfo, Text, ViewInfo};
use smk_inputs::{Engine, Inputs, Settings, Stop};
use smk_outside::{Gate, Steps};
use smk_session::{Session, StartFault};
use smk_table::Table;
use std::alloc::{AllocError, Global};
use std::collections::VecDeque;
use std::sync::ledger::Ledger;
use std::thread::Threads;

/// A session that begins, the names of its book's dependencies, the bytes of its script, and the tables that the script's lines bring.
#[derive(Drop)]
pub struct Started {
    pub session: Session,
    pub fds: ListOf<Text>,
    pub script: Vec<u8>,
    pub added: VecDeque<Table>,
}

// The names of views.
fn view_names(alloc: Global, views: &[ViewInfo]) -> Result<Vec<Text>, AllocError>
    ensures { IfOk result (λ names. names.items ≡ map (λ view. view.name) views.now) }
{
    let mut names = Vec::with_capacity(alloc, views.len())?;
    for view in views {
        names.push(view.name.copy(alloc)?)?;
    }
    Ok(names)
}

// The names of tables.
fn table_names(alloc: Global, tables: &[TableInfo]) -> Result<Vec<Text>, AllocError>
    ensures { IfOk result (λ names. names.items ≡ map (λ table. table.name) tables.now) }
{
    let mut names = Vec::with_capacity(alloc, tables.len())?;
    for table in tables {
        names.push(table.name.copy(alloc)?)?;
    }
    Ok(names)
}

// The names of views and tables, which the faults of a start say.
#[derive(Drop)]
struct BookNames {
    views: Vec<Text>,
    tables: Vec<Text>,
}

// The names of a book's views and tables.
fn names_of(alloc: Global, catalog: &Catalog) -> Result<BookNames, AllocError>
    ensures views { IfOk result (λ names. names.views.items ≡ map (λ view. view.name) catalog.now.views) }
    ensures tables { IfOk result (λ names. names.tables.items ≡ map (λ table. table.name) catalog.now.tables) }
{
    let views = view_names(alloc, catalog.views.as_slice())?;
    let tables = table_names(alloc, catalog.tables.as_slice())?;
    Ok(BookNames { views, tables })
}

// The name at a place, and the empty one past the last.
fn name_at(alloc: Global, names: Vec<Text>, place: u32) -> Text
    ensures { result ≡ slice_index_or names.items place [] }
{
    match names.into_iter().nth(place as usize) {
        Some(name) => name,
        None => Text::new(alloc),
    }
}

// What a fault of a start says.
fn stop_of(alloc: Global, names: BookNames, fault: StartFault) -> Stop
    ensures starts { (book : CatalogShape) (rows : List Relation) → IsStartFault fault (first_view_fault (workbook_image book rows))
        → names.views.items ≡ map (λ view. view.name) book.views → names.tables.items ≡ map (λ table. table.name) book.tables → Starts {X = StartedShape} (workbook_image book rows) (Err result) }
    ensures said { IsSayable {X = StartedShape} (Err result) }
{
    let BookNames { views, tables } = names;
    match fault {
        StartFault::Rows { view, node } => {
            let view = name_at(alloc, views, view);
            Stop::At(Fault::ViewRows { view, node })
        }
        StartFault::Pairs { view, node, table } => {
            let view = name_at(alloc, views, view);
            let table = name_at(alloc, tables, table);
            Stop::At(Fault::ViewPairs { view, node, table })
        }
        StartFault::NoMemory => Stop::Exhausted,
    }
}

/// A session that begins with what was read, and the rest of that; or the first view with a node that is too big. The names that a fault says are copied before, since the book is dropped with it.
pub fn start<R: Threads + Sync, G: Gate + Sync, L: Ledger>(
    engine: &Engine<'_, R, G>,
    inputs: Inputs,
    settings: Settings,
    steps: &mut Steps<L>,
) -> Result<Started, Stop>
    requires shown { AreDependencies (catalog_image inputs.book) inputs.fds }
    requires fits { BringTables (catalog_image inputs.book) (lines (after_marks inputs.script.items)) inputs.added.items }
    ensures starts { Starts (workbook_read inputs) result }
    ensures book { IfOk result (λ begun. workbook_of begun.session ≡ workbook_read inputs) }
    ensures mode { IfOk result (λ begun. begun.session.mode ≡ settings.mode) }
    ensures workers { IfOk result (λ begun. begun.session.workers ≡ settings.workers) }
    ensures looks { steps.new ≤ steps.old + start_looks (workbook_read inputs) }
    ensures begun { IfOk result (λ begun. begun.session.brushes ≡ []) }
    ensures fds { IfOk result (λ begun. begun.fds ≡ inputs.fds) }
    ensures shown { IfOk result (λ begun. AreDependencies (catalog_image begun.session.catalog) begun.fds) }
    ensures script { IfOk result (λ begun. begun.script.items ≡ script_bytes inputs) }
    ensures added { IfOk result (λ begun. begun.added.items ≡ inputs.added.items) }
    ensures fits { IfOk result (λ begun. BringTables (catalog_image begun.session.catalog) (lines (after_marks begun.script.items)) begun.added.items) }
    ensures said { IsSayable result }
{
    let names = names_of(engine.alloc, inputs.book.catalog())?;
    let Settings { mode, workers, .. } = settings;
    let Inputs {
        book,
        fds,
        tables,
        script,
        added,
    } = inputs;
    match Session::start(
        engine.rt,
        engine.alloc,
        book,
        tables,
        mode,
        workers,
        engine.gate,
        steps,
    ) {
        Ok(session) => Ok(Started {
            session,
            fds,
            script,
            added,
        }),
        Err(fault) => Err(stop_of(engine.alloc, names, fault)),
    }
}
