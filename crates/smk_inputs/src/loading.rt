// The tables of a book, from their files.
ghost use Rattle.std.specs.Prelude.{◌≡◌, ◌≢◌, ◌≤◌, All, IfOk};
ghost use Rattle.smk_model.specs.Tables as csv_tables;
ghost use Rattle.smk_model.specs.{Tables.AreColumns, Catalogs.{table_kinds, each_table_kinds}, Selection.{each_rows, each_kinds}, FaultTexts.IsSaid};
ghost use Rattle.smk_model.specs.Outcome as outcomes;
ghost use Rattle.smk_base.specs.declared.fault.TableFault.TheVariants as table_faults;
ghost use Rattle.smk_outside.specs.Outside.{Rose};
ghost use Rattle.smk_inputs.specs.Collecting.{Answers, ReadsNamed, Loads, IsSayable};

use crate::engine::Engine;
use crate::files::content;
use crate::settings::Settings;
use crate::stop::Stop;
use smk_base::{ColDecls, Fault, TableFault, TableInfo, Text};
use smk_outside::{Files, Gate};
use smk_table::{Table, read_table_in_pieces};
use std::alloc::{AllocError, Global};
use std::thread::Threads;

// How many bytes a piece of a file has at least, chosen so that small files aren't cut.
const PIECE_BYTES: u32 = 262_144;

// The name of the column that a fault of a table is one of.
fn faulty_column(
    alloc: Global,
    cols: &ColDecls,
    fault: TableFault,
) -> Result<Option<Text>, AllocError>
    ensures { IfOk result (λ name. name ≡ outcomes.faulty_column cols.now fault) }
{
    match fault {
        TableFault::MissingColumn { col }
        | TableFault::RepeatedColumn { col }
        | TableFault::BadInt { col, .. } => match cols.as_slice().get(col as usize) {
            Some(column) => Ok(Some(column.name.copy(alloc)?)),
            None => Ok(Some(Text::new(alloc))),
        },
        _ => Ok(None),
    }
}

// The fault of a run that a fault of a table is.
fn fault_of_table(alloc: Global, info: &TableInfo, fault: TableFault) -> Result<Fault, AllocError>
    requires { fault ≢ table_faults.NoMemory }
    ensures is { IfOk result (λ said. said ≡ outcomes.fault_of_table info.now fault) }
    ensures said { IfOk result (λ said. IsSaid said) }
{
    let table = info.name.copy(alloc)?;
    if let TableFault::TooManyRows = fault {
        return Ok(Fault::TableRows { table });
    }
    let col = faulty_column(alloc, &info.cols, fault)?;
    Ok(Fault::Table { table, col, fault })
}

// The table of the bytes of a file.
#[tactic(auto, using(crate::proofs::TableLoads::kinds_declared))]
fn table_of<R: Threads + Sync, G: Gate + Sync>(
    engine: &Engine<'_, R, G>,
    settings: Settings,
    seed: u64,
    info: &TableInfo,
    bytes: &[u8],
) -> Result<Table, Stop>
    requires { AreColumns info.now.cols }
    ensures answers { Answers (λ answer. outcomes.or_table_fault info.now (csv_tables.table_of info.now.cols bytes.now) ≡ answer) (λ table. table.rows) result }
    ensures kinds { IfOk result (λ table. table.kinds ≡ table_kinds info.now) }
    ensures said { IsSayable result }
{
    let workers = settings.workers;
    match read_table_in_pieces(
        engine.rt,
        engine.alloc,
        seed,
        bytes,
        &info.cols,
        workers,
        PIECE_BYTES,
        engine.gate,
    ) {
        Ok(table) => Ok(table),
        Err(TableFault::NoMemory) => Err(Stop::Exhausted),
        Err(fault) => Err(Stop::At(fault_of_table(engine.alloc, info, fault)?)),
    }
}

/// A table, by a file, which is its own or that of rows that are appended to it.
pub fn load<R: Threads + Sync, F: Files, G: Gate + Sync>(
    engine: &Engine<'_, R, G>,
    settings: Settings,
    files: &mut F,
    file: &Text,
    info: &TableInfo,
) -> Result<Table, Stop>
    requires { AreColumns info.now.cols }
    ensures read { ReadsNamed (F.held files.old) (Rose (F.faults files.old) (F.faults files.new)) file.now
        (λ held answer. outcomes.load held (outcomes.filed file.now info.now) ≡ answer) (λ table. table.rows) result }
    ensures kinds { IfOk result (λ table. table.kinds ≡ table_kinds info.now) }
    ensures said { IsSayable result }
    ensures held { F.held files.new ≡ F.held files.old }
    ensures later { F.faults files.old ≤ F.faults files.new }
{
    let bytes = content(engine.alloc, files, file)?;
    table_of(engine, settings, files.seed(), info, bytes.as_slice())
}

/// The tables of a book, in its order.
pub fn load_all<R: Threads + Sync, F: Files, G: Gate + Sync>(
    engine: &Engine<'_, R, G>,
    settings: Settings,
    files: &mut F,
    infos: &[TableInfo],
) -> Result<Vec<Table>, Stop>
    requires { All (λ info. AreColumns info.cols) infos.now }
    ensures read { Loads (F.held files.old) (Rose (F.faults files.old) (F.faults files.new)) infos.now (λ tables. each_rows tables.items) result }
    ensures kinds { IfOk result (λ tables. each_kinds tables.items ≡ each_table_kinds infos.now) }
    ensures said { IsSayable result }
    ensures held { F.held files.new ≡ F.held files.old }
    ensures later { F.faults files.old ≤ F.faults files.new }
{
    let mut tables = Vec::new(engine.alloc);
    for info in infos {
        tables.push(load(engine, settings, files, &info.file, info)?)?;
    }
    Ok(tables)
}
