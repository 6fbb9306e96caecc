ghost use Rattle.std.specs.Prelude.{◌≡◌, ◌⊎◌, ◌<◌, ◌≤◌, [], length, IfOk, IfErr, OnOk, Ok, Err};
ghost use Rattle.smk_base.specs.declared.fault.TableFault.TheVariants.{NoMemory};
ghost use Rattle.smk_model.specs.Tables.{AreColumns, table_of, table_of_records, declared_kinds, all_or_first, numbered, record_row};
ghost use Rattle.smk_table.specs.CsvReader.{IsBetween, records_left};

use crate::csv_reader::{next_record, reader_of};
use crate::fields::{column_places, push_record};
use crate::table::Table;
use csv::{ByteRecord, Reader};
use smk_base::{ColDecls, Kind, ROW_LIMIT, RelBuilder, TableFault, without_mark};
use std::alloc::{AllocError, Global};

/// Reads the bytes of a CSV file as the table of the declared columns: byte order marks at the start are dropped, the first record names the columns, and each further one is a row. An error is the first fault in order, or that memory ran out.
pub fn read_table(alloc: Global, bytes: &[u8], cols: &ColDecls) -> Result<Table, TableFault>
    requires { AreColumns cols.now }
    ensures rows { IfOk result (λ table. table_of cols.now bytes.now ≡ Ok table.rows) }
    ensures kinds { IfOk result (λ table. table.kinds ≡ declared_kinds cols.now) }
    ensures fault { IfErr result (λ fault. (fault ≡ NoMemory) ⊎ (table_of cols.now bytes.now ≡ Err fault)) }
{
    read_seeded(alloc, 0, bytes, cols)
}

/// The same table; `seed` is that of the hashes by which values are found.
pub(crate) fn read_seeded(
    alloc: Global,
    seed: u64,
    bytes: &[u8],
    cols: &ColDecls,
) -> Result<Table, TableFault>
    requires { AreColumns cols.now }
    ensures rows { IfOk result (λ table. table_of cols.now bytes.now ≡ Ok table.rows) }
    ensures kinds { IfOk result (λ table. table.kinds ≡ declared_kinds cols.now) }
    ensures fault { IfErr result (λ fault. (fault ≡ NoMemory) ⊎ (table_of cols.now bytes.now ≡ Err fault)) }
{
    let mut reader = reader_of(alloc, without_mark(bytes));
    let mut row = ByteRecord::new(alloc);
    read_records(alloc, seed, &mut reader, &mut row, cols)
}

/// The table of all the records that are left, of which the first is the header.
fn read_records(
    alloc: Global,
    seed: u64,
    reader: &mut Reader<&[u8]>,
    row: &mut ByteRecord,
    cols: &ColDecls,
) -> Result<Table, TableFault>
    requires between { IsBetween reader.old }
    requires columns { AreColumns cols.now }
    ensures rows { IfOk result (λ table. table_of_records cols.now (records_left reader.old) ≡ Ok table.rows) }
    ensures kinds { IfOk result (λ table. table.kinds ≡ declared_kinds cols.now) }
    ensures fault { IfErr result (λ fault. (fault ≡ NoMemory) ⊎ (table_of_records cols.now (records_left reader.old) ≡ Err fault)) }
{
    if !next_record(reader, row)? {
        return Err(TableFault::NoHeader);
    }
    let places = column_places(alloc, row, cols)?;
    let width = row.len();
    let mut rel = empty_rel(alloc, seed, cols)?;
    read_rows(reader, row, cols, places.as_slice(), width, &mut rel)?;
    Ok(Table::of_rel(rel.finish(alloc)?.shared(alloc)?))
}

/// No rows, of the kinds of the declared columns; values are found by the hashes of a seed.
pub(crate) fn empty_rel(alloc: Global, seed: u64, cols: &ColDecls) -> Result<RelBuilder, AllocError>
    requires { AreColumns cols.now }
    ensures { IfOk result (λ rel. rel ≡ record { kinds = declared_kinds cols.now; rows = []; begun = [] }) }
{
    let mut kinds = [Kind::Text; 16];
    for (c, decl) in cols.as_slice().iter().enumerate() {
        kinds[c] = decl.kind;
    }
    RelBuilder::new(alloc, &kinds[..cols.as_slice().len()], seed)
}

/// Fills an empty relation with the rows of all the records that are left.
pub(crate) fn read_rows(
    reader: &mut Reader<&[u8]>,
    row: &mut ByteRecord,
    cols: &ColDecls,
    places: &[usize],
    width: usize,
    rel: &mut RelBuilder,
) -> Result<(), TableFault>
    requires between { IsBetween reader.old }
    requires columns { AreColumns cols.now }
    requires places { length places.now ≡ length cols.now }
    requires kinds { rel.old.kinds ≡ declared_kinds cols.now }
    requires empty { rel.old.rows ≡ [] }
    requires begun { rel.old.begun ≡ [] }
    ensures kinds { rel.new.kinds ≡ declared_kinds cols.now }
    ensures begun { OnOk result (rel.new.begun ≡ []) }
    ensures rows { IfOk result (λ _. all_or_first (numbered (record_row cols.now places.now width) 1 (records_left reader.old)) ≡ Ok rel.new.rows) }
    ensures fault { IfErr result (λ fault. (fault ≡ NoMemory) ⊎ (all_or_first (numbered (record_row cols.now places.now width) 1 (records_left reader.old)) ≡ Err fault)) }
{
    for nth in 1..ROW_LIMIT + 2 {
        if !next_record(reader, row)? {
            return Ok(());
        }
        push_record(rel, cols, places, width, nth, row)?;
    }
    unreachable!()
}
