// Tables read in pieces, in threads.
ghost use Rattle.std.specs.Prelude.{◌≡◌, ◌⊎◌, ◌<◌, ◌≤◌, length, map, slice_index_or, IfOk, IfErr, IfSome, IsFalse, Ok, Err, All, ℕ, ◌==◌};
ghost use Rattle.csv.specs.Reading.{records, default_config};
ghost use Rattle.smk_base.specs.{Marks.begins_with_mark, declared.fault.TableFault.TheVariants.NoMemory, declared.workers.TheConstants.WORKER_LIMIT};
ghost use Rattle.smk_model.specs.Tables.{AreColumns, declared_kinds, table_of};
ghost use Rattle.smk_table.specs.{Cuts.read_of, CsvReader.{IsBetween, records_left}, Pieces.{Gives, HasHeader, behind_header, rows_from, parts_of, parts_behind}};

use crate::csv_reader::{next_record, reader_of};
use crate::cutting::pieces;
use crate::fields::column_places;
use crate::joining::join_parts;
use crate::records::{empty_rel, read_rows, read_seeded};
use crate::table::Table;
use csv::{ByteRecord, Reader};
use smk_base::{ColDecls, Rel, TableFault, without_mark};
use smk_outside::Gate;
use std::alloc::{AllocError, Global};
use std::thread::{Threads, map_indices};

// What a header says: the places of the declared columns, and how many fields it has. With it goes the seed of the hashes by which values are found.
#[derive(Drop)]
struct Header {
    places: Vec<usize>,
    width: usize,
    seed: u64,
}

// The header of the records that are left, where there is one.
fn header_left(
    alloc: Global,
    seed: u64,
    reader: &mut Reader<&[u8]>,
    row: &mut ByteRecord,
    cols: &ColDecls,
) -> Result<Option<Header>, TableFault>
    requires between { IsBetween reader.old }
    requires columns { AreColumns cols.now }
    ensures count { IfOk result (λ found. IfSome found (λ header. length header.places.items ≡ length cols.now)) }
    ensures found { IfOk result (λ found. IfSome found (λ header. HasHeader cols.now (records_left reader.old) header.width (Ok header.places.items))) }
    ensures fault { IfErr result (λ fault. (fault ≡ NoMemory) ⊎ ((width : ℕ) × HasHeader cols.now (records_left reader.old) width (Err fault))) }
{
    if !next_record(reader, row)? {
        return Ok(None);
    }
    let width = row.len();
    match column_places(alloc, row, cols) {
        Ok(places) => Ok(Some(Header {
            places,
            width,
            seed,
        })),
        Err(fault) => Err(fault),
    }
}

// The header of a text, where it has a record.
fn header_of(
    alloc: Global,
    seed: u64,
    text: &[u8],
    cols: &ColDecls,
) -> Result<Option<Header>, TableFault>
    requires unmarked { IsFalse (begins_with_mark text.now) }
    requires columns { AreColumns cols.now }
    ensures count { IfOk result (λ found. IfSome found (λ header. length header.places.items ≡ length cols.now)) }
    ensures found { IfOk result (λ found. IfSome found (λ header. HasHeader cols.now (records default_config text.now) header.width (Ok header.places.items))) }
    ensures fault { IfErr result (λ fault. (fault ≡ NoMemory) ⊎ ((width : ℕ) × HasHeader cols.now (records default_config text.now) width (Err fault))) }
{
    let mut reader = reader_of(alloc, text);
    let mut row = ByteRecord::new(alloc);
    header_left(alloc, seed, &mut reader, &mut row, cols)
}

// The rows of the records of a piece of a text, each with its number in the piece, after the header where the piece has it.
fn read_piece(
    alloc: Global,
    text: &[u8],
    has_header: bool,
    cols: &ColDecls,
    header: &Header,
) -> Result<Rel, TableFault>
    requires unmarked { IsFalse (begins_with_mark text.now) }
    requires columns { AreColumns cols.now }
    requires places { length header.now.places.items ≡ length cols.now }
    ensures { Gives cols.now (rows_from cols.now header.now.places.items header.now.width 1 (behind_header has_header (records default_config text.now))) result }
{
    let mut reader = reader_of(alloc, text);
    let mut row = ByteRecord::new(alloc);
    let mut rel = empty_rel(alloc, header.seed, cols)?;
    if has_header && !next_record(&mut reader, &mut row)? {
        return Ok(rel.finish(alloc)?);
    }
    let places = header.places.as_slice();
    read_rows(&mut reader, &mut row, cols, places, header.width, &mut rel)?;
    Ok(rel.finish(alloc)?)
}

// The rows of piece p of a text, which passes the gate first. The first piece has the header.
fn arrive_and_read<G: Gate>(
    alloc: Global,
    text: &[u8],
    p: usize,
    cols: &ColDecls,
    header: &Header,
    gate: &G,
) -> Result<Rel, TableFault>
    requires unmarked { IsFalse (begins_with_mark text.now) }
    requires few { p < WORKER_LIMIT }
    requires columns { AreColumns cols.now }
    requires places { length header.now.places.items ≡ length cols.now }
    ensures { Gives cols.now (rows_from cols.now header.now.places.items header.now.width 1 (behind_header (p == 0) (records default_config text.now))) result }
{
    gate.arrive(p as u32);
    read_piece(alloc, text, p == 0, cols, header)
}

// The rows of each piece of a text, in threads.
fn read_pieces<R: Threads + Sync, G: Gate + Sync>(
    rt: &R,
    alloc: Global,
    texts: &[&[u8]],
    cols: &ColDecls,
    header: &Header,
    gate: &G,
) -> Result<Vec<Result<Rel, TableFault>>, AllocError>
    requires unmarked { All (λ text. IsFalse (begins_with_mark text.now)) texts.now }
    requires few { length texts.now ≤ WORKER_LIMIT }
    requires columns { AreColumns cols.now }
    requires places { length header.now.places.items ≡ length cols.now }
    ensures all { IfOk result (λ made. length made.items ≡ length texts.now) }
    ensures rows { IfOk result (λ made. (p : ℕ) (d : _) (e : _) → p < length texts.now
        → Gives cols.now (rows_from cols.now header.now.places.items header.now.width 1 (behind_header (p == 0) (records default_config (slice_index_or texts.now p d).now))) (slice_index_or made.items p e)) }
{
    map_indices(
        rt,
        alloc,
        texts.len(),
        &|p| { arrive_and_read(alloc, texts[p], p, cols, header, gate) },
    )
}

// The rows of the pieces of a text, of which the first has the header.
fn rows_in_pieces<R: Threads + Sync, G: Gate + Sync>(
    rt: &R,
    alloc: Global,
    texts: &[&[u8]],
    cols: &ColDecls,
    header: &Header,
    gate: &G,
) -> Result<Rel, TableFault>
    requires unmarked { All (λ text. IsFalse (begins_with_mark text.now)) texts.now }
    requires some { 0 < length texts.now }
    requires few { length texts.now ≤ WORKER_LIMIT }
    requires columns { AreColumns cols.now }
    requires places { length header.now.places.items ≡ length cols.now }
    ensures { Gives cols.now (parts_behind 0 (parts_of cols.now header.now.places.items header.now.width (map read_of texts.now))) result }
{
    let made = read_pieces(rt, alloc, texts, cols, header, gate)?;
    join_parts(rt, alloc, cols, made)
}

// The table of the pieces of a text, of which the first has this header.
fn table_in_pieces<R: Threads + Sync, G: Gate + Sync>(
    rt: &R,
    alloc: Global,
    texts: &[&[u8]],
    cols: &ColDecls,
    header: &Header,
    gate: &G,
) -> Result<Table, TableFault>
    requires unmarked { All (λ text. IsFalse (begins_with_mark text.now)) texts.now }
    requires some { 0 < length texts.now }
    requires few { length texts.now ≤ WORKER_LIMIT }
    requires columns { AreColumns cols.now }
    requires places { length header.now.places.items ≡ length cols.now }
    ensures { Gives cols.now (parts_behind 0 (parts_of cols.now header.now.places.items header.now.width (map read_of texts.now))) result }
{
    match rows_in_pieces(rt, alloc, texts, cols, header, gate) {
        Ok(rel) => Ok(Table::of_rel(rel.shared(alloc)?)),
        Err(fault) => Err(fault),
    }
}

/// Reads the bytes of a CSV file as `read_table` does, with the same answer. The bytes are cut into at most `workers` pieces of at least `least` bytes each, which are read in threads. Values are found by the hashes of the seed. Before the first quote each line feed ends a record, so cuts are made there; what comes after it stays in one piece. If there are two pieces or more, each passes the gate.
pub fn read_table_in_pieces<R: Threads + Sync, G: Gate + Sync>(
    rt: &R,
    alloc: Global,
    seed: u64,
    bytes: &[u8],
    cols: &ColDecls,
    workers: u32,
    least: u32,
    gate: &G,
) -> Result<Table, TableFault>
    requires columns { AreColumns cols.now }
    requires some { 1 ≤ workers }
    requires few { workers ≤ WORKER_LIMIT }
    ensures rows { IfOk result (λ table. table_of cols.now bytes.now ≡ Ok table.rows) }
    ensures kinds { IfOk result (λ table. table.kinds ≡ declared_kinds cols.now) }
    ensures fault { IfErr result (λ fault. (fault ≡ NoMemory) ⊎ (table_of cols.now bytes.now ≡ Err fault)) }
{
    let texts = pieces(alloc, without_mark(bytes), workers, least)?;
    if texts.len() < 2 {
        return read_seeded(alloc, seed, bytes, cols);
    }
    match header_of(alloc, seed, texts[0], cols) {
        Ok(Some(header)) => table_in_pieces(rt, alloc, texts.as_slice(), cols, &header, gate),
        Ok(None) => read_seeded(alloc, seed, bytes, cols),
        Err(fault) => Err(fault),
    }
}
