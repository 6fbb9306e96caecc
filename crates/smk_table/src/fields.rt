ghost use Rattle.std.specs.{Prelude.{◌≡◌, ◌≢◌, ◌⊎◌, ◌<◌, ◌≤◌, ◌+◌, [], length, IfOk, IfErr, IfSome, OnOk, Ok, Err, slice_index_or}, List.list_all, Option.{ok_or, option_map}};
ghost use Rattle.csv.specs.Records.{fields_of};
ghost use Rattle.smk_base.specs.{declared.fault.TableFault.TheVariants.{NoMemory, BadInt}, Ints.is_blank, Rels.{Fits, kind_in}, declared.rel.TheConstants.COLUMN_LIMIT};
ghost use Rattle.smk_base.specs.declared.value.Kind.TheVariants as kinds;
ghost use Rattle.smk_base.specs.declared.value.Value.TheVariants as values;
ghost use Rattle.smk_model.specs.Tables.{AreColumns, IsBaseColumn, all_or_first, numbered, header_place, cell_value, field_value, int_field_value, text_value, record_row, declared_kinds};
ghost use Rattle.smk_table.specs.Growing.{with_cell, with_row};

use csv::ByteRecord;
use smk_base::{ColDecl, ColDecls, Kind, ROW_LIMIT, RelBuilder, TableFault, Value, read_int};
use std::alloc::Global;

// The field at a place, and no bytes past the last.
fn field_at(fields: &ByteRecord, place: usize) -> &[u8]
    ensures { result.now ≡ slice_index_or (fields_of fields.now) place [] }
{
    fields.get(place).unwrap_or(&[])
}

/// The place of declared column c in the header.
fn place_of(header: &ByteRecord, decl: &ColDecl, c: u32) -> Result<usize, TableFault>
    ensures { result ≡ header_place (fields_of header.now) c decl.now }
{
    let name = decl.name.as_slice();
    let mut found = None;
    for place in 0..header.len() {
        if field_at(header, place) == name {
            if found.is_some() {
                return Err(TableFault::RepeatedColumn { col: c });
            }
            found = Some(place);
        }
    }
    found.ok_or(TableFault::MissingColumn { col: c })
}

/// The places of the declared columns in the header, in order.
pub(crate) fn column_places(
    alloc: Global,
    header: &ByteRecord,
    cols: &ColDecls,
) -> Result<Vec<usize>, TableFault>
    requires { length cols.now ≤ COLUMN_LIMIT }
    ensures count { IfOk result (λ places. length places.items ≡ length cols.now) }
    ensures ok { IfOk result (λ places. all_or_first (numbered (header_place (fields_of header.now)) 0 cols.now) ≡ Ok places.items) }
    ensures fault { IfErr result (λ fault. (fault ≡ NoMemory) ⊎ (all_or_first (numbered (header_place (fields_of header.now)) 0 cols.now) ≡ Err fault)) }
{
    let mut places = Vec::new(alloc);
    for (c, decl) in cols.as_slice().iter().enumerate() {
        places.push(place_of(header, decl, c as u32)?)?;
    }
    Ok(places)
}

/// Whether a field has only spaces and tabs.
fn is_blank_field(field: &[u8]) -> bool
    ensures { result ≡ list_all is_blank field.now }
{
    field.iter().all(|b| *b == b' ' || *b == b'\t')
}

/// The int of a field in an int column, if it has one.
fn int_in(def: &Option<Value>, field: &[u8]) -> Option<i64>
    requires { IfSome def.now (λ value. Fits (kinds.Int 0) value) }
    ensures { option_map values.Int result ≡ int_field_value def.now field.now }
{
    match def {
        Some(Value::Int(number)) if is_blank_field(field) => Some(*number as i64),
        _ => read_int(field),
    }
}

/// The text of a field in a text column.
fn text_in<'a>(def: &'a Option<Value>, field: &'a [u8]) -> &'a [u8]
    requires { IfSome def.now (λ value. Fits kinds.Text value) }
    ensures { values.Text result.now ≡ text_value def.now field.now }
{
    match def {
        Some(Value::Text(text)) if field.is_empty() => text.as_slice(),
        _ => field,
    }
}

/// Appends the value of a field of record number nth in declared column col, if it has one.
fn push_value(
    rel: &mut RelBuilder,
    decl: &ColDecl,
    field: &[u8],
    nth: u32,
    col: u32,
) -> Result<(), TableFault>
    requires base { IsBaseColumn decl.now }
    requires room { length rel.old.rows < ROW_LIMIT }
    requires column { length rel.old.begun < length rel.old.kinds }
    requires kind { kind_in rel.old.kinds (length rel.old.begun) ≡ decl.now.kind }
    ensures kinds { rel.new.kinds ≡ rel.old.kinds }
    ensures rows { rel.new.rows ≡ rel.old.rows }
    ensures pushed { OnOk result (with_cell rel.old.begun (ok_or (field_value decl.now.kind decl.now.def field.now) (BadInt nth col)) ≡ Ok rel.new.begun) }
    ensures fault { IfErr result (λ fault. (fault ≡ NoMemory) ⊎ (ok_or (field_value decl.now.kind decl.now.def field.now) (BadInt nth col) ≡ Err fault)) }
{
    match decl.kind {
        Kind::Int { level: _ } => {
            let Some(number) = int_in(&decl.def, field) else {
                return Err(TableFault::BadInt { nth, col });
            };
            rel.push_int(number)?;
            Ok(())
        }
        Kind::Text => {
            rel.push_text(text_in(&decl.def, field))?;
            Ok(())
        }
    }
}

/// Appends the values of record number nth in the declared columns, whose fields are at these places.
fn push_values(
    rel: &mut RelBuilder,
    cols: &ColDecls,
    places: &[usize],
    nth: u32,
    fields: &ByteRecord,
) -> Result<(), TableFault>
    requires columns { AreColumns cols.now }
    requires places { length places.now ≡ length cols.now }
    requires kinds { rel.old.kinds ≡ declared_kinds cols.now }
    requires begun { rel.old.begun ≡ [] }
    requires room { length rel.old.rows < ROW_LIMIT }
    ensures kinds { rel.new.kinds ≡ rel.old.kinds }
    ensures begun { OnOk result (rel.new.begun ≡ []) }
    ensures pushed { OnOk result (with_row rel.old.rows (all_or_first (numbered (cell_value places.now nth (fields_of fields.now)) 0 cols.now)) ≡ Ok rel.new.rows) }
    ensures fault { IfErr result (λ fault. (fault ≡ NoMemory) ⊎ (all_or_first (numbered (cell_value places.now nth (fields_of fields.now)) 0 cols.now) ≡ Err fault)) }
{
    for (c, decl) in cols.as_slice().iter().enumerate() {
        push_value(rel, decl, field_at(fields, places[c]), nth, c as u32)?;
    }
    rel.end_row();
    Ok(())
}

/// Appends the row of record number nth, counted from 1 after a header of this width.
pub(crate) fn push_record(
    rel: &mut RelBuilder,
    cols: &ColDecls,
    places: &[usize],
    width: usize,
    nth: u32,
    fields: &ByteRecord,
) -> Result<(), TableFault>
    requires columns { AreColumns cols.now }
    requires places { length places.now ≡ length cols.now }
    requires kinds { rel.old.kinds ≡ declared_kinds cols.now }
    requires begun { rel.old.begun ≡ [] }
    requires count { length rel.old.rows + 1 ≡ nth }
    requires few { length rel.old.rows ≤ ROW_LIMIT }
    ensures kinds { rel.new.kinds ≡ rel.old.kinds }
    ensures begun { OnOk result (rel.new.begun ≡ []) }
    ensures pushed { OnOk result (with_row rel.old.rows (record_row cols.now places.now width nth (fields_of fields.now)) ≡ Ok rel.new.rows) }
    ensures room { IfOk result (λ _. nth ≢ ROW_LIMIT + 1) }
    ensures fault { IfErr result (λ fault. (fault ≡ NoMemory) ⊎ (record_row cols.now places.now width nth (fields_of fields.now) ≡ Err fault)) }
{
    if nth == ROW_LIMIT + 1 {
        return Err(TableFault::TooManyRows);
    }
    if fields.len() != width {
        return Err(TableFault::Ragged { nth });
    }
    push_values(rel, cols, places, nth, fields)
}
