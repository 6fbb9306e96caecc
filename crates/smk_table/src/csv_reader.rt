ghost use Rattle.std.specs.{Prelude.{◌≡◌, [], ◌∷◌, IfOk, IfErr, IsFalse}, Bool.{OnTrue, OnFalse}};
ghost use Rattle.csv.specs.{Reading.{records, default_config}, Records.fields_of};
ghost use Rattle.smk_base.specs.{Marks.begins_with_mark, declared.fault.TableFault.TheVariants.NoMemory};
ghost use Rattle.smk_table.specs.CsvReader.{IsBetween, records_left};

use csv::{ByteRecord, Reader, ReaderBuilder};
use smk_base::TableFault;
use std::alloc::Global;

/// A reader of every record of a text.
pub(crate) fn reader_of(alloc: Global, text: &[u8]) -> Reader<&[u8]>
    requires { IsFalse (begins_with_mark text.now) }
    ensures between { IsBetween result }
    ensures left { records_left result ≡ records default_config text.now }
{
    ReaderBuilder::new()
        .has_headers(false)
        .flexible(true)
        .from_reader(alloc, text)
}

/// Reads the next record into `row`, whose room serves all of them, and says whether there is one. A slice can always be read, so the only error is that memory ran out.
pub(crate) fn next_record(
    reader: &mut Reader<&[u8]>,
    row: &mut ByteRecord,
) -> Result<bool, TableFault>
    requires { IsBetween reader.old }
    ensures found { IfOk result (λ found. OnTrue found
        (IsBetween reader.new × (records_left reader.old ≡ fields_of row.new ∷ records_left reader.new))) }
    ensures ended { IfOk result (λ found. OnFalse found (records_left reader.old ≡ [])) }
    ensures fault { IfErr result (λ fault. fault ≡ NoMemory) }
{
    let Ok(found) = reader.read_byte_record(row) else {
        return Err(TableFault::NoMemory);
    };
    Ok(found)
}
