ghost use Rattle.std.specs.Prelude.{◌≡◌, true, is_ok, OnOk};

use csv::{Error, Writer, WriterBuilder};
use itoa::Buffer;
use smk_base::CellRef;
use std::alloc::AllocError;

// What csv says of a write into a text. It can only fail for lack of memory, since records may have any length.
fn told(written: Result<(), Error>) -> Result<(), AllocError>
    ensures { OnOk result (is_ok written ≡ true) }
{
    match written {
        Ok(()) => Ok(()),
        Err(_) => Err(AllocError),
    }
}

/// A text followed by records, which csv's writer writes. After an error it is of no use.
#[derive(Drop)]
pub struct Page {
    writer: Writer<Vec<u8>>,
}

impl Page {
    ghost use Rattle.std.specs.{Prelude.{◌≡◌, ◌++◌, [], ℕ, List, decimal, IfOk, OnOk}, Fmt.signed_decimal};
    ghost use Rattle.smk_base.specs.Cells.{value_of_cell};
    ghost use Rattle.smk_model.specs.Texts.{record_line, value_text};
    ghost use Rattle.smk_report.specs.Pages.{Says, AddsField};

    /// A page that begins with a text.
    pub fn new(front: Vec<u8>) -> Page
        ensures { Says result front.items [] }
    {
        Page {
            writer: WriterBuilder::new().flexible(true).from_writer(front),
        }
    }

    /// Writes a field of the record.
    pub fn field(&mut self, bytes: &[u8]) -> Result<(), AllocError>
        ensures { OnOk result (AddsField self.old self.new bytes.now) }
    {
        told(self.writer.write_field(bytes))
    }

    /// Ends the record.
    pub fn end(&mut self) -> Result<(), AllocError>
        ensures { OnOk result ((text : List ℕ) (fields : List (List ℕ)) → Says self.old text fields → Says self.new (text ++ record_line fields) []) }
    {
        told(self.writer.end_record())
    }

    /// Writes a number in decimal as a field.
    pub fn number(&mut self, number: u32) -> Result<(), AllocError>
        ensures { OnOk result (AddsField self.old self.new (decimal number)) }
    {
        let mut digits = Buffer::new();
        self.field(digits.format(number).as_bytes())
    }

    // Writes an int in decimal as a field. Nearly all have 64 bits, which are the faster ones to write.
    fn int(&mut self, number: i128) -> Result<(), AllocError>
        ensures { OnOk result (AddsField self.old self.new (signed_decimal number)) }
    {
        let mut digits = Buffer::new();
        match i64::try_from(number) {
            Ok(number) => self.field(digits.format(number).as_bytes()),
            Err(_) => self.field(digits.format(number).as_bytes()),
        }
    }

    /// Writes an int in decimal, or the bytes of a text, as a field.
    pub fn cell(&mut self, cell: CellRef<'_>) -> Result<(), AllocError>
        ensures { OnOk result (AddsField self.old self.new (value_text (value_of_cell cell.entry))) }
    {
        match cell {
            CellRef::Int(number) => self.int(number),
            CellRef::Text(bytes) => self.field(bytes),
        }
    }

    /// The whole text.
    pub fn finish(self) -> Result<Vec<u8>, AllocError>
        ensures { IfOk result (λ whole. (text : List ℕ) → Says self text [] → whole.items ≡ text) }
    {
        match self.writer.into_inner() {
            Ok(text) => Ok(text),
            Err(_) => Err(AllocError),
        }
    }
}
