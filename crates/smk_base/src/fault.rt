ghost use Rattle.std.specs.Prelude.{◌≡◌};
ghost use Rattle.smk_base.specs.declared.fault.BookFault.TheVariants.{NoMemory};

use crate::book::type_fault::TypeFault;
use crate::list::Text;
use std::alloc::{AllocError, AllocFailed};
use thiserror::Error;

/// Why a file wasn't read.
#[derive(Debug, Drop, Clone, Copy, Error)]
pub enum FilesFault {
    #[error("the file can't be read")]
    Failed,
    #[error("no memory")]
    NoMemory,
}

/// Why the bytes of a table's file are no table. Columns are numbered as they are declared, from 0, and records after the header from 1.
#[derive(Drop, Clone, Copy)]
pub enum TableFault {
    /// The bytes have no header.
    NoHeader,
    /// The header lacks this column.
    MissingColumn { col: u32 },
    /// The header has this column twice.
    RepeatedColumn { col: u32 },
    /// This record has more or fewer fields than the header.
    Ragged { nth: u32 },
    /// This record has no int in this column.
    BadInt { nth: u32, col: u32 },
    /// There are more records than a table may have rows.
    TooManyRows,
    NoMemory,
}

impl From<AllocError> for TableFault {
    ghost use Rattle.std.specs.Prelude.{◌≡◌};
    ghost use Rattle.smk_base.specs.declared.fault.TableFault.TheVariants as faults;

    ghost from_gives = { λ _ e. e ≡ faults.NoMemory };

    fn from(_error: AllocError) -> TableFault {
        TableFault::NoMemory
    }
}

impl<T: Drop> From<AllocFailed<T>> for TableFault {
    ghost use Rattle.std.specs.Prelude.{◌≡◌};
    ghost use Rattle.smk_base.specs.declared.fault.TableFault.TheVariants as faults;

    ghost from_gives = { λ _ e. e ≡ faults.NoMemory };

    fn from(_error: AllocFailed<T>) -> TableFault {
        TableFault::NoMemory
    }
}

/// Why a run has no report.
#[derive(Drop)]
pub enum Fault {
    /// The words are not those of a run.
    Usage,
    /// The text of the book has no tree.
    Book(BookFault),
    /// The book has no catalog.
    Types(TypeFault),
    /// The file of this table is no table; the column is named where the fault is one of a column.
    Table {
        table: Text,
        col: Option<Text>,
        fault: TableFault,
    },
    /// A file has more bytes than a file may have.
    FileLong {
        file: Text,
    },
    /// A table has more rows than a table may have.
    TableRows {
        table: Text,
    },
    /// A node of a view has more rows than a node may have. Nodes are numbered in post-order.
    ViewRows {
        view: Text,
        node: u32,
    },
    /// A node of a view has more pairs with a table than may be kept.
    ViewPairs {
        view: Text,
        node: u32,
        table: Text,
    },
    /// A file can't be read.
    Unread {
        file: Text,
    },
}

/// What a book may have too many of.
#[derive(Drop, Clone, Copy)]
pub enum Many {
    Tables,
    Views,
    Lineages,
    Links,
    Columns,
    Nodes,
    Compares,
    Depth,
    NameBytes,
}

/// Why the text of a book has no tree, with the place in bytes of its first wrong token.
#[derive(Drop, Clone, Copy)]
pub enum BookFault {
    /// No token can be read here.
    BadToken { at: u64 },
    /// No book goes on with this token, or none ends here.
    Unexpected { at: u64 },
    /// This token begins one more of them than a book may have.
    TooMany { at: u64, what: Many },
    /// A whole number out of its range.
    BadNumber { at: u64 },
    NoMemory,
}

/// Why a line of a script has no tree.
#[derive(Drop, Clone, Copy)]
pub enum LineFault {
    /// The line isn't in the grammar of lines; this is the place in bytes of its first wrong token.
    NotALine { at: u64 },
    NoMemory,
}

impl From<AllocError> for BookFault {
    ghost from_gives = { λ _ fault. fault ≡ NoMemory };

    fn from(_wanted: AllocError) -> BookFault {
        BookFault::NoMemory
    }
}

impl<T: Drop> From<AllocFailed<T>> for BookFault {
    ghost from_gives = { λ _ fault. fault ≡ NoMemory };

    fn from(_wanted: AllocFailed<T>) -> BookFault {
        BookFault::NoMemory
    }
}
