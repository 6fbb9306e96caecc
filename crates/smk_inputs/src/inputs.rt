ghost use Rattle.std.specs.Prelude.{◌≡◌};
ghost use Rattle.smk_model.specs.{Catalogs.each_table_kinds, Selection.each_kinds};

use smk_base::Names;
use smk_table::Table;
use smk_typing::TypedBook;
use std::collections::VecDeque;

/// What a run reads: its book and the names of its dependencies, the book's tables, the bytes of its script (none if it has no script), and the tables of the files that the lines of the script append, line by line.
#[derive(Drop)]
pub struct Inputs {
    pub book: TypedBook,
    pub fds: Names,
    pub tables: Vec<Table>,
    pub script: Vec<u8>,
    pub added: VecDeque<Table>,
    ghost kinds: { each_kinds tables.items ≡ each_table_kinds book.tables },
}
