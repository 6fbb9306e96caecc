use smk_base::Text;
use smk_session::Mode;
use smk_table::Table;
use smk_typing::TypedBook;

// A book over its tables, the one of these that grows and how many of its rows are old, and how views are opened.
#[derive(Drop)]
pub(crate) struct Renewal<'a> {
    pub(crate) book: &'a TypedBook,
    pub(crate) tables: &'a [Table],
    pub(crate) table: u32,
    pub(crate) len: u32,
    pub(crate) mode: Mode,
}

// Rows added to a table: the table and how many rows it had, how many they are, and its name if the text of that is wanted.
#[derive(Drop)]
pub(crate) struct Append<'a> {
    pub(crate) table: u32,
    pub(crate) len: u32,
    pub(crate) rows: u32,
    pub(crate) said: Option<&'a Text>,
}
