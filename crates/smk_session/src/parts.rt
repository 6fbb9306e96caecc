use crate::start::mode::Mode;
use crate::start::opening::Opened;
use smk_base::{BrushOn, Rel};
use smk_push::Cubes;
use smk_skip::Split;
use smk_table::Table;
use smk_typing::TypedBook;

/// What a session is made of.
#[derive(Drop)]
pub struct Parts {
    /// The checked book.
    pub book: TypedBook,
    /// The tables, in the book's order.
    pub tables: Vec<Table>,
    /// The views as they are first evaluated, in the book's order.
    pub views: Vec<Opened>,
    /// One split for each declaration by a column, in their order.
    pub splits: Vec<Split>,
    /// The groups of each declared grouping, in their order.
    pub cubes: Vec<Cubes>,
    /// The brushes in force, at most one for each pair of a view and a table.
    pub brushes: Vec<BrushOn>,
    /// For each view the content under the brushes in force, if it follows one of them.
    pub now: Vec<Option<Rel>>,
    /// When lineage is made.
    pub mode: Mode,
    /// Into how many pieces the work is cut, from 1 to 64.
    pub workers: u32,
}
