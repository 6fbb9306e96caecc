use smk_base::{BrushOn, Catalog, Rel};
use smk_compose::Run;
use smk_push::Cubes;
use smk_skip::Split;
use smk_table::Table;

// What a session holds, as a line reads it: the book, the tables, the views as they are first evaluated, what is kept for the declarations that ask for more than rows, the brushes in force, and the contents that are kept under them.
#[derive(Drop)]
pub(crate) struct Lent<'a> {
    pub(crate) catalog: &'a Catalog,
    pub(crate) tables: &'a [Table],
    pub(crate) views: &'a [Run],
    pub(crate) splits: &'a [Split],
    pub(crate) cubes: &'a [Cubes],
    pub(crate) brushes: &'a [BrushOn],
    pub(crate) contents: &'a [Option<Rel>],
}
