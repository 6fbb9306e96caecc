use crate::list::Rids;

/// A brush in force: a view and a table, by their numbers, and the rids of the table that it selects, ascending and without repeats.
#[derive(Drop)]
pub struct BrushOn {
    pub view: u32,
    pub table: u32,
    pub rids: Rids,
}
