use smk_base::Rids;

/// The view and the table of a backward query, by their numbers, and the rids of the rows that it asks for, ascending and without repeats.
#[derive(Drop)]
pub struct RowsBehind {
    /// The number of the view.
    pub view: u32,
    /// The number of the table.
    pub table: u32,
    /// The rids of the rows.
    pub rids: Rids,
}
