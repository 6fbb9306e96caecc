use crate::list::Rids;

/// The rows of one table that are picked, by their rids.
#[derive(Drop)]
pub struct Pick {
    pub table: u32,
    pub rids: Rids,
}
