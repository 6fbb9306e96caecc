use smk_base::{ListOf, Rel};
use smk_rid::RidMap;

/// The lineage of a plan to one table, in the needed directions: `back` has the rids of the table for each row of the plan, `fwd` the places of the rows for each rid.
#[derive(Drop)]
pub struct KeptMap {
    pub table: u32,
    pub back: Option<RidMap>,
    pub fwd: Option<RidMap>,
}

/// The lineage of a plan, table by table.
pub type Kepts = ListOf<KeptMap>;

/// The rows of a plan, and the lineage that is kept.
#[derive(Drop)]
pub struct Run {
    pub rel: Rel,
    pub kept: Kepts,
}
