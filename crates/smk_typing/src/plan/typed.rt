use smk_base::{Aggs, Columns, Keys, Plan};

/// A plan and its output columns.
#[derive(Drop)]
pub struct Typed {
    pub plan: Plan,
    pub columns: Columns,
}

/// A grouping: its keys, its aggregates, and the columns that it makes.
#[derive(Drop)]
pub struct TypedGrouping {
    pub keys: Keys,
    pub aggs: Aggs,
    pub columns: Columns,
}
