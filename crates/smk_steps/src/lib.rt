//! Steps over rows of a table, as an `ask` line has them.
#![tactic(auto)]

mod chained;
mod stepping;

pub use stepping::stepped;
