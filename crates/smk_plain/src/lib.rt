//! The plain body: the rows of every step, and no lineage.
#![tactic(auto)]

mod plain;

pub use plain::Plain;
