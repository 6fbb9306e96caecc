//! The old rows of a growing chain and those of new rows of its table, put together.
#![tactic(auto)]

mod chains;
mod groups;
mod growing;
mod maps;

pub use growing::grown;
