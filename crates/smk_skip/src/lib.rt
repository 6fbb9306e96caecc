//! Splits of the lists of a map by the values of a column, so that the rids with a value are found without the others.
#![tactic(auto)]

mod order;
mod runs;
mod split;
mod values;

pub use split::Split;
