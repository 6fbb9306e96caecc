//! Keys by their first occurrence: a table of keys, and the classes of rows with equal keys.
#![tactic(auto)]

mod both;
mod classes;
mod columns;
mod hashed;
mod ints;
mod joining;
mod number_pairs;
mod numbers;
mod table;

pub use classes::Classes;
pub use joining::joined;
pub use table::KeyTable;
