//! The body that defers: of each step it keeps what the lineage is made from, the step, its inputs and its keys; `finish` makes the lists.
#![tactic(auto)]

mod defer;
mod distinct;
mod join;
mod kept;
mod keys;
mod one;
mod two;

pub use defer::Defer;
pub use kept::{Kept, KeptOp};
