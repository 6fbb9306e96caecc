//! Plans over tables: the rows of their leaves by counted looks, the rows of the whole plan by the steps of a body, and the lineage that is needed, composed from the leaves upward.
#![tactic(auto)]

mod chain;
mod eval;
mod fault;
mod fetch;
mod fill;
mod kept_maps;
mod leaves;
mod pass;
mod passing;
mod rows;
mod run;
mod step;
mod walk;

pub use eval::eval_leaves;
pub use fault::{EvalFault, RunFault};
pub use fetch::fetch_leaves;
pub use fill::narrow;
pub use kept_maps::{KeptMap, Kepts, Run};
pub use leaves::Leaves;
pub use rows::fetch_rids;
pub use run::{run_leaves, run_plan};
