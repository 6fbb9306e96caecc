//! Laws of runs: what is read, its outcome, and small runs worked by hand.

pub mod example_laws;
pub mod grammar_laws;
pub mod outcome_laws;
pub mod token_laws;
