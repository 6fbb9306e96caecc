//! The body that captures lineage while it makes the rows: each step's wanted lists, both ways, from what it found.
#![tactic(auto)]

mod inject;

pub use inject::Inject;
