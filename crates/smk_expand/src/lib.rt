//! A book with the views that show its dependencies.
#![tactic(auto)]

mod expanding;

pub use expanding::{Expanded, expand};
