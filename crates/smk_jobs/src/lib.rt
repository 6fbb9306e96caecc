//! Work in parts: into how many it is cut and where each begins, and jobs whose results are gathered in order, in this thread or in as many as may run at once.
#![tactic(auto)]

mod crew;
mod jobs;
mod parts;

pub use crew::{Crew, LEAST_ROWS, Work};
pub use jobs::{due, each_or_first};
pub use parts::{are_too_many, cut_place, cut_range, in_parts};
