//! Maps that are made of other maps, and what two lists have in common.

mod compose;
mod distinct;
mod follow;
mod intersect;
mod invert;
mod merge;

pub use intersect::intersection;
