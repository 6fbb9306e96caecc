//! Groupings pushed into capture: one is made for every list of a map, so that an answer reads it off.
#![tactic(auto)]

mod classes;
mod cubes;
mod group;
mod input;

pub use cubes::Cubes;
