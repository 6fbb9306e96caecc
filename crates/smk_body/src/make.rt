//! The rows of each step, from what makes them, and the lists that go against that, at the same time where the crew has several parts.

pub(crate) mod agg_columns;
pub(crate) mod aggregates;
mod gather;
pub(crate) mod project;
pub(crate) mod rows_of_groups;
pub(crate) mod rows_of_pairs;
pub(crate) mod rows_of_places;
pub(crate) mod unions;
