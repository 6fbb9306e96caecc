//! Steps: the plain rows of each, how those of its sides and these belong together, and the wanted lineage; and what every body of the operators does for one.
#![tactic(auto)]

mod body;
mod comparisons;
mod fault;
mod find;
mod keep;
mod make;
mod step;

pub use body::OpBody;
pub use fault::OpFault;
pub use find::join::{left_columns, matched, right_columns};
pub use find::matches::{Matches, Partners};
pub use find::passing::selected_places;
pub use keep::lists::{marked_lists_if, turned_lists};
pub use keep::local::{Local, Side, Want};
pub use keep::way::Way;
pub use keep::{lineage1, lineage2, no_side};
pub use make::agg_columns::{agg_column, group_rows};
pub use make::project::images;
pub use step::{Made1, Made2};
