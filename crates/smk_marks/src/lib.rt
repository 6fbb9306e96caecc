//! The content of a view that is a grouping over a chain, over a selection of its table's rows, by the marks in its kept forward lineage: no key is made again.
#![tactic(auto)]

mod columns;
mod groups;
mod growing;
mod laws;
mod reached;
mod view;

pub use groups::content_by_marks;
pub use growing::{is_growing, scanned_table};
pub use laws::{chain_picks, counts_alone, example_marks, group_marks, kept_marks, never_full};
pub use reached::{Reached, reach};
pub use view::{GroupedChain, KeptView, grouped_chain};
