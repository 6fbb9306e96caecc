//! Maps from the rows of one list to rids of another.
#![tactic(auto)]

mod derive;
mod fault;
mod fill;
mod hold;
mod map;

pub use derive::intersection;
pub use fault::RidFault;
pub use fill::RidFill;
pub use fill::grow::RidGrow;
pub use fill::marks::RidMarks;
pub use map::{PAIR_LIMIT, RidMap};
