//! Bodies for tests of what calls a body: one that counts what it keeps, and one that runs out of memory at each step. And a gate at which parts meet.
#![tactic(auto)]

mod counted;
mod meeting;
mod no_steps;

pub use counted::{Calls, Counted, refused_step};
pub use meeting::Meeting;
pub use no_steps::NoSteps;
