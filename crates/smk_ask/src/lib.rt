//! Steps over the rows of a backward answer, and the text of what they make.
#![tactic(auto)]

mod asking;
mod said;

pub use asking::ask;
pub use said::ask_text;
