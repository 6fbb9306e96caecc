//! The top calls of Smoke: a run, from its words to its report, and a conversation, line by line.
#![tactic(auto)]

mod answering;
mod conversing;
mod counting;
mod counts;
mod laws;
mod no_files;
mod nowhere;
mod owning;
mod program;
mod reporting;
mod stand;
mod starting;
mod status;
mod summarizing;
mod talking;

pub use conversing::converse;
pub use laws::{completeness, ends_as_told, lines_are_one, talk_completeness, talks_hold};
pub use program::run;
pub use status::Status;
