//! A conversation's own lines, which begin with a dot: how they are read, and how a session answers them.
#![tactic(auto)]

mod answer;
mod briefs;
mod forms;
mod narrowing;
mod own_line;
mod part;
mod reading;
mod schemas;
mod selecting;

pub use answer::OwnAnswer;
pub use briefs::brief;
pub use forms::help;
pub use narrowing::{narrowed, narrowed_ask};
pub use own_line::{OwnLine, OwnReading, Part};
pub use reading::{is_own, read_own};
pub use schemas::schema;
pub use selecting::selected;
