//! Appended rows: a session over a longer table, with every view, its lineage, its splits and its groupings as of a fresh start, and the text of it.
#![tactic(auto)]

mod apart;
mod appending;
mod chained;
mod extras;
mod growing;
mod moving;
mod refusing;
mod renewal;
mod renewing;
mod replacing;
mod said;
mod scans;
mod telling;
mod views;

pub use appending::{append, append_told};
pub use said::append_text;
