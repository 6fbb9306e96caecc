//! Books and script lines, read into trees.
#![tactic(auto)]

mod ask;
mod book;
mod front;
mod line;
mod lists;
mod plan;
mod pred;
mod reader;
mod script;
mod tokens;

pub use ask::{parse_any, parse_selected};
pub use book::parse_book;
pub use line::parse_line;
pub use script::line_at;
pub use smk_base::{BookFault, LineFault, LineSpan, Many};
