//! The texts of the demo: a book, its tables and a script, made from a number, and the summary of what is reported of them.
#![tactic(auto)]

mod summary;
mod tables;
mod texts;

pub use smk_base::{Demo, DemoFile, DemoFiles, Size, Sizes};
pub use summary::summary_text;
pub use texts::demo;
