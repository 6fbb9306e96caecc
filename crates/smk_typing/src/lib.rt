//! Typing: a book as it is written becomes a catalog, in which tables, views and columns are numbers that name something and every kind is right.
#![tactic(auto)]

mod book;
mod draft;
mod needs;
mod plan;
mod steps;

pub use book::check;
pub use book::typed_book::TypedBook;
pub use needs::needed;
pub use smk_base::TypeFault;
pub use steps::{Ops, TypedSteps, check_steps};
