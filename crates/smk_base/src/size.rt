use crate::list::{ListOf, Text};

/// A view, by its name, and the number of its first rows.
#[derive(Drop)]
pub struct Size {
    pub name: Text,
    pub rows: u32,
}

/// The sizes of views, in the order of the book.
pub type Sizes = ListOf<Size>;
