use crate::book::catalog::ColNames;
use crate::book::type_fault::TypeFault;
use crate::list::{ListOf, Rids};
use crate::rel::Rel;

/// The answer to a line of a script.
#[derive(Drop)]
pub enum Reply {
    /// The content of a view.
    View { rel: Rel },
    /// Rows of a table, and their rids in the same order.
    Back { rids: Rids, rows: Rel },
    /// A declared grouping over rows of a table.
    Grouped { rel: Rel },
    /// The marks of a view.
    Fwd { marks: Rids },
    /// The rids that a brush selects, and the views that follow it, in the order of their links.
    Brush { rids: Rids, linked: Linkeds },
    /// No brush is in force.
    Cleared,
    /// The views that followed a brush that was taken away, in the order of their links.
    ClearedOne { linked: Linkeds },
    /// The line is refused, and nothing is changed.
    Refused(Refusal),
}

/// A view that follows a brush, by its number: its marks that the rows now selected for it reach, and its content over these rows.
#[derive(Drop)]
pub struct Linked {
    pub view: u32,
    pub marks: Rids,
    pub rel: Rel,
}

/// The views that follow a brush.
pub type Linkeds = ListOf<Linked>;

/// Why a line is refused. The names that it speaks of are those of the line.
#[derive(Drop, Clone, Copy)]
pub enum Refusal {
    /// The book has no view of this name.
    UnknownView,
    /// The book has no table of this name.
    UnknownTable,
    /// The book doesn't declare this query.
    Undeclared,
    /// The first number of the line that is no row, and how many rows there are.
    NoRow { row: u32, rows: u32 },
    /// The book doesn't declare this backward query by the column.
    NoSplit,
    /// The literal is an int and the column holds texts, or the other way round.
    ValueKind,
    /// The book doesn't declare a grouping for this backward query.
    NoGroup,
    /// The book has no link of this view on this table.
    NotLinked,
    /// The first linked view, by its number, and its first node in post-order that would have too many rows.
    RowsLimit { view: u32, node: u32 },
    /// A grouping is asked for more than one mark.
    ManyMarks,
}

/// The answer to an `ask` line.
#[derive(Drop)]
pub enum AskReply {
    /// The rows that the steps make, and the names of their columns.
    Rows { names: ColNames, rel: Rel },
    /// The line is refused.
    Refused(AskRefusal),
}

/// Why an `ask` line is refused.
#[derive(Drop, Clone, Copy)]
pub enum AskRefusal {
    /// The `back` line within it is refused.
    Back(Refusal),
    /// The steps don't fit the columns of the table; the place is that of the fault.
    Steps { at: u64, fault: TypeFault },
}

/// The answer to an `fd` line.
#[derive(Drop)]
pub enum ProfileReply {
    /// The table of the dependency, by its number, and for each key that violates it its rows, in the order of the keys.
    Found { table: u32, marks: Groups },
    /// The line is refused.
    Refused(ProfileRefusal),
}

/// The rows of a table that have one key, and their rids in the same order.
#[derive(Drop)]
pub struct Group {
    pub rids: Rids,
    pub rows: Rel,
}

/// The rows of several keys.
pub type Groups = ListOf<Group>;

/// Why an `fd` line is refused. The name that it speaks of is that of the line.
#[derive(Drop, Clone, Copy)]
pub enum ProfileRefusal {
    /// The book has no view of this name.
    UnknownView,
    /// The view of this name is none of a dependency.
    NotProfile,
}

/// The answer to an `append` line.
#[derive(Drop)]
pub enum AppendReply {
    /// How many rows were appended, and the views that scan the table, by their numbers, in the book's order.
    Added { rows: u32, views: Rids },
    /// The line is refused.
    Refused(AppendRefusal),
}

/// Why an `append` line is refused. The names that it speaks of are those of the line and of the book.
#[derive(Drop, Clone, Copy)]
pub enum AppendRefusal {
    /// The book has no table of this name.
    UnknownTable,
    /// The old rows and the new ones together are more than a table may have.
    TableRows,
    /// A node of the view, in post-order from 0, would have too many rows.
    ViewRows { view: u32, node: u32 },
    /// A node of the view would have too many pairs with the table.
    ViewPairs { view: u32, node: u32, table: u32 },
}
