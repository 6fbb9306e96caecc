use crate::book::plan::CmpOp;
use crate::list::{ListOf, Rids, Text};
use crate::value::Value;

/// A name and the place of its first byte in the text.
#[derive(Drop)]
pub struct Word {
    pub name: Text,
    pub at: u64,
}

/// A literal and its place.
#[derive(Drop)]
pub struct Lit {
    pub value: Value,
    pub at: u64,
}

/// A column of a table statement: whether it is a text, and its default where it has one.
#[derive(Drop)]
pub struct Decl {
    pub name: Word,
    pub text: bool,
    pub def: Option<Lit>,
}

/// The statements of a book, in order.
pub type Stmts = ListOf<Stmt>;

/// The columns that a table statement declares.
pub type Decls = ListOf<Decl>;

/// Names with their places.
pub type Words = ListOf<Word>;

/// The output columns of a projection.
pub type ItemTrees = ListOf<ItemTree>;

/// The aggregates of a grouping.
pub type AggTrees = ListOf<AggTree>;

/// The pairs of a join.
pub type PairTrees = ListOf<PairTree>;

/// A book as it is written.
#[derive(Drop)]
pub struct Book {
    pub stmts: Stmts,
}

/// A statement. The place of a `lineage` statement, and that of an `fd` statement, is that of its first keyword.
#[derive(Drop)]
pub enum Stmt {
    Table {
        name: Word,
        file: Text,
        cols: Decls,
    },
    View {
        name: Word,
        plan: Tree,
    },
    Back {
        at: u64,
        view: Word,
        table: Word,
        extra: Extra,
    },
    Fwd {
        at: u64,
        table: Word,
        view: Word,
    },
    Link {
        view: Word,
        table: Word,
        to: Words,
    },
    /// The rows of the table with equal keys have one value in the column; the name is that of the view of the keys where they don't.
    Depends {
        at: u64,
        name: Word,
        table: Word,
        keys: Words,
        col: Word,
    },
}

/// What a backward declaration asks for besides the rows. The place of a grouping is that of `group`.
#[derive(Drop)]
pub enum Extra {
    Plain,
    By(Word),
    Grouped {
        at: u64,
        keys: Words,
        aggs: AggTrees,
    },
}

/// A plan as it is written. The place of a step is that of its first keyword.
#[cycle(tree)]
#[derive(Drop)]
pub enum Tree {
    Scan(Word),
    Step {
        at: u64,
        input: Box<Tree>,
        what: StepTree,
    },
}

/// A step as it is written, without its input. The box of a join, a theta join, a product or a union is the second source.
#[cycle(tree)]
#[derive(Drop)]
pub enum StepTree {
    Select(PredTree),
    Project(ItemTrees),
    Distinct(ItemTrees),
    Group(Words, AggTrees),
    Join(Box<Tree>, PairTrees),
    Theta(Box<Tree>, PredTree),
    Product(Box<Tree>),
    UnionAll(Box<Tree>),
    Union(Box<Tree>),
}

/// An output column. One that is written without `as` has its column's word as name.
#[derive(Drop)]
pub enum ItemTree {
    Col { col: Word, name: Word },
    Bin { col: Word, width: i64, name: Word },
}

/// An aggregate and its name.
#[derive(Drop)]
pub struct AggTree {
    pub name: Word,
    pub what: AggWhat,
}

/// What an aggregate computes.
#[derive(Drop)]
pub enum AggWhat {
    Count,
    Sum(Word),
    Min(Word),
    Max(Word),
}

/// A column of the left input and one of the right that are to be equal.
#[derive(Drop)]
pub struct PairTree {
    pub left: Word,
    pub right: Word,
}

/// A predicate as it is written.
#[derive(Drop)]
pub enum PredTree {
    Cmp(Word, CmpOp, Term),
    And(Box<PredTree>, Box<PredTree>),
    Or(Box<PredTree>, Box<PredTree>),
    Not(Box<PredTree>),
}

/// The right side of a comparison.
#[derive(Drop)]
pub enum Term {
    Col(Word),
    Lit(Lit),
}

/// The marked rows of a line: all of them, or those with these numbers, as they are written.
#[derive(Drop)]
pub enum Marks {
    All,
    Listed(Rids),
}

/// What a `back` line asks for besides the rows.
#[derive(Drop)]
pub enum Then {
    Plain,
    Matching { col: Text, value: Value },
    Grouped,
}

/// A line of a script as it is written.
#[derive(Drop)]
pub enum Line {
    Show {
        view: Text,
    },
    Back {
        view: Text,
        marks: Marks,
        table: Text,
        then: Then,
    },
    Fwd {
        table: Text,
        rows: Marks,
        view: Text,
    },
    Brush {
        view: Text,
        marks: Marks,
        table: Text,
    },
    Clear,
    ClearOne {
        view: Text,
        table: Text,
    },
}

/// A step of an `ask` line as it is written, and the place of its keyword.
#[derive(Drop)]
pub struct AskStep {
    pub at: u64,
    pub what: StepTree,
}

/// The steps of an `ask` line.
pub type AskSteps = ListOf<AskStep>;

/// An `ask` line as it is written: steps over the rows of a table that the marks of a view came from.
#[derive(Drop)]
pub struct AskLine {
    pub view: Text,
    pub marks: Marks,
    pub table: Text,
    pub steps: AskSteps,
}

/// A line of a script of any kind, as it is written.
#[derive(Drop)]
pub enum AnyLine {
    Plain(Line),
    Ask(AskLine),
    /// An `fd` line: the rows that violate the dependency of this name.
    Profile { view: Text },
    /// An `append` line: the records of this file go behind the rows of the table of this name.
    Append { table: Text, file: Text },
}

/// Where a line of a script lies: its bytes from `start` up to `end`, without its line end. The next line begins at `next`.
#[derive(Clone, Copy)]
pub struct LineSpan {
    pub start: usize,
    pub end: usize,
    pub next: usize,
}
