//! The data types that the model and the code of Smoke share.
#![tactic(auto)]

mod book;
mod brush;
mod demo;
mod fault;
mod list;
mod numbers;
mod read;
mod rel;
mod reply;
mod seeded;
mod size;
mod value;
mod workers;

// Books and lines of scripts as they are written.
pub use book::token::{KEYWORDS, TokenKind};
pub use book::tree::{
    AggTree, AggTrees, AggWhat, AnyLine, AskLine, AskStep, AskSteps, Book, Decl, Decls, Extra,
    ItemTree, ItemTrees, Line, LineSpan, Lit, Marks, PairTree, PairTrees, PredTree, StepTree, Stmt,
    Stmts, Term, Then, Tree, Word, Words,
};

// Values, relations, plans, checked books and answers.
pub use book::catalog::{
    Back, BackExtra, Backs, Catalog, ColNames, Column, Columns, Fwd, Fwds, Kinds, LinkInfo,
    LinkInfos, TableInfo, TableInfos, ViewInfo, ViewInfos,
};
pub use book::col_decl::{ColDecl, ColDecls};
pub use book::limits::{
    COMPARE_LIMIT, DEPTH_LIMIT, LINEAGE_LIMIT, LINK_LIMIT, NAME_LIMIT, NODE_LIMIT, TABLE_LIMIT,
    VIEW_LIMIT,
};
pub use book::need::{Need, Needed};
pub use book::plan::{
    Agg, Aggs, CmpOp, Dir, Item, Items, Keys, Op1, Op2, Operand, Pairs, Plan, Pred,
};
pub use book::type_fault::TypeFault;
pub use brush::BrushOn;
pub use demo::{
    DEMO_BOOK, DEMO_BOOK_NAME, DEMO_SCRIPT, DEMO_SCRIPT_NAME, Demo, DemoFile, DemoFiles,
};
pub use fault::{BookFault, Fault, FilesFault, LineFault, Many, TableFault};
pub use list::copied::Copied;
pub use list::picks::Picks;
pub use list::table_rids::Pick;
pub use list::{ListOf, Names, Rids, Row, Text};
pub use numbers::{numbers_at, numbers_below};
pub use read::{read_int, without_mark};
pub use rel::dict::Dict;
pub use rel::rel_builder::RelBuilder;
pub use rel::value_column::Ints;
pub use rel::{COLUMN_LIMIT, ROW_LIMIT, Rel};
pub use reply::{
    AppendRefusal, AppendReply, AskRefusal, AskReply, Group, Groups, Linked, Linkeds,
    ProfileRefusal, ProfileReply, Refusal, Reply,
};
pub use seeded::Seeded;
pub use size::{Size, Sizes};
pub use value::{CellRef, Kind, Value};
pub use workers::WORKER_LIMIT;
