ghost use Rattle.std.specs.Prelude.{◌≡◌, Ok, IfOk};
ghost use Rattle.smk_base.specs.{Aggregates.{moved_to, over_parts, read_by}, PlanImage.{binary_of, formula_of, unary_of}};

use crate::list::ListOf;
use crate::value::Value;
use std::alloc::{AllocError, Global};

/// A comparison of two values of one kind.
#[derive(Clone, Copy)]
pub enum CmpOp {
    Eq,
    Ne,
    Lt,
    Le,
    Gt,
    Ge,
}

/// The right side of a comparison: a column by its number, or a literal.
#[derive(Drop)]
pub enum Operand {
    Col(u32),
    Lit(Value),
}

/// A test of a row. The number of a comparison is that of its left column.
#[derive(Drop)]
pub enum Pred {
    Cmp(u32, CmpOp, Operand),
    And(Box<Pred>, Box<Pred>),
    Or(Box<Pred>, Box<Pred>),
    Not(Box<Pred>),
}

/// An output column of a projection: a column, or the floor of a column divided by a width of at least 1.
#[derive(Clone, Copy)]
pub enum Item {
    Col(u32),
    Bin { col: u32, width: i64 },
}

/// What is computed over the rows of a group.
#[derive(Clone, Copy)]
pub enum Agg {
    Count,
    Sum(u32),
    Min(u32),
    Max(u32),
}

/// The output columns of a projection.
pub type Items = ListOf<Item>;

/// Columns by their numbers.
pub type Keys = ListOf<u32>;

/// The aggregates of a grouping.
pub type Aggs = ListOf<Agg>;

/// Pairs of a left and a right column that are to be equal.
pub type Pairs = ListOf<(u32, u32)>;

/// A step with one input.
#[derive(Drop)]
pub enum Op1 {
    Select(Pred),
    Project(Items),
    Distinct(Items),
    Group(Keys, Aggs),
}

/// A step with two inputs.
#[derive(Drop)]
pub enum Op2 {
    /// The rows with equal values in every pair.
    Join(Pairs),
    /// The rows that meet the predicate together; its columns are numbered over the left columns followed by the right ones.
    Theta(Pred),
    /// All rows of both.
    Product,
    UnionAll,
    Union,
}

/// A plan over tables, which it names by their numbers.
#[derive(Drop)]
pub enum Plan {
    Scan(u32),
    One(Op1, Box<Plan>),
    Two(Op2, Box<Plan>, Box<Plan>),
}

/// Which ways lineage is wanted: from the outputs back to the inputs, from the inputs forward to the outputs.
#[derive(Clone, Copy)]
pub struct Dir {
    pub back: bool,
    pub fwd: bool,
}

impl Agg {
    /// The column that this reads.
    pub fn column(self) -> Option<u32>
        ensures { result ≡ read_by self }
    {
        match self {
            Agg::Count => None,
            Agg::Sum(c) => Some(c),
            Agg::Min(c) => Some(c),
            Agg::Max(c) => Some(c),
        }
    }

    /// This aggregate over another column.
    pub fn over(self, column: u32) -> Agg
        ensures { result ≡ moved_to column self }
    {
        match self {
            Agg::Count => Agg::Count,
            Agg::Sum(_) => Agg::Sum(column),
            Agg::Min(_) => Agg::Min(column),
            Agg::Max(_) => Agg::Max(column),
        }
    }

    /// The aggregate over parts that is in a column of their groupings, taken once more.
    pub fn over_parts(self, column: u32) -> Agg
        ensures { result ≡ over_parts column self }
    {
        match self {
            Agg::Count => Agg::Sum(column),
            Agg::Sum(_) => Agg::Sum(column),
            Agg::Min(_) => Agg::Min(column),
            Agg::Max(_) => Agg::Max(column),
        }
    }
}

impl Operand {
    /// A copy that is equal to its original.
    pub fn copy(&self, alloc: Global) -> Result<Operand, AllocError>
        ensures { IfOk result (λ copy. copy ≡ self.now) }
    {
        match self {
            Operand::Col(col) => Ok(Operand::Col(*col)),
            Operand::Lit(value) => Ok(Operand::Lit(value.copy(alloc)?)),
        }
    }
}

impl Pred {
    /// A copy that says the same.
    pub fn copy(&self, alloc: Global) -> Result<Pred, AllocError>
        ensures { IfOk result (λ copy. formula_of copy ≡ formula_of self.now) }
    {
        match self {
            Pred::Cmp(col, op, operand) => Ok(Pred::Cmp(*col, *op, operand.copy(alloc)?)),
            Pred::And(left, right) => Ok(Pred::And(
                boxed(alloc, left.copy(alloc))?,
                boxed(alloc, right.copy(alloc))?,
            )),
            Pred::Or(left, right) => Ok(Pred::Or(
                boxed(alloc, left.copy(alloc))?,
                boxed(alloc, right.copy(alloc))?,
            )),
            Pred::Not(inner) => Ok(Pred::Not(boxed(alloc, inner.copy(alloc))?)),
        }
    }
}

// The copy in a box, if there is one.
fn boxed(alloc: Global, copy: Result<Pred, AllocError>) -> Result<Box<Pred>, AllocError>
    ensures { IfOk result (λ made. copy ≡ Ok made.value) }
{
    Ok(Box::new(alloc, copy?)?)
}

impl Op1 {
    /// A copy that does the same.
    pub fn copy(&self, alloc: Global) -> Result<Op1, AllocError>
        ensures { IfOk result (λ copy. unary_of copy ≡ unary_of self.now) }
    {
        match self {
            Op1::Select(pred) => Ok(Op1::Select(pred.copy(alloc)?)),
            Op1::Project(items) => Ok(Op1::Project(items.copy(alloc)?)),
            Op1::Distinct(items) => Ok(Op1::Distinct(items.copy(alloc)?)),
            Op1::Group(keys, aggs) => Ok(Op1::Group(keys.copy(alloc)?, aggs.copy(alloc)?)),
        }
    }
}

impl Op2 {
    /// A copy that does the same.
    pub fn copy(&self, alloc: Global) -> Result<Op2, AllocError>
        ensures { IfOk result (λ copy. binary_of copy ≡ binary_of self.now) }
    {
        match self {
            Op2::Join(pairs) => Ok(Op2::Join(pairs.copy(alloc)?)),
            Op2::Theta(pred) => Ok(Op2::Theta(pred.copy(alloc)?)),
            Op2::Product => Ok(Op2::Product),
            Op2::UnionAll => Ok(Op2::UnionAll),
            Op2::Union => Ok(Op2::Union),
        }
    }
}
