ghost use Rattle.std.specs.Prelude.{◌≡◌, ◌≢◌, ◌<◌, ◌≤◌, ◌≤ℤ◌, ◌+◌, true, [], ◌∷◌, ◌++◌, length, map, take, All, IfOk, OnOk, OnErr, pos};
ghost use Rattle.smk_base.specs.{Cells.value_of_cell, Columns.{IsColumnOf, IsReady}, Holds.held, IntColumns.numbers_of, Rels.{IsColumn, IsWider, Fits, value_in, bin_of}};
ghost use Rattle.smk_base.specs.declared.value.Kind.TheVariants as kinds;
ghost use Rattle.smk_base.specs.declared.value.Value.TheVariants as values;

use crate::rel::ROW_LIMIT;
use crate::rel::text_column::TextColumn;
use crate::rel::value_column::{Ints, ValueColumn};
use crate::value::{CellRef, Kind};
use std::alloc::{AllocError, Global};
use std::marker::Model;
use std::mem;
use std::sync::Arc;

// Where the values lie: with this column alone, which may grow, or with each of its copies.
#[derive(Drop)]
pub(crate) enum Hold {
    Own(ValueColumn),
    Shared(Arc<ValueColumn, Global>),
}

/// A column of a Rel. Contracts see what they see of its values; one that copies share has no room.
#[derive(Drop)]
pub(crate) struct RelColumn {
    hold: Hold,
}

impl Model for RelColumn {
    ghost use Rattle.std.specs.Prelude.{length};
    ghost use Rattle.smk_base.specs.Images.{ColumnImage};

    ghost Value = { ColumnImage };

    ghost use Rattle.smk_base.specs.{Columns.IsColumnOf, Holds.held};

    ghost view = { λ a. held a.hold };

    ghost invariant = { λ a. IsColumnOf (length (held a.hold).cells) (held a.hold) };
}

// The same values where copies may share them, or, if there is no memory, as they were.
fn share_hold(alloc: Global, hold: Hold) -> Hold
    ensures kind { (held result).kind ≡ (held hold).kind }
    ensures cells { (held result).cells ≡ (held hold).cells }
{
    match hold {
        Hold::Own(column) => match Arc::new(alloc, column) {
            Ok(shared) => Hold::Shared(shared),
            Err(failed) => Hold::Own(failed.value),
        },
        shared => shared,
    }
}

// The same values where they lie alone: a copy of them where others hold them too. If there is no memory they lie as they did.
fn own_hold(alloc: Global, hold: Hold) -> Hold
    ensures kind { (held result).kind ≡ (held hold).kind }
    ensures cells { (held result).cells ≡ (held hold).cells }
{
    match hold {
        Hold::Own(column) => Hold::Own(column),
        Hold::Shared(shared) => match Arc::try_unwrap(shared) {
            Ok(column) => Hold::Own(column),
            Err(shared) => match shared.copy(alloc) {
                Ok(column) => Hold::Own(column),
                Err(_) => Hold::Shared(shared),
            },
        },
    }
}

impl RelColumn {
    /// No row of this kind. It takes no memory.
    pub fn new(alloc: Global, kind: Kind) -> RelColumn
        requires { IsColumn kind }
        ensures kind { result.kind ≡ kind }
        ensures cells { result.cells ≡ [] }
        ensures keeps { IsColumnOf 0 result }
    {
        RelColumn::own(ValueColumn::new(alloc, kind))
    }

    /// The column of these values, which it alone holds.
    pub fn own(column: ValueColumn) -> RelColumn
        requires { IsColumnOf (length column.cells) column }
        ensures { result ≡ column }
    {
        RelColumn {
            hold: Hold::Own(column),
        }
    }

    // The values, wherever they lie.
    fn values(&self) -> &ValueColumn
        ensures kind { result.now.kind ≡ self.now.kind }
        ensures cells { result.now.cells ≡ self.now.cells }
    {
        match &self.hold {
            Hold::Own(column) => column,
            Hold::Shared(column) => column,
        }
    }

    // The values, which this column alone holds: a copy of them where others hold them too.
    fn into_own(self, alloc: Global) -> Result<ValueColumn, AllocError>
        ensures kind { IfOk result (λ made. made.kind ≡ self.kind) }
        ensures cells { IfOk result (λ made. made.cells ≡ self.cells) }
        ensures keeps { IfOk result (λ made. IsColumnOf (length self.cells) made) }
    {
        let RelColumn { hold } = self;
        match own_hold(alloc, hold) {
            Hold::Own(column) => Ok(column),
            Hold::Shared(_) => Err(AllocError),
        }
    }

    /// Lets copies share the values. After an error they still lie with this column alone.
    pub fn share(&mut self, alloc: Global) -> Result<(), AllocError>
        ensures kind { self.new.kind ≡ self.old.kind }
        ensures cells { self.new.cells ≡ self.old.cells }
    {
        let none = Hold::Own(ValueColumn::new(alloc, Kind::Text));
        self.hold = share_hold(alloc, mem::replace(&mut self.hold, none));
        match &self.hold {
            Hold::Shared(_) => Ok(()),
            Hold::Own(_) => Err(AllocError),
        }
    }

    /// The kind.
    pub fn kind(&self) -> Kind
        ensures kind { result ≡ self.now.kind }
        ensures low { IsColumn result }
    {
        self.values().kind()
    }

    /// The value of row i.
    pub fn cell(&self, i: u32) -> CellRef<'_>
        requires { i < length self.now.cells }
        ensures { value_of_cell result ≡ value_in self.now.cells i }
    {
        self.values().cell(i)
    }

    /// The texts of a column of texts.
    pub fn texts(&self) -> &TextColumn
        requires { self.now.kind ≡ kinds.Text }
        ensures { self.now.cells ≡ map values.Text result.now.texts }
    {
        self.values().texts()
    }

    /// The numbers of a column of ints.
    pub fn ints(&self) -> Ints<'_>
        requires { self.now.kind ≢ kinds.Text }
        ensures { map values.Int (numbers_of result) ≡ self.now.cells }
    {
        self.values().ints()
    }

    /// Makes all the room that a value needs to go last: it copies the values where others hold them too.
    pub fn make_ready(&mut self, alloc: Global, cell: CellRef) -> Result<(), AllocError>
        requires { Fits self.old.kind (value_of_cell cell) }
        ensures kind { self.new.kind ≡ self.old.kind }
        ensures cells { self.new.cells ≡ self.old.cells }
        ensures ready { OnOk result (IsReady self.new (value_of_cell cell.entry)) }
    {
        if let Hold::Shared(shared) = &self.hold {
            let column = shared.copy(alloc)?;
            self.hold = Hold::Own(column);
        }
        match &mut self.hold {
            Hold::Own(column) => column.make_ready(cell),
            Hold::Shared(_) => unreachable!(),
        }
    }

    /// Puts a value last that is ready to go there.
    pub fn push(&mut self, cell: CellRef)
        requires few { length self.old.cells < ROW_LIMIT }
        requires fits { Fits self.old.kind (value_of_cell cell) }
        requires ready { IsReady self.old (value_of_cell cell) }
        ensures kind { self.new.kind ≡ self.old.kind }
        ensures cells { self.new.cells ≡ self.old.cells ++ value_of_cell cell.entry ∷ [] }
        ensures keeps { IsColumnOf (length self.old.cells + 1) self.new }
    {
        match &mut self.hold {
            Hold::Own(column) => column.push(cell),
            Hold::Shared(_) => unreachable!(),
        }
    }

    /// The values of these rows, in this order.
    pub fn gather(&self, alloc: Global, places: &[u32]) -> Result<RelColumn, AllocError>
        requires within { All (λ place. place < length self.now.cells) places.now }
        requires few { length places.now ≤ ROW_LIMIT }
        ensures kind { IfOk result (λ made. made.kind ≡ self.now.kind) }
        ensures cells { IfOk result (λ made. made.cells ≡ map (value_in self.now.cells) places.now) }
        ensures keeps { IfOk result (λ made. IsColumnOf (length places.now) made) }
    {
        Ok(RelColumn::own(self.values().gather(alloc, places)?))
    }

    /// Lets the values lie with this column alone: it copies them where others hold them too.
    pub fn make_own(&mut self, alloc: Global) -> Result<(), AllocError>
        ensures kind { self.new.kind ≡ self.old.kind }
        ensures cells { self.new.cells ≡ self.old.cells }
        ensures own { OnOk result (self.new.own ≡ true) }
    {
        let none = Hold::Own(ValueColumn::new(alloc, Kind::Text));
        self.hold = own_hold(alloc, mem::replace(&mut self.hold, none));
        match &self.hold {
            Hold::Own(_) => Ok(()),
            Hold::Shared(_) => Err(AllocError),
        }
    }

    /// Puts the values of another column last. The other's kind is the same or a narrower one. It copies the values where others hold them too. After an error the values are as before.
    pub fn append(&mut self, alloc: Global, other: &RelColumn) -> Result<(), AllocError>
        requires few { length self.old.cells + length other.now.cells ≤ ROW_LIMIT }
        requires wider { IsWider self.old.kind other.now.kind }
        ensures kind { self.new.kind ≡ self.old.kind }
        ensures own { OnOk result (self.new.own ≡ true) }
        ensures appended { OnOk result (self.new.cells ≡ self.old.cells ++ other.now.cells) }
        ensures keeps { OnOk result (IsColumnOf (length self.old.cells + length other.now.cells) self.new) }
        ensures kept { OnErr result (self.new.cells ≡ self.old.cells) }
    {
        self.make_own(alloc)?;
        match &mut self.hold {
            Hold::Own(column) => column.append(alloc, other.values()),
            Hold::Shared(_) => unreachable!(),
        }
    }

    /// Keeps the first rows, which are all of them where others may hold the values too.
    pub fn truncate(&mut self, len: u32)
        requires within { len ≤ length self.old.cells }
        requires own { len < length self.old.cells → self.old.own ≡ true }
        ensures kind { self.new.kind ≡ self.old.kind }
        ensures cells { self.new.cells ≡ take len self.old.cells }
        ensures keeps { IsColumnOf len self.new }
    {
        if let Hold::Own(column) = &mut self.hold {
            column.truncate(len);
        }
    }

    /// The same values in a column of this kind, which they fit.
    pub fn with_kind(self, alloc: Global, kind: Kind) -> Result<RelColumn, AllocError>
        requires low { IsColumn kind }
        requires fits { All (Fits kind) self.cells }
        ensures kind { IfOk result (λ made. made.kind ≡ kind) }
        ensures cells { IfOk result (λ made. made.cells ≡ self.cells) }
        ensures keeps { IfOk result (λ made. IsColumnOf (length self.cells) made) }
    {
        if self.kind() == kind {
            return Ok(self);
        }
        let own = self.into_own(alloc)?;
        Ok(RelColumn::own(own.with_kind(alloc, kind)?))
    }

    /// For each number of a column of ints the number of its bin of this width.
    pub fn bins(&self, alloc: Global, width: i64) -> Result<RelColumn, AllocError>
        requires int { self.now.kind ≢ kinds.Text }
        requires width { pos 1 ≤ℤ width }
        ensures kind { IfOk result (λ made. made.kind ≡ self.now.kind) }
        ensures cells { IfOk result (λ made. made.cells ≡ map (bin_of width) self.now.cells) }
        ensures keeps { IfOk result (λ made. IsColumnOf (length self.now.cells) made) }
    {
        Ok(RelColumn::own(self.values().bins(alloc, width)?))
    }

    /// A copy that is equal to its original. It copies no value that copies share.
    pub fn copy(&self, alloc: Global) -> Result<RelColumn, AllocError>
        ensures kind { IfOk result (λ copy. copy.kind ≡ self.now.kind) }
        ensures cells { IfOk result (λ copy. copy.cells ≡ self.now.cells) }
        ensures keeps { IfOk result (λ copy. IsColumnOf (length self.now.cells) copy) }
    {
        let hold = match &self.hold {
            Hold::Own(column) => Hold::Own(column.copy(alloc)?),
            Hold::Shared(shared) => Hold::Shared(Arc::try_clone(shared)?),
        };
        Ok(RelColumn { hold })
    }
}
