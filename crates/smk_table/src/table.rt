ghost use Rattle.std.specs.Prelude.{◌≡◌, ◌+◌, ◌<◌, ◌≤◌, [], ◌++◌, length, take, All, IfOk, OnOk, OnErr};
ghost use Rattle.smk_base.specs.{Cells.value_of_cell, Rels.{IsRelation, Fits, kind_in, row_in, rows_at, value_in}, declared.rel.TheConstants.COLUMN_LIMIT};
ghost use Rattle.smk_model.specs.Tables.{IsBase};
ghost use Rattle.smk_table.specs.Showing.{first_rows};

use crate::chosen::Chosen;
use smk_base::{CellRef, Kind, ROW_LIMIT, Rel, Row, numbers_below};
use smk_outside::Steps;
use std::alloc::{AllocError, Global};
use std::marker::Model;
use std::sync::ledger::Ledger;

/// The rows of a table: at most 16 columns, the int ones of level 0, and at most 1,048,576 rows that fit them. Contracts see the kinds and the list of rows. A row is reached by counted looks alone.
#[derive(Drop)]
pub struct Table {
    rel: Rel,
    // How many rows are the table's: more may lie after them once it was cut, since answers that are still held can share the columns.
    shown: u32,
}

impl Model for Table {
    ghost use Rattle.std.specs.Prelude.{All, length, ◌≤◌};
    ghost use Rattle.smk_base.specs.Rels.{Relation};

    ghost Value = { Relation };

    ghost use Rattle.smk_model.specs.Tables.{IsBase};
    ghost use Rattle.smk_table.specs.Showing.{first_rows};

    ghost view = { λ a. first_rows a.shown a.rel };

    ghost invariant = { λ a. record { base : All IsBase a.rel.kinds; within : a.shown ≤ length a.rel.rows } };
}

impl Table {
    /// The table of rows that were read.
    pub(crate) fn of_rel(rel: Rel) -> Table
        requires { All IsBase rel.kinds }
        ensures { result ≡ rel }
    {
        let shown = rel.len();
        Table { rel, shown }
    }

    /// The number of rows. It makes no look.
    pub fn len(&self) -> u32
        ensures count { result ≡ length self.now.rows }
        ensures keeps { IsRelation self.now }
        ensures base { All IsBase self.now.kinds }
    {
        let _width = self.rel.width();
        self.shown
    }

    /// The number of columns. It makes no look.
    pub fn width(&self) -> u32
        ensures count { result ≡ length self.now.kinds }
        ensures few { result ≤ COLUMN_LIMIT }
    {
        self.rel.width()
    }

    /// The kind of column c. It makes no look.
    pub fn kind(&self, c: u32) -> Kind
        requires { c < length self.now.kinds }
        ensures kind { result ≡ kind_in self.now.kinds c }
        ensures base { IsBase result }
    {
        self.rel.kind(c)
    }

    /// Makes `into` the row at a rid, whatever it held before. It is one look, even if memory runs out; `into` is then empty.
    pub fn fetch<L: Ledger>(
        &self,
        alloc: Global,
        rid: u32,
        into: &mut Row,
        steps: &mut Steps<L>,
    ) -> Result<(), AllocError>
        requires { rid < length self.now.rows }
        ensures row { OnOk result (into.new ≡ row_in self.now.rows rid) }
        ensures empty { OnErr result (into.new ≡ []) }
        ensures look { steps.new ≡ steps.old + 1 }
    {
        into.clear();
        let filled = fill_row(alloc, &self.rel, rid, into);
        steps.tick();
        if filled.is_err() {
            into.clear();
        }
        filled
    }

    /// The rows at these rids, in this order. Each is one look, even if memory runs out.
    pub fn gather<L: Ledger>(
        &self,
        alloc: Global,
        rids: &[u32],
        steps: &mut Steps<L>,
    ) -> Result<Rel, AllocError>
        requires inside { All (λ rid. rid < length self.now.rows) rids.now }
        requires few { length rids.now ≤ ROW_LIMIT }
        ensures rows { IfOk result (λ rel. rel ≡ record { kinds = self.now.kinds; rows = rows_at self.now.rows rids.now }) }
        ensures looks { steps.new ≡ steps.old + length rids.now }
    {
        count_looks(rids.len() as u32, steps);
        self.rel.gather(alloc, rids)
    }

    /// All rows. Each is one look, even if memory runs out.
    pub fn whole<L: Ledger>(&self, alloc: Global, steps: &mut Steps<L>) -> Result<Rel, AllocError>
        ensures rows { IfOk result (λ rel. rel ≡ self.now) }
        ensures looks { steps.new ≡ steps.old + length self.now.rows }
    {
        count_looks(self.shown, steps);
        first_of(alloc, &self.rel, self.shown)
    }

    /// The rows at these rids, in this order, to be gathered later. Each is one look, at once and even if memory runs out.
    pub fn choose<L: Ledger>(
        &self,
        alloc: Global,
        rids: &[u32],
        steps: &mut Steps<L>,
    ) -> Result<Chosen, AllocError>
        requires inside { All (λ rid. rid < length self.now.rows) rids.now }
        requires few { length rids.now ≤ ROW_LIMIT }
        ensures rows { IfOk result (λ chosen. chosen ≡ record { kinds = self.now.kinds; rows = rows_at self.now.rows rids.now }) }
        ensures looks { steps.new ≡ steps.old + length rids.now }
    {
        let looks = rids.len() as u32;
        count_looks(looks, steps);
        Chosen::at_rids(alloc, &self.rel, rids)
    }

    /// All rows, to be gathered later. Each is one look, at once and even if memory runs out.
    pub fn choose_all<L: Ledger>(
        &self,
        alloc: Global,
        steps: &mut Steps<L>,
    ) -> Result<Chosen, AllocError>
        ensures rows { IfOk result (λ chosen. chosen ≡ self.now) }
        ensures looks { steps.new ≡ steps.old + length self.now.rows }
    {
        count_looks(self.shown, steps);
        Ok(Chosen::of_rel(first_of(alloc, &self.rel, self.shown)?))
    }

    /// The value of a column at a rid. It is one look.
    pub fn cell<L: Ledger>(&self, rid: u32, col: u32, steps: &mut Steps<L>) -> CellRef<'_>
        requires row { rid < length self.now.rows }
        requires column { col < length self.now.kinds }
        ensures value { value_of_cell result ≡ value_in (row_in self.now.rows rid) col }
        ensures fits { Fits (kind_in self.now.kinds col) (value_of_cell result) }
        ensures look { steps.new ≡ steps.old + 1 }
    {
        steps.tick();
        self.rel.cell(rid, col)
    }

    /// Appends the rows of another table of these kinds. It makes no look, and takes memory only for the new rows if nobody else holds the columns. After an error the table is as before.
    pub fn absorb(&mut self, alloc: Global, more: Table) -> Result<(), AllocError>
        requires kinds { more.kinds ≡ self.old.kinds }
        requires few { length self.old.rows + length more.rows ≤ ROW_LIMIT }
        ensures kinds { self.new.kinds ≡ self.old.kinds }
        ensures absorbed { OnOk result (self.new.rows ≡ self.old.rows ++ more.rows) }
        ensures kept { OnErr result (self.new ≡ self.old) }
    {
        let rows = first_of(alloc, &more.rel, more.shown)?;
        self.append(alloc, &rows)
    }

    // Appends rows of these kinds. After an error the table is as before.
    fn append(&mut self, alloc: Global, rows: &Rel) -> Result<(), AllocError>
        requires kinds { rows.now.kinds ≡ self.old.kinds }
        requires few { length self.old.rows + length rows.now.rows ≤ ROW_LIMIT }
        ensures kinds { self.new.kinds ≡ self.old.kinds }
        ensures appended { OnOk result (self.new.rows ≡ self.old.rows ++ rows.now.rows) }
        ensures kept { OnErr result (self.new ≡ self.old) }
    {
        self.rel.truncate(alloc, self.shown)?;
        self.rel.append(alloc, rows)?;
        self.rel.share(alloc)?;
        self.shown = self.rel.len();
        Ok(())
    }

    /// Keeps the first rows. It makes no look.
    pub fn cut(&mut self, len: u32)
        requires { len ≤ length self.old.rows }
        ensures { self.new ≡ record { kinds = self.old.kinds; rows = take len self.old.rows } }
    {
        self.shown = len;
    }
}

// The first rows of a Rel, in columns that it shares where these are all its rows.
fn first_of(alloc: Global, rel: &Rel, count: u32) -> Result<Rel, AllocError>
    requires { count ≤ length rel.now.rows }
    ensures { IfOk result (λ made. made ≡ first_rows count rel.now) }
{
    if count == rel.len() {
        return rel.copy(alloc);
    }
    let places = numbers_below(alloc, count)?;
    rel.gather(alloc, places.as_slice())
}

/// Appends the values of a row to those of an empty one.
fn fill_row(alloc: Global, rel: &Rel, row: u32, into: &mut Row) -> Result<(), AllocError>
    requires place { row < length rel.now.rows }
    requires empty { into.old ≡ [] }
    ensures { OnOk result (into.new ≡ row_in rel.now.rows row) }
{
    for c in 0..rel.width() {
        into.push(rel.cell(row, c).to_value(alloc)?)?;
    }
    Ok(())
}

/// Counts so many looks.
fn count_looks<L: Ledger>(looks: u32, steps: &mut Steps<L>)
    ensures { steps.new ≡ steps.old + looks }
{
    for _look in 0..looks {
        steps.tick();
    }
}
