ghost use Rattle.std.specs.{Prelude.{◌≡◌, ◌≢◌, ◌+◌, ◌<◌, ◌≤◌, ◌≤ℤ◌, [], ◌∷◌, ◌++◌, length, map, take, pos, All, IfOk, OnOk, OnErr, vec_len}, List.AllZip};
ghost use Rattle.smk_base.specs.{Cells.value_of_cell, Columns.IsColumnOf, Dicts.code_or_last, IntColumns.numbers_of, Relations.{AreColumns, relation_of}, Rels.{IsRelation, RowFits, Fits, IsColumn, IsWithin, IsWider, AreCodesOf, kind_in, row_in, value_in, column_values, text_of, column_texts, bin_of, rows_at, picked, beside_rows}, TextColumns.{text_firsts, text_in}};
ghost use Rattle.smk_base.specs.declared.value.Kind.TheVariants as kinds;
ghost use Rattle.smk_base.specs.declared.value.Value.TheVariants as values;

pub(crate) mod dict;
mod each_column;
mod hashed;
pub(crate) mod rel_builder;
mod rel_column;
mod text_column;
pub(crate) mod value_column;

use crate::list::Row;
use crate::rel::dict::Dict;
use crate::rel::each_column::{
    append_each, begun_columns, copy_each, each_with_kind, gather_each, make_each_ready, own_each,
    owned_each, pick_each, push_each, share_each, truncate_each,
};
use crate::rel::rel_column::RelColumn;
use crate::rel::text_column::TextColumn;
use crate::rel::value_column::{Ints, ValueColumn};
use crate::value::{CellRef, Kind, Value};
use std::alloc::{AllocError, Global};
use std::marker::Model;

/// How many rows a Rel may have.
pub const ROW_LIMIT: u32 = 1_048_576;

/// How many columns a Rel may have.
pub const COLUMN_LIMIT: u32 = 16;

/// Rows of values that fit the kinds of their columns: at most 16 columns, the int ones of level at most 3, and at most 1,048,576 rows. Contracts see the kinds and the list of rows.
#[derive(Drop)]
pub struct Rel {
    columns: Vec<RelColumn>,
    count: u32,
    // The seed of the hashes by which values and keys of these rows are found: that of the rows of which they were made, or 0.
    seed: u64,
}

impl Model for Rel {
    ghost use Rattle.smk_base.specs.{Rels.Relation, Relations.{relation_of, AreColumns}};

    ghost Value = { Relation };

    ghost view = { λ a. relation_of a.count a.columns.items };

    ghost invariant = { λ a. AreColumns a.count a.columns.items };
}

impl Rel {
    /// A Rel of these kinds with no row.
    pub fn new(alloc: Global, kinds: &[Kind]) -> Result<Rel, AllocError>
        requires few_columns { length kinds.now ≤ COLUMN_LIMIT }
        requires low_levels { All IsColumn kinds.now }
        ensures { IfOk result (λ rel. rel ≡ record { kinds = kinds.now; rows = [] }) }
    {
        Ok(Rel {
            columns: owned_each(alloc, begun_columns(alloc, kinds, 0)?, 0)?,
            count: 0,
            seed: 0,
        })
    }

    /// The rows that lie in these columns.
    pub(crate) fn of_columns(columns: Vec<RelColumn>, count: u32, seed: u64) -> Rel
        requires { AreColumns count columns.items }
        ensures { result ≡ relation_of count columns.items }
    {
        Rel {
            columns,
            count,
            seed,
        }
    }

    /// The seed of the hashes by which values and keys of these rows are found.
    pub fn seed(&self) -> u64 {
        self.seed
    }

    /// The number of rows.
    pub fn len(&self) -> u32
        ensures count { result ≡ length self.now.rows }
        ensures keeps { IsRelation self.now }
    {
        self.count
    }

    /// The number of columns.
    pub fn width(&self) -> u32
        ensures count { result ≡ length self.now.kinds }
        ensures few { result ≤ COLUMN_LIMIT }
        ensures keeps { IsRelation self.now }
    {
        self.columns.len() as u32
    }

    /// The kind of column c.
    pub fn kind(&self, c: u32) -> Kind
        requires { c < length self.now.kinds }
        ensures kind { result ≡ kind_in self.now.kinds c }
        ensures low_level { IsColumn result }
    {
        self.columns[c as usize].kind()
    }

    /// The value in column c of row i.
    pub fn cell(&self, i: u32, c: u32) -> CellRef<'_>
        requires row { i < length self.now.rows }
        requires column { c < length self.now.kinds }
        ensures value { value_of_cell result ≡ value_in (row_in self.now.rows i) c }
        ensures fits { Fits (kind_in self.now.kinds c) (value_of_cell result) }
    {
        self.columns[c as usize].cell(i)
    }

    // The texts of column c, row by row.
    fn texts(&self, c: u32) -> &TextColumn
        requires column { c < length self.now.kinds }
        requires text { kind_in self.now.kinds c ≡ kinds.Text }
        ensures { column_values c self.now.rows ≡ map values.Text result.now.texts }
    {
        self.columns[c as usize].texts()
    }

    /// The texts of column c, each at its first occurrence.
    pub fn dict(&self, c: u32) -> &Dict
        requires column { c < length self.now.kinds }
        requires text { kind_in self.now.kinds c ≡ kinds.Text }
        ensures { result.now.texts ≡ text_firsts (column_texts c self.now.rows) }
    {
        self.texts(c).dict()
    }

    /// The code of the text in column c of row i.
    pub fn code(&self, i: u32, c: u32) -> u32
        requires row { i < length self.now.rows }
        requires column { c < length self.now.kinds }
        requires text { kind_in self.now.kinds c ≡ kinds.Text }
        ensures code { result ≡ code_or_last (text_firsts (column_texts c self.now.rows)) (text_of (value_in (row_in self.now.rows i) c)) }
        ensures within { result < length (text_firsts (column_texts c self.now.rows)) }
        ensures text { text_in (text_firsts (column_texts c self.now.rows)) result ≡ text_of (value_in (row_in self.now.rows i) c) }
    {
        self.texts(c).code(i)
    }

    /// The codes of the texts in column c, row by row: equal ones exactly where the texts are equal.
    pub fn codes(&self, c: u32) -> &[u32]
        requires column { c < length self.now.kinds }
        requires text { kind_in self.now.kinds c ≡ kinds.Text }
        ensures equal { AreCodesOf (column_values c self.now.rows) result.now }
        ensures codes { result.now ≡ map (code_or_last (text_firsts (column_texts c self.now.rows))) (column_texts c self.now.rows) }
        ensures within { All (λ code. code < length (text_firsts (column_texts c self.now.rows))) result.now }
        ensures texts { map (text_in (text_firsts (column_texts c self.now.rows))) result.now ≡ column_texts c self.now.rows }
    {
        self.texts(c).codes()
    }

    /// The numbers in column c, row by row.
    pub fn ints(&self, c: u32) -> Ints<'_>
        requires column { c < length self.now.kinds }
        requires int { kind_in self.now.kinds c ≢ kinds.Text }
        ensures { map values.Int (numbers_of result) ≡ column_values c self.now.rows }
    {
        self.columns[c as usize].ints()
    }

    /// Puts a row last. On an error the row is dropped.
    pub fn push_row(&mut self, row: Row) -> Result<(), AllocError>
        requires room { length self.old.rows < ROW_LIMIT }
        requires fits { RowFits self.old.kinds row }
        ensures kinds { self.new.kinds ≡ self.old.kinds }
        ensures pushed { OnOk result (self.new.rows ≡ self.old.rows ++ row ∷ []) }
        ensures kept { OnErr result (self.new ≡ self.old) }
    {
        let alloc = *self.columns.allocator();
        let cells = cells_of(alloc, row.as_slice())?;
        self.push_cells(cells.as_slice())
    }

    /// Puts the row of these values last. It takes memory where the columns grow, and for a text that its column hasn't yet.
    pub fn push_cells(&mut self, cells: &[CellRef]) -> Result<(), AllocError>
        requires room { length self.old.rows < ROW_LIMIT }
        requires fits { RowFits self.old.kinds (map value_of_cell cells.now) }
        ensures kinds { self.new.kinds ≡ self.old.kinds }
        ensures pushed { OnOk result (self.new.rows ≡ self.old.rows ++ map value_of_cell cells.now ∷ []) }
        ensures kept { OnErr result (self.new ≡ self.old) }
    {
        make_each_ready(&mut self.columns, cells, self.count)?;
        push_each(&mut self.columns, cells, self.count);
        self.count += 1;
        Ok(())
    }

    /// The same rows, whose values copies share: a copy then counts its columns, and copies no value.
    pub fn shared(self, alloc: Global) -> Result<Rel, AllocError>
        ensures { IfOk result (λ rel. rel ≡ self) }
    {
        let mut rel = self;
        rel.share(alloc)?;
        Ok(rel)
    }

    /// Lets copies share the values. After an error some columns are still to be copied with their values.
    pub fn share(&mut self, alloc: Global) -> Result<(), AllocError>
        ensures { self.new ≡ self.old }
    {
        share_each(alloc, &mut self.columns, self.count)
    }

    /// A copy that is equal to its original.
    pub fn copy(&self, alloc: Global) -> Result<Rel, AllocError>
        ensures { IfOk result (λ copy. copy ≡ self.now) }
    {
        Ok(Rel {
            columns: copy_each(alloc, self.columns.as_slice(), self.count)?,
            count: self.count,
            seed: self.seed,
        })
    }

    /// The rows at these places, in this order.
    pub fn gather(&self, alloc: Global, places: &[u32]) -> Result<Rel, AllocError>
        requires within { All (λ place. place < length self.now.rows) places.now }
        requires few { length places.now ≤ ROW_LIMIT }
        ensures { IfOk result (λ made. made ≡ record { kinds = self.now.kinds; rows = rows_at self.now.rows places.now }) }
    {
        Ok(Rel {
            columns: gather_each(alloc, self.columns.as_slice(), self.count, places)?,
            count: places.len() as u32,
            seed: self.seed,
        })
    }

    /// These columns, in this order.
    pub fn pick_columns(&self, alloc: Global, cols: &[u32]) -> Result<Rel, AllocError>
        requires within { All (λ c. c < length self.now.kinds) cols.now }
        requires few { length cols.now ≤ COLUMN_LIMIT }
        ensures { IfOk result (λ made. made ≡ record { kinds = map (kind_in self.now.kinds) cols.now; rows = map (picked cols.now) self.now.rows }) }
    {
        Ok(Rel {
            columns: pick_each(alloc, self.columns.as_slice(), self.count, cols)?,
            count: self.count,
            seed: self.seed,
        })
    }

    /// Keeps the first rows. It copies the columns that others hold too, and else takes no memory.
    pub fn truncate(&mut self, alloc: Global, len: u32) -> Result<(), AllocError>
        requires within { len ≤ length self.old.rows }
        ensures kinds { self.new.kinds ≡ self.old.kinds }
        ensures first { OnOk result (self.new.rows ≡ take len self.old.rows) }
        ensures kept { OnErr result (self.new ≡ self.old) }
    {
        own_each(alloc, &mut self.columns, self.count)?;
        truncate_each(&mut self.columns, len);
        self.count = len;
        Ok(())
    }

    /// Puts the rows of the other last, whose kinds are the same or narrower ones. It copies the columns that others hold too, and else takes memory for the new rows alone.
    pub fn append(&mut self, alloc: Global, other: &Rel) -> Result<(), AllocError>
        requires wider { AllZip IsWider self.old.kinds other.now.kinds }
        requires few { length self.old.rows + length other.now.rows ≤ ROW_LIMIT }
        ensures kinds { self.new.kinds ≡ self.old.kinds }
        ensures appended { OnOk result (self.new.rows ≡ self.old.rows ++ other.now.rows) }
        ensures kept { OnErr result (self.new ≡ self.old) }
    {
        let _other = &other.columns;
        let others = other.columns.as_slice();
        match append_each(alloc, &mut self.columns, self.count, others, other.count) {
            Ok(()) => {
                self.count += other.count;
                Ok(())
            }
            Err(error) => {
                truncate_each(&mut self.columns, self.count);
                Err(error)
            }
        }
    }

    /// These rows and then those of the other, whose kinds are the same or narrower ones.
    pub fn followed_by(self, alloc: Global, other: &Rel) -> Result<Rel, AllocError>
        requires wider { AllZip IsWider self.kinds other.now.kinds }
        requires few { length self.rows + length other.now.rows ≤ ROW_LIMIT }
        ensures { IfOk result (λ made. made ≡ record { kinds = self.kinds; rows = self.rows ++ other.now.rows }) }
    {
        let mut made = self;
        made.append(alloc, other)?;
        Ok(made)
    }

    /// The same rows in columns of these kinds, which they fit.
    pub fn with_kinds(self, alloc: Global, kinds: &[Kind]) -> Result<Rel, AllocError>
        requires low_levels { All IsColumn kinds.now }
        requires long { length kinds.now ≡ length self.kinds }
        requires fits { All (RowFits kinds.now) self.rows }
        ensures { IfOk result (λ made. made ≡ record { kinds = kinds.now; rows = self.rows }) }
    {
        let Rel {
            columns,
            count,
            seed,
        } = self;
        Ok(Rel {
            columns: each_with_kind(alloc, columns, count, kinds)?,
            count,
            seed,
        })
    }

    /// Each row with the one at the same place in the other behind it.
    pub fn beside(self, right: Rel) -> Result<Rel, AllocError>
        requires long { length self.rows ≡ length right.rows }
        requires few { length self.kinds + length right.kinds ≤ COLUMN_LIMIT }
        ensures { IfOk result (λ made. made ≡ record { kinds = self.kinds ++ right.kinds; rows = beside_rows self.rows right.rows }) }
    {
        let Rel {
            mut columns,
            count,
            seed,
        } = self;
        let Rel {
            columns: mut more,
            seed: other,
            ..
        } = right;
        columns.reserve_exact(more.len())?;
        columns.append(&mut more)?;
        Ok(Rel {
            columns,
            count,
            seed: seed.max(other),
        })
    }

    /// One column of the kind of column c: for each row the number of the bin of this width that has its number there, which is the quotient rounded down.
    pub fn bins(&self, alloc: Global, c: u32, width: i64) -> Result<Rel, AllocError>
        requires column { c < length self.now.kinds }
        requires int { kind_in self.now.kinds c ≢ kinds.Text }
        requires width { pos 1 ≤ℤ width }
        ensures { IfOk result (λ made. made ≡ record { kinds = kind_in self.now.kinds c ∷ []; rows = map (λ row. bin_of width (value_in row c) ∷ []) self.now.rows }) }
    {
        let column = self.columns[c as usize].bins(alloc, width)?;
        of_column(alloc, column, self.count, self.seed)
    }

    /// One column of ints of this level.
    pub fn of_ints(alloc: Global, level: u8, numbers: Vec<i128>) -> Result<Rel, AllocError>
        requires low_level { level ≤ 3 }
        requires few { vec_len numbers ≤ ROW_LIMIT }
        requires within { All (IsWithin level) numbers.items }
        ensures { IfOk result (λ made. made ≡ record { kinds = kinds.Int level ∷ []; rows = map (λ n. values.Int n ∷ []) numbers.items }) }
    {
        let count = numbers.len() as u32;
        let column = ValueColumn::of_ints(alloc, level, numbers)?;
        of_column(alloc, RelColumn::own(column), count, 0)
    }

    /// One column of ints of this level: these counts.
    pub fn of_counts(alloc: Global, level: u8, counts: &[u32]) -> Result<Rel, AllocError>
        requires low_level { level ≤ 3 }
        requires few { length counts.now ≤ ROW_LIMIT }
        ensures { IfOk result (λ made. made ≡ record { kinds = kinds.Int level ∷ []; rows = map (λ n. values.Int (pos n) ∷ []) counts.now }) }
    {
        let column = ValueColumn::of_counts(alloc, level, counts)?;
        of_column(alloc, RelColumn::own(column), counts.len() as u32, 0)
    }
}

// The values of a row where they lie in it.
fn cells_of(alloc: Global, row: &[Value]) -> Result<Vec<CellRef<'_>>, AllocError>
    ensures { IfOk result (λ made. map value_of_cell made.items ≡ row.now) }
{
    let mut made = Vec::with_capacity(alloc, row.len())?;
    for value in row {
        made.push_reserved(value.as_cell());
    }
    Ok(made)
}

// One column with so many rows.
fn of_column(alloc: Global, column: RelColumn, count: u32, seed: u64) -> Result<Rel, AllocError>
    requires { IsColumnOf count column }
    ensures { IfOk result (λ made. made ≡ record { kinds = column.kind ∷ []; rows = map (λ value. value ∷ []) column.cells }) }
{
    Ok(Rel {
        columns: vec![in alloc; column]?,
        count,
        seed,
    })
}
