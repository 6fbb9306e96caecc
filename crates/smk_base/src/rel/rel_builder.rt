ghost use Rattle.std.specs.Prelude.{◌≡◌, ◌<◌, ◌≤◌, [], ◌∷◌, ◌++◌, length, All, IfOk, OnOk, OnErr};
ghost use Rattle.smk_base.specs.Rels.{IsColumn, Fits, kind_in};
ghost use Rattle.smk_base.specs.declared.value.Kind.TheVariants as kinds;
ghost use Rattle.smk_base.specs.declared.value.Value.TheVariants as values;

use crate::rel::each_column::{begun_columns, owned_each};
use crate::rel::value_column::ValueColumn;
use crate::rel::{COLUMN_LIMIT, ROW_LIMIT, Rel};
use crate::value::Kind;
use std::alloc::{AllocError, Global};
use std::marker::Model;

/// Rows that grow value by value, of at most 16 columns. Contracts see the kinds, the whole rows, and the values of the row that was begun.
#[derive(Drop)]
pub struct RelBuilder {
    columns: Vec<ValueColumn>,
    count: u32,
    // How many columns have a value of the row that was begun.
    at: usize,
    seed: u64,
}

impl Model for RelBuilder {
    ghost use Rattle.smk_base.specs.Builders.{RowsBegun, rows_begun, AreBegun};

    ghost Value = { RowsBegun };

    ghost view = { λ a. rows_begun a.count a.at a.columns.items };

    ghost invariant = { λ a. AreBegun a.count a.at a.columns.items };
}

impl RelBuilder {
    /// No row of these kinds, whose values are found by the hashes of a seed.
    pub fn new(alloc: Global, kinds: &[Kind], seed: u64) -> Result<RelBuilder, AllocError>
        requires few_columns { length kinds.now ≤ COLUMN_LIMIT }
        requires low_levels { All IsColumn kinds.now }
        ensures { IfOk result (λ builder. builder ≡ record { kinds = kinds.now; rows = []; begun = [] }) }
    {
        Ok(RelBuilder {
            columns: begun_columns(alloc, kinds, seed)?,
            count: 0,
            at: 0,
            seed,
        })
    }

    /// Puts an int last in the row that was begun. It takes memory where the column grows.
    pub fn push_int(&mut self, number: i64) -> Result<(), AllocError>
        requires room { length self.old.rows < ROW_LIMIT }
        requires column { length self.old.begun < length self.old.kinds }
        requires fits { Fits (kind_in self.old.kinds (length self.old.begun)) (values.Int number) }
        ensures pushed { OnOk result (self.new ≡ record { kinds = self.old.kinds; rows = self.old.rows; begun = self.old.begun ++ values.Int number ∷ [] }) }
        ensures kept { OnErr result (self.new ≡ self.old) }
    {
        self.columns[self.at].push_int(number)?;
        self.at += 1;
        Ok(())
    }

    /// Puts a text last in the row that was begun. It takes memory where the column grows, and for a text that it hasn't yet.
    pub fn push_text(&mut self, text: &[u8]) -> Result<(), AllocError>
        requires room { length self.old.rows < ROW_LIMIT }
        requires column { length self.old.begun < length self.old.kinds }
        requires text { kind_in self.old.kinds (length self.old.begun) ≡ kinds.Text }
        ensures pushed { OnOk result (self.new ≡ record { kinds = self.old.kinds; rows = self.old.rows; begun = self.old.begun ++ values.Text text.now ∷ [] }) }
        ensures kept { OnErr result (self.new ≡ self.old) }
    {
        self.columns[self.at].push_text(text)?;
        self.at += 1;
        Ok(())
    }

    /// Ends the row that was begun, which has a value in each column.
    pub fn end_row(&mut self)
        requires room { length self.old.rows < ROW_LIMIT }
        requires whole { length self.old.begun ≡ length self.old.kinds }
        ensures { self.new ≡ record { kinds = self.old.kinds; rows = self.old.rows ++ self.old.begun ∷ []; begun = [] } }
    {
        self.count += 1;
        self.at = 0;
    }

    /// The rows, none of which is begun.
    pub fn finish(self, alloc: Global) -> Result<Rel, AllocError>
        requires { self.begun ≡ [] }
        ensures { IfOk result (λ rel. rel ≡ record { kinds = self.kinds; rows = self.rows }) }
    {
        let RelBuilder {
            columns,
            count,
            seed,
            ..
        } = self;
        Ok(Rel::of_columns(owned_each(alloc, columns, count)?, count, seed))
    }
}
