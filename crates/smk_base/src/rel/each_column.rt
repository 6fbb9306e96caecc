//! Loops over the columns of a relation.
ghost use Rattle.std.specs.Prelude.{◌≡◌, ℕ, ◌<◌, ◌≤◌, ◌+◌, true, [], ◌∷◌, ◌++◌, length, map, take, All, IfOk, OnOk, OnErr, Ok, slice_index, slice_index_or};
ghost use Rattle.smk_base.specs.{Cells.{value_of_cell, cell_in}, Rels.{IsColumn, IsWider, Fits, kind_in, value_in}, Columns.{IsColumnOf, IsReady}, Relations.{column_in, AreMade, AreLonger}, Changed.{TakesAt, LeavesAt, MayLeaveAt}};

use crate::rel::ROW_LIMIT;
use crate::rel::rel_column::RelColumn;
use crate::rel::value_column::ValueColumn;
use crate::value::{CellRef, Kind};
use std::alloc::{AllocError, Global};
use std::mem;

/// Columns of these kinds with no row, which may grow, and whose texts are found by the hashes of a seed.
pub(crate) fn begun_columns(
    alloc: Global,
    kinds: &[Kind],
    seed: u64,
) -> Result<Vec<ValueColumn>, AllocError>
    requires { All IsColumn kinds.now }
    ensures { IfOk result (λ made. AreMade 0 (length kinds.now) (kind_in kinds.now) (λ k. []) made.items) }
{
    made_each(
        alloc,
        kinds.len(),
        &|k: usize| -> Result<ValueColumn, AllocError>
            requires { (k < length kinds.now) × IsColumn (kind_in kinds.now k) }
            ensures { IfOk result (λ made. (made.kind ≡ kind_in kinds.entry.now k) × (made.cells ≡ []) × IsColumnOf 0 made) }
        { Ok(ValueColumn::seeded(alloc, kinds[k], seed)) },
    )
}

/// The columns, each of which its values lie with alone.
pub(crate) fn owned_each(
    alloc: Global,
    columns: Vec<ValueColumn>,
    count: u32,
) -> Result<Vec<RelColumn>, AllocError>
    requires { All (IsColumnOf count) columns.items }
    ensures { IfOk result (λ made. AreMade count (length columns.items) (λ k. (column_in columns.items k).kind) (λ k. (column_in columns.items k).cells) made.items) }
{
    columns
        .into_iter()
        .map(
            |column: ValueColumn| -> RelColumn
                requires { IsColumnOf (length column.cells) column }
                ensures { result ≡ column }
            { RelColumn::own(column) },
        )
        .collect(alloc)
}

/// Makes all the room that a row needs to go last.
pub(crate) fn make_each_ready(
    columns: &mut Vec<RelColumn>,
    cells: &[CellRef],
    count: u32,
) -> Result<(), AllocError>
    requires each { All (IsColumnOf count) columns.old.items }
    requires long { length cells.now ≡ length columns.old.items }
    requires fits { (k : ℕ) → k < length columns.old.items → Fits (column_in columns.old.items k).kind (value_of_cell (cell_in cells.now k)) }
    ensures same { AreMade count (length columns.old.items) (λ k. (column_in columns.old.items k).kind) (λ k. (column_in columns.old.items k).cells) columns.new.items }
    ensures ready { OnOk result ((k : ℕ) → k < length columns.old.items → IsReady (column_in columns.new.items k) (value_of_cell (cell_in cells.now k))) }
{
    let alloc = *columns.allocator();
    change_each(
        columns,
        &|c: usize, column: &mut RelColumn| -> Result<(), AllocError>
            requires { (c < length cells.now) × Fits column.old.kind (value_of_cell (cell_in cells.now c)) }
            ensures { (column.new.kind ≡ column.old.kind) × (column.new.cells ≡ column.old.cells) × OnOk result (IsReady column.new (value_of_cell (cell_in cells.entry.now c))) }
        { column.make_ready(alloc, cells[c]) },
    )
}

/// Puts a row last that is ready to go there.
pub(crate) fn push_each(columns: &mut Vec<RelColumn>, cells: &[CellRef], count: u32)
    requires few { count < ROW_LIMIT }
    requires each { All (IsColumnOf count) columns.old.items }
    requires long { length cells.now ≡ length columns.old.items }
    requires fits { (k : ℕ) → k < length columns.old.items → Fits (column_in columns.old.items k).kind (value_of_cell (cell_in cells.now k)) }
    requires ready { (k : ℕ) → k < length columns.old.items → IsReady (column_in columns.old.items k) (value_of_cell (cell_in cells.now k)) }
    ensures { AreMade (count + 1) (length columns.old.items) (λ k. (column_in columns.old.items k).kind) (λ k. (column_in columns.old.items k).cells ++ value_of_cell (cell_in cells.now k) ∷ []) columns.new.items }
{
    change_all(
        columns,
        &|c: usize, column: &mut RelColumn|
            requires { (c < length cells.now) × (length column.old.cells < ROW_LIMIT) × Fits column.old.kind (value_of_cell (cell_in cells.now c)) × IsReady column.old (value_of_cell (cell_in cells.now c)) }
            ensures { (column.new.kind ≡ column.old.kind) × (column.new.cells ≡ column.old.cells ++ value_of_cell (cell_in cells.entry.now c) ∷ []) × IsColumnOf (length column.old.cells + 1) column.new }
        { column.push(cells[c]) },
    )
}

/// The rows at these places, in this order.
pub(crate) fn gather_each(
    alloc: Global,
    columns: &[RelColumn],
    count: u32,
    places: &[u32],
) -> Result<Vec<RelColumn>, AllocError>
    requires each { All (IsColumnOf count) columns.now }
    requires within { All (λ place. place < count) places.now }
    requires few { length places.now ≤ ROW_LIMIT }
    ensures { IfOk result (λ made. AreMade (length places.now) (length columns.now) (λ k. (column_in columns.now k).kind) (λ k. map (value_in (column_in columns.now k).cells) places.now) made.items) }
{
    made_each(
        alloc,
        columns.len(),
        &|c: usize| -> Result<RelColumn, AllocError>
            requires { (c < length columns.now) × All (λ place. place < length (column_in columns.now c).cells) places.now × (length places.now ≤ ROW_LIMIT) }
            ensures { IfOk result (λ made. (made.kind ≡ (column_in columns.entry.now c).kind) × (made.cells ≡ map (value_in (column_in columns.entry.now c).cells) places.entry.now) × IsColumnOf (length places.entry.now) made) }
        { columns[c].gather(alloc, places) },
    )
}

/// Copies of the columns.
pub(crate) fn copy_each(
    alloc: Global,
    columns: &[RelColumn],
    count: u32,
) -> Result<Vec<RelColumn>, AllocError>
    requires { All (IsColumnOf count) columns.now }
    ensures { IfOk result (λ made. AreMade count (length columns.now) (λ k. (column_in columns.now k).kind) (λ k. (column_in columns.now k).cells) made.items) }
{
    made_each(
        alloc,
        columns.len(),
        &|c: usize| -> Result<RelColumn, AllocError>
            requires { c < length columns.now }
            ensures { IfOk result (λ made. (made.kind ≡ (column_in columns.entry.now c).kind) × (made.cells ≡ (column_in columns.entry.now c).cells)) }
        { columns[c].copy(alloc) },
    )
}

/// Lets copies share the values of each column.
pub(crate) fn share_each(
    alloc: Global,
    columns: &mut Vec<RelColumn>,
    count: u32,
) -> Result<(), AllocError>
    requires { All (IsColumnOf count) columns.old.items }
    ensures { AreMade count (length columns.old.items) (λ k. (column_in columns.old.items k).kind) (λ k. (column_in columns.old.items k).cells) columns.new.items }
{
    change_each(
        columns,
        &|_: usize, column: &mut RelColumn| -> Result<(), AllocError>
            ensures { (column.new.kind ≡ column.old.kind) × (column.new.cells ≡ column.old.cells) }
        { column.share(alloc) },
    )
}

/// Copies of these columns, in this order.
pub(crate) fn pick_each(
    alloc: Global,
    columns: &[RelColumn],
    count: u32,
    cols: &[u32],
) -> Result<Vec<RelColumn>, AllocError>
    requires each { All (IsColumnOf count) columns.now }
    requires within { All (λ c. c < length columns.now) cols.now }
    ensures { IfOk result (λ made. AreMade count (length cols.now) (λ k. (column_in columns.now (slice_index cols.now k)).kind) (λ k. (column_in columns.now (slice_index cols.now k)).cells) made.items) }
{
    made_each(
        alloc,
        cols.len(),
        &|k: usize| -> Result<RelColumn, AllocError>
            requires { (k < length cols.now) × (slice_index cols.now k < length columns.now) }
            ensures { IfOk result (λ made. (made.kind ≡ (column_in columns.entry.now (slice_index cols.entry.now k)).kind) × (made.cells ≡ (column_in columns.entry.now (slice_index cols.entry.now k)).cells)) }
        { columns[cols[k] as usize].copy(alloc) },
    )
}

/// Puts the rows of other columns last. After an error the first columns may have them.
pub(crate) fn append_each(
    alloc: Global,
    columns: &mut Vec<RelColumn>,
    count: u32,
    others: &[RelColumn],
    more: u32,
) -> Result<(), AllocError>
    requires each { All (IsColumnOf count) columns.old.items }
    requires others { All (IsColumnOf more) others.now }
    requires few { count + more ≤ ROW_LIMIT }
    requires wide { length columns.old.items ≡ length others.now }
    requires wider { (k : ℕ) → k < length columns.old.items → IsWider (column_in columns.old.items k).kind (column_in others.now k).kind }
    ensures appended { OnOk result (AreMade (count + more) (length columns.old.items) (λ k. (column_in columns.old.items k).kind) (λ k. (column_in columns.old.items k).cells ++ (column_in others.now k).cells) columns.new.items) }
    ensures longer { OnErr result (AreLonger count columns.old.items columns.new.items) }
{
    change_each(
        columns,
        &|c: usize, column: &mut RelColumn| -> Result<(), AllocError>
            requires { (c < length others.now) × (length column.old.cells + length (column_in others.now c).cells ≤ ROW_LIMIT) × IsWider column.old.kind (column_in others.now c).kind }
            ensures { (column.new.kind ≡ column.old.kind) × OnOk result ((column.new.own ≡ true) × (column.new.cells ≡ column.old.cells ++ (column_in others.entry.now c).cells) × IsColumnOf (length column.old.cells + length (column_in others.entry.now c).cells) column.new) × OnErr result (column.new.cells ≡ column.old.cells) }
        { column.append(alloc, &others[c]) },
    )
}

/// Lets the values of each column lie with it alone: it copies those that others hold too.
pub(crate) fn own_each(
    alloc: Global,
    columns: &mut Vec<RelColumn>,
    count: u32,
) -> Result<(), AllocError>
    requires { All (IsColumnOf count) columns.old.items }
    ensures same { AreMade count (length columns.old.items) (λ k. (column_in columns.old.items k).kind) (λ k. (column_in columns.old.items k).cells) columns.new.items }
    ensures own { OnOk result ((k : ℕ) → k < length columns.old.items → (column_in columns.new.items k).own ≡ true) }
{
    change_each(
        columns,
        &|_: usize, column: &mut RelColumn| -> Result<(), AllocError>
            ensures { (column.new.kind ≡ column.old.kind) × (column.new.cells ≡ column.old.cells) × OnOk result (column.new.own ≡ true) }
        { column.make_own(alloc) },
    )
}

/// Keeps the first rows of columns whose values lie with them alone where they have more.
pub(crate) fn truncate_each(columns: &mut Vec<RelColumn>, count: u32)
    requires each { (k : ℕ) → k < length columns.old.items → count ≤ length (column_in columns.old.items k).cells }
    requires own { (k : ℕ) → k < length columns.old.items → count < length (column_in columns.old.items k).cells → (column_in columns.old.items k).own ≡ true }
    ensures { AreMade count (length columns.old.items) (λ k. (column_in columns.old.items k).kind) (λ k. take count (column_in columns.old.items k).cells) columns.new.items }
{
    change_all(
        columns,
        &|_: usize, column: &mut RelColumn|
            requires { (count ≤ length column.old.cells) × (count < length column.old.cells → column.old.own ≡ true) }
            ensures { (column.new.kind ≡ column.old.kind) × (column.new.cells ≡ take count column.old.cells) × IsColumnOf count column.new }
        { column.truncate(count) },
    )
}

/// The same values in columns of these kinds, which they fit.
pub(crate) fn each_with_kind(
    alloc: Global,
    mut columns: Vec<RelColumn>,
    count: u32,
    kinds: &[Kind],
) -> Result<Vec<RelColumn>, AllocError>
    requires each { All (IsColumnOf count) columns.items }
    requires low { All IsColumn kinds.now }
    requires wide { length columns.items ≡ length kinds.now }
    requires fits { (k : ℕ) → k < length columns.items → All (Fits (kind_in kinds.now k)) (column_in columns.items k).cells }
    ensures { IfOk result (λ made. AreMade count (length columns.items) (kind_in kinds.now) (λ k. (column_in columns.items k).cells) made.items) }
{
    change_each(
        &mut columns,
        &|c: usize, column: &mut RelColumn| -> Result<(), AllocError>
            requires { (c < length kinds.now) × IsColumn (kind_in kinds.now c) × All (Fits (kind_in kinds.now c)) column.old.cells }
            ensures { OnOk result ((column.new.kind ≡ kind_in kinds.entry.now c) × (column.new.cells ≡ column.old.cells) × IsColumnOf (length column.old.cells) column.new) }
        {
            let was = mem::replace(column, RelColumn::new(alloc, Kind::Text));
            *column = was.with_kind(alloc, kinds[c])?;
            Ok(())
        },
    )?;
    Ok(columns)
}

/// What a call makes of each number below n, in order.
fn made_each<T: Drop, F: Fn(usize) -> Result<T, AllocError>>(
    alloc: Global,
    n: usize,
    make: &F,
) -> Result<Vec<T>, AllocError>
    requires { (k : ℕ) → k < n → F.pre make.now k }
    ensures long { IfOk result (λ made. length made.items ≡ n) }
    ensures each { IfOk result (λ made. (k : ℕ) (d : T) → k < n → F.post make.now k (Ok (slice_index_or made.items k d))) }
{
    let mut made = Vec::with_capacity(alloc, n)?;
    for k in 0..n {
        made.push_reserved(make(k)?);
    }
    Ok(made)
}

/// Changes each column in turn, up to the first call that fails.
fn change_each<F: Fn(usize, &mut RelColumn) -> Result<(), AllocError>>(
    columns: &mut Vec<RelColumn>,
    change: &F,
) -> Result<(), AllocError>
    requires { (k : ℕ) → k < length columns.old.items → TakesAt F.Fn change.now k (column_in columns.old.items k) }
    ensures long { length columns.new.items ≡ length columns.old.items }
    ensures all { OnOk result ((k : ℕ) → k < length columns.old.items → LeavesAt F.Fn change.now k (column_in columns.old.items k) (Ok tt) (column_in columns.new.items k)) }
    ensures each { (k : ℕ) → k < length columns.old.items → MayLeaveAt F.Fn change.now k (column_in columns.old.items k) (column_in columns.new.items k) }
{
    for c in 0..columns.len() {
        change(c, &mut columns[c])?;
    }
    Ok(())
}

/// Changes each column in turn.
fn change_all<F: Fn(usize, &mut RelColumn)>(columns: &mut Vec<RelColumn>, change: &F)
    requires { (k : ℕ) → k < length columns.old.items → TakesAt F.Fn change.now k (column_in columns.old.items k) }
    ensures long { length columns.new.items ≡ length columns.old.items }
    ensures all { (k : ℕ) → k < length columns.old.items → LeavesAt F.Fn change.now k (column_in columns.old.items k) tt (column_in columns.new.items k) }
{
    for c in 0..columns.len() {
        change(c, &mut columns[c]);
    }
}
