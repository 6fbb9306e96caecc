ghost use Rattle.std.specs.{Prelude.{◌≡◌, ◌≢◌, ◌<◌, ◌≤◌, ◌≤ℤ◌, ◌+◌, true, [], ◌∷◌, ◌++◌, length, map, take, All, Some, IfOk, OnOk, OnErr, slice_index_or, vec_len, vec_capacity, FitsSigned, pos}, Int.{w64, int_div_euclid}};
ghost use Rattle.smk_base.specs.{Cells.value_of_cell, IntColumns.numbers_of, NextTexts.next_text, TextColumns.text_firsts, Rels.{AreBinsFrom, IsColumn, IsWider, IsWithin, Fits, value_in, text_of, number_of, bin_of}, Columns.{IsColumnOf, IsReady}, Stores.{kind_in_store, cells_in, column_of}};
ghost use Rattle.smk_base.specs.declared.value.Kind.TheVariants as kinds;
ghost use Rattle.smk_base.specs.declared.value.Value.TheVariants as values;

use crate::rel::ROW_LIMIT;
use crate::rel::text_column::{Next, TextColumn};
use crate::value::{CellRef, Kind};
use std::alloc::{AllocError, Global};
use std::marker::Model;
use std::mem;

// So many ints there are for each number between their bounds where bins are read off a table.
const INTS_PER_BIN: u64 = 8;

// The values of a column as they lie in memory.
#[derive(Drop)]
pub(crate) enum Store {
    Small(Vec<i64>),
    Wide(u8, Vec<i128>),
    Texts(TextColumn, Next),
}

/// The numbers of a column of ints, as wide as they lie in memory.
#[derive(Clone, Copy)]
pub enum Ints<'a> {
    Small(&'a [i64]),
    Wide(&'a [i128]),
}

/// Values of one kind by row. Contracts see the kind, the values, how many more fit without memory, and the text that does.
#[derive(Drop)]
pub(crate) struct ValueColumn {
    store: Store,
}

impl Model for ValueColumn {
    ghost use Rattle.std.specs.Prelude.{length};
    ghost use Rattle.smk_base.specs.Images.{ColumnImage};

    ghost Value = { ColumnImage };

    ghost use Rattle.smk_base.specs.{Columns.IsColumnOf, Stores.{column_of, cells_in}};

    ghost view = { λ a. column_of a.store };

    ghost invariant = { λ a. IsColumnOf (length (cells_in a.store)) (column_of a.store) };
}

impl ValueColumn {
    /// No row of this kind. It takes no memory.
    pub fn new(alloc: Global, kind: Kind) -> ValueColumn
        requires { IsColumn kind }
        ensures kind { result.kind ≡ kind }
        ensures cells { result.cells ≡ [] }
        ensures keeps { IsColumnOf 0 result }
    {
        ValueColumn::seeded(alloc, kind, 0)
    }

    /// No row of this kind, where many texts are found by the hashes of a seed.
    pub fn seeded(alloc: Global, kind: Kind, seed: u64) -> ValueColumn
        requires { IsColumn kind }
        ensures kind { result.kind ≡ kind }
        ensures cells { result.cells ≡ [] }
        ensures keeps { IsColumnOf 0 result }
    {
        let store = match kind {
            Kind::Int { level: 0 } => Store::Small(Vec::new(alloc)),
            Kind::Int { level } => Store::Wide(level, Vec::new(alloc)),
            Kind::Text => Store::Texts(TextColumn::new(alloc, seed), Next::Nothing),
        };
        ValueColumn { store }
    }

    /// The kind.
    pub fn kind(&self) -> Kind
        ensures kind { result ≡ self.now.kind }
        ensures low { IsColumn result }
    {
        match &self.store {
            Store::Small(_) => Kind::Int { level: 0 },
            Store::Wide(level, _) => Kind::Int { level: *level },
            Store::Texts(_, _) => Kind::Text,
        }
    }

    /// The value of row i.
    pub fn cell(&self, i: u32) -> CellRef<'_>
        requires { i < length self.now.cells }
        ensures { value_of_cell result ≡ value_in self.now.cells i }
    {
        match &self.store {
            Store::Small(ints) => CellRef::Int(ints[i as usize] as i128),
            Store::Wide(_, ints) => CellRef::Int(ints[i as usize]),
            Store::Texts(texts, _) => CellRef::Text(texts.text(i)),
        }
    }

    /// The texts of a column of texts.
    pub fn texts(&self) -> &TextColumn
        requires { self.now.kind ≡ kinds.Text }
        ensures { self.now.cells ≡ map values.Text result.now.texts }
    {
        match &self.store {
            Store::Texts(texts, _) => texts,
            _ => unreachable!(),
        }
    }

    /// The numbers of a column of ints.
    pub fn ints(&self) -> Ints<'_>
        requires { self.now.kind ≢ kinds.Text }
        ensures { map values.Int (numbers_of result) ≡ self.now.cells }
    {
        match &self.store {
            Store::Small(ints) => Ints::Small(ints.as_slice()),
            Store::Wide(_, ints) => Ints::Wide(ints.as_slice()),
            Store::Texts(_, _) => unreachable!(),
        }
    }

    /// Makes all the room that a value needs to go last.
    pub fn make_ready(&mut self, cell: CellRef) -> Result<(), AllocError>
        requires { Fits self.old.kind (value_of_cell cell) }
        ensures kind { self.new.kind ≡ self.old.kind }
        ensures cells { self.new.cells ≡ self.old.cells }
        ensures ready { OnOk result (IsReady self.new (value_of_cell cell.entry)) }
    {
        match &mut self.store {
            Store::Small(ints) => ints.reserve(1),
            Store::Wide(_, ints) => ints.reserve(1),
            Store::Texts(texts, next) => make_text_ready(texts, next, cell),
        }
    }

    /// Puts a value last that is ready to go there.
    pub fn push(&mut self, cell: CellRef)
        requires few { length self.old.cells < ROW_LIMIT }
        requires fits { Fits self.old.kind (value_of_cell cell) }
        requires ready { IsReady self.old (value_of_cell cell) }
        ensures kind { self.new.kind ≡ self.old.kind }
        ensures cells { self.new.cells ≡ self.old.cells ++ value_of_cell cell.entry ∷ [] }
        ensures keeps { IsColumnOf (length self.old.cells + 1) self.new }
    {
        put(&mut self.store, cell);
    }

    /// Puts an int last in a column of ints.
    pub fn push_int(&mut self, number: i64) -> Result<(), AllocError>
        requires few { length self.old.cells < ROW_LIMIT }
        requires fits { Fits self.old.kind (values.Int number) }
        ensures kind { self.new.kind ≡ self.old.kind }
        ensures pushed { OnOk result (self.new.cells ≡ self.old.cells ++ values.Int number ∷ []) }
        ensures keeps { OnOk result (IsColumnOf (length self.old.cells + 1) self.new) }
        ensures kept { OnErr result (self.new.cells ≡ self.old.cells) }
    {
        push_number(&mut self.store, number)?;
        Ok(())
    }

    /// Puts a text last in a column of texts.
    pub fn push_text(&mut self, text: &[u8]) -> Result<(), AllocError>
        requires few { length self.old.cells < ROW_LIMIT }
        requires text { self.old.kind ≡ kinds.Text }
        ensures kind { self.new.kind ≡ self.old.kind }
        ensures pushed { OnOk result (self.new.cells ≡ self.old.cells ++ values.Text text.now ∷ []) }
        ensures keeps { OnOk result (IsColumnOf (length self.old.cells + 1) self.new) }
        ensures kept { OnErr result (self.new.cells ≡ self.old.cells) }
    {
        match &mut self.store {
            Store::Texts(texts, _) => texts.push_bytes(text),
            _ => unreachable!(),
        }
    }

    /// The values of these rows, in this order.
    pub fn gather(&self, alloc: Global, places: &[u32]) -> Result<ValueColumn, AllocError>
        requires within { All (λ place. place < length self.now.cells) places.now }
        requires few { length places.now ≤ ROW_LIMIT }
        ensures kind { IfOk result (λ made. made.kind ≡ self.now.kind) }
        ensures cells { IfOk result (λ made. made.cells ≡ map (value_in self.now.cells) places.now) }
        ensures keeps { IfOk result (λ made. IsColumnOf (length places.now) made) }
    {
        Ok(ValueColumn {
            store: gathered(alloc, &self.store, places)?,
        })
    }

    /// Puts the values of another column last. The other's kind is the same or a narrower one. After an error the values are as before.
    pub fn append(&mut self, alloc: Global, other: &ValueColumn) -> Result<(), AllocError>
        requires few { length self.old.cells + length other.now.cells ≤ ROW_LIMIT }
        requires wider { IsWider self.old.kind other.now.kind }
        ensures kind { self.new.kind ≡ self.old.kind }
        ensures own { self.new.own ≡ true }
        ensures appended { OnOk result (self.new.cells ≡ self.old.cells ++ other.now.cells) }
        ensures keeps { OnOk result (IsColumnOf (length self.old.cells + length other.now.cells) self.new) }
        ensures kept { OnErr result (self.new.cells ≡ self.old.cells) }
    {
        let _other = &other.store;
        append_store(alloc, &mut self.store, &other.store)?;
        Ok(())
    }

    /// Keeps the first rows.
    pub fn truncate(&mut self, len: u32)
        requires { len ≤ length self.old.cells }
        ensures kind { self.new.kind ≡ self.old.kind }
        ensures own { self.new.own ≡ true }
        ensures cells { self.new.cells ≡ take len self.old.cells }
        ensures keeps { IsColumnOf len self.new }
    {
        truncate_store(&mut self.store, len);
    }

    /// The same values in a column of this kind, which they fit.
    pub fn with_kind(self, alloc: Global, kind: Kind) -> Result<ValueColumn, AllocError>
        requires low { IsColumn kind }
        requires fits { All (Fits kind) self.cells }
        ensures kind { IfOk result (λ made. made.kind ≡ kind) }
        ensures cells { IfOk result (λ made. made.cells ≡ self.cells) }
        ensures keeps { IfOk result (λ made. IsColumnOf (length self.cells) made) }
    {
        let ValueColumn { store } = self;
        Ok(ValueColumn {
            store: store_with_kind(alloc, store, kind)?,
        })
    }

    /// For each number of a column of ints the number of its bin of this width.
    pub fn bins(&self, alloc: Global, width: i64) -> Result<ValueColumn, AllocError>
        requires int { self.now.kind ≢ kinds.Text }
        requires width { pos 1 ≤ℤ width }
        ensures kind { IfOk result (λ made. made.kind ≡ self.now.kind) }
        ensures cells { IfOk result (λ made. made.cells ≡ map (bin_of width) self.now.cells) }
        ensures keeps { IfOk result (λ made. IsColumnOf (length self.now.cells) made) }
    {
        Ok(ValueColumn {
            store: binned(alloc, &self.store, width)?,
        })
    }

    /// A column of these ints, each in the range of the level.
    pub fn of_ints(alloc: Global, level: u8, numbers: Vec<i128>) -> Result<ValueColumn, AllocError>
        requires low { level ≤ 3 }
        requires few { vec_len numbers ≤ ROW_LIMIT }
        requires within { All (IsWithin level) numbers.items }
        ensures kind { IfOk result (λ made. made.kind ≡ kinds.Int level) }
        ensures cells { IfOk result (λ made. made.cells ≡ map values.Int numbers.items) }
        ensures keeps { IfOk result (λ made. IsColumnOf (vec_len numbers) made) }
    {
        Ok(ValueColumn {
            store: stored(alloc, level, numbers)?,
        })
    }

    /// A column of ints of this level: these counts.
    pub fn of_counts(alloc: Global, level: u8, counts: &[u32]) -> Result<ValueColumn, AllocError>
        requires low { level ≤ 3 }
        requires few { length counts.now ≤ ROW_LIMIT }
        ensures kind { IfOk result (λ made. made.kind ≡ kinds.Int level) }
        ensures cells { IfOk result (λ made. made.cells ≡ map values.Int (map pos counts.now)) }
        ensures keeps { IfOk result (λ made. IsColumnOf (length counts.now) made) }
    {
        let ints: Vec<i64> = counts.iter().map(|count| i64::from(*count)).collect(alloc)?;
        let small = ValueColumn {
            store: Store::Small(ints),
        };
        small.with_kind(alloc, Kind::Int { level })
    }

    /// A copy that is equal to its original.
    pub fn copy(&self, alloc: Global) -> Result<ValueColumn, AllocError>
        ensures kind { IfOk result (λ copy. copy.kind ≡ self.now.kind) }
        ensures cells { IfOk result (λ copy. copy.cells ≡ self.now.cells) }
        ensures keeps { IfOk result (λ copy. IsColumnOf (length self.now.cells) copy) }
    {
        let store = match &self.store {
            Store::Small(ints) => Store::Small(Vec::from_slice(alloc, ints.as_slice())?),
            Store::Wide(level, ints) => {
                Store::Wide(*level, Vec::from_slice(alloc, ints.as_slice())?)
            }
            Store::Texts(texts, _) => Store::Texts(texts.copy(alloc)?, Next::Nothing),
        };
        Ok(ValueColumn { store })
    }
}

// Puts a value last that is ready to go there.
fn put(store: &mut Store, cell: CellRef)
    requires few { length (cells_in store.old) < ROW_LIMIT }
    requires fits { Fits (kind_in_store store.old) (value_of_cell cell) }
    requires ready { IsReady (column_of store.old) (value_of_cell cell) }
    ensures kind { kind_in_store store.new ≡ kind_in_store store.old }
    ensures cells { cells_in store.new ≡ cells_in store.old ++ value_of_cell cell.entry ∷ [] }
{
    match store {
        Store::Small(ints) => put_small(ints, cell),
        Store::Wide(_, ints) => put_wide(ints, cell),
        Store::Texts(texts, next) => put_text(texts, next, cell),
    }
}

// Puts an int last in a store of ints.
fn push_number(store: &mut Store, number: i64) -> Result<(), AllocError>
    requires { kind_in_store store.old ≢ kinds.Text }
    ensures kind { kind_in_store store.new ≡ kind_in_store store.old }
    ensures pushed { OnOk result (cells_in store.new ≡ cells_in store.old ++ values.Int number ∷ []) }
    ensures kept { OnErr result (cells_in store.new ≡ cells_in store.old) }
{
    match store {
        Store::Small(ints) => ints.push(number)?,
        Store::Wide(_, ints) => ints.push(number as i128)?,
        Store::Texts(_, _) => unreachable!(),
    }
    Ok(())
}

// The values at these places, in this order.
fn gathered(alloc: Global, store: &Store, places: &[u32]) -> Result<Store, AllocError>
    requires within { All (λ place. place < length (cells_in store.now)) places.now }
    requires few { length places.now ≤ ROW_LIMIT }
    ensures kind { IfOk result (λ made. kind_in_store made ≡ kind_in_store store.now) }
    ensures cells { IfOk result (λ made. cells_in made ≡ map (value_in (cells_in store.now)) places.now) }
{
    match store {
        Store::Small(ints) => Ok(Store::Small(items_at(alloc, ints.as_slice(), places)?)),
        Store::Wide(level, ints) => Ok(Store::Wide(
            *level,
            items_at(alloc, ints.as_slice(), places)?,
        )),
        Store::Texts(texts, _) => Ok(Store::Texts(texts.gather(alloc, places)?, Next::Nothing)),
    }
}

// Puts the values of another store behind those of this one, whose kind is not the narrower one. After an error the values are as before.
fn append_store(alloc: Global, store: &mut Store, other: &Store) -> Result<(), AllocError>
    requires few { length (cells_in store.old) + length (cells_in other.now) ≤ ROW_LIMIT }
    requires wider { IsWider (kind_in_store store.old) (kind_in_store other.now) }
    requires fit { All (Fits (kind_in_store other.now)) (cells_in other.now) }
    ensures kind { kind_in_store store.new ≡ kind_in_store store.old }
    ensures cells { OnOk result (cells_in store.new ≡ cells_in store.old ++ cells_in other.now) }
    ensures kept { OnErr result (cells_in store.new ≡ cells_in store.old) }
{
    match (store, other) {
        (Store::Small(ints), Store::Small(more)) => ints.extend_from_slice(more.as_slice()),
        (Store::Wide(_, ints), Store::Small(more)) => append_small(ints, more.as_slice()),
        (Store::Wide(_, ints), Store::Wide(_, more)) => ints.extend_from_slice(more.as_slice()),
        (Store::Small(ints), Store::Wide(_, more)) => append_level_0(ints, more.as_slice()),
        (Store::Texts(texts, _), Store::Texts(more, _)) => texts.append(alloc, more),
        _ => unreachable!(),
    }
}

// Keeps the first values.
fn truncate_store(store: &mut Store, len: u32)
    ensures kind { kind_in_store store.new ≡ kind_in_store store.old }
    ensures cells { cells_in store.new ≡ take len (cells_in store.old) }
{
    match store {
        Store::Small(ints) => ints.truncate(len as usize),
        Store::Wide(_, ints) => ints.truncate(len as usize),
        Store::Texts(texts, _) => texts.truncate(len),
    }
}

// These ints, each in the range of the level.
fn stored(alloc: Global, level: u8, numbers: Vec<i128>) -> Result<Store, AllocError>
    requires { All (IsWithin level) numbers.items }
    ensures kind { IfOk result (λ made. kind_in_store made ≡ kinds.Int level) }
    ensures cells { IfOk result (λ made. cells_in made ≡ map values.Int numbers.items) }
{
    if level > 0 {
        return Ok(Store::Wide(level, numbers));
    }
    let mut ints = Vec::new(alloc);
    append_level_0(&mut ints, numbers.as_slice())?;
    Ok(Store::Small(ints))
}

#[tactic(auto, using(crate::proofs::Kept::ints_within, crate::proofs::Kept::no_ints, crate::proofs::Kept::no_texts))]
// The same values in a column of this kind, which they fit.
fn store_with_kind(alloc: Global, store: Store, kind: Kind) -> Result<Store, AllocError>
    requires low { IsColumn kind }
    requires fits { All (Fits kind) (cells_in store) }
    ensures kind { IfOk result (λ made. kind_in_store made ≡ kind) }
    ensures cells { IfOk result (λ made. cells_in made ≡ cells_in store) }
{
    // No text fits an int, and no int a text, so there is none.
    match kind {
        Kind::Int { level } => match store {
            Store::Small(ints) => match level {
                0 => Ok(Store::Small(ints)),
                _ => small_widened(alloc, ints.as_slice(), level),
            },
            Store::Wide(_, ints) => stored(alloc, level, ints),
            Store::Texts(_, _) => Ok(ValueColumn::new(alloc, kind).store),
        },
        Kind::Text => match store {
            Store::Small(_) => Ok(ValueColumn::new(alloc, kind).store),
            Store::Wide(_, _) => Ok(ValueColumn::new(alloc, kind).store),
            Store::Texts(texts, next) => Ok(Store::Texts(texts, next)),
        },
    }
}

// The same small ints in a column of wide ones of this level.
fn small_widened(alloc: Global, ints: &[i64], level: u8) -> Result<Store, AllocError>
    ensures kind { IfOk result (λ made. kind_in_store made ≡ kinds.Int level) }
    ensures cells { IfOk result (λ made. cells_in made ≡ map values.Int ints.now) }
{
    let mut wide = Vec::new(alloc);
    append_small(&mut wide, ints)?;
    Ok(Store::Wide(level, wide))
}

// For each number the number of its bin of this width.
fn binned(alloc: Global, store: &Store, width: i64) -> Result<Store, AllocError>
    requires int { kind_in_store store.now ≢ kinds.Text }
    requires width { pos 1 ≤ℤ width }
    ensures kind { IfOk result (λ made. kind_in_store made ≡ kind_in_store store.now) }
    ensures cells { IfOk result (λ made. cells_in made ≡ map (bin_of width) (cells_in store.now)) }
{
    match store {
        Store::Small(ints) => Ok(Store::Small(small_bins(alloc, ints.as_slice(), width)?)),
        Store::Wide(level, ints) => Ok(Store::Wide(
            *level,
            wide_bins(alloc, ints.as_slice(), width)?,
        )),
        Store::Texts(_, _) => unreachable!(),
    }
}

// The bin of each small int.
fn small_bins(alloc: Global, ints: &[i64], width: i64) -> Result<Vec<i64>, AllocError>
    requires { pos 1 ≤ℤ width }
    ensures { IfOk result (λ made. made.items ≡ map (λ n. int_div_euclid n width) ints.now) }
{
    let (least, bins) = bins_from(alloc, ints, width)?;
    let mut made = Vec::with_capacity(alloc, ints.len())?;
    for number in ints {
        made.push_reserved(bin_among(bins.as_slice(), least, *number, width));
    }
    Ok(made)
}

// The bin of an int: that of its place, where the bins of the least int and of those behind it have one.
#[inline(always)]
fn bin_among(bins: &[i64], least: i64, number: i64, width: i64) -> i64
    requires width { pos 1 ≤ℤ width }
    requires bins { AreBinsFrom least width bins.now }
    ensures { result ≡ int_div_euclid number width }
{
    if least <= number {
        if let Some(bin) = bins.get(number.abs_diff(least) as usize) {
            return *bin;
        }
    }
    number.div_euclid(width)
}

// The least of ints, and the bins of the numbers from it up to the greatest where there are far fewer of these than ints, so that dividing each number once is less work. Which numbers these are is a matter of time alone.
fn bins_from(alloc: Global, ints: &[i64], width: i64) -> Result<(i64, Vec<i64>), AllocError>
    requires { pos 1 ≤ℤ width }
    ensures { IfOk result (λ made. AreBinsFrom made.0 width made.1.items) }
{
    let mut least = i64::MAX;
    let mut greatest = i64::MIN;
    for n in ints {
        least = least.min(*n);
        greatest = greatest.max(*n);
    }
    let mut bins = Vec::new(alloc);
    if least <= greatest && greatest.abs_diff(least) < ints.len() as u64 / INTS_PER_BIN {
        let count = greatest.abs_diff(least) as usize + 1;
        bins.reserve_exact(count)?;
        for k in 0..count {
            bins.push((least + k as i64).div_euclid(width))?;
        }
    }
    Ok((least, bins))
}

// The bin of each int.
fn wide_bins(alloc: Global, ints: &[i128], width: i64) -> Result<Vec<i128>, AllocError>
    requires { pos 1 ≤ℤ width }
    ensures { IfOk result (λ made. made.items ≡ map (λ n. int_div_euclid n width) ints.now) }
{
    let width = width as i128;
    ints.iter().map(|n| n.div_euclid(width)).collect(alloc)
}

// The items at these places, in this order.
fn items_at<T: Copy + Drop>(
    alloc: Global,
    items: &[T],
    places: &[u32],
) -> Result<Vec<T>, AllocError>
    requires { All (λ place. place < length items.now) places.now }
    ensures { IfOk result (λ made. (d : T) → made.items ≡ map (λ place. slice_index_or items.now place d) places.now) }
{
    let mut made = Vec::with_capacity(alloc, places.len())?;
    for place in places {
        made.push_reserved(items[*place as usize]);
    }
    Ok(made)
}

// Puts ints of level 0 behind wider ones.
fn append_small(ints: &mut Vec<i128>, more: &[i64]) -> Result<(), AllocError>
    ensures appended { OnOk result (ints.new.items ≡ ints.old.items ++ more.now) }
    ensures kept { OnErr result (ints.new.items ≡ ints.old.items) }
{
    ints.reserve(more.len())?;
    for number in more {
        ints.push_reserved(*number as i128);
    }
    Ok(())
}

// Puts wide ints that are of level 0 behind small ones.
fn append_level_0(ints: &mut Vec<i64>, more: &[i128]) -> Result<(), AllocError>
    requires { All (λ number. FitsSigned w64 number) more.now }
    ensures appended { OnOk result (ints.new.items ≡ ints.old.items ++ more.now) }
    ensures kept { OnErr result (ints.new.items ≡ ints.old.items) }
{
    ints.reserve(more.len())?;
    for number in more {
        ints.push_reserved(*number as i64);
    }
    Ok(())
}

// Puts an int of level 0 last, where there is room.
fn put_small(ints: &mut Vec<i64>, cell: CellRef)
    requires room { vec_len ints.old < vec_capacity ints.old }
    requires fits { Fits (kinds.Int 0) (value_of_cell cell) }
    ensures { map values.Int ints.new.items ≡ map values.Int ints.old.items ++ value_of_cell cell.entry ∷ [] }
{
    let number = match cell {
        CellRef::Int(number) => number as i64,
        CellRef::Text(_) => unreachable!(),
    };
    ints.push_reserved(number);
}

// Puts an int last, where there is room.
fn put_wide(ints: &mut Vec<i128>, cell: CellRef)
    requires room { vec_len ints.old < vec_capacity ints.old }
    requires fits { value_of_cell cell ≡ values.Int (number_of (value_of_cell cell)) }
    ensures { map values.Int ints.new.items ≡ map values.Int ints.old.items ++ value_of_cell cell.entry ∷ [] }
{
    let number = match cell {
        CellRef::Int(number) => number,
        CellRef::Text(_) => unreachable!(),
    };
    ints.push_reserved(number);
}

// Makes the room that a text needs to go last.
fn make_text_ready(texts: &mut TextColumn, next: &mut Next, cell: CellRef) -> Result<(), AllocError>
    requires { Fits kinds.Text (value_of_cell cell) }
    ensures same { texts.new.texts ≡ texts.old.texts }
    ensures room { OnOk result (0 < texts.new.room) }
    ensures next { OnOk result (next_text (text_firsts texts.new.texts) texts.new.dict_room next.new ≡ Some (text_of (value_of_cell cell.entry))) }
{
    let text = match cell {
        CellRef::Text(text) => text,
        CellRef::Int(_) => unreachable!(),
    };
    *next = texts.next(text)?;
    Ok(())
}

// Puts the text last that is ready to go there.
fn put_text(texts: &mut TextColumn, next: &mut Next, cell: CellRef)
    requires few { length texts.old.texts < ROW_LIMIT }
    requires room { 0 < texts.old.room }
    requires fits { Fits kinds.Text (value_of_cell cell) }
    requires next { next_text (text_firsts texts.old.texts) texts.old.dict_room next.old ≡ Some (text_of (value_of_cell cell)) }
    ensures { map values.Text texts.new.texts ≡ map values.Text texts.old.texts ++ value_of_cell cell.entry ∷ [] }
{
    texts.push_next(mem::replace(next, Next::Nothing));
}
