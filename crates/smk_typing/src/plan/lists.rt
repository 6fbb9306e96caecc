ghost use Rattle.std.specs.Prelude.{◌≡◌, ◌≤◌, ◌+◌, [], length, OnOk, IfOk};
ghost use Rattle.smk_model.specs.Names.{in_turn};
ghost use Rattle.smk_model.specs.TypedSteps as steps;
ghost use Rattle.smk_typing.specs.{Answers.Finds, Images.{group_of, part_after}};

use crate::plan::columns::{column_named, has_column, is_same_sort};
use crate::plan::typed::TypedGrouping;
use smk_base::{
    Agg, AggTree, AggWhat, Aggs, COLUMN_LIMIT, Column, Columns, Item, ItemTree, Items, Keys, Kind,
    ListOf, PairTree, Pairs, TypeFault, Word,
};
use std::alloc::Global;

/// Appends a part of a list and its column, under a new name.
fn add_named<T: Copy + Drop>(
    alloc: Global,
    parts: &mut ListOf<T>,
    made: &mut Columns,
    part: T,
    name: &Word,
    kind: Kind,
) -> Result<(), TypeFault>
    ensures after { Finds result (part_after (parts.old, made.old) part name.now kind) (λ _. (parts.new, made.new)) }
    ensures longer { OnOk result (length made.new ≡ length made.old + 1) }
{
    if has_column(made.as_slice(), &name.name) {
        return Err(TypeFault::DuplicateName { at: name.at });
    }
    let name = name.name.copy(alloc)?;
    made.push(Column { name, kind })?;
    parts.push(part)?;
    Ok(())
}

/// The word that an item has as name.
fn item_name(tree: &ItemTree) -> &Word
    ensures { result.now ≡ steps.item_name tree.now }
{
    match tree {
        ItemTree::Col { name, .. } => name,
        ItemTree::Bin { name, .. } => name,
    }
}

/// An item with its kind.
fn typed_item(columns: &[Column], tree: &ItemTree) -> Result<(Item, Kind), TypeFault>
    requires { length columns.now ≤ COLUMN_LIMIT }
    ensures { Finds result (steps.typed_item columns.now tree.now) (λ item. item) }
{
    match tree {
        ItemTree::Col { col, .. } => {
            let (number, kind) = column_named(columns, col)?;
            Ok((Item::Col(number), kind))
        }
        ItemTree::Bin { col, width, .. } => {
            let (number, kind) = column_named(columns, col)?;
            match kind {
                Kind::Text => Err(TypeFault::KindMismatch { at: col.at }),
                Kind::Int { .. } => Ok((
                    Item::Bin {
                        col: number,
                        width: *width,
                    },
                    kind,
                )),
            }
        }
    }
}

/// Appends items, and the columns that they make. On an error some of them are appended.
fn add_items(
    alloc: Global,
    columns: &[Column],
    trees: &[ItemTree],
    items: &mut Items,
    made: &mut Columns,
) -> Result<(), TypeFault>
    requires { length columns.now ≤ COLUMN_LIMIT }
    ensures items { Finds result (in_turn (steps.item_after columns.now) (items.old, made.old) trees.now) (λ _. (items.new, made.new)) }
    ensures width { OnOk result (length made.new ≡ length made.old + length trees.now) }
{
    for tree in trees {
        let (item, kind) = typed_item(columns, tree)?;
        add_named(alloc, items, made, item, item_name(tree), kind)?;
    }
    Ok(())
}

/// A list of items, and the columns that it makes.
pub fn typed_items(
    alloc: Global,
    columns: &[Column],
    trees: &[ItemTree],
) -> Result<(Items, Columns), TypeFault>
    requires { length columns.now ≤ COLUMN_LIMIT }
    ensures items { Finds result (steps.typed_items columns.now trees.now) (λ made. made) }
    ensures width { IfOk result (λ made. length made.1 ≡ length trees.now) }
{
    let mut items = Items::new(alloc);
    let mut made = Columns::new(alloc);
    match add_items(alloc, columns, trees, &mut items, &mut made) {
        Ok(()) => Ok((items, made)),
        Err(fault) => {
            drop(items);
            drop(made);
            Err(fault)
        }
    }
}

/// Appends keys, and the columns that they make. On an error some of them are appended.
fn add_keys(
    alloc: Global,
    columns: &[Column],
    words: &[Word],
    keys: &mut Keys,
    made: &mut Columns,
) -> Result<(), TypeFault>
    requires { length columns.now ≤ COLUMN_LIMIT }
    ensures { Finds result (in_turn (steps.key_after columns.now) (keys.old, made.old) words.now) (λ _. (keys.new, made.new)) }
{
    for word in words {
        let (number, kind) = column_named(columns, word)?;
        add_named(alloc, keys, made, number, word, kind)?;
    }
    Ok(())
}

/// The sum of a column.
fn typed_sum(word: &Word, number: u32, kind: Kind) -> Result<(Agg, Kind), TypeFault>
    ensures { Finds result (steps.typed_sum word.now number kind) (λ agg. agg) }
{
    match kind {
        Kind::Text => Err(TypeFault::KindMismatch { at: word.at }),
        Kind::Int { level } => {
            if level > 2 {
                return Err(TypeFault::SumTooDeep { at: word.at });
            }
            Ok((Agg::Sum(number), Kind::Int { level: level + 1 }))
        }
    }
}

/// An aggregate with its kind.
fn typed_agg(columns: &[Column], what: &AggWhat) -> Result<(Agg, Kind), TypeFault>
    requires { length columns.now ≤ COLUMN_LIMIT }
    ensures { Finds result (steps.typed_agg columns.now what.now) (λ agg. agg) }
{
    match what {
        AggWhat::Count => Ok((Agg::Count, Kind::Int { level: 0 })),
        AggWhat::Sum(word) => {
            let (number, kind) = column_named(columns, word)?;
            typed_sum(word, number, kind)
        }
        AggWhat::Min(word) => {
            let (number, kind) = column_named(columns, word)?;
            Ok((Agg::Min(number), kind))
        }
        AggWhat::Max(word) => {
            let (number, kind) = column_named(columns, word)?;
            Ok((Agg::Max(number), kind))
        }
    }
}

/// Appends aggregates, and their columns after those of the keys. On an error some of them are appended.
fn add_aggs(
    alloc: Global,
    columns: &[Column],
    trees: &[AggTree],
    aggs: &mut Aggs,
    made: &mut Columns,
) -> Result<(), TypeFault>
    requires { length columns.now ≤ COLUMN_LIMIT }
    ensures { Finds result (in_turn (steps.agg_after columns.now) (aggs.old, made.old) trees.now) (λ _. (aggs.new, made.new)) }
{
    for tree in trees {
        let (agg, kind) = typed_agg(columns, &tree.what)?;
        add_named(alloc, aggs, made, agg, &tree.name, kind)?;
    }
    Ok(())
}

/// Whether a grouping of this width is well typed as a whole, at the place of `group`.
fn whole_group(at: u64, group: &TypedGrouping) -> Result<(), TypeFault>
    ensures group { Finds result (steps.whole_group at group.now.keys group.now.aggs group.now.columns) (λ _. group_of group.now) }
    ensures width { OnOk result (length group.now.columns ≤ COLUMN_LIMIT) }
{
    let width = group.columns.as_slice().len();
    if width == 0 {
        return Err(TypeFault::EmptyList { at });
    }
    if width > COLUMN_LIMIT as usize {
        return Err(TypeFault::RowTooWide { at });
    }
    Ok(())
}

/// Puts the keys and the aggregates of a grouping, at the place of `group`. On an error some of them are put.
fn fill_group(
    alloc: Global,
    columns: &[Column],
    at: u64,
    words: &[Word],
    trees: &[AggTree],
    group: &mut TypedGrouping,
) -> Result<(), TypeFault>
    requires few { length columns.now ≤ COLUMN_LIMIT }
    requires none { group_of group.old ≡ record { keys = []; aggs = []; columns = [] } }
    ensures group { Finds result (steps.typed_group columns.now at words.now trees.now) (λ _. group_of group.new) }
    ensures width { OnOk result (length group.new.columns ≤ COLUMN_LIMIT) }
{
    add_keys(alloc, columns, words, &mut group.keys, &mut group.columns)?;
    add_aggs(alloc, columns, trees, &mut group.aggs, &mut group.columns)?;
    whole_group(at, group)
}

/// A grouping at the place of `group`.
pub fn typed_group(
    alloc: Global,
    columns: &[Column],
    at: u64,
    words: &[Word],
    trees: &[AggTree],
) -> Result<TypedGrouping, TypeFault>
    requires { length columns.now ≤ COLUMN_LIMIT }
    ensures group { Finds result (steps.typed_group columns.now at words.now trees.now) group_of }
    ensures width { IfOk result (λ group. length group.columns ≤ COLUMN_LIMIT) }
{
    let mut group = TypedGrouping {
        keys: Keys::new(alloc),
        aggs: Aggs::new(alloc),
        columns: Columns::new(alloc),
    };
    match fill_group(alloc, columns, at, words, trees, &mut group) {
        Ok(()) => Ok(group),
        Err(fault) => {
            drop(group);
            Err(fault)
        }
    }
}

/// Appends a pair of a join.
fn add_pair(
    lefts: &[Column],
    rights: &[Column],
    pairs: &mut Pairs,
    tree: &PairTree,
) -> Result<(), TypeFault>
    requires left { length lefts.now ≤ COLUMN_LIMIT }
    requires right { length rights.now ≤ COLUMN_LIMIT }
    ensures { Finds result (steps.pair_after lefts.now rights.now pairs.old tree.now) (λ _. pairs.new) }
{
    let (left, left_kind) = column_named(lefts, &tree.left)?;
    let (right, right_kind) = column_named(rights, &tree.right)?;
    if !is_same_sort(left_kind, right_kind) {
        return Err(TypeFault::KindMismatch { at: tree.right.at });
    }
    pairs.push((left, right))?;
    Ok(())
}

/// The pairs of a join.
pub fn typed_pairs(
    alloc: Global,
    lefts: &[Column],
    rights: &[Column],
    trees: &[PairTree],
) -> Result<Pairs, TypeFault>
    requires left { length lefts.now ≤ COLUMN_LIMIT }
    requires right { length rights.now ≤ COLUMN_LIMIT }
    ensures { Finds result (in_turn (steps.pair_after lefts.now rights.now) [] trees.now) (λ pairs. pairs) }
{
    let mut pairs = Pairs::new(alloc);
    for tree in trees {
        add_pair(lefts, rights, &mut pairs, tree)?;
    }
    Ok(pairs)
}
