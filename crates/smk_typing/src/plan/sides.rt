ghost use Rattle.std.specs.{Prelude.{◌≡◌, ◌≤◌, ◌++◌, length, map, IfOk, OnOk, Ok}, List.{list_all, zip}};
ghost use Rattle.smk_model.specs.{Names.same_sort, TypedSteps.united_column};
ghost use Rattle.smk_model.specs.TypedSteps as steps;
ghost use Rattle.smk_typing.specs.Answers.{Finds};

use crate::plan::columns::{has_column, is_same_sort};
use crate::plan::places::put;
use smk_base::{COLUMN_LIMIT, Column, Columns, TypeFault};
use std::alloc::Global;
use std::mem;

/// Whether a name is on both sides. A row has at most 16 columns.
fn share_a_name(lefts: &[Column], rights: &[Column]) -> bool
    ensures { result ≡ steps.share_a_name lefts.now rights.now }
{
    lefts.iter().any(|left| has_column(rights, &left.name))
}

/// The members of a list. It is left empty.
fn taken(alloc: Global, columns: &mut Columns) -> Vec<Column>
    ensures { result.items ≡ columns.old }
{
    mem::replace(columns, Columns::new(alloc)).into_vec()
}

/// Appends the right columns to the left ones.
fn append(alloc: Global, lefts: &mut Columns, rights: &mut Columns) -> Result<(), TypeFault>
    ensures columns { Finds result (Ok (lefts.old ++ rights.old)) (λ _. lefts.new) }
{
    let mut columns = taken(alloc, lefts);
    columns.append(&mut taken(alloc, rights))?;
    put(lefts, Columns::from_vec(columns));
    Ok(())
}

/// Appends the right columns to the left ones, at the place of `join`, `theta` or `product`.
pub fn join_columns(
    alloc: Global,
    at: u64,
    lefts: &mut Columns,
    rights: &mut Columns,
) -> Result<(), TypeFault>
    requires left { length lefts.old ≤ COLUMN_LIMIT }
    requires right { length rights.old ≤ COLUMN_LIMIT }
    ensures columns { Finds result (steps.joined at lefts.old rights.old) (λ _. lefts.new) }
    ensures width { OnOk result (length lefts.new ≤ COLUMN_LIMIT) }
{
    if share_a_name(lefts.as_slice(), rights.as_slice()) {
        return Err(TypeFault::DuplicateName { at });
    }
    if lefts.as_slice().len() + rights.as_slice().len() > COLUMN_LIMIT as usize {
        return Err(TypeFault::RowTooWide { at });
    }
    append(alloc, lefts, rights)
}

/// Whether the columns are in each place both ints or both texts, as far as both sides have columns.
fn are_same_sorts(lefts: &[Column], rights: &[Column]) -> bool
    ensures { result ≡ list_all (λ sides. same_sort sides.0.kind sides.1.kind) (zip lefts.now rights.now) }
{
    lefts
        .iter()
        .zip(rights.iter())
        .all(|(left, right)| is_same_sort(left.kind, right.kind))
}

/// The column that is united from a left and a right one.
fn united_column(alloc: Global, left: &Column, right: &Column) -> Result<Column, TypeFault>
    ensures { Finds result (Ok (steps.united_column (left.now, right.now))) (λ column. column) }
{
    let name = left.name.copy(alloc)?;
    Ok(Column {
        name,
        kind: left.kind.wider(right.kind),
    })
}

/// The columns that are united from two sides of as many columns.
#[tactic(auto, using(crate::proofs::Unions::take_more_zip, crate::proofs::Unions::take_all_zip))]
fn united_columns(alloc: Global, lefts: &[Column], rights: &[Column]) -> Result<Columns, TypeFault>
    requires { length lefts.now ≡ length rights.now }
    ensures columns { Finds result (Ok (map united_column (zip lefts.now rights.now))) (λ columns. columns) }
    ensures width { IfOk result (λ columns. length columns ≡ length lefts.now) }
{
    let mut columns = Columns::new(alloc);
    for (place, left) in lefts.iter().enumerate() {
        let column = united_column(alloc, left, &rights[place])?;
        columns.push(column)?;
    }
    Ok(columns)
}

/// The columns of a union, at the place of `union`.
pub fn united(
    alloc: Global,
    at: u64,
    lefts: &[Column],
    rights: &[Column],
) -> Result<Columns, TypeFault>
    requires { length lefts.now ≤ COLUMN_LIMIT }
    ensures columns { Finds result (steps.united at lefts.now rights.now) (λ columns. columns) }
    ensures width { IfOk result (λ columns. length columns ≤ COLUMN_LIMIT) }
{
    if lefts.len() != rights.len() {
        return Err(TypeFault::UnionShape { at });
    }
    if !are_same_sorts(lefts, rights) {
        return Err(TypeFault::UnionShape { at });
    }
    united_columns(alloc, lefts, rights)
}
