// The rows of pieces of a text, put one after the other.
ghost use Rattle.std.specs.Prelude.{◌≡◌, ◌≢◌, ◌<◌, ◌≤◌, ◌+◌, ◌∷◌, ◌++◌, ℕ, List, [], length, map, slice_index_or, All, IfOk, Ok, Err};
ghost use Rattle.smk_base.specs.{declared.book.col_decl.ColDecl.ColDecl, declared.rel.TheConstants.{COLUMN_LIMIT, ROW_LIMIT}, declared.fault.TableFault.TheVariants.NoMemory, Rels.IsRelation};
ghost use Rattle.smk_model.specs.Tables.{declared_kinds};
ghost use Rattle.smk_table.specs.{Joined.{AreParts, columns_of, end_to_end}, Pieces.{Part, part_behind, parts_behind, Gives, GivesAll}};

use smk_base::{ColDecls, ROW_LIMIT, Rel, TableFault};
use std::alloc::{AllocError, Global};
use std::thread::{Threads, map_vec};

// The fault of a piece that was read by itself, where base records come before.
fn fault_of_part(base: u32, fault: TableFault) -> TableFault
    requires { base ≤ ROW_LIMIT }
    ensures memory { fault ≡ NoMemory → result ≡ NoMemory }
    ensures raised { fault ≢ NoMemory → part_behind base (Err fault) ≡ Err result }
{
    match fault {
        TableFault::Ragged { nth } if nth <= ROW_LIMIT - base => {
            TableFault::Ragged { nth: base + nth }
        }
        TableFault::BadInt { nth, col } if nth <= ROW_LIMIT - base => TableFault::BadInt {
            nth: base + nth,
            col,
        },
        TableFault::NoMemory => TableFault::NoMemory,
        _ => TableFault::TooManyRows,
    }
}

// A part that was read by itself, where base records come before: its rows, or its fault with its number raised, or too many rows.
fn part_from(base: u32, part: Result<Rel, TableFault>) -> Result<Rel, TableFault>
    requires { base ≤ ROW_LIMIT }
    ensures same { IfOk result (λ rel. part ≡ Ok rel) }
    ensures few { IfOk result (λ rel. base + length rel.rows ≤ ROW_LIMIT) }
    ensures gives { (cols : List ColDecl) (read : Part) → Gives cols read part → Gives cols (part_behind base read) result }
{
    match part {
        Ok(rel) if rel.len() > ROW_LIMIT - base => Err(TableFault::TooManyRows),
        Ok(rel) => Ok(rel),
        Err(fault) => Err(fault_of_part(base, fault)),
    }
}

// These columns of each part.
fn columns_of_each(alloc: Global, parts: &[Rel], cols: &[u32]) -> Result<Vec<Rel>, AllocError>
    requires few { length cols.now ≤ COLUMN_LIMIT }
    requires within { All (λ part. All (λ c. c < length part.kinds) cols.now) parts.now }
    ensures { IfOk result (λ made. made.items ≡ map (columns_of cols.now) parts.now) }
{
    let mut made = Vec::with_capacity(alloc, parts.len())?;
    for part in parts {
        made.push_reserved(part.pick_columns(alloc, cols)?);
    }
    Ok(made)
}

// Each column of all parts, and the parts with none.
fn by_columns(alloc: Global, parts: Vec<Rel>) -> Result<(Vec<Rel>, Vec<Vec<Rel>>), AllocError>
    requires { AreParts parts.items }
    ensures none { IfOk result (λ made. made.0.items ≡ map (columns_of []) parts.items) }
    ensures count { IfOk result (λ made. length made.1.items ≡ length (end_to_end parts.items).kinds) }
    ensures each { IfOk result (λ made. (c : ℕ) (d : _) → c < length (end_to_end parts.items).kinds → (slice_index_or made.1.items c d).items ≡ map (columns_of (c ∷ [])) parts.items) }
    ensures parts { IfOk result (λ made. All (λ column. AreParts column.items) made.1.items) }
{
    let width = parts[0].width();
    let mut made = Vec::with_capacity(alloc, width as usize)?;
    for c in 0..width {
        made.push_reserved(columns_of_each(alloc, parts.as_slice(), &[c])?);
    }
    Ok((columns_of_each(alloc, parts.as_slice(), &[])?, made))
}

// These rows and after them those of a part of the same kinds. Where there is no row yet the part's columns become the whole's.
fn followed_by_part(alloc: Global, whole: Rel, part: Rel) -> Result<Rel, AllocError>
    requires kinds { part.kinds ≡ whole.kinds }
    requires few { length whole.rows + length part.rows ≤ ROW_LIMIT }
    ensures { IfOk result (λ made. made ≡ record { kinds = whole.kinds; rows = whole.rows ++ part.rows }) }
{
    if whole.len() == 0 {
        return Ok(part);
    }
    whole.followed_by(alloc, &part)
}

// The parts one after the other.
fn parts_joined(alloc: Global, parts: Vec<Rel>) -> Result<Rel, AllocError>
    requires { AreParts parts.items }
    ensures { IfOk result (λ made. made ≡ end_to_end parts.items) }
{
    let mut whole = parts[0].gather(alloc, &[])?;
    for part in parts {
        whole = followed_by_part(alloc, whole, part)?;
    }
    Ok(whole)
}

// The parts of each column one after the other, in threads.
fn columns_joined<R: Threads + Sync>(
    rt: &R,
    alloc: Global,
    columns: Vec<Vec<Rel>>,
) -> Result<Vec<Result<Rel, AllocError>>, AllocError>
    requires { All (λ parts. AreParts parts.items) columns.items }
    ensures all { IfOk result (λ made. length made.items ≡ length columns.items) }
    ensures each { IfOk result (λ made. (c : ℕ) (d : _) (e : _) → c < length columns.items → IfOk (slice_index_or made.items c d) (λ rel. rel ≡ end_to_end (slice_index_or columns.items c e).items)) }
{
    map_vec(rt, columns, &|parts| parts_joined(alloc, parts))
}

// The parts one after the other, column by column. A part's column is let go as soon as it is there.
fn parts_joined_by_columns<R: Threads + Sync>(
    rt: &R,
    alloc: Global,
    parts: Vec<Rel>,
) -> Result<Rel, AllocError>
    requires parts { AreParts parts.items }
    requires relations { All IsRelation parts.items }
    ensures { IfOk result (λ made. made ≡ end_to_end parts.items) }
{
    let (none, columns) = by_columns(alloc, parts)?;
    let mut whole = parts_joined(alloc, none)?;
    for column in columns_joined(rt, alloc, columns)? {
        whole = whole.beside(column?)?;
    }
    Ok(whole)
}

/// The rows of all pieces in order, up to the first fault.
pub(crate) fn join_parts<R: Threads + Sync>(
    rt: &R,
    alloc: Global,
    cols: &ColDecls,
    parts: Vec<Result<Rel, TableFault>>,
) -> Result<Rel, TableFault>
    requires some { 0 < length parts.items }
    requires parts { All (λ part. IfOk part (λ rel. rel.kinds ≡ declared_kinds cols.now)) parts.items }
    ensures { (read : List Part) → GivesAll cols.now read parts.items → Gives cols.now (parts_behind 0 read) result }
{
    let mut all = Vec::with_capacity(alloc, parts.len())?;
    let mut count = 0;
    for part in parts {
        match part_from(count, part) {
            Ok(rel) => {
                count += rel.len();
                all.push_reserved(rel.shared(alloc)?);
            }
            Err(fault) => return Err(fault),
        }
    }
    Ok(parts_joined_by_columns(rt, alloc, all)?)
}
