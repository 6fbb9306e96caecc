// Rows added to a table, and what depends on them made again.
ghost use Rattle.std.specs.{Prelude.{◌≡◌, ◌<◌, ◌≤◌, ◌+◌, Some, length, map, option_map, IfOk, OnOk, OnErr}, List.sum_by};
ghost use Rattle.smk_base.specs.{CatalogImage.catalog_image, Places.upto};
ghost use Rattle.smk_model.specs.{Appends.{append_looks_at, looks_of_longer, longer_fault, scanning, turn_at}, Opening.{first_some, view_fault}};
ghost use Rattle.smk_compose.specs.Fetched.{table_of};
ghost use Rattle.smk_session.specs.{Parts.parts_image, Sessions.{IsSession, state_of, workbook_of}};
ghost use Rattle.smk_grow.specs.{Grown.{longer_tables, first_tables, rows_of}, Images.{grown_unless, next_image, renewed, renewed_unless, shortened, told_unless}, Renewals.{IsGrown, IsFresh, IsLengthened, last_of}, Renewed.{apart_view, looks_again, looks_of_declared}, Told.told_text};

use crate::apart::open_apart;
use crate::moving::move_views;
use crate::refusing::refused;
use crate::renewal::{Append, Renewal};
use crate::renewing::{Fresh, renew_told};
use crate::replacing::{forget, release, replace};
use smk_base::{AppendRefusal, AppendReply, ROW_LIMIT, Rids, Text};
use smk_jobs::Work;
use smk_outside::{Gate, Steps};
use smk_session::{Opened, Parts, Workers};
use smk_table::Table;
use std::alloc::{AllocError, Global};
use std::sync::ledger::Ledger;
use std::thread::Threads;

// Adds rows at the end of a table. After an error all tables are as they were.
fn lengthen(alloc: Global, tables: &mut [Table], table: u32, more: Table) -> Result<(), AllocError>
    requires table { table < length tables.old }
    requires kinds { more.kinds ≡ (table_of tables.old table).kinds }
    requires few { length (rows_of tables.old table) + length more.rows ≤ ROW_LIMIT }
    ensures longer { OnOk result (tables.new ≡ longer_tables tables.old table more.rows) }
    ensures kept { OnErr result (tables.new ≡ tables.old) }
{
    tables[table as usize].absorb(alloc, more)
}

// Adds rows to a table of a session, and moves the views that don't scan it. Gives how many rows the table had.
fn lengthen_parts(
    alloc: Global,
    parts: &mut Parts,
    table: u32,
    more: Table,
) -> Result<u32, AllocError>
    requires keeps { IsSession (parts_image parts.old) }
    requires table { table < length (parts_image parts.old).tables }
    requires kinds { more.kinds ≡ (table_of (parts_image parts.old).tables table).kinds }
    requires few { length (rows_of (parts_image parts.old).tables table) + length more.rows ≤ ROW_LIMIT }
    ensures longer { IfOk result (λ len. IsLengthened (parts_image parts.old) (parts_image parts.new) table len more.rows) }
    ensures kept { OnErr result (parts_image parts.new ≡ parts_image parts.old) }
{
    let len = parts.tables[table as usize].len();
    lengthen(alloc, parts.tables.as_mut_slice(), table, more)?;
    let size = parts.tables[table as usize].len();
    move_views(alloc, &parts.book, parts.views.as_mut_slice(), table, size);
    Ok(len)
}

// Leaves the first rows of a table.
fn shorten(tables: &mut [Table], table: u32, len: u32)
    requires table { table < length tables.old }
    requires len { len ≤ length (rows_of tables.old table) }
    ensures { tables.new ≡ first_tables tables.old table len }
{
    tables[table as usize].cut(len);
}

// Leaves the first rows of a session's table, and moves the views back that don't scan it.
fn shorten_parts(alloc: Global, parts: &mut Parts, table: u32, len: u32)
    requires { IsGrown (parts_image parts.old) table len }
    ensures { parts_image parts.new ≡ shortened table len (parts_image parts.old) }
{
    shorten(parts.tables.as_mut_slice(), table, len);
    move_views(alloc, &parts.book, parts.views.as_mut_slice(), table, len);
}

// Replaces what was kept by what was made again, and ends all brushes.
fn commit(parts: &mut Parts, table: u32, len: u32, fresh: Fresh) -> Rids
    requires grown { IsGrown (parts_image parts.old) table len }
    requires fresh { IsFresh table (workbook_of (parts_image parts.old)) fresh }
    ensures parts { parts_image parts.new ≡ renewed (parts_image parts.old) }
    ensures scanning { result ≡ scanning (workbook_of (parts_image parts.old)).catalog table }
{
    let Fresh {
        views,
        extras,
        scanning,
    } = fresh;
    replace(parts.views.as_mut_slice(), views);
    replace(parts.splits.as_mut_slice(), extras.splits);
    replace(parts.cubes.as_mut_slice(), extras.cubes);
    release(&mut parts.brushes);
    forget(parts.now.as_mut_slice());
    scanning
}

// What a session keeps, made again over a table that has been lengthened, with the text of what is added if the table's name is given. After a refusal and an error the table is cut to so many rows, and all views are over these.
fn renew_parts<R: Threads + Sync, G: Gate + Sync, L: Ledger>(
    work: &Work<'_, R, Workers<'_, G>>,
    parts: &mut Parts,
    append: &Append<'_>,
    apart: &[Option<Opened>],
    steps: &mut Steps<L>,
) -> Result<(AppendReply, Vec<u8>), AllocError>
    requires grown { IsGrown (parts_image parts.old) append.now.table append.now.len }
    requires apart { apart.now ≡ map (apart_view append.now.table (last_of (parts_image parts.old) append.now.table append.now.len)) (upto (length (workbook_of (parts_image parts.old)).catalog.views)) }
    ensures reply { IfOk result (λ told. told.0 ≡ told_unless (first_some (view_fault (workbook_of (parts_image parts.old))) (scanning (workbook_of (parts_image parts.old)).catalog append.now.table)) append.now.rows (scanning (workbook_of (parts_image parts.old)).catalog append.now.table)) }
    ensures text { IfOk result (λ told. told.1.items ≡ told_text (option_map (λ name. name.now) append.now.said) (workbook_of (parts_image parts.new)) told.0) }
    ensures after { OnOk result (parts_image parts.new ≡ renewed_unless (first_some (view_fault (workbook_of (parts_image parts.old))) (scanning (workbook_of (parts_image parts.old)).catalog append.now.table)) append.now.table append.now.len (parts_image parts.old)) }
    ensures kept { OnErr result (parts_image parts.new ≡ shortened append.now.table append.now.len (parts_image parts.old)) }
    ensures looks { steps.new ≤ steps.old + sum_by (looks_again append.now.table (workbook_of (parts_image parts.old))) (upto (length (workbook_of (parts_image parts.old)).catalog.views)) + sum_by (looks_of_declared append.now.table (workbook_of (parts_image parts.old))) (workbook_of (parts_image parts.old)).catalog.backs }
{
    let renewal = Renewal {
        book: &parts.book,
        tables: parts.tables.as_slice(),
        table: append.table,
        len: append.len,
        mode: parts.mode,
    };
    let olds = parts.views.as_slice();
    match renew_told(work, &renewal, append, olds, apart, steps) {
        Ok((fresh, text)) => {
            let views = commit(parts, append.table, append.len, fresh);
            let rows = append.rows;
            Ok((AppendReply::Added { rows, views }, text))
        }
        Err(fault) => {
            shorten_parts(work.alloc, parts, append.table, append.len);
            refused(work.alloc, fault)
        }
    }
}

// Appends rows that fit to a table of a session.
fn grow<R: Threads + Sync, G: Gate + Sync, L: Ledger>(
    work: &Work<'_, R, Workers<'_, G>>,
    parts: &mut Parts,
    table: u32,
    more: Table,
    said: Option<&Text>,
    steps: &mut Steps<L>,
) -> Result<(AppendReply, Vec<u8>), AllocError>
    requires keeps { IsSession (parts_image parts.old) }
    requires table { table < length (parts_image parts.old).tables }
    requires kinds { more.kinds ≡ (table_of (parts_image parts.old).tables table).kinds }
    requires few { length (rows_of (parts_image parts.old).tables table) + length more.rows ≤ ROW_LIMIT }
    ensures reply { IfOk result (λ told. told.0 ≡ told_unless (longer_fault (catalog_image (parts_image parts.old).catalog) (state_of (parts_image parts.old)) table more.rows) (length more.rows) (scanning (catalog_image (parts_image parts.old).catalog) table)) }
    ensures text { IfOk result (λ told. told.1.items ≡ told_text (option_map (λ name. name.now) said.entry) (workbook_of (parts_image parts.new)) told.0) }
    ensures after { OnOk result (parts_image parts.new ≡ grown_unless (longer_fault (catalog_image (parts_image parts.old).catalog) (state_of (parts_image parts.old)) table more.rows) table more.rows (parts_image parts.old)) }
    ensures kept { OnErr result (parts_image parts.new ≡ parts_image parts.old) }
    ensures looks { steps.new ≤ steps.old + looks_of_longer (catalog_image (parts_image parts.old).catalog) (state_of (parts_image parts.old)) table more.rows }
{
    let rows = more.len();
    let mut more = more;
    let apart = open_apart(work, parts, table, &mut more, steps)?;
    let len = lengthen_parts(work.alloc, parts, table, more)?;
    let append = Append {
        table,
        len,
        rows,
        said,
    };
    renew_parts(work, parts, &append, apart.as_slice(), steps)
}

// Appends rows to a table of a session, unless they are too many together.
pub(crate) fn grow_within<R: Threads + Sync, G: Gate + Sync, L: Ledger>(
    work: &Work<'_, R, Workers<'_, G>>,
    parts: &mut Parts,
    table: u32,
    more: Table,
    said: Option<&Text>,
    steps: &mut Steps<L>,
) -> Result<(AppendReply, Vec<u8>), AllocError>
    requires keeps { IsSession (parts_image parts.old) }
    requires table { table < length (parts_image parts.old).tables }
    requires kinds { more.kinds ≡ (table_of (parts_image parts.old).tables table).kinds }
    ensures reply { IfOk result (λ told. told.0 ≡ (turn_at (catalog_image (parts_image parts.old).catalog) (state_of (parts_image parts.old)) more.rows (Some table)).reply) }
    ensures text { IfOk result (λ told. told.1.items ≡ told_text (option_map (λ name. name.now) said.entry) (workbook_of (parts_image parts.new)) told.0) }
    ensures after { OnOk result (parts_image parts.new ≡ next_image (parts_image parts.old) table more.rows) }
    ensures kept { OnErr result (parts_image parts.new ≡ parts_image parts.old) }
    ensures looks { steps.new ≤ steps.old + append_looks_at (catalog_image (parts_image parts.old).catalog) (state_of (parts_image parts.old)) more.rows (Some table) }
{
    let together = parts.tables[table as usize].len() as u64 + more.len() as u64;
    if together > ROW_LIMIT as u64 {
        let refusal = AppendRefusal::TableRows;
        Ok((AppendReply::Refused(refusal), Vec::new(work.alloc)))
    } else {
        grow(work, parts, table, more, said, steps)
    }
}
