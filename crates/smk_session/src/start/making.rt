// What is made for the backward declarations of a book that ask for more than rows.
ghost use Rattle.std.specs.{Prelude.{◌≡◌, ◌<◌, ◌≤◌, ◌+◌, ◌++◌, true, length, All, IfOk, IfSome, IfNone, None, OnOk}, List.{filter_map, sum_by}, Option.option_to_list};
ghost use Rattle.smk_model.specs.{Catalogs.table_kinds, Kinds.GroupFits, Typing.info_at};
ghost use Rattle.smk_session.specs.{Extras.{backs_of, table_of, split_on, cubes_on, split_in, cubes_in}, Making.{AreNow, IsOpened, IsDeclared, IsAsked, MakesAs, book_in, declared_in, is_wanted, split_wanted, cubes_wanted, looks_wanted}, Opened.{opened, workbook_image}};

use crate::start::abreast::are_few;
use crate::start::extras::Extras;
use crate::start::kept::back_kept;
use crate::start::scans::view_scans;
use smk_base::{Aggs, Back, BackExtra, Keys, Rel};
use smk_compose::Run;
use smk_jobs::{due, each_or_first};
use smk_outside::Steps;
use smk_push::Cubes;
use smk_rid::RidMap;
use smk_skip::Split;
use smk_table::{Chosen, Table};
use smk_typing::TypedBook;
use std::alloc::{AllocError, Global};
use std::sync::ledger::Ledger;
use std::thread::Threads;

/// A book over its tables; its views, and what replaces those that were made before a table grew; and the number of that table, if one has grown.
#[derive(Drop)]
pub struct Opening<'a> {
    pub book: &'a TypedBook,
    pub tables: &'a [Table],
    pub views: &'a [Run],
    pub fresh: &'a [Option<Run>],
    pub grown: Option<u32>,
}

// A declaration that asks for more than rows, with the rows of its table.
#[derive(Drop)]
struct ExtraAsked<'a> {
    declared: &'a Back,
    rows: Rel,
}

// What a declaration asks for besides the rows.
#[derive(Drop)]
struct SplitOrCubes {
    split: Option<Split>,
    cubes: Option<Cubes>,
}

/// A view as it is now.
pub fn view_now<'a>(opening: &'a Opening<'_>, v: u32) -> &'a Run
    requires opened { IsOpened opening.now }
    requires view { v < length opening.now.book.now.views }
    ensures { result.now ≡ opened (book_in opening.now) v }
{
    match opening.fresh.get(v as usize) {
        Some(Some(fresh)) => fresh,
        _ => &opening.views[v as usize],
    }
}

/// Whether what a declaration asks for besides the rows is made: always, or if the declaration depends on the table that has grown.
pub fn wants(opening: &Opening<'_>, declared: &Back) -> bool
    requires declared { IsDeclared opening.now.book.now declared.now }
    ensures { result ≡ is_wanted (book_in opening.now).catalog opening.now.grown declared.now }
{
    match opening.grown {
        None => true,
        Some(table) => view_scans(opening.book, table, declared.view) || declared.table == table,
    }
}

// The backward lineage that a declaration asks for. It is kept.
fn declared_map<'a>(opened: &'a Opening<'_>, declared: &Back) -> &'a RidMap
    requires opened { IsOpened opened.now }
    requires declared { IsDeclared opened.now.book.now declared.now }
    ensures { result.now ≡ backs_of (book_in opened.now) declared.now.view declared.now.table }
{
    match back_kept(view_now(opened, declared.view), declared.table as usize) {
        Some(map) => map,
        None => unreachable!(),
    }
}

// The table of a declaration.
fn declared_table<'a>(opened: &'a Opening<'_>, declared: &Back) -> &'a Table
    requires opened { IsOpened opened.now }
    requires declared { IsDeclared opened.now.book.now declared.now }
    ensures { result.now ≡ table_of (book_in opened.now) declared.now.table }
{
    &opened.tables[declared.table as usize]
}

// The declaration with the rows of its table, one look each, if it asks for more than rows and that is wanted.
fn fetch_asked<'a, L: Ledger>(
    alloc: Global,
    opened: &Opening<'_>,
    declared: &'a Back,
    steps: &mut Steps<L>,
) -> Result<Option<ExtraAsked<'a>>, AllocError>
    requires opened { IsOpened opened.now }
    requires declared { IsDeclared opened.now.book.now declared.now }
    ensures asked { IfOk result (λ asked. IfSome asked (λ one. IsAsked opened.now.book.now opened.now.tables.now one)) }
    ensures declared { IfOk result (λ asked. IfSome asked (λ one. one.declared.now ≡ declared.now)) }
    ensures wanted { IfOk result (λ asked. IfSome asked (λ _. is_wanted (book_in opened.now).catalog opened.now.grown declared.now ≡ true)) }
    ensures no_split { IfOk result (λ asked. IfNone asked (split_wanted (book_in opened.now) opened.now.grown declared.now ≡ None)) }
    ensures no_cubes { IfOk result (λ asked. IfNone asked (cubes_wanted (book_in opened.now) opened.now.grown declared.now ≡ None)) }
    ensures looks { steps.new ≤ steps.old + looks_wanted (book_in opened.now) opened.now.grown declared.now }
{
    if !wants(opened, declared) {
        return Ok(None);
    }
    match &declared.extra {
        BackExtra::Plain => Ok(None),
        _ => {
            let rows = declared_table(opened, declared).whole(alloc, steps)?;
            Ok(Some(ExtraAsked { declared, rows }))
        }
    }
}

// The lineage of a declaration split by a column.
fn made_split(
    alloc: Global,
    opened: &Opening<'_>,
    asked: &ExtraAsked<'_>,
    col: u32,
) -> Result<Split, AllocError>
    requires opened { IsOpened opened.now }
    requires asked { IsAsked opened.now.book.now opened.now.tables.now asked.now }
    requires column { col < length (table_kinds (info_at opened.now.book.now.tables asked.now.declared.now.table)) }
    ensures { IfOk result (λ made. made ≡ split_on (book_in opened.now) asked.now.declared.now.view asked.now.declared.now.table col) }
{
    let map = declared_map(opened, asked.declared);
    Split::of_rows(alloc, map, &asked.rows, col)
}

// The groups of each list of the lineage of a declaration.
fn made_cubes(
    alloc: Global,
    opened: &Opening<'_>,
    asked: ExtraAsked<'_>,
    keys: &Keys,
    aggs: &Aggs,
) -> Result<Cubes, AllocError>
    requires opened { IsOpened opened.now }
    requires asked { IsAsked opened.now.book.now opened.now.tables.now asked }
    requires fits { GroupFits (table_kinds (info_at opened.now.book.now.tables asked.declared.now.table)) keys.now aggs.now }
    ensures { IfOk result (λ made. made ≡ cubes_on (book_in opened.now) asked.entry.declared.now.view asked.entry.declared.now.table keys.now aggs.now) }
{
    let ExtraAsked { declared, rows } = asked;
    let map = declared_map(opened, declared);
    Cubes::of_rows(alloc, map, &Chosen::of_rel(rows), keys, aggs)
}

// What a declaration asks for besides the rows.
fn make(
    alloc: Global,
    opened: &Opening<'_>,
    asked: ExtraAsked<'_>,
) -> Result<SplitOrCubes, AllocError>
    requires opened { IsOpened opened.now }
    requires asked { IsAsked opened.now.book.now opened.now.tables.now asked }
    ensures { MakesAs (book_in opened.now) asked.entry result }
{
    let declared = asked.declared;
    match &declared.extra {
        BackExtra::Plain => Ok(SplitOrCubes {
            split: None,
            cubes: None,
        }),
        BackExtra::By(col) => {
            let split = made_split(alloc, opened, &asked, *col)?;
            Ok(SplitOrCubes {
                split: Some(split),
                cubes: None,
            })
        }
        BackExtra::Grouped { keys, aggs, .. } => {
            let cubes = made_cubes(alloc, opened, asked, keys, aggs)?;
            Ok(SplitOrCubes {
                split: None,
                cubes: Some(cubes),
            })
        }
    }
}

// Appends what a declaration asks for besides the rows.
fn put_made(extras: &mut Extras, made: SplitOrCubes) -> Result<(), AllocError>
    ensures splits { OnOk result (extras.new.splits.items ≡ extras.old.splits.items ++ option_to_list made.split) }
    ensures cubes { OnOk result (extras.new.cubes.items ≡ extras.old.cubes.items ++ option_to_list made.cubes) }
{
    let SplitOrCubes { split, cubes } = made;
    if let Some(split) = split {
        extras.splits.push(split)?;
    }
    if let Some(cubes) = cubes {
        extras.cubes.push(cubes)?;
    }
    Ok(())
}

// Appends what these declarations ask for besides the rows, in their order. So many are made at once.
fn put_each<R: Threads + Sync>(
    rt: &R,
    alloc: Global,
    most: u32,
    opened: &Opening<'_>,
    all: Vec<ExtraAsked<'_>>,
    extras: &mut Extras,
) -> Result<(), AllocError>
    requires most { 1 ≤ most }
    requires opened { IsOpened opened.now }
    requires asked { All (IsAsked opened.now.book.now opened.now.tables.now) all.items }
    ensures splits { OnOk result (extras.new.splits.items ≡ extras.old.splits.items ++ filter_map (split_in (book_in opened.now)) (declared_in all.entry.items)) }
    ensures cubes { OnOk result (extras.new.cubes.items ≡ extras.old.cubes.items ++ filter_map (cubes_in (book_in opened.now)) (declared_in all.entry.items)) }
{
    let (book, tables) = (opened.book, opened.tables);
    let (views, fresh) = (opened.views, opened.fresh);
    let made = each_or_first(
        rt,
        alloc,
        most,
        all,
        &|asked: ExtraAsked<'_>| -> Result<SplitOrCubes, AllocError>
            requires { AreNow book.now tables.now views.now fresh.now × IsAsked book.now tables.now asked }
            ensures { MakesAs (workbook_image book.entry.now tables.entry.now) asked.entry result }
        {
            let opened = Opening {
                book,
                tables,
                views,
                fresh,
                grown: None,
            };
            make(alloc, &opened, asked)
        },
    )?;
    for one in made {
        put_made(extras, one)?;
    }
    Ok(())
}

// How many declarations are made at once.
fn most_at_once(workers: u32, tables: &[Table]) -> u32
    requires { 1 ≤ workers }
    ensures { 1 ≤ result }
{
    if are_few(tables) { 1 } else { workers }
}

/// What declarations ask for besides the rows, in their order: all of them, or those that depend on the table that has grown. Each row of the table of such a declaration is one look. With several workers, and rows enough, so many are made at once.
pub fn make_extras<R: Threads + Sync, L: Ledger>(
    rt: &R,
    alloc: Global,
    workers: u32,
    opened: &Opening<'_>,
    steps: &mut Steps<L>,
) -> Result<Extras, AllocError>
    requires workers { 1 ≤ workers }
    requires opened { IsOpened opened.now }
    ensures splits { IfOk result (λ made. made.splits.items ≡ filter_map (split_wanted (book_in opened.now) opened.now.grown) opened.now.book.now.backs) }
    ensures cubes { IfOk result (λ made. made.cubes.items ≡ filter_map (cubes_wanted (book_in opened.now) opened.now.grown) opened.now.book.now.backs) }
    ensures looks { steps.new ≤ steps.old + sum_by (looks_wanted (book_in opened.now) opened.now.grown) opened.now.book.now.backs }
{
    let most = most_at_once(workers, opened.tables);
    let mut extras = Extras {
        splits: Vec::new(alloc),
        cubes: Vec::new(alloc),
    };
    let mut waiting = Vec::new(alloc);
    for declared in opened.book.catalog().backs.as_slice() {
        let all = due(alloc, most, &mut waiting);
        put_each(rt, alloc, most, opened, all, &mut extras)?;
        if let Some(asked) = fetch_asked(alloc, opened, declared, steps)? {
            waiting.push(asked)?;
        }
    }
    put_each(rt, alloc, most, opened, waiting, &mut extras)?;
    Ok(extras)
}
